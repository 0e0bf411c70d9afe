// Cells lent to the build: filled before, compared after.
ghost use Rattle.std.specs.Prelude.{◌≡◌, length};
ghost use Rattle.replay.specs.Cells.{alike_from, blanks};

// Filled in before a build: a cell that it does not write shows.
const BLANK: u64 = 0xa5a5_a5a5_a5a5_a5a5;

pub(crate) fn fill(cells: &mut [u64])
    ensures { cells.new ≡ blanks (length cells.old) }
{
    cells.fill(BLANK);
}

// How many cells at the start are the same.
pub(crate) fn alike(a: &[u64], b: &[u64]) -> usize
    ensures { result ≡ alike_from 0 a.now b.now }
{
    a.iter()
        .zip(b)
        .position(|(x, y)| x != y)
        .unwrap_or(a.len().min(b.len()))
}

// Up to where the cells from `from` on are as they were filled: a place, as the answer is one.
pub(crate) fn blank_from(cells: &[u64], from: usize) -> usize
    ensures { result ≡ alike_from from cells.now (blanks (length cells.now)) }
{
    let blank = cells.iter().skip(from).position(|cell| *cell != BLANK);
    from + blank.unwrap_or(cells.len().saturating_sub(from))
}
