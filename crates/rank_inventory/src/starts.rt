// The entries' starts: the test that they rise, and the search.
ghost use Rattle.std.specs.Prelude.{◌≡◌, ◌+◌, ◌≤◌};
ghost use Rattle.read_inventory.specs.Read.{start_at};
ghost use Rattle.rank_inventory.specs.Read.{EntriesLent};
ghost use Rattle.rank_inventory.specs.Starts.{Ordered, starts_rise, starts_to};

use read_inventory::Cells;

// Whether the starts rise and stay below len.
pub(crate) fn starts_rise(cells: &Cells<'_>, entries: u64) -> bool
    requires { EntriesLent cells.now entries }
    ensures { result ≡ starts_rise (start_at cells.now.summary cells.now.inventory.now) cells.now.summary.plan.len entries }
{
    let mut least = 0;
    for entry in 0..entries {
        let start = cells.start_at(entry);
        if start < least || cells.summary.plan.len <= start {
            return false;
        }
        least = start + 1;
    }
    true
}

// How many entries start at or before a position, where all below `from` do and none from `to` on: the range is halved until it is
// empty.
pub(crate) fn search_starts(cells: &Cells<'_>, position: u64, from: u64, to: u64) -> u64
    requires { (from ≤ to) × EntriesLent cells.now to × Ordered (start_at cells.now.summary cells.now.inventory.now) from to }
    ensures { starts_to (start_at cells.now.summary cells.now.inventory.now) position from + result ≡ from + starts_to (start_at cells.now.summary cells.now.inventory.now) position to }
{
    if from == to {
        return from;
    }
    let middle = from + (to - from) / 2;
    if cells.start_at(middle) <= position {
        search_starts(cells, position, middle + 1, to)
    } else {
        search_starts(cells, position, from, middle)
    }
}
