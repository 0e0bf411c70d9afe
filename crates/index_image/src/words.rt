// Words as bytes, eight to a word, the lowest first. Compiled, a word is one load or one store.
ghost use Rattle.std.specs.Prelude.{◌≡◌, ◌+◌, ◌*◌, ◌≤◌, length};
ghost use Rattle.index_image.specs.Bytes.{bytes_of, put_at, words_from};

// Writes the bytes of the cells from a place on, and nothing else. A slice from there on is no plainer: each caller would have to
// say that what stands before it is kept.
pub(crate) fn write_words(bytes: &mut [u8], at: usize, cells: &[u64])
    requires { at + 8 * length cells.now ≤ length bytes.old }
    ensures { bytes.new ≡ put_at at (bytes_of cells.now) bytes.old }
{
    for (i, cell) in cells.iter().enumerate() {
        let from = at + 8 * i;
        bytes[from..from + 8].copy_from_slice(&cell.to_le_bytes());
    }
}

// Reads the words from a place on into the cells, by a place as `write_words` has one. By an index: no contract says what a `zip`
// over `iter_mut` leaves.
pub(crate) fn read_words(bytes: &[u8], at: usize, cells: &mut [u64])
    requires { at + 8 * length cells.old ≤ length bytes.now }
    ensures { cells.new ≡ words_from bytes.now at (length cells.old) }
{
    let (words, _) = bytes[at..].as_chunks::<8>();
    for (i, cell) in cells.iter_mut().enumerate() {
        *cell = u64::from_le_bytes(words[i]);
    }
}
