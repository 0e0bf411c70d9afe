// Where a byte stands in a text.
ghost use Rattle.std.specs.Prelude.{◌≡◌, ◌≤◌, length};
ghost use Rattle.find_edge_input.specs.Scan.{index_of};

// The index of the first such byte, or the text's length where there is none.
pub fn find(text: &[u8], byte: u8) -> usize
    ensures value { result ≡ index_of byte text.now }
    ensures bound { result ≤ length text.now }
{
    text.iter()
        .position(|other| *other == byte)
        .unwrap_or(text.len())
}
