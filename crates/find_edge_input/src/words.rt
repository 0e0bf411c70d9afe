// Bytes as words: eight to a word, the first lowest, so that bit p of the words is bit p mod 8 of byte p div 8.
ghost use Rattle.std.specs.Prelude.{◌≡◌, ◌*◌, ◌<◌, ◌≤◌, length};
ghost use Rattle.find_edge_input.specs.Words.{packed, word_of};

// Word i. A byte past the end counts as 0. By its number, as its definition is.
fn word_of(bytes: &[u8], i: usize) -> u64
    requires { 8 * i < length bytes.now }
    ensures { result ≡ word_of bytes.now i }
{
    let rest = &bytes[8 * i..];
    let n = rest.len().min(8);
    let mut eight = [0u8; 8];
    eight[..n].copy_from_slice(&rest[..n]);
    u64::from_le_bytes(eight)
}

// Puts the bytes at the start of the words. By index, since no contract says what a `zip` with `iter_mut` writes.
pub fn pack(bytes: &[u8], words: &mut [u64])
    requires { length bytes.now ≤ 8 * length words.old }
    ensures { words.new ≡ packed bytes.now words.old }
{
    for i in 0..bytes.len().div_ceil(8) {
        words[i] = word_of(bytes, i);
    }
}
