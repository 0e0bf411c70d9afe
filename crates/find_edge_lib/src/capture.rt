// Reads the capture into words.
ghost use Rattle.std.specs.Prelude.{◌<◌, ◌≤◌, length, take, IfOk};
ghost use Rattle.std.specs.Io.KnownBytes.{Consumes, IsAtEnd};
ghost use Rattle.std.specs.Counts.{IsPrefixLen};

use find_edge_input::pack;
use std::io;
use std::io::Read;

#[derive(Clone, Copy, Debug, PartialEq, Eq)]
pub enum CaptureError {
    TooLong,
    NotRead,
}

// Whole words, so that each chunk but the last fills its words.
const CHUNK: usize = 65536;

// Reads until the buffer is full or the input ends, and answers how many bytes of the buffer it filled: fewer than all only at
// the end. A `while`, since each read says how far on the next one begins.
pub fn read_full<R: Read>(file: &mut R, buffer: &mut [u8]) -> io::Result<usize>
    ensures within { IfOk result (λ n. IsPrefixLen n buffer.new) }
    ensures bytes { IfOk result (λ n. Consumes (R.remaining file.old) (R.remaining file.new) (take n buffer.new)) }
    ensures end { IfOk result (λ n. n < length buffer.new → IsAtEnd (R.remaining file.new)) }
{
    let mut filled = 0;
    while filled < buffer.len() {
        let n = file.read(&mut buffer[filled..])?;
        if n == 0 {
            return Ok(filled);
        }
        filled += n;
    }
    Ok(filled)
}

// Reads a chunk into words that hold it, and answers its bytes.
fn read_chunk(file: &mut impl Read, words: &mut [u64]) -> Result<usize, CaptureError>
    ensures { IfOk result (λ n. n ≤ 65536) }
{
    let mut chunk = [0u8; CHUNK];
    let Ok(n) = read_full(file, &mut chunk) else {
        return Err(CaptureError::NotRead);
    };
    if n > 8 * words.len() {
        return Err(CaptureError::TooLong);
    }
    pack(&chunk[..n], words);
    Ok(n)
}

// Reads the capture to its end, and answers its samples.
pub fn read_capture(file: &mut impl Read, words: &mut [u64]) -> Result<u64, CaptureError> {
    let mut samples = 0u64;
    for part in words.chunks_mut(CHUNK / 8) {
        let n = read_chunk(file, part)?;
        samples = samples
            .checked_add(8 * n as u64)
            .ok_or(CaptureError::TooLong)?;
        if n < CHUNK {
            return Ok(samples);
        }
    }
    // Every word is full, so that only an empty chunk still fits.
    read_chunk(file, &mut [])?;
    Ok(samples)
}
