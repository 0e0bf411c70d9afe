// Records: lent words of which the first `len` bits count, and a polarity that says which of these are selected.
#![tactic(auto)]

ghost use Rattle.std.specs.Prelude.{◌≡◌, ◌+◌, ◌-◌, ◌*◌, ◌/◌, ◌^◌, ◌≤◌, ◌<◌, length};
ghost use Rattle.rank_sel.specs.Outcome.{outcome, test_by};
ghost use Rattle.select_in_word.specs.Holds.{Holds};
ghost use Rattle.bit_record.specs.Record.{CountsWords, bit_at, chosen, complemented, count_of, of_len, of_record_from, origin_too_large, position_at, sample_at, selected};

pub mod laws;
mod record;
mod seeks;
mod steps;

use rank_sel::Refusal;
pub use record::Record;
pub use seeks::Found;
use select_in_word::{count_ones, mask_tail_word, tail_mask};

#[derive(Clone, Copy, Debug, PartialEq, Eq)]
pub enum Polarity {
    Ones = 0,
    Zeros = 1,
}

// The most that a length may be, and a length after an origin.
const MAX_LEN: u64 = 0x3fff_ffff_ffff_ffff;

// Whether a record from `origin` on passes the last sample number. The sum may pass 2^64: it is not reckoned. That len has passed 1
// is asked of it, as of a summary's test: a type of such a number would be no plainer.
fn is_origin_too_large(origin: u64, len: u64) -> bool
    requires { len < 2 ^ 62 }
    ensures { result ≡ origin_too_large origin len }
{
    origin > MAX_LEN - len
}

// Refusals 1 and 14: the one test of a length and an origin, which a summary has without words too.
pub fn test_len(len: u64, origin: u64) -> Result<(), Refusal>
    ensures { outcome result ≡ test_by (of_len len origin) }
{
    if len > MAX_LEN {
        return Err(Refusal::LenTooLarge);
    }
    if is_origin_too_large(origin, len) {
        return Err(Refusal::OriginTooLarge);
    }
    Ok(())
}

// 1, 14 and 2: the one test of a record, whose bit 0 is sample number `origin`.
pub fn test_record(words: &[u64], len: u64, origin: u64) -> Result<(), Refusal>
    ensures { outcome result ≡ test_by (of_record_from words.now len origin) }
{
    test_len(len, origin)?;
    if (words.len() as u64) < (len + 63) / 64 {
        return Err(Refusal::TooFewWords);
    }
    Ok(())
}

// The one place where an origin is added to a position.
pub fn sample_at(origin: u64, position: u64) -> u64
    requires { sample_at origin position < 2 ^ 62 }
    ensures { result ≡ sample_at origin position }
{
    origin + position
}

// And the one where it is taken off a sample number, or refusal 17. What is past the end is told by the difference: the sum may
// pass 2^64.
pub fn position_at(origin: u64, len: u64, sample: u64) -> Result<u64, Refusal>
    ensures { outcome result ≡ position_at origin len sample }
{
    if sample < origin || len < sample - origin {
        return Err(Refusal::SampleOutside);
    }
    Ok(sample - origin)
}

// The word whose ones are the bits that the polarity selects.
fn complement_zeros(word: u64, polarity: Polarity) -> u64
    ensures { result ≡ complemented polarity word }
{
    match polarity {
        Polarity::Ones => word,
        Polarity::Zeros => !word,
    }
}

// Whether a position below `len` is selected.
pub fn is_selected(words: &[u64], polarity: Polarity, p: u64) -> bool
    requires { p / 64 < length words.now }
    ensures { result ≡ chosen polarity (bit_at words.now p) }
{
    let is_one = (words[(p / 64) as usize] >> (p % 64)) % 2 == 1;
    match polarity {
        Polarity::Ones => is_one,
        Polarity::Zeros => !is_one,
    }
}

// The 64 positions from 64 * i on, a one where the position is selected: none at or past `len`. Of any words: a `Record`
// would ask more of a caller.
pub fn selected_word(words: &[u64], i: usize, len: u64, polarity: Polarity) -> u64
    requires { (i < length words.now) × (64 * i < len) }
    ensures { Holds 64 (selected polarity words.now len) (64 * i) result }
{
    let word = complement_zeros(words[i], polarity);
    let is_last = len - 64 * (i as u64) <= 64;
    mask_tail_word(word, is_last, tail_mask(len % 64))
}

// How many bits of whole words are selected.
fn count_words(words: &[u64], polarity: Polarity) -> u64
    requires { 64 * length words.now < 2 ^ 62 }
    ensures { CountsWords polarity words.now 0 (length words.now) result }
{
    let mut total = 0;
    for word in words {
        total += count_ones(complement_zeros(*word, polarity));
    }
    total
}

// How many bits of the record are selected. From 0 on, 14 says nothing that 1 did not.
pub fn count(words: &[u64], len: u64, polarity: Polarity) -> Result<u64, Refusal>
    ensures { outcome result ≡ count_of words.now len polarity }
{
    test_record(words, len, 0)?;
    let full = (len / 64) as usize;
    let total = count_words(&words[..full], polarity);
    if len % 64 == 0 {
        return Ok(total);
    }
    Ok(total + count_ones(selected_word(words, full, len, polarity)))
}
