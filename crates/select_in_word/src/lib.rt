// One word: in-word select by the byte table, the same by sums over bytes, and the masks of a record's last word.
#![tactic(auto)]

ghost use Rattle.std.specs.Prelude.{cond, ◌≡◌, ℕ, suc, ◌-◌, ◌*◌, ◌%◌, ◌^◌, ◌≤◌, ◌<◌};
ghost use Rattle.std.specs.Int.Bits.{bit_and};
ghost use Rattle.std.specs.Int.Count.{ones};
ghost use Rattle.rank_sel.specs.Numbers.{sum};
ghost use Rattle.rank_sel.specs.Outcome.{outcome};
ghost use Rattle.rank_sel.specs.Rank.{ind};
ghost use Rattle.rank_sel.specs.Seek.{Sought};
ghost use Rattle.select_in_word.specs.Bit.{bit};
ghost use Rattle.select_in_word.specs.Bytes.{byte_of, Bytes, ByteSums, Tops, first_above};
ghost use Rattle.select_in_word.specs.Select.{Counts, OneAbove, ones_above, said, seek_in_word, select_in_byte, select_in_word};
ghost use Rattle.select_in_word.specs.Tail.{tail_mask};

mod byte_table;

use byte_table::SELECT_IN_BYTE;
use rank_sel::Refusal;

// A one of a word, and how many ones remain above it.
#[derive(Clone, Copy, Debug, PartialEq, Eq)]
pub struct One {
    pub position: u64,
    pub remaining: u64,
}

// How many ones a word has.
pub fn count_ones(word: u64) -> u64
    ensures { Counts word result }
{
    u64::count_ones(word) as u64
}

// How many ones a word has above a place.
pub fn ones_above(word: u64, position: u64) -> u64
    requires { position < 64 }
    ensures { result ≡ ones_above word position }
{
    count_ones((word >> position) >> 1)
}

fn select_in_byte(byte: u64, rank: u64) -> u64
    requires { (byte < 256) × (rank < 8) }
    ensures { result ≡ select_in_byte byte rank }
{
    SELECT_IN_BYTE[(byte | (rank << 8)) as usize] as u64
}

// Through the bytes and the table.
pub fn select_in_word(word: u64, rank: u64) -> Result<One, Refusal>
    ensures { outcome result ≡ select_in_word word rank }
{
    let mut left = rank;
    for i in 0..8 {
        let at = 8 * i;
        let byte = (word >> at) & 255;
        let ones = count_ones(byte);
        if left < ones {
            let position = at + select_in_byte(byte, left);
            let remaining = ones_above(word, position);
            return Ok(One {
                position,
                remaining,
            });
        }
        left -= ones;
    }
    Err(Refusal::RankTooLarge)
}

// The low n bits.
pub fn low_bits(word: u64, n: u64) -> u64
    requires { n < 64 }
    ensures { result ≡ word % 2 ^ n }
{
    word & ((1u64 << n) - 1)
}

// Each byte's ones, in that byte.
fn byte_ones(word: u64) -> u64
    ensures { Bytes (λ j. ones (byte_of word j)) result }
{
    let pairs = word - ((word >> 1) & 0x5555_5555_5555_5555);
    let nibbles = (pairs & 0x3333_3333_3333_3333) + ((pairs >> 2) & 0x3333_3333_3333_3333);
    (nibbles + (nibbles >> 4)) & 0x0f0f_0f0f_0f0f_0f0f
}

// In each byte, the sum of the bytes up to it.
fn running_sums(bytes: u64) -> u64
    requires { sum (byte_of bytes) 8 < 256 }
    ensures { Bytes (λ j. sum (byte_of bytes) (suc j)) result }
{
    let pairs = bytes + (bytes << 8);
    let quads = pairs + (pairs << 16);
    quads + (quads << 32)
}

// Which bytes are above k, in bit 7 of each: one subtraction for all bytes, none of which borrows.
fn tops_above(sums: u64, k: u64) -> u64
    requires { (k < 127) × ((j : ℕ) → j < 8 → byte_of sums j < 128) }
    ensures { Tops sums k result }
{
    (sums | 0x8080_8080_8080_8080) - (k + 1) * 0x0101_0101_0101_0101
}

// 8 times the number of the first byte above k.
fn first_above(sums: u64, k: u64) -> u64
    requires { (k < 127) × ((j : ℕ) → j < 8 → byte_of sums j < 128) }
    ensures { result ≡ 8 * first_above 8 sums k }
{
    u64::trailing_zeros((tops_above(sums, k) >> 7) & 0x0101_0101_0101_0101) as u64
}

// The number of the first of bytes 0 to 6 above k, or 7: byte 7 always ends the search.
fn first_above_low(sums: u64, k: u64) -> u64
    requires { (k < 127) × ((j : ℕ) → j < 8 → byte_of sums j < 128) }
    ensures { result ≡ first_above 7 sums k }
{
    let tops = tops_above(sums, k) | 0x8000_0000_0000_0000;
    u64::trailing_zeros(tops & 0x8080_8080_8080_8080) as u64 / 8
}

// Bit j of a number below 128, in byte j. The factor has a one at every seventh bit, 0 to 42, so that bit i of copy j comes to
// 7 * j + i: no two in one place, no carry. Place 8 * j is bit j of copy j alone.
fn spread_low(bits: u64) -> u64
    requires { bits < 128 }
    ensures { Bytes (λ j. ind (bit bits j)) result }
{
    (bits * 0x0408_1020_4081) & 0x0001_0101_0101_0101
}

// In each byte, the ones of the bytes up to it: the top byte has all of the word's.
fn byte_sums(word: u64) -> u64
    ensures { ByteSums word result }
{
    running_sums(byte_ones(word))
}

// The one with exactly k ones below it, of a word with these byte sums that has more than k (Vigna, "Broadword implementation
// of rank/select queries"). Within the byte bits 0 to 6 are enough: a one that is none of these is bit 7.
fn one_by(word: u64, sums: u64, k: u64) -> u64
    requires { ByteSums word sums × (k < ones word) }
    ensures { Sought (bit word) 64 0 k result }
{
    let at = first_above(sums, k);
    let before = ((sums << 8) >> at) & 255;
    let inner = running_sums(spread_low((word >> at) & 127));
    at + first_above_low(inner, k - before)
}

// The one with exactly k ones below it, by sums over bytes; the error is how many ones the word has where these are too few.
// What remains above it is known before its position is.
pub fn seek_in_word(word: u64, k: u64) -> Result<One, u64>
    ensures { said result ≡ seek_in_word word k }
{
    let sums = byte_sums(word);
    let ones = sums >> 56;
    if ones <= k {
        return Err(ones);
    }
    let position = one_by(word, sums, k);
    let remaining = ones - k - 1;
    Ok(One {
        position,
        remaining,
    })
}

// The same where bit 0 is likely to be the one: it is found without sums.
#[inline(always)]
pub fn seek_near(word: u64, k: u64) -> Result<One, u64>
    ensures { said result ≡ seek_in_word word k }
{
    if k == 0 && word % 2 == 1 {
        let remaining = ones_above(word, 0);
        return Ok(One {
            position: 0,
            remaining,
        });
    }
    seek_in_word(word, k)
}

// The one that so many remain above.
fn one_above(word: u64, remaining: u64) -> u64
    requires { remaining < ones word }
    ensures { OneAbove word remaining result }
{
    let sums = byte_sums(word);
    let ones = sums >> 56;
    one_by(word, sums, ones - remaining - 1)
}

// The lowest one.
pub fn first_one(word: u64) -> u64
    requires { 0 < word }
    ensures { Sought (bit word) 64 0 0 result }
{
    u64::trailing_zeros(word) as u64
}

// The highest one.
pub fn last_one(word: u64) -> u64
    requires { 0 < word }
    ensures { OneAbove word 0 result }
{
    word.ilog2() as u64
}

// The next one above a place.
fn next_one(word: u64, position: u64) -> u64
    requires { (position < 64) × (0 < ones_above word position) }
    ensures { OneAbove word (ones_above word position - 1) result }
{
    position + 1 + first_one((word >> position) >> 1)
}

// The one that is `by` ones above another: these are taken off what remains, and nothing is counted. The next one is found without
// sums.
pub fn one_on(word: u64, one: One, by: u64) -> One
    requires { OneAbove word one.remaining one.position × (by ≤ one.remaining) }
    ensures { OneAbove word result.remaining result.position × (result.remaining ≡ one.remaining - by) }
{
    let remaining = one.remaining - by;
    if by == 1 {
        let position = next_one(word, one.position);
        return One {
            position,
            remaining,
        };
    }
    let position = one_above(word, remaining);
    One {
        position,
        remaining,
    }
}

// Keeps the low `residual` bits of a word, or all 64 for 0: then the last word is full.
pub fn tail_mask(residual: u64) -> u64
    requires { residual < 64 }
    ensures { result ≡ tail_mask residual }
{
    if residual == 0 {
        u64::MAX
    } else {
        u64::MAX >> (64 - residual)
    }
}

// Clears the padding of the last word; any other word stays as it is.
pub fn mask_tail_word(word: u64, is_last: bool, tail_mask: u64) -> u64
    ensures { result ≡ cond is_last (bit_and word tail_mask) word }
{
    if is_last { word & tail_mask } else { word }
}
