// The header of an image: eleven fields, from which the rest of its form follows.
ghost use Rattle.std.specs.Prelude.{MatchOption, not, ◌≡◌, ◌+◌, ◌^◌, ◌≤◌, ◌<◌, eqb, length, get_or};
ghost use Rattle.rank_sel.specs.Outcome.{outcome, test_by};
ghost use Rattle.index_image.specs.Bytes.{words_from};
ghost use Rattle.index_image.specs.Image.{header_len, header_of, image_unlawful, numbers_in, of_summary_alone, offset_of, summary_in};

use crate::words::read_words;
use bit_record::test_len;
use inventory::{SUMMARY_NUMBERS, Summary, summary_at, test_summary};
use rank_sel::Refusal;

pub(crate) const FIELDS: usize = 11;

pub(crate) const HEADER_LEN: u64 = 8 * FIELDS as u64;

// 1, 14 and 9: a summary without a record.
pub(crate) fn test_alone(summary: Summary) -> Result<(), Refusal>
    ensures { outcome result ≡ test_by (of_summary_alone summary) }
{
    test_len(summary.plan.len, summary.origin)?;
    test_summary(summary)
}

// A summary's numbers with the byte offset of its cells after each count.
pub(crate) fn header_of(numbers: [u64; SUMMARY_NUMBERS]) -> [u64; FIELDS]
    requires { offset_of (get_or numbers 7 0) < 2 ^ 64 }
    ensures { result ≡ header_of numbers }
{
    let mut header = [0; FIELDS];
    header[..8].copy_from_slice(&numbers[..8]);
    header[8] = HEADER_LEN;
    header[9] = numbers[8];
    header[10] = HEADER_LEN + 8 * numbers[7];
    header
}

// The fields without the offsets.
fn numbers_in(header: [u64; FIELDS]) -> [u64; SUMMARY_NUMBERS]
    ensures { result ≡ numbers_in header }
{
    let mut numbers = [0; SUMMARY_NUMBERS];
    numbers[..8].copy_from_slice(&header[..8]);
    numbers[8] = header[9];
    numbers
}

fn read_header(bytes: &[u8]) -> [u64; FIELDS]
    requires { header_len ≤ length bytes.now }
    ensures { result ≡ words_from bytes.now 0 11 }
{
    let mut header = [0; FIELDS];
    read_words(bytes, 0, &mut header);
    header
}

// The summary that the header says.
pub(crate) fn summary_in(bytes: &[u8]) -> Summary
    requires { header_len ≤ length bytes.now }
    ensures { result ≡ summary_in bytes.now }
{
    summary_at(&numbers_in(read_header(bytes)))
}

// How many whole cells so many bytes have after the header and the inventory's, and none where they have not these. The count
// may be any number: it is taken off, and never added up.
pub(crate) fn cells_left(len: u64, inventory: u64) -> Option<u64>
    ensures { MatchOption result (len < offset_of inventory) (λ cells. (offset_of (inventory + cells) ≤ len) × (len < offset_of (inventory + cells + 1))) }
{
    (len.checked_sub(HEADER_LEN)? / 8).checked_sub(inventory)
}

// Whether a header and so many cells after it end at a byte.
fn is_end(end: u64, inventory: u64, spill: u64) -> bool
    ensures { result ≡ eqb end (offset_of (inventory + spill)) }
{
    end % 8 == 0 && cells_left(end, inventory) == Some(spill)
}

// Refusal 15: whether bytes are an image that writing can produce. The fields are held to the rules; nothing is written back.
pub(crate) fn is_image(bytes: &[u8]) -> bool
    ensures { result ≡ not (image_unlawful bytes.now) }
{
    let len = bytes.len() as u64;
    if len < HEADER_LEN {
        return false;
    }
    let [polarity, .., inventory_len, inventory, spill_len, spill] = read_header(bytes);
    polarity <= 1
        && inventory == HEADER_LEN
        && is_end(spill, inventory_len, 0)
        && is_end(len, inventory_len, spill_len)
        && test_alone(summary_in(bytes)).is_ok()
}
