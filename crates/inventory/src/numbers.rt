// A summary as nine numbers, for the image and for C.
ghost use Rattle.std.specs.Prelude.{◌≡◌};
ghost use Rattle.inventory.specs.Numbers.{cut as cut_to32, numbers_of, polarity_at, summary_at};

use crate::summary::Summary;
use bit_record::Polarity;
use spacing::Parameters;

// The numbers of a summary.
pub const SUMMARY_NUMBERS: usize = 9;

// From a number, since images and C have numbers. Total, as its definition is: whether the number is a polarity's was tested
// before, and `TryFrom` would test it again.
pub fn polarity_at(code: u64) -> Polarity
    ensures { result ≡ polarity_at code }
{
    if code == 0 {
        return Polarity::Ones;
    }
    Polarity::Zeros
}

// The library's logarithms are u32. A larger number is refusal 9 of a summary, a no of check, and 3 of a choice; so
// is the largest u32.
pub fn cut(n: u64) -> u32
    ensures { result ≡ cut_to32 n }
{
    u32::try_from(n).unwrap_or(u32::MAX)
}

// This and `numbers_of` by these names, which the contracts of the image and of C have too: `From` would be no plainer.
pub fn summary_at(s: &[u64; SUMMARY_NUMBERS]) -> Summary
    ensures { result ≡ summary_at s.now }
{
    let plan = Parameters {
        polarity: polarity_at(s[0]),
        len: s[1],
        num: s[2],
        log2_ones_per_inventory: cut(s[4]),
        log2_words_per_subinventory: cut(s[5]),
        log2_ones_per_sub16: cut(s[6]),
    };
    Summary {
        plan,
        origin: s[3],
        inventory_len: s[7],
        spill_len: s[8],
    }
}

pub fn numbers_of(summary: Summary) -> [u64; SUMMARY_NUMBERS]
    ensures { result ≡ numbers_of summary }
{
    let plan = summary.plan;
    [
        plan.polarity as u64,
        plan.len,
        plan.num,
        summary.origin,
        plan.log2_ones_per_inventory as u64,
        plan.log2_words_per_subinventory as u64,
        plan.log2_ones_per_sub16 as u64,
        summary.inventory_len,
        summary.spill_len,
    ]
}
