// The words that every contract is written in: rank and seek over any set of positions (specs/), the laws that these are held to
// (laws.rt), what a call may be turned down for, and a few functions on whole numbers.
#![tactic(auto)]

ghost use Rattle.std.specs.Prelude.{◌≡◌, ◌^◌, ◌<◌};
ghost use Rattle.rank_sel.specs.Numbers.{ceil_div, ilog2 as whole_log2};
ghost use Rattle.rank_sel.specs.Outcome.{number_of};

pub mod laws;

// A case for each row of document 01, "When a call is turned down", then those of document 02.
#[derive(Clone, Copy, Debug, PartialEq, Eq)]
pub enum Refusal {
    LenTooLarge = 1,
    TooFewWords = 2,
    OnesPerInventoryTooLarge = 3,
    WordsPerSubinventoryTooLarge = 4,
    OverheadNotPositive = 5,
    InventoryTooShort = 6,
    SpillTooShort = 7,
    RankTooLarge = 8,
    SummaryUnlawful = 9,
    CellsUnlawful = 10,
    RanksFall = 11,
    ListFalls = 12,
    TooFewPlaces = 13,
    OriginTooLarge = 14,
    ImageUnlawful = 15,
    PlaceTooShort = 16,
    SampleOutside = 17,
}

// The rows, in their order.
pub const REFUSAL_COUNT: usize = 17;

pub const REFUSALS: [Refusal; REFUSAL_COUNT] = [
    Refusal::LenTooLarge,
    Refusal::TooFewWords,
    Refusal::OnesPerInventoryTooLarge,
    Refusal::WordsPerSubinventoryTooLarge,
    Refusal::OverheadNotPositive,
    Refusal::InventoryTooShort,
    Refusal::SpillTooShort,
    Refusal::RankTooLarge,
    Refusal::SummaryUnlawful,
    Refusal::CellsUnlawful,
    Refusal::RanksFall,
    Refusal::ListFalls,
    Refusal::TooFewPlaces,
    Refusal::OriginTooLarge,
    Refusal::ImageUnlawful,
    Refusal::PlaceTooShort,
    Refusal::SampleOutside,
];

impl Refusal {
    // The row's number. Its bound is for C, whose status is a u32 with 255 for a code that is none.
    pub fn number(self) -> u64
        ensures row { result ≡ number_of self }
        ensures bound { result < 255 }
    {
        self as u64
    }
}

// 2^k
pub fn pow2(k: u32) -> u64
    requires { k < 64 }
    ensures { result ≡ 2 ^ k }
{
    1u64 << k
}

// n / 2^k, rounded up.
pub fn ceil_shift(n: u64, k: u32) -> u64
    requires { (n < 2 ^ 62) × (k < 64) }
    ensures { result ≡ ceil_div n (2 ^ k) }
{
    (n + (pow2(k) - 1)) >> k
}

// The whole part of the logarithm of an n above 0, and 0 of 0.
pub fn ilog2(n: u64) -> u32
    ensures { result ≡ whole_log2 n }
{
    if n == 0 { 0 } else { n.ilog2() }
}
