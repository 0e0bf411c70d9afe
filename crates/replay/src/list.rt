// The format of the list: oracle/src/replay.rs.
ghost use Rattle.std.specs.Prelude.{IfNone, IfSome, IsTrue, ◌≡◌, ◌≤◌, ◌<◌, ◌↔◌, [], ◌∷◌, length};
ghost use Rattle.std.specs.Float.{binary64};
ghost use Rattle.std.specs.Float.Ieee.{nan_bits, of_bits};
ghost use Rattle.replay.specs.List.{IsAnswered, IsCase, IsRefused};

use edge_index::{Choice, Polarity};
use edge_index_c::asked;
use inventory::cut;

const END: u64 = u64::MAX;

#[derive(Clone, Copy)]
pub(crate) struct Question {
    pub(crate) len: u64,
    pub(crate) origin: u64,
    pub(crate) polarity: Polarity,
    pub(crate) choice: Choice,
}

// N, L, M and S.
#[derive(Clone, Copy, Default)]
pub(crate) struct Figures {
    pub(crate) num: u64,
    pub(crate) log2_ones_per_inventory: u64,
    pub(crate) log2_words_per_subinventory: u64,
    pub(crate) log2_ones_per_sub16: u64,
}

// A refusal is the number that the list has. Where the Rust turns a case down, the figures are 0, and the parts after the words
// empty. The selects are a rank and its sample, by turns.
#[derive(Clone, Copy)]
pub(crate) struct Case<'a> {
    pub(crate) question: Question,
    pub(crate) refusal: Option<u64>,
    pub(crate) figures: Figures,
    pub(crate) words: &'a [u64],
    pub(crate) inventory: &'a [u64],
    pub(crate) spill: &'a [u64],
    pub(crate) selects: &'a [u64],
}

fn is_nan(bits: u64) -> bool
    ensures { result ≡ nan_bits binary64 bits }
{
    bits % 0x8000_0000_0000_0000 / 0x10_0000_0000_0000 == 2047 && bits % 0x10_0000_0000_0000 != 0
}

// To the library every NaN is the same, and from_bits takes none.
fn percentage_of(bits: u64) -> f64
    ensures { result ≡ of_bits binary64 bits }
{
    if is_nan(bits) {
        return 0.0 / 0.0;
    }
    f64::from_bits(bits)
}

fn read_refused(
    question: Question,
    refusal: u64,
    words: u64,
    list: &[u64],
) -> Option<(Case<'_>, &[u64])>
    ensures shorter { IfSome result (λ read. length read.1.now ≤ length list.now) }
    ensures read { IfSome result (λ read. IsRefused question refusal words list.now read.0 read.1.now) }
    ensures none { IfNone result (length list.now < words) }
{
    let (words, rest) = list.split_at_checked(words as usize)?;
    let case = Case {
        question,
        refusal: Some(refusal),
        figures: Figures::default(),
        words,
        inventory: &[],
        spill: &[],
        selects: &[],
    };
    Some((case, rest))
}

fn read_answered(question: Question, words: u64, list: &[u64]) -> Option<(Case<'_>, &[u64])>
    ensures shorter { IfSome result (λ read. length read.1.now ≤ length list.now) }
    ensures read { IfSome result (λ read. IsAnswered question words list.now read.0 read.1.now) }
{
    let [num, l, m, s, inventory_len, spill_len, rest @ ..] = list else {
        return None;
    };
    let (words, rest) = rest.split_at_checked(words as usize)?;
    let (inventory, rest) = rest.split_at_checked(*inventory_len as usize)?;
    let (spill, rest) = rest.split_at_checked(*spill_len as usize)?;
    let (pairs, rest) = rest.split_first()?;
    let (selects, rest) = rest.split_at_checked(pairs.saturating_mul(2) as usize)?;
    let figures = Figures {
        num: *num,
        log2_ones_per_inventory: *l,
        log2_words_per_subinventory: *m,
        log2_ones_per_sub16: *s,
    };
    let case = Case {
        question,
        refusal: None,
        figures,
        words,
        inventory,
        spill,
        selects,
    };
    Some((case, rest))
}

// The case at the start, and the list behind it; none where what stands there is no case, or is cut short.
pub(crate) fn read_case(list: &[u64]) -> Option<(Case<'_>, &[u64])>
    ensures shorter { IfSome result (λ read. length read.1.now < length list.now) }
    ensures read { IfSome result (λ read. IsCase list.now read.0 read.1.now) }
{
    let [
        words,
        len,
        origin,
        polarity,
        kind,
        value,
        percentage,
        log2,
        refusal,
        rest @ ..,
    ] = list
    else {
        return None;
    };
    let (polarity, choice) = asked(
        cut(*polarity),
        cut(*kind),
        *value,
        percentage_of(*percentage),
        cut(*log2),
    )?;
    let question = Question {
        len: *len,
        origin: *origin,
        polarity,
        choice,
    };
    match *refusal {
        0 => read_answered(question, *words, rest),
        refusal => read_refused(question, refusal, *words, rest),
    }
}

// Whether only the end mark is left.
pub(crate) fn is_end(list: &[u64]) -> bool
    ensures { IsTrue result ↔ (list.now ≡ 18446744073709551615 ∷ []) }
{
    list == [END].as_slice()
}
