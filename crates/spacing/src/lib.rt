// How far apart the marks of an index stand: from a record and a choice to L, M and S.
#![tactic(auto)]

ghost use Rattle.std.specs.Prelude.{[], ◌∷◌, ◌≡◌, ◌≤◌, nat_lt};
ghost use Rattle.rank_sel.specs.Outcome.{outcome, test_by};
ghost use Rattle.bit_record.specs.Record.{Admitted};
ghost use Rattle.bit_record.specs.Selects.{RecordOf};
ghost use Rattle.spacing.specs.Spacing.{capped, chosen_plan, max_log2_words as most_log2_words, plan_of, plan_with, rule};
ghost use Rattle.spacing.specs.Spacing.{fixed, overhead as overhead_rule, power, span};

pub mod laws;
mod numbers;
mod overhead;
mod wide;

use bit_record::{Polarity, Record, count};
use numbers::ceil_log2;
use overhead::{is_positive, target_span_from_overhead};
use rank_sel::Refusal;
use wide::span_log2;

// The most that a caller may give as M, or as the maximum of M.
pub const MAX_LOG2_WORDS_PER_SUBINVENTORY: u32 = 10;

#[derive(Clone, Copy)]
pub enum Choice {
    Default,
    Span(u64, u32),
    Power(u32, u32),
    Overhead(f64, u32),
    Fixed(u32, u32),
}

// The summary up to S: N is `num`, L, M and S are the three logarithms, in this order.
#[derive(Clone, Copy, Debug, PartialEq, Eq)]
pub struct Parameters {
    pub polarity: Polarity,
    pub len: u64,
    pub num: u64,
    pub log2_ones_per_inventory: u32,
    pub log2_words_per_subinventory: u32,
    pub log2_ones_per_sub16: u32,
}

impl Parameters {
    // The record that these are of, in words that hold it.
    pub fn record<'a>(&self, words: &'a [u64]) -> Record<'a>
        requires { Admitted words.now self.now.len }
        ensures { RecordOf words.now self.now.len self.now.polarity result }
    {
        let Parameters { polarity, len, .. } = *self;
        Record {
            words,
            len,
            polarity,
        }
    }
}

// Refusal 3.
fn test_ones(log2_ones: u32) -> Result<(), Refusal>
    ensures { outcome result ≡ test_by ((nat_lt 63 log2_ones, 3) ∷ []) }
{
    if log2_ones > 63 {
        return Err(Refusal::OnesPerInventoryTooLarge);
    }
    Ok(())
}

// Refusal 4: of M, or of the maximum of M. Not one with the test before: each call would name the limit and the refusal.
fn test_words(log2_words: u32) -> Result<(), Refusal>
    ensures { outcome result ≡ test_by ((nat_lt most_log2_words log2_words, 4) ∷ []) }
{
    if log2_words > MAX_LOG2_WORDS_PER_SUBINVENTORY {
        return Err(Refusal::WordsPerSubinventoryTooLarge);
    }
    Ok(())
}

// A record's polarity and length, and how many of its bits are selected.
#[derive(Clone, Copy)]
struct Counted {
    polarity: Polarity,
    len: u64,
    num: u64,
    ghost few: { num ≤ len },
}

impl Counted {
    // S follows from L and M.
    fn with_both(self, log2_ones: u32, log2_words: u32) -> Parameters
        ensures { result ≡ plan_with self.polarity self.len self.num log2_ones log2_words }
    {
        Parameters {
            polarity: self.polarity,
            len: self.len,
            num: self.num,
            log2_ones_per_inventory: log2_ones,
            log2_words_per_subinventory: log2_words,
            log2_ones_per_sub16: log2_ones.saturating_sub(log2_words).saturating_sub(2),
        }
    }

    // M by the rule, from L and the given maximum.
    fn with_max(self, log2_ones: u32, max_log2_words: u32) -> Parameters
        ensures { result ≡ capped self.polarity self.len self.num log2_ones max_log2_words }
    {
        let c = ceil_log2(self.num.max(1));
        let most = log2_ones.saturating_sub(2).min(c.saturating_sub(2));
        self.with_both(log2_ones, max_log2_words.min(most))
    }

    // A span gives an L below 64 (`laws::reckoned_l_is_small`), so there is no test of L.
    fn with_span(self, target_span: u64, max_log2_words: u32) -> Result<Parameters, Refusal>
        ensures { outcome result ≡ chosen_plan self.polarity self.len self.num (span target_span max_log2_words) }
    {
        test_words(max_log2_words)?;
        let log2_ones = span_log2(self.num, target_span, self.len);
        Ok(self.with_max(log2_ones, max_log2_words))
    }

    // The choice `power`.
    #[tactic(auto, unfolding(crate::specs::Spacing::chosen_plan, crate::specs::Spacing::plan_for))]
    fn with_inv(self, log2_ones: u32, max_log2_words: u32) -> Result<Parameters, Refusal>
        ensures { outcome result ≡ chosen_plan self.polarity self.len self.num (power log2_ones max_log2_words) }
    {
        test_ones(log2_ones)?;
        test_words(max_log2_words)?;
        Ok(self.with_max(log2_ones, max_log2_words))
    }

    #[tactic(auto, unfolding(crate::specs::Spacing::chosen_plan, crate::specs::Spacing::plan_for))]
    fn with_overhead(self, percentage: f64, max_log2_words: u32) -> Result<Parameters, Refusal>
        ensures { outcome result ≡ chosen_plan self.polarity self.len self.num (overhead_rule percentage max_log2_words) }
    {
        test_words(max_log2_words)?;
        if !is_positive(percentage) {
            return Err(Refusal::OverheadNotPositive);
        }
        let target_span = target_span_from_overhead(percentage, max_log2_words);
        let log2_ones = span_log2(self.num, target_span, self.len);
        Ok(self.with_max(log2_ones, max_log2_words))
    }

    // The source's `SelectAdaptConst::new`: M is not capped.
    #[tactic(auto, unfolding(crate::specs::Spacing::chosen_plan, crate::specs::Spacing::plan_for))]
    fn with_fixed(self, log2_ones: u32, log2_words: u32) -> Result<Parameters, Refusal>
        ensures { outcome result ≡ chosen_plan self.polarity self.len self.num (fixed log2_ones log2_words) }
    {
        test_ones(log2_ones)?;
        test_words(log2_words)?;
        Ok(self.with_both(log2_ones, log2_words))
    }

    #[tactic(auto, unfolding(crate::specs::Spacing::chosen_plan, crate::specs::Spacing::plan_for))]
    fn with_choice(self, choice: Choice) -> Result<Parameters, Refusal>
        ensures { outcome result ≡ chosen_plan self.polarity self.len self.num (rule choice) }
    {
        match choice {
            Choice::Default => self.with_span(4096, 3),
            Choice::Span(target_span, max) => self.with_span(target_span, max),
            Choice::Power(log2_ones, max) => self.with_inv(log2_ones, max),
            Choice::Overhead(percentage, max) => self.with_overhead(percentage, max),
            Choice::Fixed(log2_ones, log2_words) => self.with_fixed(log2_ones, log2_words),
        }
    }
}

pub fn plan(
    words: &[u64],
    len: u64,
    polarity: Polarity,
    choice: Choice,
) -> Result<Parameters, Refusal>
    ensures { outcome result ≡ plan_of words.now len polarity choice }
{
    let num = count(words, len, polarity)?;
    let counted = Counted { polarity, len, num };
    counted.with_choice(choice)
}
