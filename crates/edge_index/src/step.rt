// Next and previous: the edges beside a sample.
ghost use Rattle.std.specs.Prelude.{◌≡◌, IfOk};
ghost use Rattle.rank_sel.specs.Outcome.{answer, outcome};
ghost use Rattle.step_knob.specs.Step.{next_of, previous_of};
ghost use Rattle.step_knob.specs.Walk.{FirstExact, LastExact};

use inventory::Summary;
use rank_sel::Refusal;

/// Next: the sample number of the first edge at or after a sample, and none exactly where there is none.
///
/// It goes by words and summary alone: no cell is read.
#[inline(always)]
pub fn next(words: &[u64], summary: Summary, sample: u64) -> Result<Option<u64>, Refusal>
    ensures steps { outcome result ≡ next_of words.now summary sample }
    ensures first { IfOk result (λ edge. FirstExact words.now summary.plan.len summary.plan.polarity summary.origin sample (answer edge)) }
{
    step_knob::next(words, summary, sample)
}

/// Previous: the sample number of the last edge before a sample, and none exactly where there is none.
///
/// It goes by words and summary alone: no cell is read.
#[inline(always)]
pub fn previous(words: &[u64], summary: Summary, sample: u64) -> Result<Option<u64>, Refusal>
    ensures steps { outcome result ≡ previous_of words.now summary sample }
    ensures last { IfOk result (λ edge. LastExact words.now summary.plan.len summary.plan.polarity summary.origin sample (answer edge)) }
{
    step_knob::previous(words, summary, sample)
}
