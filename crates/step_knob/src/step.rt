// Next and previous.
ghost use Rattle.std.specs.Prelude.{◌≡◌, ◌-◌, ◌^◌, ◌<◌, IfSome};
ghost use Rattle.rank_sel.specs.Outcome.{answer, outcome, refuse_by};
ghost use Rattle.rank_sel.specs.Step.{option_of};
ghost use Rattle.bit_record.specs.Record.{sample_at};
ghost use Rattle.step_knob.specs.Step.{edge_at, next_of, of_step, previous_of};

use bit_record::{position_at, sample_at, test_record};
use inventory::{Summary, test_summary};
use rank_sel::Refusal;

// 1, 14, 2, 9, 17. The cells are not asked for: what is read is the record.
#[inline(always)]
pub(crate) fn test_step(words: &[u64], summary: Summary, sample: u64) -> Result<u64, Refusal>
    ensures { outcome result ≡ refuse_by (of_step words.now summary sample) (answer (sample - summary.origin)) }
{
    test_record(words, summary.plan.len, summary.origin)?;
    test_summary(summary)?;
    position_at(summary.origin, summary.plan.len, sample)
}

// A position as an edge's sample number.
#[inline(always)]
pub(crate) fn edge_at(origin: u64, position: Option<u64>) -> Option<u64>
    requires { IfSome position (λ p. sample_at origin p < 2 ^ 62) }
    ensures { result ≡ edge_at origin (option_of position) }
{
    match position {
        Some(position) => Some(sample_at(origin, position)),
        None => None,
    }
}

/// Next: the first edge at or after a sample, or none. The record and its summary are all that is read; the sample lies in the
/// record, or at its end.
pub fn next(words: &[u64], summary: Summary, sample: u64) -> Result<Option<u64>, Refusal>
    ensures { outcome result ≡ next_of words.now summary sample }
{
    let position = test_step(words, summary, sample)?;
    let record = summary.plan.record(words);
    Ok(edge_at(summary.origin, record.next_from(position)))
}

/// Previous: the last edge before a sample, or none. It asks for what `next` does, and turns down the same.
pub fn previous(words: &[u64], summary: Summary, sample: u64) -> Result<Option<u64>, Refusal>
    ensures { outcome result ≡ previous_of words.now summary sample }
{
    let position = test_step(words, summary, sample)?;
    let record = summary.plan.record(words);
    Ok(edge_at(summary.origin, record.last_before(position)))
}
