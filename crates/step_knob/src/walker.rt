// The walker.
ghost use Rattle.std.specs.Prelude.{ℕ, ◌≡◌, ◌↔◌, ◌+◌, IfOk, OnErr, OnOk, MatchOption};
ghost use Rattle.rank_sel.specs.Outcome.{outcome, refused};
ghost use Rattle.step_knob.specs.Step.{next_of, open_of, turn_of, walker_after, walker_at};
ghost use Rattle.step_knob.specs.Walk.{IsAdmitted, IsFirst, turn_from};

use crate::step::{edge_at, test_step};
use bit_record::{Polarity, Record, position_at, test_record};
use inventory::Summary;
use rank_sel::Refusal;

/// A walker over a record's words, which goes from edge to edge. Anyone may make one: each turn tests it.
#[derive(Clone, Copy)]
pub struct Walker<'a> {
    pub words: &'a [u64],
    pub len: u64,
    pub polarity: Polarity,
    pub origin: u64,
    pub place: u64,
}

/// What a turn gives: an edge, none, or a refusal; and the walker handed back.
#[derive(Clone, Copy)]
pub struct Turn<'a> {
    pub edge: Result<Option<u64>, Refusal>,
    pub walker: Walker<'a>,
}

impl<'a> Walker<'a> {
    /// A walker over the summary's record whose place is the sample. Its first turn gives what `next` gives there. A record, a
    /// summary or a sample that `next` turns down is turned down here, with the same number.
    pub fn open(words: &'a [u64], summary: Summary, sample: u64) -> Result<Walker<'a>, Refusal>
        ensures opened { outcome result ≡ open_of words.entry summary sample }
        ensures there { IfOk result (λ walker. walker ≡ walker_at words.entry summary.plan.len summary.plan.polarity summary.origin sample) }
        ensures first { IfOk result (λ walker. turn_from walker ≡ next_of words.now summary sample) }
        ensures admitted { IfOk result (λ walker. IsAdmitted walker) }
        ensures refuses { (n : ℕ) → (outcome result ≡ refused n) ↔ (next_of words.now summary sample ≡ refused n) }
    {
        test_step(words, summary, sample)?;
        Ok(Walker {
            words,
            len: summary.plan.len,
            polarity: summary.plan.polarity,
            origin: summary.origin,
            place: sample,
        })
    }

    // The first edge at or after its place.
    #[inline(always)]
    fn edge(&self) -> Result<Option<u64>, Refusal>
        ensures { outcome result ≡ turn_of self.now.words.now self.now.len self.now.polarity self.now.origin self.now.place }
    {
        test_record(self.words, self.len, self.origin)?;
        let position = position_at(self.origin, self.len, self.place)?;
        let record = Record {
            words: self.words,
            len: self.len,
            polarity: self.polarity,
        };
        Ok(edge_at(self.origin, record.next_from(position)))
    }

    /// A turn gives the first edge at or after the walker's place, and the walker one past it. With no edge left it gives none, and
    /// the walker as it was handed in; so it does with a refusal. After a turn that is answered no turn is turned down.
    pub fn turn(self) -> Turn<'a>
        ensures edge { outcome result.edge ≡ turn_of self.entry.words.now self.entry.len self.entry.polarity self.entry.origin self.entry.place }
        ensures walker { result.walker ≡ walker_after self.entry }
        ensures first { IfOk result.edge (λ found. IsFirst self.entry found) }
        ensures moved { IfOk result.edge (λ found. MatchOption found
            (result.walker ≡ self.entry)
            (λ edge. result.walker ≡ record self.entry { place = edge + 1 })) }
        ensures kept { OnErr result.edge (result.walker ≡ self.entry) }
        ensures goes_on { OnOk result.edge (IsAdmitted result.walker) }
    {
        let edge = self.edge();
        let place = match edge {
            Ok(Some(edge)) => edge + 1,
            _ => self.place,
        };
        Turn {
            edge,
            walker: Walker { place, ..self },
        }
    }
}
