// The list of spans.
ghost use Rattle.edge_index.specs.Spans.{Spans};

/// What the list of spans takes off S is the logarithm of the span, and no span outside the list is asked for.
#[tactic(auto, using(crate::proofs::Spans::spans))]
pub fn spans_are_by_the_logarithm()
    ensures { Spans }
{}
