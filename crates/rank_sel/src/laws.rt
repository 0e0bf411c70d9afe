// What the words of specs/ are held to, each as the contract of a function with no parameters and nothing to do: the law has to be
// proved for it to be built.
ghost use Rattle.std.specs.Prelude.{Bool, ℕ};
ghost use Rattle.rank_sel.specs.Outcome.{TestsPass};
ghost use Rattle.rank_sel.specs.Seek.{Exact};
ghost use Rattle.rank_sel.specs.Step.{LastExact, NextExact};

/// Seek finds exactly the selected position with as many selected between as are to be passed; there is at most one, and there is
/// one exactly where enough selected positions are left.
pub fn seek_is_exact()
    ensures { (f : ℕ → Bool) (n x k : ℕ) → Exact f n x k }
{}

/// A step back finds exactly the selected position with none after it below the place, and nothing exactly where none is selected
/// below the place.
pub fn last_before_is_exact()
    ensures { (f : ℕ → Bool) (x : ℕ) → LastExact f x }
{}

/// A step forward finds exactly the selected position with none before it from the place on, and nothing exactly where none is
/// selected from the place on.
pub fn next_from_is_exact()
    ensures { (f : ℕ → Bool) (n x : ℕ) → NextExact f n x }
{}

/// Tests in their order let a call through exactly where none of their conditions holds.
#[tactic(auto, using(crate::proofs::Outcome::through_where_none))]
pub fn tests_pass_where_none_holds()
    ensures { TestsPass }
{}
