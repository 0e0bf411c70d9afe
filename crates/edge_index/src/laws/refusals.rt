// In which order the entries refuse: each number is said exactly where its condition holds and none before it in the order does.
ghost use Rattle.std.specs.Prelude.{List, ℕ};
ghost use Rattle.bit_record.specs.declared.Polarity.{Polarity};
ghost use Rattle.spacing.specs.declared.Choice.{Choice};
ghost use Rattle.inventory.specs.declared.summary.Summary.{Summary};
ghost use Rattle.edge_index.specs.Refusals.{ImagesRefuse, InWordRefuses, MakersRefuse, ReadersRefuse, StepsRefuse};

/// Count, plan, size, build and check each refuse exactly where a condition holds, by the first in their order.
pub fn makers_refuse_in_order()
    ensures { (ws : List ℕ) (len origin : ℕ) (pol : Polarity) (choice : Choice) → MakersRefuse ws len origin pol choice }
{}

/// So do jump, hint, dwell, store, rank and a list of jumps; past the tests of a call 10 is their only refusal.
#[tactic(auto, using(crate::proofs::Refusals::readers_refuse))]
pub fn readers_refuse_in_order()
    ensures { (ws : List ℕ) (t : Summary) (inv sp : List ℕ) → ReadersRefuse ws t inv sp }
{}

/// So do next, previous and a walker, and a walker that is turned down is handed back as it was.
#[tactic(auto, using(crate::proofs::Refusals::steps_refuse))]
pub fn steps_refuse_in_order()
    ensures { StepsRefuse }
{}

/// So do writing and reading an image, and a refusal leaves bytes and cells as they were.
#[tactic(auto, using(crate::proofs::Refusals::images_refuse))]
pub fn images_refuse_in_order()
    ensures { ImagesRefuse }
{}

/// Select in a word refuses exactly a rank that is not below the word's ones, by 8.
#[tactic(auto, using(crate::proofs::Refusals::in_word_refuses))]
pub fn in_word_refuses_by_8()
    ensures { InWordRefuses }
{}
