// What every step of the build reads: a record's words with a plan of that record, and one entry of its index.
ghost use Rattle.std.specs.Prelude.{◌≡◌, ◌*◌, ◌^◌, ◌<◌};
ghost use Rattle.spacing.specs.Spacing.{L, N, PlanOf};
ghost use Rattle.inventory.specs.Index.{entry_of};
ghost use Rattle.build_inventory.specs.Positions.{pos_in};

use inventory::Entry;
use spacing::Parameters;

#[derive(Clone, Copy)]
pub struct Planned<'a> {
    pub words: &'a [u64],
    pub plan: Parameters,
    ghost of: { PlanOf words.now plan },
}

// Entry `number` of the index.
#[derive(Clone, Copy)]
pub struct Placed<'a> {
    pub planned: Planned<'a>,
    pub number: u64,
    pub entry: Entry,
    ghost within: { number * 2 ^ L planned.plan < N planned.plan },
    ghost is: { entry ≡ entry_of (pos_in planned.words.now planned.plan) planned.plan number },
}
