// The build of an index: its size, its cells, and the check of a summary and cells that somebody hands in.
#![tactic(auto)]

ghost use Rattle.std.specs.Prelude.{◌≡◌, length};
ghost use Rattle.rank_sel.specs.Outcome.{outcome};
ghost use Rattle.build_inventory.specs.Build.{BuiltAs, build_from, build_of, check_of, fitted, size_of};

mod entry;
mod index;
mod planned;
mod stream;

use bit_record::{Polarity, test_record};
use inventory::Summary;
use planned::Planned;
use rank_sel::Refusal;
use spacing::{Choice, plan};

// The cells of the inventory and of the spill.
#[derive(Clone, Copy, Debug, PartialEq, Eq)]
pub struct Sizes {
    pub inventory: u64,
    pub spill: u64,
}

// The two cell counts of a plan's index, where the inventory has at most so many cells.
fn fit(planned: &Planned<'_>, most: u64) -> Result<Sizes, Refusal>
    ensures { outcome result ≡ fitted planned.now.words.now planned.now.plan most }
{
    let inventory = planned.inventory_count(most)?;
    let spill = planned.spill_count();
    Ok(Sizes { inventory, spill })
}

// The two cell counts of the index.
pub fn size(words: &[u64], len: u64, polarity: Polarity, choice: Choice) -> Result<Sizes, Refusal>
    ensures { outcome result ≡ size_of words.now len polarity choice }
{
    let plan = plan(words, len, polarity, choice)?;
    fit(&Planned { words, plan }, u64::MAX)
}

// The summary of a plan's index, where so many cells are lent for it.
fn admit_plan(planned: &Planned<'_>, origin: u64, lent: Sizes) -> Result<Summary, Refusal>
    ensures { outcome result ≡ build_from planned.now.words.now origin planned.now.plan lent.inventory lent.spill }
{
    let sizes = fit(planned, lent.inventory)?;
    if lent.spill < sizes.spill {
        return Err(Refusal::SpillTooShort);
    }
    Ok(Summary {
        plan: planned.plan,
        origin,
        inventory_len: sizes.inventory,
        spill_len: sizes.spill,
    })
}

// Every refusal of build and check, before a cell is written or compared. Of what is handed in nothing is known yet, and the
// signatures of both stay as they are: a struct would be made for this call alone.
fn admit(
    words: &[u64],
    len: u64,
    origin: u64,
    polarity: Polarity,
    choice: Choice,
    lent: Sizes,
) -> Result<Summary, Refusal>
    ensures { outcome result ≡ build_of words.now len origin polarity choice lent.inventory lent.spill }
{
    test_record(words, len, origin)?;
    let plan = plan(words, len, polarity, choice)?;
    admit_plan(&Planned { words, plan }, origin, lent)
}

// Writes the index of the record, whose bit 0 is sample number `origin`, into the lent cells.
pub fn build(
    words: &[u64],
    len: u64,
    origin: u64,
    polarity: Polarity,
    choice: Choice,
    inventory: &mut [u64],
    spill: &mut [u64],
) -> Result<Summary, Refusal>
    ensures { BuiltAs words.now (build_of words.now len origin polarity choice (length inventory.old) (length spill.old)) inventory.old inventory.new spill.old spill.new result }
{
    let lent = Sizes {
        inventory: inventory.len() as u64,
        spill: spill.len() as u64,
    };
    let summary = admit(words, len, origin, polarity, choice, lent)?;
    let planned = Planned {
        words,
        plan: summary.plan,
    };
    planned.fill(inventory, spill);
    Ok(summary)
}

// Whether build would write this summary and these cells.
pub fn check(
    words: &[u64],
    len: u64,
    origin: u64,
    polarity: Polarity,
    choice: Choice,
    summary: Summary,
    inventory: &[u64],
    spill: &[u64],
) -> Result<bool, Refusal>
    ensures { outcome result ≡ check_of words.now len origin polarity choice summary inventory.now spill.now }
{
    let lent = Sizes {
        inventory: inventory.len() as u64,
        spill: spill.len() as u64,
    };
    let right = admit(words, len, origin, polarity, choice, lent)?;
    if summary != right {
        return Ok(false);
    }
    let planned = Planned {
        words,
        plan: right.plan,
    };
    Ok(planned.same_index(inventory, spill))
}
