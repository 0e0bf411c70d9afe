// What a call on an index is held to before any cell is read: the tests of record, summary, cells and ranks, in their order.
ghost use Rattle.std.specs.Prelude.{◌++◌, ◌≡◌};
ghost use Rattle.rank_sel.specs.Outcome.{outcome, test_by};
ghost use Rattle.spacing.specs.Spacing.{N};
ghost use Rattle.read_inventory.specs.Tested.{Tested};
ghost use Rattle.read_inventory.specs.Tests.{of_index, of_rank, of_ranks};

use crate::index::{Cells, Index};
use bit_record::test_record;
use inventory::{Summary, test_cells, test_summary};
use rank_sel::Refusal;

// 1, 14, 2, 9, 6, 7: what every reader is held to. The four as they are handed in become an `Index`, which goes by value: what
// hands it out is inlined.
#[inline(always)]
pub fn test_index<'a>(
    words: &'a [u64],
    summary: Summary,
    inventory: &'a [u64],
    spill: &'a [u64],
) -> Result<Index<'a>, Refusal>
    ensures { Tested (of_index words.now summary inventory.now spill.now) words.now summary inventory.now spill.now result }
{
    test_record(words, summary.plan.len, summary.origin)?;
    test_summary(summary)?;
    test_cells(summary, inventory, spill)?;
    let cells = Cells {
        summary,
        inventory,
        spill,
    };
    Ok(Index { words, cells })
}

// Refusal 8.
fn test_rank(num: u64, rank: u64) -> Result<(), Refusal>
    ensures { outcome result ≡ test_by (of_rank num rank) }
{
    if num <= rank {
        return Err(Refusal::RankTooLarge);
    }
    Ok(())
}

// An index and a rank: jump, hint and store.
#[inline(always)]
pub(crate) fn test_call<'a>(
    words: &'a [u64],
    summary: Summary,
    inventory: &'a [u64],
    spill: &'a [u64],
    rank: u64,
) -> Result<Index<'a>, Refusal>
    ensures { Tested (of_index words.now summary inventory.now spill.now ++ of_rank (N summary.plan) rank) words.now summary inventory.now spill.now result }
{
    let index = test_index(words, summary, inventory, spill)?;
    // A rank at or above N is turned back before any cell is read.
    let Ok(()) = test_rank(summary.plan.num, rank) else {
        return Err(Refusal::RankTooLarge);
    };
    Ok(index)
}

// 8 for both ranks of a dwell, then 11. They stay two numbers, here, in `test_dwell` and in `dwell`: a struct for one call is no
// plainer.
fn test_ranks(num: u64, a: u64, b: u64) -> Result<(), Refusal>
    ensures { outcome result ≡ test_by (of_ranks num a b) }
{
    test_rank(num, a)?;
    test_rank(num, b)?;
    if b < a {
        return Err(Refusal::RanksFall);
    }
    Ok(())
}

// An index and the two ranks of a dwell, as they are handed in.
#[inline(always)]
pub(crate) fn test_dwell<'a>(
    words: &'a [u64],
    summary: Summary,
    inventory: &'a [u64],
    spill: &'a [u64],
    a: u64,
    b: u64,
) -> Result<Index<'a>, Refusal>
    ensures { Tested (of_index words.now summary inventory.now spill.now ++ of_ranks (N summary.plan) a b) words.now summary inventory.now spill.now result }
{
    let index = test_index(words, summary, inventory, spill)?;
    test_ranks(summary.plan.num, a, b)?;
    Ok(index)
}
