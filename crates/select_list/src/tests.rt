// What a list is held to before any cell is read: 1, 14, 2, 9, 6, 7 of the index, then 12, 13 and 8.
ghost use Rattle.std.specs.Prelude.{false, ◌++◌, ◌≡◌};
ghost use Rattle.rank_sel.specs.Outcome.{outcome, test_by};
ghost use Rattle.spacing.specs.Spacing.{N};
ghost use Rattle.read_inventory.specs.Tested.{Tested};
ghost use Rattle.read_inventory.specs.Tests.{of_index};
ghost use Rattle.select_list.specs.List.{any_too_large, falls, of_list};

use inventory::Summary;
use rank_sel::Refusal;
use read_inventory::{Index, test_index};

// Whether a rank is below the one before it, anywhere.
fn falls_somewhere(ranks: &[u64]) -> bool
    ensures { result ≡ falls ranks.now }
{
    !ranks.is_sorted()
}

// Whether a rank is not below N: ranks that never fall have their largest last.
fn is_any_too_large(num: u64, ranks: &[u64]) -> bool
    requires { falls ranks.now ≡ false }
    ensures { result ≡ any_too_large num ranks.now }
{
    match ranks.last() {
        Some(largest) => num <= *largest,
        None => false,
    }
}

// 12, 13, 8.
fn test_list(num: u64, ranks: &[u64], lent: usize) -> Result<(), Refusal>
    ensures { outcome result ≡ test_by (of_list num ranks.now lent) }
{
    if falls_somewhere(ranks) {
        return Err(Refusal::ListFalls);
    }
    if lent < ranks.len() {
        return Err(Refusal::TooFewPlaces);
    }
    if is_any_too_large(num, ranks) {
        return Err(Refusal::RankTooLarge);
    }
    Ok(())
}

// An index, a list of ranks, and so many places.
#[inline(always)]
pub(crate) fn test_call<'a>(
    words: &'a [u64],
    summary: Summary,
    inventory: &'a [u64],
    spill: &'a [u64],
    ranks: &[u64],
    lent: usize,
) -> Result<Index<'a>, Refusal>
    ensures { Tested (of_index words.now summary inventory.now spill.now ++ of_list (N summary.plan) ranks.now lent) words.now summary inventory.now spill.now result }
{
    let index = test_index(words, summary, inventory, spill)?;
    test_list(summary.plan.num, ranks, lent)?;
    Ok(index)
}
