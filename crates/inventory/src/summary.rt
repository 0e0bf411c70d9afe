// A summary: its counts, and whether it is by the rules.
ghost use Rattle.std.specs.Prelude.{not, [], ◌∷◌, ◌≡◌, ◌*◌, ◌^◌, ◌≤◌, ◌<◌, eqb, ltb};
ghost use Rattle.rank_sel.specs.Outcome.{number_of, outcome, refused, test_by};
ghost use Rattle.spacing.specs.Spacing.{L, M, N, max_log2_words};
ghost use Rattle.inventory.specs.Index.{entries_of, inventory_len_of, ranks_of, stride_by};
ghost use Rattle.inventory.specs.Lawful.{of_cells, of_summary, unlawful};

use rank_sel::{Refusal, ceil_shift, pow2};
use spacing::{MAX_LOG2_WORDS_PER_SUBINVENTORY, Parameters};

// What document 01 calls the summary: a plan and the two cell counts; and the sample number of bit 0, document 02's origin.
#[derive(Clone, Copy, Debug, PartialEq, Eq)]
pub struct Summary {
    pub plan: Parameters,
    pub origin: u64,
    pub inventory_len: u64,
    pub spill_len: u64,
}

// How many entries the index has. This and the next three ask for their own bounds: a type of a lawful plan would ask for all.
pub fn entry_count(plan: Parameters) -> u64
    requires { (N plan < 2 ^ 62) × (L plan ≤ 63) }
    ensures { result ≡ entries_of plan }
{
    ceil_shift(plan.num, plan.log2_ones_per_inventory)
}

// How many cells of the inventory an entry has: its first, and 2^M.
pub fn entry_len(log2_words_per_subinventory: u32) -> u64
    requires { log2_words_per_subinventory ≤ max_log2_words }
    ensures { result ≡ stride_by log2_words_per_subinventory }
{
    pow2(log2_words_per_subinventory) + 1
}

// How many ranks entry e holds: 2^L, and fewer in the last.
pub fn entry_ranks(plan: Parameters, e: u64) -> u64
    requires { (N plan < 2 ^ 62) × (L plan ≤ 63) × (e * 2 ^ L plan ≤ N plan) }
    ensures { result ≡ ranks_of plan e }
{
    let ones = pow2(plan.log2_ones_per_inventory);
    ones.min(plan.num - e * ones)
}

// The rule's count may pass 2^64: it is taken off the given one, and never reckoned. The last shift drops no bit, since
// entries * 2^m is at most own there.
fn is_inventory_len(plan: Parameters, inventory_len: u64) -> bool
    requires { (N plan < 2 ^ 62) × (L plan ≤ 63) × (M plan ≤ 63) }
    ensures { result ≡ eqb inventory_len (inventory_len_of plan) }
{
    let entries = entry_count(plan);
    if inventory_len <= entries {
        return false;
    }
    let own = inventory_len - entries - 1;
    if own >> plan.log2_words_per_subinventory != entries {
        return false;
    }
    entries << plan.log2_words_per_subinventory == own
}

// The one place for the rules of a summary, refusal 9. Its len has passed 1 before (line at bit_record's `is_origin_too_large`).
fn is_lawful(summary: Summary) -> bool
    requires { summary.plan.len < 2 ^ 62 }
    ensures { result ≡ not (unlawful summary) }
{
    let plan = summary.plan;
    let l = plan.log2_ones_per_inventory;
    let m = plan.log2_words_per_subinventory;
    if plan.len < plan.num {
        return false;
    }
    if l > 63 {
        return false;
    }
    if m > MAX_LOG2_WORDS_PER_SUBINVENTORY {
        return false;
    }
    if plan.log2_ones_per_sub16 as u64 != (l as u64).saturating_sub(m as u64 + 2) {
        return false;
    }
    is_inventory_len(plan, summary.inventory_len)
}

// Refusal 9: the one test of a summary.
pub fn test_summary(summary: Summary) -> Result<(), Refusal>
    requires { summary.plan.len < 2 ^ 62 }
    ensures { outcome result ≡ test_by (of_summary summary) }
{
    if is_lawful(summary) {
        return Ok(());
    }
    Err(Refusal::SummaryUnlawful)
}

// A refusal told out of line: in line the compiler makes arithmetic of the numbers of two tests, and every jump pays for it.
#[cold]
#[inline(never)]
fn refuse(refusal: Refusal) -> Result<(), Refusal>
    ensures { outcome result ≡ refused (number_of refusal) }
{
    Err(refusal)
}

// Refusals 6 and 7: fewer cells are lent than the summary counts.
pub fn test_lent(lent: u64, count: u64, refusal: Refusal) -> Result<(), Refusal>
    ensures { outcome result ≡ test_by ((ltb lent count, number_of refusal) ∷ []) }
{
    if lent < count {
        return refuse(refusal);
    }
    Ok(())
}

// Both, for every reader and for an image.
pub fn test_cells(summary: Summary, inventory: &[u64], spill: &[u64]) -> Result<(), Refusal>
    ensures { outcome result ≡ test_by (of_cells summary inventory.now spill.now) }
{
    test_lent(
        inventory.len() as u64,
        summary.inventory_len,
        Refusal::InventoryTooShort,
    )?;
    test_lent(
        spill.len() as u64,
        summary.spill_len,
        Refusal::SpillTooShort,
    )
}
