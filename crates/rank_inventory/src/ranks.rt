// The rank of a position, and of a sample.
ghost use Rattle.std.specs.Prelude.{◌≡◌, ◌≤◌};
ghost use Rattle.rank_sel.specs.Outcome.{outcome};
ghost use Rattle.rank_inventory.specs.Rank.{rank_at, rank_of};

use crate::starts::{search_starts, starts_rise};
use bit_record::position_at;
use inventory::{Summary, entry_count};
use rank_sel::{Refusal, pow2};
use read_inventory::{Index, test_index};

// The rank of a position. All starts are tested, also those past it.
fn rank_at(index: &Index<'_>, position: u64) -> Result<u64, Refusal>
    requires { position ≤ index.now.cells.summary.plan.len }
    ensures { outcome result ≡ rank_at index.now.words.now index.now.cells.summary index.now.cells.inventory.now position }
{
    let plan = index.cells.summary.plan;
    let entries = entry_count(plan);
    if !starts_rise(&index.cells, entries) {
        return Err(Refusal::CellsUnlawful);
    }
    let record = plan.record(index.words);
    let started = search_starts(&index.cells, position, 0, entries);
    if started == 0 {
        return Ok(record.rank_between(0, position));
    }
    let entry = started - 1;
    let start = index.cells.start_at(entry);
    Ok(entry * pow2(plan.log2_ones_per_inventory) + record.rank_between(start, position))
}

// Rank: how many edges lie before a sample.
pub fn rank(
    words: &[u64],
    summary: Summary,
    inventory: &[u64],
    spill: &[u64],
    sample: u64,
) -> Result<u64, Refusal>
    ensures { outcome result ≡ rank_of words.now summary inventory.now spill.now sample }
{
    let index = test_index(words, summary, inventory, spill)?;
    let position = position_at(summary.origin, summary.plan.len, sample)?;
    rank_at(&index, position)
}
