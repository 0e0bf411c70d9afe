// The four entries that read an index: jump, hint, store and dwell.
ghost use Rattle.std.specs.Prelude.{◌≡◌, ◌+◌, ◌-◌, ◌^◌, ◌≤◌, ◌<◌, drop, length, take};
ghost use Rattle.rank_sel.specs.Numbers.{ceil_div};
ghost use Rattle.rank_sel.specs.Outcome.{or_refuse, outcome};
ghost use Rattle.rank_sel.specs.Seek.{seek};
ghost use Rattle.bit_record.specs.Record.{selected};
ghost use Rattle.bit_record.specs.Selects.{selects};
ghost use Rattle.spacing.specs.Spacing.{N};
ghost use Rattle.inventory.specs.Index.{ranks_of};
ghost use Rattle.inventory.specs.Shape.{spilled_by};
ghost use Rattle.read_inventory.specs.Jump.{PartIn, PointsAt, address_of, cells_of, dwell_by, dwell_of, hint_of, or_empty, select_of, store_of, stored, subinventory_of};
ghost use Rattle.read_inventory.specs.Read.{finish as finish_as, position_of};
ghost use Rattle.read_inventory.specs.Steps.{Countable};

use crate::decode::{Decoded, Hint, Mark};
use crate::index::Index;
use crate::tests::{test_call, test_dwell};
use bit_record::{Record, is_selected, sample_at};
use inventory::{Summary, entry_ranks, spilled_by};
use rank_sel::{Refusal, ceil_shift, pow2};
use spacing::Parameters;

// Step 7 where the mark is not the answer. In a call of its own: what it answers is smaller than what a seek finds, and every jump
// keeps room for it.
#[inline(never)]
fn seek_past(bits: &Record<'_>, mark: u64, residual: u64) -> Result<u64, Refusal>
    ensures { outcome result ≡ or_refuse 10 (seek (selects bits.now) (bits.now.len - mark) mark residual) }
{
    match bits.seek_from(mark, residual) {
        Some(found) => Ok(found.position),
        None => Err(Refusal::CellsUnlawful),
    }
}

// Step 7. A selected mark with none to pass is found by its one bit, before any word is counted.
#[inline(always)]
fn seek_mark(bits: &Record<'_>, mark: u64, residual: u64) -> Result<u64, Refusal>
    requires { mark < bits.now.len }
    ensures { outcome result ≡ or_refuse 10 (seek (selects bits.now) (bits.now.len - mark) mark residual) }
{
    if residual == 0 && is_selected(bits.words, bits.polarity, mark) {
        return Ok(mark);
    }
    seek_past(bits, mark, residual)
}

impl Index<'_> {
    // The position that a mark leads to. The record is made where a seek needs it: an exact mark needs none.
    #[inline(always)]
    fn finish(self, mark: Mark) -> Result<u64, Refusal>
        requires { mark.at < self.cells.summary.plan.len }
        ensures { outcome result ≡ finish_as (selected self.entry.cells.summary.plan.polarity self.entry.words.now self.entry.cells.summary.plan.len) self.entry.cells.summary.plan.len mark }
    {
        if mark.exact {
            return Ok(mark.at);
        }
        let record = self.cells.summary.plan.record(self.words);
        seek_mark(&record, mark.at, mark.residual)
    }

    // A rank's position.
    #[inline(always)]
    fn position(self, rank: u64) -> Result<u64, Refusal>
        requires { rank < N self.cells.summary.plan }
        ensures { outcome result ≡ position_of self.entry.words.now self.entry.cells.summary self.entry.cells.inventory.now self.entry.cells.spill.now rank }
    {
        let Ok(mark) = self.cells.mark_of(rank) else {
            return Err(Refusal::CellsUnlawful);
        };
        self.finish(mark)
    }
}

// Jump: the sample number of a rank's position.
pub fn select(
    words: &[u64],
    summary: Summary,
    inventory: &[u64],
    spill: &[u64],
    rank: u64,
) -> Result<u64, Refusal>
    ensures { outcome result ≡ select_of words.now summary inventory.now spill.now rank }
{
    let index = test_call(words, summary, inventory, spill, rank)?;
    let position = index.position(rank)?;
    Ok(sample_at(index.cells.summary.origin, position))
}

// Hint: the sample number of a rank's mark, and the mark's rank. It looks for no bit, so it can answer where jump says 10.
pub fn hint(
    words: &[u64],
    summary: Summary,
    inventory: &[u64],
    spill: &[u64],
    rank: u64,
) -> Result<Hint, Refusal>
    ensures { outcome result ≡ hint_of words.now summary inventory.now spill.now rank }
{
    let index = test_call(words, summary, inventory, spill, rank)?;
    let Ok(mark) = index.cells.mark_of(rank) else {
        return Err(Refusal::CellsUnlawful);
    };
    Ok(Hint {
        mark: sample_at(index.cells.summary.origin, mark.at),
        rank: rank - mark.residual,
    })
}

// The cells that the entry of a decoded rank spills, by the build's rule for what was read.
fn spilled_at(plan: Parameters, decoded: Decoded) -> u64
    requires { Countable plan decoded }
    ensures { result ≡ spilled_by decoded.head.kind (ceil_div (ranks_of plan decoded.head.entry) (2 ^ decoded.log2_quantum)) plan.log2_words_per_subinventory }
{
    let ranks = entry_ranks(plan, decoded.head.entry);
    spilled_by(
        decoded.head.kind,
        ceil_shift(ranks, decoded.log2_quantum),
        plan.log2_words_per_subinventory,
    )
}

// A part of the lent cells: its first cell and how many they are.
#[derive(Clone, Copy, Debug, PartialEq, Eq)]
pub enum CellPart {
    Inventory(u64, u64),
    Spill(u64, u64),
}

// Store, by number: which cells record a rank's mark. It refuses as hint does.
pub fn subinventory_part(
    words: &[u64],
    summary: Summary,
    inventory: &[u64],
    spill: &[u64],
    rank: u64,
) -> Result<CellPart, Refusal>
    ensures { (stored result ≡ store_of words.now summary inventory.now spill.now rank) × PartIn inventory.now spill.now (or_empty (stored result)) }
{
    let index = test_call(words, summary, inventory, spill, rank)?; // as hint does
    let cells = index.cells;
    let plan = cells.summary.plan;
    let Ok(decoded) = cells.decode(rank) else {
        return Err(Refusal::CellsUnlawful);
    };
    let own = decoded.head.cell + 1;
    if decoded.spilled {
        let from = cells.inventory[own as usize];
        let n = spilled_at(plan, decoded).min(cells.summary.spill_len - from);
        return Ok(CellPart::Spill(from, n));
    }
    Ok(CellPart::Inventory(own, pow2(plan.log2_words_per_subinventory)))
}

// The n cells from `first` on, by number: the contract says where they stand.
fn part_of<'a>(cells: &'a [u64], first: u64, n: u64) -> &'a [u64]
    requires { first + n ≤ length cells.now }
    ensures contents { result.now ≡ take n (drop first cells.now) }
    ensures place { result.ref_ptr ≡ address_of cells.entry first }
{
    &cells[first as usize..(first + n) as usize]
}

// Store: the same cells, as a part of one of the two lent slices.
pub fn subinventory<'a>(
    words: &[u64],
    summary: Summary,
    inventory: &'a [u64],
    spill: &'a [u64],
    rank: u64,
) -> &'a [u64]
    ensures contents { result.now ≡ cells_of inventory.now spill.now (subinventory_of words.now summary inventory.now spill.now rank) }
    ensures place { PointsAt inventory.entry spill.entry (subinventory_of words.now summary inventory.now spill.now rank) result }
{
    match subinventory_part(words, summary, inventory, spill, rank) {
        Ok(CellPart::Inventory(first, n)) => part_of(inventory, first, n),
        Ok(CellPart::Spill(first, n)) => part_of(spill, first, n),
        Err(_) => &[],
    }
}

// The one place for the dwell of two positions.
fn dwell_by(a: u64, b: u64) -> Result<u64, Refusal>
    ensures { outcome result ≡ dwell_by a b }
{
    if b < a {
        return Err(Refusal::CellsUnlawful);
    }
    Ok(b - a)
}

// Dwell: from the position of rank a to that of rank b.
pub fn dwell(
    words: &[u64],
    summary: Summary,
    inventory: &[u64],
    spill: &[u64],
    a: u64,
    b: u64,
) -> Result<u64, Refusal>
    ensures { outcome result ≡ dwell_of words.now summary inventory.now spill.now a b }
{
    let index = test_dwell(words, summary, inventory, spill, a, b)?;
    let p = index.position(a)?;
    let o = index.position(b)?;
    dwell_by(p, o)
}
