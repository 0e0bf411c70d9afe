// An index saved as bytes beside its capture, and opened again.
ghost use Rattle.std.specs.Prelude.{List, ℕ, ◌≡◌, ◌↔◌, ◌≤◌, length, take, drop, Ok, Err, IfOk, OnErr};
ghost use Rattle.rank_sel.specs.Outcome.{answer};
ghost use Rattle.rank_sel.specs.declared.Refusal.TheVariants.{ImageUnlawful};
ghost use Rattle.inventory.specs.Lawful.{CellsHeld};
ghost use Rattle.inventory.specs.declared.summary.Summary.{Summary};
ghost use Rattle.index_image.specs.Image.{Read, Wrote, write_of};
ghost use Rattle.edge_index.specs.Images.{Restored, Written};

use inventory::Summary;
use rank_sel::Refusal;

/// Writes the image of an index at the start of the lent bytes, and answers its length in bytes.
///
/// Reading these bytes restores the summary and the cells within its counts, into any cells that hold them. What lies past the image, and
/// all bytes on a refusal, are as they were.
#[inline(always)]
pub fn write_image(
    summary: Summary,
    inventory: &[u64],
    spill: &[u64],
    bytes: &mut [u8],
) -> Result<u64, Refusal>
    ensures written { Wrote (write_of summary inventory.now spill.now (length bytes.old)) bytes.old bytes.new result }
    ensures restores { IfOk result (λ n. (inv sp : List ℕ) → CellsHeld summary inv sp
        → Restored summary inventory.now spill.now (take n bytes.new) inv sp) }
    ensures rest { IfOk result (λ n. drop n bytes.new ≡ drop n bytes.old) }
    ensures untouched { OnErr result (bytes.new ≡ bytes.old) }
{
    index_image::write_image(summary, inventory, spill, bytes)
}

/// Opens an image: its summary is the answer, and its cells are put into the lent ones.
///
/// Exactly the bytes that `write_image` can produce are opened, and writing what was read restores them. Any cells are taken, so no jump
/// on an opened index is covered before `check` says yes. On a refusal the lent cells are as they were.
#[inline(always)]
pub fn read_image(
    bytes: &[u8],
    inventory: &mut [u64],
    spill: &mut [u64],
) -> Result<Summary, Refusal>
    ensures opened { Read bytes.now inventory.old inventory.new spill.old spill.new result }
    ensures image { (t : Summary) → (result ≡ Ok t) ↔ (Written t bytes.now × CellsHeld t inventory.old spill.old) }
    ensures no_image { (result ≡ Err ImageUnlawful) ↔ ((t : Summary) → Written t bytes.now → ⊥) }
    ensures restores { IfOk result (λ t. (lent : ℕ) → length bytes.now ≤ lent
        → write_of t inventory.new spill.new lent ≡ answer bytes.now) }
    ensures untouched { OnErr result ((inventory.new ≡ inventory.old) × (spill.new ≡ spill.old)) }
{
    index_image::read_image(bytes, inventory, spill)
}
