// The whole index, entry by entry: its counts, its cells, and their comparison.
ghost use Rattle.std.specs.Prelude.{◌&&◌, [], ◌∷◌, ◌≡◌, ◌+◌, ◌*◌, ◌^◌, ◌≤◌, ◌<◌, ltb, length, take};
ghost use Rattle.rank_sel.specs.Lists.{same_list};
ghost use Rattle.rank_sel.specs.Outcome.{answer, outcome, refuse_if};
ghost use Rattle.spacing.specs.Spacing.{M};
ghost use Rattle.inventory.specs.Index.{inventory_len_of, own_cells, spill_cells, start_of, stride};
ghost use Rattle.build_inventory.specs.Compare.{ComparedOwn, same_index};
ghost use Rattle.build_inventory.specs.Placed.{Lent, pos_at, pos_of};
ghost use Rattle.build_inventory.specs.Positions.{spill_len_of};
ghost use Rattle.build_inventory.specs.Stream.{Filled};

use crate::entry::{or_end, write_cell};
use crate::planned::{Placed, Planned};
use crate::stream::Stream;
use inventory::{entry_count, entry_len};
use rank_sel::{Refusal, pow2};

// Check's side: `same_heads`, `same_own`, `same_entry` and `same_index` are twins of build's `write_heads`, `write_own`, `write_entry`
// and `fill`. One walk for both, over a trait of cells, is no plainer, since each contract has to say both; and in a small case no
// clause said that the walk keeps the slice it was lent.

// Whether the cells before an entry's lanes are these.
fn same_heads(cells: &[u64], heads: u64, first: u64, second: u64) -> bool
    requires { (heads ≤ 1) × (2 ≤ length cells.now) }
    ensures { result ≡ same_list (take (1 + heads) cells.now) (take (1 + heads) (first ∷ second ∷ [])) }
{
    let a = cells[0];
    let b = cells[1];
    if a != first {
        return false;
    }
    if heads == 0 {
        return true;
    }
    b == second
}

impl Placed<'_> {
    // The stream behind an entry's own cells, if they are these.
    fn same_own(&self, before: u64, cells: &[u64]) -> Option<Stream<'_>>
        requires { stride self.now.planned.plan ≤ length cells.now }
        ensures { ComparedOwn self.now before cells.now result }
    {
        let x = self.entry;
        let shape = x.shape;
        let own = pow2(self.planned.plan.log2_words_per_subinventory);
        if !same_heads(cells, shape.heads, x.start + shape.tag, before) {
            return None;
        }
        let from = (1 + shape.heads) as usize;
        let to = (own + 1) as usize;
        self.stream().same_cells(&cells[from..to])
    }

    // Whether an entry's own cells and those that it spills are these.
    fn same_entry(&self, before: u64, cells: &[u64], spill: &[u64]) -> bool
        requires { (stride self.now.planned.plan ≤ length cells.now) × (self.now.entry.spilled ≤ length spill.now) }
        ensures { result ≡ same_list (take (stride self.now.planned.plan) cells.now) (own_cells (pos_at self.now) self.now.entry before (2 ^ M self.now.planned.plan)) && same_list (take self.now.entry.spilled spill.now) (spill_cells (pos_at self.now) self.now.entry (2 ^ M self.now.planned.plan)) }
    {
        let n = self.entry.spilled as usize;
        match self.same_own(before, cells) {
            Some(stream) => stream.same_cells(&spill[..n]).is_some(),
            None => false,
        }
    }
}

impl Planned<'_> {
    // Where the first entry starts.
    fn first_start(&self) -> u64
        ensures { result ≡ start_of (pos_of self.now) self.now.plan 0 }
    {
        let plan = self.plan;
        let record = plan.record(self.words);
        or_end(record.seek_far(0, 0), plan)
    }

    // How many cells the inventory has, where these are at most so many: the count may be over 2^64 - 1.
    pub fn inventory_count(&self, most: u64) -> Result<u64, Refusal>
        ensures { outcome result ≡ refuse_if (ltb most (inventory_len_of self.now.plan)) 6 (answer (inventory_len_of self.now.plan)) }
    {
        if most == 0 {
            return Err(Refusal::InventoryTooShort);
        }
        let count = entry_count(self.plan);
        let cells = entry_len(self.plan.log2_words_per_subinventory);
        if (most - 1) / cells < count {
            return Err(Refusal::InventoryTooShort);
        }
        Ok(count * cells + 1)
    }

    // How many cells the index spills.
    pub fn spill_count(&self) -> u64
        ensures { result ≡ spill_len_of self.now.words.now self.now.plan }
    {
        let count = entry_count(self.plan);
        let mut spilled: u64 = 0;
        let mut start = self.first_start();
        for e in 0..count {
            let x = self.entry_at(e, start);
            spilled += x.entry.spilled;
            start = x.entry.next;
        }
        spilled
    }

    // Writes the whole index, each entry through its own part of the cells. By places and not by chunks: the closing cell stands
    // where the last entry ends.
    pub fn fill(&self, inventory: &mut [u64], spill: &mut [u64])
        requires { Lent self.now inventory.old spill.old }
        ensures { Filled (pos_of self.now) self.now.plan inventory.old inventory.new spill.old spill.new }
    {
        let entries = entry_count(self.plan);
        let cells = entry_len(self.plan.log2_words_per_subinventory) as usize;
        let mut at: usize = 0;
        let mut spilled: usize = 0;
        let mut start = self.first_start();
        for e in 0..entries {
            let x = self.entry_at(e, start);
            x.write_entry(spilled as u64, &mut inventory[at..], &mut spill[spilled..]);
            at += cells;
            spilled += x.entry.spilled as usize;
            start = x.entry.next;
        }
        write_cell(&mut inventory[at], start);
    }

    // Whether the cells are those that `fill` writes.
    pub fn same_index(&self, inventory: &[u64], spill: &[u64]) -> bool
        requires { Lent self.now inventory.now spill.now }
        ensures { result ≡ same_index (pos_of self.now) self.now.plan inventory.now spill.now }
    {
        let count = entry_count(self.plan);
        let cells = entry_len(self.plan.log2_words_per_subinventory) as usize;
        let mut at: usize = 0;
        let mut spilled: usize = 0;
        let mut start = self.first_start();
        for e in 0..count {
            let x = self.entry_at(e, start);
            if !x.same_entry(spilled as u64, &inventory[at..], &spill[spilled..]) {
                return false;
            }
            at += cells;
            spilled += x.entry.spilled as usize;
            start = x.entry.next;
        }
        let last = inventory[at];
        last == start
    }
}
