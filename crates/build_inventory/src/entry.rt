// One entry: what is reckoned of it, and the step that writes it.
ghost use Rattle.std.specs.Prelude.{◌≡◌, ◌+◌, ◌*◌, ◌^◌, ◌≤◌, ◌<◌, length, set};
ghost use Rattle.bit_record.specs.Record.{found};
ghost use Rattle.spacing.specs.Spacing.{L, M, N};
ghost use Rattle.inventory.specs.Index.{bound, entry_of, start_of, stride};
ghost use Rattle.build_inventory.specs.Placed.{pos_at, pos_of};
ghost use Rattle.build_inventory.specs.Positions.{or_end};
ghost use Rattle.build_inventory.specs.Stream.{WroteEntry, WroteOwn};

use crate::planned::{Placed, Planned};
use crate::stream::Stream;
use bit_record::Found;
use inventory::{Entry, entry_ranks, from_span, log2_quantum, shape_of, spilled_by};
use rank_sel::{ceil_shift, pow2};
use spacing::Parameters;

// A place, or the end of the last span where there is none.
pub fn or_end(place: Option<Found>, plan: Parameters) -> u64
    ensures { result ≡ or_end plan (found place) }
{
    match place {
        Some(found) => found.position,
        None => plan.len.max(1),
    }
}

// The one place where a cell is written, a zero too: what was lent may hold anything.
pub fn write_cell(cell: &mut u64, value: u64)
    ensures { cell.new ≡ value }
{
    *cell = value;
}

// The cells before an entry's lanes.
fn write_heads(cells: &mut [u64], first: u64, second: u64)
    requires { 2 ≤ length cells.old }
    ensures { cells.new ≡ set (set cells.old 0 first) 1 second }
{
    write_cell(&mut cells[0], first);
    write_cell(&mut cells[1], second);
}

impl<'a> Planned<'a> {
    // Where the entry after the one with this first rank and start begins.
    fn next_start(&self, first: u64, start: u64) -> u64
        requires { (first < N self.now.plan) × (start ≡ pos_of self.now first) }
        ensures { result ≡ bound (pos_of self.now) self.now.plan (first + 2 ^ L self.now.plan) }
    {
        let plan = self.plan;
        let ones = pow2(plan.log2_ones_per_inventory);
        let record = plan.record(self.words);
        or_end(record.seek_far(start, ones), plan)
    }

    // Entry e, from where it starts. Inlined: it answers so many bytes that a caller's copy of them would be a call of `memcpy`, which
    // the library for C does without.
    #[inline(always)]
    pub fn entry_at(&self, e: u64, start: u64) -> Placed<'a>
        requires { (e * 2 ^ L self.now.plan < N self.now.plan) × (start ≡ start_of (pos_of self.now) self.now.plan e) }
        ensures { (result.planned ≡ self.now) × (result.entry ≡ entry_of (pos_of self.now) self.now.plan e) }
    {
        let plan = self.plan;
        let ones = pow2(plan.log2_ones_per_inventory);
        let first = e * ones;
        let next = self.next_start(first, start);
        let ranks = entry_ranks(plan, e);
        let span = next - start;
        let kind = from_span(span);
        let log2_quantum = log2_quantum(kind, span, plan.log2_ones_per_sub16);
        let marks = ceil_shift(ranks, log2_quantum);
        let shape = shape_of(kind, start);
        let spilled = spilled_by(kind, marks, plan.log2_words_per_subinventory);
        let entry = Entry {
            first,
            start,
            next,
            log2_quantum,
            marks,
            spilled,
            shape,
        };
        Placed {
            planned: *self,
            number: e,
            entry,
        }
    }
}

impl Placed<'_> {
    // The stream of the entry's cells: a U64 entry's mark 0 is its start alone.
    pub fn stream(&self) -> Stream<'_>
        ensures { (result.placed.now ≡ self.now) × (result.k ≡ self.now.entry.shape.from) }
    {
        let record = self.planned.plan.record(self.planned.words);
        let mut stream = Stream {
            placed: self,
            at: record.found_at(self.entry.start),
            k: 0,
        };
        if self.entry.shape.from == 0 {
            return stream;
        }
        stream.next_lane();
        stream
    }

    // An entry's own cells. The stream of a kind without a second head begins at the second cell, over what is put there. The lent
    // cells and what they are at least stay parameters here, in `write_entry` and in their twins: in a struct the ones written would
    // be `&mut`s, of which no proof is made after one was lent.
    fn write_own(&self, before: u64, cells: &mut [u64]) -> Stream<'_>
        requires { stride self.now.planned.plan ≤ length cells.old }
        ensures { WroteOwn self.now before cells.old cells.new result }
    {
        let x = self.entry;
        let shape = x.shape;
        let own = pow2(self.planned.plan.log2_words_per_subinventory);
        write_heads(cells, x.start + shape.tag, before);
        let from = (1 + shape.heads) as usize;
        let to = (own + 1) as usize;
        self.stream().write_cells(&mut cells[from..to])
    }

    // Finishes one entry: its own cells, and those that it spills.
    pub fn write_entry(&self, before: u64, cells: &mut [u64], spill: &mut [u64])
        requires { (stride self.now.planned.plan ≤ length cells.old) × (self.now.entry.spilled ≤ length spill.old) }
        ensures { WroteEntry (pos_at self.now) self.now.entry (2 ^ M self.now.planned.plan) before cells.old cells.new spill.old spill.new }
    {
        let stream = self.write_own(before, cells);
        let n = self.entry.spilled as usize;
        stream.write_cells(&mut spill[..n]);
    }
}
