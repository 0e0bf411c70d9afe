// The stream of an entry's lanes, and of the cells that they fill.
ghost use Rattle.std.specs.Prelude.{◌+◌, ◌*◌, ◌^◌, ◌<◌, length};
ghost use Rattle.build_inventory.specs.Placed.{AtMark};

use crate::entry::write_cell;
use crate::planned::Placed;
use bit_record::Found;
use rank_sel::pow2;

// It stands at lane k, whose mark is the bit `at`: the next mark is sought by what remains in that bit's word.
#[derive(Clone, Copy)]
pub struct Stream<'a> {
    pub placed: &'a Placed<'a>,
    pub at: Found,
    pub k: u64,
    ghost stands: { AtMark placed.now at k },
}

impl<'a> Stream<'a> {
    ghost use Rattle.inventory.specs.Index.{lane, packed};
    ghost use Rattle.build_inventory.specs.Placed.{pos_at};
    ghost use Rattle.build_inventory.specs.Compare.{Compared};
    ghost use Rattle.build_inventory.specs.Stream.{Stepped, Wrote};

    // The next lane. Inlined, like `next_cell`: so the bit stays in registers. What each step asks of `k` differs: a lane, a cell of
    // up to four, and so many cells.
    #[inline(always)]
    pub fn next_lane(&mut self) -> u64
        requires { self.old.k < 2 ^ 63 }
        ensures { Stepped self.old (lane (pos_at self.old.placed.now) self.old.placed.now.entry self.old.k) 1 self.new result }
    {
        let placed = self.placed;
        let x = placed.entry;
        let at = self.at;
        let k = self.k;
        let next = k + 1;
        self.k = next;
        if k >= x.marks {
            return 0;
        }
        let shape = x.shape;
        let value = at.position - shape.base;
        if next >= x.marks {
            return value;
        }
        let plan = placed.planned.plan;
        let record = plan.record(placed.planned.words);
        if let Some(found) = record.seek_on(at, pow2(x.log2_quantum)) {
            self.at = found;
        }
        value
    }

    // The cell of the next lanes, lowest first: quarters, halves or one whole.
    #[inline(always)]
    fn next_cell(&mut self) -> u64
        requires { self.old.k + 4 < 2 ^ 63 }
        ensures { Stepped self.old (packed (pos_at self.old.placed.now) self.old.placed.now.entry self.old.k) self.old.placed.now.entry.shape.lanes self.new result }
    {
        let placed = self.placed;
        let shape = placed.entry.shape;
        let lanes = shape.lanes;
        let width = shape.width;
        let mut cell: u64 = 0;
        let mut shift: u64 = 0;
        for _ in 0..lanes {
            cell += self.next_lane() << shift;
            shift += width;
        }
        cell
    }

    // Writes the next cells. By value and inlined, like `same_cells`: else the stream, or its entry, is read anew from memory in
    // each turn of the loop.
    #[inline(always)]
    pub fn write_cells(self, cells: &mut [u64]) -> Stream<'a>
        requires { self.k + 4 * length cells.old + 4 < 2 ^ 63 }
        ensures { Wrote self.entry cells.old cells.new result }
    {
        let mut stream = self;
        for cell in cells.iter_mut() {
            write_cell(cell, stream.next_cell());
        }
        stream
    }

    // The stream behind these cells, if they are the next ones. A twin of `write_cells`, as those in index.rt.
    #[inline(always)]
    pub fn same_cells(self, cells: &[u64]) -> Option<Stream<'a>>
        requires { self.k + 4 * length cells.now + 4 < 2 ^ 63 }
        ensures { Compared self.entry cells.now result }
    {
        let mut stream = self;
        for cell in cells {
            if *cell != stream.next_cell() {
                return None;
            }
        }
        Some(stream)
    }
}
