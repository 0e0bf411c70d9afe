// Steps 2 to 6 on any cells: tag, start, place, number and mark.
ghost use Rattle.std.specs.Prelude.{◌≡◌, ◌+◌, ◌*◌, ◌/◌, ◌%◌, ◌^◌, ◌≤◌, ◌<◌, length, get_or};
ghost use Rattle.rank_sel.specs.Outcome.{outcome};
ghost use Rattle.spacing.specs.Spacing.{N, max_log2_words};
ghost use Rattle.inventory.specs.Index.{stride};
ghost use Rattle.inventory.specs.Lanes.{lane_of};
ghost use Rattle.inventory.specs.Shape.{Shaped};
ghost use Rattle.read_inventory.specs.Read.{mark_of_rank, span_at, start_at, start_by, tagged};
ghost use Rattle.read_inventory.specs.Steps.{EntryLent, HeadIn, SpotFor, decode_of, head_of, mark_by, number_of_mark, spacing_at};

use crate::index::Cells;
use inventory::{Shape, SpanType, entry_len, log2_ones_per_sub32, shape_of};
use rank_sel::{Refusal, pow2};
use select_in_word::low_bits;
use spacing::Parameters;

// The low bits of a first cell that say the start; the tag stands above them.
const START_BITS: u64 = 62;

// An entry, the number of its first cell, and what that cell says.
#[derive(Clone, Copy)]
pub(crate) struct Head {
    pub(crate) entry: u64,
    pub(crate) cell: u64,
    pub(crate) kind: SpanType,
    pub(crate) start: u64,
}

// Where a number stands: a cell, counted from the first that holds lanes, and a lane.
#[derive(Clone, Copy)]
enum Spot {
    Start,
    Own(u64, u64),
    Over(u64, u64),
}

// A number, and whether it is spilled: from which of the two slices it was read, not whether there is one.
#[derive(Clone, Copy)]
struct Number {
    value: u64,
    spilled: bool,
}

// The mark of a rank, the selected bits to pass from it on, and whether its number is spilled.
#[derive(Clone, Copy)]
pub(crate) struct Decoded {
    pub(crate) head: Head,
    pub(crate) log2_quantum: u32,
    pub(crate) mark: u64,
    pub(crate) residual: u64,
    pub(crate) spilled: bool,
}

// Where the mark of a rank stands, the selected bits to pass from it on, and whether it is itself the answer: there is a mark
// either way. That it stands below len is no field of it: the definitions' equations are of the three.
#[derive(Clone, Copy)]
pub struct Mark {
    pub at: u64,
    pub residual: u64,
    pub exact: bool,
}

// The mark of a rank, and the mark's own rank.
#[derive(Clone, Copy, Debug, PartialEq, Eq)]
pub struct Hint {
    pub mark: u64,
    pub rank: u64,
}

fn kind_of(cell: u64) -> SpanType
    ensures { result ≡ tagged (cell / 2 ^ 62) }
{
    let tag = cell >> START_BITS;
    if tag < 2 {
        return SpanType::U16;
    }
    if tag == 2 {
        return SpanType::U32;
    }
    SpanType::U64
}

fn start_of(kind: SpanType, cell: u64) -> u64
    ensures { result ≡ start_by kind cell }
{
    match kind {
        SpanType::U16 => cell,
        SpanType::U32 | SpanType::U64 => low_bits(cell, START_BITS),
    }
}

// This and `place_of` ask for their own bound on M, as inventory's `entry_count` and its kin do.
fn first_cell(plan: Parameters, entry: u64) -> u64
    requires { (plan.log2_words_per_subinventory ≤ max_log2_words) × (entry * stride plan < 2 ^ 64) }
    ensures { result ≡ entry * stride plan }
{
    entry * entry_len(plan.log2_words_per_subinventory)
}

// Where the number of mark i stands.
fn place_of(shape: Shape, log2_words_per_subinventory: u32, i: u64) -> Spot
    requires { Shaped shape × (log2_words_per_subinventory ≤ max_log2_words) }
    ensures { SpotFor shape log2_words_per_subinventory i result }
{
    if i < shape.from {
        return Spot::Start;
    }
    let log2_lanes = shape.log2_lanes;
    let near = shape.from + (pow2(log2_words_per_subinventory) - shape.heads) * shape.lanes;
    if i < near {
        let n = i - shape.from;
        return Spot::Own(n >> log2_lanes, low_bits(n, log2_lanes as u64));
    }
    let n = i - near;
    Spot::Over(n >> log2_lanes, low_bits(n, log2_lanes as u64))
}

// Lane `lane`, of `width` bits, of a cell.
fn lane_of(width: u64, cell: u64, lane: u64) -> u64
    requires { (0 < width) × (width ≤ 64) × (width * lane < 64) }
    ensures { result ≡ lane_of width cell lane }
{
    (cell >> (width * lane)) & (u64::MAX >> (64 - width))
}

// An entry whose first cell is read.
#[derive(Clone, Copy)]
struct OpenEntry<'a> {
    cells: Cells<'a>,
    head: Head,
    ghost read: { HeadIn cells.summary cells.inventory.now head },
}

impl OpenEntry<'_> {
    fn span(self) -> u64
        ensures { result ≡ span_at self.entry.cells.summary self.entry.cells.inventory.now self.entry.head.entry }
    {
        let cells = self.cells;
        let next = self.head.cell + entry_len(cells.summary.plan.log2_words_per_subinventory);
        low_bits(cells.inventory[next as usize], START_BITS).saturating_sub(self.head.start)
    }

    // Only a U32 entry's spacing goes by its span: the next entry's cell is read for no other.
    fn log2_quantum(self) -> Result<u32, Refusal>
        ensures { outcome result ≡ spacing_at self.entry.cells.summary self.entry.cells.inventory.now self.entry.head.entry }
    {
        let log2_ones_per_sub16 = self.cells.summary.plan.log2_ones_per_sub16;
        match self.head.kind {
            SpanType::U16 => Ok(log2_ones_per_sub16),
            SpanType::U32 => {
                let span = self.span();
                if span < 65537 {
                    return Err(Refusal::CellsUnlawful);
                }
                Ok(log2_ones_per_sub32(span, log2_ones_per_sub16))
            }
            SpanType::U64 => Ok(0),
        }
    }

    // The number of mark i. The spilled cell's number may pass 2^64: it is held to the count before it is reckoned.
    fn number(self, i: u64) -> Result<Number, Refusal>
        ensures { outcome result ≡ number_of_mark self.entry.cells.summary self.entry.cells.inventory.now self.entry.cells.spill.now self.entry.head.entry i }
    {
        let cells = self.cells;
        let head = self.head;
        let first = head.cell + 1;
        let shape = shape_of(head.kind, head.start);
        let spot = place_of(shape, cells.summary.plan.log2_words_per_subinventory, i);
        match spot {
            Spot::Start => Ok(Number {
                value: head.start,
                spilled: false,
            }),
            Spot::Own(n, lane) => {
                let at = (first + shape.heads + n) as usize;
                let value = lane_of(shape.width, cells.inventory[at], lane);
                Ok(Number {
                    value,
                    spilled: false,
                })
            }
            Spot::Over(n, lane) => {
                let from = cells.inventory[first as usize];
                if cells.summary.spill_len.saturating_sub(from) <= n {
                    return Err(Refusal::CellsUnlawful);
                }
                let value = lane_of(shape.width, cells.spill[(from + n) as usize], lane);
                Ok(Number {
                    value,
                    spilled: true,
                })
            }
        }
    }
}

// What is decoded says the mark too.
fn mark_by(decoded: Decoded) -> Mark
    ensures { result ≡ mark_by decoded }
{
    Mark {
        at: decoded.mark,
        residual: decoded.residual,
        exact: matches!(decoded.head.kind, SpanType::U64),
    }
}

// Number i of a U16 entry, whose cells from `first` on hold its numbers. By place: the bound that is shown is of the whole inventory.
fn quarter_at(inventory: &[u64], first: u64, i: u64) -> u64
    requires { first + i / 4 < length inventory.now }
    ensures { result ≡ lane_of 16 (get_or inventory.now (first + i / 4) 0) (i % 4) }
{
    lane_of(16, inventory[(first + i / 4) as usize], i % 4)
}

impl<'a> Cells<'a> {
    fn open(self, entry: u64) -> OpenEntry<'a>
        requires { EntryLent self.summary self.inventory.now entry }
        ensures { (result.cells ≡ self.entry) × (result.head ≡ head_of self.entry.summary self.entry.inventory.now entry) }
    {
        let plan = self.summary.plan;
        let cell = first_cell(plan, entry);
        let first = self.inventory[cell as usize];
        let kind = kind_of(first);
        let start = start_of(kind, first);
        let head = Head {
            entry,
            cell,
            kind,
            start,
        };
        OpenEntry { cells: self, head }
    }

    // Where an entry starts, by its first cell alone.
    #[inline(always)]
    pub fn start_at(&self, entry: u64) -> u64
        requires { EntryLent self.now.summary self.now.inventory.now entry }
        ensures { result ≡ start_at self.now.summary self.now.inventory.now entry }
    {
        self.open(entry).head.start
    }

    pub(crate) fn decode(self, rank: u64) -> Result<Decoded, Refusal>
        requires { rank < N self.summary.plan }
        ensures { outcome result ≡ decode_of self.entry.summary self.entry.inventory.now self.entry.spill.now rank }
    {
        let plan = self.summary.plan;
        let entry = self.open(rank >> plan.log2_ones_per_inventory);
        let log2_quantum = entry.log2_quantum()?;
        let subrank = low_bits(rank, plan.log2_ones_per_inventory as u64);
        let number = entry.number(subrank >> log2_quantum)?;
        let head = entry.head;
        let base = shape_of(head.kind, head.start).base;
        if plan.len.saturating_sub(base) <= number.value {
            return Err(Refusal::CellsUnlawful);
        }
        let residual = low_bits(subrank, log2_quantum as u64);
        Ok(Decoded {
            head,
            log2_quantum,
            mark: base + number.value,
            residual,
            spilled: number.spilled,
        })
    }

    // Steps 2 to 6 for a caller that asks for the mark alone. Nearly every entry is U16, and its numbers all stand in its own
    // cells: they are read without the general shape. By `decode` alone a jump takes half as long again.
    #[inline(always)]
    pub fn mark_of(&self, rank: u64) -> Result<Mark, Refusal>
        requires { rank < N self.now.summary.plan }
        ensures { outcome result ≡ mark_of_rank self.now.summary self.now.inventory.now self.now.spill.now rank }
    {
        let plan = self.summary.plan;
        let l = plan.log2_ones_per_inventory;
        let s = plan.log2_ones_per_sub16;
        let cell = first_cell(plan, rank >> l);
        let start = self.inventory[cell as usize];
        let SpanType::U16 = kind_of(start) else {
            // 10 is the only refusal of a decoded mark: whoever takes one apart, here and in each reader, answers it by name.
            let Ok(decoded) = self.decode(rank) else {
                return Err(Refusal::CellsUnlawful);
            };
            return Ok(mark_by(decoded));
        };
        let subrank = low_bits(rank, l as u64);
        let mark = start + quarter_at(self.inventory, cell + 1, subrank >> s);
        if plan.len <= mark {
            return Err(Refusal::CellsUnlawful);
        }
        Ok(Mark {
            at: mark,
            residual: low_bits(subrank, s as u64),
            exact: false,
        })
    }
}
