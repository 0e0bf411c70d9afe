// One rank of a list: its mark, and a reading that goes on from the later of the mark and the last bit reached.
ghost use Rattle.std.specs.Prelude.{◌≡◌, ◌<◌};
ghost use Rattle.bit_record.specs.Record.{selected};
ghost use Rattle.bit_record.specs.Selects.{selects};
ghost use Rattle.spacing.specs.Spacing.{N};
ghost use Rattle.select_list.specs.Hand.{Advances, BitIn, HandIn, Held, Reachable, StartWord, from_last, last_of, reached_as};
ghost use Rattle.select_list.specs.Step.{from_mark, read_from as reading_from, step_of};

use bit_record::{Found, Record, selected_word};
use rank_sel::Refusal;
use read_inventory::{Index, Mark};

// The last bit reached by reading, and the list's rank that reached it.
#[derive(Clone, Copy)]
pub(crate) struct Hand {
    pub(crate) bit: Found,
    pub(crate) rank: u64,
}

// A mark's word, and whether it had to be read: there is a word either way.
#[derive(Clone, Copy)]
pub(crate) struct MarkWord {
    pub(crate) word: u64,
    pub(crate) fresh: bool,
}

// A rank's position, the words read for it, and what is in hand then.
#[derive(Clone, Copy)]
pub(crate) struct Advance {
    pub(crate) position: u64,
    pub(crate) words: u64,
    pub(crate) hand: Option<Hand>,
}

// The word in hand is not read again.
#[inline(always)]
fn word_of(bits: &Record<'_>, hand: Option<Hand>, at: u64) -> MarkWord
    requires { BitIn (selects bits.now) hand × (at < bits.now.len) }
    ensures { StartWord (selects bits.now) (last_of hand) at result }
{
    match hand {
        Some(last) if at / 64 == last.bit.index => MarkWord {
            word: last.bit.word,
            fresh: false,
        },
        _ => MarkWord {
            word: selected_word(bits.words, (at / 64) as usize, bits.len, bits.polarity),
            fresh: true,
        },
    }
}

// What a reading from `from` on tells of the bit it found.
#[inline(always)]
fn reached(found: Option<Found>, rank: u64, from: u64, fresh: bool) -> Result<Advance, Refusal>
    requires { Reachable from found }
    ensures { result ≡ reached_as found rank from fresh }
{
    let Some(bit) = found else {
        return Err(Refusal::CellsUnlawful);
    };
    Ok(Advance {
        position: bit.position,
        words: bit.index - from / 64 + u64::from(fresh),
        hand: Some(Hand { bit, rank }),
    })
}

// From the last bit on, where it lies behind the mark: its word is in hand, with what remains there.
#[inline(always)]
fn read_on(bits: &Record<'_>, last: Hand, rank: u64) -> Result<Advance, Refusal>
    requires { Held (selects bits.now) rank last }
    ensures { Advances (selects bits.now) rank (reading_from (selects bits.now) bits.now.len (last_of (Some last)) rank (from_last last rank)) result }
{
    let found = bits.seek_on(last.bit, rank - last.rank);
    reached(found, rank, last.bit.position, false)
}

// From the mark on.
#[inline(always)]
fn read_from(
    bits: &Record<'_>,
    hand: Option<Hand>,
    rank: u64,
    mark: Mark,
) -> Result<Advance, Refusal>
    requires { BitIn (selects bits.now) hand × (mark.at < bits.now.len) }
    ensures { Advances (selects bits.now) rank (reading_from (selects bits.now) bits.now.len (last_of hand) rank (from_mark mark)) result }
{
    let start = word_of(bits, hand, mark.at);
    let found = bits.seek_with(mark.at, start.word, mark.residual);
    reached(found, rank, mark.at, start.fresh)
}

// A reading starts at the later of the mark and the last bit. The record is made where a reading needs it: an exact mark needs
// none. All of a step is inlined: a last bit that goes through memory is waited for.
#[inline(always)]
pub(crate) fn step_to(index: &Index<'_>, hand: Option<Hand>, rank: u64) -> Result<Advance, Refusal>
    requires { (rank < N index.now.cells.summary.plan) × HandIn (selected index.now.cells.summary.plan.polarity index.now.words.now index.now.cells.summary.plan.len) rank hand }
    ensures { Advances (selected index.now.cells.summary.plan.polarity index.now.words.now index.now.cells.summary.plan.len) rank (step_of index.now.words.now index.now.cells.summary index.now.cells.inventory.now index.now.cells.spill.now (last_of hand) rank) result }
{
    let Ok(mark) = index.cells.mark_of(rank) else {
        return Err(Refusal::CellsUnlawful);
    };
    if mark.exact {
        return Ok(Advance {
            position: mark.at,
            words: 0,
            hand,
        });
    }
    let record = index.cells.summary.plan.record(index.words);
    match hand {
        Some(last) if mark.at < last.bit.position => read_on(&record, last, rank),
        _ => read_from(&record, hand, rank, mark),
    }
}
