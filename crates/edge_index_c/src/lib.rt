// The face for C, include/edge_index.h: numbers in, a number out, answers behind references. Each call reads its codes
// and hands on to the entry that it stands for. The crate edge_index_c_c exports the calls under the same names.
#![tactic(auto)]

ghost use Rattle.std.specs.Prelude.{true, false, ◌≡◌, ltb, get_or, length, MatchOption};
ghost use Rattle.rank_sel.specs.Outcome.{number_of, outcome};
ghost use Rattle.select_in_word.specs.Select.{select_in_word};
ghost use Rattle.edge_index_c.specs.Calls.{BuiltC, ListedC, ReadC, Returned, ReturnedEdge, TurnedC, WroteC, build_c, cells_as, check_c, count_c, dwell_c, hint_as, hint_c, list_c, next_c, one_as, open_c, plan_c, previous_c, rank_c, select_c, size_c, sizes_as, subinventory_c, verdict_of, walker_numbers, write_c};
ghost use Rattle.inventory.specs.Numbers.{numbers_of as numbers_in, polarity_at, summary_at};
ghost use Rattle.edge_index_c.specs.Codes.{choice_at, known, uncounted};

pub mod laws;

use edge_index::{CellPart, Choice, Parameters, Polarity, Refusal, Summary, Walker};
use inventory::{SUMMARY_NUMBERS, cut, numbers_of, polarity_at, summary_at};

// C's statuses, polarities and kinds are numbers: here they are made of refusals, polarities and choices, and read as such. Its
// interface has them beside one another, and a choice in four parts.

// A polarity or a kind that is none. No refusal has this number.
const BAD_CODE: u32 = 255;

fn status(refusal: Refusal) -> u32
    ensures { result ≡ number_of refusal }
{
    refusal.number() as u32
}

pub fn is_known(polarity: u32, kind: u32) -> bool
    ensures { result ≡ known polarity kind }
{
    polarity <= 1 && kind <= 4
}

#[tactic(auto, unfolding(crate::specs::Codes::choice_at))]
pub fn choice_at(kind: u32, value: u64, percentage: f64, log2: u32) -> Choice
    ensures { result ≡ choice_at kind value percentage log2 }
{
    match kind {
        0 => Choice::Default,
        1 => Choice::Span(value, log2),
        2 => Choice::Power(cut(value), log2),
        3 => Choice::Overhead(percentage, log2),
        _ => Choice::Fixed(cut(value), log2),
    }
}

// The polarity and the choice that C asks for, or nothing where a code is none.
pub fn asked(
    polarity: u32,
    kind: u32,
    value: u64,
    percentage: f64,
    log2: u32,
) -> Option<(Polarity, Choice)>
    ensures { MatchOption result (known polarity kind ≡ false) (λ q. (known polarity kind ≡ true) × (q.0 ≡ polarity_at polarity) × (q.1 ≡ choice_at kind value percentage log2)) }
{
    if !is_known(polarity, kind) {
        return None;
    }
    Some((
        polarity_at(polarity as u64),
        choice_at(kind, value, percentage, log2),
    ))
}

// The summary that C hands in, or nothing where its polarity is none.
fn read(numbers: &[u64; SUMMARY_NUMBERS]) -> Option<Summary>
    ensures { MatchOption result (ltb 1 (get_or numbers.now 0 0) ≡ true) (λ t. (ltb 1 (get_or numbers.now 0 0) ≡ false) × (t ≡ summary_at numbers.now)) }
{
    if numbers[0] > 1 {
        return None;
    }
    Some(summary_at(numbers))
}

// An answer goes out behind a reference, and a refusal as its number.
fn give<T: Drop>(told: Result<T, Refusal>, out: &mut T) -> u32
    ensures { Returned (outcome told) result out.old out.new }
{
    match told {
        Ok(value) => {
            *out = value;
            0
        }
        Err(refusal) => status(refusal),
    }
}

// A summary goes out as its nine numbers. Passed by name, a function has to be this crate's own.
fn numbers(summary: Summary) -> [u64; SUMMARY_NUMBERS]
    ensures { result ≡ numbers_in summary }
{
    numbers_of(summary)
}

// A plan goes out as a summary from 0 on whose cells are not counted.
fn uncounted(plan: Parameters) -> [u64; SUMMARY_NUMBERS]
    ensures { result ≡ numbers_in (uncounted plan) }
{
    numbers_of(Summary {
        plan,
        origin: 0,
        inventory_len: 0,
        spill_len: 0,
    })
}

pub fn edge_index_count(words: &[u64], len: u64, polarity: u32, num: &mut u64) -> u32
    ensures { Returned (count_c words.now len polarity) result num.old num.new }
{
    if polarity > 1 {
        return BAD_CODE;
    }
    give(
        edge_index::count(words, len, polarity_at(polarity as u64)),
        num,
    )
}

pub fn edge_index_plan(
    words: &[u64],
    len: u64,
    polarity: u32,
    kind: u32,
    value: u64,
    percentage: f64,
    log2: u32,
    summary: &mut [u64; SUMMARY_NUMBERS],
) -> u32
    ensures { Returned (plan_c words.now len polarity kind value percentage log2) result summary.old summary.new }
{
    let Some((polarity, choice)) = asked(polarity, kind, value, percentage, log2) else {
        return BAD_CODE;
    };
    let told = edge_index::plan(words, len, polarity, choice);
    give(told.map(uncounted), summary)
}

pub fn edge_index_size(
    words: &[u64],
    len: u64,
    polarity: u32,
    kind: u32,
    value: u64,
    percentage: f64,
    log2: u32,
    inventory_len: &mut u64,
    spill_len: &mut u64,
) -> u32
    ensures { Returned (size_c words.now len polarity kind value percentage log2) result (sizes_as inventory_len.old spill_len.old) (sizes_as inventory_len.new spill_len.new) }
{
    let Some((polarity, choice)) = asked(polarity, kind, value, percentage, log2) else {
        return BAD_CODE;
    };
    match edge_index::size(words, len, polarity, choice) {
        Ok(sizes) => {
            *inventory_len = sizes.inventory;
            *spill_len = sizes.spill;
            0
        }
        Err(refusal) => status(refusal),
    }
}

pub fn edge_index_build(
    words: &[u64],
    len: u64,
    origin: u64,
    polarity: u32,
    kind: u32,
    value: u64,
    percentage: f64,
    log2: u32,
    inventory: &mut [u64],
    spill: &mut [u64],
    summary: &mut [u64; SUMMARY_NUMBERS],
) -> u32
    ensures { BuiltC words.now (build_c words.now len origin polarity kind value percentage log2 (length inventory.old) (length spill.old)) inventory.old inventory.new spill.old spill.new summary.old summary.new result }
{
    let Some((polarity, choice)) = asked(polarity, kind, value, percentage, log2) else {
        return BAD_CODE;
    };
    let told = edge_index::build(words, len, origin, polarity, choice, inventory, spill);
    give(told.map(numbers), summary)
}

// A yes is 1, a no 0.
fn verdict(told: Result<bool, Refusal>) -> Result<u64, Refusal>
    ensures { outcome result ≡ verdict_of (outcome told) }
{
    Ok(told? as u64)
}

pub fn edge_index_check(
    words: &[u64],
    len: u64,
    origin: u64,
    polarity: u32,
    kind: u32,
    value: u64,
    percentage: f64,
    log2: u32,
    summary: &[u64; SUMMARY_NUMBERS],
    inventory: &[u64],
    spill: &[u64],
    yes: &mut u64,
) -> u32
    ensures { Returned (check_c words.now len origin polarity kind value percentage log2 summary.now inventory.now spill.now) result yes.old yes.new }
{
    let Some((polarity, choice)) = asked(polarity, kind, value, percentage, log2) else {
        return BAD_CODE;
    };
    let Some(summary) = read(summary) else {
        return BAD_CODE;
    };
    let told = edge_index::check(
        words, len, origin, polarity, choice, summary, inventory, spill,
    );
    give(verdict(told), yes)
}

pub fn edge_index_select(
    words: &[u64],
    summary: &[u64; SUMMARY_NUMBERS],
    inventory: &[u64],
    spill: &[u64],
    rank: u64,
    position: &mut u64,
) -> u32
    ensures { Returned (select_c words.now summary.now inventory.now spill.now rank) result position.old position.new }
{
    let Some(summary) = read(summary) else {
        return BAD_CODE;
    };
    give(
        edge_index::select(words, summary, inventory, spill, rank),
        position,
    )
}

pub fn edge_index_hint(
    words: &[u64],
    summary: &[u64; SUMMARY_NUMBERS],
    inventory: &[u64],
    spill: &[u64],
    rank: u64,
    mark: &mut u64,
    mark_rank: &mut u64,
) -> u32
    ensures { Returned (hint_c words.now summary.now inventory.now spill.now rank) result (hint_as mark.old mark_rank.old) (hint_as mark.new mark_rank.new) }
{
    let Some(summary) = read(summary) else {
        return BAD_CODE;
    };
    match edge_index::hint(words, summary, inventory, spill, rank) {
        Ok(hint) => {
            *mark = hint.mark;
            *mark_rank = hint.rank;
            0
        }
        Err(refusal) => status(refusal),
    }
}

pub fn edge_index_subinventory(
    words: &[u64],
    summary: &[u64; SUMMARY_NUMBERS],
    inventory: &[u64],
    spill: &[u64],
    rank: u64,
    slice: &mut u64,
    first: &mut u64,
    cells: &mut u64,
) -> u32
    ensures { Returned (subinventory_c words.now summary.now inventory.now spill.now rank) result (cells_as slice.old first.old cells.old) (cells_as slice.new first.new cells.new) }
{
    let Some(summary) = read(summary) else {
        return BAD_CODE;
    };
    match edge_index::subinventory_part(words, summary, inventory, spill, rank) {
        Ok(CellPart::Inventory(own, n)) => {
            *slice = 1;
            *first = own;
            *cells = n;
            0
        }
        Ok(CellPart::Spill(from, spilled)) => {
            *slice = 2;
            *first = from;
            *cells = spilled;
            0
        }
        Err(refusal) => status(refusal),
    }
}

pub fn edge_index_dwell(
    words: &[u64],
    summary: &[u64; SUMMARY_NUMBERS],
    inventory: &[u64],
    spill: &[u64],
    a: u64,
    b: u64,
    samples: &mut u64,
) -> u32
    ensures { Returned (dwell_c words.now summary.now inventory.now spill.now a b) result samples.old samples.new }
{
    let Some(summary) = read(summary) else {
        return BAD_CODE;
    };
    give(
        edge_index::dwell(words, summary, inventory, spill, a, b),
        samples,
    )
}

pub fn edge_index_select_list(
    words: &[u64],
    summary: &[u64; SUMMARY_NUMBERS],
    inventory: &[u64],
    spill: &[u64],
    ranks: &[u64],
    places: &mut [u64],
    words_read: &mut u64,
) -> u32
    ensures { ListedC (list_c words.now summary.now inventory.now spill.now ranks.now (length places.old)) places.old places.new result words_read.old words_read.new }
{
    let Some(summary) = read(summary) else {
        return BAD_CODE;
    };
    let told = edge_index::select_list(words, summary, inventory, spill, ranks, places);
    give(told, words_read)
}

pub fn edge_index_rank(
    words: &[u64],
    summary: &[u64; SUMMARY_NUMBERS],
    inventory: &[u64],
    spill: &[u64],
    sample: u64,
    rank: &mut u64,
) -> u32
    ensures { Returned (rank_c words.now summary.now inventory.now spill.now sample) result rank.old rank.new }
{
    let Some(summary) = read(summary) else {
        return BAD_CODE;
    };
    give(
        edge_index::rank(words, summary, inventory, spill, sample),
        rank,
    )
}

// An edge goes out with a 1, and none as a 0 beside the edge that stood there.
fn give_edge(told: Result<Option<u64>, Refusal>, edge: &mut u64, found: &mut u64) -> u32
    ensures { ReturnedEdge (outcome told) result edge.old found.old edge.new found.new }
{
    match told {
        Ok(Some(sample)) => {
            *edge = sample;
            *found = 1;
            0
        }
        Ok(None) => {
            *found = 0;
            0
        }
        Err(refusal) => status(refusal),
    }
}

pub fn edge_index_next(
    words: &[u64],
    summary: &[u64; SUMMARY_NUMBERS],
    sample: u64,
    edge: &mut u64,
    found: &mut u64,
) -> u32
    ensures { ReturnedEdge (next_c words.now summary.now sample) result edge.old found.old edge.new found.new }
{
    let Some(summary) = read(summary) else {
        return BAD_CODE;
    };
    give_edge(edge_index::next(words, summary, sample), edge, found)
}

pub fn edge_index_previous(
    words: &[u64],
    summary: &[u64; SUMMARY_NUMBERS],
    sample: u64,
    edge: &mut u64,
    found: &mut u64,
) -> u32
    ensures { ReturnedEdge (previous_c words.now summary.now sample) result edge.old found.old edge.new found.new }
{
    let Some(summary) = read(summary) else {
        return BAD_CODE;
    };
    give_edge(edge_index::previous(words, summary, sample), edge, found)
}

// The numbers of a walker: len, polarity, origin and place. Its words are C's, which hands them in for each turn.
pub const WALKER_NUMBERS: usize = 4;

const PLACE: usize = 3;

fn walker_numbers(walker: Walker<'_>) -> [u64; WALKER_NUMBERS]
    ensures { result ≡ walker_numbers walker.entry }
{
    [
        walker.len,
        walker.polarity as u64,
        walker.origin,
        walker.place,
    ]
}

pub fn edge_index_open(
    words: &[u64],
    summary: &[u64; SUMMARY_NUMBERS],
    sample: u64,
    walker: &mut [u64; WALKER_NUMBERS],
) -> u32
    ensures { Returned (open_c words.entry summary.now sample) result walker.old walker.new }
{
    let Some(summary) = read(summary) else {
        return BAD_CODE;
    };
    let told = Walker::open(words, summary, sample);
    give(told.map(walker_numbers), walker)
}

pub fn edge_index_turn(
    words: &[u64],
    walker: &mut [u64; WALKER_NUMBERS],
    edge: &mut u64,
    found: &mut u64,
) -> u32
    ensures { TurnedC words.now walker.old walker.new result edge.old found.old edge.new found.new }
{
    let [len, code, origin, place] = *walker;
    if code > 1 {
        return BAD_CODE;
    }
    let handed = Walker {
        words,
        len,
        polarity: polarity_at(code),
        origin,
        place,
    };
    let turn = handed.turn();
    walker[PLACE] = turn.walker.place;
    give_edge(turn.edge, edge, found)
}

pub fn edge_index_write_image(
    summary: &[u64; SUMMARY_NUMBERS],
    inventory: &[u64],
    spill: &[u64],
    bytes: &mut [u8],
    written: &mut u64,
) -> u32
    ensures { WroteC (write_c summary.now inventory.now spill.now (length bytes.old)) bytes.old bytes.new result written.old written.new }
{
    let Some(summary) = read(summary) else {
        return BAD_CODE;
    };
    let told = edge_index::write_image(summary, inventory, spill, bytes);
    give(told, written)
}

// A code that is no polarity is 15 here, as any header against the rules.
pub fn edge_index_read_image(
    bytes: &[u8],
    inventory: &mut [u64],
    spill: &mut [u64],
    summary: &mut [u64; SUMMARY_NUMBERS],
) -> u32
    ensures { ReadC bytes.now inventory.old inventory.new spill.old spill.new summary.old summary.new result }
{
    let told = edge_index::read_image(bytes, inventory, spill);
    give(told.map(numbers), summary)
}

pub fn edge_index_select_in_word(
    word: u64,
    rank: u64,
    position: &mut u64,
    remaining: &mut u64,
) -> u32
    ensures { Returned (select_in_word word rank) result (one_as position.old remaining.old) (one_as position.new remaining.new) }
{
    match edge_index::select_in_word(word, rank) {
        Ok(one) => {
            *position = one.position;
            *remaining = one.remaining;
            0
        }
        Err(refusal) => status(refusal),
    }
}
