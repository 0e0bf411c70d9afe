// The calls of include/edge_index.h, each exported to C under its own name, with the clauses of the crate edge_index_c,
// to which it hands on: a crate is a library or a static library, and C links the second. A slice comes from C as a pointer and
// a length.
#![tactic(auto)]

ghost use Rattle.std.specs.Prelude.{length};
ghost use Rattle.select_in_word.specs.Select.{select_in_word};
ghost use Rattle.edge_index_c.specs.Calls.{BuiltC, ListedC, ReadC, Returned, ReturnedEdge, TurnedC, WroteC, build_c, cells_as, check_c, count_c, dwell_c, hint_as, hint_c, list_c, next_c, one_as, open_c, plan_c, previous_c, rank_c, select_c, size_c, sizes_as, subinventory_c, write_c};

use edge_index_c::WALKER_NUMBERS;
use inventory::SUMMARY_NUMBERS;

#[unsafe(no_mangle)]
pub extern "C" fn edge_index_count(words: &[u64], len: u64, polarity: u32, num: &mut u64) -> u32
    ensures { Returned (count_c words.now len polarity) result num.old num.new }
{
    edge_index_c::edge_index_count(words, len, polarity, num)
}

#[unsafe(no_mangle)]
pub extern "C" fn edge_index_plan(
    words: &[u64],
    len: u64,
    polarity: u32,
    kind: u32,
    value: u64,
    percentage: f64,
    log2: u32,
    summary: &mut [u64; SUMMARY_NUMBERS],
) -> u32
    ensures { Returned (plan_c words.now len polarity kind value percentage log2) result summary.old summary.new }
{
    edge_index_c::edge_index_plan(words, len, polarity, kind, value, percentage, log2, summary)
}

#[unsafe(no_mangle)]
pub extern "C" fn edge_index_size(
    words: &[u64],
    len: u64,
    polarity: u32,
    kind: u32,
    value: u64,
    percentage: f64,
    log2: u32,
    inventory_len: &mut u64,
    spill_len: &mut u64,
) -> u32
    ensures { Returned (size_c words.now len polarity kind value percentage log2) result (sizes_as inventory_len.old spill_len.old) (sizes_as inventory_len.new spill_len.new) }
{
    edge_index_c::edge_index_size(
        words,
        len,
        polarity,
        kind,
        value,
        percentage,
        log2,
        inventory_len,
        spill_len,
    )
}

#[unsafe(no_mangle)]
pub extern "C" fn edge_index_build(
    words: &[u64],
    len: u64,
    origin: u64,
    polarity: u32,
    kind: u32,
    value: u64,
    percentage: f64,
    log2: u32,
    inventory: &mut [u64],
    spill: &mut [u64],
    summary: &mut [u64; SUMMARY_NUMBERS],
) -> u32
    ensures { BuiltC words.now (build_c words.now len origin polarity kind value percentage log2 (length inventory.old) (length spill.old)) inventory.old inventory.new spill.old spill.new summary.old summary.new result }
{
    edge_index_c::edge_index_build(
        words, len, origin, polarity, kind, value, percentage, log2, inventory, spill, summary,
    )
}

#[unsafe(no_mangle)]
pub extern "C" fn edge_index_check(
    words: &[u64],
    len: u64,
    origin: u64,
    polarity: u32,
    kind: u32,
    value: u64,
    percentage: f64,
    log2: u32,
    summary: &[u64; SUMMARY_NUMBERS],
    inventory: &[u64],
    spill: &[u64],
    yes: &mut u64,
) -> u32
    ensures { Returned (check_c words.now len origin polarity kind value percentage log2 summary.now inventory.now spill.now) result yes.old yes.new }
{
    edge_index_c::edge_index_check(
        words, len, origin, polarity, kind, value, percentage, log2, summary, inventory, spill, yes,
    )
}

#[unsafe(no_mangle)]
pub extern "C" fn edge_index_select(
    words: &[u64],
    summary: &[u64; SUMMARY_NUMBERS],
    inventory: &[u64],
    spill: &[u64],
    rank: u64,
    position: &mut u64,
) -> u32
    ensures { Returned (select_c words.now summary.now inventory.now spill.now rank) result position.old position.new }
{
    edge_index_c::edge_index_select(words, summary, inventory, spill, rank, position)
}

#[unsafe(no_mangle)]
pub extern "C" fn edge_index_hint(
    words: &[u64],
    summary: &[u64; SUMMARY_NUMBERS],
    inventory: &[u64],
    spill: &[u64],
    rank: u64,
    mark: &mut u64,
    mark_rank: &mut u64,
) -> u32
    ensures { Returned (hint_c words.now summary.now inventory.now spill.now rank) result (hint_as mark.old mark_rank.old) (hint_as mark.new mark_rank.new) }
{
    edge_index_c::edge_index_hint(words, summary, inventory, spill, rank, mark, mark_rank)
}

#[unsafe(no_mangle)]
pub extern "C" fn edge_index_subinventory(
    words: &[u64],
    summary: &[u64; SUMMARY_NUMBERS],
    inventory: &[u64],
    spill: &[u64],
    rank: u64,
    slice: &mut u64,
    first: &mut u64,
    cells: &mut u64,
) -> u32
    ensures { Returned (subinventory_c words.now summary.now inventory.now spill.now rank) result (cells_as slice.old first.old cells.old) (cells_as slice.new first.new cells.new) }
{
    edge_index_c::edge_index_subinventory(
        words, summary, inventory, spill, rank, slice, first, cells,
    )
}

#[unsafe(no_mangle)]
pub extern "C" fn edge_index_dwell(
    words: &[u64],
    summary: &[u64; SUMMARY_NUMBERS],
    inventory: &[u64],
    spill: &[u64],
    a: u64,
    b: u64,
    samples: &mut u64,
) -> u32
    ensures { Returned (dwell_c words.now summary.now inventory.now spill.now a b) result samples.old samples.new }
{
    edge_index_c::edge_index_dwell(words, summary, inventory, spill, a, b, samples)
}

#[unsafe(no_mangle)]
pub extern "C" fn edge_index_select_list(
    words: &[u64],
    summary: &[u64; SUMMARY_NUMBERS],
    inventory: &[u64],
    spill: &[u64],
    ranks: &[u64],
    places: &mut [u64],
    words_read: &mut u64,
) -> u32
    ensures { ListedC (list_c words.now summary.now inventory.now spill.now ranks.now (length places.old)) places.old places.new result words_read.old words_read.new }
{
    edge_index_c::edge_index_select_list(
        words, summary, inventory, spill, ranks, places, words_read,
    )
}

#[unsafe(no_mangle)]
pub extern "C" fn edge_index_rank(
    words: &[u64],
    summary: &[u64; SUMMARY_NUMBERS],
    inventory: &[u64],
    spill: &[u64],
    sample: u64,
    rank: &mut u64,
) -> u32
    ensures { Returned (rank_c words.now summary.now inventory.now spill.now sample) result rank.old rank.new }
{
    edge_index_c::edge_index_rank(words, summary, inventory, spill, sample, rank)
}

#[unsafe(no_mangle)]
pub extern "C" fn edge_index_next(
    words: &[u64],
    summary: &[u64; SUMMARY_NUMBERS],
    sample: u64,
    edge: &mut u64,
    found: &mut u64,
) -> u32
    ensures { ReturnedEdge (next_c words.now summary.now sample) result edge.old found.old edge.new found.new }
{
    edge_index_c::edge_index_next(words, summary, sample, edge, found)
}

#[unsafe(no_mangle)]
pub extern "C" fn edge_index_previous(
    words: &[u64],
    summary: &[u64; SUMMARY_NUMBERS],
    sample: u64,
    edge: &mut u64,
    found: &mut u64,
) -> u32
    ensures { ReturnedEdge (previous_c words.now summary.now sample) result edge.old found.old edge.new found.new }
{
    edge_index_c::edge_index_previous(words, summary, sample, edge, found)
}

#[unsafe(no_mangle)]
pub extern "C" fn edge_index_open(
    words: &[u64],
    summary: &[u64; SUMMARY_NUMBERS],
    sample: u64,
    walker: &mut [u64; WALKER_NUMBERS],
) -> u32
    ensures { Returned (open_c words.entry summary.now sample) result walker.old walker.new }
{
    edge_index_c::edge_index_open(words, summary, sample, walker)
}

#[unsafe(no_mangle)]
pub extern "C" fn edge_index_turn(
    words: &[u64],
    walker: &mut [u64; WALKER_NUMBERS],
    edge: &mut u64,
    found: &mut u64,
) -> u32
    ensures { TurnedC words.now walker.old walker.new result edge.old found.old edge.new found.new }
{
    edge_index_c::edge_index_turn(words, walker, edge, found)
}

#[unsafe(no_mangle)]
pub extern "C" fn edge_index_write_image(
    summary: &[u64; SUMMARY_NUMBERS],
    inventory: &[u64],
    spill: &[u64],
    bytes: &mut [u8],
    written: &mut u64,
) -> u32
    ensures { WroteC (write_c summary.now inventory.now spill.now (length bytes.old)) bytes.old bytes.new result written.old written.new }
{
    edge_index_c::edge_index_write_image(summary, inventory, spill, bytes, written)
}

#[unsafe(no_mangle)]
pub extern "C" fn edge_index_read_image(
    bytes: &[u8],
    inventory: &mut [u64],
    spill: &mut [u64],
    summary: &mut [u64; SUMMARY_NUMBERS],
) -> u32
    ensures { ReadC bytes.now inventory.old inventory.new spill.old spill.new summary.old summary.new result }
{
    edge_index_c::edge_index_read_image(bytes, inventory, spill, summary)
}

#[unsafe(no_mangle)]
pub extern "C" fn edge_index_select_in_word(
    word: u64,
    rank: u64,
    position: &mut u64,
    remaining: &mut u64,
) -> u32
    ensures { Returned (select_in_word word rank) result (one_as position.old remaining.old) (one_as position.new remaining.new) }
{
    edge_index_c::edge_index_select_in_word(word, rank, position, remaining)
}
