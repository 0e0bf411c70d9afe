// Runs document 01's "Records to try", its examples of refusals and document 02's lists, origins and steps through the library;
// what it writes is held to stdout.
#![tactic(auto)]

ghost use Rattle.std.specs.Prelude.{◌≡◌, length};
ghost use Rattle.std.specs.Result.{ForOk};

use edge_index::{
    Choice, Hint, Parameters, Polarity, Refusal, Sizes, Summary, Walker, build, check, count,
    dwell, hint, next, plan, previous, rank, select, select_in_word, select_list, size,
    subinventory,
};
use std::io;

// The line of an answer, or of a refusal.
fn end<T, F: FnOnce(T) -> io::Result<()>>(
    rt: &impl Print,
    told: Result<T, Refusal>,
    line: F,
) -> io::Result<()>
    requires { ForOk told (F.pre line) }
{
    match told {
        Ok(answer) => line(answer),
        Err(refusal) => println!(rt; "refused {}", refusal.number()),
    }
}

fn show(rt: &impl Print, told: Result<u64, Refusal>) -> io::Result<()> {
    end(rt, told, |number| println!(rt; "{number}"))
}

// Words, length and polarity stay three, here, in `show_plan` and in `show_index`: the library takes them so.
fn show_count(
    rt: &impl Print,
    name: &str,
    words: &[u64],
    len: u64,
    polarity: Polarity,
) -> io::Result<()> {
    print!(rt; "count {name}: ")?;
    show(rt, count(words, len, polarity))
}

fn show_in_word(rt: &impl Print, word: u64, rank: u64) -> io::Result<()> {
    print!(rt; "in word {word:#x}, rank {rank}: ")?;
    end(
        rt,
        select_in_word(word, rank),
        |one| println!(rt; "position {}, remaining {}", one.position, one.remaining),
    )
}

fn end_planned(rt: &impl Print, p: Parameters) -> io::Result<()> {
    println!(rt;
        "N {}, L {}, M {}, S {}",
        p.num, p.log2_ones_per_inventory, p.log2_words_per_subinventory, p.log2_ones_per_sub16,
    )
}

fn show_plan(
    rt: &impl Print,
    name: &str,
    words: &[u64],
    len: u64,
    polarity: Polarity,
    choice: Choice,
) -> io::Result<()> {
    print!(rt; "plan {name}: ")?;
    end(
        rt,
        plan(words, len, polarity, choice),
        |p| end_planned(rt, p),
    )
}

// Record A, ones.
fn show_choice(rt: &impl Print, name: &str, choice: Choice) -> io::Result<()> {
    let a = [0x252u64];
    show_plan(rt, name, &a, 10, Polarity::Ones, choice)
}

fn counts(rt: &impl Print) -> io::Result<()> {
    let a = [0x252u64];
    show_count(rt, "A, ones", &a, 10, Polarity::Ones)?;
    show_count(rt, "A, zeros", &a, 10, Polarity::Zeros)?;
    show_count(rt, "A, len 64, zeros", &a, 64, Polarity::Zeros)?;
    show_count(rt, "A, len 2^62", &a, 0x4000_0000_0000_0000, Polarity::Ones)?;
    show_count(
        rt,
        "A, len 2^62 - 1",
        &a,
        0x3fff_ffff_ffff_ffff,
        Polarity::Ones,
    )?;
    show_count(rt, "A, 65 bits in one word", &a, 65, Polarity::Ones)?;
    let none = [0u64; 0];
    show_count(rt, "no words, len 0", &none, 0, Polarity::Ones)?;
    show_count(rt, "no words, len 0, zeros", &none, 0, Polarity::Zeros)?;
    show_count(rt, "no words, len 1", &none, 1, Polarity::Ones)?;
    let dirty = [u64::MAX, u64::MAX, u64::MAX];
    show_count(rt, "65 of 192 ones", &dirty, 65, Polarity::Ones)?;
    show_count(rt, "65 of 192 ones, zeros", &dirty, 65, Polarity::Zeros)
}

fn in_words(rt: &impl Print) -> io::Result<()> {
    show_in_word(rt, 0b1, 0)?;
    show_in_word(rt, 0b11, 1)?;
    show_in_word(rt, 0b101, 1)?;
    show_in_word(rt, 0x8000_0000_0000_0000, 0)?;
    show_in_word(rt, 0x8000_0000_8000_0000, 0)?;
    show_in_word(rt, 0x8000_0000_8000_0000, 1)?;
    show_in_word(rt, 0x252, 1)?;
    show_in_word(rt, 0x252, 3)?;
    show_in_word(rt, 0x252, 4)?;
    show_in_word(rt, 0, 0)?;
    show_in_word(rt, u64::MAX, 63)?;
    show_in_word(rt, u64::MAX, 64)?;
    show_in_word(rt, u64::MAX, u64::MAX)
}

fn plans(rt: &impl Print) -> io::Result<()> {
    let a = [0x252u64];
    show_choice(rt, "default", Choice::Default)?;
    show_plan(
        rt,
        "default, zeros",
        &a,
        10,
        Polarity::Zeros,
        Choice::Default,
    )?;
    show_plan(
        rt,
        "default, len 2^62",
        &a,
        0x4000_0000_0000_0000,
        Polarity::Ones,
        Choice::Default,
    )?;
    show_plan(
        rt,
        "default, 65 bits in one word",
        &a,
        65,
        Polarity::Ones,
        Choice::Default,
    )?;
    let three = [0x7u64];
    show_plan(
        rt,
        "N 3, span 5",
        &three,
        10,
        Polarity::Ones,
        Choice::Span(5, 0),
    )?;
    show_choice(rt, "span 0", Choice::Span(0, 0))?;
    show_choice(rt, "span 1, maximum 10", Choice::Span(1, 10))?;
    show_choice(rt, "span 2^64 - 1, maximum 10", Choice::Span(u64::MAX, 10))?;
    show_choice(rt, "span 4096, maximum 11", Choice::Span(4096, 11))?;
    show_choice(rt, "power 63, maximum 0", Choice::Power(63, 0))?;
    show_choice(rt, "power 63, maximum 10", Choice::Power(63, 10))?;
    show_choice(rt, "power 63, maximum 11", Choice::Power(63, 11))?;
    show_choice(rt, "power 64", Choice::Power(64, 0))?;
    show_choice(rt, "power 64, maximum 11", Choice::Power(64, 11))?;
    show_choice(rt, "fixed 63, 10", Choice::Fixed(63, 10))?;
    show_choice(rt, "fixed 63, 11", Choice::Fixed(63, 11))?;
    show_choice(rt, "fixed 64, 11", Choice::Fixed(64, 11))
}

fn overheads(rt: &impl Print) -> io::Result<()> {
    show_choice(rt, "overhead 100.0, maximum 3", Choice::Overhead(100.0, 3))?;
    show_choice(rt, "overhead 10.0, maximum 3", Choice::Overhead(10.0, 3))?;
    show_choice(rt, "overhead 100.0, maximum 0", Choice::Overhead(100.0, 0))?;
    show_choice(
        rt,
        "overhead 100.0, maximum 10",
        Choice::Overhead(100.0, 10),
    )?;
    show_choice(
        rt,
        "overhead 100.0, maximum 11",
        Choice::Overhead(100.0, 11),
    )?;
    show_choice(rt, "overhead 5e-324", Choice::Overhead(5e-324, 3))?;
    show_choice(rt, "overhead 1e308", Choice::Overhead(1e308, 3))?;
    show_choice(rt, "overhead 0.0", Choice::Overhead(0.0, 3))?;
    show_choice(rt, "overhead -0.0", Choice::Overhead(-0.0, 3))?;
    show_choice(rt, "overhead -1.0", Choice::Overhead(-1.0, 3))?;
    show_choice(rt, "overhead infinite", Choice::Overhead(1.0 / 0.0, 3))?;
    show_choice(rt, "overhead NaN", Choice::Overhead(0.0 / 0.0, 3))?;
    show_choice(
        rt,
        "overhead NaN, maximum 11",
        Choice::Overhead(0.0 / 0.0, 11),
    )
}

fn end_cells(rt: &impl Print, cells: &[u64]) -> io::Result<()> {
    for cell in cells {
        print!(rt; " {cell:#x}")?;
    }
    println!(rt; "")
}

fn show_sizes(rt: &impl Print, told: Result<Sizes, Refusal>) -> io::Result<()> {
    end(
        rt,
        told,
        |sizes| println!(rt; "cells {}, spilled {}", sizes.inventory, sizes.spill),
    )
}

fn end_built(rt: &impl Print, summary: Summary) -> io::Result<()> {
    print!(rt;
        "cells {}, spilled {}, ",
        summary.inventory_len, summary.spill_len,
    )?;
    end_planned(rt, summary.plan)
}

fn show_checked(rt: &impl Print, told: Result<bool, Refusal>) -> io::Result<()> {
    end(
        rt,
        told,
        |yes| println!(rt; "{}", if yes { "yes" } else { "no" }),
    )
}

fn show_hint(rt: &impl Print, told: Result<Hint, Refusal>) -> io::Result<()> {
    end(
        rt,
        told,
        |hint| println!(rt; "mark {}, rank {}", hint.mark, hint.rank),
    )
}

// The summary, from 0 on, of a plan that the caller writes out.
fn summary_of(
    polarity: Polarity,
    len: u64,
    num: u64,
    l: u32,
    s: u32,
    inventory_len: u64,
    spill_len: u64,
) -> Summary {
    let plan = Parameters {
        polarity,
        len,
        num,
        log2_ones_per_inventory: l,
        log2_words_per_subinventory: 0,
        log2_ones_per_sub16: s,
    };
    Summary {
        plan,
        origin: 0,
        inventory_len,
        spill_len,
    }
}

// Size, build and the cells left, for cells that hold ones before.
fn show_index(
    rt: &impl Print,
    name: &str,
    words: &[u64],
    len: u64,
    polarity: Polarity,
    choice: Choice,
    inventory: &mut [u64],
    spill: &mut [u64],
) -> io::Result<()> {
    print!(rt; "size {name}: ")?;
    show_sizes(rt, size(words, len, polarity, choice))?;
    print!(rt; "build {name}: ")?;
    end(
        rt,
        build(words, len, 0, polarity, choice, inventory, spill),
        |summary| end_built(rt, summary),
    )?;
    print!(rt; "  inventory")?;
    end_cells(rt, inventory)?;
    print!(rt; "  spill")?;
    end_cells(rt, spill)
}

// Jump, hint and store at one rank, of an index in four parts, as the library takes it.
fn show_rank(
    rt: &impl Print,
    words: &[u64],
    summary: Summary,
    inventory: &[u64],
    spill: &[u64],
    rank: u64,
) -> io::Result<()> {
    print!(rt; "rank {rank}: ")?;
    show(rt, select(words, summary, inventory, spill, rank))?;
    print!(rt; "  hint ")?;
    show_hint(rt, hint(words, summary, inventory, spill, rank))?;
    print!(rt; "  store")?;
    end_cells(rt, subinventory(words, summary, inventory, spill, rank))
}

fn show_select(
    rt: &impl Print,
    name: &str,
    words: &[u64],
    summary: Summary,
    inventory: &[u64],
    spill: &[u64],
    rank: u64,
) -> io::Result<()> {
    print!(rt; "jump {name}: ")?;
    show(rt, select(words, summary, inventory, spill, rank))
}

fn indexes_of_a(rt: &impl Print) -> io::Result<()> {
    let a = [0x252u64];
    let mut none = [u64::MAX; 1];
    let mut cells = [u64::MAX; 6];
    show_index(
        rt,
        "A, power 1, 0",
        &a,
        10,
        Polarity::Ones,
        Choice::Power(1, 0),
        &mut cells,
        &mut none,
    )?;
    let mut zeros = [u64::MAX; 7];
    show_index(
        rt,
        "A zeros, power 1, 0",
        &a,
        10,
        Polarity::Zeros,
        Choice::Power(1, 0),
        &mut zeros,
        &mut none,
    )?;
    let mut few = [u64::MAX; 3];
    show_index(
        rt,
        "A, default",
        &a,
        10,
        Polarity::Ones,
        Choice::Default,
        &mut few,
        &mut none,
    )?;
    let mut short = [u64::MAX; 4];
    show_index(
        rt,
        "A in 4 cells",
        &a,
        10,
        Polarity::Ones,
        Choice::Power(1, 0),
        &mut short,
        &mut none,
    )?;
    let blank = [0u64];
    let mut one = [u64::MAX; 1];
    show_index(
        rt,
        "len 5 without ones",
        &blank,
        5,
        Polarity::Ones,
        Choice::Default,
        &mut one,
        &mut none,
    )?;
    show_index(
        rt,
        "len 0",
        &blank,
        0,
        Polarity::Ones,
        Choice::Default,
        &mut one,
        &mut none,
    )
}

fn readers_of_a(rt: &impl Print) -> io::Result<()> {
    let a = [0x252u64];
    let none = [0u64; 0];
    let ones = summary_of(Polarity::Ones, 10, 4, 1, 0, 5, 0);
    let cells = [1u64, 0x30000, 6, 0x30000, 10];
    show_rank(rt, &a, ones, &cells, &none, 0)?;
    show_rank(rt, &a, ones, &cells, &none, 1)?;
    show_rank(rt, &a, ones, &cells, &none, 2)?;
    show_rank(rt, &a, ones, &cells, &none, 3)?;
    show_rank(rt, &a, ones, &cells, &none, 4)?;
    let zeros = summary_of(Polarity::Zeros, 10, 6, 1, 0, 7, 0);
    let zero_cells = [0u64, 0x20000, 3, 0x20000, 7, 0x10000, 10];
    show_rank(rt, &a, zeros, &zero_cells, &none, 0)?;
    show_rank(rt, &a, zeros, &zero_cells, &none, 3)?;
    show_rank(rt, &a, zeros, &zero_cells, &none, 5)?;
    print!(rt; "dwell A 0, 3: ")?;
    show(rt, dwell(&a, ones, &cells, &none, 0, 3))?;
    print!(rt; "dwell A 2, 1: ")?;
    show(rt, dwell(&a, ones, &cells, &none, 2, 1))?;
    print!(rt; "dwell A 5, 1: ")?;
    show(rt, dwell(&a, ones, &cells, &none, 5, 1))?;
    print!(rt; "dwell A 1, 1: ")?;
    show(rt, dwell(&a, ones, &cells, &none, 1, 1))
}

// C: ones at 0 and 65,539 of 65,540.
fn record_c() -> [u64; 1025]
    ensures { 1025 ≡ length result }
{
    let mut words = [0u64; 1025];
    words[0] = 1;
    words[1024] = 8;
    words
}

fn summary_c() -> Summary {
    summary_of(Polarity::Ones, 65540, 2, 1, 0, 3, 1)
}

fn index_of_c(rt: &impl Print) -> io::Result<()> {
    let c = record_c();
    let mut cells = [u64::MAX; 4];
    let mut spill = [u64::MAX; 2];
    show_index(
        rt,
        "C, power 1, 0",
        &c,
        65540,
        Polarity::Ones,
        Choice::Power(1, 0),
        &mut cells,
        &mut spill,
    )?;
    let mut no_spill = [0u64; 0];
    show_index(
        rt,
        "C without spill",
        &c,
        65540,
        Polarity::Ones,
        Choice::Power(1, 0),
        &mut cells,
        &mut no_spill,
    )
}

// D: ones at 0 and 65,535 of 65,536.
fn index_of_d(rt: &impl Print) -> io::Result<()> {
    let mut d = [0u64; 1024];
    d[0] = 1;
    d[1023] = 0x8000_0000_0000_0000;
    let mut cells = [u64::MAX; 3];
    let mut spill = [u64::MAX; 1];
    show_index(
        rt,
        "D, power 1, 0",
        &d,
        65536,
        Polarity::Ones,
        Choice::Power(1, 0),
        &mut cells,
        &mut spill,
    )?;
    let written = [0u64, 0xFFFF0000, 65536];
    let none = [0u64; 0];
    let summary = summary_of(Polarity::Ones, 65536, 2, 1, 0, 3, 0);
    show_rank(rt, &d, summary, &written, &none, 0)?;
    show_rank(rt, &d, summary, &written, &none, 1)
}

fn readers_of_c(rt: &impl Print) -> io::Result<()> {
    let c = record_c();
    let cells = [0x8000_0000_0000_0000u64, 0, 65540];
    let spill = [0x0001_0003_0000_0000u64];
    show_rank(rt, &c, summary_c(), &cells, &spill, 0)?;
    show_rank(rt, &c, summary_c(), &cells, &spill, 1)?;
    let none = [0u64; 0];
    show_select(rt, "C without its spill", &c, summary_c(), &cells, &none, 1)
}

// Rank 1 of C, by other inventory cells.
fn select_in_c(rt: &impl Print, name: &str, cells: &[u64]) -> io::Result<()> {
    let c = record_c();
    let spill = [0x0001_0003_0000_0000u64];
    show_select(rt, name, &c, summary_c(), cells, &spill, 1)
}

fn damage_to_c(rt: &impl Print) -> io::Result<()> {
    let tagged_end = [0x8000_0000_0000_0000u64, 0, 0xC000_0000_0001_0004];
    select_in_c(
        rt,
        "C, of the next first cell the low 62 bits count",
        &tagged_end,
    )?;
    let far_end = [0x8000_0000_0000_0000u64, 0, 0x2_0000_0000];
    select_in_c(rt, "C, U32 with a span over 2^32", &far_end)?;
    let near_end = [0x8000_0000_0000_0000u64, 0, 65536];
    select_in_c(rt, "C, U32 with a span of 65,536", &near_end)?;
    let plain = [0u64, 0, 65540];
    select_in_c(rt, "C, U16 on a large span", &plain)?;
    let past = [0x8000_0000_0000_0000u64, u64::MAX, 65540];
    select_in_c(rt, "C, second cell 2^64 - 1", &past)
}

fn damage_to_a(rt: &impl Print) -> io::Result<()> {
    let a = [0x252u64];
    let none = [0u64; 0];
    let ones = summary_of(Polarity::Ones, 10, 4, 1, 0, 5, 0);
    let whole = [0xC000_0000_0000_0002u64, u64::MAX, 6, 0x30000, 10];
    show_select(
        rt,
        "A, U64 position not selected, second cell not needed",
        &a,
        ones,
        &whole,
        &none,
        0,
    )?;
    show_select(
        rt,
        "A, U64 on a small span, its spill missing",
        &a,
        ones,
        &whole,
        &none,
        1,
    )?;
    let outside = [0xC000_0000_0000_000Au64, 0, 6, 0x30000, 10];
    show_select(rt, "A, U64 position at len", &a, ones, &outside, &none, 0)?;
    let high = [0x4000_0000_0000_0001u64, 0x30000, 6, 0x30000, 10];
    show_select(
        rt,
        "A, tag 01: a U16 start past 2^62",
        &a,
        ones,
        &high,
        &none,
        0,
    )?;
    let narrow = [0x8000_0000_0000_0000u64, 0x30000, 6, 0x30000, 10];
    show_select(
        rt,
        "A, first cell 0x8000000000000000",
        &a,
        ones,
        &narrow,
        &none,
        0,
    )?;
    let few = summary_of(Polarity::Ones, 10, 4, 10, 8, 3, 0);
    let late = [9u64, 0, 10];
    show_select(
        rt,
        "A, default, start at the last edge, rank 1",
        &a,
        few,
        &late,
        &none,
        1,
    )?;
    print!(rt; "  hint ")?;
    show_hint(rt, hint(&a, few, &late, &none, 1))?;
    let back = [9u64, 0x30000, 1, 0x30000, 10];
    print!(rt; "dwell A, entries swapped, 0, 2: ")?;
    show(rt, dwell(&a, ones, &back, &none, 0, 2))
}

// Only check finds a stale index: jump goes by the cells, here those of edges 1, 5, 6, 9, and answers 6, not 4.
fn stale_index(rt: &impl Print) -> io::Result<()> {
    let a = [0x252u64];
    let none = [0u64; 0];
    let ones = summary_of(Polarity::Ones, 10, 4, 1, 0, 5, 0);
    let stale = [1u64, 0x40000, 6, 0x30000, 10];
    show_select(
        rt,
        "A, index of edges 1, 5, 6, 9, rank 1",
        &a,
        ones,
        &stale,
        &none,
        1,
    )?;
    check_a(rt, ones, &stale)
}

fn summaries_of_a(rt: &impl Print) -> io::Result<()> {
    let a = [0x252u64];
    let none = [0u64; 0];
    let cells = [1u64, 0x30000, 6, 0x30000, 10];
    show_select(
        rt,
        "A, N 11",
        &a,
        summary_of(Polarity::Ones, 10, 11, 1, 0, 13, 0),
        &cells,
        &none,
        0,
    )?;
    show_select(
        rt,
        "A, L 64",
        &a,
        summary_of(Polarity::Ones, 10, 4, 64, 62, 3, 0),
        &cells,
        &none,
        0,
    )?;
    show_select(
        rt,
        "A, S 1",
        &a,
        summary_of(Polarity::Ones, 10, 4, 1, 1, 5, 0),
        &cells,
        &none,
        0,
    )?;
    show_select(
        rt,
        "A, 6 cells",
        &a,
        summary_of(Polarity::Ones, 10, 4, 1, 0, 6, 0),
        &cells,
        &none,
        0,
    )?;
    show_select(
        rt,
        "A, len 65",
        &a,
        summary_of(Polarity::Ones, 65, 4, 1, 0, 5, 0),
        &cells,
        &none,
        0,
    )?;
    show_select(
        rt,
        "A, len 2^62",
        &a,
        summary_of(Polarity::Ones, 0x4000_0000_0000_0000, 4, 1, 0, 5, 0),
        &cells,
        &none,
        0,
    )?;
    show_select(
        rt,
        "A, spill count 1",
        &a,
        summary_of(Polarity::Ones, 10, 4, 1, 0, 5, 1),
        &cells,
        &none,
        0,
    )?;
    let short = [1u64, 0x30000, 6, 0x30000];
    show_select(
        rt,
        "A, 4 cells lent",
        &a,
        summary_of(Polarity::Ones, 10, 4, 1, 0, 5, 0),
        &short,
        &none,
        0,
    )
}

fn changed<F: FnOnce(&mut Summary)>(summary: Summary, change: F) -> Summary
    requires { F.IsAlwaysCallable change }
{
    let mut changed = summary;
    change(&mut changed);
    changed
}

// The summary with one number wrong, each in turn in document 01's order; polarity and origin have tests of their own.
fn wrong_summaries(right: Summary) -> [Summary; 7] {
    [
        changed(right, |s| s.plan.len = s.plan.len.wrapping_add(1)),
        changed(right, |s| s.plan.num = s.plan.num.wrapping_add(1)),
        changed(right, |s| s.plan.log2_ones_per_inventory = 2),
        changed(right, |s| s.plan.log2_words_per_subinventory = 1),
        changed(right, |s| s.plan.log2_ones_per_sub16 = 1),
        changed(right, |s| s.inventory_len = s.inventory_len.wrapping_add(1)),
        changed(right, |s| s.spill_len = s.spill_len.wrapping_add(1)),
    ]
}

// A's ones, and C's, against a summary and cells handed in.
fn check_a_by(
    rt: &impl Print,
    choice: Choice,
    origin: u64,
    summary: Summary,
    cells: &[u64],
) -> io::Result<()> {
    let a = [0x252u64];
    let none = [0u64; 0];
    print!(rt; "check A: ")?;
    show_checked(
        rt,
        check(
            &a,
            10,
            origin,
            Polarity::Ones,
            choice,
            summary,
            cells,
            &none,
        ),
    )
}

fn check_a_from(rt: &impl Print, origin: u64, summary: Summary, cells: &[u64]) -> io::Result<()> {
    check_a_by(rt, Choice::Power(1, 0), origin, summary, cells)
}

fn check_a(rt: &impl Print, summary: Summary, cells: &[u64]) -> io::Result<()> {
    check_a_from(rt, 0, summary, cells)
}

fn check_c(rt: &impl Print, summary: Summary, cells: &[u64], spill: &[u64]) -> io::Result<()> {
    let c = record_c();
    print!(rt; "check C: ")?;
    show_checked(
        rt,
        check(
            &c,
            65540,
            0,
            Polarity::Ones,
            Choice::Power(1, 0),
            summary,
            cells,
            spill,
        ),
    )
}

fn summary_checks_of_a(rt: &impl Print) -> io::Result<()> {
    let cells = [1u64, 0x30000, 6, 0x30000, 10, 77];
    let right = summary_of(Polarity::Ones, 10, 4, 1, 0, 5, 0);
    check_a(rt, right, &cells)?;
    check_a(rt, summary_of(Polarity::Zeros, 10, 4, 1, 0, 5, 0), &cells)?;
    for wrong in wrong_summaries(right) {
        check_a(rt, wrong, &cells)?;
    }
    Ok(())
}

fn cell_checks_of_a(rt: &impl Print) -> io::Result<()> {
    let right = summary_of(Polarity::Ones, 10, 4, 1, 0, 5, 0);
    check_a(rt, right, &[0u64, 0x30000, 6, 0x30000, 10])?;
    check_a(rt, right, &[1u64, 0x30001, 6, 0x30000, 10])?;
    check_a(rt, right, &[1u64, 0x30000, 7, 0x30000, 10])?;
    check_a(rt, right, &[1u64, 0x30000, 6, 0x1_0000_0003_0000, 10])?;
    check_a(rt, right, &[1u64, 0x30000, 6, 0x30000, 9])?;
    check_a(rt, right, &[1u64, 0x30000, 6, 0x30000])
}

fn check_c_summary(rt: &impl Print, summary: Summary) -> io::Result<()> {
    let cells = [0x8000_0000_0000_0000u64, 0, 65540];
    let spill = [0x0001_0003_0000_0000u64];
    check_c(rt, summary, &cells, &spill)
}

fn check_c_cells(
    rt: &impl Print,
    first: u64,
    second: u64,
    last: u64,
    spilled: u64,
) -> io::Result<()> {
    let cells = [first, second, last];
    let spill = [spilled];
    check_c(rt, summary_c(), &cells, &spill)
}

fn checks_of_c(rt: &impl Print) -> io::Result<()> {
    check_c_summary(rt, summary_c())?;
    check_c_summary(rt, summary_of(Polarity::Zeros, 65540, 2, 1, 0, 3, 1))?;
    for wrong in wrong_summaries(summary_c()) {
        check_c_summary(rt, wrong)?;
    }
    check_c_cells(rt, 0, 0, 65540, 0x0001_0003_0000_0000)?;
    check_c_cells(rt, 0x8000_0000_0000_0000, 1, 65540, 0x0001_0003_0000_0000)?;
    check_c_cells(rt, 0x8000_0000_0000_0000, 0, 65539, 0x0001_0003_0000_0000)?;
    check_c_cells(rt, 0x8000_0000_0000_0000, 0, 65540, 0x0001_0003_0000_0001)?;
    let cells = [0x8000_0000_0000_0000u64, 0, 65540];
    let none = [0u64; 0];
    check_c(rt, summary_c(), &cells, &none)
}

// A list of jumps: the words read, and what the places hold afterwards.
fn show_list(
    rt: &impl Print,
    name: &str,
    words: &[u64],
    summary: Summary,
    inventory: &[u64],
    ranks: &[u64],
    places: &mut [u64],
) -> io::Result<()> {
    let none = [0u64; 0];
    print!(rt; "list {name}: ")?;
    show(
        rt,
        select_list(words, summary, inventory, &none, ranks, places),
    )?;
    print!(rt; "  places")?;
    end_cells(rt, places)
}

// Record A, ones, power 1, 0.
fn list_a(rt: &impl Print, name: &str, ranks: &[u64], places: &mut [u64]) -> io::Result<()> {
    let a = [0x252u64];
    let cells = [1u64, 0x30000, 6, 0x30000, 10];
    let ones = summary_of(Polarity::Ones, 10, 4, 1, 0, 5, 0);
    show_list(rt, name, &a, ones, &cells, ranks, places)
}

fn lists_of_a(rt: &impl Print) -> io::Result<()> {
    list_a(rt, "A, ranks 0 1 2 3", &[0u64, 1, 2, 3], &mut [77u64; 5])?;
    list_a(rt, "A, ranks 3 3 3", &[3u64, 3, 3], &mut [77u64; 3])?;
    list_a(rt, "A, no ranks", &[0u64; 0], &mut [77u64; 1])?;
    list_a(rt, "A, ranks 5 4, no place", &[5u64, 4], &mut [77u64; 0])?;
    list_a(rt, "A, ranks 4 5, one place", &[4u64, 5], &mut [77u64; 1])?;
    list_a(rt, "A, ranks 4 5", &[4u64, 5], &mut [77u64; 2])?;
    list_a(rt, "A, ranks 0 2 1 3", &[0u64, 2, 1, 3], &mut [77u64; 4])
}

// One entry of two ranks over four bits, with cells that no build writes.
fn list_foreign(rt: &impl Print, name: &str, word: u64, cells: &[u64]) -> io::Result<()> {
    let words = [word];
    let two = summary_of(Polarity::Ones, 4, 2, 1, 0, 3, 0);
    show_list(rt, name, &words, two, cells, &[0u64, 1], &mut [77u64; 2])
}

// Here jumps one by one would answer otherwise, or by other rules.
fn lists_on_foreign_cells(rt: &impl Print) -> io::Result<()> {
    list_foreign(rt, "word 2, cells 0 0 1, ranks 0 1", 0b0010, &[0u64, 0, 1])?;
    list_foreign(rt, "word 7, cells 0 1 4, ranks 0 1", 0b0111, &[0u64, 1, 4])?;
    list_foreign(rt, "word 1, cells 0 0 4, ranks 0 1", 0b0001, &[0u64, 0, 4])
}

// A's ones, power 1, 0, from an origin on.
fn ones_from(origin: u64) -> Summary {
    let mut summary = summary_of(Polarity::Ones, 10, 4, 1, 0, 5, 0);
    summary.origin = origin;
    summary
}

fn build_from(rt: &impl Print, name: &str, len: u64, origin: u64) -> io::Result<()> {
    let a = [0x252u64];
    let mut cells = [u64::MAX; 5];
    let mut none = [u64::MAX; 1];
    print!(rt; "build {name}: ")?;
    let choice = Choice::Power(1, 0);
    end(
        rt,
        build(
            &a,
            len,
            origin,
            Polarity::Ones,
            choice,
            &mut cells,
            &mut none,
        ),
        |summary| end_built(rt, summary),
    )?;
    print!(rt; "  inventory")?;
    end_cells(rt, &cells)
}

fn builds_from_origins(rt: &impl Print) -> io::Result<()> {
    build_from(rt, "A, origin 100", 10, 100)?;
    build_from(rt, "A, origin 2^62 - 11", 10, 0x3fff_ffff_ffff_fff5)?;
    build_from(rt, "A, origin 2^62 - 10", 10, 0x3fff_ffff_ffff_fff6)?;
    build_from(rt, "A, origin 2^64 - 1", 10, u64::MAX)?;
    build_from(rt, "len 0, origin 2^62", 0, 0x4000_0000_0000_0000)?;
    build_from(
        rt,
        "len 2^62, origin 2^62",
        0x4000_0000_0000_0000,
        0x4000_0000_0000_0000,
    )?;
    build_from(
        rt,
        "len 65 in one word, origin 2^62",
        65,
        0x4000_0000_0000_0000,
    )
}

// Every reader on A, from an origin on.
fn read_from(rt: &impl Print, origin: u64) -> io::Result<()> {
    let a = [0x252u64];
    let none = [0u64; 0];
    let cells = [1u64, 0x30000, 6, 0x30000, 10];
    let ones = ones_from(origin);
    println!(rt; "A, origin {origin}")?;
    show_rank(rt, &a, ones, &cells, &none, 0)?;
    show_rank(rt, &a, ones, &cells, &none, 3)?;
    print!(rt; "dwell A 0, 3: ")?;
    show(rt, dwell(&a, ones, &cells, &none, 0, 3))?;
    show_list(
        rt,
        "A, ranks 0 1 2 3",
        &a,
        ones,
        &cells,
        &[0u64, 1, 2, 3],
        &mut [77u64; 5],
    )
}

fn readers_from_origins(rt: &impl Print) -> io::Result<()> {
    read_from(rt, 100)?;
    read_from(rt, 0x3fff_ffff_ffff_fff5)?;
    read_from(rt, 0x3fff_ffff_ffff_fff6)?;
    read_from(rt, u64::MAX)
}

// The origin handed in, then the summary's.
fn checks_from_origins(rt: &impl Print) -> io::Result<()> {
    let cells = [1u64, 0x30000, 6, 0x30000, 10];
    check_a_from(rt, 100, ones_from(100), &cells)?;
    check_a_from(rt, 100, ones_from(0), &cells)?;
    check_a_from(rt, 0, ones_from(100), &cells)?;
    check_a_from(rt, 100, ones_from(u64::MAX), &cells)?;
    check_a_from(rt, u64::MAX, ones_from(u64::MAX), &cells)
}

// The ranks of samples of A, by a summary and cells handed in.
fn show_ranks(
    rt: &impl Print,
    name: &str,
    summary: Summary,
    cells: &[u64],
    samples: &[u64],
) -> io::Result<()> {
    let a = [0x252u64];
    let none = [0u64; 0];
    for sample in samples {
        print!(rt; "rank {name}, at {sample}: ")?;
        show(rt, rank(&a, summary, cells, &none, *sample))?;
    }
    Ok(())
}

// A's ones, power 1, 0, from sample 100 on, by cells handed in.
fn rank_ones(rt: &impl Print, name: &str, cells: &[u64], samples: &[u64]) -> io::Result<()> {
    show_ranks(rt, name, ones_from(100), cells, samples)
}

// A's zeros, power 1, 0, from sample 100 on.
fn zeros_from_100() -> Summary {
    changed(
        summary_of(Polarity::Zeros, 10, 6, 1, 0, 7, 0),
        |s| s.origin = 100,
    )
}

fn ranks_of_a(rt: &impl Print) -> io::Result<()> {
    let cells = [1u64, 0x30000, 6, 0x30000, 10];
    let samples = [100u64, 101, 102, 104, 105, 109, 110, 99, 111];
    rank_ones(rt, "A", &cells, &samples)?;
    let zero_cells = [0u64, 0x20000, 3, 0x20000, 7, 0x10000, 10];
    let zero_samples = [100u64, 101, 103, 104, 107, 110, 99, 111];
    show_ranks(rt, "A zeros", zeros_from_100(), &zero_cells, &zero_samples)
}

// Here the walk from a start is the definition; the last cell is no start.
fn ranks_on_foreign_cells(rt: &impl Print) -> io::Result<()> {
    rank_ones(
        rt,
        "A, cells 0 0 1 0 10",
        &[0u64, 0, 1, 0, 10],
        &[100u64, 101, 102, 110],
    )?;
    rank_ones(rt, "A, cells 4 0 6 0 10", &[4u64, 0, 6, 0, 10], &[102u64])?;
    rank_ones(
        rt,
        "A, last cell 0",
        &[1u64, 0x30000, 6, 0x30000, 0],
        &[110u64],
    )?;
    rank_ones(rt, "A, starts 1 1", &[1u64, 0, 1, 0, 10], &[100u64])?;
    rank_ones(rt, "A, starts 6 1", &[6u64, 0, 1, 0, 10], &[100u64, 99])?;
    rank_ones(rt, "A, starts 1 10", &[1u64, 0, 10, 0, 10], &[100u64])?;
    let far = [1u64, 0, 0x4000_0000_0000_0001, 0, 10];
    rank_ones(rt, "A, starts 1 2^62 + 1", &far, &[100u64])
}

fn show_edge(rt: &impl Print, told: Result<Option<u64>, Refusal>) -> io::Result<()> {
    end(rt, told, |edge| match edge {
        Some(sample) => println!(rt; "{sample}"),
        None => println!(rt; "none"),
    })
}

fn show_neighbours(
    rt: &impl Print,
    name: &str,
    summary: Summary,
    samples: &[u64],
) -> io::Result<()> {
    let a = [0x252u64];
    for sample in samples {
        print!(rt; "next {name}, at {sample}: ")?;
        show_edge(rt, next(&a, summary, *sample))?;
        print!(rt; "  previous ")?;
        show_edge(rt, previous(&a, summary, *sample))?;
    }
    Ok(())
}

fn neighbours_of_a(rt: &impl Print) -> io::Result<()> {
    show_neighbours(rt, "A", ones_from(100), &[101u64, 102, 110, 99, 111])?;
    show_neighbours(rt, "A zeros", zeros_from_100(), &[100u64, 101, 108, 109])
}

// Turns, each of the walker that the one before hands back.
fn show_turns(rt: &impl Print, name: &str, walker: Walker<'_>, turns: u64) -> io::Result<()> {
    let mut walker = walker;
    for _ in 0..turns {
        print!(rt; "turn {name}, at {}: ", walker.place)?;
        let turn = walker.turn();
        walker = turn.walker;
        show_edge(rt, turn.edge)?;
        println!(rt; "  then at {}", walker.place)?;
    }
    Ok(())
}

fn show_walk(
    rt: &impl Print,
    name: &str,
    word: u64,
    summary: Summary,
    sample: u64,
    turns: u64,
) -> io::Result<()> {
    let words = [word];
    print!(rt; "open {name}, at {sample}: ")?;
    end(rt, Walker::open(&words, summary, sample), |walker| {
        println!(rt; "place {}", walker.place)?;
        show_turns(rt, name, walker, turns)
    })
}

// The last is a walker that no call gave.
fn walkers(rt: &impl Print) -> io::Result<()> {
    show_walk(rt, "A", 0x252, ones_from(100), 105, 4)?;
    show_walk(rt, "A zeros", 0x252, zeros_from_100(), 107, 3)?;
    show_walk(rt, "word 2", 2, ones_from(100), 104, 2)?;
    show_walk(rt, "A", 0x252, ones_from(100), 99, 1)?;
    show_walk(rt, "A", 0x252, ones_from(100), 111, 1)?;
    let a = [0x252u64];
    let outside = Walker {
        words: &a,
        len: 10,
        polarity: Polarity::Ones,
        origin: 100,
        place: 99,
    };
    show_turns(rt, "A", outside, 1)
}

// 7 and 9 come before 17.
fn steps_by_wrong_summaries(rt: &impl Print) -> io::Result<()> {
    let cells = [1u64, 0x30000, 6, 0x30000, 10];
    let spilled = changed(ones_from(100), |s| s.spill_len = 1);
    show_ranks(rt, "A, spill count 1", spilled, &cells, &[99u64])?;
    let many = changed(ones_from(100), |s| s.plan.num = 11);
    show_neighbours(rt, "A, N 11", many, &[99u64])
}

// The summary of A's ones by a fixed choice of 63 and this M.
fn fixed_by(m: u32, s: u32, inventory_len: u64) -> Summary {
    changed(
        summary_of(Polarity::Ones, 10, 4, 63, s, inventory_len, 0),
        |s| s.plan.log2_words_per_subinventory = m,
    )
}

// The largest M, built and read; then one more, by choice and by summary.
fn limits(rt: &impl Print) -> io::Result<()> {
    let a = [0x252u64];
    let mut none = [0u64; 0];
    let mut cells = [u64::MAX; 1026];
    let choice = Choice::Fixed(63, 10);
    print!(rt; "build A, fixed 63, 10: ")?;
    end(
        rt,
        build(&a, 10, 0, Polarity::Ones, choice, &mut cells, &mut none),
        |summary| end_built(rt, summary),
    )?;
    let right = fixed_by(10, 51, 1026);
    let over = fixed_by(11, 50, 2050);
    for rank in 0..5u64 {
        print!(rt; "rank {rank}: ")?;
        show(rt, select(&a, right, &cells, &none, rank))?;
    }
    show_select(rt, "A, M 11", &a, over, &cells, &none, 0)?;
    check_a_by(rt, choice, 0, right, &cells)?;
    check_a_by(rt, choice, 0, over, &cells)?;
    check_a_by(rt, Choice::Fixed(63, 11), 0, over, &cells)
}

fn counts_and_plans(rt: &impl Print) -> io::Result<()> {
    counts(rt)?;
    in_words(rt)?;
    plans(rt)?;
    overheads(rt)
}

fn indexes(rt: &impl Print) -> io::Result<()> {
    indexes_of_a(rt)?;
    readers_of_a(rt)?;
    index_of_c(rt)?;
    index_of_d(rt)?;
    readers_of_c(rt)
}

fn damage(rt: &impl Print) -> io::Result<()> {
    damage_to_c(rt)?;
    damage_to_a(rt)?;
    stale_index(rt)?;
    summaries_of_a(rt)
}

fn checks(rt: &impl Print) -> io::Result<()> {
    summary_checks_of_a(rt)?;
    cell_checks_of_a(rt)?;
    checks_of_c(rt)
}

fn lists(rt: &impl Print) -> io::Result<()> {
    lists_of_a(rt)?;
    lists_on_foreign_cells(rt)
}

fn origins(rt: &impl Print) -> io::Result<()> {
    builds_from_origins(rt)?;
    readers_from_origins(rt)?;
    checks_from_origins(rt)
}

fn steps(rt: &impl Print) -> io::Result<()> {
    ranks_of_a(rt)?;
    ranks_on_foreign_cells(rt)?;
    neighbours_of_a(rt)?;
    walkers(rt)?;
    steps_by_wrong_summaries(rt)
}

fn main(rt: HostRuntime) -> io::Result<()> {
    counts_and_plans(&rt)?;
    indexes(&rt)?;
    damage(&rt)?;
    checks(&rt)?;
    lists(&rt)?;
    origins(&rt)?;
    steps(&rt)?;
    limits(&rt)
}
