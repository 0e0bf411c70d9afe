// The kinds of entries, and all in which they differ.
ghost use Rattle.std.specs.Prelude.{◌≡◌, ◌^◌, ◌≤◌, ◌<◌};
ghost use Rattle.inventory.specs.Shape.{from_span, log2_ones_per_sub32, log2_quantum, shape_of, spilled_by};

use crate::spans::taken_off;
use rank_sel::pow2;

// How wide an entry's numbers are.
#[derive(Clone, Copy)]
pub enum SpanType {
    U16,
    U32,
    U64,
}

// All in which the kinds differ: an entry's numbers are lanes of `width` bits, `lanes` or 2^`log2_lanes` to a cell, and say a
// mark less `base`; `heads` cells stand before them, after the entry's first; the first lane is number `from`; `tag` marks the
// kind.
#[derive(Clone, Copy)]
pub struct Shape {
    pub width: u64,
    pub lanes: u64,
    pub log2_lanes: u32,
    pub base: u64,
    pub heads: u64,
    pub from: u64,
    pub tag: u64,
}

// SpanType::from_span of the Rust. By that name, which the contracts have too: `From` would be no plainer.
pub fn from_span(span: u64) -> SpanType
    ensures { result ≡ from_span span }
{
    if span <= 65536 {
        return SpanType::U16;
    }
    if span <= 0x1_0000_0000 {
        return SpanType::U32;
    }
    SpanType::U64
}

// The spacing of a U32 entry's marks.
#[tactic(auto, unfolding(crate::specs::Shape::log2_ones_per_sub32))]
pub fn log2_ones_per_sub32(span: u64, log2_ones_per_sub16: u32) -> u32
    ensures { (result ≡ log2_ones_per_sub32 span log2_ones_per_sub16) × (result ≤ log2_ones_per_sub16) }
{
    (log2_ones_per_sub16 as u64).saturating_sub(taken_off(span)) as u32
}

// The spacing of an entry's marks.
pub fn log2_quantum(kind: SpanType, span: u64, log2_ones_per_sub16: u32) -> u32
    ensures { (result ≡ log2_quantum kind span log2_ones_per_sub16) × (result ≤ log2_ones_per_sub16) }
{
    match kind {
        SpanType::U16 => log2_ones_per_sub16,
        SpanType::U32 => log2_ones_per_sub32(span, log2_ones_per_sub16),
        SpanType::U64 => 0,
    }
}

// The cells that an entry with so many marks spills. It asks for its own bounds, as `entry_count` and its kin do.
pub fn spilled_by(kind: SpanType, marks: u64, log2_words_per_subinventory: u32) -> u64
    requires { (marks < 2 ^ 63) × (log2_words_per_subinventory < 64) }
    ensures { result ≡ spilled_by kind marks log2_words_per_subinventory }
{
    match kind {
        SpanType::U16 => 0,
        SpanType::U32 => { ((marks + 1) / 2).saturating_sub(pow2(log2_words_per_subinventory) - 1) }
        SpanType::U64 => marks.saturating_sub(pow2(log2_words_per_subinventory)),
    }
}

pub fn shape_of(kind: SpanType, start: u64) -> Shape
    ensures { result ≡ shape_of kind start }
{
    match kind {
        SpanType::U16 => Shape {
            width: 16,
            lanes: 4,
            log2_lanes: 2,
            base: start,
            heads: 0,
            from: 0,
            tag: 0,
        },
        SpanType::U32 => Shape {
            width: 32,
            lanes: 2,
            log2_lanes: 1,
            base: start,
            heads: 1,
            from: 0,
            tag: 0x8000_0000_0000_0000,
        },
        SpanType::U64 => Shape {
            width: 64,
            lanes: 1,
            log2_lanes: 0,
            base: 0,
            heads: 1,
            from: 1,
            tag: 0xc000_0000_0000_0000,
        },
    }
}
