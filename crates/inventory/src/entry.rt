// One entry of an index, as the build reckons it.
use crate::shape::Shape;

// An entry: the rank of its first bit, where it starts and the next one does, its marks 2^log2_quantum ranks apart,
// and the cells that it spills.
#[derive(Clone, Copy)]
pub struct Entry {
    pub first: u64,
    pub start: u64,
    pub next: u64,
    pub log2_quantum: u32,
    pub marks: u64,
    pub spilled: u64,
    pub shape: Shape,
}
