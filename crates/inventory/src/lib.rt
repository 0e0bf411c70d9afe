// What an index is: its summary, the kinds of its entries, and an entry. specs/ says which cells they make.
#![tactic(auto)]

mod entry;
mod numbers;
mod shape;
mod spans;
mod summary;

pub use entry::Entry;
pub use numbers::{SUMMARY_NUMBERS, cut, numbers_of, polarity_at, summary_at};
pub use shape::{
    Shape, SpanType, from_span, log2_ones_per_sub32, log2_quantum, shape_of, spilled_by,
};
pub use summary::{
    Summary, entry_count, entry_len, entry_ranks, test_cells, test_lent, test_summary,
};
