// The rank of a sample by an index: counted on from the last entry start at or before it. Document 02, W-206.
#![tactic(auto)]

pub mod laws;
mod ranks;
mod starts;

pub use ranks::rank;
