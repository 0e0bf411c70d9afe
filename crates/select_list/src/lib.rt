// A list of jumps in one go: ranks that never fall, each read on from the last bit reached. Document 02, W-201.
#![tactic(auto)]

mod list;
mod step;
mod tests;

pub use list::select_list;
