// The step knob: the edge at or after a sample, the edge before it, and a walker from edge to edge. Document 02, W-206.
#![tactic(auto)]

pub mod laws;
mod step;
mod walker;

pub use step::{next, previous};
pub use walker::{Turn, Walker};
