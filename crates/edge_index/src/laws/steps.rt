// Walks: what any number of turns gives. A single step's promise is on `next`, `previous` and the walker themselves.
pub use step_knob::laws::turns_list_the_edges;
