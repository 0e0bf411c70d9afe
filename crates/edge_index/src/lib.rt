// The public face: every entry, with what is promised of it as the clauses of its contract. What is promised of the definitions
// themselves is in laws.
#![tactic(auto)]

mod image;
mod in_word;
pub mod laws;
mod make;
mod read;
mod step;

pub use bit_record::Polarity;
pub use build_inventory::Sizes;
pub use image::{read_image, write_image};
pub use in_word::select_in_word;
pub use inventory::Summary;
pub use make::{build, check, count, plan, size};
pub use rank_sel::{REFUSAL_COUNT, REFUSALS, Refusal};
pub use read::{dwell, hint, rank, select, select_list, subinventory, subinventory_part};
pub use read_inventory::{CellPart, Hint};
pub use select_in_word::One;
pub use spacing::{Choice, MAX_LOG2_WORDS_PER_SUBINVENTORY, Parameters};
pub use step::{next, previous};
pub use step_knob::{Turn, Walker};
