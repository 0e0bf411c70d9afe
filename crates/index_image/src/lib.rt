// An index saved beside its capture: its image, byte for byte, and the two calls that write and read one.
#![tactic(auto)]

mod header;
mod image;
mod words;

pub use image::{read_image, write_image};
