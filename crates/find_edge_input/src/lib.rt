// What find_edge is given, as text and as bytes.
#![tactic(auto)]

pub mod laws;
mod number;
mod scan;
mod words;

pub use number::{NumberError, parse_decimal, parse_number};
pub use scan::find;
pub use words::pack;
