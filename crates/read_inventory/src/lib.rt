// How an index is read: jump, hint, store and dwell. Its tests and a rank's mark are for the other readers too.
#![tactic(auto)]

mod decode;
mod index;
mod jump;
mod tests;

pub use decode::{Hint, Mark};
pub use index::{Cells, Index};
pub use jump::{CellPart, dwell, hint, select, subinventory, subinventory_part};
pub use tests::test_index;
