// The flat store: rows in document order, each with the distance to its parent's row and the size of its subtree.
#![tactic(auto)]

mod flat_store;
mod rows;
mod shifts;
mod walks;

pub use flat_store::{FlatStore, ROOM};
pub use rows::FlatRow;
