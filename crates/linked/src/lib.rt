// The linked store: each node is a row with links to its neighbours, found by its identifier in an ordered table.
#![tactic(auto)]

mod linked_store;
mod row;
mod table;

pub use linked_store::LinkedStore;
pub use linked_store::making::ROOM;
