// The reduced list of a change list, over every store.
#![tactic(auto)]

mod filling;
mod finding;
mod keys;
mod lookup;
mod ordered_list;
mod parts;
mod reducing;
mod tables;

pub use filling::fill;
pub use keys::Entry;
pub use lookup::Lookup;
pub use reducing::write_reduced;
pub use tables::{TableFault, Tally};
