// The walk through a document in document order, over every store, and the listing that it gives.
#![tactic(auto)]

mod links;
mod listing;
mod order;

pub use links::{first_attribute, first_child, next_attribute, next_sibling, parent};
pub use listing::list;
pub use order::{after, behind};
