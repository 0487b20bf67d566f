// The tests on a node table: whether it lists one document in document order, and where it first fails to.
#![tactic(auto)]

mod open_elements;
mod opening;
mod order;
mod repeats;
mod scratch;
mod tests;

pub use open_elements::OpenElements;
pub use opening::still_open;
pub use scratch::Slot;
pub use tests::{first_misformed, test_table};
