// What the trials share: files by their records, and answers as numbers.
#![tactic(auto)]

mod bytes;
mod reports;

pub use bytes::{file, node, operation};
pub use reports::reported;
