// Nodes and operations as values.
#![tactic(auto)]

mod nodes;
mod numbers;
mod operations;

pub use nodes::{Kind, Node};
pub use numbers::UnknownNumber;
pub use operations::{Code, Operation};
