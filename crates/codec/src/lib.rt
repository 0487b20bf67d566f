// Nodes and operations as sixteen bytes each.
#![tactic(auto)]

mod fields;
mod spelling;

pub use fields::Misformed;
pub use spelling::Record;
