// Sheets: node tables that passed the tests, as stores that answer questions and cannot be written.
#![tactic(auto)]

mod scan;
mod sheet;

pub use sheet::Sheet;
pub use sheet::opening::ROOM;
