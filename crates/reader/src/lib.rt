// Document files and list files, read into tables.
#![tactic(auto)]

mod bytes;
mod documents;
mod lists;
mod reader;
mod reading;

pub use documents::read_document;
pub use lists::{read_list, test_list};
pub use reader::ListReader;
