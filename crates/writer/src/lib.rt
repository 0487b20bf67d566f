// Document files and list files, written from tables.
#![tactic(auto)]

mod documents;
mod lists;
mod tables;
mod theorems;
mod writing;

pub use documents::write_document;
pub use lists::write_list;
pub use theorems::{accepted_document_is_written_back, accepted_list_is_written_back};
