// Documents and change lists, carried out on any store by its four writes.
#![tactic(auto)]

mod planting;
mod theorems;

pub use planting::{load, plant};
pub use theorems::loading_leads_to_the_document;
