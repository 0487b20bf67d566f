// Stores of one document: the questions and the writes that every store answers alike, and what they mean.
#![tactic(auto)]

mod kin;
mod reading;
mod tests;
mod theorems;
mod writing;

pub use kin::{is_attribute, is_child};
pub use reading::Reading;
pub use tests::{test_put, test_rename, test_set_value, test_take};
pub use theorems::{
    absent_is_unlisted, kept_is_well_formed, neighbours_are_listed, put_adds_one, put_keeps,
    put_links_attribute, put_links_child, record_is_listed, rename_changes_one, rename_keeps,
    rename_reshows, set_value_changes_one, set_value_keeps, set_value_reshows,
    size_and_root_are_listed, take_keeps, take_relinks, take_removes_one, take_undoes_put,
    take_unlinks, views_tell_the_document, well_formed_is_kept,
};
pub use writing::Writing;
