// A change list that can be looked up in.
use crate::keys::Entry;
use records::{Node, Operation};

// A change list as two tables, and its operations in the order of their keys.
#[derive(Clone, Copy)]
pub struct Lookup<'a> {
    pub operations: &'a [Operation],
    pub nodes: &'a [Node],
    pub entries: &'a [Entry],
}
