// Files into tables. Every test runs over the whole file before the next; a table is written only when all have passed.
ghost use Rattle.std.specs.Prelude.{◌≡◌, ◌/◌, ◌≤◌, length, None};
ghost use Rattle.std.specs.Iterator.{YieldsFirst, item_count};
ghost use Rattle.reader.specs.Bytes.{records, over};
ghost use Rattle.reader.specs.Due.{due_records, left};
ghost use Rattle.reader.specs.Reading.{due_after, ill_built, structure_from, spells, misformed_from, operations_in, nodes_in};

use crate::bytes::raw_records;
use codec::Record;
use records::{Kind, Node, Operation};

// How many nodes are due behind a record.
fn due_after(due: usize, found: Record) -> usize
    ensures { result ≡ due_after due found }
{
    if due == 0 {
        found.link as usize
    } else {
        due - 1
    }
}

// Records in their order, each with how many nodes are due where it stands, and how many records follow it.
#[derive(Drop)]
struct DueRecords<'a> {
    due: usize,
    raw: &'a [[u8; 16]],
}

impl<'a> Iterator for DueRecords<'a> {
    type Item = (usize, Record, usize);

    ghost next_gives = { YieldsFirst left };

    ghost remaining = { item_count left };

    fn next(&mut self) -> Option<(usize, Record, usize)> {
        let (first, rest) = self.raw.split_first()?;
        let due = self.due;
        let found = Record::from(*first);
        self.due = due_after(due, found);
        self.raw = rest;
        Some((due, found, rest.len()))
    }
}

// The records of a file, where so many nodes come first.
#[tactic(auto, using(crate::proofs::Due::length_due_records, crate::proofs::Rows::length_records))]
fn due_records(bytes: &[u8], nodes_first: usize) -> DueRecords<'_>
    ensures records { left result ≡ due_records nodes_first (records bytes.now) }
    ensures count { length (left result) ≡ length bytes.now / 16 }
{
    DueRecords {
        due: nodes_first,
        raw: raw_records(bytes),
    }
}

// Whether an operation is due, and the record is a node or counts more nodes than follow.
fn is_ill_built(due: usize, found: Record, follow: usize) -> bool
    ensures { result ≡ ill_built due found follow }
{
    due == 0 && (Kind::try_from(found.tag).is_ok() || found.link as usize > follow)
}

// The first record at which the structure of a list file fails.
pub fn first_ill_built(bytes: &[u8]) -> Option<usize>
    ensures { result ≡ structure_from 0 0 (records bytes.now) }
{
    due_records(bytes, 0).position(|(due, found, follow)| is_ill_built(due, found, follow))
}

// Whether the record is what is due, and well formed.
fn spells_due(due: usize, found: Record) -> bool
    ensures { result ≡ spells due found }
{
    if due == 0 {
        Operation::try_from(found).is_ok()
    } else {
        Node::try_from(found).is_ok()
    }
}

// The first misformed record, where so many nodes come first.
pub fn first_misformed(bytes: &[u8], nodes_first: usize) -> Option<usize>
    ensures { result ≡ misformed_from nodes_first 0 (records bytes.now) }
{
    due_records(bytes, nodes_first).position(|(due, found, _)| !spells_due(due, found))
}

// How many operations there are in a file of well-formed records.
pub fn count_operations(bytes: &[u8]) -> usize
    requires { misformed_from 0 0 (records bytes.now) ≡ None }
    ensures { result ≡ length (operations_in 0 (records bytes.now)) }
{
    due_records(bytes, 0)
        .filter(|(due, _, _)| *due == 0)
        .count()
}

// Writes the operations and the nodes of well-formed records over the fronts of the tables.
pub fn fill(bytes: &[u8], nodes_first: usize, operations: &mut [Operation], nodes: &mut [Node])
    requires formed { misformed_from nodes_first 0 (records bytes.now) ≡ None }
    requires operations_fit { length (operations_in nodes_first (records bytes.now)) ≤ length operations.old }
    requires nodes_fit { length (nodes_in nodes_first (records bytes.now)) ≤ length nodes.old }
    ensures operations { operations.new ≡ over (operations_in nodes_first (records bytes.now)) operations.old }
    ensures nodes { nodes.new ≡ over (nodes_in nodes_first (records bytes.now)) nodes.old }
{
    let mut operation_count = 0;
    let mut node_count = 0;
    for (due, found, _) in due_records(bytes, nodes_first) {
        if due == 0 {
            if let Ok(operation) = Operation::try_from(found) {
                operations[operation_count] = operation;
                operation_count += 1;
            }
        } else if let Ok(node) = Node::try_from(found) {
            nodes[node_count] = node;
            node_count += 1;
        }
    }
}
