// Two lent tables that a list is written into. What passes the end of a table is counted, and not written.
ghost use Rattle.std.specs.Prelude.{◌≡◌, ◌+◌, ◌^◌, ◌<◌, length, slice_set};
ghost use Rattle.reduce.specs.Output.{tally, Copied, Pushed};

use records::{Node, Operation};

// How far the tables of a list are used.
#[derive(Clone, Copy, PartialEq, Eq, Debug, Default)]
pub struct Tally {
    pub operations: usize,
    pub nodes: usize,
}

// Why a list is not written.
#[derive(Clone, Copy, PartialEq, Eq, Debug)]
pub enum TableFault {
    // A table is too short for the list's operations or for their nodes.
    TableShort,
}

// The tables, and how far they are used.
#[derive(Drop)]
pub struct Tables<'a> {
    pub operations: &'a mut [Operation],
    pub nodes: &'a mut [Node],
    pub used: Tally,
}

// Puts an entry at a place, if the table has it.
fn put<T: Copy>(table: &mut [T], place: usize, entry: T)
    ensures { table.new ≡ slice_set table.old place entry }
{
    if place < table.len() {
        table[place] = entry;
    }
}

impl<'a> Tables<'a> {
    // Tables of which nothing is used yet.
    pub fn unused(operations: &'a mut [Operation], nodes: &'a mut [Node]) -> Tables<'a>
        ensures operations { (result.operations.now ≡ operations.old) × (result.operations.ghost_name ≡ operations.entry.ghost_name) }
        ensures nodes { (result.nodes.now ≡ nodes.old) × (result.nodes.ghost_name ≡ nodes.entry.ghost_name) }
        ensures used { result.used ≡ tally 0 0 }
    {
        Tables {
            operations,
            nodes,
            used: Tally::default(),
        }
    }

    // Adds an operation, whose nodes stand in the table already.
    pub fn push(&mut self, operation: Operation)
        requires { self.old.used.operations < 2 ^ 32 }
        ensures { Pushed self.old self.new operation }
    {
        put(self.operations, self.used.operations, operation);
        self.used.operations += 1;
    }

    // Adds nodes.
    pub fn copy(&mut self, nodes: &[Node])
        requires { self.old.used.nodes + length nodes.now < 2 ^ 32 }
        ensures { Copied self.old self.new nodes.now }
    {
        for node in nodes {
            put(self.nodes, self.used.nodes, *node);
            self.used.nodes += 1;
        }
    }
}
