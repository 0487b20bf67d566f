// The reduced list, written in one walk through the document.
ghost use Rattle.std.specs.Prelude.{◌≡◌, ◌<◌, if◌then◌else◌};
ghost use Rattle.document.specs.Tree.{WellFormed};
ghost use Rattle.changes.specs.Reduced.{reduced};
ghost use Rattle.changes.specs.Tables.{changes_of};
ghost use Rattle.changes.specs.Tests.{Suits};
ghost use Rattle.walk.specs.Ahead.{ahead, Walks, attributes_of, behind_node, after_node};
ghost use Rattle.reduce.specs.Groups.{Ready, gap_key};
ghost use Rattle.reduce.specs.Lists.{changes};
ghost use Rattle.reduce.specs.Mirror.{cuts, left_on_attributes, left_ahead, reduced_row};
ghost use Rattle.reduce.specs.Output.{tally, Adds, Grown, RoomFor, write_says, operations_after, nodes_after};

use crate::keys::Key;
use crate::lookup::Lookup;
use crate::ordered_list::OrderedList;
use crate::tables::{TableFault, Tables, Tally};
use records::{Code, Node, Operation};
use store::Reading;
use walk::{after, behind, first_attribute, first_child, next_attribute, next_sibling, parent};

// What is inserted before a row below `above` that begins with `head`: before its first node, or else last into `above`.
fn gap_key(head: u32, above: u32) -> Key
    ensures { result ≡ gap_key head above }
{
    if head == 0 {
        Key {
            target: above,
            code: Code::InsertLast,
        }
    } else {
        Key {
            target: head,
            code: Code::InsertBefore,
        }
    }
}

// What is left on the attributes of a node.
fn reduce_attributes<R: Reading>(store: &R, list: &OrderedList, id: u32, tables: &mut Tables)
    requires walks { Walks (R.Reading.forest store.now) id }
    requires node { 0 < id }
    requires fits { RoomFor tables.old.used (left_on_attributes (changes list.now) (attributes_of (R.Reading.forest store.now) id)) }
    ensures { Grown tables.old tables.new (left_on_attributes (changes list.now) (attributes_of (R.Reading.forest store.now) id)) }
{
    store.kept();
    let mut attribute = first_attribute(store, id);
    while attribute != 0 {
        tables.left_on_attribute(list, attribute);
        attribute = next_attribute(store, attribute);
    }
}

// What is left on a node and its attributes.
fn reduce_node<R: Reading>(store: &R, list: &OrderedList, id: u32, tables: &mut Tables)
    requires walks { Walks (R.Reading.forest store.now) id }
    requires node { 0 < id }
    requires fits { RoomFor tables.old.used (left_ahead (changes list.now) (ahead (R.Reading.forest store.now) id)) }
    ensures { Grown tables.old tables.new (left_ahead (changes list.now) (ahead (R.Reading.forest store.now) id)) }
{
    store.kept();
    let beyond = gap_key(next_sibling(store, id), parent(store, id));
    let below = gap_key(first_child(store, id), id);
    tables.left_on(list, id, beyond, below);
    if !list.goes(id) {
        reduce_attributes(store, list, id, tables);
    }
}

// Where the walk goes from a node: not to what is below it, if all of that is overridden.
fn next<R: Reading>(store: &R, list: &OrderedList, id: u32) -> u32
    ensures { result ≡ (if cuts (changes list.now) id then behind_node (R.Reading.forest store.now) id else after_node (R.Reading.forest store.now) id) }
{
    if list.goes(id) || list.has(id, Code::ReplaceContent) {
        behind(store, id)
    } else {
        after(store, id)
    }
}

// Writes the reduced list as far as the tables go.
fn reduce_all<R: Reading>(store: &R, list: &OrderedList, tables: &mut Tables)
    requires { RoomFor tables.old.used (reduced_row (changes list.now) 0 (R.Reading.forest store.now)) }
    ensures { Grown tables.old tables.new (reduced_row (changes list.now) 0 (R.Reading.forest store.now)) }
{
    store.kept();
    let mut id = store.root();
    while id != 0 {
        reduce_node(store, list, id, tables);
        id = next(store, list, id);
    }
}

// Writes the reduced list into two tables as far as they go, and answers how long it is.
fn write_as_far<R: Reading>(
    store: &R,
    list: &OrderedList,
    operations: &mut [Operation],
    nodes: &mut [Node],
) -> Tally
    requires { RoomFor (tally 0 0) (reduced_row (changes list.now) 0 (R.Reading.forest store.now)) }
    ensures { Adds operations.old nodes.old (tally 0 0) operations.new nodes.new result (reduced_row (changes list.now) 0 (R.Reading.forest store.now)) }
{
    let mut tables = Tables::unused(operations, nodes);
    reduce_all(store, list, &mut tables);
    tables.used
}

// Writes the reduced list of a list that suits the document; tables that are too short are left as they are.
pub fn write_reduced<R: Reading>(
    store: &R,
    list: Lookup,
    operations: &mut [Operation],
    nodes: &mut [Node],
) -> Result<Tally, TableFault>
    requires ready { Ready list.operations.now list.nodes.now list.entries.now }
    requires formed { WellFormed (R.Reading.forest store.now) }
    requires suits { Suits (R.Reading.limit store.now) (R.Reading.forest store.now) (changes_of list.operations.now list.nodes.now) }
    requires fits { RoomFor (tally 0 0) (reduced (R.Reading.forest store.now) (changes_of list.operations.now list.nodes.now)) }
    ensures value { result ≡ write_says operations.old nodes.old (reduced (R.Reading.forest store.now) (changes_of list.entry.operations.now list.entry.nodes.now)) }
    ensures operation_table { operations.new ≡ operations_after operations.old nodes.old (reduced (R.Reading.forest store.now) (changes_of list.entry.operations.now list.entry.nodes.now)) }
    ensures node_table { nodes.new ≡ nodes_after operations.old nodes.old (reduced (R.Reading.forest store.now) (changes_of list.entry.operations.now list.entry.nodes.now)) }
{
    let ordered = OrderedList {
        operations: list.operations,
        nodes: list.nodes,
        entries: list.entries,
    };
    let need = write_as_far(store, &ordered, &mut [], &mut []);
    if operations.len() < need.operations || nodes.len() < need.nodes {
        return Err(TableFault::TableShort);
    }
    Ok(write_as_far(store, &ordered, operations, nodes))
}
