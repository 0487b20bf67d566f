// The tests in their order, each over the whole table.
ghost use Rattle.std.specs.Prelude.{◌≡◌, ◌≤◌, length, drop};
ghost use Rattle.document.specs.Table.{misformed_from, identifier_key, name_key, over_room, table_test};
ghost use Rattle.nodetable.specs.Scratch.{cleared};
ghost use Rattle.nodetable.specs.Tested.{tested};

use crate::order::first_out_of_order;
use crate::repeats::first_repeat;
use crate::scratch::{Guard, Slot};
use faults::DocumentFault;
use records::{Kind, Node};

// The first misformed node from a place on.
fn misformed_behind(nodes: &[Node], start: usize) -> Option<usize>
    ensures { result ≡ misformed_from start (drop start nodes.now) }
{
    let behind = nodes.get(start..)?;
    let passed = behind.iter().position(|node| !node.is_formed())?;
    Some(start + passed)
}

pub fn first_misformed(nodes: &[Node]) -> Option<usize>
    ensures { result ≡ misformed_from 0 nodes.now }
{
    misformed_behind(nodes, 0)
}

// No identifier may stand twice in a table.
fn identifier(node: &Node) -> Option<(u32, u16)>
    ensures { result ≡ identifier_key node.now }
{
    Some((node.id, 0))
}

// No name may stand twice among the attributes of an element.
fn attribute_name(node: &Node) -> Option<(u32, u16)>
    ensures { result ≡ name_key node.now }
{
    match node.kind {
        Kind::Attribute => Some((node.parent, node.name)),
        _ => None,
    }
}

// The room, where there are more nodes.
fn room_passed(room: usize, nodes: &[Node]) -> Option<usize>
    ensures { result ≡ over_room room nodes.now }
{
    (nodes.len() > room).then_some(room)
}

// The tests in their order. The slots, at least as many as the nodes, are left as the tests used them.
#[tactic(auto, unfolding(document::specs::Table::table_test))]
fn test_in(room: usize, nodes: &[Node], slots: &mut [Slot]) -> Result<(), DocumentFault>
    requires { length nodes.now ≤ length slots.old }
    ensures { result ≡ table_test room nodes.now }
{
    if let Some(place) = first_misformed(nodes) {
        return Err(DocumentFault::Misformed(place));
    }
    if let Some(place) = first_repeat(nodes, slots, identifier) {
        return Err(DocumentFault::IdentifierTwice(place));
    }
    if let Some(place) = first_out_of_order(nodes, slots) {
        return Err(DocumentFault::OutOfOrder(place));
    }
    if let Some(place) = first_repeat(nodes, slots, attribute_name) {
        return Err(DocumentFault::NameTwice(place));
    }
    if let Some(place) = room_passed(room, nodes) {
        return Err(DocumentFault::NoRoom(place));
    }
    Ok(())
}

// Whether a table lists one document that fits the room. The slots must be at least as many as the nodes.
pub fn test_table(room: usize, nodes: &[Node], slots: &mut [Slot]) -> Result<(), DocumentFault>
    ensures value { result ≡ tested (length slots.old) room nodes.now }
    ensures zeroed { slots.new ≡ cleared slots.old }
{
    let guard = Guard { slots };
    if guard.slots.len() < nodes.len() {
        return Err(DocumentFault::ScratchShort);
    }
    test_in(room, nodes, guard.slots)
}
