// Reading the rows in use around a node's row.
ghost use Rattle.std.specs.Prelude.{◌≡◌, ℕ, ◌<◌, length, take};
ghost use Rattle.store.specs.Listed.{child_row, last_where};
ghost use Rattle.flat.specs.Means.{at, nodes as records, Laid, Plain};
ghost use Rattle.flat.specs.Walks.{child_at, attribute_at, passes as is_passed, Behind};

use crate::rows::FlatRow;
use records::{Kind, Node};
use store::{is_attribute, is_child};

// The identifier of the row at `place` if it is a child of `parent`; else 0.
pub fn child_at(rows: &[FlatRow], place: usize, parent: u32) -> u32
    ensures { result ≡ child_at rows.now (length rows.now) place parent }
{
    match rows.get(place) {
        Some(row) if is_child(&row.node, parent) => row.node.id,
        _ => 0,
    }
}

// The identifier of the row at `place` if it is an attribute of `parent`; else 0.
pub fn attribute_at(rows: &[FlatRow], place: usize, parent: u32) -> u32
    ensures { result ≡ attribute_at rows.now (length rows.now) place parent }
{
    match rows.get(place) {
        Some(row) if is_attribute(&row.node, parent) => row.node.id,
        _ => 0,
    }
}

// Whether a node is an attribute of `parent`, up to a bound where there is one.
fn passes(node: Node, parent: u32, bound: Option<u32>) -> bool
    ensures { result ≡ is_passed parent bound node }
{
    is_attribute(&node, parent) && bound.is_none_or(|last| node.id <= last)
}

// The first place behind the attributes of the row at `place`, or behind those up to a bound.
pub fn behind_attributes(rows: &[FlatRow], place: usize, bound: Option<u32>) -> usize
    requires { place < length rows.now }
    ensures { Behind rows.now (length rows.now) place (at rows.now place).node.id bound result }
{
    let parent = rows[place].node.id;
    let behind = &rows[place + 1..];
    let attributes = behind
        .iter()
        .take_while(|row| passes(row.node, parent, bound))
        .count();
    place + 1 + attributes
}

// The last child before the row at `place` of the same parent, by leaps over subtrees; 0 for none.
pub fn left_of(rows: &[FlatRow], place: usize) -> u32
    requires within { (0 < place) × (place < length rows.now) }
    requires laid { Laid rows.now (length rows.now) }
    requires plain { Plain rows.now (length rows.now) }
    ensures { result ≡ last_where (child_row (at rows.now place).node.parent) (take place (records rows.now (length rows.now))) }
{
    let mut left = 0;
    let mut child = place - rows[place].distance + 1;
    while child < place {
        let row = rows[child];
        if row.node.kind != Kind::Attribute {
            left = row.node.id;
        }
        child += row.size;
    }
    left
}
