// Rows of a table that stand below one node.
ghost use Rattle.std.specs.Prelude.{◌≡◌, ◌<◌, length};
ghost use Rattle.store.specs.Listed.{child_row, first_where, last_where};
ghost use Rattle.sheet.specs.Below.{below_row, next_behind, left_of};

use records::{Kind, Node};
use store::{is_attribute, is_child};

// Which of the nodes below one are meant; an enum and no closure, so that contracts can name the test.
#[derive(Clone, Copy)]
pub enum Below {
    Children,
    Attributes,
}

impl Below {
    // Whether a row is one of those below `parent`.
    fn has(self, parent: u32, row: &Node) -> bool
        ensures { result ≡ below_row self parent row.now }
    {
        match self {
            Below::Children => is_child(row, parent),
            Below::Attributes => is_attribute(row, parent),
        }
    }
}

// The first of the nodes below `parent`, 0 for none.
pub fn first_of(nodes: &[Node], below: Below, parent: u32) -> u32
    ensures { result ≡ first_where (below_row below parent) nodes.now }
{
    let first = nodes.iter().find(|node| below.has(parent, node));
    first.map_or(0, |node| node.id)
}

// The last child of `parent`, 0 for none.
fn last_child(nodes: &[Node], parent: u32) -> u32
    ensures { result ≡ last_where (child_row parent) nodes.now }
{
    let last = nodes.iter().rev().find(|node| is_child(node, parent));
    last.map_or(0, |node| node.id)
}

// The one behind the node at a place among the nodes below its parent, 0 for none and where the node is none of these.
pub fn next_behind(nodes: &[Node], place: usize, below: Below) -> u32
    requires { place < length nodes.now }
    ensures { result ≡ next_behind below place nodes.now }
{
    let node = nodes[place];
    if below.has(node.parent, &node) {
        first_of(&nodes[place + 1..], below, node.parent)
    } else {
        0
    }
}

// The child before the node at a place, 0 for none and for an attribute.
pub fn left_of(nodes: &[Node], place: usize) -> u32
    requires { place < length nodes.now }
    ensures { result ≡ left_of place nodes.now }
{
    let node = nodes[place];
    if node.kind == Kind::Attribute {
        0
    } else {
        last_child(&nodes[..place], node.parent)
    }
}
