// Document order, by the elements that are open.
ghost use Rattle.std.specs.Prelude.{◌≡◌, ◌+◌, ◌<◌, ◌≤◌, [], ◌∷◌, length, Some};
ghost use Rattle.document.specs.Table.{order_from, is_root, out_of_order};
ghost use Rattle.nodetable.specs.Open.{open_in, places};
ghost use Rattle.nodetable.specs.Order.{after_attribute, after_child, after, Passes};

use crate::open_elements::OpenElements;
use crate::scratch::Slot;
use records::{Kind, Node};

// What is open behind the nodes that passed, and which attributes the innermost element still takes: those above a number,
// or none.
#[derive(Drop)]
struct Standing<'a> {
    open: OpenElements<'a>,
    above: Option<u32>,
}

impl Standing<'_> {
    // Lets an attribute of an element pass, if it stands in order, and tells whether it does.
    fn pass_attribute(&mut self, node: &Node) -> bool
        ensures passes { Passes result self.new (after_attribute (open_in self.old.open) self.old.above node.now) }
        ensures within { length (open_in self.new.open) ≤ length (open_in self.old.open) + 1 }
        ensures places { places self.new.open ≡ places self.old.open }
    {
        match self.above {
            Some(above) if above < node.id && self.open.is_innermost(node.parent) => {
                self.above = Some(node.id);
                true
            }
            _ => false,
        }
    }

    // Lets any other node pass: the elements up to its parent stay open, and it opens if it is one itself.
    fn pass_child(&mut self, node: &Node) -> bool
        requires { length (open_in self.old.open) < places self.old.open }
        ensures passes { Passes result self.new (after_child (open_in self.old.open) node.now) }
        ensures within { length (open_in self.new.open) ≤ length (open_in self.old.open) + 1 }
        ensures places { places self.new.open ≡ places self.old.open }
    {
        if self.open.pass(node) == 0 {
            return false;
        }
        self.above = match node.kind {
            Kind::Element => Some(0),
            _ => None,
        };
        true
    }

    // Lets a node pass, if it stands in order.
    fn pass(&mut self, node: &Node) -> bool
        requires { length (open_in self.old.open) < places self.old.open }
        ensures passes { Passes result self.new (after (open_in self.old.open) self.old.above node.now) }
        ensures within { length (open_in self.new.open) ≤ length (open_in self.old.open) + 1 }
        ensures places { places self.new.open ≡ places self.old.open }
    {
        match node.kind {
            Kind::Attribute if node.parent > 0 => self.pass_attribute(node),
            _ => self.pass_child(node),
        }
    }
}

// The place of the first node out of document order among those behind the root.
fn first_unplaced(root: u32, behind_root: &[Node], slots: &mut [Slot]) -> Option<usize>
    requires { length behind_root.now < length slots.old }
    ensures { result ≡ order_from (root ∷ []) (Some 0) 1 behind_root.now }
{
    let mut open = OpenElements::none(slots);
    open.push(root);
    let mut standing = Standing {
        open,
        above: Some(0),
    };
    for (passed, node) in behind_root.iter().enumerate() {
        if !standing.pass(node) {
            return Some(passed + 1);
        }
    }
    None
}

fn is_root(node: &Node) -> bool
    ensures { result ≡ is_root node.now.kind node.now.parent }
{
    node.kind == Kind::Element && node.parent == 0
}

// The place of the first node out of document order.
pub fn first_out_of_order(nodes: &[Node], slots: &mut [Slot]) -> Option<usize>
    requires { length nodes.now ≤ length slots.old }
    ensures { result ≡ out_of_order nodes.now }
{
    match nodes.split_first() {
        Some((root, behind_root)) if is_root(root) => first_unplaced(root.id, behind_root, slots),
        _ => Some(0),
    }
}
