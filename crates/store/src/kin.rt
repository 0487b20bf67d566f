// Whose child or attribute a record shows its node to be.
ghost use Rattle.std.specs.Prelude.{◌≡◌};
ghost use Rattle.store.specs.Listed.{child_row, attribute_row};

use records::{Kind, Node};

// Whether a node is a child of `parent`; its attributes are none.
pub fn is_child(node: &Node, parent: u32) -> bool
    ensures { result ≡ child_row parent node.now }
{
    node.parent == parent && node.kind != Kind::Attribute
}

// Whether a node is an attribute of `parent`.
pub fn is_attribute(node: &Node, parent: u32) -> bool
    ensures { result ≡ attribute_row parent node.now }
{
    node.parent == parent && node.kind == Kind::Attribute
}
