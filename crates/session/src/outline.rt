// How deep each node of a table stands, by the elements that are open: those whose children may still come.
ghost use Rattle.std.specs.Prelude.{◌≡◌, ◌+◌, ◌<◌, ◌≤◌, length};
ghost use Rattle.nodetable.specs.Open.{open_in, places};
ghost use Rattle.session.specs.Outline.{elements_around, elements_behind};

use nodetable::OpenElements;
use records::{Kind, Node};

// Lets a node pass, and answers its depth.
pub fn stand(node: &Node, elements: &mut OpenElements) -> usize
    requires { length (open_in elements.old) < places elements.old }
    ensures deep { result ≡ length (elements_around (open_in elements.old) node.now) }
    ensures behind { open_in elements.new ≡ elements_behind (open_in elements.old) node.now }
    ensures within { length (open_in elements.new) ≤ length (open_in elements.old) + 1 }
    ensures places { places elements.new ≡ places elements.old }
{
    match node.kind {
        Kind::Attribute if node.parent > 0 => elements.count(),
        _ => elements.pass(node),
    }
}
