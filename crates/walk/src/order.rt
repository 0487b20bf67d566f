// The next node in document order. Attributes are no stations of the walk: they stand with their element.
ghost use Rattle.std.specs.Prelude.{◌≡◌};
ghost use Rattle.walk.specs.Ahead.{behind_node, after_node};

use crate::links::{first_child, next_sibling, parent};
use store::Reading;

// The next node in document order that is not below the node; 0 for none. Behind an attribute it is what is behind its element.
pub fn behind<R: Reading>(store: &R, id: u32) -> u32
    ensures { result ≡ behind_node (R.Reading.forest store.now) id }
{
    store.kept();
    let mut at = id;
    let mut next = next_sibling(store, at);
    while next == 0 {
        at = parent(store, at);
        if at == 0 {
            return 0;
        }
        next = next_sibling(store, at);
    }
    next
}

// The next node in document order: the first child, or else the next node behind. 0 for none.
pub fn after<R: Reading>(store: &R, id: u32) -> u32
    ensures { result ≡ after_node (R.Reading.forest store.now) id }
{
    store.kept();
    let child = first_child(store, id);
    if child != 0 {
        return child;
    }
    behind(store, id)
}
