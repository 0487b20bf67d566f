// The node table of a document.
ghost use Rattle.std.specs.Prelude.{◌≡◌};
ghost use Rattle.std.specs.Iterator.{YieldsFirst, item_count};
ghost use Rattle.walk.specs.Ahead.{Walks};
ghost use Rattle.walk.specs.Left.{Begins, records_left};
ghost use Rattle.walk.specs.Says.{list_says, list_leaves};

use crate::links::{first_attribute, next_attribute};
use crate::order::after;
use faults::BookFault;
use records::Node;
use store::Reading;

// The records of a document in document order: the attributes from `attribute` on, and then the nodes from `node` on, each with its
// attributes behind it. 0 says that there is none.
#[derive(Drop)]
struct Records<'a, R> {
    store: &'a R,
    attribute: u32,
    node: u32,
}

impl<'a, R: Reading> Iterator for Records<'a, R> {
    type Item = Node;

    ghost can_next = { λ s. Walks (R.Reading.forest s.store.now) s.node × Begins (R.Reading.forest s.store.now) s.attribute };

    ghost next_gives = { YieldsFirst (λ s. records_left (R.Reading.forest s.store.now) s.attribute s.node) };

    ghost remaining = { item_count (λ s. records_left (R.Reading.forest s.store.now) s.attribute s.node) };

    fn next(&mut self) -> Option<Node> {
        self.store.kept();
        if let Ok(attribute) = self.store.node(self.attribute) {
            self.attribute = next_attribute(self.store, self.attribute);
            return Some(attribute);
        }
        let node = self.store.node(self.node).ok()?;
        self.attribute = first_attribute(self.store, self.node);
        self.node = after(self.store, self.node);
        Some(node)
    }
}

// Writes the document's nodes in document order, and answers how many they are; a table that is too short is left as it is.
pub fn list<R: Reading>(store: &R, nodes: &mut [Node]) -> Result<usize, BookFault>
    ensures value { result ≡ list_says nodes.old (R.Reading.forest store.now) }
    ensures table { nodes.new ≡ list_leaves nodes.old (R.Reading.forest store.now) }
{
    store.kept();
    if nodes.len() < store.len() {
        return Err(BookFault::TableShort);
    }
    let records = Records {
        store,
        attribute: 0,
        node: store.root(),
    };
    // By place, since a proof knows nothing of what is written through `nodes.iter_mut().zip(records)`.
    for (place, node) in records.enumerate() {
        nodes[place] = node;
    }
    Ok(store.len())
}
