// A change list whose entries are known to be those of its operations.
ghost use Rattle.reduce.specs.Groups.{Ready};

use crate::keys::Entry;
use records::{Node, Operation};

// A `Lookup` that `write_reduced` was told is ready, so that no function inside has to be told again.
#[derive(Clone, Copy)]
pub struct OrderedList<'a> {
    pub operations: &'a [Operation],
    pub nodes: &'a [Node],
    pub entries: &'a [Entry],
    ghost ready: { ∥ Ready operations.now nodes.now entries.now ∥₁ },
}
