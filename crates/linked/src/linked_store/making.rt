// A new store: no node has a row.
ghost use Rattle.std.specs.Prelude.{◌≡◌, IfOk};
ghost use Rattle.document.specs.Tree.{nil};
ghost use Rattle.linked.specs.Document.{document, limit_of};

use super::LinkedStore;
use crate::table::Table;
use std::alloc::{AllocError, Global};

// How many nodes a store holds unless another room is asked for.
pub const ROOM: usize = 1000;

impl LinkedStore {
    pub fn new(heap: Global) -> Result<LinkedStore, AllocError>
        ensures { IfOk result (λ s. (document s ≡ nil) × (limit_of s ≡ 1000)) }
    {
        LinkedStore::with_room(heap, ROOM)
    }

    pub fn with_room(heap: Global, room: usize) -> Result<LinkedStore, AllocError>
        ensures { IfOk result (λ s. (document s ≡ nil) × (limit_of s ≡ room)) }
    {
        let table = Table::with_room(heap, room)?;
        Ok(LinkedStore { table, root: 0 })
    }
}
