// Making a flat store. All memory is acquired here.
ghost use Rattle.std.specs.Prelude.{◌≡◌, IfOk, vec_len};
ghost use Rattle.document.specs.Tree.{nil};
ghost use Rattle.flat.specs.Document.{document};

use super::FlatStore;
use crate::rows::FlatRow;
use ordered::RowOf;
use std::alloc::{AllocError, Global};

// How many nodes a store can hold.
pub const ROOM: usize = 500;

impl FlatStore {
    pub fn new(heap: Global) -> Result<FlatStore, AllocError>
        ensures { IfOk result (λ s. (document s ≡ nil) × (vec_len s.rows ≡ 500)) }
    {
        FlatStore::with_room(heap, ROOM)
    }

    pub fn with_room(heap: Global, room: usize) -> Result<FlatStore, AllocError>
        ensures { IfOk result (λ s. (document s ≡ nil) × (vec_len s.rows ≡ room)) }
    {
        let rows = vec![in heap; FlatRow::default(); room]?;
        let index = vec![in heap; RowOf::default(); room]?;
        Ok(FlatStore {
            rows,
            index,
            used: 0,
        })
    }
}
