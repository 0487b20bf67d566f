// A new table: every row is free.
ghost use Rattle.std.specs.Prelude.{◌≡◌, ℕ, ◌<◌, IfOk, None, vec_len, slice_index_or};
ghost use Rattle.ordered.specs.declared.entries.RowOf.{RowOf as Entry};
ghost use Rattle.linked.specs.Tables.{room_of, shows};

use super::Table;
use crate::row::Row;
use ordered::RowOf;
use std::alloc::{AllocError, Global};

// An entry for each row. All memory is asked for at once, so that a room that is too large is refused before a row is made.
fn free_rows(heap: Global, room: usize) -> Result<Vec<RowOf>, AllocError>
    ensures { IfOk result (λ v. (vec_len v ≡ room) × ((k : ℕ) (e : Entry) → k < room → (slice_index_or v.items k e).row ≡ k)) }
{
    let mut index = Vec::with_capacity(heap, room)?;
    index.extend((0..room).map(|row| RowOf { id: 0, row }))?;
    Ok(index)
}

impl Table {
    pub fn with_room(heap: Global, room: usize) -> Result<Table, AllocError>
        ensures { IfOk result (λ t. (room_of t ≡ room) × shows t 0 (λ k. None)) }
    {
        let index = free_rows(heap, room)?;
        let rows = vec![in heap; Row::default(); room]?;
        Ok(Table {
            index,
            rows,
            used: 0,
        })
    }
}
