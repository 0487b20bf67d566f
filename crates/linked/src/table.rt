// Rows under an index of identifiers. The entries of the index behind the used ones hold the free rows.
ghost use Rattle.std.specs.Prelude.{ℕ, ◌<◌, ◌≤◌, length, slice_index_or};
ghost use Rattle.ordered.specs.Table.{Ascending};
ghost use Rattle.ordered.specs.Entries.{by_identifier};
ghost use Rattle.ordered.specs.declared.entries.RowOf.{RowOf as Entry};

use crate::row::Row;
use ordered::RowOf;

pub mod changing;
pub mod linking;
pub mod making;
pub mod reading;

#[derive(Drop)]
pub struct Table {
    // In which row each node stands, by identifier.
    index: Vec<RowOf>,
    rows: Vec<Row>,
    used: usize,
    // The used entries ascend, and the row of each entry, used or free, is one of the rows.
    ghost within: { used ≤ length index.items },
    ghost ascending: { Ascending by_identifier used index.items },
    ghost inside: { (k : ℕ) (e : Entry) → k < length index.items → (slice_index_or index.items k e).row < length rows.items },
}
