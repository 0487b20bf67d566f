// The store: a table of rows, and the root.
ghost use Rattle.document.specs.Tree.{Forest};
ghost use Rattle.linked.specs.Stores.{Holds};

use crate::table::Table;

pub mod making;
pub mod reading;
pub mod writing;

#[derive(Drop)]
pub struct LinkedStore {
    table: Table,
    root: u32,
    ghost stands: { ∥ ((d : Forest) × Holds table root d) ∥₁ },
}
