// What is read off a table.
ghost use Rattle.std.specs.Prelude.{◌≡◌, ℕ};
ghost use Rattle.linked.specs.Tables.{Lookup, room_of, shows, RowFound};

use super::Table;
use crate::row::Row;
use ordered::row_of;

impl Table {
    // How many nodes have a row.
    pub fn len(&self) -> usize
        ensures { result ≡ self.now.used }
    {
        self.used
    }

    // How many nodes can have one.
    pub fn room(&self) -> usize
        ensures { result ≡ room_of self.now }
    {
        self.index.len()
    }

    // The number of the row of a node.
    pub(super) fn row_number(&self, id: u32) -> Option<usize>
        ensures { RowFound self.now id result }
    {
        row_of(&self.index, self.used, id)
    }

    // The row of a node.
    pub fn row(&self, id: u32) -> Option<Row>
        ensures { (n : ℕ) (look : Lookup) → shows self.now n look → result ≡ look id }
    {
        let at = self.row_number(id)?;
        Some(self.rows[at])
    }
}
