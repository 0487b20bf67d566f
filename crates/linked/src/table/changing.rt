// One row changed, one more and one fewer.
ghost use Rattle.std.specs.Prelude.{◌≡◌, ℕ, ◌+◌, ◌-◌, ◌<◌, Some, None};
ghost use Rattle.linked.specs.declared.row.Row.{Row as RowType};
ghost use Rattle.linked.specs.Tables.{Lookup, room_of, Computes, shows, changed, with_row, without_row};

use super::Table;
use crate::row::Row;
use ordered::{RowOf, insert, place_of, remove};

impl Table {
    // Changes the row of a node by `f`; where there is no such node nothing changes.
    pub fn change<F: Fn(Row) -> Row>(&mut self, id: u32, f: F)
        requires { F.IsAlwaysCallable f }
        ensures room { room_of self.new ≡ room_of self.old }
        ensures shows { (g : RowType → RowType) → Computes (F.post f) g → (n : ℕ) (look : Lookup) → shows self.old n look → shows self.new n (changed id g look) }
    {
        if let Some(at) = self.row_number(id) {
            self.rows[at] = f(self.rows[at]);
        }
    }

    // Puts a row in, under the identifier of its node, where there is room.
    pub fn enter(&mut self, row: Row)
        ensures room { room_of self.new ≡ room_of self.old }
        ensures shows { (n : ℕ) (look : Lookup) → shows self.old n look → look row.node.id ≡ None → n < room_of self.old → shows self.new (n + 1) (with_row row.node.id row look) }
    {
        // Who links a row in has asked for room: this never returns early for a store.
        if self.used >= self.index.len() {
            return;
        }
        let free = self.index[self.used].row;
        self.rows[free] = row;
        let id = row.node.id;
        // `used` is below the length of the index: a place is found, and which one nobody asks.
        let _ = insert(&mut self.index, self.used, RowOf { id, row: free });
        self.used += 1;
    }

    // Takes the row of a node out; it is free afterwards.
    pub fn leave(&mut self, id: u32)
        ensures room { room_of self.new ≡ room_of self.old }
        ensures shows { (n : ℕ) (look : Lookup) (w : RowType) → shows self.old n look → look id ≡ Some w → shows self.new (n - 1) (without_row id look) }
    {
        // A node with a row has an entry, and an entry that is found can be removed: what is promised holds in here.
        if let Some(at) = place_of(&self.index, self.used, id) {
            if let Some(entry) = remove(&mut self.index, self.used, at) {
                self.used -= 1;
                self.index[self.used] = entry;
            }
        }
    }
}
