// Rows linked in among their siblings, and linked out.
ghost use Rattle.std.specs.Prelude.{◌≡◌, ℕ, ◌+◌, ◌-◌, ◌<◌, Some, None};
ghost use Rattle.linked.specs.Tables.{Lookup, room_of, shows, led, led_around, linked_in, linked_out};

use super::Table;
use crate::row::{Row, Siblings};

impl Table {
    // Leads what led to the place behind `before` among the siblings below `parent` to another node.
    fn lead(&mut self, among: Siblings, parent: u32, before: u32, to: u32)
        ensures room { room_of self.new ≡ room_of self.old }
        ensures shows { (n : ℕ) (look : Lookup) → shows self.old n look → shows self.new n (led among parent before to look) }
    {
        if before == 0 {
            self.change(parent, |row| row.with_first(among, to));
        } else {
            self.change(before, |row| row.with_next(among, to));
        }
    }

    // Leads what leads to the place of a row behind `before` to `next`, and what leads back to it to `left`.
    fn lead_around(&mut self, among: Siblings, before: u32, row: Row, next: u32, left: u32)
        ensures room { room_of self.new ≡ room_of self.old }
        ensures shows { (n : ℕ) (look : Lookup) → shows self.old n look → shows self.new n (led_around among before row next left look) }
    {
        self.lead(among, row.node.parent, before, next);
        self.change(row.next_sibling, |behind| Row { left, ..behind });
    }

    // Links a new row in behind `before` among its siblings, or first where that is 0.
    pub fn link_in(&mut self, among: Siblings, before: u32, row: Row)
        ensures room { room_of self.new ≡ room_of self.old }
        ensures shows { (n : ℕ) (look : Lookup) → shows self.old n look → look row.node.id ≡ None → n < room_of self.old → shows self.new (n + 1) (linked_in among before row look) }
    {
        self.lead_around(among, before, row, row.node.id, row.node.id);
        self.enter(row);
    }

    // Links a row out that stands behind `before` among its siblings, or first where that is 0.
    pub fn link_out(&mut self, among: Siblings, before: u32, row: Row)
        ensures room { room_of self.new ≡ room_of self.old }
        ensures shows { (n : ℕ) (look : Lookup) → shows self.old n look → look row.node.id ≡ Some row → shows self.new (n - 1) (linked_out among before row look) }
    {
        self.lead_around(among, before, row, row.next_among(among), row.left);
        self.leave(row.node.id);
    }
}
