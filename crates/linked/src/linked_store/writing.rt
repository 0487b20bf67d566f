// Writes: the tests that all stores share, then a constant number of rows and the shift in the index.
ghost use Rattle.std.specs.Prelude.{◌≡◌, ℕ, if◌then◌else◌, Some, Ok, nat_eq};
ghost use Rattle.store.specs.Views.{view};
ghost use Rattle.store.specs.Says.{put_says, put_leaves, take_says, take_leaves};
ghost use Rattle.store.specs.Links.{next_child, attribute_before, attribute_from};
ghost use Rattle.linked.specs.Document.{document, limit_of};
ghost use Rattle.linked.specs.Rows.{seen};
ghost use Rattle.linked.specs.Places.{neighbours as neighbours_of, stands_behind};

use super::LinkedStore;
use crate::row::{Row, Siblings};
use faults::StoreFault;
use records::Node;
use store::{Reading, Writing, test_put, test_rename, test_set_value, test_take};

// The root once the node `top` stands below no other, or else as it was.
fn root_after(parent: u32, top: u32, root: u32) -> u32
    ensures { result ≡ (if nat_eq parent 0 then top else root) }
{
    if parent == 0 { top } else { root }
}

impl LinkedStore {
    // The attributes of a node around an identifier: the last one before it, and the first one that is not; 0 for none.
    fn attributes_around(&self, parent: u32, id: u32) -> (u32, u32)
        ensures { result ≡ (attribute_before (document self.now) parent id, attribute_from (document self.now) parent id) }
    {
        let mut before = 0;
        let mut next = self.first_attribute(parent).unwrap_or(0);
        while next != 0 && next < id {
            before = next;
            next = self.next_attribute(next).unwrap_or(0);
        }
        (before, next)
    }

    // The child before which a node comes to stand behind `left`, or first where that is 0.
    fn child_behind(&self, node: Node, left: u32) -> u32
        ensures { result ≡ next_child (document self.now) node left }
    {
        if left == 0 {
            self.first_child(node.parent).unwrap_or(0)
        } else {
            self.next_sibling(left).unwrap_or(0)
        }
    }

    // The siblings between which a node comes to stand.
    fn neighbours(&self, among: Siblings, node: Node, left: u32) -> (u32, u32)
        ensures { result ≡ neighbours_of (document self.now) among node left }
    {
        match among {
            Siblings::Children => (left, self.child_behind(node, left)),
            Siblings::Attributes => self.attributes_around(node.parent, node.id),
        }
    }

    // The sibling behind which a node stands.
    fn sibling_before(&self, among: Siblings, row: Row) -> u32
        ensures { result ≡ stands_behind (document self.now) among row }
    {
        match among {
            Siblings::Children => row.left,
            Siblings::Attributes => self.attributes_around(row.node.parent, row.node.id).0,
        }
    }

    fn put_in(&mut self, node: Node, left: u32)
        requires { put_says (limit_of self.old) (document self.old) node left ≡ Ok tt }
        ensures leaves { document self.new ≡ put_leaves (limit_of self.old) (document self.old) node left }
        ensures room { limit_of self.new ≡ limit_of self.old }
    {
        let among = Siblings::of(node.kind);
        let (before, next) = self.neighbours(among, node, left);
        let row = Row::among(among, node, left, next);
        self.table.link_in(among, before, row);
        self.root = root_after(node.parent, node.id, self.root);
    }

    // Takes a row out that is known.
    fn take_row(&mut self, row: Row)
        requires says { take_says (document self.old) row.node.id ≡ Ok tt }
        requires there { view (document self.old) row.node.id ≡ Some (seen row) }
        ensures leaves { document self.new ≡ take_leaves (document self.old) row.node.id }
        ensures room { limit_of self.new ≡ limit_of self.old }
    {
        let among = Siblings::of(row.node.kind);
        let before = self.sibling_before(among, row);
        self.table.link_out(among, before, row);
        self.root = root_after(row.node.parent, 0, self.root);
    }

    fn take_out(&mut self, id: u32)
        requires { take_says (document self.old) id ≡ Ok tt }
        ensures leaves { document self.new ≡ take_leaves (document self.old) id }
        ensures room { limit_of self.new ≡ limit_of self.old }
    {
        if let Ok(row) = self.row(id) {
            self.take_row(row);
        }
    }
}

impl Writing for LinkedStore {
    fn put(&mut self, node: Node, left: u32) -> Result<(), StoreFault> {
        test_put(self, node, left)?;
        self.put_in(node, left);
        Ok(())
    }

    fn take(&mut self, id: u32) -> Result<(), StoreFault> {
        test_take(self, id)?;
        self.take_out(id);
        Ok(())
    }

    fn rename(&mut self, id: u32, name: u16) -> Result<(), StoreFault> {
        test_rename(self, id, name)?;
        self.table.change(
            id,
            |row| Row {
                node: Node { name, ..row.node },
                ..row
            },
        );
        Ok(())
    }

    fn set_value(&mut self, id: u32, value: u32) -> Result<(), StoreFault> {
        test_set_value(self, id)?;
        self.table.change(
            id,
            |row| Row {
                node: Node { value, ..row.node },
                ..row
            },
        );
        Ok(())
    }
}
