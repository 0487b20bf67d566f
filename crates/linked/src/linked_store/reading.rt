// Questions: one look-up each.
ghost use Rattle.std.specs.Prelude.{◌≡◌};
ghost use Rattle.store.specs.Views.{view, asked};
ghost use Rattle.linked.specs.Rows.{row_of};
ghost use Rattle.linked.specs.Document.{document, limit_of};

use super::LinkedStore;
use crate::row::Row;
use faults::StoreFault;
use records::Node;
use store::Reading;

impl LinkedStore {
    // The row of a node.
    pub fn row(&self, id: u32) -> Result<Row, StoreFault>
        ensures { result ≡ asked row_of (view (document self.now) id) }
    {
        self.table.row(id).ok_or(StoreFault::Absent)
    }
}

impl Reading for LinkedStore {
    ghost forest = { document };

    ghost limit = { limit_of };

    fn kept(&self) {}

    fn room(&self) -> usize {
        self.table.room()
    }

    fn len(&self) -> usize {
        self.table.len()
    }

    fn root(&self) -> u32 {
        self.root
    }

    fn node(&self, id: u32) -> Result<Node, StoreFault> {
        Ok(self.row(id)?.node)
    }

    fn first_child(&self, id: u32) -> Result<u32, StoreFault> {
        Ok(self.row(id)?.first_child)
    }

    fn next_sibling(&self, id: u32) -> Result<u32, StoreFault> {
        Ok(self.row(id)?.next_sibling)
    }

    fn first_attribute(&self, id: u32) -> Result<u32, StoreFault> {
        Ok(self.row(id)?.first_attribute)
    }

    fn next_attribute(&self, id: u32) -> Result<u32, StoreFault> {
        Ok(self.row(id)?.next_attribute)
    }

    fn place(&self, id: u32) -> Result<(u32, u32), StoreFault> {
        let row = self.row(id)?;
        Ok((row.node.parent, row.left))
    }
}
