// The questions of the flat store.
ghost use Rattle.std.specs.Prelude.{◌≡◌, vec_len};
ghost use Rattle.flat.specs.Document.{document, in_use};
ghost use Rattle.flat.specs.Judging.{Sought};

use super::FlatStore;
use crate::rows::FlatRow;
use crate::walks::{attribute_at, behind_attributes, child_at, left_of};
use faults::StoreFault;
use ordered::row_of;
use records::{Kind, Node};
use store::Reading;

impl FlatStore {
    pub(super) fn in_use(&self) -> &[FlatRow]
        ensures { result.now ≡ in_use self.now }
    {
        &self.rows[..self.used]
    }

    // The row of the node with an identifier.
    pub(super) fn row_with(&self, id: u32) -> Result<usize, StoreFault>
        ensures { Sought self.now id result }
    {
        row_of(&self.index, self.used, id).ok_or(StoreFault::Absent)
    }
}

impl Reading for FlatStore {
    ghost forest = { document };

    ghost limit = { λ s. vec_len s.rows };

    fn kept(&self) {}

    fn room(&self) -> usize {
        self.rows.len()
    }

    fn len(&self) -> usize {
        self.in_use().len()
    }

    fn root(&self) -> u32 {
        match self.in_use().first() {
            Some(row) => row.node.id,
            None => 0,
        }
    }

    fn node(&self, id: u32) -> Result<Node, StoreFault> {
        let row = self.row_with(id)?;
        Ok(self.rows[row].node)
    }

    fn first_child(&self, id: u32) -> Result<u32, StoreFault> {
        let row = self.row_with(id)?;
        let rows = self.in_use();
        let place = behind_attributes(rows, row, None);
        Ok(child_at(rows, place, id))
    }

    fn next_sibling(&self, id: u32) -> Result<u32, StoreFault> {
        let row = self.row_with(id)?;
        let here = self.rows[row];
        if here.node.kind == Kind::Attribute {
            return Ok(0);
        }
        Ok(child_at(self.in_use(), row + here.size, here.node.parent))
    }

    fn first_attribute(&self, id: u32) -> Result<u32, StoreFault> {
        let row = self.row_with(id)?;
        Ok(attribute_at(self.in_use(), row + 1, id))
    }

    fn next_attribute(&self, id: u32) -> Result<u32, StoreFault> {
        let row = self.row_with(id)?;
        let node = self.rows[row].node;
        if node.kind != Kind::Attribute {
            return Ok(0);
        }
        Ok(attribute_at(self.in_use(), row + 1, node.parent))
    }

    fn place(&self, id: u32) -> Result<(u32, u32), StoreFault> {
        let row = self.row_with(id)?;
        let node = self.rows[row].node;
        if row == 0 || node.kind == Kind::Attribute {
            return Ok((node.parent, 0));
        }
        Ok((node.parent, left_of(self.in_use(), row)))
    }
}
