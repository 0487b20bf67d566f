// Questions, answered by scanning the table.
ghost use Rattle.sheet.specs.Document.{document};
ghost use Rattle.sheet.specs.Sheets.{Found};

use super::Sheet;
use super::opening::ROOM;
use crate::scan::{Below, first_of, left_of, next_behind};
use faults::StoreFault;
use records::Node;
use store::Reading;

impl<'a> Sheet<'a> {
    // The place of a node in the table.
    fn find(&self, id: u32) -> Result<usize, StoreFault>
        ensures { Found self.now.nodes.now id result }
    {
        let place = self.nodes.iter().position(|node| node.id == id);
        place.ok_or(StoreFault::Absent)
    }
}

impl<'a> Reading for Sheet<'a> {
    ghost forest = { document };

    ghost limit = { λ _. 1000 };

    fn kept(&self) {}

    fn room(&self) -> usize {
        ROOM
    }

    fn len(&self) -> usize {
        self.nodes.len()
    }

    fn root(&self) -> u32 {
        self.nodes.first().map_or(0, |node| node.id)
    }

    fn node(&self, id: u32) -> Result<Node, StoreFault> {
        let place = self.find(id)?;
        Ok(self.nodes[place])
    }

    fn first_child(&self, id: u32) -> Result<u32, StoreFault> {
        self.find(id)?;
        Ok(first_of(self.nodes, Below::Children, id))
    }

    fn next_sibling(&self, id: u32) -> Result<u32, StoreFault> {
        let place = self.find(id)?;
        Ok(next_behind(self.nodes, place, Below::Children))
    }

    fn first_attribute(&self, id: u32) -> Result<u32, StoreFault> {
        self.find(id)?;
        Ok(first_of(self.nodes, Below::Attributes, id))
    }

    fn next_attribute(&self, id: u32) -> Result<u32, StoreFault> {
        let place = self.find(id)?;
        Ok(next_behind(self.nodes, place, Below::Attributes))
    }

    fn place(&self, id: u32) -> Result<(u32, u32), StoreFault> {
        let place = self.find(id)?;
        Ok((self.nodes[place].parent, left_of(self.nodes, place)))
    }
}
