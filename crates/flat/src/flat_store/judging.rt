// The tests before the writes.
ghost use Rattle.store.specs.Says.{take_says, rename_says, set_value_says};
ghost use Rattle.flat.specs.Document.{document};
ghost use Rattle.flat.specs.Judging.{Judged};
ghost use Rattle.flat.specs.Spots.{PutJudged};

use super::FlatStore;
use crate::rows::Spot;
use faults::StoreFault;
use records::{Kind, Node};

impl FlatStore {
    // Where a node may be put behind `left`.
    pub(super) fn judge_put(&self, node: Node, left: u32) -> Result<Spot, StoreFault>
        ensures { PutJudged self.now node left result }
    {
        if !node.is_formed() {
            return Err(StoreFault::Misformed);
        }
        if self.row_with(node.id).is_ok() {
            return Err(StoreFault::Known);
        }
        let spot = self.spot(node, left).ok_or(StoreFault::Unsuited)?;
        if self.used == self.rows.len() {
            return Err(StoreFault::Full);
        }
        Ok(spot)
    }

    // The row of a node that may be taken out: one that is alone in its subtree.
    pub(super) fn judge_take(&self, id: u32) -> Result<usize, StoreFault>
        ensures { Judged self.now id (take_says (document self.now) id) result }
    {
        let row = self.row_with(id)?;
        if self.rows[row].size != 1 {
            return Err(StoreFault::Unsuited);
        }
        Ok(row)
    }

    // The row of a node that may have another name.
    pub(super) fn judge_rename(&self, id: u32, name: u16) -> Result<usize, StoreFault>
        ensures { Judged self.now id (rename_says (document self.now) id name) result }
    {
        let row = self.row_with(id)?;
        if self.rows[row].node.kind == Kind::Text {
            return Err(StoreFault::Unsuited);
        }
        if name == 0 {
            return Err(StoreFault::Misformed);
        }
        Ok(row)
    }

    // The row of a node that may have another value.
    pub(super) fn judge_set_value(&self, id: u32) -> Result<usize, StoreFault>
        ensures { Judged self.now id (set_value_says (document self.now) id) result }
    {
        let row = self.row_with(id)?;
        if self.rows[row].node.kind == Kind::Element {
            return Err(StoreFault::Unsuited);
        }
        Ok(row)
    }
}
