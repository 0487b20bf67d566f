// The writes of the flat store: a test, then the change.
use super::FlatStore;
use crate::shifts::{enlist, put_in, take_out, unlist};
use faults::StoreFault;
use ordered::RowOf;
use records::Node;
use store::Writing;

impl Writing for FlatStore {
    fn put(&mut self, node: Node, left: u32) -> Result<(), StoreFault> {
        let spot = self.judge_put(node, left)?;
        put_in(&mut self.rows, self.used, spot, node);
        enlist(
            &mut self.index,
            self.used,
            RowOf {
                id: node.id,
                row: spot.place,
            },
        );
        self.used += 1;
        Ok(())
    }

    fn take(&mut self, id: u32) -> Result<(), StoreFault> {
        let row = self.judge_take(id)?;
        take_out(&mut self.rows, self.used, row);
        unlist(&mut self.index, self.used, row);
        self.used -= 1;
        Ok(())
    }

    fn rename(&mut self, id: u32, name: u16) -> Result<(), StoreFault> {
        let row = self.judge_rename(id, name)?;
        self.rows[row].node.name = name;
        Ok(())
    }

    fn set_value(&mut self, id: u32, value: u32) -> Result<(), StoreFault> {
        let row = self.judge_set_value(id)?;
        self.rows[row].node.value = value;
        Ok(())
    }
}
