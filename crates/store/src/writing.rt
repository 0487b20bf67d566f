// The four writes of a store. A refused write changes nothing.
ghost use Rattle.std.specs.Prelude.{◌≡◌};
ghost use Rattle.store.specs.Says.{put_says, put_leaves, take_says, take_leaves, rename_says, rename_leaves, set_value_says, set_value_leaves};

use crate::reading::Reading;
use faults::StoreFault;
use records::Node;

pub trait Writing: Reading {
    // Puts a childless node below its parent, behind the child `left`, or first where that is 0. Attributes stand by identifier.
    fn put(&mut self, node: Node, left: u32) -> Result<(), StoreFault>
        ensures says { result ≡ put_says (Self.Reading.limit self.old) (Self.Reading.forest self.old) node left }
        ensures leaves { Self.Reading.forest self.new ≡ put_leaves (Self.Reading.limit self.old) (Self.Reading.forest self.old) node left }
        ensures room { Self.Reading.limit self.new ≡ Self.Reading.limit self.old };

    // Takes out a node that has neither children nor attributes.
    fn take(&mut self, id: u32) -> Result<(), StoreFault>
        ensures says { result ≡ take_says (Self.Reading.forest self.old) id }
        ensures leaves { Self.Reading.forest self.new ≡ take_leaves (Self.Reading.forest self.old) id }
        ensures room { Self.Reading.limit self.new ≡ Self.Reading.limit self.old };

    fn rename(&mut self, id: u32, name: u16) -> Result<(), StoreFault>
        ensures says { result ≡ rename_says (Self.Reading.forest self.old) id name }
        ensures leaves { Self.Reading.forest self.new ≡ rename_leaves (Self.Reading.forest self.old) id name }
        ensures room { Self.Reading.limit self.new ≡ Self.Reading.limit self.old };

    fn set_value(&mut self, id: u32, value: u32) -> Result<(), StoreFault>
        ensures says { result ≡ set_value_says (Self.Reading.forest self.old) id }
        ensures leaves { Self.Reading.forest self.new ≡ set_value_leaves (Self.Reading.forest self.old) id value }
        ensures room { Self.Reading.limit self.new ≡ Self.Reading.limit self.old };
}
