// The questions of a store. Identifiers are above 0; 0 says that there is none.
ghost use Rattle.std.specs.Prelude.{◌≡◌, ℕ, ◌≤◌};
ghost use Rattle.document.specs.Tree.{Forest, size};
ghost use Rattle.store.specs.Kept.{Kept};
ghost use Rattle.store.specs.Views.{first_of, record_says, first_child_says, next_sibling_says, first_attribute_says, next_attribute_says, place_says};

use faults::StoreFault;
use records::Node;

pub trait Reading {
    // The document that the store holds, and how many nodes it can hold.
    ghost forest: { Self → Forest };

    ghost limit: { Self → ℕ };

    // Does nothing: tells that the store holds nothing or one tree, within its room.
    fn kept(&self)
        ensures shape { Kept (forest self.now) }
        ensures within { size (forest self.now) ≤ limit self.now };

    fn room(&self) -> usize
        ensures { result ≡ limit self.now };

    fn len(&self) -> usize
        ensures { result ≡ size (forest self.now) };

    fn root(&self) -> u32
        ensures { result ≡ first_of (forest self.now) };

    fn node(&self, id: u32) -> Result<Node, StoreFault>
        ensures { result ≡ record_says (forest self.now) id };

    fn first_child(&self, id: u32) -> Result<u32, StoreFault>
        ensures { result ≡ first_child_says (forest self.now) id };

    fn next_sibling(&self, id: u32) -> Result<u32, StoreFault>
        ensures { result ≡ next_sibling_says (forest self.now) id };

    fn first_attribute(&self, id: u32) -> Result<u32, StoreFault>
        ensures { result ≡ first_attribute_says (forest self.now) id };

    fn next_attribute(&self, id: u32) -> Result<u32, StoreFault>
        ensures { result ≡ next_attribute_says (forest self.now) id };

    // Parent and left neighbour; an attribute has no left neighbour.
    fn place(&self, id: u32) -> Result<(u32, u32), StoreFault>
        ensures { result ≡ place_says (forest self.now) id };
}
