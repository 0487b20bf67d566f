// What opens and closes as nodes pass in document order.
ghost use Rattle.std.specs.Prelude.{◌≡◌, ◌≤◌, [], ◌∷◌, length, take, if◌then◌else◌, nat_lt};
ghost use Rattle.document.specs.Table.{closed_to, innermost, opened};
ghost use Rattle.nodetable.specs.Scratch.{open_ids};
ghost use Rattle.nodetable.specs.Open.{open_in, places};

use crate::open_elements::OpenElements;
use crate::scratch::Slot;
use records::{Kind, Node};

// How many of the open elements, outermost first, stay open where a node below `parent` comes; 0 if `parent` is not open.
pub fn still_open(parent: u32, elements: &[Slot]) -> usize
    ensures within { result ≤ length elements.now }
    ensures kept { open_ids (take result elements.now) ≡ closed_to parent (open_ids elements.now) }
{
    match elements.iter().rev().position(|slot| slot.is_for(parent)) {
        Some(inside) => elements.len() - inside,
        None => 0,
    }
}

impl<'a> OpenElements<'a> {
    // No element yet; as many as there are slots can be open at once.
    pub fn none(slots: &'a mut [Slot]) -> OpenElements<'a>
        ensures open { open_in result ≡ [] }
        ensures places { places result ≡ length slots.old }
    {
        OpenElements { slots, count: 0 }
    }

    pub fn count(&self) -> usize
        ensures { result ≡ length (open_in self.now) }
    {
        self.count
    }

    // Whether an element is the innermost.
    pub(crate) fn is_innermost(&self, id: u32) -> bool
        ensures { result ≡ innermost id (open_in self.now) }
    {
        match self.slots[..self.count].last() {
            Some(slot) => slot.is_for(id),
            None => false,
        }
    }

    // How many elements stay open where a node below `parent` comes.
    fn kept(&self, parent: u32) -> usize
        ensures within { result ≤ self.now.count }
        ensures kept { open_ids (take result self.now.slots.now) ≡ closed_to parent (open_in self.now) }
    {
        still_open(parent, &self.slots[..self.count])
    }

    // Closes the elements inside `parent`, and all of them where that is not open.
    pub(crate) fn close_to(&mut self, parent: u32)
        ensures open { open_in self.new ≡ closed_to parent (open_in self.old) }
        ensures places { places self.new ≡ places self.old }
    {
        self.count = self.kept(parent);
    }

    // Opens an element inside the innermost, if a slot is left.
    pub(crate) fn push(&mut self, id: u32)
        ensures open { open_in self.new ≡ (if nat_lt (length (open_in self.old)) (places self.old) then id ∷ open_in self.old else open_in self.old) }
        ensures places { places self.new ≡ places self.old }
    {
        if self.count < self.slots.len() {
            self.slots[self.count] = Slot { id, ..Slot::EMPTY };
            self.count += 1;
        }
    }

    // Lets a root, or a node below an element, pass: it closes the elements up to its parent, and opens if it is one itself and
    // a slot is left. Answers how many were open around it.
    pub fn pass(&mut self, node: &Node) -> usize
        ensures around { result ≡ length (closed_to node.now.parent (open_in self.old)) }
        ensures open { open_in self.new ≡ (if nat_lt (length (closed_to node.now.parent (open_in self.old))) (places self.old) then opened node.now.kind node.now.id (closed_to node.now.parent (open_in self.old)) else closed_to node.now.parent (open_in self.old)) }
        ensures places { places self.new ≡ places self.old }
    {
        self.close_to(node.parent);
        let around = self.count();
        if let Kind::Element = node.kind {
            self.push(node.id);
        }
        around
    }
}
