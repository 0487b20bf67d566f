// The elements that are open: those whose children may still come.
ghost use Rattle.std.specs.Prelude.{◌≤◌, length};

use crate::scratch::Slot;

// Their identifiers stand in the first slots, outermost first.
#[derive(Drop)]
pub struct OpenElements<'a> {
    pub(crate) slots: &'a mut [Slot],
    pub(crate) count: usize,
    ghost within: { count ≤ length slots.now },
}
