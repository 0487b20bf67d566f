// Scratch memory, lent for the length of a call and handed back all zeros.
ghost use Rattle.std.specs.Prelude.{◌≡◌, ◌==◌};
ghost use Rattle.nodetable.specs.Scratch.{cleared};

// An identifier, a name and a place; the order is by these in turn.
#[derive(Clone, Copy, PartialEq, Eq, PartialOrd, Ord, Debug)]
pub struct Slot {
    pub id: u32,
    pub name: u16,
    pub place: usize,
}

impl Slot {
    pub const EMPTY: Slot = Slot {
        id: 0,
        name: 0,
        place: 0,
    };

    pub fn is_for(&self, id: u32) -> bool
        ensures { result ≡ (self.now.id == id) }
    {
        self.id == id
    }

    // What two slots may not have both, where slots hold keys.
    pub(crate) fn key(&self) -> (u32, u16)
        ensures { result ≡ (self.now.id, self.now.name) }
    {
        (self.id, self.name)
    }
}

pub fn clear(slots: &mut [Slot])
    ensures { slots.new ≡ cleared slots.old }
{
    slots.fill(Slot::EMPTY);
}

// Holds the lent slots, and clears them however the call ends.
pub struct Guard<'a> {
    pub slots: &'a mut [Slot],
}

impl Drop for Guard<'_> {
    fn drop(self)
        ensures { self.exit.0.now ≡ cleared self.entry.slots.now }
    {
        clear(&mut *self.slots);
        let Guard { slots: _ } = self;
    }
}
