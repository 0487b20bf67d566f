// The keys of a change list's operations.
ghost use Rattle.std.specs.Prelude.{◌≡◌};
ghost use Rattle.reduce.specs.Groups.{entry_for};

use records::Code;

// A target and a code.
#[derive(Clone, Copy, PartialEq, Eq, Debug)]
pub struct Key {
    pub target: u32,
    pub code: Code,
}

// Where the operations of a key stand: by target, code and position.
#[derive(Clone, Copy, PartialEq, Eq, PartialOrd, Ord, Debug)]
pub struct Entry {
    pub target: u32,
    // The number of a code. Whoever lends entries may lend any; a `Code` here would ask more of them.
    pub code: u8,
    pub position: u32,
    pub start: usize,
}

impl Entry {
    pub(crate) fn is_for(&self, key: Key) -> bool
        ensures { result ≡ entry_for key.target key.code self.now }
    {
        self.target == key.target && self.code == u8::from(key.code)
    }
}
