// The operations of a change list by their target and code.
ghost use Rattle.std.specs.Prelude.{◌≡◌, ◌+◌, ◌^◌, ◌<◌, length};
ghost use Rattle.document.specs.Listing.{rows};
ghost use Rattle.changes.specs.Overriding.{has_change};
ghost use Rattle.reduce.specs.Mirror.{group, goes as goes_of};
ghost use Rattle.reduce.specs.Groups.{Begins, first_operation, gathered};
ghost use Rattle.reduce.specs.Lists.{changes};
ghost use Rattle.reduce.specs.Output.{Copied};

use crate::keys::{Entry, Key};
use crate::ordered_list::OrderedList;
use crate::tables::Tables;
use ordered::find;
use records::{Code, Operation};

impl OrderedList<'_> {
    // The place of the first entry of a key, or where it would stand.
    fn place_of(&self, key: Key) -> usize
        ensures { Begins key.target key.code self.now.operations.now self.now.entries.now result }
    {
        let probe = Entry {
            target: key.target,
            code: key.code.into(),
            position: 0,
            start: 0,
        };
        find(self.entries, self.entries.len(), &probe)
    }

    // The first operation of a key.
    pub(crate) fn first(&self, key: Key) -> Option<Operation>
        ensures { result ≡ first_operation key.target key.code self.now.operations.now }
    {
        match self.entries.get(self.place_of(key)) {
            Some(entry) if entry.is_for(key) => Some(self.operations[entry.position as usize]),
            _ => None,
        }
    }

    // Whether there is an operation of a key.
    pub(crate) fn has(&self, target: u32, code: Code) -> bool
        ensures { result ≡ has_change code target (changes self.now) }
    {
        self.first(Key { target, code }).is_some()
    }

    // Whether a node goes.
    pub(crate) fn goes(&self, target: u32) -> bool
        ensures { result ≡ goes_of (changes self.now) target }
    {
        self.has(target, Code::ReplaceNode) || self.has(target, Code::Delete)
    }

    // Adds the nodes of all operations of a key.
    pub(crate) fn copy_group(&self, key: Key, tables: &mut Tables)
        requires { tables.old.used.nodes + length (rows 0 (group (changes self.now) key.target key.code)) < 2 ^ 32 }
        ensures { Copied tables.old tables.new (rows 0 (group (changes self.now) key.target key.code)) }
    {
        let (_, entries) = self.entries.split_at(self.place_of(key));
        for entry in entries {
            if !entry.is_for(key) {
                return;
            }
            let count = self.operations[entry.position as usize].count as usize;
            tables.copy(&self.nodes[entry.start..entry.start + count]);
        }
    }

    // Adds the nodes of several groups, one behind the other.
    pub(crate) fn copy_groups(&self, keys: &[Key], tables: &mut Tables)
        requires { tables.old.used.nodes + length (rows 0 (gathered (changes self.now) keys.now)) < 2 ^ 32 }
        ensures { Copied tables.old tables.new (rows 0 (gathered (changes self.now) keys.now)) }
    {
        for key in keys {
            self.copy_group(*key, tables);
        }
    }
}
