// What a list leaves on one node, written behind what is written already.
ghost use Rattle.std.specs.Prelude.{◌≡◌, ◌^◌, ◌<◌, [], ◌∷◌, if◌then◌else◌, nat_eq};
ghost use Rattle.records.specs.declared.operations.Code.TheVariants.{InsertFirst, InsertInto, Delete, ReplaceNode, ReplaceContent};
ghost use Rattle.changes.specs.Changes.{◌⊕◌};
ghost use Rattle.changes.specs.Overriding.{has_change};
ghost use Rattle.changes.specs.Reduced.{insertion, replacement, new_value, new_name};
ghost use Rattle.reduce.specs.Groups.{gathered};
ghost use Rattle.reduce.specs.Lists.{changes};
ghost use Rattle.reduce.specs.Mirror.{group, value_on, name_on, departure, given_if, left_inside, left_on, left_on_attribute};
ghost use Rattle.reduce.specs.Output.{bare, Grown, RoomFor};

use crate::keys::Key;
use crate::ordered_list::OrderedList;
use crate::tables::Tables;
use records::{Code, Operation};

// An operation without nodes, name and value.
fn bare(target: u32, code: Code) -> Operation
    ensures { result ≡ bare target code }
{
    Operation {
        target,
        code,
        count: 0,
        name: 0,
        value: 0,
    }
}

// How a node goes: deleted, or replaced by `count` nodes.
fn departing_code(count: u32) -> Code
    ensures { result ≡ (if nat_eq count 0 then Delete else ReplaceNode) }
{
    if count == 0 {
        Code::Delete
    } else {
        Code::ReplaceNode
    }
}

impl Tables<'_> {
    // One insertion with the nodes of all these groups, if there are any.
    fn insert(&mut self, list: &OrderedList, keys: &[Key], target: u32, code: Code)
        requires { RoomFor self.old.used (insertion target code (gathered (changes list.now) keys.now)) }
        ensures { Grown self.old self.new (insertion target code (gathered (changes list.now) keys.now)) }
    {
        let start = self.used.nodes;
        list.copy_groups(keys, self);
        let count = (self.used.nodes - start) as u32;
        if count > 0 {
            self.push(Operation {
                count,
                ..bare(target, code)
            });
        }
    }

    // A new value, if there is one.
    fn put_value(&mut self, list: &OrderedList, target: u32)
        requires { self.old.used.operations < 2 ^ 32 }
        ensures { Grown self.old self.new (new_value target (value_on (changes list.now) target)) }
    {
        let code = Code::ReplaceValue;
        if let Some(Operation { value, .. }) = list.first(Key { target, code }) {
            self.push(Operation {
                value,
                ..bare(target, code)
            });
        }
    }

    // A new name, if there is one.
    fn put_name(&mut self, list: &OrderedList, target: u32)
        requires { self.old.used.operations < 2 ^ 32 }
        ensures { Grown self.old self.new (new_name target (name_on (changes list.now) target)) }
    {
        let code = Code::Rename;
        if let Some(Operation { name, .. }) = list.first(Key { target, code }) {
            self.push(Operation {
                name,
                ..bare(target, code)
            });
        }
    }

    // A node that goes.
    fn depart(&mut self, list: &OrderedList, target: u32)
        requires { RoomFor self.old.used (departure (changes list.now) target) }
        ensures { Grown self.old self.new (departure (changes list.now) target) }
    {
        let start = self.used.nodes;
        let code = Code::ReplaceNode;
        list.copy_group(Key { target, code }, self);
        let count = (self.used.nodes - start) as u32;
        self.push(Operation {
            count,
            ..bare(target, departing_code(count))
        });
    }

    // New content, if there is some.
    fn put_content(&mut self, list: &OrderedList, target: u32)
        requires { RoomFor self.old.used (replacement target ReplaceContent (given_if (has_change ReplaceContent target (changes list.now)) (group (changes list.now) target ReplaceContent))) }
        ensures { Grown self.old self.new (replacement target ReplaceContent (given_if (has_change ReplaceContent target (changes list.now)) (group (changes list.now) target ReplaceContent))) }
    {
        let code = Code::ReplaceContent;
        if !list.has(target, code) {
            return;
        }
        let start = self.used.nodes;
        list.copy_group(Key { target, code }, self);
        self.push(Operation {
            count: (self.used.nodes - start) as u32,
            ..bare(target, code)
        });
    }

    // The insertions before a node's children, unless its content is replaced; `below` is what else comes before them.
    fn insert_first(&mut self, list: &OrderedList, target: u32, below: Key)
        requires { RoomFor self.old.used (if has_change ReplaceContent target (changes list.now) then [] else insertion target InsertFirst (group (changes list.now) target InsertFirst ⊕ (group (changes list.now) target InsertInto ⊕ group (changes list.now) below.target below.code))) }
        ensures { Grown self.old self.new (if has_change ReplaceContent target (changes list.now) then [] else insertion target InsertFirst (group (changes list.now) target InsertFirst ⊕ (group (changes list.now) target InsertInto ⊕ group (changes list.now) below.target below.code))) }
    {
        if list.has(target, Code::ReplaceContent) {
            return;
        }
        let first = Key {
            target,
            code: Code::InsertFirst,
        };
        let into = Key {
            target,
            code: Code::InsertInto,
        };
        self.insert(list, &[first, into, below], target, Code::InsertFirst);
    }

    // What is left inside a node that stays.
    fn left_inside(&mut self, list: &OrderedList, target: u32, below: Key)
        requires { RoomFor self.old.used (left_inside (changes list.now) target (group (changes list.now) below.target below.code)) }
        ensures { Grown self.old self.new (left_inside (changes list.now) target (group (changes list.now) below.target below.code)) }
    {
        self.insert_first(list, target, below);
        let code = Code::InsertAttributes;
        self.insert(list, &[Key { target, code }], target, code);
        self.put_value(list, target);
        self.put_content(list, target);
        self.put_name(list, target);
    }

    // What is left on one node; `behind` and `below` are what else is inserted behind it and before its first child.
    pub fn left_on(&mut self, list: &OrderedList, target: u32, behind: Key, below: Key)
        requires { RoomFor self.old.used (left_on (changes list.now) target (group (changes list.now) behind.target behind.code) (group (changes list.now) below.target below.code)) }
        ensures { Grown self.old self.new (left_on (changes list.now) target (group (changes list.now) behind.target behind.code) (group (changes list.now) below.target below.code)) }
    {
        let code = Code::InsertAfter;
        self.insert(list, &[Key { target, code }, behind], target, code);
        if list.goes(target) {
            self.depart(list, target);
        } else {
            self.left_inside(list, target, below);
        }
    }

    // What is left on one attribute.
    pub fn left_on_attribute(&mut self, list: &OrderedList, target: u32)
        requires { RoomFor self.old.used (left_on_attribute (changes list.now) target) }
        ensures { Grown self.old self.new (left_on_attribute (changes list.now) target) }
    {
        if list.goes(target) {
            self.depart(list, target);
        } else {
            self.put_value(list, target);
            self.put_name(list, target);
        }
    }
}
