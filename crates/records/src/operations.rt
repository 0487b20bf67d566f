// An operation of a change list, as one row of an operation table.
ghost use Rattle.std.specs.Prelude.{◌≡◌};
ghost use Rattle.records.specs.Formed.{code_number, code_from, formed_operation};

use crate::numbers::UnknownNumber;

// What an operation does; the numbers are those of the file format.
#[derive(Clone, Copy, PartialEq, Eq, Debug)]
pub enum Code {
    InsertBefore = 11,
    InsertAfter = 12,
    InsertFirst = 13,
    InsertInto = 14,
    InsertLast = 15,
    InsertAttributes = 16,
    Delete = 17,
    ReplaceNode = 18,
    ReplaceValue = 19,
    ReplaceContent = 20,
    Rename = 21,
}

impl From<Code> for u8 {
    ghost from_gives = { λ code number. number ≡ code_number code };

    fn from(code: Code) -> u8 {
        code as u8
    }
}

impl TryFrom<u8> for Code {
    type Error = UnknownNumber;

    ghost try_from_gives = { λ number code. code ≡ code_from number };

    fn try_from(number: u8) -> Result<Code, UnknownNumber> {
        match number {
            11 => Ok(Code::InsertBefore),
            12 => Ok(Code::InsertAfter),
            13 => Ok(Code::InsertFirst),
            14 => Ok(Code::InsertInto),
            15 => Ok(Code::InsertLast),
            16 => Ok(Code::InsertAttributes),
            17 => Ok(Code::Delete),
            18 => Ok(Code::ReplaceNode),
            19 => Ok(Code::ReplaceValue),
            20 => Ok(Code::ReplaceContent),
            21 => Ok(Code::Rename),
            _ => Err(UnknownNumber(number)),
        }
    }
}

// `count` is how many rows of the node table belong to the operation.
#[derive(Clone, Copy, PartialEq, Eq, Debug)]
pub struct Operation {
    pub target: u32,
    pub code: Code,
    pub count: u32,
    pub name: u16,
    pub value: u32,
}

impl Operation {
    // Whether target, name and value suit the code.
    pub fn is_formed(&self) -> bool
        ensures { result ≡ formed_operation self.now }
    {
        match (u8::from(self.code), self.target, self.name, self.value) {
            (11..=18 | 20, 1.., 0, 0) => true,
            (19, 1.., 0, _) => true,
            (21, 1.., 1.., 0) => true,
            _ => false,
        }
    }
}
