// A node of a document, as one row of a node table.
ghost use Rattle.std.specs.Prelude.{◌≡◌};
ghost use Rattle.records.specs.Formed.{kind_number, kind_from, formed_node};

use crate::numbers::UnknownNumber;

// What a node is; the numbers are those of the file format.
#[derive(Clone, Copy, PartialEq, Eq, Debug, Default)]
pub enum Kind {
    #[default]
    Element = 1,
    Attribute = 2,
    Text = 3,
}

impl From<Kind> for u8 {
    ghost from_gives = { λ kind number. number ≡ kind_number kind };

    fn from(kind: Kind) -> u8 {
        kind as u8
    }
}

impl TryFrom<u8> for Kind {
    type Error = UnknownNumber;

    ghost try_from_gives = { λ number kind. kind ≡ kind_from number };

    fn try_from(number: u8) -> Result<Kind, UnknownNumber> {
        match number {
            1 => Ok(Kind::Element),
            2 => Ok(Kind::Attribute),
            3 => Ok(Kind::Text),
            _ => Err(UnknownNumber(number)),
        }
    }
}

// `parent` is the identifier of the parent, 0 for a root.
#[derive(Clone, Copy, PartialEq, Eq, Debug, Default)]
pub struct Node {
    pub id: u32,
    pub parent: u32,
    pub kind: Kind,
    pub name: u16,
    pub value: u32,
}

impl Node {
    // Whether identifier, name and value suit the kind.
    pub fn is_formed(&self) -> bool
        ensures { result ≡ formed_node self.now }
    {
        match (self.id, self.kind, self.name, self.value) {
            (1.., Kind::Element, 1.., 0) => true,
            (1.., Kind::Attribute, 1.., _) => true,
            (1.., Kind::Text, 0, _) => true,
            _ => false,
        }
    }
}
