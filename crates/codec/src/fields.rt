// The node or operation that a record spells, and the record of each.
ghost use Rattle.std.specs.Prelude.{◌≡◌};
ghost use Rattle.codec.specs.Fields.{node_from, record_of_node, operation_from, record_of_operation};

use crate::spelling::Record;
use records::{Code, Kind, Node, Operation, UnknownNumber};

// A record that is no well-formed node, or no well-formed operation.
#[derive(Clone, Copy, PartialEq, Eq, Debug)]
pub struct Misformed;

impl From<UnknownNumber> for Misformed {
    fn from(_: UnknownNumber) -> Misformed {
        Misformed
    }
}

impl TryFrom<Record> for Node {
    type Error = Misformed;

    ghost try_from_gives = { λ spelt node. node ≡ node_from spelt };

    fn try_from(spelt: Record) -> Result<Node, Misformed> {
        if spelt.spare != 0 {
            return Err(Misformed);
        }
        let node = Node {
            id: spelt.key,
            parent: spelt.link,
            kind: spelt.tag.try_into()?,
            name: spelt.name,
            value: spelt.value,
        };
        if node.is_formed() {
            Ok(node)
        } else {
            Err(Misformed)
        }
    }
}

impl TryFrom<Record> for Operation {
    type Error = Misformed;

    ghost try_from_gives = { λ spelt operation. operation ≡ operation_from spelt };

    fn try_from(spelt: Record) -> Result<Operation, Misformed> {
        if spelt.spare != 0 {
            return Err(Misformed);
        }
        let operation = Operation {
            target: spelt.key,
            code: spelt.tag.try_into()?,
            count: spelt.link,
            name: spelt.name,
            value: spelt.value,
        };
        if operation.is_formed() {
            Ok(operation)
        } else {
            Err(Misformed)
        }
    }
}

impl From<Node> for Record {
    ghost from_gives = { λ node spelt. spelt ≡ record_of_node node };

    fn from(node: Node) -> Record {
        Record {
            key: node.id,
            link: node.parent,
            tag: node.kind.into(),
            spare: 0,
            name: node.name,
            value: node.value,
        }
    }
}

impl From<Operation> for Record {
    ghost from_gives = { λ operation spelt. spelt ≡ record_of_operation operation };

    fn from(operation: Operation) -> Record {
        Record {
            key: operation.target,
            link: operation.count,
            tag: operation.code.into(),
            spare: 0,
            name: operation.name,
            value: operation.value,
        }
    }
}
