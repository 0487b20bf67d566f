// Nodes, and answers as numbers: 0 where a call was accepted, else the refusal's.
use faults::{Report, StoreFault};
use records::{Kind, Node};
use store::Reading;
use walk::list;

pub fn element(id: u32, parent: u32, name: u16) -> Node {
    Node {
        id,
        parent,
        kind: Kind::Element,
        name,
        value: 0,
    }
}

pub fn attribute(id: u32, parent: u32, name: u16, value: u32) -> Node {
    Node {
        id,
        parent,
        kind: Kind::Attribute,
        name,
        value,
    }
}

pub fn text(id: u32, parent: u32, value: u32) -> Node {
    Node {
        id,
        parent,
        kind: Kind::Text,
        name: 0,
        value,
    }
}

pub fn number(answer: Result<(), StoreFault>) -> u8 {
    match answer {
        Ok(()) => 0,
        Err(fault) => Report::from(fault).number,
    }
}

pub fn asked(answer: Result<u32, StoreFault>) -> (u8, u32) {
    match answer {
        Ok(id) => (0, id),
        Err(fault) => (Report::from(fault).number, 0),
    }
}

pub fn placed(answer: Result<(u32, u32), StoreFault>) -> (u8, u32, u32) {
    match answer {
        Ok((parent, left)) => (0, parent, left),
        Err(fault) => (Report::from(fault).number, 0, 0),
    }
}

// Name and value of a node.
pub fn labelled(answer: Result<Node, StoreFault>) -> (u8, u16, u32) {
    match answer {
        Ok(node) => (0, node.name, node.value),
        Err(fault) => (Report::from(fault).number, 0, 0),
    }
}

// The identifiers of a document of at most eight nodes, in document order; 0 behind the last.
pub fn listed<R: Reading>(store: &R) -> [u32; 8] {
    let mut table = [element(0, 0, 0); 8];
    let _ = list(store, &mut table);
    let mut ids = [0; 8];
    for i in 0..8 {
        ids[i] = table[i].id;
    }
    ids
}
