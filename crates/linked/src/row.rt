// A node with the identifiers of its neighbours, 0 for none.
ghost use Rattle.std.specs.Prelude.{◌≡◌};
ghost use Rattle.linked.specs.Rows.{with_first, with_next, next_among, siblings_of, row_among};

use records::{Kind, Node};

#[derive(Clone, Copy, Default)]
pub struct Row {
    pub node: Node,
    pub left: u32,
    pub first_child: u32,
    pub next_sibling: u32,
    pub first_attribute: u32,
    pub next_attribute: u32,
}

// Nodes of one parent that lead to one another.
#[derive(Clone, Copy)]
pub enum Siblings {
    Children,
    Attributes,
}

impl Siblings {
    // Among which siblings a node of a kind stands.
    pub fn of(kind: Kind) -> Siblings
        ensures { result ≡ siblings_of kind }
    {
        match kind {
            Kind::Attribute => Siblings::Attributes,
            _ => Siblings::Children,
        }
    }
}

impl Row {
    // The row of a node without children and attributes, behind `left`; `next` stands behind it among its siblings.
    pub fn among(among: Siblings, node: Node, left: u32, next: u32) -> Row
        ensures { result ≡ row_among among node left next }
    {
        let bare = Row {
            node,
            left,
            ..Row::default()
        };
        bare.with_next(among, next)
    }

    // The one behind it among its siblings.
    pub fn next_among(self, among: Siblings) -> u32
        ensures { result ≡ next_among among self }
    {
        match among {
            Siblings::Children => self.next_sibling,
            Siblings::Attributes => self.next_attribute,
        }
    }

    // The row of a parent that leads to another first one of these siblings.
    pub fn with_first(self, among: Siblings, first: u32) -> Row
        ensures { result ≡ with_first among first self }
    {
        match among {
            Siblings::Children => Row {
                first_child: first,
                ..self
            },
            Siblings::Attributes => Row {
                first_attribute: first,
                ..self
            },
        }
    }

    // The row of one of these siblings that leads to another next one.
    pub fn with_next(self, among: Siblings, next: u32) -> Row
        ensures { result ≡ with_next among next self }
    {
        match among {
            Siblings::Children => Row {
                next_sibling: next,
                ..self
            },
            Siblings::Attributes => Row {
                next_attribute: next,
                ..self
            },
        }
    }
}
