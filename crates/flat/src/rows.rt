// A row of the store: a node with the distance to its parent's row and the number of rows of its subtree.
use records::Node;

#[derive(Clone, Copy, Default)]
pub struct FlatRow {
    pub node: Node,
    pub distance: usize,
    pub size: usize,
}

// Where a new row comes to stand: at a place, below the row of its parent.
#[derive(Clone, Copy)]
pub struct Spot {
    pub parent: usize,
    pub place: usize,
}
