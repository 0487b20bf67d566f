// Two kinds of entries: operations in the order of their turns, and rows by the identifier of their node.
ghost use Rattle.std.specs.Prelude.{◌≡◌, ◌≤◌, length};
ghost use Rattle.ordered.specs.Table.{Ascending};
ghost use Rattle.ordered.specs.declared.entries.Turn.{Turn as AnyTurn};
ghost use Rattle.ordered.specs.declared.entries.RowOf.{RowOf as AnyRow};
ghost use Rattle.ordered.specs.Entries.{by_turn, by_identifier, PlacedAt, Within, LookedUp};

use crate::find;

// When an operation has its turn: by the rank of its target, then by its code, then by its position.
#[derive(Clone, Copy, PartialEq, Eq, PartialOrd, Ord, Debug)]
pub struct Turn {
    pub rank: u32,
    // The number of a code. Whoever lends entries may lend any; a `Code` here would ask more of them.
    pub code: u8,
    pub position: u32,
}

// In which row the node with an identifier stands.
#[derive(Clone, Copy, PartialEq, Eq, PartialOrd, Ord, Debug, Default)]
pub struct RowOf {
    pub id: u32,
    pub row: usize,
}

// The orders by which tables of these entries ascend.
pub fn orders_of_entries()
    ensures turns { (a b : AnyTurn) → ⟦<Turn as Ord>⟧.cmp a b ≡ by_turn a b }
    ensures rows { (a b : AnyRow) → ⟦<RowOf as Ord>⟧.cmp a b ≡ by_identifier a b }
{}

// The place of the entry with an identifier; `None` where no used entry has the identifier.
pub fn place_of(table: &[RowOf], used: usize, id: u32) -> Option<usize>
    ensures within { Within table.now used result }
    ensures place { used ≤ length table.now → Ascending by_identifier used table.now → PlacedAt table.now used id result }
{
    let at = find(table, used, &RowOf { id, row: 0 });
    match table.get(at) {
        Some(entry) if at < used && entry.id == id => Some(at),
        _ => None,
    }
}

// The row of the node with an identifier; `None` where no used entry has the identifier.
pub fn row_of(table: &[RowOf], used: usize, id: u32) -> Option<usize>
    ensures { used ≤ length table.now → Ascending by_identifier used table.now → LookedUp table.now used id result }
{
    let at = place_of(table, used, id)?;
    Some(table[at].row)
}
