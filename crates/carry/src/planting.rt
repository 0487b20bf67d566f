// Trees put into a store row by row.
ghost use Rattle.std.specs.Prelude.{◌≡◌, cond, []};
ghost use Rattle.store.specs.Listed.{child_row, last_from};
ghost use Rattle.carry.specs.Planting.{placed as placed_below, left_for, plant_says, plant_leaves};

use faults::StoreFault;
use records::{Kind, Node};
use store::{Writing, is_child};

// The last child of `parent` among the rows, or else `left`.
fn last_child(rows: &[Node], parent: u32, left: u32) -> u32
    ensures { result ≡ last_from (child_row parent) left rows.now }
{
    rows.iter()
        .rev()
        .find(|row| is_child(row, parent))
        .map_or(left, |row| row.id)
}

// Behind which node a row comes, after the rows before it.
fn left_of(before: &[Node], left: u32, row: Node) -> u32
    ensures { result ≡ left_for left before.now row }
{
    match row.kind {
        Kind::Attribute => 0,
        _ => last_child(before, row.parent, if row.parent == 0 { left } else { 0 }),
    }
}

// Roots come below `parent`.
fn placed(parent: u32, row: Node) -> Node
    ensures { result ≡ placed_below parent row }
{
    if row.parent == 0 {
        Node { parent, ..row }
    } else {
        row
    }
}

// Puts rows of trees in below `parent` and behind `left`, or first where that is 0. The first refusal ends it.
pub fn plant<S: Writing>(
    store: &mut S,
    parent: u32,
    left: u32,
    rows: &[Node],
) -> Result<(), StoreFault>
    ensures says { result ≡ plant_says (S.Reading.limit store.old) parent left [] rows.now (S.Reading.forest store.old) }
    ensures leaves { S.Reading.forest store.new ≡ plant_leaves (S.Reading.limit store.old) parent left [] rows.now (S.Reading.forest store.old) }
    ensures room { S.Reading.limit store.new ≡ S.Reading.limit store.old }
{
    for (place, row) in rows.iter().enumerate() {
        let behind = left_of(&rows[..place], left, *row);
        store.put(placed(parent, *row), behind)?;
    }
    Ok(())
}

// Puts the rows of a document into a store.
pub fn load<S: Writing>(store: &mut S, rows: &[Node]) -> Result<(), StoreFault>
    ensures says { result ≡ plant_says (S.Reading.limit store.old) 0 0 [] rows.now (S.Reading.forest store.old) }
    ensures leaves { S.Reading.forest store.new ≡ plant_leaves (S.Reading.limit store.old) 0 0 [] rows.now (S.Reading.forest store.old) }
    ensures room { S.Reading.limit store.new ≡ S.Reading.limit store.old }
{
    plant(store, 0, 0, rows)
}
