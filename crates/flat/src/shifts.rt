// Rows and entries that make room, or close up. Each table comes whole, with the number of its entries in use: a new one takes the place behind them.
ghost use Rattle.std.specs.Prelude.{◌≡◌, ℕ, ◌+◌, ◌^◌, ◌<◌, ◌≤◌, length};
ghost use Rattle.flat.specs.Means.{at, entry as entry_at};
ghost use Rattle.flat.specs.Shifts.{CanChange, EachChanged, shrunk as shrinks, drawn as draws, lowered as lowers, grown as grows, lifted as lifts, raised as raises, Taken, Unlisted, Planted, Enlisted};

use crate::rows::{FlatRow, Spot};
use ordered::{RowOf, insert, remove};
use records::Node;

// Changes each entry by its place.
fn change_each<T: Copy, F: Fn(usize, T) -> T>(table: &mut [T], change: F)
    requires { CanChange (F.pre change) table.old }
    ensures { EachChanged (F.post change) table.old table.new }
{
    for (place, entry) in table.iter_mut().enumerate() {
        *entry = change(place, *entry);
    }
}

// The row at `place`, smaller by one if it counts the row that goes.
fn shrunk(row: FlatRow, place: usize, gone: usize) -> FlatRow
    requires { place ≤ gone }
    ensures { result ≡ shrinks gone place row }
{
    if gone - place < row.size {
        FlatRow {
            size: row.size - 1,
            ..row
        }
    } else {
        row
    }
}

// The row at `place`, which moves down by one: nearer to its parent if that stands before the row that goes.
fn drawn(row: FlatRow, place: usize, gone: usize) -> FlatRow
    requires { (0 < row.distance) × (row.distance ≤ place) }
    ensures { result ≡ draws gone place row }
{
    if place - row.distance < gone {
        FlatRow {
            distance: row.distance - 1,
            ..row
        }
    } else {
        row
    }
}

fn lowered(entry: RowOf, gone: usize) -> RowOf
    ensures { result ≡ lowers gone entry }
{
    if gone < entry.row {
        RowOf {
            row: entry.row - 1,
            ..entry
        }
    } else {
        entry
    }
}

// Takes the row that goes out of the first `used` rows.
pub fn take_out(rows: &mut [FlatRow], used: usize, gone: usize)
    requires within { (gone < used) × (used ≤ length rows.old) }
    requires distances { (k : ℕ) → 0 < k → k < used → (0 < (at rows.old k).distance) × ((at rows.old k).distance ≤ k) }
    ensures { Taken rows.old used gone rows.new }
{
    change_each(&mut rows[..gone], |place, row| shrunk(row, place, gone));
    change_each(&mut rows[gone + 1..used], |behind, row| {
        drawn(row, gone + 1 + behind, gone)
    });
    rows.copy_within(gone + 1..used, gone);
}

// Takes the entry of the row that goes out of the first `used` entries; where there is none, none goes.
pub fn unlist(index: &mut [RowOf], used: usize, gone: usize)
    requires { used ≤ length index.old }
    ensures { Unlisted index.old used gone index.new }
{
    let place = index[..used]
        .iter()
        .position(|entry| entry.row == gone)
        .unwrap_or(used);
    change_each(&mut index[..used], |_, entry| lowered(entry, gone));
    let _ = remove(index, used, place);
}

// The row at `place`, larger by one if it counts the row `parent`.
fn grown(row: FlatRow, place: usize, parent: usize) -> FlatRow
    requires { row.size + 1 < 2 ^ 64 }
    ensures { result ≡ grows parent place row }
{
    if place <= parent && parent - place < row.size {
        FlatRow {
            size: row.size + 1,
            ..row
        }
    } else {
        row
    }
}

// The row at `place`, which moves up by one: farther from its parent if that stands before the row that comes.
fn lifted(row: FlatRow, place: usize, new: usize) -> FlatRow
    requires { (row.distance ≤ place) × (place + 1 < 2 ^ 64) }
    ensures { result ≡ lifts new place row }
{
    if place - row.distance < new {
        FlatRow {
            distance: row.distance + 1,
            ..row
        }
    } else {
        row
    }
}

fn raised(entry: RowOf, new: usize) -> RowOf
    requires { entry.row + 1 < 2 ^ 64 }
    ensures { result ≡ raises new entry }
{
    if new <= entry.row {
        RowOf {
            row: entry.row + 1,
            ..entry
        }
    } else {
        entry
    }
}

// Puts a row for `node` at a spot among the first `used` rows.
pub fn put_in(rows: &mut [FlatRow], used: usize, spot: Spot, node: Node)
    requires within { (spot.parent ≤ spot.place) × (spot.place ≤ used) × (used < length rows.old) }
    requires sizes { (m : ℕ) → m < spot.place → (at rows.old m).size + 1 < 2 ^ 64 }
    requires distances { (k : ℕ) → spot.place ≤ k → k < used → (at rows.old k).distance ≤ k }
    ensures { Planted rows.old used spot.place spot.parent node rows.new }
{
    change_each(&mut rows[..spot.place], |place, row| {
        grown(row, place, spot.parent)
    });
    change_each(&mut rows[spot.place..used], |behind, row| {
        lifted(row, spot.place + behind, spot.place)
    });
    rows.copy_within(spot.place..used, spot.place + 1);
    rows[spot.place] = FlatRow {
        node,
        distance: spot.place - spot.parent,
        size: 1,
    };
}

// Puts an entry among the first `used` entries.
pub fn enlist(index: &mut [RowOf], used: usize, entry: RowOf)
    requires within { used ≤ length index.old }
    requires rows { (k : ℕ) → k < used → (entry_at index.old k).row + 1 < 2 ^ 64 }
    ensures { Enlisted index.old used entry index.new }
{
    change_each(&mut index[..used], |_, old| raised(old, entry.row));
    // A full index refuses the entry; whoever calls has tested the room.
    let _ = insert(index, used, entry);
}
