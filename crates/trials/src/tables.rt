// Ordered tables.
use ordered::{RowOf, Turn, find, insert, remove, row_of};

fn entry(id: u32, row: usize) -> RowOf {
    RowOf { id, row }
}

#[test]
fn rows_stay_in_order(rt: HostRuntime) {
    let mut table = [entry(0, 0); 3];
    assert_eq!(rt; insert(&mut table, 0, entry(5, 1)), Some(0));
    assert_eq!(rt; insert(&mut table, 1, entry(9, 2)), Some(1));
    assert_eq!(rt; insert(&mut table, 2, entry(2, 7)), Some(0));
    assert_eq!(rt; insert(&mut table, 3, entry(1, 1)), None);
    assert_eq!(rt; row_of(&table, 3, 5), Some(1));
    assert_eq!(rt; row_of(&table, 3, 6), None);
    assert_eq!(rt; remove(&mut table, 3, 1), Some(entry(5, 1)));
    assert_eq!(rt; row_of(&table, 2, 9), Some(2));
    assert_eq!(rt; row_of(&table, 2, 5), None);
    assert_eq!(rt; remove(&mut table, 2, 2), None);
}

fn turn(rank: u32, code: u8, position: u32) -> Turn {
    Turn {
        rank,
        code,
        position,
    }
}

#[test]
fn turns_by_rank_code_position(rt: HostRuntime) {
    let mut table = [turn(0, 0, 0); 2];
    assert_eq!(rt; insert(&mut table, 0, turn(3, 12, 4)), Some(0));
    assert_eq!(rt; insert(&mut table, 1, turn(3, 12, 2)), Some(0));
    assert_eq!(rt; insert(&mut table, 2, turn(1, 12, 2)), None);
    assert_eq!(rt; find(&table, 2, &turn(3, 13, 0)), 2);
}
