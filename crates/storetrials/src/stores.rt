// The trials on each store.
use crate::asking::{ask_absent, ask_neighbours, ask_places};
use crate::building::{build, empty_out, rebuild, relabel};
use crate::nodes::{attribute, element, text};
use crate::refusing::{refuse_empty, refuse_full, refuse_others, refuse_put};
use faults::Report;
use flat::FlatStore;
use linked::LinkedStore;
use nodetable::Slot;
use records::Node;
use sheet::Sheet;
use std::process::Abort;
use std::test::Fail;
use store::Writing;

// A store from empty to empty.
fn all_writes<S: Writing>(rt: &impl Abort, store: &mut S) {
    ask_absent(rt, store, 0);
    ask_absent(rt, store, 1);
    refuse_empty(rt, store);
    build(rt, store);
    ask_neighbours(rt, store);
    ask_places(rt, store);
    ask_absent(rt, store, 7);
    refuse_put(rt, store);
    refuse_others(rt, store);
    rebuild(rt, store);
    relabel(rt, store);
    empty_out(rt, store);
}

#[test]
fn linked_store(rt: HostRuntime) -> Result<(), Fail> {
    let mut store = LinkedStore::new(rt.alloc())?;
    all_writes(&rt, &mut store);
    let mut small = LinkedStore::with_room(rt.alloc(), 3)?;
    refuse_full(&rt, &mut small);
    Ok(())
}

#[test]
fn flat_store(rt: HostRuntime) -> Result<(), Fail> {
    let mut store = FlatStore::new(rt.alloc())?;
    all_writes(&rt, &mut store);
    let mut small = FlatStore::with_room(rt.alloc(), 3)?;
    refuse_full(&rt, &mut small);
    Ok(())
}

// A room that no memory has is refused at once, before a row is made.
#[test]
fn room_beyond_memory(rt: HostRuntime) {
    assert!(rt; LinkedStore::with_room(rt.alloc(), usize::MAX).is_err());
    assert!(rt; FlatStore::with_room(rt.alloc(), usize::MAX).is_err());
}

// The frame with its pump, as a table.
fn frame() -> [Node; 6] {
    [
        element(1, 0, 10),
        attribute(2, 1, 20, 7),
        element(3, 1, 11),
        text(4, 3, 500),
        element(5, 1, 11),
        element(6, 1, 12),
    ]
}

#[test]
fn sheet(rt: HostRuntime) {
    let nodes = frame();
    let mut slots = [Slot::EMPTY; 6];
    let (sheet, answer) = Sheet::open(&nodes, &mut slots);
    assert!(rt; answer.is_ok());
    ask_neighbours(&rt, &sheet);
    ask_places(&rt, &sheet);
    ask_absent(&rt, &sheet, 0);
    ask_absent(&rt, &sheet, 7);
}

// A table that is refused makes a sheet without nodes.
#[test]
fn refused_sheet(rt: HostRuntime) -> Result<(), Fail> {
    let nodes = [element(1, 0, 10), element(1, 1, 11)];
    let mut slots = [Slot::EMPTY; 2];
    let (sheet, answer) = Sheet::open(&nodes, &mut slots);
    match answer {
        Ok(()) => return Err(Fail::new("accepted")),
        Err(fault) => assert_eq!(rt; Report::from(fault).number, 4),
    }
    ask_absent(&rt, &sheet, 1);
    Ok(())
}

// The same as a result: a sheet, or the fault alone.
#[test]
fn sheet_or_fault(rt: HostRuntime) -> Result<(), Fail> {
    let nodes = frame();
    let mut slots = [Slot::EMPTY; 6];
    let Ok(sheet) = Sheet::try_open(&nodes, &mut slots) else {
        return Err(Fail::new("refused"));
    };
    ask_neighbours(&rt, &sheet);
    ask_places(&rt, &sheet);
    ask_absent(&rt, &sheet, 0);
    ask_absent(&rt, &sheet, 7);
    let twice = [element(1, 0, 10), element(1, 1, 11)];
    match Sheet::try_open(&twice, &mut slots[..2]) {
        Ok(_) => return Err(Fail::new("accepted")),
        Err(fault) => assert_eq!(rt; Report::from(fault).number, 4),
    }
    ask_absent(&rt, &Sheet::empty(), 1);
    Ok(())
}
