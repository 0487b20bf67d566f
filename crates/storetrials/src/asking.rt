// Every question about the frame with its pump.
use crate::nodes::{asked, labelled, placed};
use std::process::Abort;
use store::Reading;

pub fn ask_neighbours<R: Reading>(rt: &impl Abort, store: &R) {
    assert_eq!(rt; store.len(), 6);
    assert_eq!(rt; store.root(), 1);
    assert_eq!(rt; asked(store.first_child(1)), (0, 3));
    assert_eq!(rt; asked(store.first_child(3)), (0, 4));
    assert_eq!(rt; asked(store.first_child(6)), (0, 0));
    assert_eq!(rt; asked(store.next_sibling(3)), (0, 5));
    assert_eq!(rt; asked(store.next_sibling(6)), (0, 0));
    assert_eq!(rt; asked(store.next_sibling(2)), (0, 0));
    assert_eq!(rt; asked(store.first_attribute(1)), (0, 2));
    assert_eq!(rt; asked(store.first_attribute(5)), (0, 0));
    assert_eq!(rt; asked(store.next_attribute(2)), (0, 0));
}

pub fn ask_places<R: Reading>(rt: &impl Abort, store: &R) {
    assert_eq!(rt; placed(store.place(1)), (0, 0, 0));
    assert_eq!(rt; placed(store.place(2)), (0, 1, 0));
    assert_eq!(rt; placed(store.place(3)), (0, 1, 0));
    assert_eq!(rt; placed(store.place(6)), (0, 1, 5));
    assert_eq!(rt; labelled(store.node(2)), (0, 20, 7));
    assert_eq!(rt; labelled(store.node(4)), (0, 0, 500));
}

// A node that is absent, and 0, which is none.
pub fn ask_absent<R: Reading>(rt: &impl Abort, store: &R, id: u32) {
    assert_eq!(rt; labelled(store.node(id)), (11, 0, 0));
    assert_eq!(rt; asked(store.first_child(id)), (11, 0));
    assert_eq!(rt; asked(store.next_sibling(id)), (11, 0));
    assert_eq!(rt; asked(store.first_attribute(id)), (11, 0));
    assert_eq!(rt; asked(store.next_attribute(id)), (11, 0));
    assert_eq!(rt; placed(store.place(id)), (11, 0, 0));
}
