// One sequence of writes, and the listing that it leads to on every store.
use crate::nodes::{attribute, element, labelled, listed, number, text};
use std::process::Abort;
use store::Writing;

// A frame with its length; a pump with a note, a valve and a pipe.
pub fn build<S: Writing>(rt: &impl Abort, store: &mut S) {
    assert_eq!(rt; number(store.put(element(1, 0, 10), 0)), 0);
    assert_eq!(rt; number(store.put(element(5, 1, 11), 0)), 0);
    assert_eq!(rt; number(store.put(attribute(2, 1, 20, 7), 0)), 0);
    assert_eq!(rt; number(store.put(element(3, 1, 11), 0)), 0);
    assert_eq!(rt; number(store.put(element(6, 1, 12), 5)), 0);
    assert_eq!(rt; number(store.put(text(4, 3, 500), 0)), 0);
    assert_eq!(rt; listed(store), [1, 2, 3, 4, 5, 6, 0, 0]);
}

// Attributes stand by identifier, children where they are put; what is taken out leaves its neighbours together.
pub fn rebuild<S: Writing>(rt: &impl Abort, store: &mut S) {
    assert_eq!(rt; number(store.put(attribute(9, 1, 20, 1), 0)), 0);
    assert_eq!(rt; number(store.put(text(7, 1, 0), 3)), 0);
    assert_eq!(rt; listed(store), [1, 2, 9, 3, 4, 7, 5, 6]);
    assert_eq!(rt; number(store.take(4)), 0);
    assert_eq!(rt; number(store.take(3)), 0);
    assert_eq!(rt; number(store.take(2)), 0);
    assert_eq!(rt; listed(store), [1, 9, 7, 5, 6, 0, 0, 0]);
    assert_eq!(rt; number(store.take(5)), 0);
    assert_eq!(rt; number(store.put(element(3, 1, 11), 6)), 0);
    assert_eq!(rt; listed(store), [1, 9, 7, 6, 3, 0, 0, 0]);
}

pub fn relabel<S: Writing>(rt: &impl Abort, store: &mut S) {
    assert_eq!(rt; number(store.rename(1, 30)), 0);
    assert_eq!(rt; number(store.rename(9, 31)), 0);
    assert_eq!(rt; number(store.set_value(9, 32)), 0);
    assert_eq!(rt; number(store.set_value(7, 33)), 0);
    assert_eq!(rt; labelled(store.node(1)), (0, 30, 0));
    assert_eq!(rt; labelled(store.node(9)), (0, 31, 32));
    assert_eq!(rt; labelled(store.node(7)), (0, 0, 33));
    assert_eq!(rt; listed(store), [1, 9, 7, 6, 3, 0, 0, 0]);
}

// Down to nothing, and up again under another root.
pub fn empty_out<S: Writing>(rt: &impl Abort, store: &mut S) {
    assert_eq!(rt; number(store.take(9)), 0);
    assert_eq!(rt; number(store.take(7)), 0);
    assert_eq!(rt; number(store.take(3)), 0);
    assert_eq!(rt; number(store.take(6)), 0);
    assert_eq!(rt; number(store.take(1)), 0);
    assert_eq!(rt; listed(store), [0; 8]);
    assert_eq!(rt; store.root(), 0);
    assert_eq!(rt; number(store.put(element(8, 0, 1), 0)), 0);
    assert_eq!(rt; listed(store), [8, 0, 0, 0, 0, 0, 0, 0]);
}
