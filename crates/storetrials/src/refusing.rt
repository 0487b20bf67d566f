// Every refusal of the writes, in the order of the tests; none of them changes the listing.
use crate::nodes::{attribute, element, listed, number, text};
use std::process::Abort;
use store::Writing;

// On a store that is empty.
pub fn refuse_empty<S: Writing>(rt: &impl Abort, store: &mut S) {
    assert_eq!(rt; number(store.put(element(0, 0, 1), 0)), 3);
    assert_eq!(rt; number(store.put(text(1, 0, 0), 0)), 12);
    assert_eq!(rt; number(store.put(element(1, 0, 1), 2)), 12);
    assert_eq!(rt; number(store.put(element(1, 2, 1), 0)), 12);
    assert_eq!(rt; number(store.take(1)), 11);
    assert_eq!(rt; number(store.rename(1, 0)), 11);
    assert_eq!(rt; number(store.set_value(1, 0)), 11);
    assert_eq!(rt; listed(store), [0; 8]);
}

// On the frame with its pump.
pub fn refuse_put<S: Writing>(rt: &impl Abort, store: &mut S) {
    assert_eq!(rt; number(store.put(element(1, 0, 0), 9)), 3);
    assert_eq!(rt; number(store.put(text(7, 1, 0), 2)), 12);
    assert_eq!(rt; number(store.put(element(1, 9, 1), 9)), 8);
    assert_eq!(rt; number(store.put(element(2, 0, 1), 0)), 8);
    assert_eq!(rt; number(store.put(element(7, 0, 1), 0)), 12);
    assert_eq!(rt; number(store.put(element(7, 4, 1), 0)), 12);
    assert_eq!(rt; number(store.put(element(7, 2, 1), 0)), 12);
    assert_eq!(rt; number(store.put(element(7, 1, 1), 4)), 12);
    assert_eq!(rt; number(store.put(attribute(7, 1, 1, 0), 3)), 12);
    assert_eq!(rt; listed(store), [1, 2, 3, 4, 5, 6, 0, 0]);
}

pub fn refuse_others<S: Writing>(rt: &impl Abort, store: &mut S) {
    assert_eq!(rt; number(store.take(7)), 11);
    assert_eq!(rt; number(store.take(3)), 12);
    assert_eq!(rt; number(store.take(1)), 12);
    assert_eq!(rt; number(store.rename(7, 0)), 11);
    assert_eq!(rt; number(store.rename(4, 0)), 12);
    assert_eq!(rt; number(store.rename(2, 0)), 3);
    assert_eq!(rt; number(store.set_value(7, 1)), 11);
    assert_eq!(rt; number(store.set_value(3, 1)), 12);
    assert_eq!(rt; listed(store), [1, 2, 3, 4, 5, 6, 0, 0]);
}

// On a store with room for three: full at three and not before, and a fault of the node comes first.
pub fn refuse_full<S: Writing>(rt: &impl Abort, store: &mut S) {
    assert_eq!(rt; store.room(), 3);
    assert_eq!(rt; number(store.put(element(1, 0, 1), 0)), 0);
    assert_eq!(rt; number(store.put(attribute(2, 1, 1, 0), 0)), 0);
    assert_eq!(rt; number(store.put(text(3, 1, 0), 0)), 0);
    assert_eq!(rt; number(store.put(text(4, 1, 0), 3)), 15);
    assert_eq!(rt; number(store.put(text(4, 1, 0), 9)), 12);
    assert_eq!(rt; listed(store), [1, 2, 3, 0, 0, 0, 0, 0]);
    assert_eq!(rt; number(store.take(3)), 0);
    assert_eq!(rt; number(store.put(text(4, 1, 0), 0)), 0);
    assert_eq!(rt; listed(store), [1, 2, 4, 0, 0, 0, 0, 0]);
}
