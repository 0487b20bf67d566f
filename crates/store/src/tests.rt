// The tests of the four writes, for every store: they ask questions only.
ghost use Rattle.std.specs.Prelude.{◌≡◌};
ghost use Rattle.store.specs.Says.{fits_root, fits_below, fits as node_fits, put_says, take_says, rename_says, set_value_says};

use crate::kin::is_child;
use crate::reading::Reading;
use faults::StoreFault;
use records::{Kind, Node};

fn fits_root<R: Reading>(store: &R, node: Node, left: u32) -> bool
    ensures { result ≡ fits_root (R.Reading.forest store.now) node left }
{
    store.len() == 0 && node.kind == Kind::Element && left == 0
}

fn fits_below<R: Reading>(store: &R, node: Node, left: u32) -> bool
    ensures { result ≡ fits_below (R.Reading.forest store.now) node left }
{
    let child = |row: Node| is_child(&row, node.parent);
    let parent = store.node(node.parent);
    parent.is_ok_and(|row| row.kind == Kind::Element)
        && (left == 0 || node.kind != Kind::Attribute && store.node(left).is_ok_and(child))
}

fn fits<R: Reading>(store: &R, node: Node, left: u32) -> bool
    ensures { result ≡ node_fits (R.Reading.forest store.now) node left }
{
    if node.parent == 0 {
        fits_root(store, node, left)
    } else {
        fits_below(store, node, left)
    }
}

pub fn test_put<R: Reading>(store: &R, node: Node, left: u32) -> Result<(), StoreFault>
    ensures { result ≡ put_says (R.Reading.limit store.now) (R.Reading.forest store.now) node left }
{
    if !node.is_formed() {
        return Err(StoreFault::Misformed);
    }
    if store.node(node.id).is_ok() {
        return Err(StoreFault::Known);
    }
    if !fits(store, node, left) {
        return Err(StoreFault::Unsuited);
    }
    if store.len() == store.room() {
        return Err(StoreFault::Full);
    }
    Ok(())
}

pub fn test_take<R: Reading>(store: &R, id: u32) -> Result<(), StoreFault>
    ensures { result ≡ take_says (R.Reading.forest store.now) id }
{
    if store.first_child(id)? == 0 && store.first_attribute(id)? == 0 {
        Ok(())
    } else {
        Err(StoreFault::Unsuited)
    }
}

pub fn test_rename<R: Reading>(store: &R, id: u32, name: u16) -> Result<(), StoreFault>
    ensures { result ≡ rename_says (R.Reading.forest store.now) id name }
{
    let node = store.node(id)?;
    if node.kind == Kind::Text {
        return Err(StoreFault::Unsuited);
    }
    if name == 0 {
        return Err(StoreFault::Misformed);
    }
    Ok(())
}

pub fn test_set_value<R: Reading>(store: &R, id: u32) -> Result<(), StoreFault>
    ensures { result ≡ set_value_says (R.Reading.forest store.now) id }
{
    let node = store.node(id)?;
    if node.kind == Kind::Element {
        return Err(StoreFault::Unsuited);
    }
    Ok(())
}
