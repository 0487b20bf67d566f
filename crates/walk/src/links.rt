// The neighbours of a node as plain numbers: 0 for none, and for every neighbour of a node that is absent.
ghost use Rattle.std.specs.Prelude.{◌≡◌};
ghost use Rattle.store.specs.Links.{link_of};
ghost use Rattle.store.specs.Views.{view};

use store::Reading;

pub fn parent<R: Reading>(store: &R, id: u32) -> u32
    ensures { result ≡ link_of (λ v. v.row.parent) (view (R.Reading.forest store.now) id) }
{
    store.place(id).map_or(0, |(parent, _)| parent)
}

pub fn first_child<R: Reading>(store: &R, id: u32) -> u32
    ensures { result ≡ link_of (λ v. v.first_child) (view (R.Reading.forest store.now) id) }
{
    store.first_child(id).unwrap_or(0)
}

pub fn next_sibling<R: Reading>(store: &R, id: u32) -> u32
    ensures { result ≡ link_of (λ v. v.next_sibling) (view (R.Reading.forest store.now) id) }
{
    store.next_sibling(id).unwrap_or(0)
}

pub fn first_attribute<R: Reading>(store: &R, id: u32) -> u32
    ensures { result ≡ link_of (λ v. v.first_attribute) (view (R.Reading.forest store.now) id) }
{
    store.first_attribute(id).unwrap_or(0)
}

pub fn next_attribute<R: Reading>(store: &R, id: u32) -> u32
    ensures { result ≡ link_of (λ v. v.next_attribute) (view (R.Reading.forest store.now) id) }
{
    store.next_attribute(id).unwrap_or(0)
}
