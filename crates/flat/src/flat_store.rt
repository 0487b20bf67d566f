// The store: the first `used` rows list the document, and the first `used` entries of the index say by identifier which row is whose.
ghost use Rattle.std.specs.Prelude.{◌≡◌, ◌≤◌, vec_len};
ghost use Rattle.flat.specs.Means.{Stored};

use crate::rows::FlatRow;
use ordered::RowOf;

mod judging;
mod making;
mod reading;
mod spots;
mod writing;

pub use making::ROOM;

#[derive(Drop)]
pub struct FlatStore {
    rows: Vec<FlatRow>,
    index: Vec<RowOf>,
    used: usize,
    ghost within: { used ≤ vec_len rows },
    ghost level: { vec_len index ≡ vec_len rows },
    ghost stored: { ∥ Stored rows.items index.items used ∥₁ },
}
