// A lent table that lists a document, or that is empty.
ghost use Rattle.sheet.specs.Sheets.{Lists};

use records::Node;

pub mod opening;
pub mod reading;

#[derive(Drop)]
pub struct Sheet<'a> {
    nodes: &'a [Node],
    ghost listed: { ∥ Lists nodes.now ∥₁ },
}
