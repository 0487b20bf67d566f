// A whole session.
ghost use Rattle.std.specs.Prelude.{◌≡◌, IfOk, vec_len, string_bytes};
ghost use Rattle.session.specs.Printed.{most_records, printed};

use crate::text::session_text;
use nodetable::Slot;
use records::Node;
use std::alloc::{AllocError, Global};

// The longest input, in bytes.
pub const LONGEST: usize = 65536;

// The most nodes that a document may have.
pub const ROOM: usize = 1000;

// As many records as the longest input can hold, so that the table is never too short for one that is not too long.
const MOST_RECORDS: usize = LONGEST / 16;

// The tables that a session works in.
fn tables(heap: Global) -> Result<(Vec<Node>, Vec<Slot>), AllocError>
    ensures { IfOk result (λ t. (vec_len t.0 ≡ most_records) × (vec_len t.1 ≡ most_records)) }
{
    let nodes = vec![in heap; Node::default(); MOST_RECORDS]?;
    let slots = vec![in heap; Slot::EMPTY; MOST_RECORDS]?;
    Ok((nodes, slots))
}

// What a session prints of its input: `ok` and the document's nodes, or why not.
pub fn print(heap: Global, input: &[u8]) -> Result<String, AllocError>
    ensures { IfOk result (λ s. string_bytes s ≡ printed input.now) }
{
    let (mut nodes, mut slots) = tables(heap)?;
    session_text(heap, input, &mut nodes, &mut slots)
}
