// The text of a session.
ghost use Rattle.std.specs.Prelude.{◌≡◌, ◌≤◌, [], ◌++◌, length, IfOk, string_bytes};
ghost use Rattle.session.specs.Lines.{ok_line};
ghost use Rattle.session.specs.Outline.{lines_from};
ghost use Rattle.session.specs.Printed.{most_records, printed};

use crate::lines::{node_line, ok_line, refusal_line};
use crate::opening::open;
use crate::outline::stand;
use nodetable::{OpenElements, Slot};
use records::Node;
use std::alloc::{AllocError, Global};

// `ok`, and a line for each node of a table that lists a document.
fn document_text(heap: Global, nodes: &[Node], slots: &mut [Slot]) -> Result<String, AllocError>
    requires { length nodes.now ≤ length slots.old }
    ensures { IfOk result (λ s. string_bytes s ≡ ok_line ++ lines_from [] nodes.now) }
{
    let mut text = ok_line(heap)?;
    let mut elements = OpenElements::none(slots);
    for node in nodes {
        let depth = stand(node, &mut elements);
        let line = node_line(heap, depth, *node)?;
        text.push_str(line.as_str())?;
    }
    Ok(text)
}

// The whole text, worked out in the tables that are lent.
pub fn session_text(
    heap: Global,
    input: &[u8],
    nodes: &mut [Node],
    slots: &mut [Slot],
) -> Result<String, AllocError>
    requires table { length nodes.old ≡ most_records }
    requires scratch { length slots.old ≡ most_records }
    ensures { IfOk result (λ s. string_bytes s ≡ printed input.now) }
{
    match open(input, nodes, slots) {
        Ok(count) => document_text(heap, &nodes[..count], slots),
        Err(fault) => refusal_line(heap, fault.into()),
    }
}
