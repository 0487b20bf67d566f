// The lines of a session, one public call for each kind.
ghost use Rattle.std.specs.Prelude.{◌≡◌, IfOk, string_bytes};
ghost use Rattle.session.specs.Lines.{ok_line, refusal_line, node_line};

use faults::Report;
use records::Node;
use std::alloc::{AllocError, Global};

pub fn ok_line(heap: Global) -> Result<String, AllocError>
    ensures { IfOk result (λ s. string_bytes s ≡ ok_line) }
{
    String::from_str(heap, "ok\n")
}

// Number, layer and place of a refusal.
pub fn refusal_line(heap: Global, report: Report) -> Result<String, AllocError>
    ensures { IfOk result (λ s. string_bytes s ≡ refusal_line report) }
{
    format!(in heap; "no {report}\n")
}

// Depth, identifier, kind, name and value of a node.
pub fn node_line(heap: Global, depth: usize, node: Node) -> Result<String, AllocError>
    ensures { IfOk result (λ s. string_bytes s ≡ node_line depth node) }
{
    let Node {
        id,
        kind,
        name,
        value,
        ..
    } = node;
    format!(in heap; "{depth} {id} {} {name} {value}\n", u8::from(kind))
}
