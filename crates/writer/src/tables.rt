// The tests on tables before they are written.
ghost use Rattle.std.specs.Prelude.{◌≡◌, [], length, None};
ghost use Rattle.changes.specs.Tables.{miscounted_from, first_operation, misformed};
ghost use Rattle.writer.specs.Scans.{counts_from, formed_with};
ghost use Rattle.writer.specs.Writing.{tested_nodes, tested_list, tested_room};

use faults::{DocumentFault, FileFault, ListFault};
use nodetable::first_misformed;
use records::{Node, Operation};

// The first operation that counts more than are left of so many nodes, or the number of operations where some are left over.
fn scan_counts(operations: &[Operation], nodes: usize) -> Option<usize>
    ensures { result ≡ counts_from 0 operations.now nodes }
{
    let mut left = nodes;
    for (place, operation) in operations.iter().enumerate() {
        let count = operation.count as usize;
        if left < count {
            return Some(place);
        }
        left -= count;
    }
    if left == 0 {
        None
    } else {
        Some(operations.len())
    }
}

// The first operation that counts more nodes than are left, or the number of operations where nodes are left over.
fn first_miscounted(operations: &[Operation], nodes: &[Node]) -> Option<usize>
    ensures { result ≡ miscounted_from 0 operations.now nodes.now }
{
    scan_counts(operations, nodes.len())
}

// The first operation that is misformed, or has a misformed node.
fn first_misformed_operation(operations: &[Operation], nodes: &[Node]) -> Option<usize>
    requires { miscounted_from 0 operations.now nodes.now ≡ None }
    ensures { result ≡ first_operation misformed [] 0 operations.now nodes.now }
{
    let mut rest = nodes;
    for (place, operation) in operations.iter().enumerate() {
        let (own, behind) = rest.split_at(operation.count as usize);
        if !is_formed_with(*operation, own) {
            return Some(place);
        }
        rest = behind;
    }
    None
}

// Whether an operation and all its nodes are well formed.
fn is_formed_with(operation: Operation, nodes: &[Node]) -> bool
    ensures { result ≡ formed_with operation nodes.now }
{
    operation.is_formed() && first_misformed(nodes).is_none()
}

pub fn test_nodes(nodes: &[Node]) -> Result<(), DocumentFault>
    ensures { result ≡ tested_nodes nodes.now }
{
    match first_misformed(nodes) {
        Some(place) => Err(DocumentFault::Misformed(place)),
        None => Ok(()),
    }
}

pub fn test_tables(operations: &[Operation], nodes: &[Node]) -> Result<(), ListFault>
    ensures { result ≡ tested_list operations.now nodes.now }
{
    if let Some(place) = first_miscounted(operations, nodes) {
        return Err(ListFault::Structure(place));
    }
    match first_misformed_operation(operations, nodes) {
        Some(place) => Err(ListFault::Misformed(place)),
        None => Ok(()),
    }
}

// Whether a byte table takes so many records.
pub fn test_room(bytes: &[u8], count: usize) -> Result<(), FileFault>
    ensures { result ≡ tested_room (length bytes.now) count }
{
    if bytes.len() / 16 < count {
        return Err(FileFault::TableShort);
    }
    Ok(())
}
