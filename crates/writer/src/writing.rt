// Tables into the bytes of a file.
ghost use Rattle.std.specs.Prelude.{◌≡◌, ℕ, ◌+◌, ◌*◌, ◌≤◌, ◌∷◌, length, None};
ghost use Rattle.codec.specs.Codec.{bytes_of, record_of};
ghost use Rattle.codec.specs.Fields.{record_of_operation};
ghost use Rattle.reader.specs.Bytes.{file_of, patched, Spelt};
ghost use Rattle.reader.specs.Layout.{document_records, list_records};
ghost use Rattle.writer.specs.Scans.{counts_from};

use codec::Record;
use records::{Node, Operation};

// Writes one record at its place.
fn put(bytes: &mut [u8], place: usize, written: Record)
    requires { 16 * (place + 1) ≤ length bytes.old }
    ensures text { bytes.new ≡ patched bytes.old (16 * place) (bytes_of written) }
    ensures spelt { record_of (bytes_of written) ≡ written }
{
    let text = written.bytes();
    let at = 16 * place;
    let part = &mut bytes[at..at + 16];
    part.copy_from_slice(&text);
}

// Writes nodes from a place on.
pub fn put_nodes(bytes: &mut [u8], place: usize, nodes: &[Node])
    requires { 16 * (place + length nodes.now) ≤ length bytes.old }
    ensures text { bytes.new ≡ patched bytes.old (16 * place) (file_of (document_records nodes.now)) }
    ensures spelt { Spelt (document_records nodes.now) }
{
    for (k, node) in nodes.iter().enumerate() {
        put(bytes, place + k, Record::from(*node));
    }
}

// Writes an operation at a place, and its nodes behind it.
fn put_operation(bytes: &mut [u8], place: usize, operation: Operation, nodes: &[Node])
    requires { 16 * (place + 1 + length nodes.now) ≤ length bytes.old }
    ensures text { bytes.new ≡ patched bytes.old (16 * place) (file_of (record_of_operation operation ∷ document_records nodes.now)) }
    ensures spelt { Spelt (record_of_operation operation ∷ document_records nodes.now) }
{
    put(bytes, place, Record::from(operation));
    put_nodes(bytes, place + 1, nodes);
}

// Writes operations, each with its nodes behind it, from the front on.
pub fn put_list(bytes: &mut [u8], operations: &[Operation], nodes: &[Node])
    requires counts { counts_from 0 operations.now (length nodes.now) ≡ None }
    requires room { 16 * (length operations.now + length nodes.now) ≤ length bytes.old }
    ensures text { bytes.new ≡ patched bytes.old 0 (file_of (list_records operations.now nodes.now)) }
    ensures spelt { Spelt (list_records operations.now nodes.now) }
{
    let mut place = 0;
    let mut rest = nodes;
    for operation in operations {
        let (own, behind) = rest.split_at(operation.count as usize);
        put_operation(bytes, place, *operation, own);
        place += 1 + own.len();
        rest = behind;
    }
}
