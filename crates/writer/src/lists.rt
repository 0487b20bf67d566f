// List files from operation tables and node tables.
ghost use Rattle.std.specs.Prelude.{◌≡◌, ◌+◌, ◌*◌, length, take, IfOk, Ok};
ghost use Rattle.reader.specs.Bytes.{file_of, over};
ghost use Rattle.reader.specs.Layout.{list_records};
ghost use Rattle.writer.specs.ReadBack.{ReadsList};
ghost use Rattle.writer.specs.Writing.{tested_list, tested_room, list_written, bytes_after};

use crate::tables::{test_room, test_tables};
use crate::writing::put_list;
use faults::Fault;
use records::{Node, Operation};

// Writes tables that pass the tests over the front of a byte table that has room for them.
fn write_tables(operations: &[Operation], nodes: &[Node], bytes: &mut [u8]) -> usize
    requires formed { tested_list operations.now nodes.now ≡ Ok tt }
    requires fits { tested_room (length bytes.old) (length operations.now + length nodes.now) ≡ Ok tt }
    ensures count { result ≡ 16 * (length operations.now + length nodes.now) }
    ensures text { bytes.new ≡ over (file_of (list_records operations.now nodes.now)) bytes.old }
    ensures reads_back { ReadsList (take result bytes.new) operations.now nodes.now }
{
    put_list(bytes, operations, nodes);
    16 * (operations.len() + nodes.len())
}

// Writes an operation table and its node table as a list file, and tells how many bytes it has.
pub fn write_list(
    operations: &[Operation],
    nodes: &[Node],
    bytes: &mut [u8],
) -> Result<usize, Fault>
    ensures value { result ≡ list_written (length bytes.old) operations.now nodes.now }
    ensures table { bytes.new ≡ bytes_after result (list_records operations.now nodes.now) bytes.old }
    ensures reads_back { IfOk result (λ n. ReadsList (take n bytes.new) operations.now nodes.now) }
{
    test_tables(operations, nodes)?;
    test_room(bytes, operations.len() + nodes.len())?;
    Ok(write_tables(operations, nodes, bytes))
}
