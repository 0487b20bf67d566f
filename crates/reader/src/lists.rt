// List files: operations, each followed by its nodes.
ghost use Rattle.std.specs.Prelude.{◌≡◌, length, IfOk, OnOk};
ghost use Rattle.reader.specs.Accepted.{ListFile};
ghost use Rattle.reader.specs.Bytes.{file_of, over};
ghost use Rattle.reader.specs.Reading.{list_operations, list_nodes, list_tested, list_read, table_after};
ghost use Rattle.reader.specs.Layout.{list_records};

use crate::bytes::whole_records;
use crate::reading::{count_operations, fill, first_ill_built, first_misformed};
use faults::FileFault;
use records::{Node, Operation};

// How many operations and nodes a file has, if it passes the tests.
pub fn test_list(bytes: &[u8]) -> Result<(usize, usize), FileFault>
    ensures value { result ≡ list_tested bytes.now }
    ensures accepted { IfOk result (ListFile bytes.now) }
{
    let count = whole_records(bytes)?;
    if let Some(place) = first_ill_built(bytes) {
        return Err(FileFault::Structure(place));
    }
    if let Some(place) = first_misformed(bytes, 0) {
        return Err(FileFault::Misformed(place));
    }
    let operations = count_operations(bytes);
    Ok((operations, count - operations))
}

// Reads a list file over the fronts of two tables, and tells how many operations and nodes it has.
pub fn read_list(
    bytes: &[u8],
    operations: &mut [Operation],
    nodes: &mut [Node],
) -> Result<(usize, usize), FileFault>
    ensures value { result ≡ list_read (length operations.old) (length nodes.old) bytes.now }
    ensures operation_table { operations.new ≡ table_after result (list_operations bytes.now) operations.old }
    ensures node_table { nodes.new ≡ table_after result (list_nodes bytes.now) nodes.old }
    ensures writes_back { OnOk result (file_of (list_records (list_operations bytes.now) (list_nodes bytes.now)) ≡ bytes.now) }
{
    let counts = test_list(bytes)?;
    if operations.len() < counts.0 || nodes.len() < counts.1 {
        return Err(FileFault::TableShort);
    }
    fill(bytes, 0, operations, nodes);
    Ok(counts)
}
