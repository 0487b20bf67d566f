// Document files: every record is a node.
ghost use Rattle.std.specs.Prelude.{◌≡◌, ◌≤◌, length, IfOk, OnOk};
ghost use Rattle.reader.specs.Accepted.{DocumentFile};
ghost use Rattle.reader.specs.Bytes.{file_of, over};
ghost use Rattle.reader.specs.Reading.{document_nodes, document_tested, document_read, table_after};
ghost use Rattle.reader.specs.Layout.{document_records};

use crate::bytes::whole_records;
use crate::reading::{fill, first_misformed};
use faults::FileFault;
use records::Node;

// How many nodes a file has, if it passes the tests.
fn test_document(bytes: &[u8]) -> Result<usize, FileFault>
    ensures value { result ≡ document_tested bytes.now }
    ensures accepted { IfOk result (DocumentFile bytes.now) }
{
    let count = whole_records(bytes)?;
    if let Some(place) = first_misformed(bytes, count) {
        return Err(FileFault::Misformed(place));
    }
    Ok(count)
}

fn fill_nodes(bytes: &[u8], count: usize, nodes: &mut [Node])
    requires accepted { DocumentFile bytes.now count }
    requires fits { count ≤ length nodes.old }
    ensures { nodes.new ≡ over (document_nodes bytes.now) nodes.old }
{
    fill(bytes, count, &mut [], nodes);
}

// Reads a document file over the front of a table, and tells how many nodes it has.
pub fn read_document(bytes: &[u8], nodes: &mut [Node]) -> Result<usize, FileFault>
    ensures value { result ≡ document_read (length nodes.old) bytes.now }
    ensures table { nodes.new ≡ table_after result (document_nodes bytes.now) nodes.old }
    ensures writes_back { OnOk result (file_of (document_records (document_nodes bytes.now)) ≡ bytes.now) }
{
    let count = test_document(bytes)?;
    if nodes.len() < count {
        return Err(FileFault::TableShort);
    }
    fill_nodes(bytes, count, nodes);
    Ok(count)
}
