// Document files from node tables.
ghost use Rattle.std.specs.Prelude.{◌≡◌, ◌*◌, length, take, IfOk, Ok};
ghost use Rattle.reader.specs.Bytes.{file_of, over};
ghost use Rattle.reader.specs.Layout.{document_records};
ghost use Rattle.writer.specs.ReadBack.{ReadsDocument};
ghost use Rattle.writer.specs.Writing.{tested_nodes, tested_room, document_written, bytes_after};

use crate::tables::{test_nodes, test_room};
use crate::writing::put_nodes;
use faults::Fault;
use records::Node;

// Writes a table whose nodes are well formed over the front of a byte table that has room for it.
fn write_nodes(nodes: &[Node], bytes: &mut [u8]) -> usize
    requires formed { tested_nodes nodes.now ≡ Ok tt }
    requires fits { tested_room (length bytes.old) (length nodes.now) ≡ Ok tt }
    ensures count { result ≡ 16 * length nodes.now }
    ensures text { bytes.new ≡ over (file_of (document_records nodes.now)) bytes.old }
    ensures reads_back { ReadsDocument (take result bytes.new) nodes.now }
{
    put_nodes(bytes, 0, nodes);
    16 * nodes.len()
}

// Writes a node table as a document file, and tells how many bytes it has.
pub fn write_document(nodes: &[Node], bytes: &mut [u8]) -> Result<usize, Fault>
    ensures value { result ≡ document_written (length bytes.old) nodes.now }
    ensures table { bytes.new ≡ bytes_after result (document_records nodes.now) bytes.old }
    ensures reads_back { IfOk result (λ n. ReadsDocument (take n bytes.new) nodes.now) }
{
    test_nodes(nodes)?;
    test_room(bytes, nodes.len())?;
    Ok(write_nodes(nodes, bytes))
}
