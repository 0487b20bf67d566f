// Opening a table as a sheet.
ghost use Rattle.std.specs.Prelude.{◌≡◌, length, Err, IsOkAnd, MatchResult};
ghost use Rattle.document.specs.Tree.{nil};
ghost use Rattle.document.specs.Table.{document_of};
ghost use Rattle.nodetable.specs.Scratch.{cleared};
ghost use Rattle.nodetable.specs.Tested.{tested};
ghost use Rattle.sheet.specs.Sheets.{document_if};
ghost use Rattle.sheet.specs.Document.{document};

use super::Sheet;
use faults::DocumentFault;
use nodetable::{Slot, test_table};
use records::Node;

// How many nodes a sheet can list.
pub const ROOM: usize = 1000;

impl<'a> Sheet<'a> {
    // A sheet of no nodes.
    pub fn empty() -> Sheet<'a>
        ensures { document result ≡ nil }
    {
        Sheet { nodes: &[] }
    }

    // Tests a table and answers what the tests say, with the sheet, which is empty where the table is refused.
    pub fn open(nodes: &'a [Node], slots: &mut [Slot]) -> (Sheet<'a>, Result<(), DocumentFault>)
        ensures answer { result.1 ≡ tested (length slots.old) 1000 nodes.now }
        ensures sheet { document result.0 ≡ document_if (tested (length slots.old) 1000 nodes.now) nodes.now }
        ensures zeroed { slots.new ≡ cleared slots.old }
    {
        match Sheet::try_open(nodes, slots) {
            Ok(sheet) => (sheet, Ok(())),
            Err(fault) => (Sheet::empty(), Err(fault)),
        }
    }

    // Tests a table: the sheet of the document that it lists, or what the tests say against it.
    pub fn try_open(nodes: &'a [Node], slots: &mut [Slot]) -> Result<Sheet<'a>, DocumentFault>
        ensures answer { MatchResult (tested (length slots.old) 1000 nodes.now) (λ u. IsOkAnd result (λ sheet. document sheet ≡ document_of nodes.now)) (λ fault. result ≡ Err fault) }
        ensures zeroed { slots.new ≡ cleared slots.old }
    {
        test_table(ROOM, nodes, slots)?;
        Ok(Sheet { nodes })
    }
}
