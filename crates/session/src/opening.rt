// An input as a document.
ghost use Rattle.std.specs.Prelude.{◌≡◌, length};
ghost use Rattle.session.specs.Printed.{most_records};
ghost use Rattle.session.specs.Opened.{Opened};

use crate::session::{LONGEST, ROOM};
use faults::{Fault, FileFault};
use nodetable::{Slot, test_table};
use reader::read_document;
use records::Node;

// Reads the nodes of the input over the front of the table, and tells how many there are, if they list a document. The slots
// are scratch memory.
pub fn open(input: &[u8], nodes: &mut [Node], slots: &mut [Slot]) -> Result<usize, Fault>
    requires table { length nodes.old ≡ most_records }
    requires scratch { length slots.old ≡ most_records }
    ensures { Opened input.now nodes.new result }
{
    if input.len() > LONGEST {
        return Err(FileFault::TableShort.into());
    }
    let count = read_document(input, nodes)?;
    test_table(ROOM, &nodes[..count], slots)?;
    Ok(count)
}
