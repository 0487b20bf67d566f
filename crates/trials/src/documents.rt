// Node tables and document files.
use faults::{DocumentFault, FileFault};
use nodetable::{Slot, test_table};
use reader::read_document;
use records::{Kind, Node};
use samples::reported;
use writer::write_document;

const FRAME: Node = Node {
    id: 1,
    parent: 0,
    kind: Kind::Element,
    name: 10,
    value: 0,
};

const LENGTH: Node = Node {
    id: 2,
    parent: 1,
    kind: Kind::Attribute,
    name: 20,
    value: 7,
};

const NOTE: Node = Node {
    id: 3,
    parent: 1,
    kind: Kind::Text,
    name: 0,
    value: 500,
};

#[test]
fn a_misformed_node_is_told_before_all_else(rt: HostRuntime) {
    let mut slots = [Slot::EMPTY; 3];
    let nameless = Node {
        id: 1,
        parent: 1,
        kind: Kind::Text,
        name: 9,
        value: 0,
    };
    assert_eq!(rt;
        test_table(0, &[FRAME, FRAME, nameless], &mut slots),
        Err(DocumentFault::Misformed(2))
    );
    assert_eq!(rt;
        test_table(0, &[nameless, FRAME, FRAME], &mut slots),
        Err(DocumentFault::Misformed(0))
    );
    assert_eq!(rt; test_table(3, &[FRAME, LENGTH, NOTE], &mut slots), Ok(()));
    assert_eq!(rt;
        test_table(2, &[FRAME, LENGTH, NOTE], &mut slots),
        Err(DocumentFault::NoRoom(2))
    );
}

#[test]
fn scratch_too_short_is_told_first(rt: HostRuntime) {
    let mut slots = [Slot {
        id: 9,
        name: 9,
        place: 9,
    }; 2];
    assert_eq!(rt;
        test_table(3, &[FRAME, LENGTH, NOTE], &mut slots),
        Err(DocumentFault::ScratchShort)
    );
    assert_eq!(rt; slots, [Slot::EMPTY; 2]);
}

#[test]
fn a_written_document_reads_back(rt: HostRuntime) {
    let mut bytes = [9; 50];
    assert_eq!(rt;
        reported(write_document(&[FRAME, LENGTH, NOTE], &mut bytes)),
        (0, 0, 48)
    );
    assert_eq!(rt; bytes[48], 9);
    let mut nodes = [FRAME; 4];
    assert_eq!(rt; read_document(&bytes[0..48], &mut nodes), Ok(3));
    assert_eq!(rt; nodes, [FRAME, LENGTH, NOTE, FRAME]);
    let mut short = [NOTE; 2];
    assert_eq!(rt;
        read_document(&bytes[0..48], &mut short),
        Err(FileFault::TableShort)
    );
    assert_eq!(rt; short, [NOTE; 2]);
}

#[test]
fn a_refused_writing_leaves_the_bytes(rt: HostRuntime) {
    let mut bytes = [9; 47];
    assert_eq!(rt;
        reported(write_document(&[FRAME, LENGTH, NOTE], &mut bytes)),
        (22, 1, 0)
    );
    let nameless = Node {
        id: 1,
        parent: 1,
        kind: Kind::Text,
        name: 9,
        value: 0,
    };
    assert_eq!(rt;
        reported(write_document(&[FRAME, nameless], &mut bytes)),
        (3, 3, 1)
    );
    assert_eq!(rt; bytes, [9; 47]);
}
