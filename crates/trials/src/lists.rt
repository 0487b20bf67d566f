// List files.
use codec::Record;
use faults::FileFault;
use reader::{ListReader, read_list};
use records::{Code, Kind, Node, Operation};
use samples::{file, node, operation, reported};
use std::alloc::Global;
use std::test::Fail;
use writer::write_list;

// Delete 3; replace 5 by element 30; insert elements 31 and 32 before 5.
fn change() -> [Record; 6] {
    [
        operation(3, 17, 0),
        operation(5, 18, 1),
        node(30, 0, 1, 11, 0),
        operation(5, 11, 2),
        node(31, 0, 1, 11, 0),
        node(32, 0, 1, 11, 0),
    ]
}

const NO_OPERATION: Operation = Operation {
    target: 0,
    code: Code::Delete,
    count: 0,
    name: 0,
    value: 0,
};

const NO_NODE: Node = Node {
    id: 0,
    parent: 0,
    kind: Kind::Text,
    name: 0,
    value: 0,
};

fn counts(heap: Global, records: &[Record]) -> Result<Result<(usize, usize), FileFault>, Fail> {
    let bytes = file(heap, records)?;
    let mut operations = [NO_OPERATION; 3];
    let mut nodes = [NO_NODE; 3];
    Ok(read_list(bytes.as_slice(), &mut operations, &mut nodes))
}

#[test]
fn structure_and_records(rt: HostRuntime) -> Result<(), Fail> {
    let heap = rt.alloc();
    assert_eq!(rt; counts(heap, &change())?, Ok((3, 3)));
    assert_eq!(rt; counts(heap, &[])?, Ok((0, 0)));
    assert_eq!(rt;
        counts(heap, &change()[0..5])?,
        Err(FileFault::Structure(3))
    );
    assert_eq!(rt;
        counts(heap, &change()[2..6])?,
        Err(FileFault::Structure(0))
    );
    assert_eq!(rt;
        counts(heap, &[operation(3, 17, 1)])?,
        Err(FileFault::Structure(0))
    );
    assert_eq!(rt;
        counts(heap, &[operation(0, 17, 0), operation(3, 17, 1)])?,
        Err(FileFault::Structure(1))
    );
    assert_eq!(rt;
        counts(heap, &[operation(0, 17, 0)])?,
        Err(FileFault::Misformed(0))
    );
    assert_eq!(rt;
        counts(heap, &[operation(5, 18, 1), operation(5, 11, 0)])?,
        Err(FileFault::Misformed(1))
    );
    assert_eq!(rt;
        counts(heap, &[operation(5, 30, 0)])?,
        Err(FileFault::Misformed(0))
    );
    Ok(())
}

#[test]
fn tables_too_short(rt: HostRuntime) -> Result<(), Fail> {
    let bytes = file(rt.alloc(), &change())?;
    let mut operations = [NO_OPERATION; 2];
    let mut nodes = [NO_NODE; 3];
    assert_eq!(rt;
        read_list(bytes.as_slice(), &mut operations, &mut nodes),
        Err(FileFault::TableShort)
    );
    assert_eq!(rt; nodes, [NO_NODE; 3]);
    Ok(())
}

#[test]
fn a_list_is_read_and_written_back(rt: HostRuntime) -> Result<(), Fail> {
    let bytes = file(rt.alloc(), &change())?;
    let mut operations = [NO_OPERATION; 3];
    let mut nodes = [NO_NODE; 3];
    assert_eq!(rt;
        read_list(bytes.as_slice(), &mut operations, &mut nodes),
        Ok((3, 3))
    );
    assert_eq!(rt;
        operations[1],
        Operation {
            target: 5,
            code: Code::ReplaceNode,
            count: 1,
            name: 0,
            value: 0,
        }
    );
    let mut again = [0; 96];
    assert_eq!(rt;
        reported(write_list(&operations, &nodes, &mut again)),
        (0, 0, 96)
    );
    assert!(rt; again.as_slice() == bytes.as_slice());
    assert_eq!(rt;
        reported(write_list(&operations, &nodes[0..2], &mut again)),
        (2, 2, 2)
    );
    assert_eq!(rt;
        reported(write_list(&operations[0..2], &nodes, &mut again)),
        (2, 2, 2)
    );
    assert_eq!(rt;
        reported(write_list(&[NO_OPERATION], &[], &mut again)),
        (3, 2, 0)
    );
    Ok(())
}

#[test]
fn the_reader_hands_out_parts(rt: HostRuntime) -> Result<(), Fail> {
    let bytes = file(rt.alloc(), &change())?;
    let mut reader = ListReader::new(bytes.as_slice())?;
    let (first, none, _) = reader.next().ok_or("no first operation")?;
    assert_eq!(rt; first.code, Code::Delete);
    assert_eq!(rt; none.len(), 0);
    let (second, one, place) = reader.next().ok_or("no second operation")?;
    assert_eq!(rt; second.code, Code::ReplaceNode);
    assert_eq!(rt; place, 1);
    assert!(rt; one.len() == 16);
    assert_eq!(rt; one[0], 30);
    let (_, two, place) = reader.next().ok_or("no third operation")?;
    assert_eq!(rt; place, 3);
    assert_eq!(rt; two.len(), 32);
    assert!(rt; reader.next().is_none());
    assert!(rt; bytes.len() == 96);
    assert!(rt; ListReader::new(&bytes[0..95]).is_err());
    assert!(rt; ListReader::new(&bytes[0..80]).is_err());
    Ok(())
}
