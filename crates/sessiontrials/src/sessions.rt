// What a session prints of damaged documents: each refusal at its first, a middle and its last place.
use codec::Record;
use samples::{file, node};
use session::print;
use std::alloc::{AllocError, Global};
use std::process::Abort;
use std::test::Fail;

// A pump skid: frame, its length, pump with a note, valve, pipe.
fn skid() -> [Record; 6] {
    [
        node(1, 0, 1, 10, 0),
        node(2, 1, 2, 20, 7),
        node(3, 1, 1, 11, 0),
        node(4, 3, 3, 0, 500),
        node(5, 1, 1, 11, 0),
        node(6, 1, 1, 12, 0),
    ]
}

// The skid with one record exchanged, printed.
fn with_record(heap: Global, place: usize, found: Record) -> Result<String, AllocError> {
    let mut records = skid();
    if let Some(slot) = records.get_mut(place) {
        *slot = found;
    }
    print(heap, file(heap, &records)?.as_slice())
}

#[derive(Drop)]
struct Damage {
    place: usize,
    found: Record,
    line: &'static str,
}

fn exchanged(place: usize, found: Record, line: &'static str) -> Damage {
    Damage { place, found, line }
}

fn check_all(rt: &impl Abort, heap: Global, cases: &[Damage]) -> Result<(), Fail> {
    for case in cases {
        let text = with_record(heap, case.place, case.found)?;
        assert_eq!(rt; text.as_str(), case.line);
    }
    Ok(())
}

#[test]
fn a_whole_document_is_printed(rt: HostRuntime) -> Result<(), Fail> {
    let heap = rt.alloc();
    let text = print(heap, file(heap, &skid())?.as_slice())?;
    assert_eq!(rt;
        text.as_str(),
        "ok\n0 1 1 10 0\n1 2 2 20 7\n1 3 1 11 0\n2 4 3 0 500\n1 5 1 11 0\n1 6 1 12 0\n"
    );
    Ok(())
}

#[test]
fn misformed_records(rt: HostRuntime) -> Result<(), Fail> {
    let spare = Record {
        key: 4,
        link: 3,
        tag: 3,
        spare: 1,
        name: 0,
        value: 500,
    };
    let cases = [
        exchanged(0, node(0, 0, 1, 10, 0), "no 3 1 0\n"),
        exchanged(0, node(1, 0, 0, 10, 0), "no 3 1 0\n"),
        exchanged(0, node(1, 0, 4, 10, 0), "no 3 1 0\n"),
        exchanged(2, node(3, 1, 17, 0, 0), "no 3 1 2\n"),
        exchanged(2, node(3, 1, 1, 0, 0), "no 3 1 2\n"),
        exchanged(2, node(3, 1, 1, 11, 1), "no 3 1 2\n"),
        exchanged(3, spare, "no 3 1 3\n"),
        exchanged(3, node(4, 3, 3, 1, 500), "no 3 1 3\n"),
        exchanged(5, node(6, 1, 2, 0, 12), "no 3 1 5\n"),
        exchanged(5, node(6, 1, 255, 12, 0), "no 3 1 5\n"),
    ];
    check_all(&rt, rt.alloc(), &cases)
}

#[test]
fn identifiers_twice_and_out_of_order(rt: HostRuntime) -> Result<(), Fail> {
    let cases = [
        exchanged(1, node(1, 1, 2, 20, 7), "no 4 3 1\n"),
        exchanged(3, node(2, 3, 3, 0, 500), "no 4 3 3\n"),
        exchanged(5, node(5, 1, 1, 12, 0), "no 4 3 5\n"),
        exchanged(0, node(1, 9, 1, 10, 0), "no 5 3 0\n"),
        exchanged(0, node(1, 0, 3, 0, 0), "no 5 3 0\n"),
        exchanged(1, node(2, 7, 2, 20, 7), "no 5 3 1\n"),
        exchanged(2, node(3, 0, 1, 11, 0), "no 5 3 2\n"),
        exchanged(3, node(4, 2, 3, 0, 500), "no 5 3 3\n"),
        exchanged(4, node(5, 1, 2, 11, 0), "no 5 3 4\n"),
        exchanged(5, node(6, 4, 1, 12, 0), "no 5 3 5\n"),
        exchanged(5, node(6, 3, 1, 12, 0), "no 5 3 5\n"),
    ];
    check_all(&rt, rt.alloc(), &cases)
}

// An element with attributes of these names, and then a child with two.
fn attributes(heap: Global, names: [u16; 5]) -> Result<String, AllocError> {
    let [a, b, c, d, e] = names;
    let records = [
        node(1, 0, 1, 10, 0),
        node(2, 1, 2, a, 0),
        node(3, 1, 2, b, 0),
        node(4, 1, 2, c, 0),
        node(9, 1, 1, 11, 0),
        node(10, 9, 2, d, 0),
        node(12, 9, 2, e, 0),
    ];
    print(heap, file(heap, &records)?.as_slice())
}

#[test]
fn attribute_names_twice(rt: HostRuntime) -> Result<(), Fail> {
    let heap = rt.alloc();
    assert_eq!(rt; attributes(heap, [1, 1, 2, 3, 3])?.as_str(), "no 6 3 2\n");
    assert_eq!(rt; attributes(heap, [1, 2, 1, 1, 2])?.as_str(), "no 6 3 3\n");
    assert_eq!(rt; attributes(heap, [1, 2, 3, 4, 4])?.as_str(), "no 6 3 6\n");
    assert!(rt;
        attributes(heap, [1, 2, 3, 1, 2])?
            .as_str()
            .starts_with("ok\n")
    );
    Ok(())
}

#[test]
fn lengths(rt: HostRuntime) -> Result<(), Fail> {
    let heap = rt.alloc();
    let bytes = file(heap, &skid())?;
    assert!(rt; bytes.len() == 96);
    assert_eq!(rt; print(heap, &[])?.as_str(), "no 5 3 0\n");
    assert_eq!(rt; print(heap, &bytes[0..1])?.as_str(), "no 1 1 0\n");
    assert_eq!(rt; print(heap, &bytes[0..47])?.as_str(), "no 1 1 2\n");
    assert_eq!(rt; print(heap, &bytes[0..95])?.as_str(), "no 1 1 5\n");
    assert_eq!(rt; print(heap, &bytes[0..16])?.as_str(), "ok\n0 1 1 10 0\n");
    Ok(())
}

// A chain of elements, each the child of the one before.
fn chain(heap: Global, count: u32) -> Result<Vec<u8>, AllocError> {
    let mut bytes = Vec::new(heap);
    for id in 0..count {
        bytes.extend_from_slice(&node(id.saturating_add(1), id, 1, 1, 0).bytes())?;
    }
    Ok(bytes)
}

#[test]
fn room_and_the_longest_input(rt: HostRuntime) -> Result<(), Fail> {
    let heap = rt.alloc();
    assert!(rt;
        print(heap, chain(heap, 1000)?.as_slice())?
            .as_str()
            .starts_with("ok\n0 1 1 1 0\n")
    );
    assert_eq!(rt;
        print(heap, chain(heap, 1001)?.as_slice())?.as_str(),
        "no 7 3 1000\n"
    );
    let mut bytes = chain(heap, 4096)?;
    assert_eq!(rt; print(heap, bytes.as_slice())?.as_str(), "no 7 3 1000\n");
    bytes.pop();
    assert_eq!(rt; print(heap, bytes.as_slice())?.as_str(), "no 1 1 4095\n");
    bytes.push(0)?;
    bytes.push(0)?;
    assert_eq!(rt; print(heap, bytes.as_slice())?.as_str(), "no 22 1 0\n");
    Ok(())
}
