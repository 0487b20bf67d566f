// Files by their records.
use codec::Record;
use std::alloc::{AllocError, Global};

pub fn node(key: u32, link: u32, tag: u8, name: u16, value: u32) -> Record {
    Record {
        key,
        link,
        tag,
        spare: 0,
        name,
        value,
    }
}

pub fn operation(key: u32, tag: u8, link: u32) -> Record {
    Record {
        key,
        link,
        tag,
        spare: 0,
        name: 0,
        value: 0,
    }
}

pub fn file(heap: Global, records: &[Record]) -> Result<Vec<u8>, AllocError> {
    let mut bytes = Vec::new(heap);
    for record in records {
        bytes.extend_from_slice(&record.bytes())?;
    }
    Ok(bytes)
}
