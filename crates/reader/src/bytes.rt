// A file as a row of records.
ghost use Rattle.std.specs.Prelude.{◌≡◌, ◌/◌, length, map, Ok};
ghost use Rattle.codec.specs.Codec.{record_of};
ghost use Rattle.reader.specs.Bytes.{records};
ghost use Rattle.reader.specs.Reading.{if_whole};

use faults::FileFault;

// The whole records of a file, each as its sixteen bytes.
pub fn raw_records(bytes: &[u8]) -> &[[u8; 16]]
    ensures spelt { map record_of result.now ≡ records bytes.now }
    ensures count { length result.now ≡ length bytes.now / 16 }
{
    bytes.as_chunks().0
}

// How many records a file has; a file with a part of one is refused.
pub fn whole_records(bytes: &[u8]) -> Result<usize, FileFault>
    ensures { result ≡ if_whole bytes.now (Ok (length bytes.now / 16)) }
{
    let (whole, part) = bytes.as_chunks::<16>();
    if part.is_empty() {
        Ok(whole.len())
    } else {
        Err(FileFault::Length(whole.len()))
    }
}
