// A list file operation by operation, without tables.
ghost use Rattle.std.specs.Prelude.{◌≡◌, ◌-◌, ◌/◌, ◌≤◌, true, length, drop, is_ok, Ok, Err, MatchResult};
ghost use Rattle.std.specs.Iterator.{at_most};
ghost use Rattle.reader.specs.Bytes.{records};
ghost use Rattle.reader.specs.Reading.{list_tested};
ghost use Rattle.reader.specs.Handed.{step_of, seen, place_after, Passes};

use crate::bytes::raw_records;
use crate::lists::test_list;
use codec::Record;
use faults::FileFault;
use records::Operation;

// A file that passes the tests, and a place in it where an operation stands or the file ends; so no step can fail.
#[derive(Drop)]
pub struct ListReader<'a> {
    bytes: &'a [u8],
    place: usize,
    ghost passed: { is_ok (list_tested bytes.now) ≡ true },
    ghost within: { place ≤ length bytes.now / 16 },
    ghost rest: { Passes place (drop place (records bytes.now)) },
}

impl<'a> ListReader<'a> {
    // A reader of a file that passes the tests, before its first operation.
    pub fn new(bytes: &'a [u8]) -> Result<ListReader<'a>, FileFault>
        ensures { MatchResult result (λ x. (x.bytes.now ≡ bytes.now) × (x.place ≡ 0) × (is_ok (list_tested bytes.now) ≡ true)) (λ e. list_tested bytes.now ≡ Err e) }
    {
        test_list(bytes)?;
        Ok(ListReader { bytes, place: 0 })
    }
}

impl<'a> Iterator for ListReader<'a> {
    type Item = (Operation, &'a [u8], usize);

    ghost next_gives = { λ s r t. (seen (Ok r) ≡ step_of s.bytes.now s.place) × (t.place ≡ place_after s.place (seen (Ok r))) × (t.bytes.now ≡ s.bytes.now) };

    ghost remaining = { λ s. at_most (length s.bytes.now / 16 - s.place) };

    // The next operation with the part of the file that holds its nodes, and its place.
    fn next(&mut self) -> Option<(Operation, &'a [u8], usize)> {
        let raw = raw_records(self.bytes).get(self.place)?;
        let Ok(operation) = Operation::try_from(Record::from(*raw)) else {
            unreachable!()
        };
        let place = self.place;
        let from = 16 * place + 16;
        let part = &self.bytes[from..from + 16 * operation.count as usize];
        self.place = place + 1 + operation.count as usize;
        Some((operation, part, place))
    }
}
