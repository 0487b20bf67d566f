// The sixteen bytes of a record, least significant byte first.
ghost use Rattle.std.specs.Prelude.{◌≡◌, take, IfSome};
ghost use Rattle.codec.specs.Codec.{record_of, bytes_of, first_record};

// A record as it stands in a file: a node where `tag` is a kind, an operation where it is a code.
// `key` is the identifier or the target, `link` the parent or the count.
#[derive(Clone, Copy, PartialEq, Eq, Debug)]
pub struct Record {
    pub key: u32,
    pub link: u32,
    pub tag: u8,
    pub spare: u8,
    pub name: u16,
    pub value: u32,
}

impl From<[u8; 16]> for Record {
    ghost from_gives = { λ bytes spelt. spelt ≡ record_of bytes };

    fn from(bytes: [u8; 16]) -> Record {
        let [a, b, c, d, e, f, g, h, tag, spare, i, j, k, l, m, n] = bytes;
        Record {
            key: u32::from_le_bytes([a, b, c, d]),
            link: u32::from_le_bytes([e, f, g, h]),
            tag,
            spare,
            name: u16::from_le_bytes([i, j]),
            value: u32::from_le_bytes([k, l, m, n]),
        }
    }
}

impl Record {
    // The record that the first sixteen bytes spell.
    pub fn read(bytes: &[u8]) -> Option<Record>
        ensures value { result ≡ first_record bytes.now }
        ensures back { IfSome result (λ x. bytes_of x ≡ take 16 bytes.now) }
    {
        let front = bytes.first_chunk()?;
        Some(Record::from(*front))
    }

    pub fn bytes(self) -> [u8; 16]
        ensures value { result ≡ bytes_of self }
        ensures back { record_of result ≡ self }
    {
        let [a, b, c, d] = self.key.to_le_bytes();
        let [e, f, g, h] = self.link.to_le_bytes();
        let [i, j] = self.name.to_le_bytes();
        let [k, l, m, n] = self.value.to_le_bytes();
        [
            a, b, c, d, e, f, g, h, self.tag, self.spare, i, j, k, l, m, n,
        ]
    }
}
