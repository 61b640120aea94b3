// The records of a script.
ghost use Rattle.std.specs.Prelude.{◌+◌, ◌<◌, ◌≡◌, IfSome};
ghost use Rattle.ground.specs.Choice.{if};
ghost use Rattle.printed.specs.Format.{byte as byte_of, word as word_of, length_fits, size_of, well_formed, test_table};
ghost use Rattle.script_records.specs.Kinds.{kind_number, Tells};
ghost use Rattle.script_records.specs.Parts.{size_by, IsFirst};

use std::array;

// A record's kind, by its byte.
#[derive(Clone, Copy, Debug, PartialEq, Eq)]
pub enum Kind {
    Chain = 1,
    Access = 2,
    Scan = 3,
    Pins = 4,
    Clocks = 5,
    Show = 6,
}

// A byte that is no kind's.
#[derive(Clone, Copy, Debug, PartialEq, Eq)]
pub struct UnknownKind;

impl TryFrom<u8> for Kind {
    type Error = UnknownKind;

    ghost try_from_gives = { Tells };

    fn try_from(byte: u8) -> Result<Kind, UnknownKind> {
        match byte {
            1 => Ok(Kind::Chain),
            2 => Ok(Kind::Access),
            3 => Ok(Kind::Scan),
            4 => Ok(Kind::Pins),
            5 => Ok(Kind::Clocks),
            6 => Ok(Kind::Show),
            _ => Err(UnknownKind),
        }
    }
}

impl From<Kind> for u8 {
    ghost from_gives = { λ kind byte. byte ≡ kind_number kind };

    fn from(kind: Kind) -> u8 {
        kind as u8
    }
}

impl Kind {
    // A body of n bytes fits it.
    fn fits(self, n: usize) -> bool
        ensures { result ≡ length_fits (kind_number self) n }
    {
        match self {
            Kind::Chain => n == 1,
            Kind::Access => 2 <= n,
            Kind::Scan => n == 5,
            Kind::Pins => n == 2,
            Kind::Clocks => n == 5,
            Kind::Show => n == 2,
        }
    }
}

// A record, and what stands behind it.
#[derive(Clone, Copy)]
pub struct Record<'a> {
    pub kind: Kind,
    pub body: &'a [u8],
    pub rest: &'a [u8],
}

// Byte k of some bytes, 0 past the end.
pub fn byte(s: &[u8], k: usize) -> u8
    ensures { result ≡ byte_of s.now k }
{
    s.get(k).copied().unwrap_or(0)
}

// Two bytes from k on, high first.
pub fn word(s: &[u8], k: usize) -> usize
    ensures { (result ≡ word_of s.now k) × (result < 65536) }
{
    if k < s.len() {
        u16::from_be_bytes([byte(s, k), byte(s, k + 1)]) as usize
    } else {
        0
    }
}

// The record at the start of some bytes, where it is well-formed.
pub fn first_record(s: &[u8]) -> Option<Record<'_>>
    ensures size { size_by result ≡ if (well_formed s.now) (size_of s.now) 0 }
    ensures parts { IfSome result (λ r. IsFirst s.now r.kind r.body.now r.rest.now) }
{
    let [0x5A, 0xC3, kind, high, low, after @ ..] = s else {
        return None;
    };
    let kind = Kind::try_from(*kind).ok()?;
    let n = u16::from_be_bytes([*high, *low]) as usize;
    let (body, rest) = after.split_at_checked(n)?;
    if kind.fits(n) {
        Some(Record { kind, body, rest })
    } else {
        None
    }
}

// Document 01, "Script program": the test table, entry k is 257 times k.
pub fn test_table() -> [u16; 128]
    ensures { result ≡ test_table }
{
    array::from_fn(|k| 257 * k as u16)
}
