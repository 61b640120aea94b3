// The records of a script: their bytes, where a run starts, what one does to a row of drivers, the line of one that is refused.
#![tactic(auto)]

pub mod format;

ghost use Rattle.std.specs.Prelude.{◌≡◌, IfSome, IfNone};
ghost use Rattle.printed.specs.Format.{items};
ghost use Rattle.text.specs.Written.{room_after, place_after};
ghost use Rattle.row.specs.Row.{reply_on, done_on};
ghost use Rattle.text.specs.Text.{refusal_line};
ghost use Rattle.script_records.specs.Parts.{IsCall, Stops};
ghost use Rattle.script_records.specs.Records.{Started, access_of, clocks_of, step_of};

use format::{Kind, Record, byte, first_record, word};
use row::{Done, Row};

// The longest script.
pub const LONGEST: usize = 65536;

// Where a run starts: the chain's length, and the place of the first record after a chain record.
#[derive(Clone, Copy)]
pub struct Start {
    pub n: usize,
    pub from: usize,
}

// The chain of a script that doesn't name one.
const ASSUMED_CHAIN: usize = 4;

// Where a script's run starts.
pub fn start_of(script: &[u8]) -> Start
    ensures { Started script.now result }
{
    match first_record(script) {
        Some(record) if record.kind == Kind::Chain => Start {
            n: byte(record.body, 0) as usize,
            from: 5 + record.body.len(),
        },
        _ => Start {
            n: ASSUMED_CHAIN,
            from: 0,
        },
    }
}

// The record at the start of some bytes, where a run obeys it: it is well-formed, and no chain record.
pub fn first_call(s: &[u8]) -> Option<Record<'_>>
    ensures call { IfSome result (λ r. IsCall s.now r.kind r.body.now r.rest.now) }
    ensures stop { IfNone result (Stops (items s.now)) }
{
    let call = first_record(s)?;
    if call.kind == Kind::Chain {
        None
    } else {
        Some(call)
    }
}

// An access by its record's body: the answer goes to the room.
pub fn access(row: Row, body: &[u8], room: &mut [u8]) -> Done
    ensures done { result ≡ done_on row (access_of body.now room.old) }
    ensures answer { room.new ≡ reply_on row (access_of body.now room.old) }
{
    let bits = body.get(2..).unwrap_or(&[]);
    row.access(word(body, 0), bits, room)
}

// A scan, pin levels or clocks, by their record's kind, 3, 4 or 5, and body.
pub fn give(row: Row, kind: u8, body: &[u8]) -> Done
    ensures { result ≡ done_on row (step_of kind body.now) }
{
    let driver = byte(body, 0) as usize;
    match kind {
        3 => row.scan(
            driver,
            byte(body, 1),
            byte(body, 2),
            byte(body, 3),
            byte(body, 4),
        ),
        4 => row.set_pins(driver, byte(body, 1) as u32),
        _ => row.add_clocks(driver, clocks_of(body)),
    }
}

// The clocks of a clocks record, by its body.
pub fn clocks_of(body: &[u8]) -> u32
    ensures { result ≡ clocks_of body.now }
{
    (65536 * word(body, 1) + word(body, 3)) as u32
}

// `R` and a refusal's number, written into lent room from a place on; gives back the place after it.
pub fn refusal_line(number: u8, out: &mut [u8], at: usize) -> usize
    ensures place { result ≡ place_after (refusal_line number) at out.old }
    ensures room { out.new ≡ room_after (refusal_line number) at out.old }
{
    let mut line = [0u8; 23];
    let first = text::put(b"R ", &mut line, 0);
    let second = text::decimal(number as u64, &mut line, first);
    let end = text::put(b"\n", &mut line, second);
    text::put(&line[..end], out, at)
}
