// The script program as a library: a script in, the lines that it prints out.
#![tactic(auto)]

mod lines;

ghost use Rattle.std.specs.Prelude.{◌+◌, ◌*◌, ◌<◌, ◌≤◌, true, ◌++◌, ◌≡◌, length, drop};
ghost use Rattle.printed.specs.Format.{test_table, call_of, length_fits, items};
ghost use Rattle.device.specs.PowerUp.{fresh_chain};
ghost use Rattle.printed.specs.Script.{run_lines, items_printed, longest, printed};
ghost use Rattle.printed.specs.Run.{room_for, ran_of, ran_by, out_after};
ghost use Rattle.script_records.specs.Kinds.{kind_number};
ghost use Rattle.text.specs.Written.{Written};
ghost use Rattle.script.specs.Progress.{Given, Obeyed};

use lines::{answer_line, chain_line, refusal_line, show_line};
use refusals::Refusal;
use row::{Done, Row};
use script_records::format::{Kind, byte, test_table, word};
use script_records::{LONGEST, access, first_call, give, start_of};

// What a record leaves: the row, and the place after its line.
#[derive(Clone, Copy)]
struct Progress {
    row: Row,
    at: usize,
}

// A scan, pin levels or clocks: a line where they are refused.
fn given(done: Done, out: &mut [u8], at: usize) -> Progress
    requires { (done.number < 100) × (at + 5 ≤ length out.old) }
    ensures { Given done at out.old out.new result }
{
    let row = done.row;
    let number = done.number;
    if number == 0 {
        return Progress { row: row, at: at };
    }
    let end = refusal_line(number, out, at);
    Progress { row: row, at: end }
}

// An access: its answer, or a refusal.
fn accessed(row: Row, body: &[u8], out: &mut [u8], at: usize) -> Progress
    requires { (2 ≤ length body.now) × (at + 4 * (5 + length body.now) ≤ length out.old) }
    ensures { Obeyed row (call_of 2 body.now) (5 + length body.now) at out.old out.new result }
{
    let clocks = word(body, 0);
    let mut room = [0u8; 512];
    let done = access(row, body, &mut room);
    let next = done.row;
    let number = done.number;
    if number == 0 {
        let count = (clocks + 7) / 8;
        let end = answer_line(&room[..count], out, at);
        return Progress { row: next, at: end };
    }
    let end = refusal_line(number, out, at);
    Progress { row: next, at: end }
}

// A show: the pins of a cathode and the answer mark, or a refusal.
fn shown(row: Row, body: &[u8], table: &[u16], out: &mut [u8], at: usize) -> Progress
    requires { (table.now ≡ test_table) × (at + 28 ≤ length out.old) }
    ensures { Obeyed row (call_of 6 body.now) 7 at out.old out.new result }
{
    let driver = byte(body, 0) as usize;
    let cathode = byte(body, 1) as usize;
    let answer = row.show(driver, cathode, table, table);
    let number = answer.number;
    if number == 0 {
        let pins = answer.pins;
        let end = show_line(pins, answer.mark, out, at);
        return Progress { row: row, at: end };
    }
    let end = refusal_line(number, out, at);
    Progress { row: row, at: end }
}

// A call's record.
fn obeyed(row: Row, kind: Kind, body: &[u8], table: &[u16], out: &mut [u8], at: usize) -> Progress
    requires { (length_fits (kind_number kind) (length body.now) ≡ true) × (kind_number kind ≡ 1 → ⊥) × (table.now ≡ test_table) × (at + 4 * (5 + length body.now) ≤ length out.old) }
    ensures { Obeyed row (call_of (kind_number kind) body.now) (5 + length body.now) at out.old out.new result }
{
    match kind {
        Kind::Access => accessed(row, body, out, at),
        Kind::Show => shown(row, body, table, out, at),
        _ => given(give(row, u8::from(kind), body), out, at),
    }
}

// The records from a place of a script on, on a chain of n drivers at power-up.
fn run_records(records: &[u8], n: usize, table: &[u16], out: &mut [u8], first: usize) -> usize
    requires { (n ≤ 16) × (table.now ≡ test_table) × (first + 4 * length records.now ≤ length out.old) }
    ensures { Written (run_lines (items records.now) (fresh_chain n)) first out.old out.new result × (result ≤ length out.old) }
{
    let mut row = Row::new(n);
    let mut at = first;
    let mut rest = records;
    while let Some(record) = first_call(rest) {
        let p = obeyed(row, record.kind, record.body, table, out, at);
        row = p.row;
        at = p.at;
        rest = record.rest;
    }
    if rest.is_empty() {
        return at;
    }
    refusal_line(u8::from(Refusal::Record), out, at)
}

// What a script that isn't too long prints.
fn print(script: &[u8], out: &mut [u8]) -> usize
    requires { (length script.now ≤ longest) × (16 + 4 * length script.now ≤ length out.old) }
    ensures { Written (items_printed (items script.now)) 0 out.old out.new result × (result ≤ length out.old) }
{
    let first = start_of(script);
    let n = first.n;
    if n == 0 || 16 < n {
        return refusal_line(u8::from(Refusal::Chain), out, 0);
    }
    let at = chain_line(n, out, 0);
    run_records(&script[first.from..], n, &test_table(), out, at)
}

// Room that suffices for what a script of n bytes prints.
pub fn room_for(n: usize) -> usize
    ensures { result ≡ room_for n }
{
    if LONGEST < n { 4 } else { 16 + 4 * n }
}

// Runs a script: writes what it prints into the room, and gives the number of its bytes. Where the room is less than room_for the script's length, it is
// refused and nothing is written.
pub fn run(script: &[u8], out: &mut [u8]) -> Result<usize, Refusal>
    ensures { (ran_by result ≡ ran_of script.now out.old) × (out.new ≡ out_after script.now out.old) × ((ran_by result).length ≤ length out.new) }
{
    if out.len() < room_for(script.len()) {
        return Err(Refusal::Room);
    }
    if LONGEST < script.len() {
        return Ok(refusal_line(u8::from(Refusal::Script), out, 0));
    }
    Ok(print(script, out))
}

// Runs a script in room that suffices for any, and gives the number of bytes that it prints.
pub fn print_all(script: &[u8], out: &mut [u8; 262160]) -> usize
    ensures { (result ≡ length (printed script.now)) × (out.new ≡ printed script.now ++ drop result out.old) × (result ≤ length out.new) }
{
    run(script, out).unwrap_or(0)
}
