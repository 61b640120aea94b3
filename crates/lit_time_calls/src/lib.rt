// The lit time of a script's run, in lent totals: for each driver and cathode, over every clock given to the driver, lit segments times sixteenths.
#![tactic(auto)]

ghost use Rattle.std.specs.Prelude.{ℕ, ◌+◌, ◌-◌, ◌*◌, ◌/◌, ◌%◌, ◌^◌, ◌<◌, ◌≤◌, ◌≡◌, length, get_or};
ghost use Rattle.device.specs.PowerUp.{fresh_chain};
ghost use Rattle.printed.specs.Format.{test_table, call_of};
ghost use Rattle.printed.specs.Script.{longest};
ghost use Rattle.script_records.specs.Kinds.{kind_number};
ghost use Rattle.script_records.specs.Records.{step_of};
ghost use Rattle.lit_time.specs.LitTime.{lit_time};
ghost use Rattle.lit_time.specs.Answer.{lit_answer, totals_after};
ghost use Rattle.lit_time_calls.specs.Progress.{Added, Totals, time_of, Space, Ready, Counted, answer_by};

use device::Device;
use lit_time::LitTimeAnswer;
use refusals::Refusal;
use row::Row;
use script_records::format::{Kind, byte, test_table};
use script_records::{LONGEST, access, clocks_of, first_call, give, start_of};

// The lit times of a driver's eight cathodes over clocks, added to eight totals from a place on.
fn add_times(device: Device, clocks: u32, table: &[u16], totals: &mut [u64], at: usize)
    requires blink_bound { (device.registers.blink < 4000000) × (at + 8 ≤ length totals.old) }
    requires by_index { (d : ℕ) → d < 8 → get_or totals.old (at + d) 0 + lit_time device d table.now table.now clocks < 2 ^ 64 }
    ensures { Added 8 (λ d. lit_time device d table.now table.now clocks) at totals.old totals.new }
{
    let times = lit_time_code::cathode_times(device, clocks, table, table);
    for (d, time) in times.iter().enumerate() {
        totals[at + d] += time;
    }
}

// A scan, pin levels or clocks: where clocks are served, the totals of their driver grow.
fn stepped(row: Row, kind: Kind, body: &[u8], table: &[u16], totals: &mut [u64]) -> Row
    requires { (table.now ≡ test_table) × Ready row totals.old × Space row (step_of (kind_number kind) body.now) totals.old }
    ensures { Counted row (step_of (kind_number kind) body.now) totals.old totals.new result }
{
    let done = give(row, u8::from(kind), body);
    let next = done.row;
    let number = done.number;
    if number != 0 {
        return next;
    }
    match kind {
        Kind::Scan => next,
        Kind::Pins => next,
        _ => {
            let driver = byte(body, 0) as usize;
            let device = row.named(driver);
            let at = 8 * (driver - 1);
            add_times(device, clocks_of(body), table, totals, at);
            next
        }
    }
}

// A call's record: an access's answer isn't asked for, and a show changes nothing.
fn obeyed(row: Row, kind: Kind, body: &[u8], table: &[u16], totals: &mut [u64]) -> Row
    requires other { kind_number kind ≡ 1 → ⊥ }
    requires table_value { (table.now ≡ test_table) × Ready row totals.old × Space row (call_of (kind_number kind) body.now) totals.old }
    ensures { Counted row (call_of (kind_number kind) body.now) totals.old totals.new result }
{
    match kind {
        Kind::Access => {
            let mut room = [0u8; 512];
            let done = access(row, body, &mut room);
            let next = done.row;
            next
        }
        Kind::Show => row,
        _ => stepped(row, kind, body, table, totals),
    }
}

// The records from a place of a script on, on a chain of n drivers at power-up; the totals so far are 0.
fn run_records(records: &[u8], n: usize, table: &[u16], totals: &mut [u64])
    requires n_bound { (n ≤ 16) × (length records.now ≤ longest) × (table.now ≡ test_table) }
    requires n_in_bounds { (8 * n ≤ length totals.old) × ((i : ℕ) → i < 8 * n → get_or totals.old i 0 ≡ 0) }
    ensures { Totals (8 * n) (time_of records.now (fresh_chain n)) totals.old totals.new }
{
    let mut row = Row::new(n);
    let mut rest = records;
    while let Some(record) = first_call(rest) {
        row = obeyed(row, record.kind, record.body, table, totals);
        rest = record.rest;
    }
}

// Runs a script: gives how many drivers there are, and the lit time of each one's cathodes 0 to 7, driver 1's first, in the totals. Refused for a script
// that is too long, for its chain, and for room under 8 totals a driver; then no total changes.
pub fn run(script: &[u8], totals: &mut [u64]) -> Result<usize, Refusal>
    ensures answer { answer_by result ≡ lit_answer script.now (length totals.old) }
    ensures totals { totals.new ≡ totals_after script.now totals.old }
{
    if LONGEST < script.len() {
        return Err(Refusal::Script);
    }
    let first = start_of(script);
    let n = first.n;
    if n == 0 || 16 < n {
        return Err(Refusal::Chain);
    }
    let count = 8 * n;
    if totals.len() < count {
        return Err(Refusal::Room);
    }
    totals[..count].fill(0);
    run_records(&script[first.from..], n, &test_table(), totals);
    Ok(n)
}

// The same, of a call of C.
pub fn max6954_lit_time(script: &[u8], totals: &mut [u64]) -> LitTimeAnswer
    ensures answer { result ≡ lit_answer script.now (length totals.old) }
    ensures totals { totals.new ≡ totals_after script.now totals.old }
{
    match run(script, totals) {
        Ok(drivers) => LitTimeAnswer { number: 0, drivers },
        Err(refusal) => LitTimeAnswer {
            number: u8::from(refusal),
            drivers: 0,
        },
    }
}
