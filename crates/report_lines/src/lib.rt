// The report of a script's lit time: its lines, written into lent room.
#![tactic(auto)]

ghost use Rattle.std.specs.Prelude.{◌+◌, ◌*◌, ◌<◌, ◌≤◌, ◌++◌, ◌≡◌, length, get_or, drop};
ghost use Rattle.text.specs.Written.{Written};
ghost use Rattle.lit_time.specs.Report.{total_line, total_lines, reported};

use text::{decimal, put};

// Driver, cathode and total, and a newline.
fn total_line(driver: usize, cathode: usize, total: u64, out: &mut [u8], at: usize) -> usize
    requires { (driver < 100) × (cathode < 10) × (at + 26 ≤ length out.old) }
    ensures line { Written (total_line driver cathode total) at out.old out.new result }
    ensures short { result ≤ at + 26 }
{
    let first = decimal(driver as u64, out, at);
    let second = put(b" ", out, first);
    let third = decimal(cathode as u64, out, second);
    let fourth = put(b" ", out, third);
    let fifth = decimal(total, out, fourth);
    put(b"\n", out, fifth)
}

// The lines of some totals.
fn total_lines(totals: &[u64], out: &mut [u8]) -> usize
    requires { (length totals.now ≤ 128) × (26 * length totals.now ≤ length out.old) }
    ensures lines { Written (total_lines (length totals.now) (λ i. get_or totals.now i 0)) 0 out.old out.new result }
    ensures short { result ≤ length out.old }
{
    let mut at = 0;
    for (i, total) in totals.iter().enumerate() {
        at = total_line(i / 8 + 1, i % 8, *total, out, at);
    }
    at
}

// The report of a script, in room that suffices for any: 26 bytes for each of 128 lines. Gives the number of bytes that it prints.
pub fn print_report(script: &[u8], out: &mut [u8; 3328]) -> usize
    ensures count { (result ≡ length (reported script.now)) × (result ≤ length out.new) }
    ensures lines { out.new ≡ reported script.now ++ drop result out.old }
{
    let mut totals = [0u64; 128];
    match lit_time_calls::run(script, &mut totals) {
        Ok(drivers) => total_lines(&totals[..8 * drivers], out),
        Err(refusal) => script_records::refusal_line(u8::from(refusal), out, 0),
    }
}
