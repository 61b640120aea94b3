// The lines that a run prints, written into lent room from a place on. Each function gives back the place after its line.
ghost use Rattle.std.specs.Prelude.{◌+◌, ◌*◌, ◌<◌, ◌≤◌, ◌≡◌, length};
ghost use Rattle.text.specs.Text.{each};
ghost use Rattle.text.specs.Written.{Written};
ghost use Rattle.printed.specs.Lines.{chain_line, refusal_line, hex_digit, hex_byte, answer_line, letter as letter_of, mark_letter, show_line};

use text::{decimal, put};

// `chain n`.
pub(crate) fn chain_line(n: usize, out: &mut [u8], at: usize) -> usize
    requires { (n < 100) × (at + 9 ≤ length out.old) }
    ensures { Written (chain_line n) at out.old out.new result }
{
    let start = put(b"chain ", out, at);
    let end = decimal(n as u64, out, start);
    put(b"\n", out, end)
}

// `R` and a refusal's number.
pub(crate) fn refusal_line(number: u8, out: &mut [u8], at: usize) -> usize
    requires { (number < 100) × (at + length (refusal_line number) ≤ length out.old) }
    ensures { Written (refusal_line number) at out.old out.new result }
{
    script_records::refusal_line(number, out, at)
}

// An upper-case hex digit.
fn hex_digit(v: u8) -> u8
    requires { v < 16 }
    ensures { result ≡ hex_digit v }
{
    if v < 10 { b'0' + v } else { 55 + v }
}

// Bytes in hex.
fn hex_bytes(bytes: &[u8], out: &mut [u8], at: usize) -> usize
    requires { at + 2 * length bytes.now ≤ length out.old }
    ensures { Written (each hex_byte bytes.now) at out.old out.new result }
{
    let mut place = at;
    for b in bytes {
        out[place] = hex_digit(b / 16);
        out[place + 1] = hex_digit(b % 16);
        place += 2;
    }
    place
}

// `A` and the answer's bytes.
pub(crate) fn answer_line(bytes: &[u8], out: &mut [u8], at: usize) -> usize
    requires { at + 2 * length bytes.now + 3 ≤ length out.old }
    ensures { Written (answer_line bytes.now) at out.old out.new result }
{
    if bytes.is_empty() {
        return put(b"A\n", out, at);
    }
    let start = put(b"A ", out, at);
    let end = hex_bytes(bytes, out, start);
    put(b"\n", out, end)
}

// A pin's letter.
fn letter(pin: u8) -> u8
    ensures { result ≡ letter_of pin }
{
    match pin {
        1 => b'C',
        2 => b'1',
        3 => b'0',
        _ => b'-',
    }
}

// The answer mark's letter.
fn mark_letter(mark: u8) -> u8
    ensures { result ≡ mark_letter mark }
{
    if mark == 0 { b's' } else { b'f' }
}

// `S`, the letters of nineteen pins, and that of the answer mark.
pub(crate) fn show_line(pins: [u8; 19], mark: u8, out: &mut [u8], at: usize) -> usize
    requires { at + 24 ≤ length out.old }
    ensures { Written (show_line pins mark) at out.old out.new result }
{
    let start = put(b"S ", out, at);
    let end = put(&pins.map(letter), out, start);
    put(&[b' ', mark_letter(mark), b'\n'], out, end)
}
