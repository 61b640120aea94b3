// Input read into a buffer, as far as it goes: what the programs share.
#![tactic(auto)]

ghost use Rattle.std.specs.Io.KnownBytes.{Consumes, IsAtEnd};
ghost use Rattle.std.specs.Prelude.{◌≡◌, ◌≤◌, ◌<◌, length, take, IfOk};

use std::io::{self, Read};

// Reads until the buffer is full or the input ends, and gives the number of bytes read; what stands behind them is free.
pub fn fill<R: Read>(input: &mut R, buffer: &mut [u8]) -> io::Result<usize>
    ensures within { IfOk result (λ n. n ≤ length buffer.new) }
    ensures bytes { IfOk result (λ n. Consumes (R.remaining input.old) (R.remaining input.new) (take n buffer.new)) }
    ensures end { IfOk result (λ n. n < length buffer.new → IsAtEnd (R.remaining input.new)) }
    ensures kept { length buffer.new ≡ length buffer.old }
{
    let mut n = 0;
    while n < buffer.len() {
        let got = input.read(&mut buffer[n..])?;
        if got == 0 {
            break;
        }
        n += got;
    }
    Ok(n)
}
