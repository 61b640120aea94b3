// The look back by value: the last word that stops, found by two masks, and the byte that it leaves.
#![tactic(auto)]

ghost use Rattle.std.specs.Prelude.{◌≡◌, ◌<◌, ltb, length, Some, None, IfSome};
ghost use Rattle.ground.specs.Choice.{if};
ghost use Rattle.look_back.specs.LookBack.{plane_numbered, byte_after, look_back_answer};
ghost use Rattle.look_back.specs.Stops.{last_place};
ghost use Rattle.look_back.specs.ByteBy.{left_by};
ghost use Rattle.stopping_word.specs.Masks.{mask_of, pattern_of, stops_under, counted};

use device::Device;
use look_back::LookBackAnswer;
use refusals::Refusal;
use words::Plane;

// D15 to D8 but the one in which a write to both planes differs from one to the plane alone.
fn mask(plane: Plane) -> u16
    ensures { result ≡ mask_of plane }
{
    match plane {
        Plane::P0 => 0xBF00,
        Plane::P1 => 0xDF00,
    }
}

// What a write of the digit has under the mask.
fn pattern(plane: Plane, digit: u8) -> u16
    requires { digit < 16 }
    ensures { result ≡ pattern_of plane digit }
{
    let first = match plane {
        Plane::P0 => 0x2000,
        Plane::P1 => 0x4000,
    };
    first + digit as u16 * 256
}

// The word writes the byte, or is a configuration write with R=1.
fn stops(word: u16, mask: u16, pattern: u16) -> bool
    ensures { result ≡ stops_under mask pattern word }
{
    (word & mask == pattern) | (word & 0xFF20 == 0x0420)
}

// The place of the last word that stops. No word before it is read. A `for` is faster than `rposition`.
fn stopping_place(words: &[u16], mask: u16, pattern: u16) -> Option<usize>
    ensures place { counted result ≡ last_place (stops_under mask pattern) words.now }
    ensures within { IfSome result (λ k. k < length words.now) }
{
    for k in (0..words.len()).rev() {
        if stops(words[k], mask, pattern) {
            return Some(k);
        }
    }
    None
}

// The byte that a word that stops leaves: 0 by a clear, else its data.
fn left_by(word: u16) -> u8
    ensures { result ≡ left_by word }
{
    if word / 256 % 128 == 4 {
        0
    } else {
        (word % 256) as u8
    }
}

// The byte that the words leave: that of the last word that stops, or else the record's.
fn looked(device: Device, plane: Plane, digit: u8, words: &[u16]) -> u8
    requires { digit < 16 }
    ensures { result ≡ byte_after device plane digit words.now }
{
    match stopping_place(words, mask(plane), pattern(plane, digit)) {
        Some(k) => left_by(words[k]),
        None => device.registers.planes.digit(plane, digit),
    }
}

// The plane of a number, 0 or 1.
fn plane_numbered(number: usize) -> Option<Plane>
    ensures { result ≡ if (ltb number 2) (Some (plane_numbered number)) None }
{
    match number {
        0 => Some(Plane::P0),
        1 => Some(Plane::P1),
        _ => None,
    }
}

// The byte of a digit in plane 0 or 1 that a driver's words leave; a plane above 1 or a digit above 15 is refused.
pub fn look_back(device: Device, plane: usize, digit: usize, words: &[u16]) -> LookBackAnswer
    ensures { result ≡ look_back_answer device plane digit words.now }
{
    match plane_numbered(plane) {
        Some(plane) if digit < 16 => LookBackAnswer {
            number: 0,
            byte: looked(device, plane, digit as u8, words),
        },
        _ => LookBackAnswer {
            number: Refusal::Argument as u8,
            byte: 0,
        },
    }
}
