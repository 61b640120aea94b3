// What a MAX6954 keeps for its digits: both planes, and the intensity registers.
#![tactic(auto)]

ghost use Rattle.std.specs.Prelude.{◌≡◌, get_or, set};
ghost use Rattle.ground.specs.Choice.{if};
ghost use Rattle.digits.specs.Digits.{plane_of, digit_written, both_written, cleared};
ghost use Rattle.digits.specs.DigitByDigit.{DigitByDigit};

use words::Plane;

// Digits 0 to 7, then 0a to 7a, in both planes.
#[repr(C)]
#[derive(Clone, Copy)]
pub struct Planes {
    pub p0: [u8; 16],
    pub p1: [u8; 16],
}

impl Planes {
    pub const CLEARED: Planes = Planes {
        p0: [0; 16],
        p1: [0; 16],
    };

    // A digit's byte in a plane; 0 for a digit above 15.
    pub fn digit(self, plane: Plane, digit: u8) -> u8
        ensures { result ≡ get_or (plane_of self plane) digit 0 }
    {
        match plane {
            Plane::P0 => byte_at(self.p0, digit),
            Plane::P1 => byte_at(self.p1, digit),
        }
    }

    // A digit written in one plane; a digit above 15 changes nothing.
    pub fn written(self, plane: Plane, digit: u8, v: u8) -> Planes
        ensures { result ≡ digit_written self plane digit v }
    {
        match plane {
            Plane::P0 => Planes {
                p0: with_byte(self.p0, digit, v),
                ..self
            },
            Plane::P1 => Planes {
                p1: with_byte(self.p1, digit, v),
                ..self
            },
        }
    }

    // A digit written in both planes.
    pub fn both_written(self, digit: u8, v: u8) -> Planes
        ensures { result ≡ both_written self digit v }
    {
        let first = self.written(Plane::P0, digit, v);
        first.written(Plane::P1, digit, v)
    }

    // The planes, or all 0 where they are cleared.
    pub fn cleared_if(self, clear: bool) -> Planes
        ensures { result ≡ if clear cleared self }
    {
        if clear { Planes::CLEARED } else { self }
    }
}

// Intensity register j, 0x10 + j; 0 for j above 7.
pub fn intensity(registers: [u8; 8], j: u8) -> u8
    ensures { result ≡ get_or registers j 0 }
{
    byte_at(registers, j)
}

// Intensity register j written; a j above 7 changes nothing.
pub fn intensity_written(registers: [u8; 8], j: u8, v: u8) -> [u8; 8]
    ensures { result ≡ set registers j v }
{
    with_byte(registers, j, v)
}

// The byte at i, or 0 where i is past the end.
fn byte_at<const N: usize>(bytes: [u8; N], i: u8) -> u8
    ensures { result ≡ get_or bytes.entry i 0 }
{
    bytes.get(i as usize).copied().unwrap_or(0)
}

// The bytes with v at i, or as they were where i is past the end.
fn with_byte<const N: usize>(mut bytes: [u8; N], i: u8, v: u8) -> [u8; N]
    ensures { result ≡ set bytes.entry i v }
{
    if (i as usize) < N {
        bytes[i as usize] = v;
    }
    bytes
}

// A theorem: what writes and R leave in both planes, digit by digit.
pub fn digit_by_digit()
    ensures { DigitByDigit }
{}
