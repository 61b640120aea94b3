// What a cathode of one MAX6954 shows: its pins. The function that answers it is in `shown_pins`.
#![tactic(auto)]

ghost use Rattle.std.specs.Prelude.{◌≡◌};
ghost use Rattle.blink.specs.Part.{plane_part};
ghost use Rattle.device.specs.Steps.{shown_plane};
ghost use Rattle.display.specs.Pins.{pin_code};
ghost use Rattle.display.specs.ByTable.{PinByPin};
ghost use Rattle.display.specs.OwnCathode.{OwnCathode};
ghost use Rattle.display.specs.Examples.{Examples};

use device::Device;

// A pin of a cathode, with its number in an answer.
#[derive(Clone, Copy)]
pub enum Pin {
    NotDriven = 0,
    Cathode = 1,
    Lit = 2,
    Unlit = 3,
    NoSegment = 4,
}

impl Pin {
    // A pin's number in an answer.
    pub fn number(self) -> u8
        ensures { result ≡ pin_code self }
    {
        self as u8
    }
}

// An answer: its number, and the pins O0 to O18 by theirs.
#[repr(C)]
#[derive(Clone, Copy)]
pub struct SegmentAnswer {
    pub number: u8,
    pub pins: [u8; 19],
}

// Digits first to last of the plane now shown, of two lent planes; the empty part where refused.
pub fn plane<'a>(device: Device, p0: &'a [u8], p1: &'a [u8], first: usize, last: usize) -> &'a [u8]
    ensures { result.now ≡ plane_part (shown_plane device) p0.now p1.now first last }
{
    blink::plane_part(device.shown(), p0, p1, first, last)
}

// A theorem: the pins by the wiring table are those pin by pin.
pub fn pin_by_pin()
    ensures { PinByPin }
{}

// A theorem: each bit of digit type, fitted byte and decode mode is its own cathode's, and what a cathode shows goes by its own alone.
pub fn own_cathode()
    ensures { OwnCathode }
{}

// A theorem: the bench examples of the display.
pub fn examples()
    ensures { Examples }
{}
