// What a driver of a chain answers to a question, by value: refused with a number, or from its record.
#![tactic(auto)]

ghost use Rattle.std.specs.Prelude.{◌≡◌, [], replicate};
ghost use Rattle.ground.specs.Lists.{tabulate};
ghost use Rattle.device.specs.Steps.{shown_plane};
ghost use Rattle.device.specs.Families.{interrupt_of};
ghost use Rattle.port_states.specs.PortStates.{states_of};
ghost use Rattle.display.specs.Pins.{pin_code};
ghost use Rattle.display.specs.declared.Pin.TheVariants.{NotDriven};
ghost use Rattle.calls.specs.Served.{plane_code};

use brightness::BrightnessAnswer;
use device::Device;
use display::SegmentAnswer;
use look_back::LookBackAnswer;
use words::Plane;

// An answer: its number, and the plane shown, 0 for P0 and 1 for P1.
#[repr(C)]
#[derive(Clone, Copy)]
pub struct ShownAnswer {
    pub number: u8,
    pub plane: u8,
}

// An answer: its number, and 1 where the interrupt is raised.
#[repr(C)]
#[derive(Clone, Copy)]
pub struct InterruptAnswer {
    pub number: u8,
    pub raised: u8,
}

// An answer: its number, and the answer mark, 1 where the word last taken was a read.
#[repr(C)]
#[derive(Clone, Copy)]
pub struct MarkAnswer {
    pub number: u8,
    pub mark: u8,
}

// An answer: its number, and what P4 to P31 drive, P4 first: 0 undriven, 1 low, 2 high, 2 + s an LED current of s sixteenths.
#[repr(C)]
#[derive(Clone, Copy)]
pub struct PortAnswer {
    pub number: u8,
    pub ports: [u8; 28],
}

// No port is driven.
pub fn ports_refused(number: u8) -> PortAnswer
    ensures { result ≡ record { number = number; ports = replicate 28 0 } }
{
    PortAnswer {
        number: number,
        ports: [0; 28],
    }
}

// What the ports of a MAX6957 drive.
pub fn ports(d: Device) -> PortAnswer
    ensures { result ≡ record { number = 0; ports = states_of d.ports } }
{
    let registers = d.ports;
    PortAnswer {
        number: 0,
        ports: port_states::states(registers),
    }
}

// No pin is driven.
pub fn segments_refused(number: u8) -> SegmentAnswer
    ensures { result ≡ record { number = number; pins = tabulate 19 (λ p. pin_code NotDriven) } }
{
    SegmentAnswer {
        number: number,
        pins: [0; 19],
    }
}

pub fn brightness_refused(number: u8) -> BrightnessAnswer
    ensures { result ≡ record { number = number; sixteenths = 0; ruler = 0 } }
{
    BrightnessAnswer {
        number: number,
        sixteenths: 0,
        ruler: 0,
    }
}

// The number of a plane.
fn plane_code(plane: Plane) -> u8
    ensures { result ≡ plane_code plane }
{
    match plane {
        Plane::P0 => 0,
        Plane::P1 => 1,
    }
}

pub fn shown_refused(number: u8) -> ShownAnswer
    ensures { result ≡ record { number = number; plane = 0 } }
{
    ShownAnswer {
        number: number,
        plane: 0,
    }
}

// The plane that a driver shows.
pub fn shown(d: Device) -> ShownAnswer
    ensures { result ≡ record { number = 0; plane = plane_code (shown_plane d) } }
{
    ShownAnswer {
        number: 0,
        plane: plane_code(d.shown()),
    }
}

pub fn interrupt_refused(number: u8) -> InterruptAnswer
    ensures { result ≡ record { number = number; raised = 0 } }
{
    InterruptAnswer {
        number: number,
        raised: 0,
    }
}

// Whether a driver's interrupt is raised.
pub fn interrupt(d: Device) -> InterruptAnswer
    ensures { result ≡ record { number = 0; raised = interrupt_of d } }
{
    InterruptAnswer {
        number: 0,
        raised: d.interrupt(),
    }
}

pub fn mark_refused(number: u8) -> MarkAnswer
    ensures { result ≡ record { number = number; mark = 0 } }
{
    MarkAnswer {
        number: number,
        mark: 0,
    }
}

// A driver's answer mark.
pub fn mark(d: Device) -> MarkAnswer
    ensures { result ≡ record { number = 0; mark = d.answer_mark } }
{
    MarkAnswer {
        number: 0,
        mark: d.answer_mark,
    }
}

pub fn look_back_refused(number: u8) -> LookBackAnswer
    ensures { result ≡ record { number = number; byte = 0 } }
{
    LookBackAnswer {
        number: number,
        byte: 0,
    }
}

// The empty part.
pub fn plane_refused<'a>(p0: &'a [u8]) -> &'a [u8]
    ensures { result.now ≡ [] }
{
    &p0[..0]
}

// Which of two lent planes a part is of.
pub fn plane_shown_refused(number: u8) -> ShownAnswer
    ensures { result ≡ record { number = number; plane = 0 } }
{
    shown_refused(number)
}

pub fn plane_shown(d: Device) -> ShownAnswer
    ensures { result ≡ record { number = 0; plane = plane_code (shown_plane d) } }
{
    shown(d)
}
