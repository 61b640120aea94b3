// The registers of one MAX6954 by value: what a write stores, and what a read gives and leaves.
#![tactic(auto)]

ghost use Rattle.std.specs.Prelude.{◌≡◌};
ghost use Rattle.registers.specs.Registers.{configured, written, phase_of, gpio_data_of, data_of, after_read};
ghost use Rattle.registers.specs.WrittenAndRead.{WrittenAndRead};
ghost use Rattle.registers.specs.ReadBack.{ReadBack};

use controls::{Config, Controls};
use digits::Planes;
use keys::Keys;
use words::{Plane, Register, RegisterFile};

// What the registers hold, and the pin levels and blink count that two of them show.
#[repr(C)]
#[derive(Clone, Copy)]
pub struct Registers {
    pub controls: Controls,
    pub config: Config,
    // Intensities 0x10 to 0x17.
    pub intensities: [u8; 8],
    pub keys: Keys,
    pub planes: Planes,
    // The pin levels of P0 to P4, five bits.
    pub pins: u32,
    // Master clocks modulo 4,000,000.
    pub blink: u32,
}

impl Registers {
    // Configuration written: I, E, B and S are stored, R clears the planes, T the blink count.
    fn configured(self, v: u8) -> Registers
        ensures { result ≡ configured self v }
    {
        Registers {
            config: Config::of(v),
            planes: self.planes.cleared_if(v / 32 % 2 == 1),
            blink: blink::restarted(self.blink, v / 16 % 2 == 1),
            ..self
        }
    }

    // The blink phase.
    fn phase(self) -> Plane
        ensures { result ≡ phase_of self }
    {
        blink::phase(self.blink, blink::is_set(self.config.b))
    }

    // The GPIO data register as read.
    fn gpio_data(self) -> u8
        ensures { result ≡ gpio_data_of self }
    {
        ports::read_data(
            self.controls.ports,
            self.controls.gpio,
            self.pins,
            self.keys.interrupt,
        )
    }
}

impl RegisterFile for Registers {
    type Register = Register;

    ghost written = { written };

    ghost data_of = { data_of };

    ghost after_read = { after_read };

    fn written(self, register: Register, v: u8) -> Registers {
        match register {
            Register::Control(control) => Registers {
                controls: self.controls.written(control, v),
                ..self
            },
            Register::Configuration => self.configured(v),
            Register::KeyMask(group) => Registers {
                keys: self.keys.masked(group, v),
                ..self
            },
            Register::Intensity(j) => Registers {
                intensities: digits::intensity_written(self.intensities, j, v),
                ..self
            },
            Register::Digit(plane, digit) => Registers {
                planes: self.planes.written(plane, digit, v),
                ..self
            },
            Register::BothPlanes(digit) => Registers {
                planes: self.planes.both_written(digit, v),
                ..self
            },
            Register::NoOp
            | Register::KeyDebounced(_)
            | Register::KeyPressed(_)
            | Register::Unlisted => self,
        }
    }

    fn read_data(self, register: Register) -> u8 {
        match register {
            Register::Control(control) => self.controls.read_data(control, self.gpio_data()),
            Register::Configuration => self.config.read_data(self.phase()),
            Register::KeyDebounced(group) => self.keys.group(group).debounced,
            Register::KeyPressed(group) => self.keys.group(group).pressed,
            Register::Intensity(j) => digits::intensity(self.intensities, j),
            Register::Digit(plane, digit) => self.planes.digit(plane, digit),
            Register::NoOp | Register::KeyMask(_) | Register::BothPlanes(_) | Register::Unlisted =>
                0,
        }
    }

    // Only a read of debounced keys changes anything.
    fn read(self, register: Register) -> Registers {
        match register {
            Register::KeyDebounced(group) => Registers {
                keys: self.keys.read(group),
                ..self
            },
            _ => self,
        }
    }
}

// A theorem: what R and T do, the registers that take nothing, or read 0, and what a read leaves.
pub fn written_and_read()
    ensures { WrittenAndRead }
{}

// A theorem: every register reads back as written, and a write changes what no other register reads.
pub fn read_back()
    ensures { ReadBack }
{}
