// The control registers of a MAX6954, and the bits of its configuration register.
#![tactic(auto)]

ghost use Rattle.std.specs.Prelude.{◌≡◌, ◌≤◌};
ghost use Rattle.controls.specs.Controls.{control_written, control_data};
ghost use Rattle.controls.specs.Config.{config_of, phase_bit, config_data};
ghost use Rattle.controls.specs.Widths.{Widths};

use words::{ControlRegister, Plane};

#[repr(C)]
#[derive(Clone, Copy)]
pub struct Controls {
    // Decode mode: bit d for digits d and da.
    pub decode: u8,
    // Global intensity, 4 bits.
    pub global: u8,
    // Scan limit, 3 bits.
    pub limit: u8,
    // GPIO data as stored, 5 bits.
    pub gpio: u8,
    // Port configuration: key groups in D7 to D5, directions of P4 to P0 in D4 to D0.
    pub ports: u8,
    // Display test, 1 bit.
    pub test: u8,
    // Digit type: bit d for cathode d.
    pub types: u8,
}

impl Controls {
    pub fn written(mut self, control: ControlRegister, v: u8) -> Controls
        ensures { result ≡ control_written self control v }
    {
        match control {
            ControlRegister::DecodeMode => self.decode = v,
            ControlRegister::GlobalIntensity => self.global = v % 16,
            ControlRegister::ScanLimit => self.limit = v % 8,
            ControlRegister::GpioData => self.gpio = v % 32,
            ControlRegister::PortConfiguration => self.ports = v,
            ControlRegister::DisplayTest => self.test = v % 2,
            ControlRegister::DigitType => self.types = v,
        }
        self
    }

    // A register's data, gpio_data being what GPIO data reads; digit type can't be read.
    pub fn read_data(self, control: ControlRegister, gpio_data: u8) -> u8
        ensures { result ≡ control_data self control gpio_data }
    {
        match control {
            ControlRegister::DecodeMode => self.decode,
            ControlRegister::GlobalIntensity => self.global,
            ControlRegister::ScanLimit => self.limit,
            ControlRegister::GpioData => gpio_data,
            ControlRegister::PortConfiguration => self.ports,
            ControlRegister::DisplayTest => self.test,
            ControlRegister::DigitType => 0,
        }
    }
}

// The stored bits of the configuration register, 0 or 1 each in a sound record.
#[repr(C)]
#[derive(Clone, Copy)]
pub struct Config {
    // 1: intensity digit by digit.
    pub i: u8,
    // 1: blinking.
    pub e: u8,
    // 1: fast blinking.
    pub b: u8,
    // 0: shutdown.
    pub s: u8,
}

impl Config {
    // The bits that a configuration byte stores.
    pub fn of(v: u8) -> Config
        ensures { result ≡ config_of v }
    {
        Config {
            i: v / 64 % 2,
            e: v / 8 % 2,
            b: v / 4 % 2,
            s: v % 2,
        }
    }

    // The configuration register as read: P I 0 0 E B 0 S.
    pub fn read_data(self, phase: Plane) -> u8
        ensures { result ≡ config_data self phase }
    {
        phase_bit(phase) * 128 + self.i % 2 * 64 + self.e % 2 * 8 + self.b % 2 * 4 + self.s % 2
    }
}

// P of the configuration register.
fn phase_bit(phase: Plane) -> u8
    ensures { (result ≡ phase_bit phase) × (result ≤ 1) }
{
    u8::from(phase == Plane::P0)
}

// A theorem: the width of each control register, and the bits of the configuration register.
pub fn widths()
    ensures { Widths }
{}
