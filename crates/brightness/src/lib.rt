// Which cathodes of a MAX6954 are dark, and the brightness of each digit with what rules it.
#![tactic(auto)]

ghost use Rattle.std.specs.Prelude.{◌≡◌};
ghost use Rattle.brightness.specs.Dark.{dark};
ghost use Rattle.brightness.specs.Brightness.{own_nibble, nibble_of, sixteenths, ruled_to, brightness_of, ruler_of, brightness_answer};
ghost use Rattle.brightness.specs.Tables.{BrightnessTables};

use device::Device;
use refusals::Refusal;

// What rules the brightness of a digit: nothing where refused, the global register, the digit's own nibble, display test.
#[derive(Clone, Copy)]
pub enum Ruler {
    Nothing = 0,
    Global = 1,
    Own = 2,
    Test = 3,
}

// An answer: its number, the brightness in sixteenths, and the number of what rules it.
#[repr(C)]
#[derive(Clone, Copy)]
pub struct BrightnessAnswer {
    pub number: u8,
    pub sixteenths: u8,
    pub ruler: u8,
}

// A cathode is dark.
pub fn is_dark(device: Device, cathode: usize) -> bool
    ensures { result ≡ dark device cathode }
{
    let controls = device.registers.controls;
    let config = device.registers.config;
    !(controls.test % 2 == 1) & (!(config.s % 2 == 1) | ((controls.limit as usize) < cathode))
}

// A digit's own nibble.
fn own_nibble(intensities: [u8; 8], digit: u8) -> u8
    ensures { result ≡ own_nibble intensities digit }
{
    let v = digits::intensity(intensities, digit / 2);
    if digit % 2 == 1 { v / 16 } else { v % 16 }
}

// The nibble that rules a digit: the global one, or its own where I=1.
fn nibble(device: Device, digit: u8) -> u8
    ensures { result ≡ nibble_of device digit }
{
    let config = device.registers.config;
    if config.i % 2 == 1 {
        let intensities = device.registers.intensities;
        own_nibble(intensities, digit)
    } else {
        let controls = device.registers.controls;
        controls.global
    }
}

// The smaller of v + 1 and 15.
fn sixteenths(v: u8) -> u8
    ensures { result ≡ sixteenths v }
{
    v.min(14) + 1
}

// The sixteenths that a digit's ruler gives it; 7 in display test.
fn ruled_to(device: Device, digit: u8) -> u8
    ensures { result ≡ ruled_to device digit }
{
    let controls = device.registers.controls;
    if controls.test % 2 == 1 {
        7
    } else {
        let v = nibble(device, digit);
        sixteenths(v)
    }
}

// The brightness of a digit: 0 where its cathode is dark.
fn digit_sixteenths(device: Device, digit: u8) -> u8
    ensures { result ≡ brightness_of device digit }
{
    if is_dark(device, (digit % 8) as usize) {
        0
    } else {
        ruled_to(device, digit)
    }
}

// What rules a digit, lit or dark.
fn ruled_by(device: Device) -> Ruler
    ensures { result ≡ ruler_of device }
{
    let controls = device.registers.controls;
    let config = device.registers.config;
    if controls.test % 2 == 1 {
        Ruler::Test
    } else if config.i % 2 == 1 {
        Ruler::Own
    } else {
        Ruler::Global
    }
}

// The brightness of a digit, 0 to 7 and then 0a to 7a, and what rules it; a digit above 15 is refused.
pub fn brightness(device: Device, digit: usize) -> BrightnessAnswer
    ensures { result ≡ brightness_answer device digit }
{
    if 16 <= digit {
        return BrightnessAnswer {
            number: Refusal::Argument as u8,
            sixteenths: 0,
            ruler: Ruler::Nothing as u8,
        };
    }
    BrightnessAnswer {
        number: 0,
        sixteenths: digit_sixteenths(device, digit as u8),
        ruler: ruled_by(device) as u8,
    }
}

// A theorem: dark cathodes and brightness beside the data sheet's tables.
pub fn brightness_tables()
    ensures { BrightnessTables }
{}
