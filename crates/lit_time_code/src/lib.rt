// The lit time of a MAX6954's cathodes by value: of some clocks those at which each plane is shown, times what the cathode shows under it.
#![tactic(auto)]

ghost use Rattle.std.specs.Prelude.{◌+◌, ◌^◌, ◌<◌, ◌≤◌, ◌≡◌};
ghost use Rattle.ground.specs.Lists.{tabulate};
ghost use Rattle.brightness.specs.Brightness.{brightness_of};
ghost use Rattle.lit_time.specs.LitTime.{lit_time};
ghost use Rattle.lit_time.specs.Counted.{p0_below};
ghost use Rattle.lit_time.specs.Closed.{byte_in, p0_of, first_mask, second_mask, weight_by, weight_in, time_by};

use device::Device;
use wiring::Display;
use words::Plane;

// Of the counts below n, not brought below a cycle, those in the P0 phase.
fn p0_below(fast: bool, n: u64) -> u64
    requires { n < 2 ^ 33 }
    ensures { result ≡ p0_below fast n }
{
    if fast {
        n / 2000000 * 1000000 + (n % 2000000).min(1000000)
    } else {
        n / 4000000 * 2000000 + (n % 4000000).min(2000000)
    }
}

// Of clocks given to a driver, those at which plane P0 is shown: by whole periods, whatever their number.
fn p0_clocks(device: Device, clocks: u32) -> u32
    ensures { (result ≡ p0_of device clocks) × (result ≤ clocks) }
{
    let config = device.registers.config;
    if blink::is_set(config.e) {
        let fast = blink::is_set(config.b);
        let count = device.registers.blink as u64;
        let before = p0_below(fast, count);
        let after = p0_below(fast, count + clocks as u64);
        (after - before) as u32
    } else {
        clocks
    }
}

// The brightness of a digit: 0 where its cathode is dark.
fn sixteenths(device: Device, digit: usize) -> u32
    requires { digit < 16 }
    ensures { (result ≡ brightness_of device digit) × (result ≤ 15) }
{
    brightness::brightness(device, digit).sixteenths as u32
}

// The bits of a display's segments that have the brightness of digit d, and of those that have that of digit da.
fn masks(display: Display) -> (u32, u32)
    ensures { result ≡ (first_mask display, second_mask display) }
{
    match display {
        Display::Sixteen => (0x1FFFF, 0),
        Display::Fourteen => (0x1BBFF, 0),
        Display::SevenPair => (0xFF, 0xFF00),
    }
}

// Lit segments times sixteenths.
fn weight(display: Display, segments: u32, first: u32, second: u32) -> u32
    requires first_bound { first ≤ 15 }
    requires second_bound { second ≤ 15 }
    ensures { (result ≡ weight_by display segments first second) × (result ≤ 960) }
{
    let (own, other) = masks(display);
    (own & segments).count_ones() * first + (other & segments).count_ones() * second
}

// Lit segments times sixteenths of a cathode where a plane is shown.
fn weight_in(device: Device, plane: Plane, cathode: usize, font14: &[u16], font16: &[u16]) -> u32
    requires { cathode < 8 }
    ensures value { result ≡ weight_in device plane cathode font14.now font16.now }
    ensures upper_bound { result ≤ 960 }
    ensures bytes { (byte_in device plane cathode < 256) × (byte_in device plane (cathode + 8) < 256) }
{
    let digit = cathode as u8;
    let planes = device.registers.planes;
    let byte = planes.digit(plane, digit);
    let a = planes.digit(plane, digit + 8);
    let controls = device.registers.controls;
    let display = shown_pins::display_by(controls.types, device.fitted, cathode);
    let hex = shown_pins::bit_at(controls.decode as u32, cathode);
    let test = controls.test % 2 == 1;
    let shown = shown_pins::shown_segments(test, display, hex, font14, font16, byte, a);
    let first = sixteenths(device, cathode);
    let second = sixteenths(device, cathode + 8);
    weight(display, shown, first, second)
}

// The lit time of a cathode over clocks given to its driver, of which p0 show plane P0.
fn cathode_time(
    device: Device,
    cathode: usize,
    font14: &[u16],
    font16: &[u16],
    clocks: u32,
    p0: u32,
) -> u64
    requires cathode_bound { cathode < 8 }
    requires p0_le_clocks { p0 ≤ clocks }
    ensures equation { result ≡ time_by device cathode font14.now font16.now clocks p0 }
    ensures clocked { device.registers.blink < 4000000 → p0 ≡ p0_of device clocks → result ≡ lit_time device cathode font14.now font16.now clocks }
{
    let first = weight_in(device, Plane::P0, cathode, font14, font16);
    let second = weight_in(device, Plane::P1, cathode, font14, font16);
    p0 as u64 * first as u64 + (clocks - p0) as u64 * second as u64
}

// The lit times of a driver's eight cathodes over clocks given to it: in closed form, and clock by clock where the blink count is below a cycle.
pub fn cathode_times(device: Device, clocks: u32, font14: &[u16], font16: &[u16]) -> [u64; 8]
    ensures equation { result ≡ tabulate 8 (λ d. time_by device d font14.now font16.now clocks (p0_of device clocks)) }
    ensures clocked { device.registers.blink < 4000000 → result ≡ tabulate 8 (λ d. lit_time device d font14.now font16.now clocks) }
{
    let p0 = p0_clocks(device, clocks);
    let mut times = [0; 8];
    for d in 0..8 {
        times[d] = cathode_time(device, d, font14, font16, clocks, p0);
    }
    times
}
