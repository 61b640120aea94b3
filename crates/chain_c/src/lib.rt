// The calls of `chain`, exported for C.
#![tactic(auto)]

ghost use Rattle.std.specs.Prelude.{◌≡◌, [], ◌∷◌, length};
ghost use Rattle.device.specs.PowerUp.{power_up, power_up6957};
ghost use Rattle.calls.specs.Calls.{access as access_call, give, ask, scan, levels as pin_levels, clocks as master_clocks, plane, plane_shown, segments, brightness, shown, interrupt, answer_mark, look_back, ports as ports_question, ask_chain, plan, plan_check};
ghost use Rattle.calls.specs.Outcome.{outcome};
ghost use Rattle.redraw.specs.PlanBytes.{bytes_number, bytes_after};

use answers::{InterruptAnswer, MarkAnswer, PortAnswer, ShownAnswer};
use brightness::BrightnessAnswer;
use device::Device;
use display::SegmentAnswer;
use look_back::LookBackAnswer;
use planner::{PlanAnswer, PlanCheckAnswer};

// A driver at power-up.
#[unsafe(no_mangle)]
pub extern "C" fn max6954_power_up() -> Device
    ensures { result ≡ power_up }
{
    chain::max6954_power_up()
}

// A MAX6957 at power-up.
#[unsafe(no_mangle)]
pub extern "C" fn max6957_power_up() -> Device
    ensures { result ≡ power_up6957 }
{
    chain::max6957_power_up()
}

// Clocks through the chain: the sent bits go in, the answer bits come out, and every driver takes its word.
#[unsafe(no_mangle)]
pub extern "C" fn max6954_access(
    chain: &mut [Device],
    clocks: usize,
    sent: &[u8],
    answer: &mut [u8],
) -> u8
    ensures { outcome (access_call clocks sent.now answer.old) chain.old ≡ record { number = result; records = chain.new; back = answer.new } }
{
    chain::max6954_access(chain, clocks, sent, answer)
}

// A key scan of one driver: the closed keys of groups A to D.
#[unsafe(no_mangle)]
pub extern "C" fn max6954_scan(
    chain: &mut [Device],
    driver: usize,
    a: u8,
    b: u8,
    c: u8,
    d: u8,
) -> u8
    ensures { outcome (give driver (scan a b c d)) chain.old ≡ record { number = result; records = chain.new; back = [] } }
{
    chain::max6954_scan(chain, driver, a, b, c, d)
}

// The pin levels of one driver.
#[unsafe(no_mangle)]
pub extern "C" fn max6954_set_pins(chain: &mut [Device], driver: usize, levels: u32) -> u8
    ensures { outcome (give driver (pin_levels levels)) chain.old ≡ record { number = result; records = chain.new; back = [] } }
{
    chain::max6954_set_pins(chain, driver, levels)
}

// Master clocks given to one driver.
#[unsafe(no_mangle)]
pub extern "C" fn max6954_add_clocks(chain: &mut [Device], driver: usize, clocks: u32) -> u8
    ensures { outcome (give driver (master_clocks clocks)) chain.old ≡ record { number = result; records = chain.new; back = [] } }
{
    chain::max6954_add_clocks(chain, driver, clocks)
}

// The number of that call.
#[unsafe(no_mangle)]
pub extern "C" fn max6954_plane_number(
    chain: &[Device],
    driver: usize,
    p0: &[u8],
    p1: &[u8],
    first: usize,
    last: usize,
) -> u8
    ensures { (outcome (ask driver (plane p0.now p1.now first last)) chain.now).number ≡ result }
{
    chain::max6954_plane_number(chain, driver, p0, p1, first, last)
}

// Its number, and which of the two lent planes the part is of.
#[unsafe(no_mangle)]
pub extern "C" fn max6954_plane_shown(
    chain: &[Device],
    driver: usize,
    p0: &[u8],
    p1: &[u8],
    first: usize,
    last: usize,
) -> ShownAnswer
    ensures { outcome (ask driver (plane_shown p0.now p1.now first last)) chain.now ≡ record { number = result.number; records = chain.now; back = result.plane ∷ [] } }
{
    chain::max6954_plane_shown(chain, driver, p0, p1, first, last)
}

// What a cathode of one driver shows under two glyph tables, one for 14 and one for 16 segments.
#[unsafe(no_mangle)]
pub extern "C" fn max6954_segments(
    chain: &[Device],
    driver: usize,
    cathode: usize,
    font14: &[u16],
    font16: &[u16],
) -> SegmentAnswer
    ensures { outcome (ask driver (segments cathode font14.now font16.now)) chain.now ≡ record { number = result.number; records = chain.now; back = result.pins } }
{
    chain::max6954_segments(chain, driver, cathode, font14, font16)
}

// The brightness of a digit of one driver, and what rules it.
#[unsafe(no_mangle)]
pub extern "C" fn max6954_brightness(
    chain: &[Device],
    driver: usize,
    digit: usize,
) -> BrightnessAnswer
    ensures { outcome (ask driver (brightness digit)) chain.now ≡ record { number = result.number; records = chain.now; back = result.sixteenths ∷ result.ruler ∷ [] } }
{
    chain::max6954_brightness(chain, driver, digit)
}

// The plane that one driver shows.
#[unsafe(no_mangle)]
pub extern "C" fn max6954_shown(chain: &[Device], driver: usize) -> ShownAnswer
    ensures { outcome (ask driver shown) chain.now ≡ record { number = result.number; records = chain.now; back = result.plane ∷ [] } }
{
    chain::max6954_shown(chain, driver)
}

// Whether the interrupt of one driver is raised.
#[unsafe(no_mangle)]
pub extern "C" fn max6954_interrupt(chain: &[Device], driver: usize) -> InterruptAnswer
    ensures { outcome (ask driver interrupt) chain.now ≡ record { number = result.number; records = chain.now; back = result.raised ∷ [] } }
{
    chain::max6954_interrupt(chain, driver)
}

// The answer mark of one driver: whether the word that it took last was a read.
#[unsafe(no_mangle)]
pub extern "C" fn max6954_answer_mark(chain: &[Device], driver: usize) -> MarkAnswer
    ensures { outcome (ask driver answer_mark) chain.now ≡ record { number = result.number; records = chain.now; back = result.mark ∷ [] } }
{
    chain::max6954_answer_mark(chain, driver)
}

// What each of P4 to P31 of a MAX6957 drives.
#[unsafe(no_mangle)]
pub extern "C" fn max6957_ports(chain: &[Device], driver: usize) -> PortAnswer
    ensures { outcome (ask driver ports_question) chain.now ≡ record { number = result.number; records = chain.now; back = result.ports } }
{
    chain::max6957_ports(chain, driver)
}

// The byte of a digit in plane 0 or 1 that one driver would have after a list of words, found by looking back from the last.
#[unsafe(no_mangle)]
pub extern "C" fn max6954_look_back(
    chain: &[Device],
    driver: usize,
    plane: usize,
    digit: usize,
    words: &[u16],
) -> LookBackAnswer
    ensures { outcome (ask driver (look_back plane digit words.now)) chain.now ≡ record { number = result.number; records = chain.now; back = result.byte ∷ [] } }
{
    chain::max6954_look_back(chain, driver, plane, digit, words)
}

// The shortest list of accesses that leads to the wanted contents, 32 bytes for each driver, P0 then P1: into the front of the list.
#[unsafe(no_mangle)]
pub extern "C" fn max6954_plan(chain: &[Device], wanted: &[u8], list: &mut [u16]) -> PlanAnswer
    ensures { outcome (ask_chain (plan wanted.now list.old)) chain.now ≡ record { number = result.number; records = chain.now; back = result.accesses ∷ list.new } }
{
    chain::max6954_plan(chain, wanted, list)
}

// Whether a list of accesses leads to the wanted contents, and has no word that a redraw may not use.
#[unsafe(no_mangle)]
pub extern "C" fn max6954_plan_check(
    chain: &[Device],
    wanted: &[u8],
    list: &[u16],
) -> PlanCheckAnswer
    ensures { outcome (ask_chain (plan_check wanted.now list.now)) chain.now ≡ record { number = result.number; records = chain.now; back = result.accepted ∷ [] } }
{
    chain::max6954_plan_check(chain, wanted, list)
}

// The bytes to send for one access of a list for n drivers.
#[unsafe(no_mangle)]
pub extern "C" fn max6954_plan_bytes(n: usize, list: &[u16], access: usize, bytes: &mut [u8]) -> u8
    ensures { (result ≡ bytes_number n (length list.now) access (length bytes.old)) × (bytes.new ≡ bytes_after n list.now access bytes.old) }
{
    chain::max6954_plan_bytes(n, list, access, bytes)
}
