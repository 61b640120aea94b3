// The calls on a chain of MAX6954, MAX6955 and MAX6957: a lent row of records, nearest the controller first. Drivers are counted from 1.
#![tactic(auto)]

ghost use Rattle.std.specs.Prelude.{◌≡◌, ◌-◌, ◌%◌, ◌&&◌, [], ◌∷◌, eqb, ltb, length, get_or, set, false};
ghost use Rattle.std.specs.Result.{result_unwrap_or};
ghost use Rattle.ground.specs.Choice.{if};
ghost use Rattle.refusals.specs.Numbers.{number_of};
ghost use Rattle.device.specs.PowerUp.{power_up, power_up6957};
ghost use Rattle.calls.specs.Calls.{access as access_call, give, ask, scan, levels as pin_levels, clocks as master_clocks, plane, plane_shown, segments, brightness, shown, interrupt, answer_mark, look_back, ports as ports_question, ask_chain, plan, plan_check};
ghost use Rattle.calls.specs.Outcome.{outcome};
ghost use Rattle.pass.specs.Own.{own_of};
ghost use Rattle.pass.specs.Found.{call_refusal};
ghost use Rattle.redraw.specs.PlanBytes.{bytes_number, bytes_after};

use answers::{InterruptAnswer, MarkAnswer, PortAnswer, ShownAnswer};
use brightness::BrightnessAnswer;
use device::Device;
use display::SegmentAnswer;
use look_back::LookBackAnswer;
use pass::Asked;
use planner::{PlanAnswer, PlanCheckAnswer};
use refusals::Refusal;

// A driver at power-up.
pub fn max6954_power_up() -> Device
    ensures { result ≡ power_up }
{
    Device::new()
}

// A MAX6957 at power-up.
pub fn max6957_power_up() -> Device
    ensures { result ≡ power_up6957 }
{
    Device::new_6957()
}

// Clocks through the chain, or why they are refused; then nothing changes.
fn access(
    chain: &mut [Device],
    clocks: usize,
    sent: &[u8],
    answer: &mut [u8],
) -> Result<(), Refusal>
    ensures { outcome (access_call clocks sent.now answer.old) chain.old ≡ record { number = number_of result; records = chain.new; back = answer.new } }
{
    let n = chain.len();
    pass::access_by_arguments(n, clocks, sent.len(), answer.len())?;
    let mut words = [0; 16];
    lent::shift_words(chain, &mut words)?;
    wire::shift(&mut words[..n], clocks, sent, answer);
    lent::take_words(chain, &words);
    Ok(())
}

// A step of one driver, where it isn't refused.
fn given<F: FnOnce(Device) -> Device>(
    chain: &mut [Device],
    driver: usize,
    asked: Asked,
    step: F,
) -> Result<(), Refusal>
    requires { F.IsAlwaysCallable step }
    ensures number { number_of result ≡ call_refusal chain.old driver (own_of asked) }
    ensures served { number_of result ≡ 0 → (new : _) × F.post step (get_or chain.old (driver - 1) power_up) new × (chain.new ≡ set chain.old (driver - 1) new) }
    ensures refused { (number_of result ≡ 0 → ⊥) → chain.new ≡ chain.old }
{
    lent::call_refusal(chain, driver, asked)?;
    let at = driver - 1;
    chain[at] = step(chain[at]);
    Ok(())
}

// Clocks through the chain: the sent bits go in, the answer bits come out, and every driver takes its word.
pub fn max6954_access(chain: &mut [Device], clocks: usize, sent: &[u8], answer: &mut [u8]) -> u8
    ensures { outcome (access_call clocks sent.now answer.old) chain.old ≡ record { number = result; records = chain.new; back = answer.new } }
{
    refusals::number(access(chain, clocks, sent, answer))
}

// A key scan of one driver: the closed keys of groups A to D.
pub fn max6954_scan(chain: &mut [Device], driver: usize, a: u8, b: u8, c: u8, d: u8) -> u8
    ensures { outcome (give driver (scan a b c d)) chain.old ≡ record { number = result; records = chain.new; back = [] } }
{
    let asked = pass::scan_refusal(a, b, c, d);
    refusals::number(given(chain, driver, asked, |old| old.scanned(a, b, c, d)))
}

// The pin levels of one driver.
pub fn max6954_set_pins(chain: &mut [Device], driver: usize, levels: u32) -> u8
    ensures { outcome (give driver (pin_levels levels)) chain.old ≡ record { number = result; records = chain.new; back = [] } }
{
    let asked = pass::levels_refusal(levels);
    refusals::number(given(chain, driver, asked, |old| old.with_pins(levels)))
}

// Master clocks given to one driver.
pub fn max6954_add_clocks(chain: &mut [Device], driver: usize, clocks: u32) -> u8
    ensures { outcome (give driver (master_clocks clocks)) chain.old ≡ record { number = result; records = chain.new; back = [] } }
{
    let asked = pass::clocks_refusal(clocks);
    refusals::number(given(chain, driver, asked, |old| old.clocked(clocks)))
}

// Digits first to last of the plane that a driver now shows, of two lent planes; the empty part where refused.
pub fn max6954_plane<'a>(
    chain: &[Device],
    driver: usize,
    p0: &'a [u8],
    p1: &'a [u8],
    first: usize,
    last: usize,
) -> &'a [u8]
    ensures { (outcome (ask driver (plane p0.now p1.now first last)) chain.now).back ≡ result.now }
{
    let asked = pass::plane_refusal(p0, p1, first, last);
    match lent::call_refusal(chain, driver, asked) {
        Ok(()) => display::plane(chain[driver - 1], p0, p1, first, last),
        Err(_) => answers::plane_refused(p0),
    }
}

// The number of that call.
pub fn max6954_plane_number(
    chain: &[Device],
    driver: usize,
    p0: &[u8],
    p1: &[u8],
    first: usize,
    last: usize,
) -> u8
    ensures { (outcome (ask driver (plane p0.now p1.now first last)) chain.now).number ≡ result }
{
    let asked = pass::plane_refusal(p0, p1, first, last);
    refusals::number(lent::call_refusal(chain, driver, asked))
}

// Its number, and which of the two lent planes the part is of.
pub fn max6954_plane_shown(
    chain: &[Device],
    driver: usize,
    p0: &[u8],
    p1: &[u8],
    first: usize,
    last: usize,
) -> ShownAnswer
    ensures { outcome (ask driver (plane_shown p0.now p1.now first last)) chain.now ≡ record { number = result.number; records = chain.now; back = result.plane ∷ [] } }
{
    let asked = pass::plane_refusal(p0, p1, first, last);
    match lent::call_refusal(chain, driver, asked) {
        Ok(()) => answers::plane_shown(chain[driver - 1]),
        Err(refusal) => answers::plane_shown_refused(u8::from(refusal)),
    }
}

// What a cathode of one driver shows under two glyph tables, one for 14 and one for 16 segments.
pub fn max6954_segments(
    chain: &[Device],
    driver: usize,
    cathode: usize,
    font14: &[u16],
    font16: &[u16],
) -> SegmentAnswer
    ensures { outcome (ask driver (segments cathode font14.now font16.now)) chain.now ≡ record { number = result.number; records = chain.now; back = result.pins } }
{
    let asked = pass::segments_refusal(cathode, font14, font16);
    match lent::call_refusal(chain, driver, asked) {
        Ok(()) => shown_pins::segments(chain[driver - 1], cathode, font14, font16),
        Err(refusal) => answers::segments_refused(u8::from(refusal)),
    }
}

// The brightness of a digit of one driver, and what rules it.
pub fn max6954_brightness(chain: &[Device], driver: usize, digit: usize) -> BrightnessAnswer
    ensures { outcome (ask driver (brightness digit)) chain.now ≡ record { number = result.number; records = chain.now; back = result.sixteenths ∷ result.ruler ∷ [] } }
{
    let asked = pass::brightness_refusal(digit);
    match lent::call_refusal(chain, driver, asked) {
        Ok(()) => brightness::brightness(chain[driver - 1], digit),
        Err(refusal) => answers::brightness_refused(u8::from(refusal)),
    }
}

// The plane that one driver shows.
pub fn max6954_shown(chain: &[Device], driver: usize) -> ShownAnswer
    ensures { outcome (ask driver shown) chain.now ≡ record { number = result.number; records = chain.now; back = result.plane ∷ [] } }
{
    let asked = pass::shown_refusal();
    match lent::call_refusal(chain, driver, asked) {
        Ok(()) => answers::shown(chain[driver - 1]),
        Err(refusal) => answers::shown_refused(u8::from(refusal)),
    }
}

// Whether the interrupt of one driver is raised.
pub fn max6954_interrupt(chain: &[Device], driver: usize) -> InterruptAnswer
    ensures { outcome (ask driver interrupt) chain.now ≡ record { number = result.number; records = chain.now; back = result.raised ∷ [] } }
{
    let asked = pass::interrupt_refusal();
    match lent::call_refusal(chain, driver, asked) {
        Ok(()) => answers::interrupt(chain[driver - 1]),
        Err(refusal) => answers::interrupt_refused(u8::from(refusal)),
    }
}

// The answer mark of one driver: whether the word that it took last was a read.
pub fn max6954_answer_mark(chain: &[Device], driver: usize) -> MarkAnswer
    ensures { outcome (ask driver answer_mark) chain.now ≡ record { number = result.number; records = chain.now; back = result.mark ∷ [] } }
{
    let asked = pass::mark_refusal();
    match lent::call_refusal(chain, driver, asked) {
        Ok(()) => answers::mark(chain[driver - 1]),
        Err(refusal) => answers::mark_refused(u8::from(refusal)),
    }
}

// What each of P4 to P31 of a MAX6957 drives.
pub fn max6957_ports(chain: &[Device], driver: usize) -> PortAnswer
    ensures { outcome (ask driver ports_question) chain.now ≡ record { number = result.number; records = chain.now; back = result.ports } }
{
    let asked = pass::ports_refusal();
    match lent::each_refusal(chain, driver, asked) {
        Ok(()) => answers::ports(chain[driver - 1]),
        Err(refusal) => answers::ports_refused(u8::from(refusal)),
    }
}

// The byte of a digit in plane 0 or 1 that one driver would have after a list of words, found by looking back from the last.
pub fn max6954_look_back(
    chain: &[Device],
    driver: usize,
    plane: usize,
    digit: usize,
    words: &[u16],
) -> LookBackAnswer
    ensures { outcome (ask driver (look_back plane digit words.now)) chain.now ≡ record { number = result.number; records = chain.now; back = result.byte ∷ [] } }
{
    let asked = pass::look_back_refusal(plane, digit, words);
    match lent::call_refusal(chain, driver, asked) {
        Ok(()) => stopping_word::look_back(chain[driver - 1], plane, digit, words),
        Err(refusal) => answers::look_back_refused(u8::from(refusal)),
    }
}

// The shortest list of accesses that leads to the wanted contents, 32 bytes for each driver, P0 then P1: into the front of the list.
pub fn max6954_plan(chain: &[Device], wanted: &[u8], list: &mut [u16]) -> PlanAnswer
    ensures { outcome (ask_chain (plan wanted.now list.old)) chain.now ≡ record { number = result.number; records = chain.now; back = result.accesses ∷ list.new } }
{
    planner::plan_answer(planned(chain, wanted, list))
}

// How many accesses it has.
fn planned(chain: &[Device], wanted: &[u8], list: &mut [u16]) -> Result<usize, Refusal>
    ensures { outcome (ask_chain (plan wanted.now list.old)) chain.now ≡ record { number = number_of result; records = chain.now; back = result_unwrap_or result 0 ∷ list.new } }
{
    let n = chain.len();
    lent::row_refusal(chain)?;
    planner::wanted_refusal(n, wanted.len())?;
    let most = redraw::accesses(chain, wanted);
    planner::list_refusal(n, most, list.len())?;
    redraw::write_list(chain, wanted, list, most);
    Ok(most)
}

// Whether a list of accesses leads to the wanted contents, and has no word that a redraw may not use.
pub fn max6954_plan_check(chain: &[Device], wanted: &[u8], list: &[u16]) -> PlanCheckAnswer
    ensures { outcome (ask_chain (plan_check wanted.now list.now)) chain.now ≡ record { number = result.number; records = chain.now; back = result.accepted ∷ [] } }
{
    planner::check_answer(checked(chain, wanted, list), chain.len(), list.len())
}

// Whether each driver accepts its words.
fn checked(chain: &[Device], wanted: &[u8], list: &[u16]) -> Result<bool, Refusal>
    ensures { outcome (ask_chain (plan_check wanted.now list.now)) chain.now ≡ record { number = number_of result; records = chain.now; back = if (ltb 0 (length chain.now) && eqb (length list.now % length chain.now) 0 && result_unwrap_or result false) 1 0 ∷ [] } }
{
    let n = chain.len();
    lent::row_refusal(chain)?;
    planner::wanted_refusal(n, wanted.len())?;
    Ok(redraw::accepted(chain, n, wanted, list))
}

// The bytes to send for one access of a list for n drivers.
pub fn max6954_plan_bytes(n: usize, list: &[u16], access: usize, bytes: &mut [u8]) -> u8
    ensures { (result ≡ bytes_number n (length list.now) access (length bytes.old)) × (bytes.new ≡ bytes_after n list.now access bytes.old) }
{
    refusals::number(redraw::plan_bytes(n, list, access, bytes))
}
