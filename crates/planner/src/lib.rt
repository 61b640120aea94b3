// The planner by value: the words that one driver needs for its wanted contents, its part of a list of accesses, and whether it accepts its part of one.
#![tactic(auto)]

ghost use Rattle.std.specs.Prelude.{◌+◌, ◌*◌, ◌%◌, ◌<◌, ◌≤◌, max, ◌&&◌, [], ◌∷◌, ◌≡◌, eqb, ltb, leb, length, replicate, set, Some, None, false};
ghost use Rattle.ground.specs.Choice.{if};
ghost use Rattle.std.specs.Result.{result_unwrap_or};
ghost use Rattle.refusals.specs.Numbers.{number_of};
ghost use Rattle.refusals.specs.Refusals.{wanted_refusal as wanted_of, list_refusal as list_of};
ghost use Rattle.plans.specs.Act.{acted as acted_by, act_of};
ghost use Rattle.plans.specs.Words.{keeps as keeps_of, allowed_by};
ghost use Rattle.plans.specs.Lists.{words_at, wanted_at};
ghost use Rattle.plans.specs.Least.{wrong as wrong_by, need as need_of, plain as plain_of, anew as anew_of, least as least_of};
ghost use Rattle.plans.specs.Plan.{clear_word, digit_words, steps, plan_by};
ghost use Rattle.planner.specs.OneDriver.{is_wanted, reach, with_plan, with_driver, from_planes, accepts_at};
ghost use Rattle.planner.specs.Column.{Puts, Room};

use controls::Config;
use device::Device;
use digits::Planes;
use refusals::Refusal;
use words::{Plane, Register, Word};

// An answer: its number, and how many accesses the list has.
#[repr(C)]
#[derive(Clone, Copy)]
pub struct PlanAnswer {
    pub number: u8,
    pub accesses: usize,
}

// An answer: its number, and 1 where the list is accepted.
#[repr(C)]
#[derive(Clone, Copy)]
pub struct PlanCheckAnswer {
    pub number: u8,
    pub accepted: u8,
}

// 12: the wanted contents aren't 32 bytes for each of n drivers.
pub fn wanted_refusal(n: usize, wanted: usize) -> Result<(), Refusal>
    ensures { number_of result ≡ wanted_of n wanted }
{
    if wanted / 32 == n && wanted % 32 == 0 {
        Ok(())
    } else {
        Err(Refusal::Wanted)
    }
}

// 13: the list's room is too small for k accesses of n words.
pub fn list_refusal(n: usize, k: usize, room: usize) -> Result<(), Refusal>
    ensures { number_of result ≡ list_of n k room }
{
    if n == 0 {
        return Ok(());
    }
    if room / n < k {
        Err(Refusal::List)
    } else {
        Ok(())
    }
}

// The planner's answer: a refused one has no access.
pub fn plan_answer(outcome: Result<usize, Refusal>) -> PlanAnswer
    ensures { result ≡ record { number = number_of outcome; accesses = result_unwrap_or outcome 0 } }
{
    match outcome {
        Ok(k) => PlanAnswer {
            number: 0,
            accesses: k,
        },
        Err(refusal) => PlanAnswer {
            number: u8::from(refusal),
            accesses: 0,
        },
    }
}

// The check's answer, by whether every driver accepts its words: a list of whole accesses is accepted.
pub fn check_answer(outcome: Result<bool, Refusal>, n: usize, words: usize) -> PlanCheckAnswer
    ensures { result ≡ record { number = number_of outcome; accepted = if (ltb 0 n && eqb (words % n) 0 && result_unwrap_or outcome false) 1 0 } }
{
    match outcome {
        Ok(each) => {
            let whole = n != 0 && words % n == 0;
            PlanCheckAnswer {
                number: 0,
                accepted: (whole && each) as u8,
            }
        }
        Err(refusal) => PlanCheckAnswer {
            number: u8::from(refusal),
            accepted: 0,
        },
    }
}

// 1 where a byte isn't right.
fn wrong(a: u8, x: u8) -> u8
    ensures { result ≡ wrong_by (eqb a x) }
{
    (a != x) as u8
}

// The words that one digit needs, which holds a and b, and is to hold x and y.
fn need(a: u8, b: u8, x: u8, y: u8) -> u8
    ensures { result ≡ need_of a b x y }
{
    let first = wrong(a, x);
    let second = wrong(b, y);
    if x == y {
        first.max(second)
    } else {
        first + second
    }
}

// The words that all digits need without a clear.
fn plain(held: Planes, wanted: Planes) -> usize
    ensures { result ≡ plain_of held wanted }
{
    let mut sum: u8 = 0;
    for k in 0..16 {
        sum += need(held.p0[k], held.p1[k], wanted.p0[k], wanted.p1[k]);
    }
    sum as usize
}

// And with one first.
fn anew(wanted: Planes) -> usize
    ensures { result ≡ anew_of wanted }
{
    1 + plain(Planes::CLEARED, wanted)
}

// The least number of words for one driver.
fn least(held: Planes, wanted: Planes) -> usize
    ensures { result ≡ least_of held wanted }
{
    let kept = plain(held, wanted);
    kept.min(anew(wanted))
}

// The wanted contents of the driver at place i: P0, then P1.
fn wanted_at(wanted: &[u8], i: usize) -> Option<Planes>
    ensures { result ≡ if (is_wanted wanted.now i) (Some (wanted_at wanted.now i)) None }
{
    if i < wanted.len() / 32 {
        let from = 32 * i;
        let mut own = Planes::CLEARED;
        own.p0.copy_from_slice(&wanted[from..from + 16]);
        own.p1.copy_from_slice(&wanted[from + 16..from + 32]);
        return Some(own);
    }
    None
}

// The most words that a driver needs, of those before and the one at place i.
pub fn more(most: usize, i: usize, d: &Device, wanted: &[u8]) -> usize
    ensures { result ≡ max most (reach d.now wanted.now i) }
{
    match wanted_at(wanted, i) {
        Some(own) => most.max(least(d.registers.planes, own)),
        None => most,
    }
}

// A digit's write: in one plane or in both, the digit, its byte.
fn digit_word(planes: u16, k: usize, v: u8) -> u16
    requires { (planes < 32768) × (k < 16) }
    ensures { result ≡ planes + k * 256 + v }
{
    planes + (k as u16) * 256 + v as u16
}

// A clear that keeps the configuration.
fn clear_word(c: Config) -> u16
    ensures { result ≡ clear_word c }
{
    0x0420 + c.i as u16 * 64 + c.e as u16 * 8 + c.b as u16 * 4 + c.s as u16
}

// Where the words of one driver go in a list of accesses of n words: the next to `at`, each n after the one before.
#[derive(Drop)]
struct Column<'a> {
    list: &'a mut [u16],
    n: usize,
    at: usize,
}

impl Column<'_> {
    const IN_P0: u16 = 0x2000;

    const IN_P1: u16 = 0x4000;

    const IN_BOTH: u16 = 0x6000;

    fn write(&mut self, word: u16)
        requires { Room self.old 1 }
        ensures { Puts self.old self.new (word ∷ []) }
    {
        self.list[self.at] = word;
        self.at += self.n;
    }

    // The words that digit k needs: one for both planes where both are wrong and wanted alike.
    fn write_digit(&mut self, k: usize, a: u8, b: u8, x: u8, y: u8)
        requires { (k < 16) × Room self.old (need_of a b x y) }
        ensures { Puts self.old self.new (digit_words k a b x y) }
    {
        match (a == x, b == y) {
            (true, true) => {}
            (true, false) => self.write(digit_word(Column::IN_P1, k, y)),
            (false, true) => self.write(digit_word(Column::IN_P0, k, x)),
            (false, false) => {
                if x == y {
                    self.write(digit_word(Column::IN_BOTH, k, x));
                } else {
                    self.write(digit_word(Column::IN_P0, k, x));
                    self.write(digit_word(Column::IN_P1, k, y));
                }
            }
        }
    }

    // Those of all digits.
    fn write_digits(&mut self, held: Planes, wanted: Planes)
        requires { Room self.old (plain_of held wanted) }
        ensures { Puts self.old self.new (steps held wanted 16) }
    {
        for k in 0..16 {
            self.write_digit(k, held.p0[k], held.p1[k], wanted.p0[k], wanted.p1[k]);
        }
    }

    // No-ops, as many as are asked for.
    fn write_waits(&mut self, count: usize)
        requires { (count ≤ 32) × Room self.old count }
        ensures { Puts self.old self.new (replicate count 0) }
    {
        for _ in 0..count {
            self.write(0);
        }
    }
}

// The words from planes to the wanted contents, and no-ops after them, in a driver's part of k accesses; none where they are more than k.
fn write_plan(column: &mut Column, k: usize, held: Planes, config: Config, wanted: Planes)
    requires { (k ≤ 32) × Room column.old k }
    ensures same_reference { column.new.list.ghost_name ≡ column.old.list.ghost_name }
    ensures planned { column.new.list.now ≡ with_plan column.old.list.now column.old.n k column.old.at (plan_by held config wanted) }
{
    let kept = plain(held, wanted);
    let cleared = anew(wanted);
    if kept <= cleared {
        if kept <= k {
            column.write_digits(held, wanted);
            column.write_waits(k - kept);
        }
    } else if cleared <= k {
        column.write(clear_word(config));
        column.write_digits(Planes::CLEARED, wanted);
        column.write_waits(k - cleared);
    }
}

// Whether there is a place i among n drivers, and room for k accesses.
fn in_room(room: usize, n: usize, k: usize, i: usize) -> bool
    ensures { result ≡ (ltb i n && ltb n 17 && ltb k 33 && leb (k * n) room) }
{
    i < n && n < 17 && k < 33 && k * n <= room
}

// The words of the driver at place i, and no-ops after them: its part of the list's first k accesses.
pub fn write_driver(list: &mut [u16], wanted: &[u8], n: usize, k: usize, i: usize, d: &Device)
    ensures { list.new ≡ with_driver list.old wanted.now n k i d.now }
{
    if let Some(own) = wanted_at(wanted, i) {
        if in_room(list.len(), n, k, i) {
            let mut column = Column { list, n, at: i };
            write_plan(&mut column, k, d.registers.planes, d.registers.config, own);
        }
    }
}

// Configuration data that keeps I, E, B and S, with P, T and X 0.
fn keeps(c: Config, v: u8) -> bool
    ensures { result ≡ keeps_of c v }
{
    let new = Config::of(v);
    let same = new.i == c.i && new.e == c.e && new.b == c.b && new.s == c.s;
    let zero = v / 16 % 2 != 1 && v / 128 % 2 != 1 && v / 2 % 2 != 1;
    same && zero
}

// A digit's byte in a plane.
fn put(plane: &mut [u8], k: u8, v: u8)
    ensures { plane.new ≡ set plane.old k v }
{
    let k = k as usize;
    if k < plane.len() {
        plane[k] = v;
    }
}

// Whether a redraw may give a word; one that it may is obeyed.
fn obeys(c: Config, held: &mut Planes, word: u16) -> bool
    ensures { (if result (Some held.new) None) ≡ if (allowed_by c word) (Some (acted_by held.old (act_of word))) None }
{
    let Word::Write(register, v) = words::decode(word) else {
        return false;
    };
    match register {
        Register::NoOp => v == 0,
        Register::Digit(plane, k) => {
            match plane {
                Plane::P0 => put(&mut held.p0, k, v),
                Plane::P1 => put(&mut held.p1, k, v),
            }
            true
        }
        Register::BothPlanes(k) => {
            put(&mut held.p0, k, v);
            put(&mut held.p1, k, v);
            true
        }
        Register::Configuration => {
            if !keeps(c, v) {
                return false;
            }
            if v / 32 % 2 == 1 {
                *held = Planes::CLEARED;
            }
            true
        }
        _ => false,
    }
}

// Whether a driver accepts its words of a list, at place i of n.
fn own_accepted(d: &Device, wanted: Planes, n: usize, i: usize, list: &[u16]) -> bool
    requires { (i < n) × (n ≤ 16) }
    ensures { result ≡ from_planes d.now.registers.config wanted d.now.registers.planes (words_at n list.now i) }
{
    let mut held = d.registers.planes;
    for access in list.chunks_exact(n) {
        if !obeys(d.registers.config, &mut held, access[i]) {
            return false;
        }
    }
    plain(held, wanted) == 0
}

// Whether all drivers before and the one at place i accept their words of a list.
pub fn accepts(each: bool, i: usize, d: &Device, n: usize, wanted: &[u8], list: &[u16]) -> bool
    ensures { result ≡ (each && accepts_at d.now n wanted.now list.now i) }
{
    if each && i < n && n < 17 {
        if let Some(own) = wanted_at(wanted, i) {
            return own_accepted(d, own, n, i, list);
        }
    }
    false
}
