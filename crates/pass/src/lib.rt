// Whether a call is refused, by value: by its arguments, and by a pass over the records of a chain.
#![tactic(auto)]

ghost use Rattle.std.specs.Prelude.{◌≡◌, ltb};
ghost use Rattle.ground.specs.Choice.{if};
ghost use Rattle.refusals.specs.Numbers.{number_of};
ghost use Rattle.refusals.specs.Refusals.{chain_refusal, driver_refusal, sound_refusal, family_refusal};
ghost use Rattle.calls.specs.Calls.{scan, levels as pin_levels, clocks as master_clocks, plane, segments, brightness, shown, interrupt, answer_mark, look_back, ports};
ghost use Rattle.pass.specs.Widths.{Bytes, no_widths, widths_with, fit, all_old};
ghost use Rattle.pass.specs.declared.Asked.TheVariants.{Levels, Any};
ghost use Rattle.pass.specs.Own.{argument_at, lack_at, row_lack_at, row_own, step_own, question_own, own_of};
ghost use Rattle.pass.specs.Seen.{no_seen, seen_with, seen_fit};
ghost use Rattle.pass.specs.Found.{by_arguments, access_by_arguments, in_room, found, found_old, found_by};

use device::Device;
use refusals::Refusal;

// What the records passed so far tell of soundness: the bits of their fields, one over the other.
#[derive(Clone, Copy)]
pub struct Widths {
    // A byte each, in the record's order: global, limit, gpio, ports, test, types, i, e.
    pub first: u64,
    // And b, s.
    pub last: u16,
    pub pins: u32,
    // The greatest blink count.
    pub blink: u32,
    pub interrupt: u8,
    // A byte each: the fitted byte, the answer mark, the command address and the family.
    pub ends: u32,
}

impl Widths {
    // Of no record.
    pub fn new() -> Widths
        ensures { result ≡ no_widths }
    {
        Widths {
            first: 0,
            last: 0,
            pins: 0,
            blink: 0,
            interrupt: 0,
            ends: 0,
        }
    }

    // Of one record more.
    pub fn with(self, d: Device) -> Widths
        ensures wider { result ≡ widths_with self d }
        ensures bytes { Bytes d }
    {
        let x = d.registers;
        let c = x.controls;
        let f = x.config;
        let k = x.keys;
        let first = u64::from_le_bytes([
            c.global, c.limit, c.gpio, c.ports, c.test, c.types, f.i, f.e,
        ]);
        Widths {
            first: self.first | first,
            last: self.last | u16::from_le_bytes([f.b, f.s]),
            pins: self.pins | x.pins,
            blink: self.blink.max(x.blink),
            interrupt: self.interrupt | k.interrupt,
            ends: self.ends | u32::from_le_bytes([d.fitted, d.answer_mark, d.command, d.family]),
        }
    }

    // Whether every record, taken as one of the old family, was sound: no field has a bit too high, and no blink count is.
    pub fn fit(self) -> bool
        ensures { result ≡ fit self }
    {
        let controls = ((self.first & 255) < 16)
            & (((self.first >> 8) & 255) < 8)
            & (((self.first >> 16) & 255) < 32)
            & (((self.first >> 32) & 255) < 2);
        let config = (((self.first >> 48) & 255) < 2)
            & (((self.first >> 56) & 255) < 2)
            & ((self.last & 255) < 2)
            & (((self.last >> 8) & 255) < 2);
        let registers = controls
            & config
            & (self.interrupt < 2)
            & (self.pins < 32)
            & (self.blink < 4000000);
        registers & (((self.ends >> 8) & 255) < 2) & (((self.ends >> 16) & 255) < 128)
    }

    // Whether every record was of the old family.
    pub fn old(self) -> bool
        ensures { result ≡ all_old self }
    {
        ((self.ends >> 24) & 255) < 1
    }
}

// What the records passed so far tell, each by its own family.
#[derive(Clone, Copy)]
pub struct Seen {
    // Whether all but the MAX6957 were sound.
    pub sound: bool,
    // Of the MAX6957 the bits of their fields, one over the other.
    pub stored: u32,
    pub pins: u32,
    // A byte each, in the record's order: global, test, m, i, s, mask, snapshot, detecting.
    pub first: u64,
    pub interrupt: u8,
    pub mark: u8,
    // The bits of all families.
    pub families: u8,
}

impl Seen {
    // Of no record.
    pub fn new() -> Seen
        ensures { result ≡ no_seen }
    {
        Seen {
            sound: true,
            stored: 0,
            pins: 0,
            first: 0,
            interrupt: 0,
            mark: 0,
            families: 0,
        }
    }

    // Of one record more.
    pub fn with(self, d: Device) -> Seen
        ensures seen { result ≡ seen_with self d }
        ensures bytes { Bytes d }
    {
        let x = d.ports;
        let f = x.config;
        let t = x.transition;
        if d.family == 1 {
            let first = u64::from_le_bytes([
                x.global,
                x.test,
                f.m,
                f.i,
                f.s,
                t.mask,
                t.snapshot,
                t.detecting,
            ]);
            return Seen {
                sound: self.sound,
                stored: self.stored | x.stored,
                pins: self.pins | x.pins,
                first: self.first | first,
                interrupt: self.interrupt | t.interrupt,
                mark: self.mark | d.answer_mark,
                families: self.families | 1,
            };
        }
        Seen {
            sound: self.sound & d.sound(),
            stored: self.stored,
            pins: self.pins,
            first: self.first,
            interrupt: self.interrupt,
            mark: self.mark,
            families: self.families | d.family,
        }
    }

    // Whether every record was sound.
    pub fn fit(self) -> bool
        ensures { result ≡ seen_fit self }
    {
        let levels = (self.stored < 268435456) & (self.pins < 268435456);
        let controls = levels & ((self.first & 255) < 16) & (((self.first >> 8) & 255) < 2);
        let config = (((self.first >> 16) & 255) < 2)
            & (((self.first >> 24) & 255) < 2)
            & (((self.first >> 32) & 255) < 2);
        let transition = (((self.first >> 40) & 255) < 128)
            & (((self.first >> 48) & 255) < 128)
            & (((self.first >> 56) & 255) < 2)
            & (self.interrupt < 2);
        let ports = controls & config & transition & (self.mark < 2);
        self.sound & ports
    }
}

// What a call is tested by beside the records.
#[derive(Clone, Copy, Debug, PartialEq, Eq)]
pub enum Asked {
    // Of the display, which a MAX6957 lacks; and whether the arguments are in range.
    Display(bool),
    // Pin levels: their range is by the family of the driver.
    Levels(u32),
    // What every driver has.
    Any,
    // The ports, which the old family lacks.
    Ports,
    // The whole row, in which there may be no MAX6957.
    Row,
}

// Whether pin levels are in range, by the family of the driver; of an unknown one they are not tested.
fn levels_fit(levels: u32, family: u8) -> bool
    ensures { (if result 0 6) ≡ argument_at (step_own (pin_levels levels)) family }
{
    match family {
        0 => levels < 32,
        1 => levels < 268435456,
        _ => true,
    }
}

impl Asked {
    // 6: an argument out of its range, by the family of the driver.
    fn argument(self, family: u8) -> Result<(), Refusal>
        ensures { number_of result ≡ argument_at (own_of self) family }
    {
        let fits = match self {
            Self::Display(fits) => fits,
            Self::Levels(levels) => levels_fit(levels, family),
            _ => true,
        };
        if fits { Ok(()) } else { Err(Refusal::Argument) }
    }

    // 14: a driver of the family lacks it.
    fn lack(self, family: u8) -> Result<(), Refusal>
        ensures { number_of result ≡ lack_at (own_of self) family }
    {
        let lacks = match self {
            Self::Display(_) => family == 1,
            Self::Ports => family == 0,
            _ => false,
        };
        if lacks { Err(Refusal::Lacked) } else { Ok(()) }
    }

    // 14: the row lacks it, by whether all its drivers are of the old family.
    fn row_lack(self, old: bool) -> Result<(), Refusal>
        ensures { number_of result ≡ row_lack_at (own_of self) old }
    {
        match self {
            Self::Row if !old => Err(Refusal::Lacked),
            _ => Ok(()),
        }
    }
}

// 1: the chain has 0 or more than 16 records.
fn chain_refusal(n: usize) -> Result<(), Refusal>
    ensures { number_of result ≡ chain_refusal n }
{
    if (0 < n) & (n < 17) {
        Ok(())
    } else {
        Err(Refusal::Chain)
    }
}

// 2: driver number not in 1..n.
fn driver_refusal(n: usize, driver: usize) -> Result<(), Refusal>
    ensures { number_of result ≡ driver_refusal n driver }
{
    if (0 < driver) & (driver <= n) {
        Ok(())
    } else {
        Err(Refusal::Driver)
    }
}

// 7: some record isn't sound.
fn sound_refusal(sound: bool) -> Result<(), Refusal>
    ensures { number_of result ≡ sound_refusal sound }
{
    if sound { Ok(()) } else { Err(Refusal::Unsound) }
}

// 14: the family of some record is too high.
fn family_refusal(known: bool) -> Result<(), Refusal>
    ensures { number_of result ≡ family_refusal known }
{
    if known { Ok(()) } else { Err(Refusal::Lacked) }
}

// Whether a call that names a driver is refused by these alone.
pub fn by_arguments(n: usize, driver: usize) -> Result<(), Refusal>
    ensures { number_of result ≡ by_arguments n driver }
{
    chain_refusal(n)?;
    driver_refusal(n, driver)
}

// Whether an access is refused by its arguments.
pub fn access_by_arguments(n: usize, clocks: usize, sent: usize, room: usize) -> Result<(), Refusal>
    ensures { number_of result ≡ access_by_arguments n clocks sent room }
{
    chain_refusal(n)?;
    refusals::size_refusal(clocks, sent, room)
}

// How many of n records have one of w words: all or none.
pub fn in_room(n: usize, w: usize) -> usize
    ensures { result ≡ in_room n w }
{
    if n <= w { n } else { 0 }
}

// Whether an access is refused by the records.
pub fn found(seen: Seen) -> Result<(), Refusal>
    ensures { number_of result ≡ found 0 (seen_fit seen) (ltb seen.families 2) }
{
    sound_refusal(seen.fit())?;
    family_refusal(seen.families < 2)
}

// Whether a call is refused whose records are all of the old family.
pub fn found_old(widths: Widths, asked: Asked) -> Result<(), Refusal>
    ensures { number_of result ≡ found_old 0 (fit widths) (own_of asked) }
{
    asked.argument(0)?;
    sound_refusal(widths.fit())?;
    asked.lack(0)
}

// Whether a call to a driver of a family is refused, by the records alone.
pub fn found_by(seen: Seen, family: u8, asked: Asked) -> Result<(), Refusal>
    ensures { number_of result ≡ found_by (seen_fit seen) (ltb seen.families 2) (ltb seen.families 1) (own_of asked) family }
{
    asked.argument(family)?;
    sound_refusal(seen.fit())?;
    family_refusal(seen.families < 2)?;
    asked.lack(family)?;
    asked.row_lack(seen.families < 1)
}

// Keys that a scan gives: none is refused.
pub fn scan_refusal(a: u8, b: u8, c: u8, d: u8) -> Asked
    ensures { own_of result ≡ step_own (scan a b c d) }
{
    Asked::Display(true)
}

// Pin levels: 6 above 31, or of a MAX6957 above 28 bits.
pub fn levels_refusal(levels: u32) -> Asked
    ensures own { own_of result ≡ step_own (pin_levels levels) }
    ensures levels { result ≡ Levels levels }
{
    Asked::Levels(levels)
}

// Clocks: none are refused.
pub fn clocks_refusal(clocks: u32) -> Asked
    ensures { own_of result ≡ step_own (master_clocks clocks) }
{
    Asked::Display(true)
}

// 6: a lent plane not 16 long, a digit above 15, or a last digit below the first.
pub fn plane_refusal(p0: &[u8], p1: &[u8], first: usize, last: usize) -> Asked
    ensures { own_of result ≡ question_own (plane p0.now p1.now first last) }
{
    Asked::Display(blink::plane_refusal(p0, p1, first, last).is_ok())
}

// 6: a cathode above 7, or a glyph table not 128 long.
pub fn segments_refusal(cathode: usize, font14: &[u16], font16: &[u16]) -> Asked
    ensures { own_of result ≡ question_own (segments cathode font14.now font16.now) }
{
    Asked::Display(shown_pins::segments_refusal(cathode, font14, font16).is_ok())
}

// 6: a digit above 15.
pub fn brightness_refusal(digit: usize) -> Asked
    ensures { own_of result ≡ question_own (brightness digit) }
{
    Asked::Display(digit < 16)
}

// The plane shown: every driver but a MAX6957 may be asked for it.
pub fn shown_refusal() -> Asked
    ensures { own_of result ≡ question_own shown }
{
    Asked::Display(true)
}

// The interrupt: every driver may.
pub fn interrupt_refusal() -> Asked
    ensures own { own_of result ≡ question_own interrupt }
    ensures interrupt { result ≡ Any }
{
    Asked::Any
}

// And the answer mark.
pub fn mark_refusal() -> Asked
    ensures own { own_of result ≡ question_own answer_mark }
    ensures mark { result ≡ Any }
{
    Asked::Any
}

// 6: a plane above 1, or a digit above 15.
pub fn look_back_refusal(plane: usize, digit: usize, words: &[u16]) -> Asked
    ensures { own_of result ≡ question_own (look_back plane digit words.now) }
{
    Asked::Display((plane < 2) & (digit < 16))
}

// What the ports drive: the old family lacks it.
pub fn ports_refusal() -> Asked
    ensures { own_of result ≡ question_own ports }
{
    Asked::Ports
}

// What is asked of the whole row: a MAX6957 anywhere in it lacks it.
pub fn row_own() -> Asked
    ensures { own_of result ≡ row_own }
{
    Asked::Row
}
