// A chain of MAX6954 by value: the calls on a row of records.
#![tactic(auto)]

ghost use Rattle.std.specs.Prelude.{◌-◌, ◌≤◌, ◌≡◌, length, get_or, set, take, replicate};
ghost use Rattle.device.specs.PowerUp.{power_up};
ghost use Rattle.calls.specs.Calls.{access as access_call, give, scan as scan_step, levels as levels_step, clocks as clocks_step, segments as segments_question};
ghost use Rattle.device.specs.Families.{families};
ghost use Rattle.calls.specs.CallRefusals.{families_below, all_sound};
ghost use Rattle.pass.specs.Seen.{no_seen, seen_of};
ghost use Rattle.refusals.specs.Numbers.{number_of, number_by};
ghost use Rattle.pass.specs.Own.{own_of};
ghost use Rattle.pass.specs.Found.{access_by_arguments, found, call_refusal};
ghost use Rattle.pass.specs.OneByOne.{words_to, taken_to};
ghost use Rattle.row.specs.Row.{fresh, records, reply_on, done_on, shown_on};

use device::Device;
use pass::{Asked, Seen};
use refusals::Refusal;

// A chain of n drivers: the first n of sixteen records. A length above 16 counts as 16.
#[derive(Clone, Copy)]
pub struct Row {
    pub n: usize,
    pub devices: [Device; 16],
}

// What a call leaves: its number, and the row after it.
#[derive(Clone, Copy)]
pub struct Done {
    pub number: u8,
    pub row: Row,
}

// What a show finds: its number, the pins of a cathode, and the answer mark of its driver.
#[derive(Clone, Copy)]
pub struct Shown {
    pub number: u8,
    pub pins: [u8; 19],
    pub mark: u8,
}

impl Row {
    // A chain of n drivers at power-up.
    pub fn new(n: usize) -> Row
        ensures { result ≡ fresh n }
    {
        let d = Device::new();
        Row {
            n: n,
            devices: [d; 16],
        }
    }

    // How many drivers there are, at most 16.
    fn length(self) -> usize
        ensures { (result ≡ length (records self)) × (result ≤ 16) }
    {
        if self.n < 16 { self.n } else { 16 }
    }

    // What the first n of sixteen records tell.
    fn seen(self, n: usize) -> Seen
        requires { n ≤ 16 }
        ensures { result ≡ seen_of no_seen (take n self.devices) }
    {
        let mut w = Seen::new();
        for i in 0..n {
            let d = self.devices[i];
            w = w.with(d);
        }
        w
    }

    // Whether an access is refused, by its arguments and then by the records.
    fn found(self, clocks: usize, sent: usize, room: usize) -> Result<(), Refusal>
        ensures { number_of result ≡ found (access_by_arguments (length (records self)) clocks sent room) (all_sound (records self)) (families_below 2 (families (records self))) }
    {
        let n = self.length();
        pass::access_by_arguments(n, clocks, sent, room)?;
        pass::found(self.seen(n))
    }

    // Whether a call that names a driver is refused. Where it isn't the driver is one of the sixteen.
    fn refusal(self, driver: usize, asked: Asked) -> Result<(), Refusal>
        ensures number { number_of result ≡ call_refusal (records self) driver (own_of asked) }
        ensures there { number_of result ≡ 0 → (1 ≤ driver) × (driver ≤ 16) }
    {
        let n = self.length();
        pass::by_arguments(n, driver)?;
        let w = self.seen(n);
        let d = self.named(driver);
        pass::found_by(w, d.family, asked)
    }

    // The record of the driver named; past the sixteen, one at power-up.
    pub fn named(self, driver: usize) -> Device
        ensures { result ≡ get_or self.devices (driver - 1) power_up }
    {
        if driver == 0 {
            return self.devices[0];
        }
        if driver < 17 {
            return self.devices[driver - 1];
        }
        Device::POWER_UP
    }

    // A call that is refused: nothing changes.
    fn refused(self, refusal: Refusal) -> Done
        ensures { result ≡ record { number = number_by refusal; row = self } }
    {
        let number = u8::from(refusal);
        Done {
            number: number,
            row: self,
        }
    }

    // A call that is served: a driver's record replaced.
    fn served(mut self, driver: usize, new: Device) -> Done
        requires { (1 ≤ driver) × (driver ≤ 16) }
        ensures { result ≡ record { number = 0; row = record { n = self.n; devices = set self.devices (driver - 1) new } } }
    {
        let at = driver - 1;
        self.devices[at] = new;
        Done {
            number: 0,
            row: self,
        }
    }

    // A key scan of one driver: the closed keys of groups A to D.
    pub fn scan(self, driver: usize, a: u8, b: u8, c: u8, d: u8) -> Done
        ensures { result ≡ done_on self (give driver (scan_step a b c d)) }
    {
        match self.refusal(driver, pass::scan_refusal(a, b, c, d)) {
            Ok(()) => {
                let old = self.named(driver);
                self.served(driver, old.scanned(a, b, c, d))
            }
            Err(refusal) => self.refused(refusal),
        }
    }

    // The pin levels of one driver.
    pub fn set_pins(self, driver: usize, levels: u32) -> Done
        ensures { result ≡ done_on self (give driver (levels_step levels)) }
    {
        match self.refusal(driver, pass::levels_refusal(levels)) {
            Ok(()) => {
                let old = self.named(driver);
                self.served(driver, old.with_pins(levels))
            }
            Err(refusal) => self.refused(refusal),
        }
    }

    // Master clocks given to one driver.
    pub fn add_clocks(self, driver: usize, clocks: u32) -> Done
        ensures { result ≡ done_on self (give driver (clocks_step clocks)) }
    {
        match self.refusal(driver, pass::clocks_refusal(clocks)) {
            Ok(()) => {
                let old = self.named(driver);
                self.served(driver, old.clocked(clocks))
            }
            Err(refusal) => self.refused(refusal),
        }
    }

    // The shift words of the first n of sixteen records, then 0.
    fn shift_words(self, n: usize) -> [u16; 16]
        requires { n ≤ 16 }
        ensures { result ≡ words_to self.devices (replicate 16 0) n }
    {
        let mut words = [0; 16];
        for k in 0..n {
            let d = self.devices[k];
            words[k] = d.shift;
        }
        words
    }

    // The first n of sixteen records take their words.
    fn all_taken(mut self, n: usize, words: [u16; 16]) -> Row
        requires { n ≤ 16 }
        ensures { result ≡ record { n = self.n; devices = taken_to self.devices words n } }
    {
        for at in 0..n {
            let old = self.devices[at];
            self.devices[at] = old.taken(words[at]);
        }
        self
    }

    // Clocks through the chain: the answer goes to the room, and every driver takes its word.
    pub fn access(self, clocks: usize, sent: &[u8], room: &mut [u8]) -> Done
        ensures { (result ≡ done_on self (access_call clocks sent.now room.old)) × (room.new ≡ reply_on self (access_call clocks sent.now room.old)) }
    {
        match self.found(clocks, sent.len(), room.len()) {
            Ok(()) => {
                let n = self.length();
                let mut words = self.shift_words(n);
                wire::shift(&mut words[..n], clocks, sent, room);
                Done {
                    number: 0,
                    row: self.all_taken(n, words),
                }
            }
            Err(refusal) => self.refused(refusal),
        }
    }

    // What a cathode of one driver shows under two glyph tables, and the driver's answer mark.
    pub fn show(self, driver: usize, cathode: usize, font14: &[u16], font16: &[u16]) -> Shown
        ensures { result ≡ shown_on self driver (segments_question cathode font14.now font16.now) }
    {
        match self.refusal(driver, pass::segments_refusal(cathode, font14, font16)) {
            Ok(()) => {
                let asked = self.named(driver);
                let answer = shown_pins::segments(asked, cathode, font14, font16);
                let pins = answer.pins;
                Shown {
                    number: 0,
                    pins: pins,
                    mark: asked.answer_mark,
                }
            }
            Err(refusal) => Shown {
                number: u8::from(refusal),
                pins: [0; 19],
                mark: 0,
            },
        }
    }
}
