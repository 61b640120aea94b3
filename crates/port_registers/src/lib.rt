// The registers of one MAX6957 by value: what a write stores, what a read gives and leaves, and transition detection.
#![tactic(auto)]

ghost use Rattle.std.specs.Prelude.{◌≡◌, ◌+◌, ◌/◌, ◌%◌, ◌<◌, ◌≤◌, true, false, MatchOption, get_or, set};
ghost use Rattle.port_words.specs.Table3.{within};
ghost use Rattle.port_registers.specs.Levels.{directions, inputs, levels, watched};
ghost use Rattle.port_registers.specs.PackedPairs.{drawn, sixteen};
ghost use Rattle.port_registers.specs.PortRegisters.{config_of, config_data, armed, accessed, configured, span_written, span_data, written, data_of, after_read};
ghost use Rattle.port_registers.specs.PortTaken.{settled, taken, pinned};
ghost use Rattle.port_registers.specs.PortPowerUp.{power_up};
ghost use Rattle.port_registers.specs.PortSound.{sound_ports};
ghost use Rattle.port_registers.specs.PortSoundness.{PortSoundness};
ghost use Rattle.port_registers.specs.PortByPort.{PortByPort};
ghost use Rattle.port_registers.specs.TransitionDetection.{TransitionDetection};
ghost use Rattle.port_registers.specs.TestShowsOnly.{TestShowsOnly};
ghost use Rattle.port_registers.specs.Table4.{Table4};
ghost use Rattle.port_registers.specs.PortBench.{PortBench};

use port_words::PortRegister;
use words::RegisterFile;

// The stored bits of the configuration register, 0 or 1 each in a sound record.
#[repr(C)]
#[derive(Clone, Copy)]
pub struct PortConfig {
    // 1: P31 is INT.
    pub m: u8,
    // 1: current port by port.
    pub i: u8,
    // 0: shutdown.
    pub s: u8,
}

impl PortConfig {
    // The bits that a configuration byte stores.
    fn of(v: u8) -> PortConfig
        ensures { result ≡ config_of v }
    {
        PortConfig {
            m: v / 128 % 2,
            i: v / 64 % 2,
            s: v % 2,
        }
    }

    // The configuration register as read: M I 0 0 0 0 0 S.
    fn read_data(self) -> u8
        ensures { result ≡ config_data self }
    {
        self.m % 2 * 128 + self.i % 2 * 64 + self.s % 2
    }
}

// Transition detection: bit j of mask and snapshot is port 24 + j.
#[repr(C)]
#[derive(Clone, Copy)]
pub struct Transition {
    pub mask: u8,
    pub snapshot: u8,
    // 1 while the ports are compared with the snapshot.
    pub detecting: u8,
    // INT, 1 when raised.
    pub interrupt: u8,
}

impl Transition {
    // A snapshot taken: detection on, INT cleared.
    fn armed(self, snapshot: u8) -> Transition
        ensures { result ≡ armed self snapshot }
    {
        Transition {
            snapshot,
            detecting: 1,
            interrupt: 0,
            ..self
        }
    }

    // The mask register written or read: INT cleared, detection off where INT was raised.
    fn accessed(mut self) -> Transition
        ensures { result ≡ accessed self }
    {
        if self.interrupt % 2 == 1 {
            self.detecting = 0;
        }
        self.interrupt = 0;
        self
    }
}

// Bit k of the stored bits and of the pin levels is port k + 4, 28 bits in a sound record.
#[repr(C)]
#[derive(Clone, Copy)]
pub struct PortRegisters {
    pub stored: u32,
    pub pins: u32,
    // 0x09 to 0x0F.
    pub pairs: [u8; 7],
    // 0x12 to 0x1F.
    pub currents: [u8; 14],
    // Global current, 4 bits.
    pub global: u8,
    // Display test, 1 bit.
    pub test: u8,
    pub config: PortConfig,
    pub transition: Transition,
}

impl PortRegisters {
    // Table 4 of 004: every port an input without pull-up, in shutdown.
    pub const POWER_UP: PortRegisters = PortRegisters {
        stored: 0,
        pins: 0,
        pairs: [0xAA; 7],
        currents: [0; 14],
        global: 0,
        test: 0,
        config: PortConfig { m: 0, i: 0, s: 0 },
        transition: Transition {
            mask: 0,
            snapshot: 0,
            detecting: 0,
            interrupt: 0,
        },
    };

    pub fn new() -> PortRegisters
        ensures { result ≡ power_up }
    {
        PortRegisters::POWER_UP
    }

    // The ports that are inputs, as bits.
    fn inputs(self) -> u32
        ensures { (result ≡ inputs self) × (result < 0x10000000) }
    {
        if self.config.s % 2 == 1 {
            directions(self.pairs)
        } else {
            0xFFFFFFF
        }
    }

    // What the ports read, as bits.
    #[tactic(auto, unfolding(crate::specs::Levels::levels))]
    pub fn levels(self) -> u32
        ensures { result ≡ levels self }
    {
        let inputs = self.inputs();
        self.pins & inputs | self.stored & (0xFFFFFFF - inputs)
    }

    // Which of P24 to P30 are inputs.
    #[tactic(auto, using(crate::proofs::LevelLaws::directions_watched))]
    fn watched_inputs(self) -> u8
        ensures { (result ≡ inputs self / 0x100000 % 128) × (result < 128) }
    {
        if self.config.s % 2 == 1 {
            (sixteen(self.pairs[5], self.pairs[6], 0, 0) % 128) as u8
        } else {
            127
        }
    }

    // What P24 to P30 read.
    #[tactic(auto, using(crate::proofs::LevelLaws::watched_parts))]
    fn watched(self) -> u8
        ensures { result ≡ watched self }
    {
        let inputs = self.watched_inputs();
        let pins = (self.pins / 0x100000 % 128) as u8;
        let stored = (self.stored / 0x100000 % 128) as u8;
        pins & inputs | stored & (127 - inputs)
    }

    // Configuration written: M, I and S are stored; M=1 takes a snapshot of what is then read, M=0 ends detection.
    fn configured(mut self, v: u8) -> PortRegisters
        ensures { result ≡ configured self v }
    {
        self.config = PortConfig::of(v);
        if v / 128 % 2 == 1 {
            self.transition = self.transition.armed(self.watched());
        } else {
            self.transition.detecting = 0;
        }
        self
    }

    // The comparison with the snapshot: a watched port that reads differently raises INT and ends detection.
    #[tactic(auto, unfolding(crate::specs::PortTaken::settled))]
    pub fn settled(mut self) -> PortRegisters
        ensures { result ≡ settled self }
    {
        if self.transition.detecting % 2 == 1 {
            let read = self.watched();
            if (read ^ self.transition.snapshot) & self.transition.mask != 0 {
                self.transition.detecting = 0;
                self.transition.interrupt = 1;
            }
        }
        self
    }

    // The registers after a word was taken.
    #[tactic(auto, unfolding(crate::specs::PortTaken::taken))]
    pub fn taken(self, word: u16) -> PortRegisters
        ensures { result ≡ taken self word }
    {
        words::obeyed(self, word).settled()
    }

    // Pin levels given.
    #[tactic(auto, unfolding(crate::specs::PortTaken::pinned))]
    pub fn pinned(mut self, levels: u32) -> PortRegisters
        ensures { result ≡ pinned self levels }
    {
        self.pins = levels;
        self.settled()
    }

    // Whether every field fits its register's width.
    pub fn sound(self) -> bool
        ensures { result ≡ sound_ports self }
    {
        let f = self.config;
        let config = (f.m < 2) & (f.i < 2) & (f.s < 2);
        let t = self.transition;
        let transition = (t.mask < 128)
            & (t.snapshot < 128)
            & (t.detecting < 2)
            & (t.interrupt < 2);
        (self.stored < 0x10000000)
            & (self.pins < 0x10000000)
            & (self.global < 16)
            & (self.test < 2)
            & config
            & transition
    }
}

impl RegisterFile for PortRegisters {
    type Register = PortRegister;

    ghost written = { written };

    ghost data_of = { data_of };

    ghost after_read = { after_read };

    fn written(mut self, register: PortRegister, v: u8) -> PortRegisters {
        match register {
            PortRegister::GlobalCurrent => self.global = v % 16,
            PortRegister::Configuration => self = self.configured(v),
            PortRegister::Mask => {
                self.transition.mask = v % 128;
                self.transition = self.transition.accessed();
            }
            PortRegister::DisplayTest => self.test = v % 2,
            PortRegister::Pairs(r) => put(&mut self.pairs, r, v),
            PortRegister::Current(r) => put(&mut self.currents, r, v),
            PortRegister::Span(first, count) => {
                self.stored = span_written(self.stored, first, count, v);
            }
            PortRegister::NoOp | PortRegister::Unlisted => {}
        }
        self
    }

    fn read_data(self, register: PortRegister) -> u8 {
        match register {
            PortRegister::GlobalCurrent => self.global,
            PortRegister::Configuration => self.config.read_data(),
            PortRegister::Mask => self.transition.mask,
            PortRegister::DisplayTest => self.test,
            PortRegister::Pairs(r) => self.pairs.get(r as usize).copied().unwrap_or(0),
            PortRegister::Current(r) => self.currents.get(r as usize).copied().unwrap_or(0),
            PortRegister::Span(first, count) => span_data(self.levels(), first, count),
            PortRegister::NoOp | PortRegister::Unlisted => 0,
        }
    }

    // Only a read of the mask register changes anything.
    fn read(mut self, register: PortRegister) -> PortRegisters {
        match register {
            PortRegister::Mask => self.transition = self.transition.accessed(),
            _ => {}
        }
        self
    }
}

// Bits 1, 3 .. 31 of a number drawn together.
#[tactic(auto, unfolding(crate::specs::PackedPairs::drawn))]
fn drawn(pairs: u32) -> u32
    ensures { result ≡ drawn pairs }
{
    let two = 0x55555555 & (pairs >> 1);
    let four = 0x33333333 & (two | (two >> 1));
    let eight = 0x0F0F0F0F & (four | (four >> 2));
    let half = 0x00FF00FF & (eight | (eight >> 4));
    0x0000FFFF & (half | (half >> 8))
}

// The upper bits of the pairs of four bytes. They are drawn together at once.
fn sixteen(a: u8, b: u8, c: u8, d: u8) -> u32
    ensures { (result ≡ sixteen a b c d) × (result < 0x10000) }
{
    drawn(u32::from_le_bytes([a, b, c, d]))
}

// The upper bits of all pairs, that of P4 lowest.
#[tactic(auto, using(crate::proofs::LevelLaws::upper_zero, crate::proofs::LevelLaws::directions_small), unfolding(crate::specs::Levels::directions))]
fn directions(pairs: [u8; 7]) -> u32
    ensures { (result ≡ directions pairs) × (result < 0x10000000) }
{
    sixteen(pairs[0], pairs[1], pairs[2], pairs[3])
        + sixteen(pairs[4], pairs[5], pairs[6], 0) * 0x10000
}

// The place of the first of some ports; none where they aren't all among P4 to P31, or are more than eight.
fn place(first: u8, count: u8) -> Option<u32>
    ensures { MatchOption result (within first count ≡ false) (λ at. (within first count ≡ true) × (first ≡ at + 4) × (count ≤ 8) × (at + count ≤ 28)) }
{
    if first < 4 || 8 < count || 32 < first as u32 + count as u32 {
        return None;
    }
    Some(first as u32 - 4)
}

// The stored bits after a write to some ports; those that have no place take nothing.
#[tactic(auto, using(crate::proofs::SpanLaws::by_shifts))]
fn span_written(stored: u32, first: u8, count: u8, v: u8) -> u32
    ensures { result ≡ span_written stored first count v }
{
    let Some(at) = place(first, count) else {
        return stored;
    };
    let size = count as u32;
    let end = at + size;
    let high = (stored >> end) << end;
    let middle = (v as u32 & ((1 << size) - 1)) << at;
    let low = stored & ((1 << at) - 1);
    high | (middle | low)
}

// What some ports read, the first in D0; those that have no place read 0.
#[tactic(auto, using(crate::proofs::SpanLaws::read_shifts))]
fn span_data(levels: u32, first: u8, count: u8) -> u8
    ensures { result ≡ span_data levels first count }
{
    let Some(at) = place(first, count) else {
        return 0;
    };
    let read = (levels >> at) & ((1 << count) - 1);
    (read % 256) as u8
}

// The byte at i replaced; an i past the end changes nothing.
fn put(bytes: &mut [u8], i: u8, v: u8)
    ensures { bytes.new ≡ set bytes.old i v }
{
    let at = i as usize;
    if at < bytes.len() {
        bytes[at] = v;
    }
}

// A theorem: what reads give and writes leave, port by port.
pub fn port_by_port()
    ensures { PortByPort }
{}

// A theorem: what arms transition detection, raises INT, and lowers it.
pub fn transition_detection()
    ensures { TransitionDetection }
{}

// A theorem: display test changes no read and no step.
pub fn test_shows_only()
    ensures { TestShowsOnly }
{}

// A theorem: the power-up record is sound, and each step leaves a sound record sound.
pub fn soundness()
    ensures { PortSoundness }
{}

// A theorem: the power-up record is what Table 4 of 004 says.
pub fn table_4()
    ensures { Table4 }
{}

// A theorem: worked examples of words and pin levels.
pub fn examples()
    ensures { PortBench }
{}
