// One driver by value: its record, the word that it takes, and the other steps that change it.
#![tactic(auto)]

ghost use Rattle.std.specs.Prelude.{◌≡◌};
ghost use Rattle.ground.specs.Choice.{if, bit};
ghost use Rattle.device.specs.Record.{with_fitted};
ghost use Rattle.device.specs.PowerUp.{power_up, power_up6957};
ghost use Rattle.device.specs.Sound.{sound_of};
ghost use Rattle.device.specs.Steps.{scanned, clocked, shown_plane};
ghost use Rattle.device.specs.TwoWire.{next_address, commanded, received, sent_data, sent};
ghost use Rattle.device.specs.Families.{takes, pinned, interrupt_of, port_sound, sound_record};
ghost use Rattle.device.specs.Soundness.{Soundness};
ghost use Rattle.device.specs.BothFamilies.{BothFamilies};
ghost use Rattle.device.specs.ShiftWord.{ShiftWord};
ghost use Rattle.device.specs.FittedByte.{FittedByte};
ghost use Rattle.device.specs.PlaneShown.{PlaneShown};
ghost use Rattle.device.specs.BothBuses.{BothBuses};
ghost use Rattle.device.specs.Table15.{Table15};
ghost use Rattle.device.specs.Examples.{Examples};

use controls::{Config, Controls};
use digits::Planes;
use keys::Keys;
use port_registers::PortRegisters;
use registers::Registers;
use words::{Addressed, Plane, Register, RegisterFile};

#[repr(C)]
#[derive(Clone, Copy)]
pub struct Device {
    pub registers: Registers,
    // The shift word, D15 first.
    pub shift: u16,
    // Bit d: cathode d has a pair of 7-segment digits where its digit type is 0.
    pub fitted: u8,
    // 1 where the word last taken was a read, else 0.
    pub answer_mark: u8,
    // The command address of the two-wire bus, seven bits.
    pub command: u8,
    // 0: a MAX6954 or MAX6955, whose registers are above. 1: a MAX6957, whose registers are below. Others are refused.
    pub family: u8,
    pub ports: PortRegisters,
}

impl Device {
    // Table 15; digits 0 to 7 hold 0x20 in both planes.
    const REGISTERS: Registers = Registers {
        controls: Controls {
            decode: 255,
            global: 0,
            limit: 7,
            gpio: 0,
            ports: 31,
            test: 0,
            types: 0,
        },
        config: Config {
            i: 0,
            e: 0,
            b: 0,
            s: 0,
        },
        intensities: [0; 8],
        keys: Keys::RELEASED,
        planes: Planes {
            p0: [32, 32, 32, 32, 32, 32, 32, 32, 0, 0, 0, 0, 0, 0, 0, 0],
            p1: [32, 32, 32, 32, 32, 32, 32, 32, 0, 0, 0, 0, 0, 0, 0, 0],
        },
        pins: 0,
        blink: 0,
    };

    pub const POWER_UP: Device = Device {
        registers: Device::REGISTERS,
        shift: 0,
        fitted: 255,
        answer_mark: 0,
        command: 0,
        family: 0,
        ports: PortRegisters::POWER_UP,
    };

    // A MAX6957 at power-up; it differs in the family alone.
    pub const MAX6957_POWER_UP: Device = Device {
        family: 1,
        ..Device::POWER_UP
    };

    pub fn new() -> Device
        ensures { result ≡ power_up }
    {
        Device::POWER_UP
    }

    pub fn new_6957() -> Device
        ensures { result ≡ power_up6957 }
    {
        Device::MAX6957_POWER_UP
    }

    // The power-up record of a driver whose cathodes are fitted as given.
    pub fn new_fitted(fitted: u8) -> Device
        ensures { result ≡ with_fitted power_up fitted }
    {
        Device {
            fitted,
            ..Device::POWER_UP
        }
    }

    // A word taken: the registers of its family obey it, and it becomes the shift word, with what a read answers in its D7 to D0.
    #[tactic(auto, using(crate::proofs::Shift::old_taken), unfolding(crate::specs::Families::takes))]
    pub fn taken(self, word: u16) -> Device
        ensures { result ≡ takes self word }
    {
        let marked = Device {
            answer_mark: answer_mark(word),
            ..self
        };
        if self.family == 1 {
            Device {
                ports: self.ports.taken(word),
                shift: words::shift_word(self.ports, word),
                ..marked
            }
        } else {
            Device {
                registers: words::obeyed(self.registers, word),
                shift: words::shift_word(self.registers, word),
                ..marked
            }
        }
    }

    // A key scan: the closed keys of groups A to D.
    pub fn scanned(mut self, a: u8, b: u8, c: u8, d: u8) -> Device
        ensures { result ≡ scanned self a b c d }
    {
        let groups = self.registers.controls.ports;
        self.registers.keys = self.registers.keys.scanned(groups, a, b, c, d);
        self
    }

    // Pin levels given: 28 of a MAX6957, else five.
    #[tactic(auto, unfolding(crate::specs::Families::pinned))]
    pub fn with_pins(mut self, levels: u32) -> Device
        ensures { result ≡ pinned self levels }
    {
        if self.family == 1 {
            self.ports = self.ports.pinned(levels);
        } else {
            self.registers.pins = levels;
        }
        self
    }

    // Whether the interrupt is raised.
    pub fn interrupt(self) -> u8
        ensures { result ≡ interrupt_of self }
    {
        if self.family == 1 {
            self.ports.transition.interrupt
        } else {
            self.registers.keys.interrupt
        }
    }

    // Master clocks given.
    pub fn clocked(mut self, clocks: u32) -> Device
        ensures { result ≡ clocked self clocks }
    {
        self.registers.blink = blink::advanced(self.registers.blink, clocks);
        self
    }

    // A command byte of the two-wire bus: the address, its top bit ignored.
    #[tactic(auto, unfolding(crate::specs::TwoWire::commanded))]
    pub fn commanded(self, v: u8) -> Device
        ensures { result ≡ commanded self v }
    {
        Device {
            command: v % 128,
            ..self
        }
    }

    // A data byte of the two-wire bus, written at the command address, which then steps.
    #[tactic(auto, unfolding(crate::specs::TwoWire::received))]
    pub fn received(self, v: u8) -> Device
        ensures { result ≡ received self v }
    {
        let to = self.command;
        Device {
            registers: self.registers.written(Register::written_at(to), v),
            command: next_address(to),
            ..self
        }
    }

    // The data that the two-wire bus reads at the command address.
    #[tactic(auto, unfolding(crate::specs::TwoWire::sent_data))]
    pub fn sent_data(self) -> u8
        ensures { result ≡ sent_data self }
    {
        self.registers.read_data(Register::read_at(self.command))
    }

    // What that read leaves; the command address then steps.
    #[tactic(auto, unfolding(crate::specs::TwoWire::sent))]
    pub fn sent(self) -> Device
        ensures { result ≡ sent self }
    {
        let from = self.command;
        Device {
            registers: self.registers.read(Register::read_at(from)),
            command: next_address(from),
            ..self
        }
    }

    // The plane shown.
    pub fn shown(self) -> Plane
        ensures { result ≡ shown_plane self }
    {
        blink::shown(
            self.registers.blink,
            blink::is_set(self.registers.config.b),
            blink::is_set(self.registers.config.e),
        )
    }

    // Whether every field of the old family fits its register's width, the blink count is below 4,000,000, the answer mark is 0 or 1
    // and the command address is below 128.
    fn old_sound(self) -> bool
        ensures { result ≡ sound_of self }
    {
        let x = self.registers;
        let c = x.controls;
        let controls = (c.global < 16) & (c.limit < 8) & (c.gpio < 32) & (c.test < 2);
        let f = x.config;
        let config = (f.i < 2) & (f.e < 2) & (f.b < 2) & (f.s < 2);
        let registers = controls
            & config
            & (x.keys.interrupt < 2)
            & (x.pins < 32)
            & (x.blink < 4000000);
        registers & (self.answer_mark < 2) & (self.command < 128)
    }

    // Whether every field of a MAX6957 does.
    fn ports_sound(self) -> bool
        ensures { result ≡ port_sound self }
    {
        self.ports.sound() & (self.answer_mark < 2)
    }

    // Whether the fields of the record's own family do.
    #[tactic(auto, unfolding(crate::specs::Families::sound_record))]
    pub fn sound(self) -> bool
        ensures { result ≡ sound_record self }
    {
        if self.family == 0 {
            return self.old_sound();
        }
        if self.family == 1 {
            return self.ports_sound();
        }
        true
    }
}

// The answer mark that a word leaves: its D15.
pub fn answer_mark(word: u16) -> u8
    ensures { result ≡ if (bit 15 word) 1 0 }
{
    u8::from(words::is_read(word))
}

// The command address after a data byte: it stays at 127.
fn next_address(a: u8) -> u8
    ensures { result ≡ next_address a }
{
    if a < 127 { a + 1 } else { 127 }
}

// A theorem: when a record is sound, that the power-up record is, and that each step leaves a sound record so.
pub fn soundness()
    ensures { Soundness }
{}

// A theorem: the shift word and the answer mark after a word is taken.
pub fn shift_word()
    ensures { ShiftWord }
{}

// A theorem: nothing that a driver is given changes its fitted byte.
pub fn fitted_byte()
    ensures { FittedByte }
{}

// A theorem: the plane shown is P0, or by E that of the phase that P reads.
pub fn plane_shown()
    ensures { PlaneShown }
{}

// A theorem: a byte of the two-wire bus writes and reads the registers that a word does, and what touches the command address.
pub fn both_buses()
    ensures { BothBuses }
{}

// A theorem: the power-up record is what Table 15 says.
pub fn table_15()
    ensures { Table15 }
{}

// A theorem: both families: soundness, the word taken, and that nothing changes the family or the other family's registers.
pub fn both_families()
    ensures { BothFamilies }
{}

// A theorem: the bench examples of one driver.
pub fn examples()
    ensures { Examples }
{}
