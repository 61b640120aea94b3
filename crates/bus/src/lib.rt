// The two-wire bus of the MAX6955: its state, and the theorems over its calls and whole lists of them.
#![tactic(auto)]

ghost use Rattle.std.specs.Prelude.{◌≡◌};
ghost use Rattle.bus.specs.States.{use_at, state_of, phase_of, bus_of, sound_bus};
ghost use Rattle.bus.specs.BusIsolation.{BusIsolation};
ghost use Rattle.bus.specs.Acknowledged.{Acknowledged};
ghost use Rattle.bus.specs.Transactions.{Transactions};
ghost use Rattle.bus.specs.BusSoundness.{BusSoundness};
ghost use Rattle.bus.specs.BusKept.{BusKept};
ghost use Rattle.bus.specs.ChainCalls.{ChainCalls};
ghost use Rattle.bus.specs.BusExamples.{BusExamples};

#[repr(C)]
#[derive(Clone, Copy)]
pub struct Bus {
    // The part that the open transfer names; 0 where none is open.
    pub part: usize,
    // Of part 0: 0 idle, 1 the slave byte is awaited, 2 after an unmatched one.
    // Of a part: 0 a write whose command address is awaited, 1 a write of data, 2 a read.
    pub phase: u8,
}

impl Bus {
    pub const IDLE: Bus = Bus { part: 0, phase: 0 };

    // Whether it names a part that is there, of n, or none, in a phase that there is.
    pub fn is_sound(self, n: usize) -> bool
        ensures { result ≡ sound_bus n self }
    {
        self.part <= n && self.phase < 3
    }
}

// An open transfer: a write whose command address is awaited, a write of data, a read.
#[derive(Clone, Copy)]
pub enum Use {
    Command,
    Writing,
    Reading,
}

impl From<u8> for Use {
    ghost from_gives = { λ phase u. u ≡ use_at phase };

    fn from(phase: u8) -> Use {
        match phase {
            0 => Use::Command,
            1 => Use::Writing,
            _ => Use::Reading,
        }
    }
}

impl From<Use> for u8 {
    ghost from_gives = { λ u phase. phase ≡ phase_of u };

    fn from(u: Use) -> u8 {
        u as u8
    }
}

// What a bus state stands for: idle; the slave byte is awaited; after an unmatched one, a start is awaited; a transfer of a part.
#[derive(Clone, Copy)]
pub enum State {
    Idle,
    Slave,
    Unmatched,
    Transfer(usize, Use),
}

impl From<Bus> for State {
    ghost from_gives = { λ bus state. state ≡ state_of bus };

    fn from(bus: Bus) -> State {
        match (bus.part, bus.phase) {
            (0, 0) => State::Idle,
            (0, 1) => State::Slave,
            (0, _) => State::Unmatched,
            (part, phase) => State::Transfer(part, Use::from(phase)),
        }
    }
}

impl From<State> for Bus {
    ghost from_gives = { λ state bus. bus ≡ bus_of state };

    fn from(state: State) -> Bus {
        match state {
            State::Idle => Bus::IDLE,
            State::Slave => Bus { part: 0, phase: 1 },
            State::Unmatched => Bus { part: 0, phase: 2 },
            State::Transfer(part, u) => Bus {
                part: part,
                phase: u8::from(u),
            },
        }
    }
}

// A theorem, demand 3 for this bus: after any list of calls each part is as it would be alone, given only the transactions that name it.
pub fn bus_isolation()
    ensures { BusIsolation }
{}

// A theorem: which accepted bytes are acknowledged, and that the others read 255 and have no effect.
pub fn acknowledged()
    ensures { Acknowledged }
{}

// A theorem: whole writes and reads of one part.
pub fn transactions()
    ensures { Transactions }
{}

// A theorem: calls leave sound records and a sound bus state.
pub fn bus_soundness()
    ensures { BusSoundness }
{}

// A theorem: no list of calls changes an answer mark, a shift word or a fitted byte.
pub fn bus_kept()
    ensures { BusKept }
{}

// A theorem: scans, pin levels, clocks and questions of this bus are the chain's calls, and leave the bus state as it was.
pub fn chain_calls()
    ensures { ChainCalls }
{}

// A theorem: the worked examples.
pub fn bus_examples()
    ensures { BusExamples }
{}
