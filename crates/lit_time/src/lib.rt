// The lit time of a run: what it means, and what is proved of it.
#![tactic(auto)]

ghost use Rattle.lit_time.specs.Periods.{Periods};
ghost use Rattle.lit_time.specs.TotalsFit.{TotalsFit};
ghost use Rattle.lit_time.specs.Limits.{Limits};
ghost use Rattle.lit_time.specs.Examples.{Examples};

// An answer: its number, and how many drivers the totals are of.
#[repr(C)]
#[derive(Clone, Copy)]
pub struct LitTimeAnswer {
    pub number: u8,
    pub drivers: usize,
}

// A theorem: clocks in parts, a whole period, the most that clocks add.
pub fn periods()
    ensures { Periods }
{}

// A theorem: every total fits 64 bits.
pub fn totals_fit()
    ensures { TotalsFit }
{}

// A theorem: numbers, where each total stands, the room after them.
pub fn limits()
    ensures { Limits }
{}

// A theorem: lit times at the ends of the phases, of each display, dark and in display test; totals, numbers and reports of some scripts.
pub fn examples()
    ensures { Examples }
{}
