// Laws that the controller may rely on, of one driver and of accesses to a chain.
#![tactic(auto)]

ghost use Rattle.laws.specs.DriverLaws.{DriverLaws, OrderExamples};
ghost use Rattle.laws.specs.ChainLaws.{ChainLaws};
ghost use Rattle.laws.specs.SlippedAccess.{SlippedAccess, SlipExamples};

// A theorem: digit writes in either order, both planes at once, clears after writes, clocks in parts.
pub fn driver_laws()
    ensures { DriverLaws }
{}

// A theorem: writes to the same digit don't commute.
pub fn order_examples()
    ensures { OrderExamples }
{}

// A theorem: the same of accesses to a chain.
pub fn chain_laws()
    ensures { ChainLaws }
{}

// A theorem: an access of at least 16 clocks for each driver mends what a slipped access left in the shift words and answer marks.
pub fn slipped_access()
    ensures { SlippedAccess }
{}

// A theorem: what a lost and a doubled clock do before that, and that one clock fewer doesn't mend.
pub fn slip_examples()
    ensures { SlipExamples }
{}
