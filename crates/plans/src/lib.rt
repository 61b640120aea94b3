// The shortest way from one picture to another: the words that a redraw may use, the planner's list, and that no list accepted is shorter.
#![tactic(auto)]

ghost use Rattle.plans.specs.Check.{Checked};
ghost use Rattle.plans.specs.Shortest.{OneDriver, Shortest};
ghost use Rattle.plans.specs.Examples.{Examples};

// A theorem: the planner's words for one driver are accepted, no accepted list has fewer, and they are at most 32.
pub fn one_driver()
    ensures { OneDriver }
{}

// A theorem: the planner's list for a chain is accepted, none accepted is shorter, and it has at most 32 accesses.
pub fn shortest()
    ensures { Shortest }
{}

// A theorem: the check accepts exactly the accepted lists.
pub fn checked()
    ensures { Checked }
{}

// A theorem: pictures and the words that lead to them, and lists that the check accepts or not.
pub fn examples()
    ensures { Examples }
{}
