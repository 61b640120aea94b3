// The calls on a chain of MAX6954, and the theorems over whole lists of them.
#![tactic(auto)]

ghost use Rattle.calls.specs.Order.{Order};
ghost use Rattle.calls.specs.Soundness.{Soundness};
ghost use Rattle.calls.specs.NextAccess.{NextAccess};
ghost use Rattle.calls.specs.AnswerMark.{AnswerMark};
ghost use Rattle.calls.specs.FittedBytes.{FittedBytes};
ghost use Rattle.calls.specs.Isolation.{Isolation};
ghost use Rattle.calls.specs.Planned.{Planned};
ghost use Rattle.calls.specs.Examples.{Examples};

// A theorem: the number given is the first in the table's order of those that apply.
pub fn order()
    ensures { Order }
{}

// A theorem: calls leave sound records sound.
pub fn soundness()
    ensures { Soundness }
{}

// A theorem: a read's answer comes out in the next accepted access of at least 16 clocks for each driver, never in its own.
pub fn next_access()
    ensures { NextAccess }
{}

// A theorem: after an accepted access each driver's answer mark is D15 of the word that it took; no other call, and no list of others, changes a mark.
pub fn answer_mark()
    ensures { AnswerMark }
{}

// A theorem: no list of calls changes a fitted byte.
pub fn fitted_bytes()
    ensures { FittedBytes }
{}

// A theorem, demand 3: after any list of calls each driver is as it would be alone.
pub fn isolation()
    ensures { Isolation }
{}

// A theorem: the planner gives a shortest accepted list to every call that is served, and its check accepts exactly the accepted lists.
pub fn planned()
    ensures { Planned }
{}

// A theorem: the bench examples in one table, and examples of numbers, answers and both families.
pub fn examples()
    ensures { Examples }
{}
