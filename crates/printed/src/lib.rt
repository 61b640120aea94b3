// What a script prints: its records, its lines, a run's number and room. The program that prints it is `script`.
#![tactic(auto)]

ghost use Rattle.printed.specs.Limits.{Limits};
ghost use Rattle.printed.specs.ByteByByte.{ByteByByte};
ghost use Rattle.printed.specs.Examples.{Examples};

// A theorem: what a script's length and a run's room decide.
pub fn limits()
    ensures { Limits }
{}

// A theorem: each byte of a record in its place, and which bytes give 8.
pub fn byte_by_byte()
    ensures { ByteByByte }
{}

// A theorem: document 01's script prints its four lines, one of every other kind its own, and the first line is as it says in each case; a show's line
// ends with the answer mark, and without a chain record the chain is 4.
pub fn examples()
    ensures { Examples }
{}
