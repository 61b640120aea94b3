// One byte of a driver's planes after a list of its words. The function that answers it is in `stopping_word`.
#![tactic(auto)]

ghost use Rattle.look_back.specs.NoFurther.{NoFurther};
ghost use Rattle.look_back.specs.Examples.{Examples};

// An answer: its number, and the byte.
#[repr(C)]
#[derive(Clone, Copy)]
pub struct LookBackAnswer {
    pub number: u8,
    pub byte: u8,
}

// A theorem: where the list has a stopping place, what stands before it and the record don't change the answer.
pub fn no_further()
    ensures { NoFurther }
{}

// A theorem: examples of each kind of stop.
pub fn examples()
    ensures { Examples }
{}
