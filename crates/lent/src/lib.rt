// Passes over a lent chain of records: whether a call is refused, the shift words, the words taken.
#![tactic(auto)]

ghost use Rattle.std.specs.Prelude.{◌≡◌, length, take};
ghost use Rattle.refusals.specs.Numbers.{number_of};
ghost use Rattle.device.specs.Families.{families};
ghost use Rattle.calls.specs.CallRefusals.{families_below, all_sound};
ghost use Rattle.pass.specs.Own.{own_of};
ghost use Rattle.pass.specs.Found.{in_room, found, records_refusal, call_refusal, row_refusal};
ghost use Rattle.pass.specs.OneByOne.{words_to, taken_to};

use device::Device;
use pass::{Asked, Seen, Widths};
use refusals::Refusal;

// Whether a call to a driver of a family is refused, by the records alone, each by its own family.
fn records_refusal(chain: &[Device], family: u8, asked: Asked) -> Result<(), Refusal>
    ensures { number_of result ≡ records_refusal chain.now family (own_of asked) }
{
    let mut seen = Seen::new();
    for &d in chain {
        seen = seen.with(d);
    }
    pass::found_by(seen, family, asked)
}

// Whether a call that names a driver is refused, by each record's own family.
pub fn each_refusal(chain: &[Device], driver: usize, asked: Asked) -> Result<(), Refusal>
    ensures { number_of result ≡ call_refusal chain.now driver (own_of asked) }
{
    pass::by_arguments(chain.len(), driver)?;
    let at = driver - 1;
    let family = chain[at].family;
    records_refusal(chain, family, asked)
}

// The same, with a pass that is faster where all drivers are of the old family. Inlined, since out of line it takes longer.
#[inline(always)]
pub fn call_refusal(chain: &[Device], driver: usize, asked: Asked) -> Result<(), Refusal>
    ensures { number_of result ≡ call_refusal chain.now driver (own_of asked) }
{
    pass::by_arguments(chain.len(), driver)?;
    let mut widths = Widths::new();
    for &d in chain {
        widths = widths.with(d);
    }
    if widths.old() {
        return pass::found_old(widths, asked);
    }
    each_refusal(chain, driver, asked)
}

// Whether a call that asks the whole row is refused, which no MAX6957 may be in: 1, 7 and 14.
pub fn row_refusal(chain: &[Device]) -> Result<(), Refusal>
    ensures { number_of result ≡ row_refusal chain.now }
{
    let asked = pass::row_own();
    call_refusal(chain, 1, asked)
}

// Whether an access is refused by the records; and the shift words, in front of the words lent, if there is room for all.
pub fn shift_words(chain: &[Device], words: &mut [u16]) -> Result<(), Refusal>
    ensures { (number_of result ≡ found 0 (all_sound (take (in_room (length chain.now) (length words.old)) chain.now)) (families_below 2 (families (take (in_room (length chain.now) (length words.old)) chain.now)))) × (words.new ≡ words_to chain.now words.old (in_room (length chain.now) (length words.old))) }
{
    let m = pass::in_room(chain.len(), words.len());
    let mut w = Widths::new();
    for i in 0..m {
        let d = chain[i];
        words[i] = d.shift;
        w = w.with(d);
    }
    if w.old() {
        return pass::found_old(w, Asked::Any);
    }
    records_refusal(chain, 0, Asked::Any)
}

// Every driver takes its word, in place: where its address is 0x20 or above, of the old family two bytes are stored, of a MAX6957 its stored bits and its
// transition detection; else all registers of its family; and the shift word and the answer mark.
pub fn take_words(chain: &mut [Device], words: &[u16])
    ensures { chain.new ≡ taken_to chain.old words.now (in_room (length chain.old) (length words.now)) }
{
    let m = pass::in_room(chain.len(), words.len());
    for i in 0..m {
        let w = words[i];
        let family = chain[i].family;
        if high_words::in_place(w, family) {
            let at = high_words::digit(w);
            let p0 = chain[i].registers.planes.p0[at];
            let p1 = chain[i].registers.planes.p1[at];
            chain[i].registers.planes.p0[at] = high_words::new_byte::<2>(w, p0);
            chain[i].registers.planes.p1[at] = high_words::new_byte::<4>(w, p1);
            chain[i].shift = high_words::new_shift(w, p0, p1);
            chain[i].answer_mark = device::answer_mark(w);
        } else if high_words::is_ports(family) {
            let x = chain[i].ports;
            if port_high_words::is_high(w) {
                chain[i].shift = port_high_words::new_shift(w, x);
                chain[i].ports.stored = port_high_words::new_stored(w, x.stored);
                chain[i].ports.transition = port_high_words::new_transition(w, x);
                chain[i].answer_mark = device::answer_mark(w);
            } else {
                chain[i].shift = words::shift_word(x, w);
                chain[i].ports = x.taken(w);
                chain[i].answer_mark = device::answer_mark(w);
            }
        } else {
            let old = chain[i].registers;
            chain[i].shift = words::shift_word(old, w);
            chain[i].registers = words::obeyed(old, w);
            chain[i].answer_mark = device::answer_mark(w);
        }
    }
}
