// What a word with an address of 0x20 or above changes where its record lies, by value: a digit's byte in each plane, and the shift word.
#![tactic(auto)]

ghost use Rattle.std.specs.Prelude.{◌≡◌};
ghost use Rattle.high_words.specs.HighWords.{in_place, digit_of, new_byte, digit_read, new_shift};
ghost use Rattle.high_words.specs.LowWords.{is_ports};

// A word with an address of 0x20 or above, for a driver of the old family.
pub fn in_place(word: u16, family: u8) -> bool
    ensures { result ≡ in_place word family }
{
    (1 < word / 4096 % 8) & (family == 0)
}

// The digit that such a word names.
pub fn digit(word: u16) -> usize
    ensures { result ≡ digit_of word }
{
    (word / 256 % 16) as usize
}

// The digit's byte in a plane after the word: in P0 where ROW is 2, in P1 where it is 4. 0x60 writes both.
pub fn new_byte<const ROW: u16>(word: u16, old: u8) -> u8
    ensures { result ≡ new_byte ROW word old }
{
    let row = word / 4096;
    let v = (word % 256) as u8;
    if (row == ROW) | (row == 6) { v } else { old }
}

// What the word reads, by the digit's bytes before it.
fn digit_read(word: u16, p0: u8, p1: u8) -> u8
    ensures { result ≡ digit_read word p0 p1 }
{
    match word / 4096 {
        12 => p1,
        10 => p0,
        _ => 0,
    }
}

// The shift word after the word, by the same.
pub fn new_shift(word: u16, p0: u8, p1: u8) -> u16
    ensures { result ≡ new_shift word p0 p1 }
{
    if word / 4096 < 8 {
        word
    } else {
        word / 256 * 256 + digit_read(word, p0, p1) as u16
    }
}

// A driver is a MAX6957.
pub fn is_ports(family: u8) -> bool
    ensures { result ≡ is_ports family }
{
    family == 1
}
