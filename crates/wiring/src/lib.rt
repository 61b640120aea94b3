// The segment pins O0 to O18 of each cathode (Tables 2 to 4), and the same packed.
#![tactic(auto)]

mod packed;
mod table;

ghost use Rattle.std.specs.Prelude.{◌≡◌, ◌+◌, ◌<◌, ◌≤◌, get_or};
ghost use Rattle.ground.specs.Lists.{tabulate};
ghost use Rattle.wiring.specs.Wiring.{wire_at};
ghost use Rattle.wiring.specs.Table.{display_index, wire_entry, table, WiringTable};
ghost use Rattle.wiring.specs.PackedRows.{packed_list, parted, first_pins, packed_row};

// What a cathode drives: a 16-segment digit, a 14-segment digit or two 7-segment digits.
#[derive(Clone, Copy)]
pub enum Display {
    Sixteen = 0,
    Fourteen = 1,
    SevenPair = 2,
}

// Eight pins, a byte a pin, the lowest byte first: each pin's number in an answer where its segment is lit, and its segment as one bit of byte
// 0, 1 or 2 of the segments as one number.
#[derive(Clone, Copy)]
pub struct PackedPins {
    pub lit: u64,
    pub low: u64,
    pub high: u64,
    pub point: u64,
}

// The pins O0 to O7, O8 to O15, and O16 to O18 of a cathode.
#[derive(Clone, Copy)]
pub struct PackedRow {
    pub first: PackedPins,
    pub middle: PackedPins,
    pub last: PackedPins,
}

// Entries of the table that are no segment.
pub const NONE: u8 = 17;

pub const CATHODE: u8 = 18;

pub const NOT_DRIVEN: u8 = 19;

// A display's place in the table.
fn display_index(display: Display) -> usize
    ensures value { result ≡ display_index display }
    ensures upper_bound { result < 3 }
{
    display as usize
}

// Nineteen entries of the table from one on.
fn entries(start: usize) -> [u8; 19]
    requires { start + 19 ≤ 456 }
    ensures { result ≡ tabulate 19 (λ p. get_or table (start + p) 0) }
{
    let mut row = [NOT_DRIVEN; 19];
    row.copy_from_slice(&table::WIRING[start..start + 19]);
    row
}

// What the pins O0 to O18 are to a cathode, by their entries of the table; a cathode above 7 drives none.
pub fn wires(display: Display, cathode: usize) -> [u8; 19]
    ensures { result ≡ tabulate 19 (λ p. wire_entry (wire_at display cathode p)) }
{
    if cathode < 8 {
        entries(display_index(display) * 152 + cathode * 19)
    } else {
        [NOT_DRIVEN; 19]
    }
}

// A display's list, packed: its first six pins, and those of O8 to O15 and of O16 to O18, which are alike for every cathode.
fn list(display: Display) -> PackedRow
    ensures { result ≡ packed_list display }
{
    match display {
        Display::Sixteen => packed::SIXTEEN,
        Display::Fourteen => packed::FOURTEEN,
        Display::SevenPair => packed::PAIR,
    }
}

// Six bytes, with two zero bytes put in at the pins of a cathode and its partner.
fn parted(six: u64, cathode: usize) -> u64
    requires { cathode < 8 }
    ensures { result ≡ parted six cathode }
{
    let at = 16 * (cathode / 2);
    let above = (six >> at) << at;
    (above << 16) | (six & !above)
}

// The pins O0 to O7: the cathode's own and its partner's stand among the first six of the list.
fn first_pins(six: PackedPins, cathode: usize) -> PackedPins
    requires { cathode < 8 }
    ensures { result ≡ first_pins six cathode }
{
    PackedPins {
        lit: parted(six.lit, cathode) | (1 << (8 * cathode)),
        low: parted(six.low, cathode),
        high: parted(six.high, cathode),
        point: 0,
    }
}

// A row of the table, packed; a cathode above 7 drives no pin.
pub fn packed_row(display: Display, cathode: usize) -> PackedRow
    ensures { result ≡ packed_row display cathode }
{
    if cathode > 7 {
        return packed::NONE;
    }
    let list = list(display);
    PackedRow {
        first: first_pins(list.first, cathode),
        ..list
    }
}

// A theorem: every entry of the table is what the rule says.
pub fn wiring_table()
    ensures { WiringTable }
{}
