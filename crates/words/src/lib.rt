// The registers of a MAX6954, and the 16-bit words that write and read them (Table 6).
#![tactic(auto)]

ghost use Rattle.std.specs.Prelude.{◌≡◌, ℕ};
ghost use Rattle.words.specs.Addresses.{high_register, alike_at, written_at, read_at};
ghost use Rattle.ground.specs.Choice.{bit};
ghost use Rattle.words.specs.Decoded.{address_of, decoded, obeyed, shift_by};
ghost use Rattle.words.specs.Table6.{Table6};

#[derive(Clone, Copy, PartialEq, Eq)]
pub enum Plane {
    P0,
    P1,
}

#[derive(Clone, Copy)]
pub enum KeyGroup {
    A,
    B,
    C,
    D,
}

// The registers that a driver keeps in one byte each.
#[derive(Clone, Copy)]
pub enum ControlRegister {
    DecodeMode,
    GlobalIntensity,
    ScanLimit,
    GpioData,
    PortConfiguration,
    DisplayTest,
    DigitType,
}

// A register, with its key group, its plane and digit, or its number.
// Intensity(j) is address 0x10 + j; digits 0 to 7 are 0 to 7, 0a to 7a are 8 to 15.
#[derive(Clone, Copy)]
pub enum Register {
    NoOp,
    Control(ControlRegister),
    Configuration,
    KeyMask(KeyGroup),
    KeyDebounced(KeyGroup),
    KeyPressed(KeyGroup),
    Intensity(u8),
    Digit(Plane, u8),
    BothPlanes(u8),
    Unlisted,
}

// What a word says of registers R: one of them is written, with its data, or read.
#[derive(Clone, Copy)]
pub enum Word<R> {
    Write(R, u8),
    Read(R),
}

// The registers of a chip family, by the addresses that words name.
pub trait Addressed {
    ghost written_at: { ℕ → Self };

    ghost read_at: { ℕ → Self };

    // The register that a write to an address reaches.
    fn written_at(address: u8) -> Self
        ensures { result ≡ written_at address };

    // The register that a read of an address reaches.
    fn read_at(address: u8) -> Self
        ensures { result ≡ read_at address };
}

// The registers of one driver, as words write and read them.
pub trait RegisterFile: Copy {
    type Register: Addressed;

    ghost written: { Self → Self.Register → ℕ → Self };

    ghost data_of: { Self → Self.Register → ℕ };

    ghost after_read: { Self → Self.Register → Self };

    // A register written.
    fn written(self, register: Self::Register, v: u8) -> Self
        ensures { result ≡ written self register v };

    // A register's data, as a read takes it.
    fn read_data(self, register: Self::Register) -> u8
        ensures { result ≡ data_of self register };

    // The registers after a register's data was taken.
    fn read(self, register: Self::Register) -> Self
        ensures { result ≡ after_read self register };
}

// Addresses from 0x10 on, by their two hexadecimal digits.
fn high_register(row: u8, column: u8) -> Register
    ensures { result ≡ high_register row column }
{
    match row {
        1 if column < 8 => Register::Intensity(column),
        2 => Register::Digit(Plane::P0, column),
        4 => Register::Digit(Plane::P1, column),
        6 => Register::BothPlanes(column),
        _ => Register::Unlisted,
    }
}

// The register of an address that is alike written and read.
fn alike_at(address: u8) -> Register
    ensures { result ≡ alike_at address }
{
    match address {
        0 => Register::NoOp,
        1 => Register::Control(ControlRegister::DecodeMode),
        2 => Register::Control(ControlRegister::GlobalIntensity),
        3 => Register::Control(ControlRegister::ScanLimit),
        4 => Register::Configuration,
        5 => Register::Control(ControlRegister::GpioData),
        6 => Register::Control(ControlRegister::PortConfiguration),
        7 => Register::Control(ControlRegister::DisplayTest),
        _ => high_register(address / 16, address % 16),
    }
}

impl Addressed for Register {
    ghost written_at = { written_at };

    ghost read_at = { read_at };

    fn written_at(address: u8) -> Register {
        match address {
            8 => Register::KeyMask(KeyGroup::A),
            9 => Register::KeyMask(KeyGroup::B),
            10 => Register::KeyMask(KeyGroup::C),
            11 => Register::KeyMask(KeyGroup::D),
            12 => Register::Control(ControlRegister::DigitType),
            13..=15 => Register::Unlisted,
            _ => alike_at(address),
        }
    }

    fn read_at(address: u8) -> Register {
        match address {
            8 => Register::KeyDebounced(KeyGroup::A),
            9 => Register::KeyDebounced(KeyGroup::B),
            10 => Register::KeyDebounced(KeyGroup::C),
            11 => Register::KeyDebounced(KeyGroup::D),
            12 => Register::KeyPressed(KeyGroup::A),
            13 => Register::KeyPressed(KeyGroup::B),
            14 => Register::KeyPressed(KeyGroup::C),
            15 => Register::KeyPressed(KeyGroup::D),
            _ => alike_at(address),
        }
    }
}

// D15 is 1 for a read.
pub fn is_read(word: u16) -> bool
    ensures { result ≡ bit 15 word }
{
    word / 32768 % 2 == 1
}

// D14 to D8 are the address.
fn address(word: u16) -> u8
    ensures { result ≡ address_of word }
{
    (word / 256 % 128) as u8
}

// What a word says: D7 to D0 are the data of a write.
pub fn decode<R: Addressed>(word: u16) -> Word<R>
    ensures { result ≡ decoded R.written_at R.read_at word }
{
    if is_read(word) {
        Word::Read(R::read_at(address(word)))
    } else {
        Word::Write(R::written_at(address(word)), (word % 256) as u8)
    }
}

// A driver's registers after a word.
pub fn obeyed<F: RegisterFile>(registers: F, word: u16) -> F
    ensures { result ≡ obeyed F.written F.after_read registers (decoded F.Register.written_at F.Register.read_at word) }
{
    match decode(word) {
        Word::Write(register, v) => registers.written(register, v),
        Word::Read(register) => registers.read(register),
    }
}

// The shift word after a word: a read's data in D7 to D0, as the register had it before.
pub fn shift_word<F: RegisterFile>(registers: F, word: u16) -> u16
    ensures { result ≡ shift_by F.data_of registers word (decoded F.Register.written_at F.Register.read_at word) }
{
    if !is_read(word) {
        return word;
    }
    let register = F::Register::read_at(address(word));
    word / 256 * 256 + registers.read_data(register) as u16
}

// A theorem: every address names what Table 6 says.
pub fn table_6()
    ensures { Table6 }
{}
