// Why a call is refused: document 01's table of numbers that a call may give, and those of lengths alone.
#![tactic(auto)]

ghost use Rattle.std.specs.Prelude.{◌≡◌};
ghost use Rattle.refusals.specs.Numbers.{number_of, number_by};
ghost use Rattle.refusals.specs.Refusals.{size_refusal};
ghost use Rattle.refusals.specs.Sizes.{Sizes};

// A row of the table of numbers.
#[derive(Clone, Copy, Debug, PartialEq, Eq)]
pub enum Refusal {
    // The chain has 0 or more than 16 records.
    Chain = 1,
    // Driver number not in 1..n.
    Driver = 2,
    // More than 4,096 clocks in one access.
    Clocks = 3,
    // Sent bytes fewer than the clocks need.
    Sent = 4,
    // Room for answer bytes fewer than the clocks need.
    Room = 5,
    // An argument out of its range.
    Argument = 6,
    // Some record of the chain isn't sound.
    Unsound = 7,
    // A record of a script is malformed.
    Record = 8,
    // A script is too long.
    Script = 9,
    // Two parts with one address.
    Clash = 10,
    // An address above 127.
    Address = 11,
    // The wanted contents aren't 32 bytes for each driver.
    Wanted = 12,
    // The list's room is too small.
    List = 13,
    // A call that the driver lacks, or an unknown family.
    Lacked = 14,
}

impl From<Refusal> for u8 {
    ghost from_gives = { λ refusal n. n ≡ number_by refusal };

    fn from(refusal: Refusal) -> u8 {
        refusal as u8
    }
}

// The number that a call gives: 0 where it is served.
pub fn number<T: Drop>(outcome: Result<T, Refusal>) -> u8
    ensures { result ≡ number_of outcome }
{
    match outcome {
        Ok(_) => 0,
        Err(refusal) => u8::from(refusal),
    }
}

// The lowest of 3, 4 and 5 that applies to an access.
pub fn size_refusal(clocks: usize, sent: usize, room: usize) -> Result<(), Refusal>
    ensures { number_of result ≡ size_refusal clocks sent room }
{
    if 4096 < clocks {
        return Err(Refusal::Clocks);
    }
    let count = (clocks + 7) / 8;
    if sent < count {
        return Err(Refusal::Sent);
    }
    if room < count {
        return Err(Refusal::Room);
    }
    Ok(())
}

// A theorem: the numbers 3, 4 and 5 of an access, by bits.
pub fn sizes()
    ensures { Sizes }
{}
