// The calls on the two-wire bus by value: their number, the bus state that they leave, what they answer, and the record that a byte reaches.
#![tactic(auto)]

ghost use Rattle.std.specs.Prelude.{◌<◌, ◌≡◌, ◌/◌, IfSome, eqb, nat_eq, nat_lt, length, take, position};
ghost use Rattle.std.specs.List.{list_all};
ghost use Rattle.ground.specs.Choice.{if};
ghost use Rattle.refusals.specs.Numbers.{number_of, number_by};
ghost use Rattle.bus.specs.Straps.{distinct};
ghost use Rattle.bus.specs.States.{use_at, bus_of};
ghost use Rattle.bus.specs.BusServed.{opened, slave_reply};
ghost use Rattle.transfers.specs.Transfers.{refusal_from, moved, named, part_at, part_open, reply_of, byte_answer, refused_byte, put_answer, byte_free, byte_open, byte_left};

use bus::{Bus, State, Use};
use device::Device;
use refusals::Refusal;

// The parts' addresses, part 1's first; those past the number of parts count for nothing.
#[repr(C)]
#[derive(Clone, Copy)]
pub struct Straps {
    pub addresses: [u8; 16],
}

// An answer: its number, and the bus state after it.
#[repr(C)]
#[derive(Clone, Copy)]
pub struct BusAnswer {
    pub number: u8,
    pub bus: Bus,
}

// The answer to a byte: also 1 where it is acknowledged, and its data.
#[repr(C)]
#[derive(Clone, Copy)]
pub struct ByteAnswer {
    pub number: u8,
    pub bus: Bus,
    pub acknowledged: u8,
    pub data: u8,
}

// A byte on the bus: given by the master, or asked for.
#[derive(Clone, Copy)]
pub enum Byte {
    Given(u8),
    Asked,
}

// What a start, a byte and a stop find: why the parts' records alone refuse them, how many parts there are, the bus state, the parts' addresses.
#[derive(Clone, Copy)]
pub struct Call {
    pub early: Result<(), Refusal>,
    pub n: usize,
    pub bus: Bus,
    pub straps: Straps,
}

// The place among these addresses of the one that a slave byte names.
fn matched(addresses: &[u8], byte: u8) -> Option<usize>
    ensures first { result ≡ position (λ a. nat_eq a (byte / 2)) addresses.now }
    ensures within { IfSome result (λ at. at < length addresses.now) }
{
    addresses.iter().position(|&a| a == byte / 2)
}

// Whether no two addresses are the same number.
#[tactic(auto, using(crate::proofs::StrapLaws::distinct_end, crate::proofs::StrapLaws::distinct_step))]
fn distinct(addresses: &[u8]) -> bool
    ensures { result ≡ distinct addresses.now }
{
    let mut rest = addresses;
    while let Some((first, later)) = rest.split_first() {
        if later.contains(first) {
            return false;
        }
        rest = later;
    }
    true
}

// Whether all addresses are seven bits.
fn seven_bits(addresses: &[u8]) -> bool
    ensures { result ≡ list_all (λ a. nat_lt a 128) addresses.now }
{
    addresses.iter().all(|&a| a < 128)
}

// Why the records refuse a call, but that it is lacked, which comes after a clash and an address above 127.
fn unless_lacked(early: Result<(), Refusal>) -> Result<(), Refusal>
    ensures { number_of result ≡ if (eqb (number_of early) 14) 0 (number_of early) }
{
    match early {
        Err(Refusal::Lacked) => Ok(()),
        _ => early,
    }
}

// What the calls on the bus use of it is inlined, so that none of them hands it on through memory.
impl Call {
    // The parts' addresses: the first n, or all.
    fn addresses(&self) -> &[u8]
        ensures { result.now ≡ take self.now.n self.now.straps.addresses }
    {
        &self.straps.addresses[..self.n.min(16)]
    }

    // Why it is refused.
    #[inline(always)]
    #[tactic(auto, using(crate::proofs::StrapLaws::by_records, crate::proofs::StrapLaws::by_tests))]
    pub fn refusal(&self) -> Result<(), Refusal>
        ensures { number_of result ≡ refusal_from (number_of self.now.early) self.now.n self.now.bus self.now.straps.addresses }
    {
        unless_lacked(self.early)?;
        if !self.bus.is_sound(self.n) {
            return Err(Refusal::Unsound);
        }
        let addresses = self.addresses();
        if !distinct(addresses) {
            return Err(Refusal::Clash);
        }
        if !seven_bits(addresses) {
            return Err(Refusal::Address);
        }
        self.early
    }

    // The answer to a start or a stop; left is the state that it leaves where it is served.
    #[inline(always)]
    #[tactic(auto, using(refusals::proofs::RefusalLaws::row_number))]
    pub fn moved(&self, left: State) -> BusAnswer
        ensures { result ≡ moved (refusal_from (number_of self.now.early) self.now.n self.now.bus self.now.straps.addresses) self.now.bus (bus_of left) }
    {
        match self.refusal() {
            Ok(()) => BusAnswer {
                number: 0,
                bus: Bus::from(left),
            },
            Err(refusal) => BusAnswer {
                number: u8::from(refusal),
                bus: self.bus,
            },
        }
    }

    // The part whose open transfer a byte reaches; none where it is refused or none is open.
    #[inline(always)]
    #[tactic(auto, using(refusals::proofs::RefusalLaws::row_number))]
    pub fn part_open(&self) -> Option<usize>
        ensures { result ≡ named (part_open (number_of self.now.early) self.now.n self.now.bus self.now.straps.addresses) }
    {
        if self.bus.part == 0 || self.refusal().is_err() {
            return None;
        }
        Some(self.bus.part)
    }

    // The answer to a byte that no record decides.
    #[inline(always)]
    #[tactic(auto, using(crate::proofs::StrapLaws::place_found, refusals::proofs::RefusalLaws::row_number))]
    pub fn byte_free(&self, byte: Byte) -> ByteAnswer
        ensures { result ≡ byte_free (number_of self.now.early) self.now.n self.now.bus self.now.straps.addresses byte }
    {
        match (self.refusal(), byte) {
            (Err(refusal), _) => ByteAnswer::refused(refusal, self.bus),
            (Ok(()), Byte::Given(v)) => put_answer(matched(self.addresses(), v), v, self.bus),
            (Ok(()), Byte::Asked) => ByteAnswer::served(self.bus, None),
        }
    }
}

impl ByteAnswer {
    // A refused byte's.
    fn refused(refusal: Refusal, bus: Bus) -> ByteAnswer
        ensures { result ≡ refused_byte (number_by refusal) bus }
    {
        ByteAnswer {
            number: u8::from(refusal),
            bus: bus,
            acknowledged: 0,
            data: 0,
        }
    }

    // A served byte's: its data where it is acknowledged, else 255.
    fn served(left: Bus, reply: Option<u8>) -> ByteAnswer
        ensures { result ≡ byte_answer left (reply_of reply) }
    {
        ByteAnswer {
            number: 0,
            bus: left,
            acknowledged: u8::from(reply.is_some()),
            data: reply.unwrap_or(255),
        }
    }
}

// The state that a slave byte leaves, and its reply; at is the place of the address that it names.
fn slave_byte(at: Option<usize>, byte: u8) -> (State, Option<u8>)
    requires { IfSome at (λ k. k < 16) }
    ensures state { result.0 ≡ opened (part_at at) byte }
    ensures reply { reply_of result.1 ≡ slave_reply (part_at at) }
{
    match at {
        Some(k) if byte % 2 == 1 => (State::Transfer(k + 1, Use::Reading), Some(0)),
        Some(k) => (State::Transfer(k + 1, Use::Command), Some(0)),
        None => (State::Unmatched, None),
    }
}

// The answer to a byte given; at is the place of the address that it names as a slave byte.
fn put_answer(at: Option<usize>, byte: u8, bus: Bus) -> ByteAnswer
    requires { IfSome at (λ k. k < 16) }
    ensures { result ≡ put_answer (part_at at) byte bus }
{
    let (state, reply) = match State::from(bus) {
        State::Slave => slave_byte(at, byte),
        State::Transfer(part, Use::Command | Use::Writing) => {
            (State::Transfer(part, Use::Writing), Some(0))
        }
        state => (state, None),
    };
    ByteAnswer::served(Bus::from(state), reply)
}

// The answer to a byte in the open transfer of a part. Inlined, so that a call takes less time; so is what it leaves.
#[inline(always)]
pub fn byte_open(d: &Device, bus: Bus, byte: Byte) -> ByteAnswer
    ensures { result ≡ byte_open byte d.now bus }
{
    match (Use::from(bus.phase), byte) {
        (_, Byte::Given(v)) => put_answer(None, v, bus),
        (Use::Reading, Byte::Asked) => ByteAnswer::served(bus, Some(d.sent_data())),
        (_, Byte::Asked) => ByteAnswer::served(bus, None),
    }
}

// What it leaves of that part's record.
#[inline(always)]
pub fn byte_left(d: &mut Device, bus: Bus, byte: Byte)
    ensures { d.new ≡ byte_left byte (use_at bus.phase) d.old }
{
    match (Use::from(bus.phase), byte) {
        (Use::Command, Byte::Given(v)) => *d = d.commanded(v),
        (Use::Writing, Byte::Given(v)) => *d = d.received(v),
        (Use::Reading, Byte::Asked) => *d = d.sent(),
        _ => {}
    }
}
