// The calls on a two-wire bus of MAX6955: a lent row of their records. Parts are counted from 1.
#![tactic(auto)]

ghost use Rattle.std.specs.Prelude.{◌≡◌, length, [], ◌∷◌};
ghost use Rattle.refusals.specs.Numbers.{number_of};
ghost use Rattle.bus.specs.BusCalls.{start, put, get, stop};
ghost use Rattle.bus.specs.BusOutcome.{bus_outcome};
ghost use Rattle.pass.specs.Found.{row_refusal};
ghost use Rattle.transfers.specs.Transfers.{byte_call};

use bus::{Bus, State};
use device::Device;
use transfers::{BusAnswer, Byte, ByteAnswer, Call, Straps};

// What a start, a byte and a stop find on these parts. Inlined, so that a call takes less time.
#[inline(always)]
fn found(parts: &[Device], bus: Bus, straps: Straps) -> Call
    ensures records { number_of result.early ≡ row_refusal parts.now }
    ensures count { result.n ≡ length parts.now }
    ensures state { result.bus ≡ bus }
    ensures addresses { result.straps ≡ straps }
{
    Call {
        early: lent::row_refusal(parts),
        n: parts.len(),
        bus: bus,
        straps: straps,
    }
}

// A start: from every bus state the slave byte is awaited.
#[tactic(auto, using(transfers::proofs::BusLaws::starts))]
pub fn max6955_start(parts: &[Device], bus: Bus, straps: Straps) -> BusAnswer
    ensures { bus_outcome straps.addresses start bus parts.now ≡ record { number = result.number; bus = result.bus; records = parts.now; back = [] } }
{
    found(parts, bus, straps).moved(State::Slave)
}

// A stop: from every bus state the bus is idle.
#[tactic(auto, using(transfers::proofs::BusLaws::stops))]
pub fn max6955_stop(parts: &[Device], bus: Bus, straps: Straps) -> BusAnswer
    ensures { bus_outcome straps.addresses stop bus parts.now ≡ record { number = result.number; bus = result.bus; records = parts.now; back = [] } }
{
    found(parts, bus, straps).moved(State::Idle)
}

// A byte, given or asked for. Inlined, so that its answer is made where the caller has it.
#[inline(always)]
#[tactic(auto, using(transfers::proofs::BusLaws::free_outcome, shapes::proofs::Bytes::part_outcome))]
fn transfer(parts: &mut [Device], bus: Bus, straps: Straps, byte: Byte) -> ByteAnswer
    ensures { bus_outcome straps.addresses (byte_call byte) bus parts.old ≡ record { number = result.number; bus = result.bus; records = parts.new; back = result.acknowledged ∷ result.«data» ∷ [] } }
{
    let call = found(parts, bus, straps);
    match call.part_open() {
        Some(part) => {
            let d = &mut parts[part - 1];
            let answer = transfers::byte_open(d, bus, byte);
            transfers::byte_left(d, bus, byte);
            answer
        }
        None => call.byte_free(byte),
    }
}

// A byte given by the master: the slave byte, the command address or data.
pub fn max6955_write(parts: &mut [Device], bus: Bus, straps: Straps, byte: u8) -> ByteAnswer
    ensures { bus_outcome straps.addresses (put byte) bus parts.old ≡ record { number = result.number; bus = result.bus; records = parts.new; back = result.acknowledged ∷ result.«data» ∷ [] } }
{
    transfer(parts, bus, straps, Byte::Given(byte))
}

// A byte asked for by the master.
pub fn max6955_read(parts: &mut [Device], bus: Bus, straps: Straps) -> ByteAnswer
    ensures { bus_outcome straps.addresses get bus parts.old ≡ record { number = result.number; bus = result.bus; records = parts.new; back = result.acknowledged ∷ result.«data» ∷ [] } }
{
    transfer(parts, bus, straps, Byte::Asked)
}
