// The calls of `two_wire`, exported for C.
#![tactic(auto)]

ghost use Rattle.std.specs.Prelude.{◌≡◌, [], ◌∷◌};
ghost use Rattle.bus.specs.BusCalls.{start, put, get, stop};
ghost use Rattle.bus.specs.BusOutcome.{bus_outcome};

use bus::Bus;
use device::Device;
use transfers::{BusAnswer, ByteAnswer, Straps};

// A start: from every bus state the slave byte is awaited.
#[unsafe(no_mangle)]
pub extern "C" fn max6955_start(parts: &[Device], bus: Bus, straps: Straps) -> BusAnswer
    ensures { bus_outcome straps.addresses start bus parts.now ≡ record { number = result.number; bus = result.bus; records = parts.now; back = [] } }
{
    two_wire::max6955_start(parts, bus, straps)
}

// A stop: from every bus state the bus is idle.
#[unsafe(no_mangle)]
pub extern "C" fn max6955_stop(parts: &[Device], bus: Bus, straps: Straps) -> BusAnswer
    ensures { bus_outcome straps.addresses stop bus parts.now ≡ record { number = result.number; bus = result.bus; records = parts.now; back = [] } }
{
    two_wire::max6955_stop(parts, bus, straps)
}

// A byte given by the master: the slave byte, the command address or data.
#[unsafe(no_mangle)]
pub extern "C" fn max6955_write(
    parts: &mut [Device],
    bus: Bus,
    straps: Straps,
    byte: u8,
) -> ByteAnswer
    ensures { bus_outcome straps.addresses (put byte) bus parts.old ≡ record { number = result.number; bus = result.bus; records = parts.new; back = result.acknowledged ∷ result.«data» ∷ [] } }
{
    two_wire::max6955_write(parts, bus, straps, byte)
}

// A byte asked for by the master.
#[unsafe(no_mangle)]
pub extern "C" fn max6955_read(parts: &mut [Device], bus: Bus, straps: Straps) -> ByteAnswer
    ensures { bus_outcome straps.addresses get bus parts.old ≡ record { number = result.number; bus = result.bus; records = parts.new; back = result.acknowledged ∷ result.«data» ∷ [] } }
{
    two_wire::max6955_read(parts, bus, straps)
}
