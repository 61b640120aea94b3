// The five ports of a MAX6954: the GPIO data register as read.
#![tactic(auto)]

ghost use Rattle.std.specs.Prelude.{◌≡◌};
ghost use Rattle.ports.specs.Ports.{free_ports, irq_level, port_data};
ghost use Rattle.ports.specs.PortByPort.{PortByPort};

// The ports, as bits, that no key group takes, with 0 to 3 groups.
const FREE: [u8; 4] = [31, 14, 12, 8];

fn free_ports(groups: u8) -> u8
    ensures { result ≡ free_ports groups }
{
    FREE.get(groups as usize).copied().unwrap_or(0)
}

// P4 as the interrupt, where a group is configured.
fn irq_level(groups: u8, interrupt: u8) -> u8
    ensures { result ≡ irq_level groups interrupt }
{
    if groups == 0 { 0 } else { interrupt % 2 * 16 }
}

// The port configuration, GPIO data, pin levels and interrupt of a driver give what GPIO data reads.
pub fn read_data(ports: u8, gpio: u8, pins: u32, interrupt: u8) -> u8
    ensures { result ≡ port_data ports gpio pins interrupt }
{
    let groups = keys::groups(ports);
    let inputs = ports % 32;
    let bits = (pins % 32) as u8 & inputs | gpio & (31 - inputs);
    free_ports(groups) & bits | irq_level(groups, interrupt)
}

// A theorem: what GPIO data reads, port by port.
pub fn port_by_port()
    ensures { PortByPort }
{}
