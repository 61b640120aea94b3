// The keys of a MAX6954: four groups of eight, scanned into debounced registers with an interrupt.
#![tactic(auto)]

ghost use Rattle.std.specs.Prelude.{◌≡◌, ◌<◌};
ghost use Rattle.keys.specs.Keys.{group_of, with_group, groups_of, mask_written, debounced_read, scanned_keys};
ghost use Rattle.keys.specs.PackedKeys.{configured, packed, group_at, unpacked, newly_packed, scanned_packed, raises_packed};
ghost use Rattle.ground.specs.Choice.{if};
ghost use Rattle.keys.specs.KeyByKey.{KeyByKey};

use words::KeyGroup;

// Bit k of each byte is key k of the group. `held` has the keys already counted in this press.
#[repr(C)]
#[derive(Clone, Copy)]
pub struct Group {
    pub mask: u8,
    pub debounced: u8,
    pub pressed: u8,
    pub held: u8,
}

impl Group {
    pub const RELEASED: Group = Group {
        mask: 0,
        debounced: 0,
        pressed: 0,
        held: 0,
    };
}

// interrupt is 0 or 1 in a sound record.
#[repr(C)]
#[derive(Clone, Copy)]
pub struct Keys {
    pub a: Group,
    pub b: Group,
    pub c: Group,
    pub d: Group,
    pub interrupt: u8,
}

impl Keys {
    pub const RELEASED: Keys = Keys {
        a: Group::RELEASED,
        b: Group::RELEASED,
        c: Group::RELEASED,
        d: Group::RELEASED,
        interrupt: 0,
    };

    pub fn group(self, group: KeyGroup) -> Group
        ensures { result ≡ group_of self group }
    {
        match group {
            KeyGroup::A => self.a,
            KeyGroup::B => self.b,
            KeyGroup::C => self.c,
            KeyGroup::D => self.d,
        }
    }

    fn with_group(mut self, group: KeyGroup, new: Group) -> Keys
        ensures { result ≡ with_group self group new }
    {
        match group {
            KeyGroup::A => self.a = new,
            KeyGroup::B => self.b = new,
            KeyGroup::C => self.c = new,
            KeyGroup::D => self.d = new,
        }
        self
    }

    // A key mask written.
    pub fn masked(self, group: KeyGroup, mask: u8) -> Keys
        ensures { result ≡ mask_written self group mask }
    {
        let mut new = self.group(group);
        new.mask = mask;
        self.with_group(group, new)
    }

    // What a read of a debounced register leaves: it and the interrupt are cleared.
    pub fn read(mut self, group: KeyGroup) -> Keys
        ensures { result ≡ debounced_read self group }
    {
        let mut new = self.group(group);
        new.debounced = 0;
        self.interrupt = 0;
        self.with_group(group, new)
    }

    // The registers of the four groups, packed.
    fn packed(self) -> Packed
        ensures { result ≡ packed self }
    {
        let groups = [self.a, self.b, self.c, self.d];
        Packed {
            mask: u32::from_le_bytes(groups.map(|group| group.mask)),
            debounced: u32::from_le_bytes(groups.map(|group| group.debounced)),
            pressed: u32::from_le_bytes(groups.map(|group| group.pressed)),
            held: u32::from_le_bytes(groups.map(|group| group.held)),
        }
    }

    // A scan: the closed keys of groups A to D, and the port configuration. The four groups are computed at once.
    pub fn scanned(self, ports: u8, a: u8, b: u8, c: u8, d: u8) -> Keys
        ensures { result ≡ scanned_keys self ports a b c d }
    {
        let old = self.packed();
        let closed = u32::from_le_bytes([a, b, c, d]) & configured(ports);
        let interrupt = raised_or(old.raises(closed), self.interrupt);
        old.scanned(closed).unpacked(interrupt)
    }
}

// The registers of all four groups, one number each: group A in the lowest byte, D in the highest.
#[derive(Clone, Copy)]
struct Packed {
    mask: u32,
    debounced: u32,
    pressed: u32,
    held: u32,
}

impl Packed {
    // The keys that a scan newly debounces.
    fn newly(self, closed: u32) -> u32
        ensures { result ≡ newly_packed self closed }
    {
        closed & self.pressed & !self.held
    }

    fn scanned(self, closed: u32) -> Packed
        ensures { result ≡ scanned_packed self closed }
    {
        let new = self.newly(closed);
        Packed {
            mask: self.mask,
            debounced: self.debounced | new,
            pressed: closed,
            held: closed & (self.held | new),
        }
    }

    // Whether a scan raises the interrupt.
    fn raises(self, closed: u32) -> bool
        ensures { result ≡ raises_packed self closed }
    {
        let new = self.newly(closed);
        new & self.mask != 0
    }

    // Group j of the four, group A being 0.
    fn group(self, j: usize) -> Group
        requires { j < 4 }
        ensures { result ≡ group_at self j }
    {
        Group {
            mask: self.mask.to_le_bytes()[j],
            debounced: self.debounced.to_le_bytes()[j],
            pressed: self.pressed.to_le_bytes()[j],
            held: self.held.to_le_bytes()[j],
        }
    }

    // The four groups, with an interrupt.
    fn unpacked(self, interrupt: u8) -> Keys
        ensures { result ≡ unpacked self interrupt }
    {
        Keys {
            a: self.group(0),
            b: self.group(1),
            c: self.group(2),
            d: self.group(3),
            interrupt,
        }
    }
}

// The keys of the groups that a port configuration sets up.
fn configured(ports: u8) -> u32
    ensures { result ≡ configured ports }
{
    match ports / 32 {
        0 => 0,
        1 => 0xFF,
        2 => 0xFFFF,
        3 => 0xFFFFFF,
        _ => 0xFFFFFFFF,
    }
}

// How many key groups a port configuration sets up.
pub fn groups(ports: u8) -> u8
    ensures { result ≡ groups_of ports }
{
    (ports / 32).min(4)
}

// The interrupt after a scan: 1 where one is raised, else as it was.
fn raised_or(raised: bool, old: u8) -> u8
    ensures { result ≡ if raised 1 old }
{
    if raised { 1 } else { old }
}

// A theorem: what a scan does, key by key.
pub fn key_by_key()
    ensures { KeyByKey }
{}
