ghost use Rattle.std.specs.Prelude.{◌≡◌, ◌↔◌, IsTrue};

use lists::are_same_bits;

/// What a block reads in a step, in the order of its pins. Pins that its type doesn't have are ignored.
#[derive(Clone, Copy, Debug, PartialEq, Eq)]
pub struct PinsIn {
    pub bits: [bool; 4],
    /// PV of a counter.
    pub int: i16,
    /// PT of a timer, in milliseconds.
    pub time: u32,
}

/// What a block shows after a step, in the order of its pins. Pins that its type doesn't have are OFF or 0.
#[derive(Clone, Copy, Debug, PartialEq, Eq)]
pub struct PinsOut {
    pub bits: [bool; 2],
    /// CV of a counter.
    pub int: i16,
    /// ET of a timer, in milliseconds.
    pub time: u32,
}

impl PinsOut {
    /// Whether both show the same.
    pub fn same(&self, other: &Self) -> bool
        ensures { IsTrue result ↔ (self.now ≡ other.now) }
    {
        are_same_bits(&self.bits, &other.bits) && self.int == other.int && self.time == other.time
    }
}
