// The kinds of numbers that are kept apart (R2), and all that is done with versions: the next one, the difference, the
// turn, the terminal need, and which of two came first.
#![tactic(auto)]

ghost use Rattle.std.specs.Prelude.{◌≡◌};
ghost use Rattle.counters.specs.Versions.{next, difference, turn_at, terminal_need};
ghost use Rattle.counters.specs.Comparing.{compared};

// R1: the sizes of a pump.
pub const SLOTS: u8 = 16;

pub const OBJECTS: u8 = 24;

// How many slots and how many objects a pump has: the parameter of every step.
#[derive(Clone, Copy)]
pub struct Size {
    pub slots: u8,
    pub objects: u8,
}

// R2: a version, modulo 2^32.
#[derive(Clone, Copy, Default, PartialEq, Eq)]
pub struct Version(pub u32);

// R3: the count of a pair.
#[derive(Clone, Copy, Default, PartialEq, Eq)]
pub struct CallCount(pub u8);

#[derive(Clone, Copy)]
pub struct SlotNo(pub u8);

#[derive(Clone, Copy, PartialEq, Eq)]
pub struct ObjectNo(pub u8);

// R8: the turn of a pair.
#[derive(Clone, Copy)]
pub enum Turn {
    Now,
    Wait,
    Released,
}

// R36: which of two versions of one object came first; neither did where they are equal or half the turnover apart. R38: the numbers.
#[derive(Clone, Copy, Debug)]
pub enum Comparison {
    A = 1,
    B,
    Same,
    Far,
}

impl Version {
    // R2: the version after it.
    pub fn next(self) -> Version
        ensures { result.0 ≡ next self.0 }
    {
        Version(self.0.wrapping_add(1))
    }

    // R2: self minus other.
    pub fn minus(self, other: Version) -> u32
        ensures { result ≡ difference self.0 other.0 }
    {
        self.0.wrapping_sub(other.0)
    }

    // R8: the turn, where self is the private version.
    pub fn turn(self, local: Version, slots: u8) -> Turn
        ensures { result ≡ turn_at slots (difference self.0 local.0) }
    {
        match self.minus(local) {
            1 => Turn::Now,
            d if 2 <= d && d <= slots as u32 => Turn::Wait,
            _ => Turn::Released,
        }
    }

    // R9: on one object, where self is the private version.
    pub fn meets_terminal_need(self, terminal: Version) -> bool
        ensures { result ≡ terminal_need terminal.0 self.0 }
    {
        terminal.next() == self
    }

    // R36: self is A's version, the other is B's.
    pub fn compare(self, other: Version) -> Comparison
        ensures { result ≡ compared self.0 other.0 }
    {
        match other.minus(self) {
            0 => Comparison::Same,
            1..=2147483647 => Comparison::A,
            2147483648 => Comparison::Far,
            _ => Comparison::B,
        }
    }
}
