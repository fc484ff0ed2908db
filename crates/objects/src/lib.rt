// One object and one pair, and what each event but a call makes of one of them.
#![tactic(auto)]

ghost use Rattle.std.specs.Prelude.{◌≡◌};
ghost use Rattle.objects.specs.Places.{turn_of, given_out, let_go, settled, restored, restores, declared_with, no_pair};

use counters::{CallCount, Turn, Version};

// R4: what is kept of an object.
#[derive(Clone, Copy, Default, PartialEq, Eq)]
pub struct Object {
    pub word: u32,
    pub global: Version,
    pub local: Version,
    pub terminal: Version,
}

// R4: what is kept of a slot and an object.
#[derive(Clone, Copy, Default, PartialEq, Eq)]
pub struct Pair {
    pub declared: bool,
    pub supremum: u8,
    pub private: Version,
    pub count: CallCount,
    pub called: bool,
    pub spoiled: bool,
    pub saved: u32,
}

impl Object {
    // R12: a start takes the next version.
    pub fn give_out(self) -> Object
        ensures { result ≡ given_out self }
    {
        Object {
            global: self.global.next(),
            ..self
        }
    }

    // R15: the object is let go.
    pub fn let_go(self, private: Version) -> Object
        ensures { result ≡ let_go private self }
    {
        Object {
            local: private,
            ..self
        }
    }

    // R16: the versions behind an end.
    pub fn end(self, pair: Pair, slots: u8) -> Object
        ensures { result ≡ settled slots pair self }
    {
        let ended = Object {
            terminal: pair.private,
            ..self
        };
        match pair.turn(self, slots) {
            Turn::Now | Turn::Wait => ended.let_go(pair.private),
            Turn::Released => ended,
        }
    }

    // R17: the word before the pair's first call is back.
    pub fn restore(self, pair: Pair) -> Object
        ensures { result ≡ restored pair self }
    {
        Object {
            word: pair.saved,
            ..self
        }
    }
}

impl Pair {
    // R7: a pair that is zero.
    pub fn none() -> Pair
        ensures { result ≡ no_pair }
    {
        Pair::default()
    }

    // R12: a pair as a start leaves it.
    pub fn declare(supremum: u8, private: Version) -> Pair
        ensures { result ≡ declared_with supremum private }
    {
        Pair {
            declared: true,
            supremum,
            private,
            ..Pair::none()
        }
    }

    // R8: the turn of the pair.
    pub fn turn(self, object: Object, slots: u8) -> Turn
        ensures { result ≡ turn_of slots self object }
    {
        self.private.turn(object.local, slots)
    }

    // R17: whether a rollback puts the saved word back.
    pub fn restores(self) -> bool
        ensures { result ≡ restores self }
    {
        self.declared && self.called && !self.spoiled
    }
}
