// The refusals with their numbers, an answer and what a caller sees of it, and the verdict of an event's rules.
#![tactic(auto)]

ghost use Rattle.std.specs.Prelude.{◌≡◌};
ghost use Rattle.answers.specs.Numbers.{number_of, reply_of};

// R20: the refusals in the order of their numbers.
#[derive(Clone, Copy, PartialEq, Eq)]
pub enum Refusal {
    BadSlot = 1,
    BadObject,
    BadList,
    Busy,
    Idle,
    NotDeclared,
    BadCall,
    Released,
    Doomed,
    Wait,
    NoRoom,
    BadRecord,
}

impl From<Refusal> for u32 {
    ghost from_gives = { λ refusal number. number ≡ number_of refusal };

    fn from(refusal: Refusal) -> u32 {
        refusal as u32
    }
}

// R11: an event or a writer is accepted with a value, or refused.
pub type Answer = Result<u32, Refusal>;

// R19: no rule holds, or the first that does refuses.
pub type Verdict = Result<(), Refusal>;

// What a caller sees of an answer: 0 is the number where nothing refuses (R20), and the value beside every refusal (R11).
#[derive(Clone, Copy, PartialEq, Eq)]
pub struct Reply {
    pub number: u32,
    pub value: u32,
}

impl From<Answer> for Reply {
    ghost from_gives = { λ answer reply. reply ≡ reply_of answer };

    fn from(answer: Answer) -> Reply {
        match answer {
            Ok(value) => Reply { number: 0, value },
            Err(refusal) => Reply {
                number: refusal.into(),
                value: 0,
            },
        }
    }
}
