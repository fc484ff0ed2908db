// A look into the pump's memory.
ghost use Rattle.std.specs.Prelude.{false, ◌≡◌, get_or};
ghost use Rattle.counters.specs.Sizes.{base};
ghost use Rattle.rules.specs.Tables.{no_object};
ghost use Rattle.tables.specs.Views.{objects_of, live_of};
ghost use Rattle.pump.specs.Looks.{pair_seen};

use crate::PUMP;
use counters::{OBJECTS, ObjectNo, SLOTS, SlotNo};
use objects::{Object, Pair};

// Out of range everything is zero.
#[tactic(auto, using(std::proofs::lemmas::List::get_or_past, tables::proofs::Tabulated::tab_length))]
pub fn object(words: &[u32; 864], number: ObjectNo) -> Object
    ensures { result ≡ get_or (objects_of base words.now) number.0 no_object }
{
    if OBJECTS <= number.0 {
        return Object::default();
    }
    tables::object_at(words, PUMP, number.0 as u32)
}

#[tactic(auto, using(std::proofs::lemmas::List::get_or_past, tables::proofs::Tabulated::tab_length))]
pub fn live(marks: &[bool; 1168], slot: SlotNo) -> bool
    ensures { result ≡ get_or (live_of base marks.now) slot.0 false }
{
    slot.0 < SLOTS && tables::live_at(marks, PUMP, slot.0 as u32)
}

pub fn pair(
    words: &[u32; 864],
    bytes: &[u8; 768],
    marks: &[bool; 1168],
    slot: SlotNo,
    number: ObjectNo,
) -> Pair
    ensures { result ≡ pair_seen words.now bytes.now marks.now slot.0 number.0 }
{
    if SLOTS <= slot.0 || OBJECTS <= number.0 {
        return Pair::none();
    }
    tables::pair_at(words, bytes, marks, PUMP, slot.0 as u32, number.0 as u32)
}
