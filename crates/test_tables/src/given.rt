// Tables that are given and not reached: fresh ones, and any with a place changed, by the numbers of a line. The number
// of a slot counts modulo 16, and that of an object modulo 24.
ghost use Rattle.std.specs.Prelude.{◌<◌};

use counters::{CallCount, ObjectNo, SlotNo, Version};
use machine::Tables;
use objects::{Object, Pair};
use pump::PUMP;
use std::array;
use test_text::numbers::Numbers;

// `fresh 4294967295`, where word o is 100 + o, or `fresh 4294967295, words 0, but word 3 is 100`.
pub fn fresh(given: &Numbers) -> Tables {
    let first = Version(given.at(0));
    if given.count() < 2 {
        return events::fresh(first, array::from_fn(|object| 100 + object as u32));
    }
    let mut words = [given.at(1); 24];
    words[(given.at(2) % 24) as usize] = given.at(3);
    events::fresh(first, words)
}

// `set live 2`
pub fn live(given: &Numbers, tables: &mut Tables) {
    let slot = slot_of(given);
    tables::store_live(&mut tables.marks, PUMP, u32::from(slot.0), true);
}

// `set object 3: word 103, global 0, local 0, terminal 0`
pub fn object(given: &Numbers, tables: &mut Tables) {
    let number = object_of(given, 0);
    let object = Object {
        word: given.at(1),
        global: Version(given.at(2)),
        local: Version(given.at(3)),
        terminal: Version(given.at(4)),
    };
    tables::store_object(&mut tables.words, PUMP, u32::from(number.0), object);
}

// `set pair 0 3: supremum 2, private 0, count 1, saved 103, declared 1, called 1, spoiled 0`
pub fn pair(given: &Numbers, tables: &mut Tables) {
    let slot = slot_of(given);
    let number = object_of(given, 1);
    let pair = Pair {
        supremum: given.byte(2),
        private: Version(given.at(3)),
        count: CallCount(given.byte(4)),
        saved: given.at(5),
        declared: given.byte(6) != 0,
        called: given.byte(7) != 0,
        spoiled: given.byte(8) != 0,
    };
    tables::store_pair(
        &mut tables.words,
        &mut tables.bytes,
        &mut tables.marks,
        PUMP,
        u32::from(slot.0),
        u32::from(number.0),
        pair,
    );
}

// The slot that a line names first, and the object that it names at a place.
pub fn slot_of(given: &Numbers) -> SlotNo
    ensures { result.0 < 16 }
{
    SlotNo((given.at(0) % 16) as u8)
}

pub fn object_of(given: &Numbers, place: usize) -> ObjectNo
    ensures { result.0 < 24 }
{
    ObjectNo((given.at(place) % 24) as u8)
}
