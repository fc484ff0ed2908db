// What the library shows beside events: the order of two records, an object, a pair, and whether marks are right.
ghost use Rattle.std.specs.Prelude.{false, ◌≡◌, get_or};
ghost use Rattle.answers.specs.Numbers.{reply_of};
ghost use Rattle.answers.specs.declared.Reply.{Reply};
ghost use Rattle.counters.specs.Sizes.{base};
ghost use Rattle.record_order.specs.CameFirst.{came_first, code_of, order_of};
ghost use Rattle.rules.specs.Tables.{no_object};
ghost use Rattle.tables.specs.Views.{objects_of, live_of};
ghost use Rattle.pump.specs.Looks.{pair_seen};
ghost use Rattle.kernel.specs.Shown.{Look, looked, object_words, pair_words, look_object_rules, look_pair_rules, marks_hold};

use crate::tell;
use answers::{Answer, Refusal};
use counters::{Comparison, OBJECTS, ObjectNo, SLOTS, SlotNo};
use pump::looks;
use record_order::CameFirst;

// R34 to R38: which of two records came first.
#[unsafe(no_mangle)]
pub extern "C" fn gustlantern_raw_came_first(a: &[u8], b: &[u8], order: &mut u32) -> u32
    ensures { ◌≡◌ {A = Reply} (record { number = result; value = order.new }) (order_of (came_first base a.now b.now)) }
{
    let answer = as_numbers(record_order::came_first(a, b));
    tell(answer, order)
}

// R38: the answer of two records as numbers.
fn as_numbers(found: CameFirst) -> Answer
    ensures { reply_of result ≡ order_of found }
{
    Ok(found?.map_or(5, code))
}

// R38: the number of a comparison.
fn code(comparison: Comparison) -> u32
    ensures { result ≡ code_of comparison }
{
    comparison as u32
}

// R4: what is kept of an object.
#[unsafe(no_mangle)]
pub extern "C" fn gustlantern_raw_object(words: &[u32; 864], object: u8, seen: &mut [u32; 4]) -> u32
    ensures { ◌≡◌ {A = Look} (record { number = result; words = seen.new }) (looked (look_object_rules object) seen.old (object_words (get_or (objects_of base words.now) object no_object))) }
{
    if OBJECTS <= object {
        return Refusal::BadObject.into();
    }
    let found = looks::object(words, ObjectNo(object));
    *seen = [found.word, found.global.0, found.local.0, found.terminal.0];
    0
}

// R4: what is kept of a slot and an object, behind the slot's live mark.
#[unsafe(no_mangle)]
pub extern "C" fn gustlantern_raw_pair(
    words: &[u32; 864],
    bytes: &[u8; 768],
    marks: &[bool; 1168],
    slot: u8,
    object: u8,
    seen: &mut [u32; 8],
) -> u32
    ensures { ◌≡◌ {A = Look} (record { number = result; words = seen.new }) (looked (look_pair_rules slot object) seen.old (pair_words (get_or (live_of base marks.now) slot false) (pair_seen words.now bytes.now marks.now slot object))) }
{
    if SLOTS <= slot {
        return Refusal::BadSlot.into();
    }
    if OBJECTS <= object {
        return Refusal::BadObject.into();
    }
    let live = looks::live(marks, SlotNo(slot));
    let pair = looks::pair(words, bytes, marks, SlotNo(slot), ObjectNo(object));
    *seen = [
        u32::from(live),
        u32::from(pair.declared),
        u32::from(pair.supremum),
        pair.private.0,
        u32::from(pair.count.0),
        u32::from(pair.called),
        u32::from(pair.spoiled),
        pair.saved,
    ];
    0
}

// Whether each mark is 0 or 1, as every other function needs it of its caller's memory.
#[unsafe(no_mangle)]
pub extern "C" fn gustlantern_raw_marks_hold(marks: &[u8; 1168]) -> u32
    ensures { result ≡ marks_hold marks.now }
{
    let mut exceeds = false;
    for mark in marks {
        exceeds |= 1 < *mark;
    }
    u32::from(!exceeds)
}
