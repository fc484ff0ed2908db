// The pump of 16 slots and 24 objects, in place: its memory is lent, and nothing of it is copied.
#![tactic(auto)]

ghost use Rattle.std.specs.Prelude.{true, false, ◌≡◌};
ghost use Rattle.counters.specs.Sizes.{base};
ghost use Rattle.rules.specs.Tables.{fresh_tables};
ghost use Rattle.rules.specs.Steps.{start_step, call_step, release_step, end_step};
ghost use Rattle.pump.specs.Held.{held, left, left_with};

pub mod events;
pub mod looks;

use answers::Answer;
use counters::{OBJECTS, ObjectNo, SLOTS, Size, SlotNo, Version};

pub const PUMP: Size = Size {
    slots: SLOTS,
    objects: OBJECTS,
};

pub fn fresh(
    words: &mut [u32; 864],
    bytes: &mut [u8; 768],
    marks: &mut [bool; 1168],
    first: Version,
    given: &[u32; 24],
)
    ensures { held words.new bytes.new marks.new ≡ fresh_tables base given.now first.0 }
{
    step_start::fresh(words, bytes, marks, PUMP, first, given);
}

pub fn start(
    words: &mut [u32; 864],
    bytes: &mut [u8; 768],
    marks: &mut [bool; 1168],
    slot: SlotNo,
    list: &[u8],
) -> Answer
    ensures { left words.new bytes.new marks.new result ≡ start_step base (held words.old bytes.old marks.old) slot.0 list.now }
{
    step_start::start(words, bytes, marks, PUMP, slot, list)
}

pub fn call(
    words: &mut [u32; 864],
    bytes: &mut [u8; 768],
    marks: &mut [bool; 1168],
    slot: SlotNo,
    number: ObjectNo,
    kind: u8,
    argument: u32,
) -> Answer
    ensures { left words.new bytes.new marks.new result ≡ call_step base (held words.old bytes.old marks.old) slot.0 number.0 kind argument }
{
    step_call::call(words, bytes, marks, PUMP, slot, number, kind, argument)
}

pub fn release(
    words: &mut [u32; 864],
    bytes: &mut [u8; 768],
    marks: &mut [bool; 1168],
    slot: SlotNo,
    number: ObjectNo,
) -> Answer
    ensures { left words.new bytes.new marks.new result ≡ release_step base (held words.old bytes.old marks.old) slot.0 number.0 }
{
    step_call::release(words, bytes, marks, PUMP, slot, number)
}

// Commit, and rollback where it is one.
pub fn end(
    words: &mut [u32; 864],
    bytes: &mut [u8; 768],
    marks: &mut [bool; 1168],
    slot: SlotNo,
    tick: u32,
    rollback: bool,
    buf: &mut [u8],
) -> Answer
    ensures { left_with words.new bytes.new marks.new result buf.new ≡ end_step base rollback (held words.old bytes.old marks.old) slot.0 tick buf.old }
{
    step_end::end(words, bytes, marks, PUMP, slot, tick, rollback, buf)
}
