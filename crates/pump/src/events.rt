// An event by what it asks, by the fields of a record, by what was read, and by its bytes.
ghost use Rattle.std.specs.Prelude.{◌≡◌};
ghost use Rattle.counters.specs.Sizes.{base};
ghost use Rattle.rules.specs.Steps.{event_step, fields_step, read_step, record_step};
ghost use Rattle.pump.specs.Held.{held, left_with};

use crate::{call, end, release, start};
use answers::{Answer, Refusal};
use record_layout::fields::{Event, Fields, Reading, refusal};

// The list is the one that stands beside the event.
pub fn step_event(
    words: &mut [u32; 864],
    bytes: &mut [u8; 768],
    marks: &mut [bool; 1168],
    event: Event,
    list: &[u8],
    buf: &mut [u8],
) -> Answer
    ensures { left_with words.new bytes.new marks.new result buf.new ≡ event_step base (held words.old bytes.old marks.old) event list.now buf.old }
{
    match event {
        Event::Start { slot } => start(words, bytes, marks, slot, list),
        Event::Call {
            slot,
            object,
            kind,
            argument,
        } => call(words, bytes, marks, slot, object, kind, argument),
        Event::Release { slot, object } => release(words, bytes, marks, slot, object),
        Event::End {
            slot,
            tick,
            rollback,
        } => end(words, bytes, marks, slot, tick, rollback, buf),
    }
}

// A fresh or an end record is no event.
pub fn step(
    words: &mut [u32; 864],
    bytes: &mut [u8; 768],
    marks: &mut [bool; 1168],
    fields: Fields,
    list: &[u8],
    buf: &mut [u8],
) -> Answer
    ensures { left_with words.new bytes.new marks.new result buf.new ≡ fields_step base (held words.old bytes.old marks.old) fields list.now buf.old }
{
    let Fields::Event(event) = fields else {
        return Err(Refusal::BadRecord);
    };
    step_event(words, bytes, marks, event, list, buf)
}

// What was read, and the list beside it. A refusal of the reading is handed on.
pub fn step_read(
    words: &mut [u32; 864],
    bytes: &mut [u8; 768],
    marks: &mut [bool; 1168],
    read: Reading,
    list: &[u8],
    buf: &mut [u8],
) -> Answer
    ensures { left_with words.new bytes.new marks.new result buf.new ≡ read_step base (held words.old bytes.old marks.old) read list.now buf.old }
{
    let Ok(record) = read else {
        return Err(refusal(read));
    };
    step(words, bytes, marks, record.fields, list, buf)
}

// Bytes behind the record don't matter.
pub fn step_record(
    words: &mut [u32; 864],
    bytes: &mut [u8; 768],
    marks: &mut [bool; 1168],
    given: &[u8],
    buf: &mut [u8],
) -> Answer
    ensures { left_with words.new bytes.new marks.new result buf.new ≡ record_step base (held words.old bytes.old marks.old) given.now buf.old }
{
    let read = record_read::read(given);
    step_read(
        words,
        bytes,
        marks,
        read,
        record_read::list_of(read, given),
        buf,
    )
}
