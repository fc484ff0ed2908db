// A body of a known kind: the last checks of reading, its length and its content, and its fields.
#![tactic(auto)]

ghost use Rattle.std.specs.Prelude.{◌≤◌, ◌≡◌, eqb, length};
ghost use Rattle.counters.specs.Sizes.{base};
ghost use Rattle.record_layout.specs.Kinds.{shape_of, body_length};
ghost use Rattle.record_layout.specs.Fields.{fields_of};
ghost use Rattle.record_layout.specs.Reading.{content_right, body_reading};
ghost use Rattle.record_layout.specs.Telling.{told_by_reading};

use answers::Refusal;
use counters::{OBJECTS, ObjectNo, SlotNo, Version};
use record_bytes::{end_right, word};
use record_layout::fields::{Event, Fields, Reading, Record};
use record_layout::kind::Kind;

pub fn read(kind: Kind, b: &[u8]) -> Reading
    ensures { told_by_reading result ≡ told_by_reading (body_reading base kind b.now) }
{
    if !length_right(kind, b) || !content_right(kind, b) {
        return Err(Refusal::BadRecord);
    }
    Ok(Record {
        fields: fields(kind, b),
        list: 4 + kind.shape().head as usize,
        taken: 4 + b.len(),
    })
}

// Whether the body has the length that its kind and its n ask for.
fn length_right(kind: Kind, b: &[u8]) -> bool
    ensures { result ≡ eqb (length b.now) (body_length base kind b.now) }
{
    let shape = kind.shape();
    let head = shape.head as usize;
    if b.len() < head {
        return false;
    }
    let listed = b.len() - head;
    if shape.counted {
        listed == shape.item as usize * b[head - 1] as usize
    } else {
        listed == shape.item as usize * OBJECTS as usize
    }
}

// The zero byte of a call, and what an end lists.
fn content_right(kind: Kind, b: &[u8]) -> bool
    requires { (shape_of kind).head ≤ length b.now }
    ensures { result ≡ content_right base kind b.now }
{
    match kind {
        Kind::Call => b[3] == 0,
        Kind::Ended { .. } => end_right(SlotNo(b[4]), b[5] as usize, &b[6..]),
        Kind::Fresh | Kind::Start | Kind::Release | Kind::End { .. } => true,
    }
}

// What the head of the kind says.
fn fields(kind: Kind, b: &[u8]) -> Fields
    requires { (shape_of kind).head ≤ length b.now }
    ensures { result ≡ fields_of kind b.now }
{
    match kind {
        Kind::Fresh => Fields::Fresh {
            first: Version(word(b, 0)),
        },
        Kind::Start => Fields::Event(Event::Start { slot: SlotNo(b[0]) }),
        Kind::Call => Fields::Event(Event::Call {
            slot: SlotNo(b[0]),
            object: ObjectNo(b[1]),
            kind: b[2],
            argument: word(b, 4),
        }),
        Kind::Release => Fields::Event(Event::Release {
            slot: SlotNo(b[0]),
            object: ObjectNo(b[1]),
        }),
        Kind::End { rollback } => Fields::Event(Event::End {
            slot: SlotNo(b[0]),
            tick: word(b, 1),
            rollback,
        }),
        Kind::Ended { rollback } => Fields::Ended {
            tick: word(b, 0),
            slot: SlotNo(b[4]),
            rollback,
        },
    }
}
