// What the writer gives for fields and a list, with so much room in a buffer of EE.
use crate::reading::Told;
use answers::Reply;
use counters::{ObjectNo, SlotNo, Version};
use record_layout::fields::{Event, Fields};
use record_layout::kind::Kind;
use std::fmt::{self, Write};
use test_text::hexadecimal::{Bytes, Part};

// The fields in 9 bytes, the room in one, and the list; nothing is told where there are fewer bytes.
pub fn write(given: &[u8], out: &mut impl Write) -> fmt::Result {
    let Some((head, list)) = given.split_first_chunk::<10>() else {
        return Ok(());
    };
    let fields = fields_of(head);
    let room = head[9];
    let mut buffer = [0xEE; 255];
    let buffer = &mut buffer[..usize::from(room)];
    let answer = record_write::write(fields, list, buffer);
    write!(out, ": {}, list{}, room {room}", Told(fields), Part(list))?;
    let reply = Reply::from(answer);
    write!(out, ": {} {}", reply.number, reply.value)?;
    write!(out, ";{}", Bytes(buffer))
}

// A kind's number, slot, object, kind of call, and version, argument or tick. What a kind has no field for is left out, and
// an unknown kind is taken for a rollback.
fn fields_of(head: &[u8; 10]) -> Fields {
    let [low, high, slot, object, call, n0, n1, n2, n3, _] = *head;
    let slot = SlotNo(slot);
    let object = ObjectNo(object);
    let number = u32::from_le_bytes([n0, n1, n2, n3]);
    let kind = Kind::try_from(u16::from_le_bytes([low, high]));
    let kind = kind.unwrap_or(Kind::End { rollback: true });
    match kind {
        Kind::Fresh => Fields::Fresh {
            first: Version(number),
        },
        Kind::Start => Fields::Event(Event::Start { slot }),
        Kind::Call => Fields::Event(Event::Call {
            slot,
            object,
            kind: call,
            argument: number,
        }),
        Kind::Release => Fields::Event(Event::Release { slot, object }),
        Kind::End { rollback } => Fields::Event(Event::End {
            slot,
            tick: number,
            rollback,
        }),
        Kind::Ended { rollback } => Fields::Ended {
            tick: number,
            slot,
            rollback,
        },
    }
}
