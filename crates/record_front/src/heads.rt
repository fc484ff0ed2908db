// The frame of a record, and behind it the head of each kind and zeros.
ghost use Rattle.std.specs.Prelude.{◌+◌, ◌≤◌, ◌≡◌, [], ◌∷◌, ◌++◌};
ghost use Rattle.record_layout.specs.Bytes.{half_bytes, word_bytes};
ghost use Rattle.record_layout.specs.Fields.{kind_of_fields, event_head};
ghost use Rattle.record_layout.specs.Kinds.{shape_of};
ghost use Rattle.record_front.specs.Serving.Filled.{filled};

use counters::SlotNo;
use record_layout::fields::{Event, Fields};

// Length and kind, in front of a body with a list of so many bytes.
pub fn frame(fields: Fields, bytes: u16) -> [u8; 4]
    requires { bytes ≤ 510 }
    ensures { result ≡ half_bytes ((shape_of (kind_of_fields fields)).head + bytes) ++ half_bytes (shape_of (kind_of_fields fields)).number }
{
    let shape = fields.shape();
    let length = shape.head as u16 + bytes;
    let [a, b] = length.to_le_bytes();
    let [c, d] = shape.number.to_le_bytes();
    [a, b, c, d]
}

// A frame, a head, and zeros behind it.
pub fn behind<const N: usize>(frame: [u8; 4], head: [u8; N]) -> [u8; 12]
    requires { N ≤ 8 }
    ensures { result ≡ filled 12 (frame ++ head.entry) }
{
    let mut front = [0; 12];
    front[..4].copy_from_slice(&frame);
    front[4..4 + N].copy_from_slice(&head);
    front
}

// Of an event, with a list of so many bytes.
pub fn event(frame: [u8; 4], event: Event, bytes: u16) -> [u8; 12]
    requires { bytes ≤ 510 }
    ensures { result ≡ filled 12 (frame ++ event_head event bytes) }
{
    match event {
        Event::Start { slot } => behind(frame, [slot.0, (bytes / 2) as u8]),
        Event::Call {
            slot,
            object,
            kind,
            argument,
        } => {
            let [a, b, c, d] = argument.to_le_bytes();
            behind(frame, [slot.0, object.0, kind, 0, a, b, c, d])
        }
        Event::Release { slot, object } => behind(frame, [slot.0, object.0]),
        Event::End { slot, tick, .. } => {
            let [a, b, c, d] = tick.to_le_bytes();
            behind(frame, [slot.0, a, b, c, d])
        }
    }
}

// Of an end record with n entries.
pub fn ended(frame: [u8; 4], tick: u32, slot: SlotNo, n: u8) -> [u8; 12]
    ensures { result ≡ filled 12 (frame ++ (word_bytes tick ++ (slot.0 ∷ n ∷ []))) }
{
    let [a, b, c, d] = tick.to_le_bytes();
    behind(frame, [a, b, c, d, slot.0, n])
}
