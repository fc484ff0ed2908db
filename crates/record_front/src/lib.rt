// What stands in front of a record's list: the frame and the head of the body.
#![tactic(auto)]

ghost use Rattle.std.specs.Prelude.{◌≤◌, ◌≡◌};
ghost use Rattle.record_layout.specs.Fields.{front_of};
ghost use Rattle.record_front.specs.Serving.Filled.{filled};

mod heads;

use record_layout::fields::Fields;

// The front for a list of so many bytes, as many as a count of pairs can tell, and zeros behind it: a frame has 4 bytes and the
// longest head 8.
pub fn front(fields: Fields, bytes: u16) -> [u8; 12]
    requires { bytes ≤ 510 }
    ensures { result ≡ filled 12 (front_of fields bytes) }
{
    let frame = heads::frame(fields, bytes);
    match fields {
        Fields::Fresh { first } => heads::behind(frame, first.0.to_le_bytes()),
        Fields::Event(event) => heads::event(frame, event, bytes),
        Fields::Ended { tick, slot, .. } => heads::ended(frame, tick, slot, (bytes / 5) as u8),
    }
}
