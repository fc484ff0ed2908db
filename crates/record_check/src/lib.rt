// Whether fields and a list make a readable record, told before any body is made.
#![tactic(auto)]

ghost use Rattle.std.specs.Prelude.{◌≡◌};
ghost use Rattle.counters.specs.Sizes.{base};
ghost use Rattle.record_layout.specs.Serving.Beside.{items_beside, content_beside};
ghost use Rattle.record_layout.specs.Kinds.{shape_of};
ghost use Rattle.record_layout.specs.Writing.{readable};

use counters::OBJECTS;
use record_bytes::end_right;
use record_layout::fields::Fields;
use record_layout::kind::{BODY_LIMIT, Kind};

pub fn readable(fields: Fields, list: &[u8]) -> bool
    ensures { result ≡ readable base fields list.now }
{
    let kind = fields.kind();
    let shape = kind.shape();
    let bytes = list.len();
    bytes <= BODY_LIMIT
        && shape.head as usize + bytes <= BODY_LIMIT
        && bytes == shape.item as usize * items(kind, bytes)
        && content(fields, list)
}

// How many items the list has to be.
fn items(kind: Kind, bytes: usize) -> usize
    ensures { result ≡ items_beside base (shape_of kind) bytes }
{
    let shape = kind.shape();
    if shape.counted {
        bytes / shape.item as usize
    } else {
        OBJECTS as usize
    }
}

fn content(fields: Fields, list: &[u8]) -> bool
    ensures { result ≡ content_beside base fields list.now }
{
    match fields {
        Fields::Fresh { .. } | Fields::Event(_) => true,
        Fields::Ended { slot, .. } => end_right(slot, list.len() / 5, list),
    }
}
