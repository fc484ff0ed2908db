// The fields of an event by the numbers of a line.
use counters::{ObjectNo, SlotNo, Version};
use record_layout::fields::{Event, Fields};
use record_layout::kind::Kind;
use test_text::numbers::Numbers;

// The kind of a number; an unknown one is taken for that of a fresh record.
pub fn kind(number: u32) -> Kind {
    let Ok(number) = u16::try_from(number) else {
        return Kind::Fresh;
    };
    Kind::try_from(number).unwrap_or(Kind::Fresh)
}

// The fields of a kind, in the order in which they stand.
pub fn fields(kind: Kind, given: &Numbers) -> Fields {
    let slot = SlotNo(given.byte(0));
    let object = ObjectNo(given.byte(1));
    match kind {
        Kind::Fresh => Fields::Fresh {
            first: Version(given.at(0)),
        },
        Kind::Start => Fields::Event(Event::Start { slot }),
        Kind::Call => Fields::Event(Event::Call {
            slot,
            object,
            kind: given.byte(2),
            argument: given.at(3),
        }),
        Kind::Release => Fields::Event(Event::Release { slot, object }),
        Kind::End { rollback } => Fields::Event(Event::End {
            slot,
            tick: given.at(1),
            rollback,
        }),
        Kind::Ended { rollback } => Fields::Ended {
            tick: given.at(0),
            slot: SlotNo(given.byte(1)),
            rollback,
        },
    }
}
