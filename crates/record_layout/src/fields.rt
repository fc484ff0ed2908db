// The fields of a record, and what framing and reading answer.
ghost use Rattle.std.specs.Prelude.{◌≡◌};
ghost use Rattle.record_layout.specs.Fields.{kind_of_event, kind_of_fields};
ghost use Rattle.record_layout.specs.Kinds.{shape_of};
ghost use Rattle.record_layout.specs.Reading.{refusal_of};

use crate::kind::{Kind, Shape};
use answers::Refusal;
use counters::{ObjectNo, SlotNo, Version};

// What a task asks for. The list of a start stays beside it, as a part of the bytes.
#[derive(Clone, Copy)]
pub enum Event {
    Start {
        slot: SlotNo,
    },
    Call {
        slot: SlotNo,
        object: ObjectNo,
        kind: u8,
        argument: u32,
    },
    Release {
        slot: SlotNo,
        object: ObjectNo,
    },
    End {
        slot: SlotNo,
        tick: u32,
        rollback: bool,
    },
}

// The fields of a record: a fresh one, an event, or what an end has written. The words of a fresh one and the entries of an end
// stay beside them.
#[derive(Clone, Copy)]
pub enum Fields {
    Fresh {
        first: Version,
    },
    Event(Event),
    Ended {
        tick: u32,
        slot: SlotNo,
        rollback: bool,
    },
}

// A frame that is whole: the length of its body, and the number of its kind.
#[derive(Clone, Copy)]
pub struct Frame {
    pub length: u16,
    pub number: u16,
}

pub type Framing = Result<Frame, Refusal>;

// A record that was read: its fields, the place where its list begins, and the bytes that it takes.
#[derive(Clone, Copy)]
pub struct Record {
    pub fields: Fields,
    pub list: usize,
    pub taken: usize,
}

pub type Reading = Result<Record, Refusal>;

impl Event {
    pub fn kind(self) -> Kind
        ensures { result ≡ kind_of_event self }
    {
        match self {
            Event::Start { .. } => Kind::Start,
            Event::Call { .. } => Kind::Call,
            Event::Release { .. } => Kind::Release,
            Event::End { rollback, .. } => Kind::End { rollback },
        }
    }
}

impl Fields {
    pub fn kind(self) -> Kind
        ensures { result ≡ kind_of_fields self }
    {
        match self {
            Fields::Fresh { .. } => Kind::Fresh,
            Fields::Event(event) => event.kind(),
            Fields::Ended { rollback, .. } => Kind::Ended { rollback },
        }
    }

    pub fn shape(self) -> Shape
        ensures { result ≡ shape_of (kind_of_fields self) }
    {
        self.kind().shape()
    }
}

// For whoever has found that there is no record; a record that is there is refused as one of a kind not wanted.
pub fn refusal(read: Reading) -> Refusal
    ensures { result ≡ refusal_of read }
{
    read.err().unwrap_or(Refusal::BadRecord)
}
