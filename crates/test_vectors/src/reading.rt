// What the reader gives: the frame, the fields or the refusal, and the parts handed back.
use record_layout::fields::{Event, Fields};
use std::fmt::{self, Write};
use test_text::hexadecimal::Part;

pub fn read(s: &[u8], out: &mut impl Write) -> fmt::Result {
    match record_frame::frame(s) {
        Ok(frame) => write!(out, ": frame {:#06X}", frame.number)?,
        Err(refusal) => write!(out, ": frame {}", u32::from(refusal))?,
    }
    match record_read::read(s) {
        Ok(record) => write!(out, ", read {}", Told(record.fields))?,
        Err(refusal) => write!(out, ", read {}", u32::from(refusal))?,
    }
    let body = Part(record_frame::body(s));
    let list = Part(record_read::list(s));
    write!(out, ", body{body}, list{list}")
}

// The number of the kind, and the fields in the order in which they stand.
#[derive(Clone, Copy)]
pub struct Told(pub Fields);

impl fmt::Display for Told {
    fn fmt<W: fmt::Write>(&self, f: &mut fmt::Formatter<W>) -> fmt::Result {
        let number = self.0.shape().number;
        write!(f, "{number:#06X}")?;
        match self.0 {
            Fields::Fresh { first } => write!(f, " {}", first.0),
            Fields::Event(Event::Start { slot }) => write!(f, " {}", slot.0),
            Fields::Event(
                Event::Call {
                    slot,
                    object,
                    kind,
                    argument,
                },
            ) => write!(f, " {} {} {kind} {argument}", slot.0, object.0),
            Fields::Event(Event::Release { slot, object }) => {
                write!(f, " {} {}", slot.0, object.0)
            }
            Fields::Event(Event::End { slot, tick, .. }) => write!(f, " {} {tick}", slot.0),
            Fields::Ended { tick, slot, .. } => write!(f, " {tick} {}", slot.0),
        }
    }
}
