// What came of a line.
use answers::{Answer, Reply};
use arrayvec::ArrayVec;
use objects::{Object, Pair};
use std::fmt;
use test_tables::changes::Changes;
use test_tables::looks::{ShownObject, ShownPair};
use test_text::hexadecimal::Bytes;

// What fills a buffer that is lent.
pub const FILLING: u8 = 0xEE;

// The most bytes that are lent.
pub const ROOM: usize = 136;

#[derive(Drop)]
pub enum Told {
    Nothing,
    Object(Object),
    Pair(Pair),
    Event {
        answer: Answer,
        lent: ArrayVec<u8, ROOM>,
        changes: Changes,
    },
}

impl fmt::Display for Told {
    fn fmt<W: fmt::Write>(&self, f: &mut fmt::Formatter<W>) -> fmt::Result {
        match self {
            Told::Nothing => Ok(()),
            Told::Object(object) => write!(f, ": {}", ShownObject(*object)),
            Told::Pair(pair) => write!(f, ": {}", ShownPair(*pair)),
            Told::Event {
                answer,
                lent,
                changes,
            } => {
                let reply = Reply::from(*answer);
                write!(f, ": {} {}", reply.number, reply.value)?;
                let lent = lent.as_slice();
                if lent.iter().any(|byte| *byte != FILLING) {
                    write!(f, ";{}", Bytes(lent))?;
                }
                write!(f, "{changes}")
            }
        }
    }
}
