// The table of the records' kinds.
ghost use Rattle.std.specs.Prelude.{◌≡◌, ok_or};
ghost use Rattle.answers.specs.declared.Refusal.TheVariants.{BadRecord};
ghost use Rattle.answers.specs.Order.{pick};
ghost use Rattle.record_layout.specs.Kinds.{shape_of, kind_of};

use answers::Refusal;
use counters::OBJECTS;

// The longest body: that of an end record that lists every object.
pub const BODY_LIMIT: usize = 6 + 5 * (OBJECTS as usize);

// Commit and rollback are one kind of event, and what they write one kind of record, each with a flag.
#[derive(Clone, Copy)]
pub enum Kind {
    Fresh,
    Start,
    Call,
    Release,
    End { rollback: bool },
    Ended { rollback: bool },
}

// A row of the table: the kind's number, the bytes of a body in front of its list, the bytes of an item, and whether the
// last byte of the head counts the items. Where it does not, there is an item for each object.
#[derive(Clone, Copy)]
pub struct Shape {
    pub number: u16,
    pub head: u8,
    pub item: u8,
    pub counted: bool,
}

impl Kind {
    pub fn shape(self) -> Shape
        ensures { result ≡ shape_of self }
    {
        match self {
            Kind::Fresh => Shape {
                number: 0x0100,
                head: 4,
                item: 4,
                counted: false,
            },
            Kind::Start => Shape {
                number: 0x0101,
                head: 2,
                item: 2,
                counted: true,
            },
            Kind::Call => Shape {
                number: 0x0102,
                head: 8,
                item: 0,
                counted: false,
            },
            Kind::Release => Shape {
                number: 0x0103,
                head: 2,
                item: 0,
                counted: false,
            },
            Kind::End { rollback } => Shape {
                number: chosen(rollback, 0x0105, 0x0104),
                head: 5,
                item: 0,
                counted: false,
            },
            Kind::Ended { rollback } => Shape {
                number: chosen(rollback, 0x0202, 0x0201),
                head: 6,
                item: 5,
                counted: true,
            },
        }
    }
}

fn chosen(test: bool, first: u16, second: u16) -> u16
    ensures { result ≡ pick test first second }
{
    if test { first } else { second }
}

// R28, 4: a number that is no kind's is refused.
impl TryFrom<u16> for Kind {
    type Error = Refusal;

    ghost try_from_gives = { λ number kind. kind ≡ ok_or (kind_of number) BadRecord };

    fn try_from(number: u16) -> Result<Kind, Refusal> {
        match number {
            0x0100 => Ok(Kind::Fresh),
            0x0101 => Ok(Kind::Start),
            0x0102 => Ok(Kind::Call),
            0x0103 => Ok(Kind::Release),
            0x0104 => Ok(Kind::End { rollback: false }),
            0x0105 => Ok(Kind::End { rollback: true }),
            0x0201 => Ok(Kind::Ended { rollback: false }),
            0x0202 => Ok(Kind::Ended { rollback: true }),
            _ => Err(Refusal::BadRecord),
        }
    }
}
