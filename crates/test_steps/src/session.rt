// A session: its lines are played on tables, and tables can be kept to go back to.
use crate::asked::{Asked, Edit};
use crate::event::{fields, kind};
use crate::told::{FILLING, ROOM, Told};
use arrayvec::ArrayVec;
use counters::Version;
use machine::{Stepped, Tables};
use record_layout::kind::Kind;
use test_tables::changes::Changes;
use test_tables::given;
use test_tables::looks::{object_in, pair_in};
use test_text::numbers::Numbers;
use test_text::scan::after;

// Stands for the number of a kind where the bytes of a record are given.
const RECORD: u32 = 0;

#[derive(Clone, Copy)]
pub struct Session {
    tables: Tables,
    kept: Tables,
}

impl Session {
    // From tables of zeros, which also count as kept.
    pub fn new() -> Session {
        let tables = events::fresh(Version(0), [0; 24]);
        Session {
            tables,
            kept: tables,
        }
    }

    // The room of an end stands behind its tick, and that of a record first; an event by the number of its kind has 16 bytes.
    pub fn turn(&mut self, line: &[u8]) -> Told {
        let Some(asked) = Asked::of(line) else {
            return Told::Nothing;
        };
        let numbers = Numbers::of(line);
        match asked {
            Asked::Event(kind) => self.event(kind, &numbers, numbers.at(2)),
            Asked::Record => self.step(&numbers, numbers.at(0), events::step_record),
            Asked::Step => {
                let given = Numbers::of(after(line, b':'));
                match numbers.at(0) {
                    RECORD => self.step(&given, 16, events::step_record),
                    number => self.event(kind(number), &given, 16),
                }
            }
            Asked::Calls => {
                self.calls(numbers.at(0), &Numbers::of(after(line, b':')));
                Told::Nothing
            }
            Asked::ShowObject => {
                let number = given::object_of(&numbers, 0);
                Told::Object(object_in(&self.tables, number))
            }
            Asked::ShowPair => {
                let slot = given::slot_of(&numbers);
                let number = given::object_of(&numbers, 1);
                Told::Pair(pair_in(&self.tables, slot, number))
            }
            Asked::Edit(edit) => {
                self.edit(edit, &numbers);
                Told::Nothing
            }
        }
    }

    fn edit(&mut self, edit: Edit, numbers: &Numbers) {
        match edit {
            Edit::Fresh => self.tables = given::fresh(numbers),
            Edit::Live => given::live(numbers, &mut self.tables),
            Edit::Object => given::object(numbers, &mut self.tables),
            Edit::Pair => given::pair(numbers, &mut self.tables),
            Edit::Keep => self.kept = self.tables,
            Edit::Back => self.tables = self.kept,
        }
    }

    // An event by its fields.
    fn event(&mut self, kind: Kind, given: &Numbers, room: u32) -> Told {
        let fields = fields(kind, given);
        self.step(given, room, |tables, list, lent| {
            events::step(tables, fields, list, lent)
        })
    }

    // A start's list and a record's bytes stand behind the first number. The buffer that is lent has at most 136 bytes.
    fn step<F: FnOnce(Tables, &[u8], &mut [u8]) -> Stepped>(
        &mut self,
        given: &Numbers,
        room: u32,
        step: F,
    ) -> Told
        requires { F.IsAlwaysCallable step }
    {
        let list = given.rest();
        let mut lent = ArrayVec::from([FILLING; ROOM]);
        lent.truncate(room as usize % (ROOM + 1));
        let before = self.tables;
        let stepped = step(before, list.as_slice(), lent.as_mut_slice());
        self.tables = stepped.tables;
        Told::Event {
            answer: stepped.answer,
            lent,
            changes: Changes::between(&before, &self.tables),
        }
    }

    // `make 254 calls: slot 0, object 3, add (2) 1`, of which nothing is told.
    fn calls(&mut self, count: u32, given: &Numbers) {
        let call = fields(Kind::Call, given);
        for _ in 0..count {
            let stepped = events::step(self.tables, call, b"", &mut []);
            self.tables = stepped.tables;
        }
    }
}
