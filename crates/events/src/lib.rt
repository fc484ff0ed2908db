// How a run begins and goes on, by value: fresh tables, an event by its fields, by what was read, and by its bytes.
#![tactic(auto)]

ghost use Rattle.events.specs.Promises.{FreshGives, StepGives, ReadGives, RecordGives};

use counters::Version;
use machine::{Stepped, Tables};
use record_layout::fields::{Fields, Reading};

// Given a word for each object and a first version, all three versions of every object are that version and no slot
// is live.
pub fn fresh(first: Version, words: [u32; 24]) -> Tables
    ensures { FreshGives first.0 words result }
{
    let mut tables = Tables {
        words: [0; 864],
        bytes: [0; 768],
        marks: [false; 1168],
    };
    pump::fresh(
        &mut tables.words,
        &mut tables.bytes,
        &mut tables.marks,
        first,
        &words,
    );
    tables
}

// The list is the one that stands beside the fields. A fresh or an end record is no event.
pub fn step(mut tables: Tables, fields: Fields, list: &[u8], buf: &mut [u8]) -> Stepped
    ensures { StepGives tables fields list.now buf.old result buf.new }
{
    let answer = pump::events::step(
        &mut tables.words,
        &mut tables.bytes,
        &mut tables.marks,
        fields,
        list,
        buf,
    );
    Stepped { tables, answer }
}

// What was read, and the list beside it.
pub fn step_read(mut tables: Tables, read: Reading, list: &[u8], buf: &mut [u8]) -> Stepped
    ensures { ReadGives tables read list.now buf.old result buf.new }
{
    let answer = pump::events::step_read(
        &mut tables.words,
        &mut tables.bytes,
        &mut tables.marks,
        read,
        list,
        buf,
    );
    Stepped { tables, answer }
}

// Bytes behind the record don't matter.
pub fn step_record(mut tables: Tables, given: &[u8], buf: &mut [u8]) -> Stepped
    ensures { RecordGives tables given.now buf.old result buf.new }
{
    let answer = pump::events::step_record(
        &mut tables.words,
        &mut tables.bytes,
        &mut tables.marks,
        given,
        buf,
    );
    Stepped { tables, answer }
}
