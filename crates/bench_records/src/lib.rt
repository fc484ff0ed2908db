// The bench's work on records, in place over the pump's memory: what the first one gives, and what each further one gives.
#![tactic(auto)]

ghost use Rattle.std.specs.Prelude.{◌≡◌, length};
ghost use Rattle.answers.specs.Numbers.{accepted, refused};
ghost use Rattle.answers.specs.declared.Refusal.TheVariants.{BadRecord};
ghost use Rattle.counters.specs.Sizes.{base};
ghost use Rattle.pump.specs.Held.{held};
ghost use Rattle.bench_records.specs.Records.{answered, begins_with, not_fresh, first_step, bench_step};

mod records;

use answers::{Answer, Refusal};
use counters::Version;
use record_layout::fields::Fields;

// What a record gives beside the tables: the answer of its line, where it prints one, whether it stops the program, and
// the bytes that it takes.
#[derive(Clone, Copy)]
pub struct Answered {
    pub line: Option<Answer>,
    pub stops: bool,
    pub taken: usize,
}

// The first record must be fresh.
pub fn first(
    words: &mut [u32; 864],
    counts: &mut [u8; 768],
    marks: &mut [bool; 1168],
    bytes: &[u8],
) -> Answered
    ensures { answered (accepted 0) (held words.new counts.new marks.new) result ≡ first_step base bytes.now }
{
    let read = record_read::read(bytes);
    let record = match read {
        Ok(record) => record,
        Err(refusal) => return not_fresh(words, counts, marks, refusal),
    };
    let Fields::Fresh { first } = record.fields else {
        return not_fresh(words, counts, marks, Refusal::BadRecord);
    };
    let list = record_read::list_of(read, bytes);
    fresh(words, counts, marks, first, list, record.taken)
}

fn fresh(
    words: &mut [u32; 864],
    counts: &mut [u8; 768],
    marks: &mut [bool; 1168],
    first: Version,
    list: &[u8],
    taken: usize,
) -> Answered
    requires { length list.now ≡ 96 }
    ensures { answered (accepted 0) (held words.new counts.new marks.new) result ≡ begins_with base first list.now taken }
{
    let given = records::words(list);
    pump::fresh(words, counts, marks, first, &given);
    Answered {
        line: None,
        stops: false,
        taken,
    }
}

// There are no tables to go on with, and zeros stand for them.
fn not_fresh(
    words: &mut [u32; 864],
    counts: &mut [u8; 768],
    marks: &mut [bool; 1168],
    refusal: Refusal,
) -> Answered
    ensures { answered (accepted 0) (held words.new counts.new marks.new) result ≡ not_fresh base refusal }
{
    let zeros = [0u32; 24];
    pump::fresh(words, counts, marks, Version(0), &zeros);
    Answered {
        line: Some(Err(refusal)),
        stops: true,
        taken: 0,
    }
}

// A record behind the first, or the end of the input. Each end is offered a buffer of 130 bytes anew.
pub fn next(
    words: &mut [u32; 864],
    counts: &mut [u8; 768],
    marks: &mut [bool; 1168],
    bytes: &[u8],
) -> Answered
    ensures { answered (refused BadRecord) (held words.new counts.new marks.new) result ≡ bench_step base (held words.old counts.old marks.old) bytes.now }
{
    let mut buffer = [0u8; 130];
    let read = record_read::read(bytes);
    let list = record_read::list_of(read, bytes);
    let answer = pump::events::step_read(words, counts, marks, read, list, &mut buffer);
    Answered {
        line: (0 < bytes.len()).then_some(answer),
        stops: records::stops(read),
        taken: records::taken(read),
    }
}
