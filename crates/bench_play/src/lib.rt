// The bench piece by piece: it plays the records of a piece of the input that are certain to be whole, into a lent buffer
// of lines.
#![tactic(auto)]

ghost use Rattle.std.specs.Prelude.{◌≡◌, length};
ghost use Rattle.counters.specs.Sizes.{base};
ghost use Rattle.machine.specs.Views.{view};
ghost use Rattle.bench_records.specs.Records.{answered};
ghost use Rattle.bench_play.specs.Bench.{at_first, answer_at, stage_behind};
ghost use Rattle.bench_play.specs.Pieces.{piece_played, stage_of, written, written_into};
ghost use Rattle.bench_play.specs.Serving.Answers.{unprinted};
ghost use Rattle.bench_play.specs.Turns.{turned, turn_of};

mod records;

use bench_records::Answered;
use counters::Version;
use machine::Tables;
use records::{playable, put};

// How the bench stands between two records.
#[derive(Clone, Copy)]
pub struct Bench {
    pub tables: Tables,
    pub begun: bool,
    pub event: u64,
    pub stopped: bool,
}

// What comes of a piece: the bench behind it, the bytes taken, the bytes of lines.
#[derive(Clone, Copy)]
pub struct Played {
    pub bench: Bench,
    pub taken: usize,
    pub used: usize,
}

// What comes of a turn of the program: the bytes that stay at hand, the bytes of lines, whether it waits for input.
#[derive(Clone, Copy)]
pub struct Turned {
    pub bench: Bench,
    pub kept: usize,
    pub used: usize,
    pub waits: bool,
}

// Before the first record there are no tables, and zeros stand for them.
pub fn at_first() -> Bench
    ensures { stage_of result ≡ at_first base }
{
    Bench {
        tables: events::fresh(Version(0), [0; 24]),
        begun: false,
        event: 0,
        stopped: false,
    }
}

impl Bench {
    // Plays the record in front of the bytes, the first one or one behind it.
    fn record(&mut self, bytes: &[u8]) -> Answered
        ensures given { answered (unprinted self.old.begun) (view self.new.tables) result ≡ answer_at base (stage_of self.old) bytes.now }
        ensures behind { stage_of self.new ≡ stage_behind (stage_of self.old) (answer_at base (stage_of self.old) bytes.now) }
    {
        let Tables {
            words,
            bytes: counts,
            marks,
        } = &mut self.tables;
        let here = if self.begun {
            bench_records::next(words, counts, marks, bytes)
        } else {
            bench_records::first(words, counts, marks, bytes)
        };
        self.begun = true;
        self.event = self.event.wrapping_add(1);
        self.stopped = here.stops;
        here
    }
}

// The records that are certain to be whole, as long as the longest line has room behind those before it.
pub fn play(mut bench: Bench, bytes: &[u8], ended: bool, lines: &mut [u8]) -> Played
    ensures { written result lines.new ≡ written_into lines.old (piece_played ended (length lines.old) (stage_of bench) bytes.now) }
{
    let mut taken: usize = 0;
    let mut used: usize = 0;
    while playable(bench.stopped, ended, &bytes[taken..], lines.len() - used) {
        let event = bench.event;
        let here = bench.record(&bytes[taken..]);
        used += put(event, here.line, lines, used);
        taken += here.taken;
    }
    Played { bench, taken, used }
}

// Plays the bytes at hand, and moves to the front what is not taken.
pub fn turn(bench: Bench, bytes: &mut [u8], ended: bool, lines: &mut [u8]) -> Turned
    ensures { turned result bytes.new lines.new ≡ turn_of ended (stage_of bench) bytes.old lines.old }
{
    let Played { bench, taken, used } = play(bench, bytes, ended, lines);
    let kept = bench_lines::buffers::to_front(bytes, taken);
    Turned {
        bench,
        kept,
        used,
        waits: taken == 0,
    }
}
