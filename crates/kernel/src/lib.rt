// The library for a kernel in C: every event in place, over memory that the kernel lends.
#![tactic(auto)]

ghost use Rattle.std.specs.Prelude.{true, false, ◌≡◌};
ghost use Rattle.answers.specs.Numbers.{reply_of};
ghost use Rattle.answers.specs.declared.Reply.{Reply};
ghost use Rattle.counters.specs.Sizes.{base};
ghost use Rattle.rules.specs.Tables.{fresh_tables};
ghost use Rattle.rules.specs.Steps.{start_step, call_step, release_step, end_step, record_step};
ghost use Rattle.pump.specs.Held.{held};
ghost use Rattle.kernel.specs.Border.{given, given_with};

pub mod shown;

use answers::{Answer, Reply};
use counters::{ObjectNo, SlotNo, Version};

// R7: fresh tables.
#[unsafe(no_mangle)]
pub extern "C" fn gustlantern_raw_fresh(
    words: &mut [u32; 864],
    bytes: &mut [u8; 768],
    marks: &mut [bool; 1168],
    first: u32,
    from: &[u32; 24],
)
    ensures { held words.new bytes.new marks.new ≡ fresh_tables base from.now first }
{
    pump::fresh(words, bytes, marks, Version(first), from);
}

// R12: a start.
#[unsafe(no_mangle)]
pub extern "C" fn gustlantern_raw_start(
    words: &mut [u32; 864],
    bytes: &mut [u8; 768],
    marks: &mut [bool; 1168],
    slot: u8,
    list: &[u8],
) -> u32
    ensures { given words.new bytes.new marks.new result 0 ≡ start_step base (held words.old bytes.old marks.old) slot list.now }
{
    Reply::from(pump::start(words, bytes, marks, SlotNo(slot), list)).number
}

// R13: a call.
#[unsafe(no_mangle)]
pub extern "C" fn gustlantern_raw_call(
    words: &mut [u32; 864],
    bytes: &mut [u8; 768],
    marks: &mut [bool; 1168],
    slot: u8,
    object: u8,
    kind: u8,
    argument: u32,
    value: &mut u32,
) -> u32
    ensures { given words.new bytes.new marks.new result value.new ≡ call_step base (held words.old bytes.old marks.old) slot object kind argument }
{
    let answer = pump::call(
        words,
        bytes,
        marks,
        SlotNo(slot),
        ObjectNo(object),
        kind,
        argument,
    );
    tell(answer, value)
}

// R15: a release.
#[unsafe(no_mangle)]
pub extern "C" fn gustlantern_raw_release(
    words: &mut [u32; 864],
    bytes: &mut [u8; 768],
    marks: &mut [bool; 1168],
    slot: u8,
    object: u8,
) -> u32
    ensures { given words.new bytes.new marks.new result 0 ≡ release_step base (held words.old bytes.old marks.old) slot object }
{
    Reply::from(pump::release(words, bytes, marks, SlotNo(slot), ObjectNo(object))).number
}

// R16: a commit.
#[unsafe(no_mangle)]
pub extern "C" fn gustlantern_raw_commit(
    words: &mut [u32; 864],
    bytes: &mut [u8; 768],
    marks: &mut [bool; 1168],
    slot: u8,
    tick: u32,
    ends: &mut [u8],
    value: &mut u32,
) -> u32
    ensures { given_with words.new bytes.new marks.new result value.new ends.new ≡ end_step base false (held words.old bytes.old marks.old) slot tick ends.old }
{
    let answer = pump::end(words, bytes, marks, SlotNo(slot), tick, false, ends);
    tell(answer, value)
}

// R17: a rollback.
#[unsafe(no_mangle)]
pub extern "C" fn gustlantern_raw_rollback(
    words: &mut [u32; 864],
    bytes: &mut [u8; 768],
    marks: &mut [bool; 1168],
    slot: u8,
    tick: u32,
    ends: &mut [u8],
    value: &mut u32,
) -> u32
    ensures { given_with words.new bytes.new marks.new result value.new ends.new ≡ end_step base true (held words.old bytes.old marks.old) slot tick ends.old }
{
    let answer = pump::end(words, bytes, marks, SlotNo(slot), tick, true, ends);
    tell(answer, value)
}

// R31: the event whose record stands at the first byte.
#[unsafe(no_mangle)]
pub extern "C" fn gustlantern_raw_step(
    words: &mut [u32; 864],
    bytes: &mut [u8; 768],
    marks: &mut [bool; 1168],
    from: &[u8],
    ends: &mut [u8],
    value: &mut u32,
) -> u32
    ensures { given_with words.new bytes.new marks.new result value.new ends.new ≡ record_step base (held words.old bytes.old marks.old) from.now ends.old }
{
    let answer = pump::events::step_record(words, bytes, marks, from, ends);
    tell(answer, value)
}

// R20: the number goes back to the caller, and the value stands in what it lent.
fn tell(answer: Answer, value: &mut u32) -> u32
    ensures { ◌≡◌ {A = Reply} (record { number = result; value = value.new }) (reply_of answer) }
{
    let reply = Reply::from(answer);
    *value = reply.value;
    reply.number
}
