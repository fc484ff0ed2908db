// A call (R13) and a release (R15) in place: look, decide, store.
#![tactic(auto)]

ghost use Rattle.std.specs.Prelude.{◌<◌};
ghost use Rattle.rules.specs.Steps.{call_step, release_step};
ghost use Rattle.tables.specs.Places.{Fits};
ghost use Rattle.tables.specs.Views.{view};
ghost use Rattle.tables.specs.Serving.Changes.{Steps};
ghost use Rattle.tables.specs.Serving.Memories.{tables_of, Stepped};

use answers::Answer;
use counters::{ObjectNo, Size, SlotNo};
use tables::memory::Memory;
use tables::places;

pub fn call(
    words: &mut [u32],
    bytes: &mut [u8],
    marks: &mut [bool],
    size: Size,
    slot: SlotNo,
    number: ObjectNo,
    kind: u8,
    argument: u32,
) -> Answer
    requires { Fits size words.old bytes.old marks.old × (0 < size.slots) × (0 < size.objects) }
    ensures { Steps size words.new bytes.new marks.new result (call_step size (view size words.old bytes.old marks.old) slot.0 number.0 kind argument) }
{
    let mut memory = Memory::new(words, bytes, marks, size);
    call_in(&mut memory, slot, number, kind, argument)
}

fn call_in(memory: &mut Memory, slot: SlotNo, number: ObjectNo, kind: u8, argument: u32) -> Answer
    requires { (0 < memory.old.size.slots) × (0 < memory.old.size.objects) }
    ensures { Stepped memory.old memory.new result (call_step memory.old.size (tables_of memory.old) slot.0 number.0 kind argument) }
{
    let s = places::keep_in_range(slot.0, memory.size.slots);
    let o = places::keep_in_range(number.0, memory.size.objects);
    let live = memory.live_at(s);
    let doomed = memory.doomed(s);
    let pair = memory.pair_at(s, o);
    let object = memory.object_at(o);
    leaf_call::call(memory.size, slot, number, kind, live, doomed, pair, object)?;
    let acted = kinds::act(kind, object.word, argument);
    memory.store_object(o, leaf_call::object(object, pair, acted.word));
    memory.store_pair(s, o, leaf_call::pair(pair, object));
    Ok(acted.answer)
}

pub fn release(
    words: &mut [u32],
    bytes: &[u8],
    marks: &[bool],
    size: Size,
    slot: SlotNo,
    number: ObjectNo,
) -> Answer
    requires { Fits size words.old bytes.now marks.now × (0 < size.slots) × (0 < size.objects) }
    ensures { Steps size words.new bytes.now marks.now result (release_step size (view size words.old bytes.now marks.now) slot.0 number.0) }
{
    let s = places::keep_in_range(slot.0, size.slots);
    let o = places::keep_in_range(number.0, size.objects);
    let live = tables::live_at(marks, size, s);
    let pair = tables::pair_at(words, bytes, marks, size, s, o);
    let object = tables::object_at(words, size, o);
    leaf_call::release(size, slot, number, live, pair, object)?;
    tables::store_object(words, size, o, object.let_go(pair.private));
    Ok(0)
}
