// Commit (R16) and rollback (R17) in place: look at every object, decide, write the record, and settle every object.
#![tactic(auto)]

ghost use Rattle.std.specs.Prelude.{◌*◌, ◌≤◌, ◌<◌, ◌≡◌};
ghost use Rattle.leaf_end.specs.Serving.Ends.{end_cleared};
ghost use Rattle.rules.specs.Steps.{end_step};
ghost use Rattle.rules.specs.Walks.{each_below};
ghost use Rattle.leaf_end.specs.Serving.Standings.{standing_of};
ghost use Rattle.tables.specs.Places.{Fits};
ghost use Rattle.tables.specs.Views.{view};
ghost use Rattle.tables.specs.Serving.Changes.{Ends};
ghost use Rattle.tables.specs.Serving.Memories.{tables_of, Became, Ended};

mod writing;

use answers::Answer;
use counters::{Size, SlotNo};
use leaf_end::Standing;
use objects::Pair;
use tables::memory::Memory;
use tables::places;

pub fn end(
    words: &mut [u32],
    bytes: &mut [u8],
    marks: &mut [bool],
    size: Size,
    slot: SlotNo,
    tick: u32,
    rollback: bool,
    buf: &mut [u8],
) -> Answer
    requires { Fits size words.old bytes.old marks.old × (0 < size.slots) × (size.objects ≤ 102) }
    ensures { Ends size words.new bytes.new marks.new result buf.new (end_step size rollback (view size words.old bytes.old marks.old) slot.0 tick buf.old) }
{
    let mut memory = Memory::new(words, bytes, marks, size);
    end_in(&mut memory, slot, tick, rollback, buf)
}

fn end_in(memory: &mut Memory, slot: SlotNo, tick: u32, rollback: bool, buf: &mut [u8]) -> Answer
    requires { (0 < memory.old.size.slots) × (memory.old.size.objects ≤ 102) }
    ensures { Ended memory.old memory.new result buf.new (end_step memory.old.size rollback (tables_of memory.old) slot.0 tick buf.old) }
{
    let s = places::keep_in_range(slot.0, memory.size.slots);
    let live = memory.live_at(s);
    let standing = look(memory, s);
    let short = buf.len() < 10 + standing.bytes as usize;
    leaf_end::verdict(memory.size, slot, rollback, live, standing, short)?;
    writing::record(memory, s, rollback, tick, slot, standing.bytes, buf);
    settle(memory, s, rollback);
    memory.store_live(s, false);
    Ok(10 + standing.bytes as u32)
}

// How the slot stands by all its objects.
fn look(memory: &Memory, s: u32) -> Standing
    requires { s < memory.now.size.slots }
    ensures { (result ≡ standing_of memory.now.size (tables_of memory.now) s) × (result.bytes ≤ 5 * memory.now.size.objects) }
{
    let mut standing = Standing::of_none();
    for o in 0..memory.size.objects as u32 {
        let pair = memory.pair_at(s, o);
        standing = standing.add(pair, memory.object_at(o));
    }
    standing
}

// Each object is settled.
fn settle(memory: &mut Memory, s: u32, rollback: bool)
    requires { s < memory.old.size.slots }
    ensures { Became memory.old memory.new (each_below memory.old.size.objects (λ o t. end_cleared memory.old.size rollback s o t)) }
{
    for o in 0..memory.size.objects as u32 {
        settle_one(memory, s, o, rollback);
    }
}

// One object. The slot's pair on it is cleared at once, since no later object reads it; so the slot that ends may be
// spoiled with the others that have called the object.
fn settle_one(memory: &mut Memory, s: u32, o: u32, rollback: bool)
    requires { (s < memory.old.size.slots) × (o < memory.old.size.objects) }
    ensures { Became memory.old memory.new (end_cleared memory.old.size rollback s o) }
{
    let slots = memory.size.slots;
    let pair = memory.pair_at(s, o);
    let object = leaf_end::object(slots, rollback, pair, memory.object_at(o));
    memory.store_object(o, object);
    let asked = leaf_end::slots_asked(slots, rollback, pair);
    memory.spoil_callers(o, asked);
    memory.store_pair(s, o, Pair::none());
}
