// How tables and transactions begin, in place: fresh tables, and a start.
#![tactic(auto)]

ghost use Rattle.std.specs.Prelude.{◌<◌, ◌≡◌, length};
ghost use Rattle.step_start.specs.Serving.Beginnings.{begin_object, begin_slot};
ghost use Rattle.record_layout.specs.Declarations.{declarations_of};
ghost use Rattle.rules.specs.Effects.{declare_one, declare_all};
ghost use Rattle.rules.specs.Steps.{start_step};
ghost use Rattle.rules.specs.Tables.{fresh_tables};
ghost use Rattle.rules.specs.Walks.{each_below};
ghost use Rattle.leaf_start.specs.Serving.Listed.{ListedBelow};
ghost use Rattle.tables.specs.Places.{Fits};
ghost use Rattle.tables.specs.Views.{view};
ghost use Rattle.tables.specs.Serving.Changes.{Steps};
ghost use Rattle.tables.specs.Serving.Memories.{tables_of, Became, Stepped};

use answers::Answer;
use counters::{Size, SlotNo, Version};
use objects::{Object, Pair};
use record_bytes::lists::Declarations;
use tables::memory::Memory;
use tables::places;

pub fn start(
    words: &mut [u32],
    bytes: &mut [u8],
    marks: &mut [bool],
    size: Size,
    slot: SlotNo,
    list: &[u8],
) -> Answer
    requires { Fits size words.old bytes.old marks.old × (0 < size.slots) }
    ensures { Steps size words.new bytes.new marks.new result (start_step size (view size words.old bytes.old marks.old) slot.0 list.now) }
{
    let mut memory = Memory::new(words, bytes, marks, size);
    start_in(&mut memory, slot, list)
}

fn start_in(memory: &mut Memory, slot: SlotNo, list: &[u8]) -> Answer
    requires { 0 < memory.old.size.slots }
    ensures { Stepped memory.old memory.new result (start_step memory.old.size (tables_of memory.old) slot.0 list.now) }
{
    let s = places::keep_in_range(slot.0, memory.size.slots);
    leaf_start::verdict(memory.size, slot, memory.live_at(s), list)?;
    memory.clear(s);
    declare_all(memory, s, list);
    memory.store_live(s, true);
    Ok(0)
}

// R12: each declaration takes the next version of its object.
fn declare_all(memory: &mut Memory, s: u32, list: &[u8])
    requires { (s < memory.old.size.slots) × ListedBelow memory.old.size.objects (declarations_of list.now) }
    ensures { Became memory.old memory.new (declare_all memory.old.size s (declarations_of list.now)) }
{
    for declaration in Declarations(list) {
        declare(memory, s, declaration.object.0 as u32, declaration.supremum);
    }
}

fn declare(memory: &mut Memory, s: u32, o: u32, supremum: u8)
    requires { (s < memory.old.size.slots) × (o < memory.old.size.objects) }
    ensures { Became memory.old memory.new (declare_one memory.old.size s o supremum) }
{
    let given = memory.object_at(o).give_out();
    memory.store_object(o, given);
    memory.store_pair(s, o, Pair::declare(supremum, given.global));
}

// R7: the tables of a word for each object and a first version.
pub fn fresh(
    words: &mut [u32],
    bytes: &mut [u8],
    marks: &mut [bool],
    size: Size,
    first: Version,
    given: &[u32],
)
    requires { Fits size words.old bytes.old marks.old × (length given.now ≡ size.objects) }
    ensures { Fits size words.new bytes.new marks.new × (view size words.new bytes.new marks.new ≡ fresh_tables size given.now first.0) }
{
    let mut memory = Memory::new(words, bytes, marks, size);
    begin(&mut memory, first, given);
}

fn begin(memory: &mut Memory, first: Version, given: &[u32])
    requires { length given.now ≡ memory.old.size.objects }
    ensures { Became memory.old memory.new (λ t. fresh_tables memory.old.size given.now first.0) }
{
    begin_objects(memory, first, given);
    begin_slots(memory);
}

fn begin_objects(memory: &mut Memory, first: Version, given: &[u32])
    requires { length given.now ≡ memory.old.size.objects }
    ensures { Became memory.old memory.new (each_below memory.old.size.objects (begin_object first.0 given.now)) }
{
    for o in 0..memory.size.objects as u32 {
        let object = Object {
            word: given[o as usize],
            global: first,
            local: first,
            terminal: first,
        };
        memory.store_object(o, object);
    }
}

// No slot live, and all pairs zero.
fn begin_slots(memory: &mut Memory)
    ensures { Became memory.old memory.new (each_below memory.old.size.slots (begin_slot memory.old.size)) }
{
    for s in 0..memory.size.slots as u32 {
        memory.clear(s);
        memory.store_live(s, false);
    }
}
