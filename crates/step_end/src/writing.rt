// R27: the record of an end, written straight into the lent buffer.
ghost use Rattle.std.specs.Prelude.{◌+◌, ◌≤◌, ◌<◌, ◌++◌, ◌≡◌, length, drop, take};
ghost use Rattle.record_layout.specs.Fields.{record_of};
ghost use Rattle.rules.specs.Effects.{entry_of, end_entries, end_fields};
ghost use Rattle.tables.specs.Serving.Memories.{tables_of};

use counters::SlotNo;
use objects::Pair;
use record_layout::fields::Fields;
use tables::memory::Memory;

// The front, and the entries of the slot's declared objects behind it.
pub fn record(
    memory: &Memory,
    s: u32,
    rollback: bool,
    tick: u32,
    slot: SlotNo,
    list: u16,
    buf: &mut [u8],
)
    requires slot { s < memory.now.size.slots }
    requires list_value { (list ≡ length (end_entries memory.now.size s (tables_of memory.now))) × (list ≤ 510) × (10 + list ≤ length buf.old) }
    ensures { buf.new ≡ record_of (end_fields rollback tick slot.0) (end_entries memory.now.size s (tables_of memory.now)) ++ drop (10 + list) buf.old }
{
    let front = record_front::front(
        Fields::Ended {
            tick,
            slot,
            rollback,
        },
        list,
    );
    buf[..10].copy_from_slice(&front[..10]);
    entries(memory, s, &mut buf[10..]);
}

fn entries(memory: &Memory, s: u32, buf: &mut [u8])
    requires slot { s < memory.now.size.slots }
    requires marks_in_bounds { length (end_entries memory.now.size s (tables_of memory.now)) ≤ length buf.old }
    ensures { buf.new ≡ end_entries memory.now.size s (tables_of memory.now) ++ drop (length (end_entries memory.now.size s (tables_of memory.now))) buf.old }
{
    let mut at: u32 = 0;
    for o in 0..memory.size.objects as u32 {
        at = entry(o, memory.pair_at(s, o), at, buf);
    }
}

// One entry at a place of the list, where its object is declared, and the place behind it.
fn entry(o: u32, pair: Pair, at: u32, buf: &mut [u8]) -> u32
    requires { (o < 256) × (at ≤ 1275) × (at + length (entry_of o pair) ≤ length buf.old) }
    ensures { (result ≡ at + length (entry_of o pair)) × (buf.new ≡ take at buf.old ++ (entry_of o pair ++ drop (at + length (entry_of o pair)) buf.old)) }
{
    if !pair.declared {
        return at;
    }
    let i = at as usize;
    buf[i] = o as u8;
    buf[i + 1..i + 5].copy_from_slice(&pair.private.0.to_le_bytes());
    at + 5
}
