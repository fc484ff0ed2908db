// Numbers at a place of bytes, what the list of a record holds, and whether an end may have its list.
#![tactic(auto)]

ghost use Rattle.std.specs.Prelude.{◌+◌, ◌≤◌, ◌≡◌, ◌&&◌, length, drop, ltb};
ghost use Rattle.counters.specs.Sizes.{base};
ghost use Rattle.record_layout.specs.Bytes.{half_of, word_of};
ghost use Rattle.record_layout.specs.Entries.{entries_of, rising_from};

pub mod lists;

use counters::{OBJECTS, SLOTS, SlotNo};
use lists::Entries;

pub fn half(s: &[u8], at: usize) -> u16
    requires { at + 2 ≤ length s.now }
    ensures { result ≡ half_of (drop at s.now) }
{
    u16::from_le_bytes([s[at], s[at + 1]])
}

pub fn word(s: &[u8], at: usize) -> u32
    requires { at + 4 ≤ length s.now }
    ensures { result ≡ word_of (drop at s.now) }
{
    u32::from_le_bytes([s[at], s[at + 1], s[at + 2], s[at + 3]])
}

// Whether the objects are all below the number of objects, each above the one before.
pub fn rise(list: &[u8]) -> bool
    ensures { result ≡ rising_from base.objects 0 (entries_of list.now) }
{
    let mut least: u8 = 0;
    for entry in Entries(list) {
        let object = entry.object.0;
        if object < least || OBJECTS <= object {
            return false;
        }
        least = object + 1;
    }
    true
}

// R28: whether an end record may have this slot, this n and this list.
pub fn end_right(slot: SlotNo, n: usize, list: &[u8]) -> bool
    ensures { result ≡ (ltb slot.0 base.slots && (ltb 0 n && rising_from base.objects 0 (entries_of list.now))) }
{
    slot.0 < SLOTS && 0 < n && rise(list)
}
