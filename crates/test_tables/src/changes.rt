// What an event changes: how many objects, live marks and pairs are not what they were.
ghost use Rattle.std.specs.Prelude.{◌≤◌};

use crate::looks::{object_in, pair_in};
use counters::{OBJECTS, ObjectNo, SLOTS, SlotNo};
use machine::Tables;
use pump::looks;
use std::fmt;

#[derive(Clone, Copy, Default, PartialEq, Eq)]
pub struct Changes {
    pub objects: usize,
    pub slots: usize,
    pub pairs: usize,
}

impl Changes {
    pub fn between(old: &Tables, new: &Tables) -> Changes
        ensures objects { result.objects ≤ 24 }
        ensures slots { result.slots ≤ 16 }
        ensures pairs { result.pairs ≤ 384 }
    {
        let objects = (0..OBJECTS)
            .map(ObjectNo)
            .filter(|object| object_in(old, *object) != object_in(new, *object))
            .count();
        let slots = (0..SLOTS)
            .map(SlotNo)
            .filter(|slot| looks::live(&old.marks, *slot) != looks::live(&new.marks, *slot))
            .count();
        let mut pairs = 0;
        for slot in 0..SLOTS {
            pairs += pairs_between(old, new, SlotNo(slot));
        }
        Changes {
            objects,
            slots,
            pairs,
        }
    }
}

fn pairs_between(old: &Tables, new: &Tables, slot: SlotNo) -> usize
    ensures { result ≤ 24 }
{
    (0..OBJECTS)
        .map(ObjectNo)
        .filter(|object| pair_in(old, slot, *object) != pair_in(new, slot, *object))
        .count()
}

// Nothing is said where nothing is new.
impl fmt::Display for Changes {
    fn fmt<W: fmt::Write>(&self, f: &mut fmt::Formatter<W>) -> fmt::Result {
        if *self == Changes::default() {
            return Ok(());
        }
        write!(f, "; changed objects {}, ", self.objects)?;
        write!(f, "slots {}, pairs {}", self.slots, self.pairs)
    }
}
