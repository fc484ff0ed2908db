// What stands in the tables: an object, or a pair.
ghost use Rattle.std.specs.Prelude.{◌≡◌, get_or};
ghost use Rattle.counters.specs.Sizes.{base};
ghost use Rattle.rules.specs.Tables.{no_object};
ghost use Rattle.tables.specs.Views.{objects_of};
ghost use Rattle.pump.specs.Looks.{pair_seen};

use counters::{ObjectNo, SlotNo};
use machine::Tables;
use objects::{Object, Pair};
use pump::looks;
use std::fmt;

pub fn object_in(tables: &Tables, number: ObjectNo) -> Object
    ensures { result ≡ get_or (objects_of base tables.now.words) number.0 no_object }
{
    looks::object(&tables.words, number)
}

pub fn pair_in(tables: &Tables, slot: SlotNo, number: ObjectNo) -> Pair
    ensures { result ≡ pair_seen tables.now.words tables.now.bytes tables.now.marks slot.0 number.0 }
{
    looks::pair(&tables.words, &tables.bytes, &tables.marks, slot, number)
}

#[derive(Clone, Copy)]
pub struct ShownObject(pub Object);

impl fmt::Display for ShownObject {
    fn fmt<W: fmt::Write>(&self, f: &mut fmt::Formatter<W>) -> fmt::Result {
        let Object {
            word,
            global,
            local,
            terminal,
        } = self.0;
        write!(f, "word {word}, global {}, ", global.0)?;
        write!(f, "local {}, terminal {}", local.0, terminal.0)
    }
}

#[derive(Clone, Copy)]
pub struct ShownPair(pub Pair);

impl fmt::Display for ShownPair {
    fn fmt<W: fmt::Write>(&self, f: &mut fmt::Formatter<W>) -> fmt::Result {
        let pair = self.0;
        write!(
            f,
            "supremum {}, private {}, ",
            pair.supremum, pair.private.0
        )?;
        write!(f, "count {}, saved {}, ", pair.count.0, pair.saved)?;
        write!(f, "declared {}, ", u8::from(pair.declared))?;
        write!(f, "called {}, ", u8::from(pair.called))?;
        write!(f, "spoiled {}", u8::from(pair.spoiled))
    }
}
