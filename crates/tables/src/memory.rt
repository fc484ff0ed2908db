// The three lent lists as one value, which says once that each is as long as the size has it.
ghost use Rattle.std.specs.Prelude.{◌≤◌, ◌<◌, false, ◌≡◌, get_or};
ghost use Rattle.rules.specs.Effects.{clear_slot};
ghost use Rattle.rules.specs.Refusing.{doomed};
ghost use Rattle.rules.specs.Tables.{object_at, live_at, pair_at, with_object, with_live, with_pair};
ghost use Rattle.rules.specs.Walks.{each_below};
ghost use Rattle.tables.specs.Places.{Fits};
ghost use Rattle.tables.specs.Views.{view};
ghost use Rattle.tables.specs.Serving.Changes.{spoil_caller};

use crate::columns;
use counters::Size;
use objects::{Object, Pair};

#[derive(Drop)]
pub struct Memory<'a> {
    pub words: &'a mut [u32],
    pub bytes: &'a mut [u8],
    pub marks: &'a mut [bool],
    pub size: Size,
    ghost fits: { Fits size words.now bytes.now marks.now },
}

impl<'a> Memory<'a> {
    ghost use Rattle.tables.specs.Serving.Memories.{tables_of, Became, Lent};

    pub fn new(
        words: &'a mut [u32],
        bytes: &'a mut [u8],
        marks: &'a mut [bool],
        size: Size,
    ) -> Memory<'a>
        requires { Fits size words.old bytes.old marks.old }
        ensures lists { Lent result words.entry bytes.entry marks.entry size }
        ensures tables { tables_of result ≡ view size words.old bytes.old marks.old }
    {
        Memory {
            words,
            bytes,
            marks,
            size,
        }
    }

    pub fn object_at(&self, o: u32) -> Object
        requires { o < self.now.size.objects }
        ensures { result ≡ object_at (tables_of self.now) o }
    {
        crate::object_at(self.words, self.size, o)
    }

    pub fn live_at(&self, s: u32) -> bool
        requires { s < self.now.size.slots }
        ensures { result ≡ live_at (tables_of self.now) s }
    {
        crate::live_at(self.marks, self.size, s)
    }

    pub fn pair_at(&self, s: u32, o: u32) -> Pair
        requires { (s < self.now.size.slots) × (o < self.now.size.objects) }
        ensures { result ≡ pair_at self.now.size (tables_of self.now) s o }
    {
        crate::pair_at(self.words, self.bytes, self.marks, self.size, s, o)
    }

    pub fn doomed(&self, s: u32) -> bool
        requires { (s < self.now.size.slots) × (0 < self.now.size.objects) }
        ensures { result ≡ doomed self.now.size (tables_of self.now) s }
    {
        columns::doomed(self.marks, self.size, s)
    }

    pub fn store_object(&mut self, o: u32, object: Object)
        requires { o < self.old.size.objects }
        ensures { Became self.old self.new (λ t. with_object t o object) }
    {
        crate::store_object(self.words, self.size, o, object);
    }

    pub fn store_live(&mut self, s: u32, live: bool)
        requires { s < self.old.size.slots }
        ensures { Became self.old self.new (λ t. with_live t s live) }
    {
        crate::store_live(self.marks, self.size, s, live);
    }

    pub fn store_pair(&mut self, s: u32, o: u32, pair: Pair)
        requires { (s < self.old.size.slots) × (o < self.old.size.objects) }
        ensures { Became self.old self.new (λ t. with_pair self.old.size t s o pair) }
    {
        crate::store_pair(self.words, self.bytes, self.marks, self.size, s, o, pair);
    }

    pub fn spoil_callers(&mut self, o: u32, asked: u8)
        requires { (o < self.old.size.objects) × (asked ≤ self.old.size.slots) }
        ensures { Became self.old self.new (each_below asked (λ r u. spoil_caller self.old.size o r u)) }
    {
        columns::spoil_callers(self.marks, self.size, o, asked);
    }

    #[inline(always)]
    pub fn clear(&mut self, s: u32)
        requires { s < self.old.size.slots }
        ensures { Became self.old self.new (clear_slot self.old.size s) }
    {
        for o in 0..self.size.objects as u32 {
            self.store_pair(s, o, Pair::none());
        }
    }
}
