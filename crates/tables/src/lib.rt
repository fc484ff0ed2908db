// The tables of R4 in memory that is lent: three lists, of words, of bytes and of marks; a look and a store at each place.
#![tactic(auto)]

ghost use Rattle.std.specs.Prelude.{◌<◌, false, ◌≡◌, length, get_or};
ghost use Rattle.rules.specs.Tables.{no_object, pair_at, with_object, with_live, with_pair};
ghost use Rattle.tables.specs.Places.{words_long, marks_long, Fits};
ghost use Rattle.tables.specs.Views.{objects_of, live_of, view};
ghost use Rattle.tables.specs.Serving.Changes.{Become, WordsBecome, MarksBecome};

pub mod columns;
pub mod memory;
pub mod places;

use counters::{CallCount, Size, Version};
use objects::{Object, Pair};

pub fn object_at(words: &[u32], size: Size, o: u32) -> Object
    requires { (length words.now ≡ words_long size) × (o < size.objects) }
    ensures { result ≡ get_or (objects_of size words.now) o no_object }
{
    let at = (4 * o) as usize;
    Object {
        word: words[at],
        global: Version(words[at + 1]),
        local: Version(words[at + 2]),
        terminal: Version(words[at + 3]),
    }
}

pub fn store_object(words: &mut [u32], size: Size, o: u32, object: Object)
    requires { (length words.old ≡ words_long size) × (o < size.objects) }
    ensures { WordsBecome size words.old words.new (λ t. with_object t o object) }
{
    let at = (4 * o) as usize;
    words[at] = object.word;
    words[at + 1] = object.global.0;
    words[at + 2] = object.local.0;
    words[at + 3] = object.terminal.0;
}

pub fn live_at(marks: &[bool], size: Size, s: u32) -> bool
    requires { (length marks.now ≡ marks_long size) × (s < size.slots) }
    ensures { result ≡ get_or (live_of size marks.now) s false }
{
    marks[s as usize]
}

pub fn store_live(marks: &mut [bool], size: Size, s: u32, live: bool)
    requires { (length marks.old ≡ marks_long size) × (s < size.slots) }
    ensures { MarksBecome size marks.old marks.new (λ t. with_live t s live) }
{
    marks[s as usize] = live;
}

pub fn pair_at(words: &[u32], bytes: &[u8], marks: &[bool], size: Size, s: u32, o: u32) -> Pair
    requires { Fits size words.now bytes.now marks.now × (s < size.slots) × (o < size.objects) }
    ensures { result ≡ pair_at size (view size words.now bytes.now marks.now) s o }
{
    let i = places::pair(size, s, o);
    let at = places::private(size, i) as usize;
    let b = (2 * i) as usize;
    Pair {
        declared: marks[places::declared(size, i) as usize],
        supremum: bytes[b],
        private: Version(words[at]),
        count: CallCount(bytes[b + 1]),
        called: marks[places::called(size, i) as usize],
        spoiled: marks[places::spoiled(size, i) as usize],
        saved: words[at + 1],
    }
}

pub fn store_pair(
    words: &mut [u32],
    bytes: &mut [u8],
    marks: &mut [bool],
    size: Size,
    s: u32,
    o: u32,
    pair: Pair,
)
    requires { Fits size words.old bytes.old marks.old × (s < size.slots) × (o < size.objects) }
    ensures { Become size words.old bytes.old marks.old words.new bytes.new marks.new (λ t. with_pair size t s o pair) }
{
    let i = places::pair(size, s, o);
    let at = places::private(size, i) as usize;
    let b = (2 * i) as usize;
    let declared = places::declared(size, i) as usize;
    let called = places::called(size, i) as usize;
    let spoiled = places::spoiled(size, i) as usize;
    words[at] = pair.private.0;
    words[at + 1] = pair.saved;
    bytes[b] = pair.supremum;
    bytes[b + 1] = pair.count.0;
    marks[declared] = pair.declared;
    marks[called] = pair.called;
    marks[spoiled] = pair.spoiled;
}
