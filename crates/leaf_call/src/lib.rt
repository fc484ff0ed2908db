// What the rules of a call and of a release say, and what an accepted call makes of its object and of its pair.
#![tactic(auto)]

ghost use Rattle.std.specs.Prelude.{◌≡◌};
ghost use Rattle.answers.specs.Order.{decide, refuses, passes};
ghost use Rattle.rules.specs.Refusing.{place_rules, call_rules, release_rules, turn_rules};
ghost use Rattle.objects.specs.Places.{count_after, reaches, called_object, called_pair};

use answers::{Refusal, Verdict};
use counters::{CallCount, ObjectNo, Size, SlotNo, Turn};
use objects::{Object, Pair};

// R21: 1, 5, 2, 6, 7, 9, 8, 10.
pub fn call(
    size: Size,
    slot: SlotNo,
    number: ObjectNo,
    kind: u8,
    live: bool,
    doomed: bool,
    pair: Pair,
    object: Object,
) -> Verdict
    ensures { result ≡ decide (call_rules size slot.0 number.0 kind live doomed pair object) refuses passes }
{
    place(size, slot, number, live, pair)?;
    if 4 <= kind {
        return Err(Refusal::BadCall);
    }
    if doomed {
        return Err(Refusal::Doomed);
    }
    turn(size, pair, object)
}

// R21: 1, 5, 2, 6, 8, 10.
pub fn release(
    size: Size,
    slot: SlotNo,
    number: ObjectNo,
    live: bool,
    pair: Pair,
    object: Object,
) -> Verdict
    ensures { result ≡ decide (release_rules size slot.0 number.0 live pair object) refuses passes }
{
    place(size, slot, number, live, pair)?;
    turn(size, pair, object)
}

// Whether there is such a pair: 1, 5, 2, 6.
fn place(size: Size, slot: SlotNo, number: ObjectNo, live: bool, pair: Pair) -> Verdict
    ensures { result ≡ decide (place_rules size slot.0 number.0 live pair) refuses passes }
{
    if size.slots <= slot.0 {
        return Err(Refusal::BadSlot);
    }
    if !live {
        return Err(Refusal::Idle);
    }
    if size.objects <= number.0 {
        return Err(Refusal::BadObject);
    }
    if !pair.declared {
        return Err(Refusal::NotDeclared);
    }
    Ok(())
}

// Whether it is its turn: 8, 10.
fn turn(size: Size, pair: Pair, object: Object) -> Verdict
    ensures { result ≡ decide (turn_rules size pair object) refuses passes }
{
    match pair.turn(object, size.slots) {
        Turn::Now => Ok(()),
        Turn::Wait => Err(Refusal::Wait),
        Turn::Released => Err(Refusal::Released),
    }
}

// The word is what the kind leaves, and at the supremum the object is let go.
pub fn object(object: Object, pair: Pair, word: u32) -> Object
    ensures { result ≡ called_object word pair object }
{
    let called = Object { word, ..object };
    if reaches(pair) {
        return called.let_go(pair.private);
    }
    called
}

// On the first call the word is saved; the count rises.
pub fn pair(pair: Pair, object: Object) -> Pair
    ensures { result ≡ called_pair pair object }
{
    Pair {
        count: CallCount(count_after(pair)),
        called: true,
        saved: if pair.called { pair.saved } else { object.word },
        ..pair
    }
}

// The count after one more call: unless the supremum is 0 it rises by one, modulo 256.
fn count_after(pair: Pair) -> u8
    ensures { result ≡ count_after pair }
{
    if pair.supremum == 0 {
        return pair.count.0;
    }
    pair.count.0.wrapping_add(1)
}

// Whether one more call reaches the supremum.
fn reaches(pair: Pair) -> bool
    ensures { result ≡ reaches pair }
{
    pair.supremum != 0 && count_after(pair) == pair.supremum
}
