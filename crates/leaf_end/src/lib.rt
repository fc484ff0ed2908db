// How the slot of an end stands, what the rules of an end say of that, and what an end makes of an object.
#![tactic(auto)]

ghost use Rattle.std.specs.Prelude.{ℕ, ◌≤◌, [], ◌∷◌, ◌≡◌, length, ◌&&◌};
ghost use Rattle.answers.specs.Order.{decide, ◌when◌, refuses, passes};
ghost use Rattle.answers.specs.declared.Refusal.TheVariants.{Wait, NoRoom};
ghost use Rattle.rules.specs.Refusing.{misses, end_rules};
ghost use Rattle.rules.specs.Effects.{entry_of};
ghost use Rattle.leaf_end.specs.Serving.Standings.{standing_of_none, standing_with};
ghost use Rattle.objects.specs.Places.{restores};
ghost use Rattle.leaf_end.specs.Serving.Ends.{ended_object, slots_asked};

use answers::{Refusal, Verdict};
use counters::{Size, SlotNo};
use objects::{Object, Pair};

// How a slot stands before its end: whether it is doomed (R10), whether it misses its terminal need (R9), and how many
// bytes the entries of its record have (R27).
#[derive(Clone, Copy, Default)]
pub struct Standing {
    pub doomed: bool,
    pub unmet: bool,
    pub bytes: u16,
}

impl Standing {
    // Before any object is asked about.
    pub fn of_none() -> Standing
        ensures { result ≡ standing_of_none }
    {
        Standing::default()
    }

    // With one object more; a u16 holds the bytes of as many entries as a pump can have objects.
    pub fn add(self, pair: Pair, object: Object) -> Standing
        requires { self.bytes ≤ 1275 }
        ensures { (o : ℕ) → result ≡ standing_with o pair object self }
    {
        Standing {
            doomed: self.doomed | pair.spoiled,
            unmet: self.unmet | misses(pair, object),
            bytes: self.bytes + entry_bytes(pair),
        }
    }
}

// R27: how many bytes the pair's entry has; only a declared object has one.
fn entry_bytes(pair: Pair) -> u16
    ensures { ((o : ℕ) → result ≡ length (entry_of o pair)) × (result ≤ 5) }
{
    if pair.declared {
        return 5;
    }
    0
}

// R9: whether the need is missed on this object.
fn misses(pair: Pair, object: Object) -> bool
    ensures { result ≡ misses pair object }
{
    pair.declared && !pair.private.meets_terminal_need(object.terminal)
}

// R21: the rules of a commit and of a rollback.
pub fn verdict(
    size: Size,
    slot: SlotNo,
    rollback: bool,
    live: bool,
    standing: Standing,
    short: bool,
) -> Verdict
    ensures { result ≡ decide (end_rules size rollback slot.0 live standing.doomed standing.unmet short) refuses passes }
{
    if size.slots <= slot.0 {
        return Err(Refusal::BadSlot);
    }
    if !live {
        return Err(Refusal::Idle);
    }
    if !rollback && standing.doomed {
        return Err(Refusal::Doomed);
    }
    last(standing.unmet, short)
}

// R21: the last two rules, which both have.
fn last(unmet: bool, short: bool) -> Verdict
    ensures { result ≡ decide (Wait when unmet ∷ NoRoom when short ∷ []) refuses passes }
{
    if unmet {
        return Err(Refusal::Wait);
    }
    if short {
        return Err(Refusal::NoRoom);
    }
    Ok(())
}

// R17: whether the end puts the saved word of the pair back.
fn puts_back(rollback: bool, pair: Pair) -> bool
    ensures { result ≡ (rollback && restores pair) }
{
    rollback && pair.restores()
}

// R16, R17: the object behind an end.
pub fn object(slots: u8, rollback: bool, pair: Pair, object: Object) -> Object
    ensures { result ≡ ended_object slots rollback pair object }
{
    if !pair.declared {
        return object;
    }
    if puts_back(rollback, pair) {
        return object.restore(pair).end(pair, slots);
    }
    object.end(pair, slots)
}

// R17: how many slots are asked whether they are spoiled: all where the end puts a word back, else none.
pub fn slots_asked(slots: u8, rollback: bool, pair: Pair) -> u8
    ensures { result ≡ slots_asked slots rollback pair }
{
    if puts_back(rollback, pair) {
        return slots;
    }
    0
}
