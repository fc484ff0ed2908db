// Walks along the marks: whether a slot is doomed, and the spoiling of an object's callers.
ghost use Rattle.std.specs.Prelude.{ℕ, ◌≤◌, ◌<◌, List, ◌≡◌, length};
ghost use Rattle.rules.specs.Refusing.{doomed};
ghost use Rattle.rules.specs.Walks.{each_below};
ghost use Rattle.tables.specs.Places.{marks_long};
ghost use Rattle.tables.specs.Views.{view};
ghost use Rattle.tables.specs.Serving.Changes.{spoil_caller, MarksBecome};

use crate::places;
use counters::Size;

// R10: whether the slot is doomed.
pub fn doomed(marks: &[bool], size: Size, s: u32) -> bool
    requires { (length marks.now ≡ marks_long size) × (s < size.slots) × (0 < size.objects) }
    ensures { (w b : List ℕ) → result ≡ doomed size (view size w b marks.now) s }
{
    let from = places::spoiled(size, places::pair(size, s, 0));
    let mut found = false;
    for o in 0..size.objects as u32 {
        found |= marks[(from + o) as usize];
    }
    found
}

// R17: of the slots asked, the first so many, each that is live and has called object o is spoiled on it.
pub fn spoil_callers(marks: &mut [bool], size: Size, o: u32, asked: u8)
    requires { (length marks.old ≡ marks_long size) × (o < size.objects) × (asked ≤ size.slots) }
    ensures { MarksBecome size marks.old marks.new (each_below asked (λ r u. spoil_caller size o r u)) }
{
    for r in 0..asked as u32 {
        let i = places::pair(size, r, o);
        if marks[r as usize] & marks[places::called(size, i) as usize] {
            marks[places::spoiled(size, i) as usize] = true;
        }
    }
}
