// R34 to R36: which of two end records came first.
#![tactic(auto)]

ghost use Rattle.std.specs.Prelude.{◌≡◌, true, false, MatchResult};
ghost use Rattle.answers.specs.declared.Refusal.TheVariants.{BadRecord};
ghost use Rattle.counters.specs.Sizes.{base};
ghost use Rattle.record_layout.specs.Entries.{entries_of};
ghost use Rattle.record_layout.specs.Reading.{reading, listing};
ghost use Rattle.record_order.specs.CameFirst.{meeting_of, is_end, came_first, order_of};

use answers::Refusal;
use counters::Comparison;
use record_bytes::lists::Entries;
use record_layout::fields::{Fields, Reading, Record};

// R36: what two versions of one object say; R35: none where no object is listed by both; R34: one of the two is no end record.
pub type CameFirst = Result<Option<Comparison>, Refusal>;

// R34: A is tried before B.
pub fn came_first(a: &[u8], b: &[u8]) -> CameFirst
    ensures { order_of result ≡ order_of (came_first base a.now b.now) }
{
    Ok(meeting(end_list(a)?, end_list(b)?))
}

// R34: the list of an end record; bytes that read as none are refused.
fn end_list(s: &[u8]) -> Result<&[u8], Refusal>
    ensures { MatchResult result (λ list. (is_end (reading base s.now) ≡ true) × (list.now ≡ listing base s.now)) (λ refusal. (is_end (reading base s.now) ≡ false) × (refusal ≡ BadRecord)) }
{
    let read = record_read::read(s);
    if !is_end(read) {
        return Err(Refusal::BadRecord);
    }
    Ok(record_read::list_of(read, s))
}

// R34: whether the record is what an end has written.
fn is_end(read: Reading) -> bool
    ensures { result ≡ is_end read }
{
    matches!(
        read,
        Ok(Record {
            fields: Fields::Ended { .. },
            ..
        })
    )
}

// R35: B's entries are gone through for each of A's, until two have the same object.
fn meeting(a: &[u8], b: &[u8]) -> Option<Comparison>
    ensures { result ≡ meeting_of (entries_of a.now) (entries_of b.now) }
{
    let mut found = None;
    'outer: for of_a in Entries(a) {
        for of_b in Entries(b) {
            if of_a.object == of_b.object {
                found = Some(of_a.version.compare(of_b.version));
                break 'outer;
            }
        }
    }
    found
}
