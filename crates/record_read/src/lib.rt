// Reading a record: by its fields or the refusal, and its list as a part of the caller's bytes.
#![tactic(auto)]

ghost use Rattle.std.specs.Prelude.{◌≡◌};
ghost use Rattle.counters.specs.Sizes.{base};
ghost use Rattle.record_layout.specs.Bytes.{IsPart};
ghost use Rattle.record_layout.specs.Reading.{reading, list_in, listing, list_at};
ghost use Rattle.record_layout.specs.Telling.{told_by_reading};

use record_frame::frame;
use record_layout::fields::Reading;
use record_layout::kind::Kind;

// The first record, or the refusal. Each byte of frame and head is looked at once.
pub fn read(s: &[u8]) -> Reading
    ensures { told_by_reading result ≡ told_by_reading (reading base s.now) }
{
    let frame = frame(s)?;
    let kind = Kind::try_from(frame.number)?;
    record_body::read(kind, &s[4..4 + frame.length as usize])
}

// The list that stands beside the fields, as that part of s; an empty part where the reading is refused.
pub fn list(s: &[u8]) -> &[u8]
    ensures { IsPart result s.entry (list_at (reading base s.now)) (listing base s.now) }
{
    list_of(read(s), s)
}

// The same of bytes that were read already.
pub fn list_of(read: Reading, s: &[u8]) -> &[u8]
    requires { told_by_reading read ≡ told_by_reading (reading base s.now) }
    ensures { IsPart result s.entry (list_at read) (list_in read s.now) }
{
    let Ok(record) = read else {
        return &s[..0];
    };
    &s[record.list..record.taken]
}
