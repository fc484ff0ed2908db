// The frame of the first record, and its body as a part of the caller's bytes.
#![tactic(auto)]

ghost use Rattle.std.specs.Prelude.{◌≡◌};
ghost use Rattle.counters.specs.Sizes.{base};
ghost use Rattle.record_layout.specs.Bytes.{IsPart};
ghost use Rattle.record_layout.specs.Reading.{framing, body, body_place};
ghost use Rattle.record_layout.specs.Telling.{told_by_framing};

use answers::Refusal;
use record_bytes::half;
use record_layout::fields::{Frame, Framing};
use record_layout::kind::BODY_LIMIT;

// The first three checks: under 4 bytes, length over the limit, body not all there.
pub fn frame(s: &[u8]) -> Framing
    ensures { told_by_framing result ≡ told_by_framing (framing base s.now) }
{
    if s.len() < 4 {
        return Err(Refusal::BadRecord);
    }
    let length = half(s, 0);
    if BODY_LIMIT < length as usize {
        return Err(Refusal::BadRecord);
    }
    if s.len() < 4 + length as usize {
        return Err(Refusal::BadRecord);
    }
    Ok(Frame {
        length,
        number: half(s, 2),
    })
}

// The body of the first record, as that part of s; an empty part where the frame fails.
pub fn body(s: &[u8]) -> &[u8]
    ensures { IsPart result s.entry (body_place base s.now) (body base s.now) }
{
    let Ok(frame) = frame(s) else {
        return &s[..0];
    };
    &s[4..4 + frame.length as usize]
}
