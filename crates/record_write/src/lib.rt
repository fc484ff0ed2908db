// Writing a record of any kind from its fields and its list.
#![tactic(auto)]

ghost use Rattle.std.specs.Prelude.{◌≡◌, ◌++◌, ◌≤◌, length, drop};
ghost use Rattle.counters.specs.Sizes.{base};
ghost use Rattle.record_layout.specs.Fields.{record_of};
ghost use Rattle.record_layout.specs.Writing.{written, writing};

use answers::{Answer, Refusal};
use record_layout::fields::Fields;

// Fields that make no readable record are BadRecord, then a short buffer is NoRoom; else the record stands at the
// buffer's first byte, the rest stays, and the value is the bytes written.
pub fn write(fields: Fields, list: &[u8], buf: &mut [u8]) -> Answer
    ensures { written result buf.new ≡ writing base fields list.now buf.old }
{
    let readable = record_check::readable(fields, list);
    let length = 4 + fields.shape().head as usize + list.len();
    if !readable {
        return Err(Refusal::BadRecord);
    }
    if buf.len() < length {
        return Err(Refusal::NoRoom);
    }
    put(fields, list, buf);
    Ok(length as u32)
}

// The front of the record, and the list behind it.
fn put(fields: Fields, list: &[u8], buf: &mut [u8])
    requires list_len_bound { length list.now ≤ 126 }
    requires list_in_bounds { length (record_of fields list.now) ≤ length buf.old }
    ensures { buf.new ≡ record_of fields list.now ++ drop (length (record_of fields list.now)) buf.old }
{
    let front = record_front::front(fields, list.len() as u16);
    let length = 4 + fields.shape().head as usize;
    let end = length + list.len();
    buf[..length].copy_from_slice(&front[..length]);
    buf[length..end].copy_from_slice(list);
}
