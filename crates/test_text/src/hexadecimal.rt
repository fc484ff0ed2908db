// Bytes as text: two hexadecimal digits behind a space or another sign; behind a plus they count zeros.
ghost use Rattle.std.specs.Prelude.{◌≤◌};
ghost use Rattle.arrayvec.specs.ArrayVec.{array_vec_len};

use arrayvec::ArrayVec;
use std::fmt;

// The longest record that is read; what goes on behind it is left out.
pub const LIMIT: usize = 600;

pub fn record_of(text: &[u8]) -> ArrayVec<u8, LIMIT>
    ensures { array_vec_len result ≤ 600 }
{
    let mut record = ArrayVec::new();
    for group in text.chunks_exact(3) {
        let value = 16 * digit(group[1]) + digit(group[2]);
        if group[0] == b'+' {
            put(&mut record, &[0; 255][..usize::from(value)]);
        } else {
            put(&mut record, &[value]);
        }
    }
    record
}

// As many of the bytes as have room.
fn put(record: &mut ArrayVec<u8, LIMIT>, bytes: &[u8])
    ensures { array_vec_len «record».old ≤ 600 → array_vec_len «record».new ≤ 600 }
{
    let room = LIMIT.saturating_sub(record.len());
    let fitting = bytes.get(..room).unwrap_or(bytes);
    let _ = record.try_extend_from_slice(fitting);
}

fn digit(letter: u8) -> u8
    ensures { result ≤ 15 }
{
    match letter {
        b'0'..=b'9' => letter - b'0',
        b'A'..=b'F' => letter - b'A' + 10,
        _ => 0,
    }
}

// Bytes with a space before each.
#[derive(Clone, Copy)]
pub struct Bytes<'a>(pub &'a [u8]);

impl fmt::Display for Bytes<'_> {
    fn fmt<W: fmt::Write>(&self, f: &mut fmt::Formatter<W>) -> fmt::Result {
        for byte in self.0 {
            write!(f, " {byte:02X}")?;
        }
        Ok(())
    }
}

// The first eight bytes of a part, and its length.
#[derive(Clone, Copy)]
pub struct Part<'a>(pub &'a [u8]);

impl fmt::Display for Part<'_> {
    fn fmt<W: fmt::Write>(&self, f: &mut fmt::Formatter<W>) -> fmt::Result {
        let length = self.0.len();
        let shown = Bytes(self.0.get(..8).unwrap_or(self.0));
        write!(f, "{shown} of {length}")
    }
}

#[cfg(test)]
mod tests {
    use super::*;
    use std::test::Fail;

    #[test]
    fn bytes_and_zeros(rt: HostRuntime) -> Result<(), Fail> {
        let record = record_of(b" 0A+02/FF 0");
        assert_eq!(rt; record.as_slice(), [10u8, 0, 0, 255].as_slice());
        Ok(())
    }

    #[test]
    fn no_more_than_the_limit(rt: HostRuntime) -> Result<(), Fail> {
        let record = record_of(b"+FF+FF+FF 07");
        assert_eq!(rt; record.len(), LIMIT);
        Ok(())
    }

    #[test]
    fn the_front_of_a_part(rt: HostRuntime) -> Result<(), Fail> {
        let alloc = rt.alloc();
        let shown = Part(&[1, 2, 3, 4, 5, 6, 7, 254, 9]).to_string(alloc)?;
        assert_eq!(rt; shown.as_str(), " 01 02 03 04 05 06 07 FE of 9");
        Ok(())
    }
}
