// The decimal numbers among the words of a line, up to a remark behind '#'.
ghost use Rattle.std.specs.Prelude.{◌≤◌};
ghost use Rattle.arrayvec.specs.ArrayVec.{array_vec_len};

use crate::scan::before;
use arrayvec::ArrayVec;

// A line has places for so many numbers; the digits of one more go behind those of the first, and so on.
const PLACES: usize = 136;

// The numbers modulo 2^32 at their places, zeros behind them, and how many the line has.
#[derive(Clone, Copy)]
pub struct Numbers {
    values: [u32; PLACES],
    found: usize,
}

impl Numbers {
    pub fn of(line: &[u8]) -> Numbers {
        let digits_of_each = before(line, b'#')
            .split(|byte| !byte.is_ascii_digit())
            .filter(|digits| !digits.is_empty());
        let mut numbers = Numbers {
            values: [0; PLACES],
            found: 0,
        };
        for digits in digits_of_each {
            let place = numbers.found % PLACES;
            numbers.values[place] = longer(numbers.values[place], digits);
            numbers.found = numbers.found.wrapping_add(1);
        }
        numbers
    }

    // The places up to the one of the last number.
    pub fn count(&self) -> usize
        ensures { result ≤ 136 }
    {
        match self.found {
            0 => 0,
            numbers => (numbers - 1) % PLACES + 1,
        }
    }

    // The number at this place modulo 2^32, 0 where the line has fewer; places count modulo 136.
    pub fn at(&self, place: usize) -> u32 {
        self.values[place % PLACES]
    }

    // The same as a byte.
    pub fn byte(&self, place: usize) -> u8 {
        self.at(place).to_le_bytes()[0]
    }

    // All numbers but the first, as bytes.
    pub fn rest(&self) -> ArrayVec<u8, 135>
        ensures { array_vec_len result ≤ 135 }
    {
        let mut bytes = ArrayVec::new();
        for place in 1..self.count() {
            bytes.push(self.byte(place));
        }
        bytes
    }
}

// A number with these digits behind it.
fn longer(number: u32, digits: &[u8]) -> u32 {
    digits.iter().fold(number, |number, digit| {
        // A digit's lower half is its value.
        number
            .wrapping_mul(10)
            .wrapping_add(u32::from(*digit & 0x0F))
    })
}

#[cfg(test)]
mod tests {
    use super::*;
    use std::test::Fail;

    #[test]
    fn up_to_a_remark(rt: HostRuntime) -> Result<(), Fail> {
        let numbers = Numbers::of(b"start slot 0 with 3:258 # and 7");
        assert_eq!(rt; numbers.count(), 3);
        assert_eq!(rt; numbers.at(2), 258);
        assert_eq!(rt; numbers.at(3), 0);
        assert_eq!(rt; numbers.rest().as_slice(), [3u8, 2].as_slice());
        Ok(())
    }

    #[test]
    fn one_more_than_places(rt: HostRuntime) -> Result<(), Fail> {
        let mut line = [b' '; 2 * PLACES + 1];
        for place in 0..PLACES {
            line[2 * place] = b'4';
        }
        line[2 * PLACES] = b'2';
        let numbers = Numbers::of(&line);
        assert_eq!(rt; numbers.count(), 1);
        assert_eq!(rt; numbers.at(0), 42);
        assert_eq!(rt; numbers.at(1), 4);
        Ok(())
    }
}
