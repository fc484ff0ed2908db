// Standard input, behind the bytes that are at hand.
ghost use Rattle.std.specs.Prelude.{◌≡◌, ◌<◌, IfOk, length, take};
ghost use Rattle.bench.specs.Kept.{Kept};

use std::io::{Read, Result};

// The bytes at hand with those that were read, and whether the input has ended.
#[derive(Clone, Copy)]
pub struct Input {
    pub hand: usize,
    pub ended: bool,
}

// One read: it gives what is there, and waits only where nothing is. The bytes at hand stay as they were.
pub fn more(from: &mut impl Read, buffer: &mut [u8], hand: usize) -> Result<Input>
    requires { hand < length buffer.old }
    ensures front { take hand buffer.new ≡ take hand buffer.old }
    ensures kept { IfOk result (λ read. Kept read hand buffer.old buffer.new) }
{
    let count = from.read(&mut buffer[hand..])?;
    Ok(Input {
        hand: hand + count,
        ended: count == 0,
    })
}
