// Where each part stands. Products have 32 bits: each of 64 would be a call of a library on a small processor.
ghost use Rattle.std.specs.Prelude.{◌*◌, ◌+◌, ◌≤◌, ◌<◌, ◌≡◌};
ghost use Rattle.tables.specs.Places.{private_place, declared_place, called_place, spoiled_place};

use counters::Size;

// R6: a number in range: the number itself, or 0 for one out of range, since no answer depends on what is asked then.
pub fn keep_in_range(number: u8, limit: u8) -> u32
    requires { 0 < limit }
    ensures { (result < limit) × (number < limit → result ≡ number) }
{
    if number < limit {
        return number as u32;
    }
    0
}

// How many pairs there are.
pub fn pairs(size: Size) -> u32
    ensures { (result ≡ size.slots * size.objects) × (result ≤ 65025) }
{
    size.slots as u32 * size.objects as u32
}

// The number of the pair of slot s and object o.
pub fn pair(size: Size, s: u32, o: u32) -> u32
    requires { (s < size.slots) × (o < size.objects) }
    ensures { (result ≡ s * size.objects + o) × (result < size.slots * size.objects) × (result < 65025) }
{
    s * size.objects as u32 + o
}

pub fn private(size: Size, i: u32) -> u32
    requires { i < 65025 }
    ensures { result ≡ private_place size i }
{
    4 * size.objects as u32 + 2 * i
}

pub fn declared(size: Size, i: u32) -> u32
    requires { i < 65025 }
    ensures { result ≡ declared_place size i }
{
    size.slots as u32 + i
}

pub fn called(size: Size, i: u32) -> u32
    requires { i < 65025 }
    ensures { result ≡ called_place size i }
{
    size.slots as u32 + pairs(size) + i
}

pub fn spoiled(size: Size, i: u32) -> u32
    requires { i < 65025 }
    ensures { result ≡ spoiled_place size i }
{
    size.slots as u32 + 2 * pairs(size) + i
}
