// What the bench asks of a record beside its step: the bytes that it takes, whether it stops the program, and the words
// of a fresh record.
ghost use Rattle.std.specs.Prelude.{◌≡◌, length};
ghost use Rattle.bench_records.specs.Records.{taken_by, stops_at, words_of};

use record_bytes::word;
use record_layout::fields::{Fields, Reading, Record};
use std::array;

// Nothing where there is no record.
pub fn taken(read: Reading) -> usize
    ensures { result ≡ taken_by read }
{
    read.map_or(0, |record| record.taken)
}

// Behind the first record all but an event stops the program.
pub fn stops(read: Reading) -> bool
    ensures { result ≡ stops_at read }
{
    !matches!(
        read,
        Ok(Record {
            fields: Fields::Event(_),
            ..
        })
    )
}

// The 24 words of a list.
pub fn words(list: &[u8]) -> [u32; 24]
    requires { length list.now ≡ 96 }
    ensures { result ≡ words_of 24 list.now }
{
    array::from_fn(|o| word(list, 4 * o))
}
