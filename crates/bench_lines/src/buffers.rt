// What the bench does with its buffer of input between two reads.
ghost use Rattle.std.specs.Prelude.{◌≡◌};
ghost use Rattle.bench_lines.specs.Buffers.{lent, moved_to_front};

// The bytes from a place on, moved to the front, and how many they are; those behind them stay.
pub fn to_front(buf: &mut [u8], from: usize) -> usize
    ensures { lent result buf.new ≡ moved_to_front buf.old from }
{
    let Some(count) = buf.len().checked_sub(from) else {
        return 0;
    };
    buf.copy_within(from.., 0);
    count
}
