// One record: whether it is played, and its line.
ghost use Rattle.std.specs.Prelude.{◌≡◌, ◌≤◌, not, ◌&&◌, length, nat_le};
ghost use Rattle.counters.specs.Sizes.{base};
ghost use Rattle.bench_lines.specs.Buffers.{lent, put_at};
ghost use Rattle.bench_lines.specs.Lines.{line_limit};
ghost use Rattle.bench_play.specs.Pieces.{whole, certain};
ghost use Rattle.bench_play.specs.Serving.Answers.{line_for};

use answers::Answer;
use bench_lines::LIMIT;
use record_layout::kind::BODY_LIMIT;

// The program goes on, the record is certain to be whole, and the longest line has room.
pub fn playable(stopped: bool, ended: bool, bytes: &[u8], room: usize) -> bool
    ensures { result ≡ (not stopped && (certain base ended bytes.now && nat_le line_limit room)) }
{
    !stopped && is_certain(ended, bytes) && LIMIT <= room
}

// Whether no byte behind these can change what is read here.
fn is_certain(ended: bool, bytes: &[u8]) -> bool
    ensures { result ≡ certain base ended bytes.now }
{
    ended || is_whole(bytes)
}

// Whether a record is all there, or its length is over the limit.
fn is_whole(bytes: &[u8]) -> bool
    ensures { result ≡ whole base bytes.now }
{
    if bytes.len() < 4 {
        return false;
    }
    let length = record_bytes::half(bytes, 0) as usize;
    BODY_LIMIT < length || 4 + length <= bytes.len()
}

// The line of a record that prints one.
pub fn put(event: u64, line: Option<Answer>, lines: &mut [u8], at: usize) -> usize
    ensures lines_after { lent result lines.new ≡ put_at (line_for event line) lines.old at }
    ensures short { length (line_for event line) ≤ line_limit }
{
    match line {
        Some(answer) => bench_lines::put(event, answer, lines, at),
        None => 0,
    }
}
