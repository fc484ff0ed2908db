// R40: the line of an event, and its place in a buffer of lines; `buffers` has what is done with a buffer of input.
#![tactic(auto)]

ghost use Rattle.std.specs.Prelude.{◌≡◌, [], ◌∷◌, ◌++◌, ◌+◌, ◌<◌, ◌≤◌, length};
ghost use Rattle.answers.specs.Numbers.{reply_of};
ghost use Rattle.bench_lines.specs.Buffers.{lent, put_at, line_put};
ghost use Rattle.bench_lines.specs.Lines.{decimal, line_of, line_limit};

pub mod buffers;

use answers::{Answer, Reply};
use arrayvec::ArrayString;
use itoa::Buffer;

// The most bytes that a line has: event numbers of 20 digits, numbers of 2, values of 10, two spaces and the end.
pub const LIMIT: usize = 35;

// The line at a place of the buffer, and how many bytes it has; where there is no room nothing is written.
pub fn put(event: u64, answer: Answer, buf: &mut [u8], at: usize) -> usize
    ensures buf_after { lent result buf.new ≡ line_put event (reply_of answer) buf.old at }
    ensures short { length (line_of event (reply_of answer)) ≤ line_limit }
{
    let line = line(event, answer);
    place(line.as_str().as_bytes(), buf, at)
}

fn place(text: &[u8], buf: &mut [u8], at: usize) -> usize
    ensures { lent result buf.new ≡ put_at text.now buf.old at }
{
    let end = at.saturating_add(text.len());
    if buf.len() < end {
        return 0;
    }
    buf[at..end].copy_from_slice(text);
    text.len()
}

// `write!` would promise the text only where it ends well, so each number is pushed.
fn line(event: u64, answer: Answer) -> ArrayString<LIMIT>
    ensures { result.bytes ≡ line_of event (reply_of answer) }
{
    let mut line = ArrayString::new();
    push(&mut line, event, ' ');
    let reply = Reply::from(answer);
    push(&mut line, u64::from(reply.number), ' ');
    push(&mut line, u64::from(reply.value), '\n');
    line
}

// The digits of a number, and the sign behind them.
fn push(line: &mut ArrayString<LIMIT>, n: u64, behind: char)
    requires room { length line.old.bytes + length (decimal n) + 1 ≤ line_limit }
    requires sign { behind < 128 }
    ensures { line.new.bytes ≡ line.old.bytes ++ (decimal n ++ (behind ∷ [])) }
{
    line.push_str(Buffer::new().format(n));
    line.push(behind);
}
