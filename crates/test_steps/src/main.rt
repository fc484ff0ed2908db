// Plays a session of events on the machine, and writes each line of it with what came of it. The session on standard
// input is the test vectors of the steps: session W, every refusal and its place in the order, both sides of
// every limit, and odd tables.
#![tactic(auto)]

mod asked;
mod event;
mod session;
mod told;

use session::Session;
use std::fmt::{self, Write};
use test_text::output::Output;

// Each line is written, and behind it what came of it. It is out before it is played, which may take long.
fn play(text: &[u8], out: &mut Output) -> fmt::Result {
    if text.is_empty() {
        return Ok(());
    }
    let mut session = Session::new();
    let lines = text.strip_suffix(b"\n").unwrap_or(text);
    for line in lines.split(|byte| *byte == b'\n') {
        out.put(line);
        out.flush();
        let told = session.turn(line);
        writeln!(out, "{told}")?;
    }
    out.flush();
    Ok(())
}

fn main() {
    let mut text = io::large_buffer();
    let length = io::read_full(0, &mut text);
    let _ = play(&text[..length], &mut Output::new());
}
