// The page: a vector on each line, its name up to a colon and its bytes behind that, those of two records with a stroke
// between them. The name's first letter says what is done with them; a line that begins with another is passed over.
use crate::ordering::order;
use crate::reading::read;
use crate::writing::write;
use std::fmt::{self, Write};
use test_text::hexadecimal::record_of;
use test_text::output::Output;
use test_text::scan::{after, before};

// A page has at most so many lines.
const LINES: usize = 1000;

#[derive(Clone, Copy)]
enum Asked {
    Read,
    Write,
    Order,
}

impl Asked {
    fn of(line: &[u8]) -> Option<Asked> {
        match line.first() {
            Some(b'r') => Some(Asked::Read),
            Some(b'w') => Some(Asked::Write),
            Some(b'o') => Some(Asked::Order),
            _ => None,
        }
    }
}

pub fn play(page: &[u8], out: &mut Output) -> fmt::Result {
    for line in page.split(|byte| *byte == b'\n').take(LINES) {
        if let Some(asked) = Asked::of(line) {
            out.put(before(line, b':'));
            answer(asked, after(line, b':'), out)?;
            writeln!(out)?;
        }
    }
    out.flush();
    Ok(())
}

fn answer(asked: Asked, text: &[u8], out: &mut Output) -> fmt::Result {
    match asked {
        Asked::Read => read(record_of(text).as_slice(), out),
        Asked::Write => write(record_of(text).as_slice(), out),
        Asked::Order => {
            let a = record_of(before(text, b'/'));
            let b = record_of(after(text, b'/'));
            order(a.as_slice(), b.as_slice(), out)
        }
    }
}
