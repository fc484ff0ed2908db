// Test vectors of the records: a page of them is read from standard input, and for each the library's answer is
// written on a line.
#![tactic(auto)]

mod ordering;
mod page;
mod reading;
mod writing;

use test_text::output::Output;

fn main() {
    let mut page = io::large_buffer();
    let length = io::read_full(0, &mut page);
    let _ = page::play(&page[..length], &mut Output::new());
}
