// What a line of a session asks, by the word that it begins with.
use record_layout::kind::Kind;

#[derive(Clone, Copy)]
pub enum Asked {
    Event(Kind),
    Record,
    Step,
    Calls,
    ShowObject,
    ShowPair,
    Edit(Edit),
}

// Tables that are given, kept or gone back to.
#[derive(Clone, Copy)]
pub enum Edit {
    Fresh,
    Live,
    Object,
    Pair,
    Keep,
    Back,
}

impl Asked {
    // A line that begins with none of the words asks nothing.
    pub fn of(line: &[u8]) -> Option<Asked> {
        WORDS
            .iter()
            .find(|(word, _)| line.starts_with(word))
            .map(|(_, asked)| *asked)
    }
}

const WORDS: [(&[u8], Asked); 16] = [
    (b"start", Asked::Event(Kind::Start)),
    (b"call", Asked::Event(Kind::Call)),
    (b"release", Asked::Event(Kind::Release)),
    (b"commit", Asked::Event(Kind::End { rollback: false })),
    (b"rollback", Asked::Event(Kind::End { rollback: true })),
    (b"record", Asked::Record),
    (b"step", Asked::Step),
    (b"make", Asked::Calls),
    (b"show object", Asked::ShowObject),
    (b"show pair", Asked::ShowPair),
    (b"fresh", Asked::Edit(Edit::Fresh)),
    (b"set live", Asked::Edit(Edit::Live)),
    (b"set object", Asked::Edit(Edit::Object)),
    (b"set pair", Asked::Edit(Edit::Pair)),
    (b"keep", Asked::Edit(Edit::Keep)),
    (b"back", Asked::Edit(Edit::Back)),
];
