// Standard output, through a buffer. What can't be written is left out: whoever compares what is printed sees that it is not all.
ghost use Rattle.std.specs.Prelude.{◌≡◌, [], ◌++◌, ◌+◌, ◌≤◌, ◌<◌, length};

use arrayvec::ArrayVec;
use std::fmt;

// The most bytes that are held.
const ROOM: usize = 8192;

// The bytes that are held to be written together.
#[derive(Drop)]
pub struct Output(pub ArrayVec<u8, ROOM>);

impl Output {
    pub fn new() -> Output
        ensures { result.0.items ≡ [] }
    {
        Output(ArrayVec::new())
    }

    // Bytes that need not be text. Where there is no room for them, they are written behind what is held.
    pub fn put(&mut self, bytes: &[u8])
        ensures held { length self.old.0.items + length bytes.now ≤ 8192 → self.new.0.items ≡ self.old.0.items ++ bytes.now }
        ensures written { 8192 < length self.old.0.items + length bytes.now → self.new.0.items ≡ [] }
    {
        if self.0.try_extend_from_slice(bytes).is_err() {
            self.flush();
            io::write_all(1, bytes);
        }
    }

    pub fn flush(&mut self)
        ensures { self.new.0.items ≡ [] }
    {
        io::write_all(1, self.0.as_slice());
        self.0.clear();
    }
}

impl fmt::Write for Output {
    fn write_str(&mut self, text: &str) -> fmt::Result {
        self.put(text.as_bytes());
        Ok(())
    }
}
