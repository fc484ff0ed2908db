// What the list of a record holds, item by item: the declarations of a start and the entries of an end. Bytes at the end that are
// no whole item are passed over.
ghost use Rattle.std.specs.Iterator.{YieldsFirstBy, item_count};
ghost use Rattle.record_bytes.specs.ListsLeft.{as_declaration, declarations_left, as_entry, entries_left};

use counters::{ObjectNo, Version};

// R12: an object and its supremum.
#[derive(Clone, Copy)]
pub struct Declaration {
    pub object: ObjectNo,
    pub supremum: u8,
}

#[derive(Clone, Copy)]
pub struct Declarations<'a>(pub &'a [u8]);

impl<'a> Iterator for Declarations<'a> {
    type Item = Declaration;

    ghost next_gives = { YieldsFirstBy as_declaration declarations_left };

    ghost remaining = { item_count declarations_left };

    #[inline(always)]
    #[tactic(auto, using(record_layout::proofs::DeclarationWalk::declarations_first))]
    fn next(&mut self) -> Option<Declaration> {
        let [object, supremum, rest @ ..] = self.0 else {
            return None;
        };
        self.0 = rest;
        Some(Declaration {
            object: ObjectNo(*object),
            supremum: *supremum,
        })
    }
}

// R24: an object and its version.
#[derive(Clone, Copy)]
pub struct Entry {
    pub object: ObjectNo,
    pub version: Version,
}

#[derive(Clone, Copy)]
pub struct Entries<'a>(pub &'a [u8]);

impl<'a> Iterator for Entries<'a> {
    type Item = Entry;

    ghost next_gives = { YieldsFirstBy as_entry entries_left };

    ghost remaining = { item_count entries_left };

    #[inline(always)]
    #[tactic(auto, using(record_layout::proofs::EntryWalk::entries_first))]
    fn next(&mut self) -> Option<Entry> {
        let [object, a, b, c, d, rest @ ..] = self.0 else {
            return None;
        };
        self.0 = rest;
        Some(Entry {
            object: ObjectNo(*object),
            version: Version(u32::from_le_bytes([*a, *b, *c, *d])),
        })
    }
}
