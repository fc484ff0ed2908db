// Which of two records came first.
use std::fmt::{self, Write};

pub fn order(a: &[u8], b: &[u8], out: &mut impl Write) -> fmt::Result {
    match record_order::came_first(a, b) {
        Ok(Some(comparison)) => write!(out, ": {comparison:?}"),
        Ok(None) => write!(out, ": Unrelated"),
        Err(refusal) => write!(out, ": {}", u32::from(refusal)),
    }
}
