// The layout of the records: their kinds and their fields.
#![tactic(auto)]

pub mod fields;
pub mod kind;
