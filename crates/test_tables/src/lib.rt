// What `test_steps` does with tables beside the events: it gives them, looks into them, and tells how two of them differ.
#![tactic(auto)]

pub mod changes;
pub mod given;
pub mod looks;
