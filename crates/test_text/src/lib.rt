// What `test_vectors` and `test_steps` read and print with: lines of text, their numbers, and bytes in hexadecimal.
#![tactic(auto)]

pub mod hexadecimal;
pub mod numbers;
pub mod output;
pub mod scan;
