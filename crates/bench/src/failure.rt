// What ends the program before its input does.
use std::io;
use thiserror::Error;

// Which call of the system has failed, and why.
#[derive(Debug, Drop, Error)]
pub enum Failure {
    #[error("input: {0}")]
    Input(io::Error),
    #[error("output: {0}")]
    Output(io::Error),
}
