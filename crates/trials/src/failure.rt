use crate::making::NotMade;
use hex::FromHexError;
use lines::malformed::Malformed;
use std::alloc::AllocError;
use std::io;
use thiserror::Error;

/// Why the lines cannot be played to their end.
#[derive(Debug, Drop, Error)]
pub(crate) enum Failure {
    /// A command of `settle` is malformed.
    #[error("{0}")]
    Command(#[from] Malformed),
    /// A file's bytes are not written in hexadecimal digits.
    #[error("{0}")]
    Bytes(#[from] FromHexError),
    /// A line of a trial is none of those that there are.
    #[error("a line is none of a trial")]
    Trial,
    /// A register is not made; this is an answer to a line, and ends nothing.
    #[error("{0}")]
    NotMade(#[from] NotMade),
    /// There is no memory.
    #[error("{0}")]
    Memory(#[from] AllocError),
    /// Reading the lines or writing what they come to fails.
    #[error("{0}")]
    Io(#[from] io::Error),
}
