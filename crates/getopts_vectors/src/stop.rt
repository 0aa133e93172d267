//! Why a run ends early.

use std::alloc::{AllocError, AllocFailed};
use std::fmt;
use std::io::{self, ErrorKind};

/// Why a run ended early.
#[derive(Clone, Copy)]
pub enum Stop {
    /// A line that can't be answered: its number, and the reason.
    Line(u64, &'static str),
    /// A file that can't be read.
    NotRead,
    /// A file without an answer that is as expected.
    NoAnswers,
    NoMemory,
    NotWritten,
}

/// No line has this word and this number of fields.
pub const UNKNOWN_LINE: Stop = Stop::Line(0, "unknown word or wrong number of fields");
/// The line's word doesn't take these fields.
pub const WRONG_FIELDS: Stop = Stop::Line(0, "wrong fields");
/// The line has an unknown escape, or an unescaped carriage return.
pub const WRONG_ESCAPE: Stop = Stop::Line(0, "wrong escape");
/// A group can't have these names.
pub const UNLAWFUL_NAMES: Stop = Stop::Line(0, "unlawful names");
/// The line precedes the first case.
pub const NO_CASE: Stop = Stop::Line(0, "before the first case");

impl From<AllocError> for Stop {
    fn from(_error: AllocError) -> Stop {
        Stop::NoMemory
    }
}

impl<T: Drop> From<AllocFailed<T>> for Stop {
    fn from(_error: AllocFailed<T>) -> Stop {
        Stop::NoMemory
    }
}

impl From<io::Error> for Stop {
    fn from(error: io::Error) -> Stop {
        match error.kind() {
            ErrorKind::OutOfMemory => Stop::NoMemory,
            _ => Stop::NotRead,
        }
    }
}

impl Stop {
    /// The exit status.
    pub fn status(&self) -> u8 {
        match self {
            Stop::Line(_, _) | Stop::NotRead | Stop::NoAnswers => 2,
            Stop::NoMemory => 3,
            Stop::NotWritten => 4,
        }
    }
}

impl fmt::Display for Stop {
    fn fmt<W: fmt::Write>(&self, f: &mut fmt::Formatter<W>) -> fmt::Result {
        match self {
            Stop::Line(line, why) => write!(f, "line {line}: {why}"),
            Stop::NotRead => write!(f, "a file can't be read"),
            Stop::NoAnswers => write!(f, "a file has no answers"),
            Stop::NoMemory => write!(f, "out of memory"),
            Stop::NotWritten => write!(f, "can't write"),
        }
    }
}
