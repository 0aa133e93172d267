//! Why a run ends early.

use getopts::Fail;
use std::alloc::{AllocError, AllocFailed};
use std::fmt;

/// Why a sum wasn't printed.
#[derive(Clone, Copy)]
pub enum Trouble {
    /// The arguments aren't jobs, each with a file of rows and a number of iterations.
    NoJob,
    /// A job's line was rejected.
    Rejected,
    NoMemory,
    /// A write failed.
    NotWritten,
}

impl Trouble {
    /// The exit status.
    pub fn status(&self) -> u8 {
        match self {
            Trouble::Rejected => 1,
            Trouble::NoJob => 2,
            Trouble::NoMemory => 3,
            Trouble::NotWritten => 4,
        }
    }
}

impl fmt::Display for Trouble {
    fn fmt<W: fmt::Write>(&self, f: &mut fmt::Formatter<W>) -> fmt::Result {
        f.write_str(match self {
            Trouble::NoJob => "arguments must be JOB ROWS TIMES, once or more (see main.rt)",
            Trouble::Rejected => "a command line was rejected",
            Trouble::NoMemory => "out of memory",
            Trouble::NotWritten => "a sum can't be written",
        })
    }
}

impl From<Fail> for Trouble {
    fn from(fail: Fail) -> Trouble {
        match fail {
            Fail::OutOfMemory => Trouble::NoMemory,
            _ => Trouble::Rejected,
        }
    }
}

impl From<AllocError> for Trouble {
    fn from(_error: AllocError) -> Trouble {
        Trouble::NoMemory
    }
}

impl<T: Drop> From<AllocFailed<T>> for Trouble {
    fn from(_error: AllocFailed<T>) -> Trouble {
        Trouble::NoMemory
    }
}
