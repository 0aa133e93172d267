//! The system's words, without the program's own name.

use std::alloc::Global;
use std::env::{Env, FillError};
use std::{env, io};

/// The system without its argument 0, the program's own name, which is never read, since it may not
/// be UTF-8.
#[derive(Drop)]
struct AfterName<'r>(&'r HostRuntime);

impl Alloc for AfterName<'_> {
    type A = Global;

    fn alloc(&self) -> Global {
        self.0.alloc()
    }
}

impl Env for AfterName<'_> {
    fn arg(&self, i: usize, buf: &mut [u8]) -> Result<usize, FillError> {
        match i.checked_add(1) {
            Some(place) => self.0.arg(place, buf),
            None => Err(FillError::NotPresent),
        }
    }

    fn var(&self, name: &str, buf: &mut [u8]) -> Result<usize, FillError> {
        self.0.var(name, buf)
    }

    fn var_at(&self, i: usize, buf: &mut [u8]) -> Result<usize, FillError> {
        self.0.var_at(i, buf)
    }
}

/// The words that the system gave after the program's own name. Fails if one isn't UTF-8, or if an
/// allocation fails.
pub(crate) fn system_words(rt: &HostRuntime) -> io::Result<Vec<String>> {
    let mut words = Vec::new(rt.alloc());
    for word in env::args(&AfterName(rt))? {
        words.push(word)?;
    }
    Ok(words)
}
