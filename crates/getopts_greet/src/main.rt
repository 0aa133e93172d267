//! Greets by name: a program to copy.
#![tactic(auto)]

mod answer;
mod greeting;
#[cfg(test)]
mod tests;

use answer::{FAILED, answer};
use std::process::ExitCode;
use std::{env, io};

fn main(rt: HostRuntime) -> ExitCode {
    match run(&rt) {
        Ok(status) => ExitCode::from(status),
        Err(error) => {
            let _ = rt.eprint(why(&error));
            ExitCode::from(FAILED)
        }
    }
}

/// Parses the system's words, without the first one, which is the program's name, and does what
/// they ask for.
fn run(rt: &HostRuntime) -> io::Result<u8> {
    let words: Vec<String> = env::args(rt)?.skip(1).collect(rt.alloc())?;
    answer(rt.alloc(), &words, &mut io::writer(rt), &mut rt.stderr())
}

/// Why `run` failed.
fn why(error: &io::Error) -> &'static str {
    match error.kind() {
        io::ErrorKind::InvalidData => "getopts_greet: an argument isn't UTF-8\n",
        io::ErrorKind::OutOfMemory => "getopts_greet: out of memory\n",
        _ => "getopts_greet: a write failed\n",
    }
}
