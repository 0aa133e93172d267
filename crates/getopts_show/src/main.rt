//! Parses its arguments as options, and shows what they mean.
#![tactic(auto)]

ghost use Rattle.std.specs.Prelude.{IfOk};
ghost use Rattle.getopts_show.specs.Program.{IsStatus};

mod show;
#[cfg(test)]
mod tests;
mod words;

use show::{NO_MEMORY, show};
use std::io;
use std::process::ExitCode;
use words::system_words;

/// Shows the system's words, without the program's own name, on standard output.
fn main(rt: HostRuntime) -> ExitCode {
    ExitCode::from(run(&rt).unwrap_or(NO_MEMORY))
}

/// The status of `show` for the system's words. Fails if they can't be read or an allocation fails;
/// nothing is written then.
fn run(rt: &HostRuntime) -> io::Result<u8>
    ensures { IfOk result IsStatus }
{
    let words = system_words(rt)?;
    let mut texts = Vec::with_capacity(rt.alloc(), words.len())?;
    for word in &words {
        texts.push(word.as_str())?;
    }
    Ok(show(rt.alloc(), &texts, &mut io::writer(rt)))
}
