//! Parses a shell script's words by a table of options, and writes them as code that the script
//! runs.
#![tactic(auto)]

ghost use Rattle.std.specs.Prelude.{IfOk};
ghost use Rattle.getopts_shell.specs.Program.{IsStatus};

mod answer;
mod complete;
mod given;
mod item;
mod laws;
mod message;
mod operand;
mod quote;
mod row;
mod script;
mod table;
mod variables;
mod words;

use answer::{NO_MEMORY, answer, report_no_memory};
use std::alloc::AllocError;
use std::io;
use std::process::ExitCode;
use words::system_words;

/// Runs on the system's words, without the program's own name, and on the standard streams.
fn main(rt: HostRuntime) -> ExitCode {
    let status = run(&rt).unwrap_or(NO_MEMORY);
    if status == NO_MEMORY {
        report_no_memory(&mut rt.stderr());
    }
    ExitCode::from(status)
}

/// The status of `answer` for the system's words. Fails, without writing anything, if an allocation
/// for the words fails.
fn run(rt: &HostRuntime) -> Result<u8, AllocError>
    ensures { IfOk result IsStatus }
{
    let words = system_words(rt)?;
    let mut err = rt.stderr();
    Ok(answer(rt.alloc(), &words, &mut io::writer(rt), &mut err))
}
