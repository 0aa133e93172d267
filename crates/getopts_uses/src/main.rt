//! Programs that parse their command lines with `getopts`, as their users write them.
//!
//! Each argument of the program is a test case: the name of a caller and the words that it parses,
//! separated by spaces. The program prints what each caller returns. The cases are in `args`, and
//! the expected output is in `stdout`.
#![tactic(auto)]

mod archive;
mod cases;
mod checked;
mod counted;
mod cut;
mod driver;
mod flag;
mod join;
mod launcher;
mod linker;
mod lists;
mod logged;
mod loudness;
mod plugin;
mod request;
mod seq;
mod short_help;
mod subcommand;
mod wrapper;

use std::{env, io};

/// Prints the result of each case.
fn main(rt: HostRuntime) -> io::Result<()> {
    let mut text = String::new(rt.alloc());
    for case in env::args(&rt)?.skip(1) {
        cases::push_case(rt.alloc(), &mut text, case.as_str())?;
    }
    rt.print(text)
}
