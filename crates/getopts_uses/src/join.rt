//! A program without a contract. The check still proves that it never panics, and that the options
//! it asks for are declared.

use getopts::Options;
use std::alloc::Global;
use std::convert::AsStr;
use std::io;
use std::io::Write;

/// Prints what the words ask for, or their first error.
pub fn join<S: AsStr, W: Write>(alloc: Global, words: &[S], out: &mut W) -> io::Result<()> {
    let mut options = Options::new(alloc);
    options
        .optopt("o", "output", "set output file name", "NAME")?
        .optflagmulti("v", "verbose", "say more")?;
    match options.parse_words(alloc, words) {
        Ok(matches) => {
            let output = matches.opt_str(alloc, "output")?;
            let verbosity = matches.opt_count("verbose");
            let files = &matches.free;
            writeln!(out, "{files:?} to {output:?}, verbosity {verbosity}")
        }
        Err(fail) => writeln!(out, "join: {fail}"),
    }
}
