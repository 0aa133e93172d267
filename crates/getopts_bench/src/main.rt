//! Runs jobs on `getopts` for a number of iterations, and prints sums of their results, so that the
//! work of an iteration can be counted and the sums compared with those of other libraries.
//!
//! The arguments are JOB ROWS TIMES, as in `whole small.rows 3`, or several such triples; each sum
//! is printed on a line. Each line of the file ROWS is an option or a word, with fields separated
//! by tabs:
//!
//! - `optflagmulti SHORT LONG DESC`, `optmulti SHORT LONG DESC HINT`, also `optflagopt`
//! - `words COUNT`, before the words: their number
//! - `word TEXT`
//!
//! A job is what each iteration does:
//!
//! - `whole` declares the options, parses the words, and takes the count and the borrowed values of
//!   each option, and the free words. It adds up the counts and the lengths of the texts.
//! - `copied` does the same with the calls that the Rust crate has: `parse` of an iterator, and
//!   `opt_strs`, which copies, for each defined name.
//! - `order` does what `whole` does by `parse_in_order`: it takes options and free words in
//!   command-line order.
//! - `loop` does what `order` does in a loop with a `Reader`, which stores nothing.
//! - `read` only parses; the options are declared once, before the iterations. It adds the number
//!   of free words.
//! - `canonical` writes the canonical line. It adds the lengths of its words.
//! - `equal` compares the matches of both halves of the words. It adds 1 if they are equal.
//! - `usage` writes the usage text. It adds its length.
//! - `defined` asks whether each main name is defined, and `asked` whether each option was given.
//!   They add the number that are.
//! - `held` parses the words and keeps the matches. It adds the number of free words.
//!
//! The status is 0 if all sums were printed, 1 if a line was rejected, 2 if the arguments aren't
//! such triples or a file has no such rows, 3 if an allocation failed, and 4 if a write failed.
#![tactic(auto)]

mod input;
mod iterations;
mod trouble;

use input::input_of;
use std::process::ExitCode;
use std::{env, fs};
use trouble::Trouble;

/// Runs the jobs given by the arguments.
fn main(rt: HostRuntime) -> ExitCode {
    match run(&rt) {
        Ok(()) => ExitCode::SUCCESS,
        Err(trouble) => {
            let _ = eprintln!(rt; "getopts_bench: {trouble}");
            ExitCode::from(trouble.status())
        }
    }
}

/// Runs each job given by the arguments, and prints its sum.
fn run(rt: &HostRuntime) -> Result<(), Trouble> {
    let Ok(words) = env::args(rt) else {
        return Err(Trouble::NoMemory);
    };
    let words: Vec<String> = words.skip(1).collect(rt.alloc())?;
    if words.is_empty() {
        return Err(Trouble::NoJob);
    }
    for triple in words.chunks(3) {
        let sum = sum_of(rt, triple)?;
        if println!(rt; "{sum}").is_err() {
            return Err(Trouble::NotWritten);
        }
    }
    Ok(())
}

/// The sum of the job given by three arguments.
fn sum_of(rt: &HostRuntime, triple: &[String]) -> Result<usize, Trouble> {
    let [job, rows, times] = triple else {
        return Err(Trouble::NoJob);
    };
    let (Ok(text), Ok(times)) = (fs::read_to_string(rt, rows), times.parse::<usize>()) else {
        return Err(Trouble::NoJob);
    };
    let input = input_of(rt.alloc(), &text)?;
    iterations::run(rt.alloc(), job, times, &input)
}
