//! Compares the library's answers with those that rows expect: reads the files named by its
//! arguments, and prints each difference and their number.
//!
//! The expected answers come from elsewhere. Those of `data/rules.rows` and `data/large.rows` are
//! written by hand, from the rules of the Rust crate and from its tests. Those of
//! `data/recorded.rows` were written by the Rust crate itself (`tests/differential`).
//! `data/allocations.rows` is for runs in which allocations fail, and `data/calls.rows` for what
//! depends on the caller: its chains of calls, iterators and types, and errors that no words cause.
//!
//! # Rows
//!
//! A case declares options, parses words with them, and asks questions. It consists of lines, each
//! a word and fields, separated by tabs. A field is a text, in which `\t`, `\n`, `\r` and `\\`
//! stand for a tab, a newline, a carriage return and a backslash. Empty lines and lines that begin
//! with `#` are skipped.
//!
//! `{Z}` stands for the first character from U+0300 on that takes no columns and isn't white space,
//! as measured by `unicode_width`. If there is none, cases with a `{Z}` are omitted. Cases in short
//! form can't have one.
//!
//! These lines have no answer, except that `case` is answered with the line itself:
//!
//! - `case NAME`: no groups, the style `floating`, the mode `ordinary`, no words, nothing kept
//! - `style floating` or `style stop`; `mode ordinary` or `mode long-only`
//! - `opt SHORT LONG DESC HINT KIND OCCUR`, also `add_group`: KIND and OCCUR are variants of
//!   `HasArg` and `Occur` in small letters, such as `yes` and `multi`
//! - the other calls that add an option, such as `optflag SHORT LONG DESC` and `optopt SHORT LONG
//!   DESC HINT`, with the call's arguments
//! - `chained`: sets style and mode, and adds seven groups, in one chain of calls
//! - `keep`: keeps a copy of the options and of the result of the last `words`
//! - `anew`: returns to the state after `case`, except for what is kept
//!
//! These are answered with a line that begins with their word, except that lines that parse words
//! are answered with `accepted` or `refused`, or else as listed. An OPTIONAL is `-` if there is no
//! value, else `=` and the value.
//!
//! - `words WORD..`: `accepted START FREE..`, where START is `-` or the trailing start, or
//!   `refused FAULT NAME`
//! - `parse_words WORD..`, `parse_promised WORD..`, `ignoring_counts WORD..` and `check_counts
//!   WORD..`: like `words`, with `parse_words`, with `parse` of an iterator that promises too many
//!   words, with `parse_ignoring_counts`, and with `parse_ignoring_counts` and then `check_counts`
//! - `option NAME DEFAULT`: `option NAME present COUNT STR DEFAULTED` or `option NAME absent ..`,
//!   with the OPTIONALs of `opt_str` and `opt_default`; then a line `strs` with the values of
//!   `opt_strs`, and a line `pairs` with the texts of `opt_strs_pos`
//! - `positions NAME`: `positions NAME POSITION..`, then a line `pairs` with the position and the
//!   text of each pair of `opt_strs_pos`
//! - `number NAME DEFAULT` and `truth NAME DEFAULT`: the result of `opt_get` for `i32` or `bool`,
//!   an OPTIONAL or `error`, and of `opt_get_default`, the value or `error`
//! - `unreadable NAME`: the same for a type that no text can be parsed as: `-` or `error`, and
//!   `default` or `error`
//! - `any NAME..`: `any PRESENT PRESENT STR STR`, from `opts_present`, `opts_present_any`,
//!   `opts_str` and `opts_str_first`, or `any PRESENT undefined` if one of the names is undefined
//! - `lawful SHORT LONG`: `lawful true` or `lawful false`
//! - `same options` and `same answers`: `same options true` if the options equal the kept ones,
//!   else `same options false`; `same answers` compares the results of the last `words`
//! - `short PROGRAM` and `usage BRIEF`: the text
//! - `usage_in COLUMNS BRIEF`: the usage text within this many columns
//! - `rows`: the result of the closure of `usage_with_format`, which counts its rows, then the rows
//! - `usage_rows`: the rows
//! - `closures`: the results of closures of `usage_with_format`: of one that counts its rows and of
//!   one that takes none, each with the number of its calls; of one that takes only the first row;
//!   and whether the error of a closure is returned
//! - `wrap LIMIT DESC`: the rows of `each_split_within`
//! - `canonical WORD..`: `canonical line WORD..`, `canonical none`, or `canonical refused FAULT
//!   NAME`; also `canonical_words` and `canonical_promised`
//! - `taken WORD..`: how many words `parse` takes from an iterator that promises none, and `FAULT
//!   NAME`, or `-` if the words are accepted; then the same for `canonical`
//! - `error`: the text of the error of the last `words`, or `nothing` if they were accepted
//! - `error FAULT NAME`: the error's text, whether it prints the same in other formats, and whether
//!   it equals its clone
//! - `parse_in_order WORD..`: `parse_in_order order` and, for each option and free word in order,
//!   the option's place and the OPTIONAL, or `=` and the free word; or `parse_in_order refused
//!   FAULT NAME`
//!
//! These make one call, and are answered with the line itself and the result:
//!
//! - `opt_present NAME`, `opt_count NAME`, `opt_strs NAME`: `true` or `false`, the count, and the
//!   values
//! - `opt_positions NAME` and `opt_strs_pos NAME`: the positions, and the position and the text of
//!   each pair
//! - `opt_str NAME` and `opt_default NAME DEFAULT`: the OPTIONAL
//! - `opt_defined NAME`: `true` or `false`
//! - `opt_place NAME`: the place, or `-`
//! - `occurrences_at PLACE NTH`: the number of occurrences at this place, then the position and the
//!   OPTIONAL of the NTH from 0 on, or `none`
//!
//! `clear` empties the free words of the last `words`, and is answered like `words`.
//!
//! If NAME is undefined, the answer after NAME is `undefined`, except for `opt_defined` and
//! `opt_place`. If there were no words, or the last were rejected, a line that asks about them is
//! answered with its word and `nothing`.
//!
//! The expected answer follows a line directly, each of its lines after `> `. The answer to `case`
//! isn't written. A line `| TEXT` appends TEXT and a newline to the last field above it. A missing
//! answer is a difference, and so is an answer to a line that has none.
//!
//! # Short form
//!
//! Cases with large inputs come last in a file:
//!
//! - Such a case begins with `* NAME` instead of `case NAME`.
//! - `{COUNT|TEXT}` repeats TEXT, which may have several lines, COUNT times. In each repetition,
//!   `#` stands for its number from 0 on, `%` for that number with five digits, and `&` for twice
//!   the number.
//! - A case with `$` is tried at each length around a power of two, `2^n - 1`, `2^n` and `2^n + 1`
//!   for each n from 1 to 20; `$` stands for the length.
//!
//! # Failing allocations
//!
//! A line that begins with `! ` is answered between two marks, for runs in which its allocations
//! fail. If one does, the line is answered again after the marks, and the status is 3: what a call
//! borrowed must be unchanged.
//!
//! # Exit status
//!
//! 0 if no answer differs, 1 if one does, 2 if a line is invalid, or if a file has no answers or
//! can't be read (standard error says which), 3 if an allocation failed, and 4 if a write failed.
//! The last case of `data/large.rows` differs on purpose, to show that differences are found.
#![tactic(auto)]

mod accessors;
mod asks;
mod comparison;
mod errors;
mod form;
mod iterators;
mod marks;
mod session;
mod short;
mod stop;

use comparison::Comparison;
use std::process::ExitCode;
use std::{env, fs};
use stop::Stop;

/// Compares the rows of the files, and reports on standard error why the run ended early.
fn main(rt: HostRuntime) -> ExitCode {
    match run(&rt) {
        Ok(true) => ExitCode::SUCCESS,
        Ok(false) => ExitCode::from(1),
        Err(stop) => {
            let _ = eprintln!(rt; "getopts_vectors: {stop}");
            ExitCode::from(stop.status())
        }
    }
}

/// Compares the rows of the files named by the arguments. Returns whether none differs.
fn run(rt: &HostRuntime) -> Result<bool, Stop> {
    let mut agree = true;
    for name in env::args(rt)?.skip(1) {
        agree &= compare_file(rt, &name)?;
    }
    Ok(agree)
}

/// Compares the rows of a file, and writes its name before the report.
fn compare_file(rt: &HostRuntime, name: &str) -> Result<bool, Stop> {
    let text = fs::read_to_string(rt, name)?;
    let mut comparison = Comparison::new(rt.alloc());
    comparison.compare_rows(rt.alloc(), text.as_str());
    match print!(rt; "{name}: {}", comparison.told()) {
        Ok(()) => comparison.agrees(),
        Err(_) => Err(Stop::NotWritten),
    }
}
