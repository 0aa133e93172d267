//! The test cases: what each caller returns for its words.

ghost use Rattle.std.specs.Prelude.{IfOk, codes};
ghost use Rattle.getopts.specs.Prelude.{Declares};

use crate::archive::read_entries;
use crate::checked::read_settings;
use crate::cut::read_cut;
use crate::flag::says_more;
use crate::join::join;
use crate::launcher::read_launch;
use crate::lists::{any_given, count_of, place_named};
use crate::logged::{read_and_log, read_build};
use crate::loudness::read_report;
use crate::plugin::add_flag;
use crate::seq::read_seq;
use crate::wrapper::handed_on;
use crate::{driver, linker, subcommand};
use getopts::{Matches, Options};
use std::alloc::{AllocError, Global};
use std::fmt::Debug;

/// Appends what a call returned, and a line end.
fn push<T: Debug + Drop, E: Debug + Drop>(
    text: &mut String,
    res: Result<T, E>,
) -> Result<(), AllocError> {
    match res {
        Ok(value) => writeln!(text, "{value:?}"),
        Err(error) => writeln!(text, "{error:?}"),
    }
}

/// Appends a case and its result. The word `''` stands for the empty word.
pub fn push_case(alloc: Global, text: &mut String, case: &str) -> Result<(), AllocError> {
    write!(text, "{case}: ")?;
    let mut words = Vec::new(alloc);
    for word in case.split(' ') {
        words.push(if word == "''" { "" } else { word })?;
    }
    match words.split_first() {
        Some((caller, words)) => push_caller(alloc, text, caller, words),
        None => Ok(()),
    }
}

/// Appends what a caller returns for words.
fn push_caller(
    alloc: Global,
    text: &mut String,
    caller: &str,
    words: &[&str],
) -> Result<(), AllocError> {
    match caller {
        "logged" => push(text, read_and_log(alloc, words)),
        "replayed" => push_replayed(alloc, text, words),
        "archive" => push(text, read_entries(alloc, words)),
        "launcher" => push(text, read_launch(alloc, words)),
        "checked" => push(text, read_settings(alloc, words)),
        "cut" => push_cut(alloc, text, words),
        "join" => push_joined(alloc, text, words),
        "report" => push(text, read_report(alloc, words)),
        "seq" => push(text, read_seq(alloc, words)),
        "wrapper" => push(text, handed_on(alloc, words)),
        "command" => push(text, subcommand::read_run(alloc, words)),
        "add_help" => push(text, subcommand::add_help(alloc)),
        "narrow_add_help" => push(text, subcommand::narrow_add_help(alloc)),
        "log_help" => push(text, subcommand::log_help(alloc)),
        "driver" => push(text, driver::read_job(alloc, words)),
        "linker" => push(text, linker::read_inputs(alloc, words)),
        _ => push_given(alloc, text, caller, words),
    }
}

/// Appends what words cut, or the printed error.
fn push_cut(alloc: Global, text: &mut String, words: &[&str]) -> Result<(), AllocError> {
    match read_cut(alloc, words) {
        Ok(cut) => writeln!(text, "{cut:?}"),
        Err(refusal) => writeln!(text, "{refusal}"),
    }
}

/// Appends what `join` prints for words.
fn push_joined(alloc: Global, text: &mut String, words: &[&str]) -> Result<(), AllocError> {
    let mut out = Vec::<u8>::new(alloc);
    match join(alloc, words, &mut out) {
        Ok(()) => text.push_str(str::from_utf8(&out).unwrap_or("not UTF-8")),
        Err(_) => Err(AllocError),
    }
}

/// Appends what the log's line for these words asks for.
fn push_replayed(alloc: Global, text: &mut String, words: &[&str]) -> Result<(), AllocError> {
    match read_and_log(alloc, words) {
        Ok(logged) => push(text, read_build(alloc, &logged.line)),
        Err(fail) => writeln!(text, "{fail:?}"),
    }
}

/// Options for the callers that take options as a parameter.
fn some_options(alloc: Global) -> Result<Options, AllocError>
    ensures { IfOk result (λ options. Declares options (codes "verbose")) }
{
    let mut options = Options::new(alloc);
    options.optflagmulti("v", "verbose", "say more")?;
    options.optopt("o", "output", "set output file name", "NAME")?;
    Ok(options)
}

/// Appends what a caller that takes options as a parameter returns for words.
fn push_given(
    alloc: Global,
    text: &mut String,
    caller: &str,
    words: &[&str],
) -> Result<(), AllocError> {
    let mut options = some_options(alloc)?;
    match (caller, words) {
        ("flag", words) => push(text, says_more(alloc, &options, words)),
        ("plugin", [name]) => push_plugin(text, &mut options, name),
        _ => push_asked(alloc, text, &mut options, caller, words),
    }
}

/// Appends whether a flag of this name was added, and whether the options are unchanged.
fn push_plugin(text: &mut String, options: &mut Options, name: &str) -> Result<(), AllocError> {
    let before = options.clone()?;
    let added = add_flag(options, name, "run the plugin")?;
    let same = *options == before;
    writeln!(text, "added {added}, as before {same}")
}

/// Appends what a caller returns for the matches of a command line that gives a plugin's flag.
fn push_asked(
    alloc: Global,
    text: &mut String,
    options: &mut Options,
    caller: &str,
    names: &[&str],
) -> Result<(), AllocError> {
    add_flag(options, "plugin", "run the plugin")?;
    match options.parse_words(alloc, &["--plugin", "-v", "-o", "-"]) {
        Ok(matches) => push_of_matches(text, &matches, caller, names),
        Err(fail) => writeln!(text, "{fail:?}"),
    }
}

/// Appends what a caller returns for matches.
fn push_of_matches(
    text: &mut String,
    matches: &Matches,
    caller: &str,
    names: &[&str],
) -> Result<(), AllocError> {
    match (caller, names) {
        ("place", [name]) => writeln!(text, "{:?}", place_named(matches, name)),
        ("count", [name]) => writeln!(text, "{:?}", count_of(matches, name)),
        ("any", names) => writeln!(text, "{:?}", any_given(matches, names)),
        _ => writeln!(text, "no such caller"),
    }
}
