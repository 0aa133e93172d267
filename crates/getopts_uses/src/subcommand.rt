//! A program with subcommands, each with its own options, help and errors: options before the
//! subcommand's name belong to the program, and options after it to the subcommand.

ghost use Rattle.std.specs.Prelude.{◌≡◌, codes, map, IfOk, IfSome, Ok, OnOk};
ghost use Rattle.std.specs.String.{string_bytes};
ghost use Rattle.getopts.specs.Parse.{EndsInFreeWords};
ghost use Rattle.getopts.specs.Prelude.{Declares, FitOptions, FitOptionsAndCounts, Matched};
ghost use Rattle.getopts.specs.Prelude.{ReturnsResult, parse_result};
ghost use Rattle.getopts.specs.UsageResults.{usage_in_result, usage_result};
ghost use Rattle.getopts_uses.specs.Command.{IsAddOf, IsAddOrError, IsCommandOrError, IsLogOf};
ghost use Rattle.getopts_uses.specs.Command.{IsLogOrError, IsRunOf, IsRunOrError, add_help, add_options};
ghost use Rattle.getopts_uses.specs.Command.{global_options, log_help, log_options};
ghost use Rattle.getopts_uses.specs.Command.{narrow_add_help, parse_unless_help};
ghost use Rattle.getopts_uses.specs.declared.subcommand.Refusal.TheVariants.{Line, OutOfMemory};

use crate::driver::names_none;
use getopts::{Fail, Matches, Options, ParsingStyle};
use std::alloc::{AllocError, Global};
use std::convert::AsStr;

/// What a command line runs.
#[derive(Debug, Drop)]
pub struct Run {
    pub quiet: bool,
    pub folder: Option<String>,
    pub command: Command,
}

/// A subcommand, with what its own words ask for, or none if that is its help.
#[derive(Debug, Drop)]
pub enum Command {
    Add(Option<Add>),
    Log(Option<Log>),
}

/// What to add.
#[derive(Debug, Drop)]
pub struct Add {
    pub force: bool,
    pub files: Vec<String>,
}

/// Which entries to show.
#[derive(Debug, Drop)]
pub struct Log {
    pub count: String,
    pub texts: Vec<String>,
    pub files: Vec<String>,
}

/// Why a command line runs nothing: an error of the program, or of any subcommand.
#[derive(Debug, Drop)]
pub enum Refusal {
    Line(Fail),
    NoCommand,
    Unknown(String),
    /// The words after the name of this subcommand have an error.
    Own(&'static str, Fail),
    /// There is no file to add.
    NoFile,
    OutOfMemory,
}

impl From<Fail> for Refusal {
    ghost from_gives = { λ fail refusal. refusal ≡ Line fail };

    fn from(fail: Fail) -> Refusal {
        Refusal::Line(fail)
    }
}

impl From<AllocError> for Refusal {
    ghost from_gives = { λ _ refusal. refusal ≡ OutOfMemory };

    fn from(_error: AllocError) -> Refusal {
        Refusal::OutOfMemory
    }
}

/// The options that may precede the subcommand.
fn options(alloc: Global) -> Result<Options, AllocError>
    ensures { IfOk result (λ options. options ≡ global_options) }
{
    let mut options = Options::new(alloc);
    options
        .optflag("q", "quiet", "say less")?
        .optopt("C", "folder", "work in DIR", "DIR")?
        .parsing_style(ParsingStyle::StopAtFirstFree);
    Ok(options)
}

/// The options of `add`.
fn add_options(alloc: Global) -> Result<Options, AllocError>
    ensures { IfOk result (λ options. options ≡ add_options) }
{
    let mut options = Options::new(alloc);
    options
        .optflag("f", "force", "add ignored files too")?
        .optflag("h", "help", "print this help")?;
    Ok(options)
}

/// The options of `log`.
fn log_options(alloc: Global) -> Result<Options, AllocError>
    ensures { IfOk result (λ options. options ≡ log_options) }
{
    let mut options = Options::new(alloc);
    options
        .reqopt("n", "max-count", "show NUMBER entries", "NUMBER")?
        .optmulti("", "grep", "show those that have TEXT", "TEXT")?
        .optflag("h", "help", "print this help")?;
    Ok(options)
}

/// The help of `add`.
#[tactic(auto, unfolding(getopts::proofs::OnLiterals::usage_on_literals))]
pub fn add_help(alloc: Global) -> Result<String, AllocError>
    ensures text { IfOk result (λ text. string_bytes text ≡ add_help) }
{
    add_help_in(alloc, 78)
}

/// The help of `add` within this many columns, such as the width of a terminal.
fn add_help_in(alloc: Global, columns: usize) -> Result<String, AllocError>
    ensures text { IfOk result (λ text. string_bytes text
        ≡ usage_in_result columns add_options (codes "Usage: add [options] FILE..")) }
{
    let options = add_options(alloc)?;
    options.usage_in(alloc, "Usage: add [options] FILE..", columns)
}

/// The help of `add` within 40 columns.
#[tactic(auto, unfolding(getopts::proofs::OnLiterals::usage_on_literals))]
pub fn narrow_add_help(alloc: Global) -> Result<String, AllocError>
    ensures text { IfOk result (λ text. string_bytes text ≡ narrow_add_help) }
{
    add_help_in(alloc, 40)
}

/// The help of `log`.
#[tactic(auto, unfolding(getopts::proofs::OnLiterals::usage_on_literals))]
pub fn log_help(alloc: Global) -> Result<String, AllocError>
    ensures text { IfOk result (λ text. string_bytes text ≡ log_help) }
{
    log_usage(alloc)
}

/// The usage text of the options of `log`.
fn log_usage(alloc: Global) -> Result<String, AllocError>
    ensures text { IfOk result (λ text. string_bytes text
        ≡ usage_result log_options (codes "Usage: log -n NUMBER [options] FILE..")) }
{
    let options = log_options(alloc)?;
    options.usage(alloc, "Usage: log -n NUMBER [options] FILE..")
}

/// What a command line runs. Whatever follows the words before the subcommand, these words give the
/// same options.
pub fn read_run<S: AsStr>(alloc: Global, words: &[S]) -> Result<Run, Refusal>
    ensures run { IsRunOrError (parse_result global_options (map S.text words.now)) result }
    ensures before { OnOk result ((global : Matched)
        × (parse_result global_options (map S.text words.now) ≡ Ok global)
        × EndsInFreeWords global_options (map S.text words.now) global) }
{
    let matches = options(alloc)?.parse_words(alloc, words)?;
    run_of(alloc, &matches)
}

/// What a command line with these matches runs.
fn run_of(alloc: Global, matches: &Matches) -> Result<Run, Refusal>
    requires { FitOptions global_options matches.now.groups }
    ensures { IsRunOf matches.now matches.now.free result }
{
    let Some((name, words)) = matches.free.split_first() else {
        return Err(Refusal::NoCommand);
    };
    Ok(Run {
        quiet: matches.opt_present("quiet"),
        folder: matches.opt_str(alloc, "folder")?,
        command: read_command(alloc, name.as_str(), words)?,
    })
}

/// The subcommand of this name, with what its own words ask for.
fn read_command(alloc: Global, name: &str, words: &[String]) -> Result<Command, Refusal>
    ensures { IsCommandOrError name.now (map string_bytes words.now) result }
{
    match name {
        "add" => Ok(Command::Add(read_add(alloc, words)?)),
        "log" => Ok(Command::Log(read_log(alloc, words)?)),
        _ => Err(Refusal::Unknown(String::from_str(alloc, name)?)),
    }
}

/// The matches of a subcommand's own words, or none if they ask for help, even if a required option
/// is missing.
fn parse_unless_help(
    alloc: Global,
    options: &Options,
    words: &[String],
) -> Result<Option<Matches>, Fail>
    requires { Declares options.now (codes "help") }
    ensures result { ReturnsResult result
        (parse_unless_help options.now (map string_bytes words.now)) }
    ensures declared { IfOk result (λ returned. IfSome returned (λ matches.
        FitOptionsAndCounts options.now matches.groups)) }
{
    let matches = options.parse_ignoring_counts(alloc, words)?;
    if matches.opt_present("help") {
        return Ok(None);
    }
    matches.check_counts(alloc)?;
    Ok(Some(matches))
}

/// What the words after `add` ask for, or none if they ask for help.
fn read_add(alloc: Global, words: &[String]) -> Result<Option<Add>, Refusal>
    ensures { IsAddOrError (parse_unless_help add_options (map string_bytes words.now)) result }
{
    match parse_unless_help(alloc, &add_options(alloc)?, words) {
        Ok(Some(matches)) => Ok(Some(add_of(matches)?)),
        Ok(None) => Ok(None),
        Err(fail) => Err(Refusal::Own("add", fail)),
    }
}

/// What matches of `add` ask for.
fn add_of(matches: Matches) -> Result<Add, Refusal>
    requires { FitOptionsAndCounts add_options matches.groups }
    ensures { IsAddOf matches result }
{
    if names_none(&matches) {
        return Err(Refusal::NoFile);
    }
    Ok(Add {
        force: matches.opt_present("force"),
        files: matches.free,
    })
}

/// What the words after `log` ask for, or none if they ask for help.
fn read_log(alloc: Global, words: &[String]) -> Result<Option<Log>, Refusal>
    ensures { IsLogOrError (parse_unless_help log_options (map string_bytes words.now)) result }
{
    match parse_unless_help(alloc, &log_options(alloc)?, words) {
        Ok(Some(matches)) => Ok(Some(log_of(alloc, matches)?)),
        Ok(None) => Ok(None),
        Err(fail) => Err(Refusal::Own("log", fail)),
    }
}

/// What matches of `log` ask for.
fn log_of(alloc: Global, matches: Matches) -> Result<Log, AllocError>
    requires { FitOptionsAndCounts log_options matches.groups }
    ensures { IfOk result (IsLogOf matches) }
{
    Ok(Log {
        count: matches.opt_str(alloc, "max-count")?.unwrap(),
        texts: matches.opt_strs(alloc, "grep")?,
        files: matches.free,
    })
}
