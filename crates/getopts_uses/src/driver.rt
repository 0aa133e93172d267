//! A compiler driver with twenty options, whose long names may follow a single dash, and a job with
//! all their values.

ghost use Rattle.std.specs.Prelude.{◌≡◌, map, IfOk, OnOk};
ghost use Rattle.getopts.specs.Prelude.{FitOptionsAndCounts, parse_result, with_groups};
ghost use Rattle.getopts_uses.specs.Driver.{IsJobOf, IsJobOrError, driver_options, names_none};
ghost use Rattle.getopts_uses.specs.Driver.{IsSearchOf, AreSourcesOf, AreStagesOf};
ghost use Rattle.getopts_uses.specs.Driver.{search_groups, stages_groups};
ghost use Rattle.getopts_uses.specs.declared.driver.Refusal.TheVariants.{Line, NoInput, OutOfMemory};

use getopts::{Fail, Matches, Options};
use std::alloc::{AllocError, Global};
use std::convert::AsStr;

/// What the driver does. Each part has at most six values that own memory, because more would make
/// its function slow to check.
#[derive(Debug, Drop)]
pub struct Job {
    pub search: Search,
    pub sources: Sources,
    pub stages: Stages,
    pub inputs: Vec<String>,
}

/// What is written, searched and linked.
#[derive(Debug, Drop)]
pub struct Search {
    pub output: Option<String>,
    pub folders: Vec<String>,
    pub library_folders: Vec<String>,
    pub libraries: Vec<String>,
    pub debug: bool,
    pub compile: bool,
}

/// How the inputs are read.
#[derive(Debug, Drop)]
pub struct Sources {
    pub macros: Vec<String>,
    pub forgotten: Vec<String>,
    pub warnings: Vec<String>,
    pub level: Option<String>,
}

/// How far the driver goes, and what it prints.
#[derive(Debug, Drop)]
pub struct Stages {
    pub assemble: bool,
    pub preprocess: bool,
    pub verbose: usize,
    pub no_warnings: bool,
    pub language: Option<String>,
    pub standard: Option<String>,
    pub target: Option<String>,
    pub root: Option<String>,
    pub fixed: bool,
    pub shared: bool,
}

/// Why it does nothing.
#[derive(Debug, Drop)]
pub enum Refusal {
    Line(Fail),
    NoInput,
    OutOfMemory,
}

impl From<Fail> for Refusal {
    ghost from_gives = { λ fail refusal. refusal ≡ Line fail };

    fn from(fail: Fail) -> Refusal {
        Refusal::Line(fail)
    }
}

impl From<AllocError> for Refusal {
    ghost from_gives = { λ _ refusal. refusal ≡ OutOfMemory };

    fn from(_error: AllocError) -> Refusal {
        Refusal::OutOfMemory
    }
}

/// The driver's options.
pub fn options(alloc: Global) -> Result<Options, AllocError>
    ensures options { IfOk result (λ options. options ≡ driver_options) }
{
    let mut options = Options::new(alloc);
    options.long_only(true);
    add_search(&mut options)?;
    add_stages(&mut options)?;
    Ok(options)
}

/// Adds options for what is written and searched. Each of these helpers adds only about ten
/// options, because the checker computes both sides of its clause.
fn add_search(options: &mut Options) -> Result<(), AllocError>
    ensures { OnOk result (options.new ≡ with_groups options.old search_groups) }
{
    options
        .optopt("o", "output", "write the output to FILE", "FILE")?
        .optmulti("I", "include", "search DIR for headers", "DIR")?
        .optmulti("L", "library-path", "search DIR for libraries", "DIR")?
        .optmulti("l", "library", "link with NAME", "NAME")?
        .optmulti("D", "define", "define a macro", "NAME")?
        .optmulti("U", "undefine", "forget a macro", "NAME")?
        .optmulti("W", "warn", "warn of NAME", "NAME")?
        .optflagopt("O", "optimize", "optimize, by LEVEL", "LEVEL")?
        .optflag("g", "debug", "keep names for a debugger")?
        .optflag("c", "compile", "compile, and don't link")?;
    Ok(())
}

/// Adds options for how far the driver goes, and what it prints.
fn add_stages(options: &mut Options) -> Result<(), AllocError>
    ensures { OnOk result (options.new ≡ with_groups options.old stages_groups) }
{
    options
        .optflag("S", "assemble", "stop before the assembler")?
        .optflag("E", "preprocess", "stop after the preprocessor")?
        .optflagmulti("v", "verbose", "say what is run")?
        .optflag("w", "no-warnings", "warn of nothing")?
        .optopt("x", "language", "take the inputs for LANGUAGE", "LANGUAGE")?
        .optopt("", "std", "the standard", "NAME")?
        .optopt("", "target", "compile for TRIPLE", "TRIPLE")?
        .optopt("", "sysroot", "look below DIR", "DIR")?
        .optflag("", "static", "link no shared library")?
        .optflag("", "shared", "make a shared library")?;
    Ok(())
}

/// The job that a command line describes.
pub fn read_job<S: AsStr>(alloc: Global, words: &[S]) -> Result<Job, Refusal>
    ensures result { IsJobOrError (parse_result driver_options (map S.text words.now)) result }
{
    let matches = options(alloc)?.parse_words(alloc, words)?;
    if names_none(&matches) {
        return Err(Refusal::NoInput);
    }
    Ok(job_of(alloc, matches)?)
}

/// Whether matches name no input.
pub fn names_none(matches: &Matches) -> bool
    ensures { result ≡ names_none matches.now }
{
    matches.free.is_empty()
}

/// The job that matches describe. Each helper borrows the matches, and returns a part.
fn job_of(alloc: Global, matches: Matches) -> Result<Job, AllocError>
    requires { FitOptionsAndCounts driver_options matches.groups }
    ensures { IfOk result (IsJobOf matches) }
{
    Ok(Job {
        search: search_of(alloc, &matches)?,
        sources: sources_of(alloc, &matches)?,
        stages: stages_of(alloc, &matches)?,
        inputs: matches.free,
    })
}

/// What is written, searched and linked.
fn search_of(alloc: Global, matches: &Matches) -> Result<Search, AllocError>
    requires { FitOptionsAndCounts driver_options matches.now.groups }
    ensures { IfOk result (IsSearchOf matches.now) }
{
    Ok(Search {
        output: matches.opt_str(alloc, "output")?,
        folders: matches.opt_strs(alloc, "include")?,
        library_folders: matches.opt_strs(alloc, "library-path")?,
        libraries: matches.opt_strs(alloc, "library")?,
        debug: matches.opt_present("debug"),
        compile: matches.opt_present("compile"),
    })
}

/// How the inputs are read.
fn sources_of(alloc: Global, matches: &Matches) -> Result<Sources, AllocError>
    requires { FitOptionsAndCounts driver_options matches.now.groups }
    ensures { IfOk result (AreSourcesOf matches.now) }
{
    Ok(Sources {
        macros: matches.opt_strs(alloc, "define")?,
        forgotten: matches.opt_strs(alloc, "undefine")?,
        warnings: matches.opt_strs(alloc, "warn")?,
        level: matches.opt_default(alloc, "optimize", "1")?,
    })
}

/// How far the driver goes, and what it prints.
fn stages_of(alloc: Global, matches: &Matches) -> Result<Stages, AllocError>
    requires { FitOptionsAndCounts driver_options matches.now.groups }
    ensures { IfOk result (AreStagesOf matches.now) }
{
    Ok(Stages {
        assemble: matches.opt_present("assemble"),
        preprocess: matches.opt_present("preprocess"),
        verbose: matches.opt_count("verbose"),
        no_warnings: matches.opt_present("no-warnings"),
        language: matches.opt_str(alloc, "language")?,
        standard: matches.opt_str(alloc, "std")?,
        target: matches.opt_str(alloc, "target")?,
        root: matches.opt_str(alloc, "sysroot")?,
        fixed: matches.opt_present("static"),
        shared: matches.opt_present("shared"),
    })
}
