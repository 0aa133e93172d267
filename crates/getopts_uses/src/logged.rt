//! A build tool that logs what it was asked for, as a command line that asks for the same when it
//! is read again.

ghost use Rattle.std.specs.Prelude.{◌≡◌, List, Some, map, IfOk, Ok};
ghost use Rattle.std.specs.String.{string_bytes};
ghost use Rattle.getopts.specs.Parse.{IsWritten, ReturnsConverted};
ghost use Rattle.getopts.specs.Prelude.{Text};
ghost use Rattle.getopts.specs.Results.{canonical_result};
ghost use Rattle.getopts_uses.specs.Logged.{build_options, said_of, said_result};

use getopts::{Fail, Options, declared_options_keep_laws};
use std::alloc::{AllocError, Global};
use std::convert::AsStr;

/// What a command line asks for.
#[derive(Debug, Drop)]
pub struct Build {
    pub jobs: Option<String>,
    pub keep_going: bool,
    pub verbose: usize,
    pub sets: Vec<String>,
    pub targets: Vec<String>,
}

/// A build, and the line for the log.
#[derive(Debug, Drop)]
pub struct Logged {
    pub build: Build,
    pub line: Vec<String>,
}

/// The tool's options.
fn options(alloc: Global) -> Result<Options, AllocError>
    ensures { IfOk result (λ options. options ≡ build_options) }
{
    let mut options = Options::new(alloc);
    options
        .optopt("j", "jobs", "run NUMBER jobs at once", "NUMBER")?
        .optflag("k", "keep-going", "go on after an error")?
        .optflagmulti("v", "verbose", "say what is run")?
        .optmulti("D", "set", "set a variable", "NAME=VALUE")?;
    Ok(options)
}

/// What a command line asks for: the program's own, or a line of the log.
pub fn read_build<S: AsStr>(alloc: Global, words: &[S]) -> Result<Build, Fail>
    ensures said { ReturnsConverted said_of result (λ it. said_result (map S.text words.now) ≡ it) }
{
    let matches = options(alloc)?.parse_words(alloc, words)?;
    Ok(Build {
        jobs: matches.opt_str(alloc, "jobs")?,
        keep_going: matches.opt_present("keep-going"),
        verbose: matches.opt_count("verbose"),
        sets: matches.opt_strs(alloc, "set")?,
        targets: matches.free,
    })
}

/// Lemmas for proofs: a canonical line says what the original words say, and is its own canonical
/// line.
fn lines_say_the_same()
    ensures same { (words line : List Text) → IsWritten build_options words line
        → said_result line ≡ said_result words }
    ensures again { (words line : List Text) → IsWritten build_options words line
        → canonical_result build_options line ≡ Ok (Some line) }
{
    declared_options_keep_laws();
}

/// The line for the log: the canonical line of the words. There always is one, since no main name
/// contains `=`.
fn log_line<S: AsStr>(alloc: Global, words: &[S]) -> Result<Vec<String>, Fail>
    ensures logged { ReturnsConverted (λ line. Some (map string_bytes line.items)) result
        (λ it. canonical_result build_options (map S.text words.now) ≡ it) }
    ensures written { IfOk result (λ line. IsWritten build_options (map S.text words.now)
        (map string_bytes line.items)) }
{
    let line = options(alloc)?.canonical_words(alloc, words)?;
    Ok(line.unwrap())
}

/// What a command line asks for, and the line for the log. That line, read again, asks for the
/// same, and is logged unchanged.
pub fn read_and_log<S: AsStr>(alloc: Global, words: &[S]) -> Result<Logged, Fail>
    ensures said { ReturnsConverted (λ logged. said_of logged.build) result
        (λ it. said_result (map S.text words.now) ≡ it) }
    ensures logged { IfOk result (λ logged. canonical_result build_options (map S.text words.now)
        ≡ Ok (Some (map string_bytes logged.line.items))) }
    ensures replayed { IfOk result (λ logged.
        said_result (map string_bytes logged.line.items) ≡ Ok (said_of logged.build)) }
    ensures again { IfOk result (λ logged. canonical_result build_options
        (map string_bytes logged.line.items) ≡ Ok (Some (map string_bytes logged.line.items))) }
{
    lines_say_the_same();
    let build = read_build(alloc, words)?;
    let line = log_line(alloc, words)?;
    Ok(Logged { build, line })
}
