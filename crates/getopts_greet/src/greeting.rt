//! What a command line asks of the greeter.

ghost use Rattle.std.specs.Prelude.{◌≡◌, [], ◌∷◌, codes, map, IfOk, Ok, Some};
ghost use Rattle.std.specs.Str.Parse.{ParsesUnsigned};
ghost use Rattle.std.specs.String.{string_bytes};
ghost use Rattle.getopts.specs.Prelude.{FitOptionsAndCounts, IsDefined, IsParsedAs, Matched};
ghost use Rattle.getopts.specs.Prelude.{first_value, occurrences_of_name, usage_result};
ghost use Rattle.getopts_greet.specs.Greeting.{IsAskedOrError, IsGreetingOrError, asked_result};
ghost use Rattle.getopts_greet.specs.Greeting.{greeter_help, greeter_options, refusal_of};
ghost use Rattle.getopts_greet.specs.declared.greeting.Refusal.TheVariants.{Number, OutOfMemory};
ghost use Rattle.getopts_greet.specs.declared.greeting.Request.TheVariants.{Help, Parsed};

use getopts::{Fail, Matches, Options};
use std::alloc::{AllocError, Global};
use std::convert::AsStr;
use std::num::ParseIntError;

/// What a command line requests: help, the version, or what was parsed.
#[derive(Debug, Drop)]
pub enum Request<T> {
    Help,
    Version,
    Parsed(T),
}

/// Whom to greet, and how often.
#[derive(Debug, Drop)]
pub struct Greeting {
    pub name: String,
    pub times: Option<u32>,
}

/// Why a command line asks for nothing.
#[derive(Debug, Drop)]
pub enum Refusal {
    Line(Fail),
    Number(ParseIntError),
    OutOfMemory,
}

// For `?` after calls that parse a command line.
impl From<Fail> for Refusal {
    ghost from_gives = { λ fail refusal. refusal ≡ refusal_of fail };

    fn from(fail: Fail) -> Refusal {
        match fail {
            Fail::OutOfMemory => Refusal::OutOfMemory,
            fault => Refusal::Line(fault),
        }
    }
}

// For `?` after `opt_get` of a number.
impl From<ParseIntError> for Refusal {
    ghost from_gives = { λ error refusal. refusal ≡ Number error };

    fn from(error: ParseIntError) -> Refusal {
        Refusal::Number(error)
    }
}

// For `?` after calls that add an option, and after calls such as `opt_str`.
impl From<AllocError> for Refusal {
    ghost from_gives = { λ _ refusal. refusal ≡ OutOfMemory };

    fn from(_error: AllocError) -> Refusal {
        Refusal::OutOfMemory
    }
}

/// The greeter's options.
pub fn options(alloc: Global) -> Result<Options, AllocError>
    ensures options { IfOk result (λ options. options ≡ greeter_options) }
{
    let mut options = Options::new(alloc);
    options
        .reqopt("n", "name", "greet NAME", "NAME")?
        .optopt("t", "times", "greet NUMBER times", "NUMBER")?
        .optflag("h", "help", "print this help")?
        .optflag("V", "version", "print the version")?;
    Ok(options)
}

/// The greeter's help, which already ends with a line end.
#[tactic(auto, unfolding(getopts::proofs::OnLiterals::usage_on_literals))]
pub fn help_text(alloc: Global) -> Result<String, AllocError>
    ensures text { IfOk result (λ text. string_bytes text ≡ greeter_help) }
{
    usage(alloc)
}

/// The usage text of the greeter's options.
fn usage(alloc: Global) -> Result<String, AllocError>
    ensures text { IfOk result (λ text. string_bytes text
        ≡ usage_result greeter_options (codes "Usage: getopts_greet [options]")) }
{
    let options = options(alloc)?;
    options.usage(alloc, "Usage: getopts_greet [options]")
}

/// What a command line asks for: help and the version are printed even if an option is missing, but
/// not if a word can't be read.
pub fn read<S: AsStr>(alloc: Global, words: &[S]) -> Result<Request<Greeting>, Refusal>
    ensures result { IsAskedOrError (asked_result (map S.text words.now)) result }
{
    let options = options(alloc)?;
    let matches = options.parse_ignoring_counts(alloc, words)?;
    if matches.opt_present("help") {
        return Ok(Request::Help);
    }
    if matches.opt_present("version") {
        return Ok(Request::Version);
    }
    matches.check_counts(alloc)?;
    Ok(Request::Parsed(greeting_of(alloc, &matches)?))
}

/// Two command lines written out: whether the contract of `read` is right can be seen before it is
/// proved.
fn lines_written_out()
    ensures greeting { (matches : Matched)
        × (asked_result (codes "-nAnn" ∷ codes "-t2" ∷ []) ≡ Ok (Parsed matches))
        × (first_value (occurrences_of_name matches.groups (codes "name")) ≡ Some (codes "Ann"))
        × (first_value (occurrences_of_name matches.groups (codes "times")) ≡ Some (codes "2")) }
    ensures help { asked_result (codes "-Vh" ∷ []) ≡ Ok Help }
{}

/// The greeting that matches ask for.
fn greeting_of(alloc: Global, matches: &Matches) -> Result<Greeting, Refusal>
    requires { FitOptionsAndCounts greeter_options matches.now.groups }
    ensures { IsGreetingOrError matches.now result }
{
    Ok(Greeting {
        name: matches.opt_str(alloc, "name")?.unwrap(),
        times: number(matches, "times")?,
    })
}

/// The number of an option, if it was given.
fn number(matches: &Matches, name: &str) -> Result<Option<u32>, ParseIntError>
    requires { IsDefined matches.now.groups name.now }
    ensures { IsParsedAs (ParsesUnsigned 32 10)
        (first_value (occurrences_of_name matches.now.groups name.now)) result }
{
    matches.opt_get(name)
}
