//! Help, a value, and flags of which the last one wins: how much to print, by `-q` and `-v` in the
//! order in which they were typed.

ghost use Rattle.std.specs.Prelude.{◌≡◌, List, [], ◌∷◌, ◌++◌, codes, map, Err, IfErr, IfOk, Ok};
ghost use Rattle.std.specs.Result.{result_map_both};
ghost use Rattle.getopts.specs.Prelude.{FitOptionsAndCounts, IsOutOfMemoryOr, Text};
ghost use Rattle.getopts.specs.Prelude.{parse_in_order_result, parse_result, borrowed_given};
ghost use Rattle.getopts.specs.Prelude.{unrecognized_option};
ghost use Rattle.getopts_uses.specs.Loudness.{IsAskedOrError, IsLoudnessOrError, IsReportOf, after};
ghost use Rattle.getopts_uses.specs.Loudness.{asked_result, loudness_at, report_options};
ghost use Rattle.getopts_uses.specs.declared.loudness.Loudness.TheVariants.{Normal, Quiet, Verbose};
ghost use Rattle.getopts_uses.specs.declared.request.Request.TheVariants.{Help};

use crate::request::Request;
use getopts::{Fail, Given, Matches, Options};
use std::alloc::{AllocError, Global};
use std::convert::AsStr;

/// How much to print.
#[derive(Clone, Copy, Debug)]
pub enum Loudness {
    Normal,
    Quiet,
    Verbose,
}

/// What to report, and where.
#[derive(Debug, Drop)]
pub struct Report {
    pub loudness: Loudness,
    pub output: Option<String>,
    pub files: Vec<String>,
}

/// The options. The value of `--output` may look like a flag.
fn options(alloc: Global) -> Result<Options, AllocError>
    ensures { IfOk result (λ options. options ≡ report_options) }
{
    let mut options = Options::new(alloc);
    options
        .optflagmulti("q", "quiet", "say less")?
        .optflagmulti("v", "verbose", "say more")?
        .optopt("o", "output", "write to FILE", "FILE")?
        .optflag("h", "help", "print this help")?;
    Ok(options)
}

/// Command lines written out: the last flag wins, even within a word, and help wins over all. `-5`
/// is an error, whatever follows.
#[tactic(auto, unfolding(getopts::proofs::OnLiterals::getopts_on_literals))]
fn lines_written_out()
    ensures verbose { result_map_both (after Normal) (λ fault. fault) (parse_in_order_result
        report_options (codes "-qv" ∷ codes "x" ∷ [])) ≡ Ok Verbose }
    ensures quiet { result_map_both (after Normal) (λ fault. fault) (parse_in_order_result
        report_options (codes "-vq" ∷ codes "-o" ∷ codes "-v" ∷ [])) ≡ Ok Quiet }
    ensures help { asked_result (codes "-vh" ∷ codes "-ox" ∷ []) ≡ Ok Help }
    ensures number { (text : Text) (words : List Text) → parse_result report_options
        ((codes "-5" ++ text) ∷ words) ≡ Err (unrecognized_option (codes "5")) }
{}

/// What a command line asks for: help, or a report. Unless it asks for help, the words are parsed
/// twice. By the clauses `counted` and `same_error`, the second call fails only if memory runs out.
pub fn read_report<S: AsStr>(alloc: Global, words: &[S]) -> Result<Request<Report>, Fail>
    ensures result { IsAskedOrError (asked_result (map S.text words.now))
        (parse_in_order_result report_options (map S.text words.now)) result }
{
    let options = options(alloc)?;
    let matches = options.parse_ignoring_counts(alloc, words)?;
    if matches.opt_present("help") {
        return Ok(Request::Help);
    }
    matches.check_counts(alloc)?;
    let loudness = loudness_of(alloc, &options, words)?;
    Ok(Request::Parsed(report_of(alloc, matches, loudness)?))
}

/// How much output a command line asks for: the last of `-q` and `-v` wins, even in `-qv`, in which
/// both have the same position.
fn loudness_of<S: AsStr>(alloc: Global, options: &Options, words: &[S]) -> Result<Loudness, Fail>
    ensures result { IsLoudnessOrError (parse_in_order_result options.now (map S.text words.now)) result }
    ensures same_error { IfErr result (λ fail. IsOutOfMemoryOr fail (λ fault.
        parse_result options.now (map S.text words.now) ≡ Err fault)) }
{
    let order = options.parse_in_order(alloc, words)?;
    Ok(last_of(&order))
}

/// How much output options in this order ask for.
fn last_of(order: &[Given<'_>]) -> Loudness
    ensures { result ≡ after Normal (map borrowed_given order.now) }
{
    let mut loudness = Loudness::Normal;
    for given in order {
        if let Given::Option { place, .. } = given {
            loudness = loudness_at(*place).unwrap_or(loudness);
        }
    }
    loudness
}

/// The place of the option `quiet`.
const QUIET: usize = 0;

/// The place of the option `verbose`.
const VERBOSE: usize = 1;

/// How much output the option at a place asks for, if any.
fn loudness_at(place: usize) -> Option<Loudness>
    ensures { result ≡ loudness_at place }
{
    match place {
        QUIET => Some(Loudness::Quiet),
        VERBOSE => Some(Loudness::Verbose),
        _ => None,
    }
}

/// The report that matches ask for, with this much output.
fn report_of(alloc: Global, matches: Matches, loudness: Loudness) -> Result<Report, AllocError>
    requires { FitOptionsAndCounts report_options matches.groups }
    ensures { IfOk result (IsReportOf matches loudness) }
{
    Ok(Report {
        loudness,
        output: matches.opt_str(alloc, "output")?,
        files: matches.free,
    })
}
