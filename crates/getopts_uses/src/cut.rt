//! Exactly one of three options, whose value is a list of ranges, as in `-f 1,3-5`, and the
//! program's own texts for all errors.

ghost use Rattle.std.specs.Prelude.{◌≡◌, ◌++◌, ◌∷◌, [], codes, map, Err, IfOk, MatchOption};
ghost use Rattle.std.specs.Prelude.{MatchResult, Ok, OnOk, Some};
ghost use Rattle.std.specs.Result.{result_map_both};
ghost use Rattle.std.specs.Str.Parse.{ParsesUnsigned};
ghost use Rattle.getopts.specs.Names.{texts};
ghost use Rattle.getopts.specs.Prelude.{FitOptionsAndCounts, parse_result};
ghost use Rattle.getopts_uses.specs.Checked.{value_of};
ghost use Rattle.getopts_uses.specs.Cut.{AreRangesOrError, IsCutOrError, IsRange};
ghost use Rattle.getopts_uses.specs.Cut.{cut_options, ends, only_list, parts_of, refusal_of, refusal_text};
ghost use Rattle.getopts_uses.specs.declared.cut.Refusal.TheVariants.{OutOfMemory};

use getopts::{Fail, Matches, Options};
use std::alloc::{AllocError, Global};
use std::convert::AsStr;
use std::fmt;
use std::num::ParseIntError;

/// What to print of each line.
#[derive(Debug, Drop)]
pub struct Cut {
    pub unit: Unit,
    pub ranges: Vec<Range>,
    pub files: Vec<String>,
}

/// What positions count.
#[derive(Clone, Copy, Debug)]
pub enum Unit {
    Bytes,
    Characters,
    Fields,
}

/// The positions from `first` to `last`.
#[derive(Clone, Copy, Debug)]
pub struct Range {
    pub first: u32,
    pub last: u32,
}

/// Why a command line cuts nothing.
#[derive(Debug, Drop)]
pub enum Refusal {
    Line(Fail),
    /// None of the three options is given.
    NoList,
    /// More than one of them is given.
    Lists,
    /// This part of the list isn't a range.
    Part(String),
    OutOfMemory,
}

impl From<Fail> for Refusal {
    ghost from_gives = { λ fail refusal. refusal ≡ refusal_of fail };

    fn from(fail: Fail) -> Refusal {
        match fail {
            Fail::OutOfMemory => Refusal::OutOfMemory,
            fault => Refusal::Line(fault),
        }
    }
}

impl From<AllocError> for Refusal {
    ghost from_gives = { λ _ refusal. refusal ≡ OutOfMemory };

    fn from(_error: AllocError) -> Refusal {
        Refusal::OutOfMemory
    }
}

impl fmt::Display for Refusal {
    ghost output = { λ refusal. Some (refusal_text refusal) };

    fn fmt<W: fmt::Write>(&self, f: &mut fmt::Formatter<W>) -> fmt::Result {
        match self {
            Refusal::Line(Fail::ArgumentMissing(name)) => {
                write!(f, "cut: option '{name}' requires an argument")
            }
            Refusal::Line(Fail::OptionDuplicated(_)) | Refusal::Lists => {
                write!(f, "cut: only one list may be specified")
            }
            Refusal::Line(fail) => write!(f, "cut: {fail}"),
            Refusal::NoList => {
                write!(
                    f,
                    "cut: you must specify a list of bytes, characters, or fields"
                )
            }
            Refusal::Part(part) => write!(f, "cut: invalid range '{part}'"),
            Refusal::OutOfMemory => write!(f, "cut: out of memory"),
        }
    }
}

/// The options.
fn options(alloc: Global) -> Result<Options, AllocError>
    ensures { IfOk result (λ options. options ≡ cut_options) }
{
    let mut options = Options::new(alloc);
    options
        .optopt("b", "bytes", "print these bytes", "LIST")?
        .optopt("c", "characters", "print these characters", "LIST")?
        .optopt("f", "fields", "print these fields", "LIST")?;
    Ok(options)
}

/// What a command line cuts.
pub fn read_cut<S: AsStr>(alloc: Global, words: &[S]) -> Result<Cut, Refusal>
    ensures result { IsCutOrError (parse_result cut_options (map S.text words.now)) result }
{
    let matches = options(alloc)?.parse_words(alloc, words)?;
    let (unit, list) = only_list(&matches)?;
    Ok(Cut {
        unit,
        ranges: ranges_of(alloc, list)?,
        files: matches.free,
    })
}

/// The only list that is given, with its unit.
fn only_list(matches: &Matches) -> Result<(Unit, &str), Refusal>
    requires { FitOptionsAndCounts cut_options matches.now.groups }
    ensures { result_map_both (λ list. (list.0, list.1.now)) (λ error. error) result
        ≡ only_list (value_of matches.now (codes "bytes")) (value_of matches.now (codes "characters"))
        (value_of matches.now (codes "fields")) }
{
    let bytes = matches.value("bytes");
    let characters = matches.value("characters");
    let fields = matches.value("fields");
    match (bytes, characters, fields) {
        (Some(list), None, None) => Ok((Unit::Bytes, list)),
        (None, Some(list), None) => Ok((Unit::Characters, list)),
        (None, None, Some(list)) => Ok((Unit::Fields, list)),
        (None, None, None) => Err(Refusal::NoList),
        _ => Err(Refusal::Lists),
    }
}

/// The ranges of a list, or an error with the first part that isn't a range.
fn ranges_of(alloc: Global, list: &str) -> Result<Vec<Range>, Refusal>
    ensures { MatchResult result (λ ranges. AreRangesOrError (parts_of list.now) (Ok ranges.items))
        (λ error. AreRangesOrError (parts_of list.now) (Err error)) }
{
    let parts = parts(alloc, list)?;
    ranges_in(alloc, &parts)
}

/// The parts between a list's commas.
fn parts<'a>(alloc: Global, list: &'a str) -> Result<Vec<&'a str>, AllocError>
    ensures { IfOk result (λ parts. texts parts.items ≡ parts_of list.now) }
{
    list.split(',').collect(alloc)
}

/// The ranges that texts are, or an error with the first text that isn't a range.
fn ranges_in(alloc: Global, parts: &[&str]) -> Result<Vec<Range>, Refusal>
    ensures { MatchResult result (λ ranges. AreRangesOrError (texts parts.now) (Ok ranges.items))
        (λ error. AreRangesOrError (texts parts.now) (Err error)) }
{
    let mut ranges = Vec::new(alloc);
    for part in parts {
        match range_of(part) {
            Some(range) => add_range(&mut ranges, range)?,
            None => return Err(Refusal::Part(String::from_str(alloc, part)?)),
        }
    }
    Ok(ranges)
}

/// Adds a range: see `add_pair` in `checked.rt`.
fn add_range(ranges: &mut Vec<Range>, range: Range) -> Result<(), AllocError>
    ensures { OnOk result (ranges.new.items ≡ ranges.old.items ++ range ∷ []) }
{
    Ok(ranges.push(range)?)
}

/// The range that a text is: `N-M`, or `N` for `N-N`.
fn range_of(text: &str) -> Option<Range>
    ensures { MatchOption result ((range : Range) → ¬ (IsRange text.now range)) (IsRange text.now) }
{
    let (first, last) = ends(text);
    let range = Range {
        first: number(first).ok()?,
        last: number(last).ok()?,
    };
    if 1 <= range.first && range.first <= range.last {
        Some(range)
    } else {
        None
    }
}

/// The ends of a range: the texts before and after its first `-`, or twice the text itself.
fn ends(text: &str) -> (&str, &str)
    ensures { (result.0.now, result.1.now) ≡ ends text.now }
{
    text.split_once('-').unwrap_or((text, text))
}

/// Parses a text as a number.
fn number(text: &str) -> Result<u32, ParseIntError>
    ensures { ParsesUnsigned 32 10 text.now result }
{
    text.parse()
}
