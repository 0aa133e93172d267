//! Checked values: a number within bounds, a choice whose value may be left out, and pairs.

ghost use Rattle.std.specs.Prelude.{◌≡◌, ◌∷◌, ◌++◌, [], codes, map, IfOk, OnOk};
ghost use Rattle.std.specs.Option.{option_map};
ghost use Rattle.std.specs.Str.Parse.{ParsesUnsigned};
ghost use Rattle.std.specs.String.{string_bytes};
ghost use Rattle.getopts.specs.Prelude.{IsDefined, first_value, first_value_or};
ghost use Rattle.getopts.specs.Prelude.{occurrences_of_name, parse_result, values_of};
ghost use Rattle.getopts_uses.specs.Checked.{ArePairsOrError, IsColorOrError, IsNumberOrError};
ghost use Rattle.getopts_uses.specs.Checked.{IsPairOrError, IsSettingsOrError, checked_options};
ghost use Rattle.getopts_uses.specs.Checked.{color_named, cut, refusal_of};
ghost use Rattle.getopts_uses.specs.declared.checked.Refusal.TheVariants.{OutOfMemory};

use getopts::{Fail, Matches, Options};
use std::alloc::{AllocError, Global};
use std::convert::AsStr;
use std::num::ParseIntError;

/// What a command line sets.
#[derive(Debug, Drop)]
pub struct Settings {
    pub jobs: u32,
    pub color: Color,
    pub sets: Vec<Pair>,
    pub files: Vec<String>,
}

/// A key and its value.
#[derive(Debug, Drop)]
pub struct Pair {
    pub key: String,
    pub value: String,
}

/// When to use colour.
#[derive(Clone, Copy, Debug)]
pub enum Color {
    Auto,
    Always,
    Never,
}

/// Why a command line sets nothing.
#[derive(Debug, Drop)]
pub enum Refusal {
    Line(Fail),
    /// The option's text isn't a number from `low` to `high`.
    Number {
        option: &'static str,
        text: String,
        low: u32,
        high: u32,
    },
    /// The option's text isn't one of the choices.
    Choice {
        option: &'static str,
        text: String,
    },
    /// The option's text isn't `KEY=VALUE`.
    Pair {
        option: &'static str,
        text: String,
    },
    OutOfMemory,
}

impl From<Fail> for Refusal {
    ghost from_gives = { λ fail refusal. refusal ≡ refusal_of fail };

    fn from(fail: Fail) -> Refusal {
        match fail {
            Fail::OutOfMemory => Refusal::OutOfMemory,
            fault => Refusal::Line(fault),
        }
    }
}

impl From<AllocError> for Refusal {
    ghost from_gives = { λ _ refusal. refusal ≡ OutOfMemory };

    fn from(_error: AllocError) -> Refusal {
        Refusal::OutOfMemory
    }
}

/// The options.
fn options(alloc: Global) -> Result<Options, AllocError>
    ensures { IfOk result (λ options. options ≡ checked_options) }
{
    let mut options = Options::new(alloc);
    options
        .optopt(
            "j",
            "jobs",
            "run NUMBER jobs at once, from 1 to 64",
            "NUMBER",
        )?
        .optflagopt("", "color", "colour: auto, always or never", "WHEN")?
        .optmulti("D", "set", "set KEY to VALUE", "KEY=VALUE")?;
    Ok(options)
}

/// What a command line sets.
pub fn read_settings<S: AsStr>(alloc: Global, words: &[S]) -> Result<Settings, Refusal>
    ensures result { IsSettingsOrError (parse_result checked_options (map S.text words.now)) result }
{
    let matches = options(alloc)?.parse_words(alloc, words)?;
    Ok(Settings {
        jobs: number_of(alloc, &matches, "jobs", 1, 64, 1)?,
        color: color_of(alloc, &matches, "color")?,
        sets: sets_of(alloc, &matches, "set")?,
        files: matches.free,
    })
}

/// An option's number from `low` to `high`, or the default if it isn't given.
fn number_of(
    alloc: Global,
    matches: &Matches,
    option: &'static str,
    low: u32,
    high: u32,
    default: u32,
) -> Result<u32, Refusal>
    requires { IsDefined matches.now.groups option.now }
    ensures { IsNumberOrError option.now low high default
        (first_value (occurrences_of_name matches.now.groups option.now)) result }
{
    let Some(text) = matches.value(option) else {
        return Ok(default);
    };
    match read_number(text) {
        Ok(number) if low <= number && number <= high => Ok(number),
        _ => Err(Refusal::Number {
            option,
            text: String::from_str(alloc, text)?,
            low,
            high,
        }),
    }
}

/// Parses a text as a number.
fn read_number(text: &str) -> Result<u32, ParseIntError>
    ensures { ParsesUnsigned 32 10 text.now result }
{
    text.parse()
}

/// An option's choice: `always` if it has no value, and `auto` if it isn't given.
fn color_of(alloc: Global, matches: &Matches, option: &'static str) -> Result<Color, Refusal>
    requires { IsDefined matches.now.groups option.now }
    ensures { IsColorOrError option.now
        (first_value_or (occurrences_of_name matches.now.groups option.now)
        (codes "always")) result }
{
    let Some(text) = matches.opt_default(alloc, option, "always")? else {
        return Ok(Color::Auto);
    };
    match color_named(text.as_str()) {
        Some(color) => Ok(color),
        None => Err(Refusal::Choice { option, text }),
    }
}

/// The choice that a word names.
fn color_named(word: &str) -> Option<Color>
    ensures { result ≡ color_named word.now }
{
    match word {
        "auto" => Some(Color::Auto),
        "always" => Some(Color::Always),
        "never" => Some(Color::Never),
        _ => None,
    }
}

/// An option's pairs, or an error with the first text that isn't a pair.
fn sets_of(alloc: Global, matches: &Matches, option: &'static str) -> Result<Vec<Pair>, Refusal>
    requires { IsDefined matches.now.groups option.now }
    ensures { ArePairsOrError option.now
        (values_of (occurrences_of_name matches.now.groups option.now)) result }
{
    let texts = matches.opt_strs(alloc, option)?;
    pairs_of(alloc, option, &texts)
}

/// The pairs that texts are, or an error with the first text that isn't a pair.
fn pairs_of(alloc: Global, option: &'static str, texts: &[String]) -> Result<Vec<Pair>, Refusal>
    ensures { ArePairsOrError option.now (map string_bytes texts.now) result }
{
    let mut pairs = Vec::new(alloc);
    for text in texts {
        let pair = pair_of(alloc, option, text.as_str())?;
        add_pair(&mut pairs, pair)?;
    }
    Ok(pairs)
}

/// Adds a pair. If memory runs out, `push` returns the pair in its error, for which `Refusal` has
/// no `From`.
fn add_pair(pairs: &mut Vec<Pair>, pair: Pair) -> Result<(), AllocError>
    ensures { OnOk result (pairs.new.items ≡ pairs.old.items ++ pair ∷ []) }
{
    Ok(pairs.push(pair)?)
}

/// The pair that a text is.
fn pair_of(alloc: Global, option: &'static str, text: &str) -> Result<Pair, Refusal>
    ensures { IsPairOrError option.now text.now result }
{
    match cut(text) {
        Some((key, value)) => Ok(Pair {
            key: String::from_str(alloc, key)?,
            value: String::from_str(alloc, value)?,
        }),
        None => Err(Refusal::Pair {
            option,
            text: String::from_str(alloc, text)?,
        }),
    }
}

/// The text before and after the first `=`.
fn cut(text: &str) -> Option<(&str, &str)>
    ensures { option_map (λ pair. (pair.0.now, pair.1.now)) result ≡ cut text.now }
{
    text.split_once('=')
}
