//! Answers about parsed words, as fields.

ghost use Rattle.std.specs.Prelude.{map, IsTrue};
ghost use Rattle.std.specs.String.{string_bytes};
ghost use Rattle.getopts.specs.Accessors.{AreDefined, IsDefined};
ghost use Rattle.getopts.specs.Names.{texts};

use crate::form::{Answer, Field, number_of_field};
use crate::stop::{Stop, UNKNOWN_LINE, WRONG_FIELDS};
use getopts::Matches;
use std::alloc::Global;
use std::fmt::Display;
use std::str::FromStr;

/// Whether a line with this word asks about parsed words.
pub fn has(word: &str) -> bool {
    word.starts_with("opt_")
        || matches!(
            word,
            "any" | "occurrences_at" | "option" | "positions" | "number" | "truth" | "unreadable"
        )
}

/// Answers a line that asks about parsed words.
pub fn ask(
    alloc: Global,
    matches: &Matches,
    word: &str,
    fields: &[String],
    answer: &mut Answer,
) -> Result<(), Stop> {
    match (word, fields) {
        ("any", names) => any(alloc, matches, names, answer),
        ("occurrences_at", [place, nth]) => {
            let (place, nth) = (number_of_field(place)?, number_of_field(nth)?);
            occurrence(matches, place, nth, answer);
            Ok(())
        }
        (_, [name, rest @ ..]) => {
            answer.field(name.as_str());
            ask_by_name(alloc, matches, word, name.as_str(), rest, answer)
        }
        _ => Err(UNKNOWN_LINE),
    }
}

/// Answers a line that asks about a name.
fn ask_by_name(
    alloc: Global,
    matches: &Matches,
    word: &str,
    name: &str,
    rest: &[String],
    answer: &mut Answer,
) -> Result<(), Stop> {
    match (word, rest) {
        ("opt_defined", []) => matches.opt_defined(name).put(answer),
        ("opt_place", []) => matches.opt_place(name).put(answer),
        _ if matches.opt_defined(name) => {
            ask_of_option(alloc, matches, word, name, rest, answer)?;
        }
        _ => answer.field("undefined"),
    }
    Ok(())
}

/// Answers a line that asks about an option.
fn ask_of_option(
    alloc: Global,
    matches: &Matches,
    word: &str,
    name: &str,
    rest: &[String],
    answer: &mut Answer,
) -> Result<(), Stop>
    requires { IsDefined matches.now.groups name.now }
{
    match (word, rest) {
        ("opt_present", []) => matches.opt_present(name).put(answer),
        ("opt_count", []) => matches.opt_count(name).put(answer),
        ("opt_str", []) => matches.opt_str(alloc, name)?.put(answer),
        ("opt_strs", []) => matches.opt_strs(alloc, name)?.put(answer),
        ("opt_positions", []) => matches.opt_positions(alloc, name)?.put(answer),
        ("opt_strs_pos", []) => matches.opt_strs_pos(alloc, name)?.put(answer),
        ("opt_default", [default]) => {
            default.put(answer);
            matches.opt_default(alloc, name, default)?.put(answer);
        }
        ("positions", []) => {
            matches.opt_positions(alloc, name)?.put(answer);
            answer.next("pairs");
            matches.opt_strs_pos(alloc, name)?.put(answer);
        }
        ("option", [default]) => option(alloc, matches, name, default, answer)?,
        ("number", [default]) => converted::<i32>(alloc, matches, name, default, answer)?,
        ("truth", [default]) => converted::<bool>(alloc, matches, name, default, answer)?,
        ("unreadable", []) => as_unreadable(matches, name, answer),
        _ => return Err(UNKNOWN_LINE),
    }
    Ok(())
}

/// Answers whether and how often an option was given, and its values.
fn option(
    alloc: Global,
    matches: &Matches,
    name: &str,
    default: &str,
    answer: &mut Answer,
) -> Result<(), Stop>
    requires { IsDefined matches.now.groups name.now }
{
    answer.field(if matches.opt_present(name) {
        "present"
    } else {
        "absent"
    });
    matches.opt_count(name).put(answer);
    matches.opt_str(alloc, name)?.put(answer);
    matches.opt_default(alloc, name, default)?.put(answer);
    answer.next("strs");
    matches.opt_strs(alloc, name)?.put(answer);
    answer.next("pairs");
    for (_, text) in &matches.opt_strs_pos(alloc, name)? {
        text.put(answer);
    }
    Ok(())
}

/// Answers the converted value of an option, without and with a default.
fn converted<T: FromStr + Display + Drop>(
    alloc: Global,
    matches: &Matches,
    name: &str,
    default: &str,
    answer: &mut Answer,
) -> Result<(), Stop>
where
    T::Err: Drop,
    requires { IsDefined matches.now.groups name.now }
{
    let default = default.parse::<T>().ok().ok_or(WRONG_FIELDS)?;
    match matches.opt_get::<T>(name) {
        Ok(Some(value)) => Some(value.to_string(alloc)?).put(answer),
        Ok(None) => answer.field("-"),
        Err(_error) => answer.field("error"),
    }
    match matches.opt_get_default(name, default) {
        Ok(value) => value.to_string(alloc)?.put(answer),
        Err(_error) => answer.field("error"),
    }
    Ok(())
}

/// A type that no text can be parsed as, and the error of trying to.
#[derive(Clone, Copy)]
struct Unreadable;

impl FromStr for Unreadable {
    type Err = Unreadable;

    fn from_str(_text: &str) -> Result<Unreadable, Unreadable> {
        Err(Unreadable)
    }
}

/// Answers the value of an option as an `Unreadable`, without and with a default.
fn as_unreadable(matches: &Matches, name: &str, answer: &mut Answer)
    requires { IsDefined matches.now.groups name.now }
{
    answer.field(match matches.opt_get::<Unreadable>(name) {
        Ok(Some(_)) => "=",
        Ok(None) => "-",
        Err(Unreadable) => "error",
    });
    answer.field(match matches.opt_get_default(name, Unreadable) {
        Ok(_) => "default",
        Err(Unreadable) => "error",
    });
}

/// Answers the number of occurrences of the option at a place, and one of them.
fn occurrence(matches: &Matches, place: usize, nth: usize, answer: &mut Answer) {
    let occurrences = matches.occurrences_at(place);
    place.put(answer);
    nth.put(answer);
    occurrences.len().put(answer);
    match occurrences.get(nth) {
        Some((position, value)) => {
            position.put(answer);
            value.put(answer);
        }
        None => answer.field("none"),
    }
}

/// Answers whether an option of a list was given, and the first value of one.
fn any(
    alloc: Global,
    matches: &Matches,
    names: &[String],
    answer: &mut Answer,
) -> Result<(), Stop> {
    matches.opts_present(names).put(answer);
    // `collect` wouldn't report a failed first allocation.
    let mut borrowed = Vec::new(alloc);
    for name in names {
        borrowed.push(name.as_str())?;
    }
    if are_defined(matches, names) && all_defined(matches, &borrowed) {
        matches.opts_present_any(&borrowed).put(answer);
        matches.opts_str(alloc, names)?.put(answer);
        matches.opts_str_first(alloc, &borrowed)?.put(answer);
    } else {
        answer.field("undefined");
    }
    Ok(())
}

/// Whether all names are defined.
fn are_defined(matches: &Matches, names: &[String]) -> bool
    ensures { IsTrue result → AreDefined matches.now.groups (map string_bytes names.now) }
{
    for name in names {
        if !matches.opt_defined(name.as_str()) {
            return false;
        }
    }
    true
}

/// Whether all names are defined.
fn all_defined(matches: &Matches, names: &[&str]) -> bool
    ensures { IsTrue result → AreDefined matches.now.groups (texts names.now) }
{
    for name in names {
        if !matches.opt_defined(name) {
            return false;
        }
    }
    true
}
