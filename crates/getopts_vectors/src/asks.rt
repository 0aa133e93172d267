//! Answers about options, errors, and calls that need neither, as fields.

ghost use Rattle.std.specs.Prelude.{◌≡◌};

use crate::errors::{printed, put_fault};
use crate::form::{Answer, Field, number_of_field};
use crate::iterators::{promised, taken};
use crate::stop::{Stop, UNKNOWN_LINE, WRONG_FIELDS};
use getopts::wrap::each_split_within;
use getopts::{Fail, Options, names_lawful};
use std::alloc::{AllocError, Global};
use std::cell::Cell;

/// Answers a line that asks about options, or needs none.
pub fn ask(
    alloc: Global,
    options: &Options,
    word: &str,
    fields: &[String],
    answer: &mut Answer,
) -> Result<(), Stop> {
    match (word, fields) {
        ("lawful", [short, long]) => names_lawful(short, long).put(answer),
        ("wrap", [limit, desc]) => {
            each_split_within(alloc, desc, number_of_field(limit)?)?.put(answer)
        }
        ("short", [program]) => options.short_usage(alloc, program)?.put(answer),
        ("usage", [brief]) => options.usage(alloc, brief)?.put(answer),
        ("usage_in", [columns, brief]) => {
            options
                .usage_in(alloc, brief, number_of_field(columns)?)?
                .put(answer)
        }
        ("usage_rows", []) => options.usage_rows(alloc)?.put(answer),
        ("rows", []) => formatted_rows(alloc, options, answer)?,
        ("closures", []) => closures(alloc, options, answer)?,
        ("taken", words) => taken(alloc, options, words, answer),
        ("error", [kind, name]) => printed(alloc, kind, name, answer)?,
        ("canonical" | "canonical_words" | "canonical_promised", words) => {
            canonical(&written(alloc, options, word, words), answer)
        }
        ("parse_in_order", words) => match options.parse_in_order(alloc, words) {
            Ok(order) => {
                answer.field("order");
                order.put(answer);
            }
            Err(fail) => refused(&fail, answer),
        },
        _ => return Err(UNKNOWN_LINE),
    }
    Ok(())
}

/// Answers the result of a closure that counts the usage rows, and the rows that it got.
fn formatted_rows(alloc: Global, options: &Options, answer: &mut Answer) -> Result<(), Stop> {
    let mut given = Vec::new(alloc);
    let made = options.usage_with_format(alloc, |rows| {
        given = rows.collect(alloc)?;
        let count = given.len();
        format!(in alloc; "{count} rows")
    })?;
    made.put(answer);
    given.put(answer);
    Ok(())
}

/// Answers the results of closures of `usage_with_format`: of one that counts its rows and of one
/// that takes none, each with the number of its calls, which its own contract limits to one; of one
/// that takes the first row; then whether the error of a closure is returned. No closure is called
/// if an allocation for the rows fails.
fn closures(alloc: Global, options: &Options, answer: &mut Answer) -> Result<(), Stop> {
    let mut calls = 0usize;
    let made = options.usage_with_format(
        alloc,
        |rows|
            requires { calls ≡ 0 }
        {
            calls += 1;
            let count = rows.count();
            format!(in alloc; "{count} rows")
        },
    )?;
    made.put(answer);
    calls.put(answer);
    let mut calls = 0usize;
    let made = options.usage_with_format(
        alloc,
        |_rows|
            requires { calls ≡ 0 }
        {
            calls += 1;
            Ok(String::new(alloc))
        },
    );
    if made.is_err() && calls > 0 {
        return Err(WRONG_FIELDS);
    }
    made?.put(answer);
    calls.put(answer);
    let made = options.usage_with_format(alloc, |mut rows| {
        Ok(rows.next().unwrap_or(String::new(alloc)))
    });
    made?.put(answer);
    let mut fails = false;
    let made = options.usage_with_format(alloc, |_rows| {
        fails = true;
        Err(AllocError)
    });
    if !fails {
        return Err(Stop::NoMemory);
    }
    made.is_err().put(answer);
    Ok(())
}

/// The canonical line of words, from the call with this name.
fn written(
    alloc: Global,
    options: &Options,
    word: &str,
    words: &[String],
) -> Result<Option<Vec<String>>, Fail> {
    match word {
        "canonical" => options.canonical(alloc, words.iter().map(|word| word.as_str())),
        "canonical_promised" => options.canonical(
            alloc,
            promised(words, usize::MAX, &Cell::new(0)),
        ),
        _ => options.canonical_words(alloc, words),
    }
}

/// Answers the canonical line of words.
fn canonical(written: &Result<Option<Vec<String>>, Fail>, answer: &mut Answer) {
    match written {
        Ok(Some(line)) => {
            answer.field("line");
            line.put(answer);
        }
        Ok(None) => answer.field("none"),
        Err(fail) => refused(fail, answer),
    }
}

/// Answers an error, after a field that says so.
fn refused(fail: &Fail, answer: &mut Answer) {
    answer.field("refused");
    put_fault(fail, answer);
}
