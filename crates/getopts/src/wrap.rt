//! Descriptions in rows: each line is broken into as few rows as its words allow.

ghost use Rattle.std.specs.Prelude.{◌≡◌, ◌++◌, [], map, string_bytes, IfOk, IsOk, OnOk};
ghost use Rattle.getopts.specs.Wrap.{BreaksInto, IsDescriptionRows, IsFewestBreaking};
ghost use Rattle.getopts.specs.Wrap.{text_of, words_of};
ghost use Rattle.getopts.specs.UsageResults.{description_rows, runs_of};
ghost use Rattle.getopts.specs.Only.{IsTheOnly};

use std::alloc::{AllocError, Global};
use unicode_width::UnicodeWidthStr;

/// Breaks a description into rows of at most `lim` columns.
///
/// The description is split into lines at U+000A, and each line into words at white space. The
/// words of a line fill its rows in order, separated by one space:
///
/// - A word joins the current row if the row then has at most `lim` columns. Otherwise, it begins a
///   new row.
/// - A word wider than `lim` has a row of its own. With a `lim` of 0, every word has.
/// - A line without words has no rows.
///
/// No other way to break a line into fitting rows has fewer rows.
///
/// Columns are counted by `unicode_width` for each word by itself, plus one for each space between
/// words. They aren't bytes: `日本` has six bytes and four columns. `lim` may be any number up to
/// `usize::MAX`.
///
/// ```
/// let rows = wrap::each_split_within(alloc, "\nMary had a little lamb\nLittle lamb\n", 15)?;
/// // "Mary had a", "little lamb", "Little lamb"
/// ```
///
/// Fails only if an allocation fails.
///
/// In the Rust crate this function is private, can't fail, and measures the row so far as one text.
/// Here it is public and measures word by word; it promises nothing about the width of a row as one
/// text.
pub fn each_split_within(alloc: Global, desc: &str, lim: usize) -> Result<Vec<String>, AllocError>
    // These are the only rows of the description. In each line, every row fits or is one word, and
    // no row has room for the next word.
    ensures rows { IfOk result (λ rows.
        IsTheOnly (IsDescriptionRows lim desc.now) (map string_bytes rows.items)) }

    ensures result { IfOk result (λ rows.
        map string_bytes rows.items ≡ description_rows lim desc.now) }

    // No fitting way to break the words of a line has fewer rows.
    ensures fewest { IfOk result (λ rows.
        BreaksInto (IsFewestBreaking lim) desc.now (map string_bytes rows.items)) }
    ensures absent { description_rows lim desc.now ≡ [] → IsOk result }
{
    let mut rows = Vec::new(alloc);
    for line in desc.split('\n') {
        push_line(alloc, &mut rows, line, lim)?;
    }
    Ok(rows)
}

/// Appends the rows of one line. If an allocation fails, the contract says nothing about the rows.
fn push_line(
    alloc: Global,
    rows: &mut Vec<String>,
    line: &str,
    lim: usize,
) -> Result<(), AllocError>
    ensures rows { OnOk result (map string_bytes rows.new.items
        ≡ map string_bytes rows.old.items ++ map text_of (runs_of lim (words_of line.now))) }
    ensures absent { words_of line.now ≡ [] → IsOk result }
{
    let mut words = line.split_whitespace();
    let first = match words.next() {
        Some(first) => first,
        None => return Ok(()),
    };
    let mut row = String::from_str(alloc, first)?;
    let mut columns = first.width();
    for word in words {
        let width = word.width();
        if columns < lim && width < lim - columns {
            row.push(' ')?;
            columns += 1 + width;
        } else {
            rows.push(row)?;
            row = String::new(alloc);
            columns = width;
        }
        row.push_str(word)?;
    }
    rows.push(row)?;
    Ok(())
}
