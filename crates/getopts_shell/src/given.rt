//! The options of a table that matches give.

ghost use Rattle.std.specs.Prelude.{◌≡◌, ◌&&◌, codes, not};
ghost use Rattle.std.specs.List.{find, list_any};
ghost use Rattle.std.specs.Option.{option_map};
ghost use Rattle.std.specs.Str.{bytes_eq};
ghost use Rattle.getopts.specs.Accessors.{is_present};
ghost use Rattle.getopts.specs.Names.{main_name};
ghost use Rattle.getopts_shell.specs.Completion.{is_required, may_come, takes_argument};
ghost use Rattle.getopts_shell.specs.Program.{asks_help, is_alone, stands_alone};
ghost use Rattle.getopts_shell.specs.Stored.{entries_of, entry_of_row};

use crate::row::{Frequency, Row};
use getopts::{HasArg, Matches};

/// The main name of an option.
pub(crate) fn main_name<'t>(row: Row<'t>) -> &'t str
    ensures { result.now ≡ main_name (entry_of_row row.entry).names }
{
    if row.long.is_empty() {
        row.short
    } else {
        row.long
    }
}

/// Whether an option is offered: it isn't one that must be given exactly once and was given.
pub(crate) fn may_come(matches: &Matches, row: &Row<'_>) -> bool
    ensures { result ≡ may_come matches.now.groups (entry_of_row row.now) }
{
    !(is_required(row.frequency) && is_given(matches, main_name(*row)))
}

/// Whether matches contain an option of this name.
fn is_given(matches: &Matches, name: &str) -> bool
    ensures { result ≡ is_present matches.now.groups name.now }
{
    matches.opt_defined(name) && matches.opt_present(name)
}

/// Whether an option must be given exactly once.
fn is_required(frequency: Frequency) -> bool
    ensures { result ≡ is_required frequency }
{
    matches!(frequency, Frequency::Once)
}

/// Whether a kind takes an argument.
pub(crate) fn takes_argument(kind: HasArg) -> bool
    ensures { result ≡ takes_argument kind }
{
    !matches!(kind, HasArg::No)
}

/// Whether matches ask for help that one of the rows offers.
pub(crate) fn asks_help(rows: &[Row<'_>], matches: &Matches) -> bool
    ensures { result ≡ asks_help (entries_of rows.now) matches.now }
{
    offers_help(rows) && is_given(matches, "help")
}

/// Whether one of the rows is called `help`, and takes no argument.
fn offers_help(rows: &[Row<'_>]) -> bool
    ensures { result ≡ list_any (λ row. bytes_eq row.long.now (codes "help")
        && not (takes_argument row.kind)) rows.now }
{
    rows.iter()
        .any(|row| row.long == "help" && !takes_argument(row.kind))
}

/// The first row that stands alone and that the matches give.
pub(crate) fn first_alone<'t>(rows: &[Row<'t>], matches: &Matches) -> Option<Row<'t>>
    ensures { option_map entry_of_row result ≡ find (is_alone matches.now) (entries_of rows.now) }
{
    for at in 0..rows.len() {
        let row = rows[at];
        if is_alone(row, matches) {
            return Some(row);
        }
    }
    None
}

/// Whether a row stands alone and the matches give it.
fn is_alone(row: Row<'_>, matches: &Matches) -> bool
    ensures { result ≡ is_alone matches.now (entry_of_row row.entry) }
{
    stands_alone(row.frequency) && is_given(matches, main_name(row))
}

/// Whether an option with this occurrence stands alone.
fn stands_alone(frequency: Frequency) -> bool
    ensures { result ≡ stands_alone frequency }
{
    matches!(frequency, Frequency::Alone)
}
