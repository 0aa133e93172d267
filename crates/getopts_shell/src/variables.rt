//! Options as variables of a script: the code that sets them, and why a table's options can't be
//! variables.

ghost use Rattle.std.specs.Prelude.{◌≡◌, ◌++◌, [], length, map, IfOk, OnOk, false, not, slice_get};
ghost use Rattle.std.specs.Prelude.{get_or, None, Some, MatchOption, codes, ⊤};
ghost use Rattle.std.specs.Char.{is_ascii_digit, is_ascii_lowercase};
ghost use Rattle.std.specs.Option.{option_map, option_map_or};
ghost use Rattle.std.specs.List.{find, last_or, list_all, list_any};
ghost use Rattle.std.specs.String.{string_bytes};
ghost use Rattle.std.specs.Str.{IsUtf8, bytes_eq};
ghost use Rattle.getopts.specs.Names.{AreTexts, main_name};
ghost use Rattle.getopts_shell.specs.Quote.{quoted_words};
ghost use Rattle.getopts_shell.specs.Stored.{entries_of, entry_of_row, variable_fault_told};
ghost use Rattle.getopts_shell.specs.Table.{Entry};
ghost use Rattle.getopts_shell.specs.Variables.{AreTextValues, CodeSetsVariables, HoldTexts};
ghost use Rattle.getopts_shell.specs.Variables.{all_values, count_text, occurrences_alone};
ghost use Rattle.getopts_shell.specs.Variables.{given_alone, given_from, holds_all, is_prefix};
ghost use Rattle.getopts_shell.specs.Variables.{is_shell_variable, is_variable, is_variable_byte};
ghost use Rattle.getopts_shell.specs.Variables.{occurrences_stored, option_code};
ghost use Rattle.getopts_shell.specs.Variables.{own_value, prefix_fault, texts_given, value_line};
ghost use Rattle.getopts_shell.specs.Variables.{variable, variable_byte, variable_fault};
ghost use Rattle.getopts_shell.specs.Variables.{variable_of, variables_code, one};

use crate::given::main_name;
use crate::quote::{push_line, push_parting, push_quoted, push_replaced};
use crate::row::{Frequency, Row};
use getopts::{HasArg, Matches, Occurrences};
use std::alloc::{AllocError, Global};

/// How options become variables: the prefix of their names, and whether arrays hold values.
#[derive(Clone, Copy)]
pub(crate) struct Variables<'p> {
    pub prefix: &'p str,
    pub arrays: bool,
}

/// How an option was given.
#[derive(Clone, Copy)]
enum OptionOccurrences<'m> {
    /// As in the matches.
    InMatches(&'m Occurrences<'m>),
    /// Once, without a value.
    Once,
    /// Not at all.
    Never,
}

/// Why the options of a table can't be variables.
#[derive(Clone, Copy)]
pub(crate) enum VariableError<'t> {
    /// Arrays are asked for without variables.
    ArraysOnly,
    /// The name of a variable can't begin with the prefix.
    NoPrefix(&'t str),
    /// The option in the line with this number doesn't make a variable. Holds its main name.
    NoVariable(usize, &'t str),
    /// Without a prefix, the option in the line with this number may make a variable of the shell.
    /// Holds its main name.
    ShellVariable(usize, &'t str),
    /// The option in the line with this number makes the same variable as an earlier one. Holds the
    /// main names of the earlier one and of this one.
    VariableTwice(usize, &'t str, &'t str),
}

/// A lemma for proofs, which does nothing: a shell that runs the code then has the options' values
/// in its variables.
pub fn code_sets_variables()
    ensures sets_variables { CodeSetsVariables }
{}

/// The code that sets a variable for each option of a table, and then the script's words to the
/// free words.
pub(crate) fn variables_code(
    alloc: Global,
    variables: Variables<'_>,
    rows: &[Row<'_>],
    matches: &Matches,
) -> Result<String, AllocError>
    ensures text { IfOk result (λ text. string_bytes text
        ≡ variables_code variables.entry.prefix.now variables.entry.arrays
        (given_from 0 (entries_of rows.now) matches.now.groups) matches.now.free) }
    ensures values { OnOk result (HoldTexts
        (given_from 0 (entries_of rows.now) matches.now.groups)) }
    ensures free { OnOk result (AreTexts matches.now.free) }
{
    let mut text = String::new(alloc);
    for (place, row) in rows.iter().enumerate() {
        push_option(
            alloc,
            &mut text,
            variables,
            *row,
            OptionOccurrences::InMatches(&matches.occurrences_at(place)),
        )?;
    }
    push_line(&mut text, &matches.free)?;
    Ok(text)
}

/// The code that sets variables if only this option is given, once and without a value.
pub(crate) fn alone_code(
    alloc: Global,
    variables: Variables<'_>,
    rows: &[Row<'_>],
    alone: Row<'_>,
) -> Result<String, AllocError>
    ensures { IfOk result (λ text. string_bytes text
        ≡ variables_code variables.entry.prefix.now variables.entry.arrays
        (given_alone (entries_of rows.now) (entry_of_row alone.entry)) []) }
{
    let mut text = String::new(alloc);
    for row in rows {
        push_option(
            alloc,
            &mut text,
            variables,
            *row,
            occurrences_alone(*row, alone),
        )?;
    }
    push_line(&mut text, &[])?;
    Ok(text)
}

/// How an option was given if only this one is.
fn occurrences_alone(row: Row<'_>, alone: Row<'_>) -> OptionOccurrences<'static>
    ensures { occurrences_stored result
        ≡ occurrences_alone (entry_of_row row.entry) (entry_of_row alone.entry) }
{
    if main_name(row) == main_name(alone) {
        OptionOccurrences::Once
    } else {
        OptionOccurrences::Never
    }
}

/// Appends the commands for an option: its variable is unset, and then set if it has a value.
fn push_option(
    alloc: Global,
    text: &mut String,
    variables: Variables<'_>,
    row: Row<'_>,
    given: OptionOccurrences<'_>,
) -> Result<(), AllocError>
    ensures text { OnOk result (string_bytes text.new ≡ string_bytes text.old
        ++ option_code variables.entry.prefix.now variables.entry.arrays
        record { entry = entry_of_row row.entry; occurrences = occurrences_stored given.entry }) }
    ensures values { OnOk result
        (AreTextValues row.entry.kind (holds_all row.entry.frequency)
        (occurrences_stored given.entry)) }
{
    push_unset(text, variables.prefix, main_name(row))?;
    push_option_value(alloc, text, variables, row, given)
}

/// Appends the command that unsets a variable.
fn push_unset(text: &mut String, prefix: &str, name: &str) -> Result<(), AllocError>
    ensures { OnOk result (string_bytes text.new ≡ string_bytes text.old
        ++ (codes "\\unset -v " ++ (variable prefix.now name.now ++ codes "\n"))) }
{
    text.push_str("\\unset -v ")?;
    push_variable(text, prefix, name)?;
    text.push('\n')
}

/// Appends the command that sets the variable of an option, if it has a value.
fn push_option_value(
    alloc: Global,
    text: &mut String,
    variables: Variables<'_>,
    row: Row<'_>,
    given: OptionOccurrences<'_>,
) -> Result<(), AllocError>
    ensures text { OnOk result (string_bytes text.new ≡ string_bytes text.old
        ++ value_line (variable_of variables.entry.prefix.now (entry_of_row row.entry))
        (own_value variables.entry.arrays
        record { entry = entry_of_row row.entry; occurrences = occurrences_stored given.entry })) }
    ensures values { OnOk result
        (AreTextValues row.entry.kind (holds_all row.entry.frequency)
        (occurrences_stored given.entry)) }
{
    let name = main_name(row);
    match (row.kind, row.frequency) {
        (HasArg::No, _) => push_count(alloc, text, variables.prefix, name, count(given)),
        (_, Frequency::All) => push_all(alloc, text, variables, name, given),
        _ => push_last(text, variables.prefix, name, given),
    }
}

/// Appends the command that sets a variable to how often an option was given, or to the empty text
/// if it was not, so that a shell can test it.
fn push_count(
    alloc: Global,
    text: &mut String,
    prefix: &str,
    name: &str,
    count: usize,
) -> Result<(), AllocError>
    ensures { OnOk result (string_bytes text.new ≡ string_bytes text.old
        ++ value_line (variable prefix.now name.now) (Some (one (count_text count)))) }
{
    if count == 0 {
        return push_value(text, prefix, name, "");
    }
    let count = format!(in alloc; "{count}")?;
    push_value(text, prefix, name, count.as_str())
}

/// Appends the command that sets a variable to the value of an option's last occurrence, if it has
/// one.
#[tactic(auto, using(crate::proofs::Assignments::last_given))]
fn push_last(
    text: &mut String,
    prefix: &str,
    name: &str,
    given: OptionOccurrences<'_>,
) -> Result<(), AllocError>
    ensures text { OnOk result (string_bytes text.new ≡ string_bytes text.old
        ++ value_line (variable prefix.now name.now)
        (option_map one (last_or None (texts_given (occurrences_stored given.entry))))) }
    ensures values { OnOk result (MatchOption
        (last_or None (texts_given (occurrences_stored given.entry))) ⊤ IsUtf8) }
{
    let count = count(given);
    if count == 0 {
        return Ok(());
    }
    push_value(text, prefix, name, text_at(given, count - 1))
}

/// Appends the command that sets a variable to a text.
fn push_value(text: &mut String, prefix: &str, name: &str, value: &str) -> Result<(), AllocError>
    ensures { OnOk result (string_bytes text.new ≡ string_bytes text.old
        ++ value_line (variable prefix.now name.now) (Some (one value.now))) }
{
    push_variable(text, prefix, name)?;
    text.push('=')?;
    push_quoted(text, value)?;
    text.push('\n')
}

/// Appends the command that sets a variable to all values of an option, as words in quotes or as an
/// array. `${NAME+}` adds no word. Without it, the Korn shell takes a first word such as `typeset`
/// for a declaration, and doesn't take `()` for an array.
fn push_all(
    alloc: Global,
    text: &mut String,
    variables: Variables<'_>,
    name: &str,
    given: OptionOccurrences<'_>,
) -> Result<(), AllocError>
    ensures text { OnOk result (string_bytes text.new ≡ string_bytes text.old
        ++ value_line (variable variables.entry.prefix.now name.now)
        (Some (all_values variables.entry.arrays (occurrences_stored given.entry)))) }
    ensures values { OnOk result (AreTexts (texts_given (occurrences_stored given.entry))) }
{
    let mut words = String::new(alloc);
    push_texts(&mut words, given)?;
    if !variables.arrays {
        return push_value(text, variables.prefix, name, words.as_str());
    }
    push_variable(text, variables.prefix, name)?;
    text.push_str("=(${")?;
    push_variable(text, variables.prefix, name)?;
    text.push_str("+} ")?;
    text.push_str(words.as_str())?;
    text.push_str(")\n")
}

/// Appends the values of occurrences as words in quotes, with an empty text for one that has none.
fn push_texts(text: &mut String, given: OptionOccurrences<'_>) -> Result<(), AllocError>
    ensures text { OnOk result (string_bytes text.new ≡ string_bytes text.old
        ++ quoted_words (texts_given (occurrences_stored given.entry))) }
    ensures values { OnOk result (AreTexts (texts_given (occurrences_stored given.entry))) }
{
    for nth in 0..count(given) {
        push_parting(text, nth > 0, " ")?;
        push_quoted(text, text_at(given, nth))?;
    }
    Ok(())
}

/// How many occurrences there are.
fn count(given: OptionOccurrences<'_>) -> usize
    ensures { result ≡ length (occurrences_stored given.entry) }
{
    match given {
        OptionOccurrences::InMatches(occurrences) => occurrences.len(),
        OptionOccurrences::Once => 1,
        OptionOccurrences::Never => 0,
    }
}

/// The value of one of the occurrences, or an empty text if it has none.
#[tactic(auto, using(crate::proofs::Assignments::text_of))]
fn text_at<'m>(given: OptionOccurrences<'m>, nth: usize) -> &'m str
    ensures { result.now ≡ get_or (texts_given (occurrences_stored given.entry)) nth [] }
{
    match given {
        OptionOccurrences::InMatches(occurrences) => match occurrences.get(nth) {
            Some((_, Some(value))) => value,
            _ => "",
        },
        _ => "",
    }
}

/// Appends the variable for a main name: the prefix, and the name with `_` for each `-`.
fn push_variable(text: &mut String, prefix: &str, name: &str) -> Result<(), AllocError>
    ensures { OnOk result (string_bytes text.new
        ≡ string_bytes text.old ++ variable prefix.now name.now) }
{
    text.push_str(prefix)?;
    push_replaced(text, name, '-', "_")?;
    Ok(())
}

/// Why a prefix and the options of a table don't make variables, if they don't.
pub(crate) fn variable_error<'t>(prefix: &'t str, rows: &[Row<'t>]) -> Option<VariableError<'t>>
    ensures { option_map variable_fault_told result
        ≡ prefix_fault prefix.now (entries_of rows.now) }
{
    if !is_prefix(prefix) {
        return Some(VariableError::NoPrefix(prefix));
    }
    for place in 0..rows.len() {
        if let Some(error) = row_error(prefix, &rows[..place], rows[place]) {
            return Some(error);
        }
    }
    None
}

/// Why a row after others doesn't make a variable of its own, if it doesn't.
fn row_error<'t>(prefix: &str, before: &[Row<'t>], row: Row<'t>) -> Option<VariableError<'t>>
    ensures { option_map variable_fault_told result
        ≡ variable_fault prefix.now (entries_of before.now) (entry_of_row row.entry) }
{
    let name = main_name(row);
    if !makes_variable(prefix, name) {
        return Some(VariableError::NoVariable(row.line, name));
    }
    if is_shell_variable(prefix, name) {
        return Some(VariableError::ShellVariable(row.line, name));
    }
    match row_with_variable(before, name) {
        Some(earlier) => Some(VariableError::VariableTwice(row.line, main_name(earlier), name)),
        None => None,
    }
}

/// Whether a variable may be one that shells or other programs use.
fn is_shell_variable(prefix: &str, name: &str) -> bool
    ensures { result ≡ is_shell_variable prefix.now name.now }
{
    prefix.is_empty() && name.len() > 1 && !holds_lowercase(name)
}

/// Whether a text contains a small letter.
fn holds_lowercase(text: &str) -> bool
    ensures { result ≡ list_any is_ascii_lowercase text.now }
{
    text.bytes().any(|byte| matches!(byte, b'a'..=b'z'))
}

/// Whether a variable's name may begin with a text.
fn is_prefix(prefix: &str) -> bool
    ensures { result ≡ is_prefix prefix.now }
{
    prefix.is_empty() || makes_variable(prefix, "")
}

/// Whether a prefix and a main name make a variable.
#[tactic(auto, using(crate::proofs::Assignments::variable_parts))]
fn makes_variable(prefix: &str, name: &str) -> bool
    ensures { result ≡ is_variable (variable prefix.now name.now) }
{
    begins_variable(prefix, name) && are_variable_bytes(prefix) && make_variable_bytes(name)
}

/// Whether a variable's name may contain each byte of a text.
fn are_variable_bytes(text: &str) -> bool
    ensures { result ≡ list_all is_variable_byte text.now }
{
    text.bytes().all(is_variable_byte)
}

/// Whether a variable's name may contain each byte of a main name, with `_` for each `-`.
fn make_variable_bytes(name: &str) -> bool
    ensures { result ≡ list_all (λ byte. is_variable_byte (variable_byte byte)) name.now }
{
    name.bytes()
        .all(|byte| is_variable_byte(variable_byte(byte)))
}

/// Whether a prefix and a main name don't begin with a digit, and aren't both empty.
fn begins_variable(prefix: &str, name: &str) -> bool
    ensures { result ≡ option_map_or (λ byte. not (is_ascii_digit byte))
        (slice_get (variable prefix.now name.now) 0) false }
{
    match (prefix.as_bytes(), name.as_bytes()) {
        ([first, ..], _) | ([], [first, ..]) => !first.is_ascii_digit(),
        _ => false,
    }
}

/// Whether a variable's name may contain a byte: a letter, a digit or `_`.
fn is_variable_byte(byte: u8) -> bool
    ensures { result ≡ is_variable_byte byte }
{
    byte.is_ascii_alphanumeric() || byte == b'_'
}

/// The first of the rows that makes the same variable as a main name, if any.
fn row_with_variable<'t>(rows: &[Row<'t>], name: &str) -> Option<Row<'t>>
    ensures { option_map entry_of_row result ≡ find (λ (entry : Entry). bytes_eq
        (map variable_byte (main_name entry.names)) (map variable_byte name.now))
        (entries_of rows.now) }
{
    for at in 0..rows.len() {
        let row = rows[at];
        if same_variable(main_name(row), name) {
            return Some(row);
        }
    }
    None
}

/// Whether two main names make the same variable.
fn same_variable(name: &str, other: &str) -> bool
    ensures { result ≡ bytes_eq (map variable_byte name.now) (map variable_byte other.now) }
{
    let bytes = name.as_bytes();
    let others = other.as_bytes();
    if bytes.len() != others.len() {
        return false;
    }
    for at in 0..bytes.len() {
        if variable_byte(bytes[at]) != variable_byte(others[at]) {
            return false;
        }
    }
    true
}

/// A byte of a main name, as it is in a variable's name.
fn variable_byte(byte: u8) -> u8
    ensures { result ≡ variable_byte byte }
{
    if byte == b'-' { b'_' } else { byte }
}
