//! Tables of options: their lines, and the options that these declare.

ghost use Rattle.std.specs.Prelude.{◌≡◌, ◌++◌, Option, ◌||◌, ◌==◌, slice_index, ◌∷◌, [], ◌<◌, true};
ghost use Rattle.std.specs.Prelude.{drop, length, take};
ghost use Rattle.std.specs.Prelude.{MatchResult, IfErr, IfSome, OnOk, Some, None};
ghost use Rattle.std.specs.List.{list_any};
ghost use Rattle.std.specs.Option.{option_copied, option_to_list};
ghost use Rattle.std.specs.Str.{bytes_eq};
ghost use Rattle.getopts.specs.Names.{Text, is_empty};
ghost use Rattle.getopts_shell.specs.Stored.{entry_of_row, entries_of, operand_of, operands_of};
ghost use Rattle.getopts_shell.specs.Stored.{IsOutOfMemoryOrFault};
ghost use Rattle.getopts_shell.specs.Table.{trimmed, before_gap, from_gap, is_word};
ghost use Rattle.getopts_shell.specs.Table.{begins_gap, begins_item, ends_item, is_gap, is_single_gap};
ghost use Rattle.getopts_shell.specs.Table.{any_has_name, name_again, Entry, OneTableOneList};
ghost use Rattle.getopts_shell.specs.Table.{Declares, DeclaresOptions, IsLineFault, IsTableFault};
ghost use Rattle.getopts_shell.specs.Table.{conflicting_operand, late_operand, name_twice};
ghost use Rattle.getopts_shell.specs.Table.{operand_at, operands_in, Operand as OperandOfTable};

use crate::item::{begins_end, cut_at, row_of};
use crate::operand::{Operand, are_operand, conflicting_operand, is_operand};
use crate::row::Row;
use std::alloc::{AllocError, Global};

/// What a table declares: its options and its operands, in order.
#[derive(Drop)]
pub(crate) struct Table<'t> {
    pub rows: Vec<Row<'t>>,
    pub operands: Vec<Operand<'t>>,
}

/// Why a table is rejected.
#[derive(Drop)]
pub(crate) enum TableError<'t> {
    /// The line with this number isn't an option. Holds its item.
    NoOption(usize, &'t str),
    /// The line with this number has a name that an earlier line has. Holds the name.
    NameTwice(usize, &'t str),
    /// The operand in the line with this number can't follow an earlier one. Holds both.
    LateOperand(usize, Operand<'t>, Operand<'t>),
    /// An allocation failed.
    OutOfMemory,
}

/// A table declares at most one list of options. This is a lemma for proofs, which does nothing.
pub fn one_table_one_list()
    ensures one_list { OneTableOneList }
{}

/// Whether a text is a word instead of a table: it begins with a dash, and contains no blank.
pub(crate) fn is_word(text: &str) -> bool
    ensures { result ≡ is_word text.now }
{
    let bytes = text.as_bytes();
    bytes.starts_with(b"-")
        && !(bytes.contains(&b' ') || bytes.contains(&b'\t') || bytes.contains(&b'\n'))
}

/// The options and operands that a table declares.
pub(crate) fn declared_in<'t>(alloc: Global, text: &'t str) -> Result<Table<'t>, TableError<'t>>
    ensures { MatchResult result
        (λ table. DeclaresOptions text.now (entries_of table.rows.items)
        × (operands_of table.operands.items ≡ operands_in text.now))
        (λ error. IsOutOfMemoryOrFault error (IsTableFault text.now)) }
{
    let mut table = Table {
        rows: Vec::new(alloc),
        operands: Vec::new(alloc),
    };
    let mut number = 0usize;
    for line in text.split('\n') {
        number = number.saturating_add(1);
        push_line(&mut table, number, line)?;
    }
    Ok(table)
}

/// Adds the option or operand that a line declares, if it declares one.
fn push_line<'t>(table: &mut Table<'t>, number: usize, line: &'t str) -> Result<(), TableError<'t>>
    ensures declared { OnOk result ((declared : Option Entry) × Declares number line.now declared
        × (entries_of table.new.rows.items
        ≡ entries_of table.old.rows.items ++ option_to_list declared)
        × IfSome declared (λ entry. name_again (entries_of table.old.rows.items) entry ≡ None)) }
    ensures operands { OnOk result (operands_of table.new.operands.items
        ≡ operands_of table.old.operands.items ++ option_to_list (operand_at line.now)) }
    ensures in_order { OnOk result (IfSome (operand_at line.now)
        (λ operand. conflicting_operand (operands_of table.old.operands.items) operand ≡ None)) }
    ensures fault { IfErr result (λ error. IsOutOfMemoryOrFault error (IsLineFault number
        (entries_of table.old.rows.items) (operands_of table.old.operands.items) line.now)) }
{
    let line = trimmed(line);
    if declares_nothing(line) {
        return Ok(());
    }
    let (item, description) = cut_at_gap(line);
    let item = trimmed(item);
    let description = trimmed(description);
    if is_operand(item) {
        let operand = Operand { item, description };
        return push_operand(&mut table.operands, number, operand);
    }
    match row_of(number, item, description) {
        Some(row) => push_row(&mut table.rows, row),
        None => Err(TableError::NoOption(number, item)),
    }
}

/// Adds the operand of the line with this number, if it may follow those before it.
fn push_operand<'t>(
    operands: &mut Vec<Operand<'t>>,
    number: usize,
    operand: Operand<'t>,
) -> Result<(), TableError<'t>>
    ensures added { OnOk result (operands_of operands.new.items
        ≡ operands_of operands.old.items ++ operand_of operand.entry ∷ []) }
    ensures in_order { OnOk result
        (conflicting_operand (operands_of operands.old.items) (operand_of operand.entry) ≡ None) }
    ensures fault { IfErr result
        (λ error. IsOutOfMemoryOrFault error (λ fault. (earlier : OperandOfTable)
        × (fault ≡ late_operand number (operand_of operand.entry) earlier)
        × (conflicting_operand (operands_of operands.old.items) (operand_of operand.entry)
        ≡ Some earlier))) }
{
    if let Some(earlier) = conflicting_operand(operands, operand) {
        return Err(TableError::LateOperand(number, operand, earlier));
    }
    match operands.push(operand) {
        Ok(()) => Ok(()),
        Err(_) => Err(TableError::OutOfMemory),
    }
}

/// Adds a row, if its names are new.
fn push_row<'t>(rows: &mut Vec<Row<'t>>, row: Row<'t>) -> Result<(), TableError<'t>>
    ensures added { OnOk result (entries_of rows.new.items
        ≡ entries_of rows.old.items ++ entry_of_row row.entry ∷ []) }
    ensures once { OnOk result
        (name_again (entries_of rows.old.items) (entry_of_row row.entry) ≡ None) }
    ensures fault { IfErr result (λ error. IsOutOfMemoryOrFault error (λ fault. (name : Text)
        × (fault ≡ name_twice row.entry.line name)
        × (name_again (entries_of rows.old.items) (entry_of_row row.entry) ≡ Some name))) }
{
    match name_again(rows, row) {
        Some(name) => Err(TableError::NameTwice(row.line, name)),
        None => match rows.push(row) {
            Ok(()) => Ok(()),
            Err(_) => Err(TableError::OutOfMemory),
        },
    }
}

/// Whether a line without blanks at its ends declares nothing.
fn declares_nothing(line: &str) -> bool
    ensures { result ≡ (is_empty line.now || slice_index line.now 0 == 35) }
{
    line.is_empty() || line.starts_with('#')
}

/// The first of a row's names that one of the rows already has, if any.
fn name_again<'t>(rows: &[Row<'t>], row: Row<'t>) -> Option<&'t str>
    ensures { option_copied result ≡ name_again (entries_of rows.now) (entry_of_row row.entry) }
{
    if any_has_name(rows, row.short) {
        Some(row.short)
    } else if any_has_name(rows, row.long) {
        Some(row.long)
    } else {
        None
    }
}

/// Whether one of the rows has this name.
fn any_has_name(rows: &[Row<'_>], name: &str) -> bool
    ensures { result ≡ any_has_name (entries_of rows.now) name.now }
{
    !name.is_empty() && any_is_called(rows, name)
}

/// Whether one of the rows has this text as a name.
fn any_is_called(rows: &[Row<'_>], text: &str) -> bool
    ensures { result
        ≡ list_any (λ row. bytes_eq row.short.now text.now || bytes_eq row.long.now text.now)
        rows.now }
{
    rows.iter().any(|row| row.short == text || row.long == text)
}

/// A text without ASCII white space at both ends.
fn trimmed(text: &str) -> &str
    ensures { result.now ≡ trimmed text.now }
{
    text.trim_ascii()
}

/// A line split before its first gap.
fn cut_at_gap(text: &str) -> (&str, &str)
    ensures before { result.0.now ≡ before_gap text.now }
    ensures after { result.1.now ≡ from_gap text.now }
{
    let bytes = text.as_bytes();
    for at in 0..bytes.len() {
        if has_gap(bytes, at) {
            return (&text[..at], &text[at..]);
        }
    }
    (text, "")
}

/// Whether a line has a gap at this index.
fn has_gap(bytes: &[u8], at: usize) -> bool
    requires { at < length bytes.now }
    ensures is { result ≡ is_gap (take at bytes.now) (drop at bytes.now) }
    ensures ascii { result ≡ true → slice_index bytes.now at < 128 }
{
    // Most bytes aren't blank, and need no closer look.
    is_blank(bytes[at]) && is_gap(&bytes[..at], &bytes[at..])
}

/// Whether a byte is a tab or a space.
fn is_blank(byte: u8) -> bool
    ensures { result ≡ (byte == 9 || byte == 32) }
{
    matches!(byte, b'\t' | b' ')
}

/// Whether a gap is between these bytes of a line.
fn is_gap(before: &[u8], bytes: &[u8]) -> bool
    ensures is { result ≡ is_gap before.now bytes.now }
    ensures ascii { result ≡ true → slice_index bytes.now 0 < 128 }
{
    begins_gap(bytes) || is_single_gap(before, bytes)
}

/// Whether bytes begin with a tab or two spaces.
fn begins_gap(bytes: &[u8]) -> bool
    ensures { result ≡ begins_gap bytes.now }
{
    matches!(bytes, [b'\t', ..] | [b' ', b' ', ..])
}

/// Whether bytes begin with a space after an item, before what doesn't begin like a part of one.
fn is_single_gap(before: &[u8], bytes: &[u8]) -> bool
    ensures { result ≡ is_single_gap before.now bytes.now }
{
    match bytes {
        [b' ', rest @ ..] => ends_item(before) && !begins_item(rest),
        _ => false,
    }
}

/// Whether bytes end like an item whose description needs one space.
fn ends_item(bytes: &[u8]) -> bool
    ensures { result ≡ ends_item bytes.now }
{
    bytes.ends_with(b"]") || bytes.ends_with(b"..") || bytes.ends_with(b"!")
}

/// Whether bytes begin like a part of an item.
fn begins_item(bytes: &[u8]) -> bool
    ensures { result ≡ begins_item bytes.now }
{
    matches!(bytes, [b'[' | b'-', ..])
        || begins_end(bytes)
        || are_operand(cut_at(cut_at(bytes, b' ').0, b'\t').0)
}
