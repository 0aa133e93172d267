//! Operands of a table: the words that aren't options, and how many there may be.

ghost use Rattle.std.specs.Prelude.{◌≡◌, ◌++◌, ◌∷◌, [], codes, map, IfOk, OnOk};
ghost use Rattle.std.specs.List.{AllZip, list_all};
ghost use Rattle.std.specs.Option.{option_map};
ghost use Rattle.std.specs.String.{string_bytes};
ghost use Rattle.getopts.specs.Only.{IsTheOnly};
ghost use Rattle.getopts_shell.specs.Program.{IsOperandRow, continued, free_fault, operand_fault};
ghost use Rattle.getopts_shell.specs.Program.{operand_head, operand_padding};
ghost use Rattle.getopts_shell.specs.Stored.{operand_fault_told, operand_of, operands_of};
ghost use Rattle.getopts_shell.specs.Table.{before, comes_before, conflicting_operand, has_brackets};
ghost use Rattle.getopts_shell.specs.Table.{has_dots};
ghost use Rattle.getopts_shell.specs.Table.{is_needed, is_operand, is_operand_byte, may_repeat};

use crate::item::{begins_capital, cut_at, unopened};
use crate::quote::{push_joined, push_parting};
use getopts::wrap::each_split_within;
use std::alloc::{AllocError, Global};

/// An operand that a line of a table declares.
#[derive(Clone, Copy)]
pub struct Operand<'t> {
    pub item: &'t str,
    pub description: &'t str,
}

/// Why free words don't match the operands.
#[derive(Clone, Copy)]
pub enum OperandError<'t> {
    /// The operand of this name is missing.
    Missing(&'t str),
    /// This word is one too many.
    Unexpected(&'t str),
}

/// Whether an item is an operand.
pub(crate) fn is_operand(item: &str) -> bool
    ensures { result ≡ is_operand item.now }
{
    are_operand(item.as_bytes())
}

/// Whether bytes are an operand.
pub(crate) fn are_operand(item: &[u8]) -> bool
    ensures { result ≡ is_operand item.now }
{
    if !begins_capital(unopened(item)) {
        return false;
    }
    let (front, _) = cut_at(item, b'.');
    let (name, _) = cut_at(unopened(front), b']');
    are_operand_bytes(name) && has_brackets(front) && has_dots(item)
}

/// Whether bytes may be in the name of an operand.
fn are_operand_bytes(bytes: &[u8]) -> bool
    ensures { result ≡ list_all is_operand_byte bytes.now }
{
    bytes.iter().all(|byte| is_operand_byte(*byte))
}

/// Whether a byte may be in the name of an operand.
fn is_operand_byte(byte: u8) -> bool
    ensures { result ≡ is_operand_byte byte }
{
    matches!(byte, b'A'..=b'Z' | b'0'..=b'9' | b'_' | b'-')
}

/// Whether bytes begin with `[` and end in their only `]`, or contain neither.
fn has_brackets(bytes: &[u8]) -> bool
    ensures { result ≡ has_brackets bytes.now }
{
    if bytes.starts_with(b"[") {
        let (_, end) = cut_at(bytes, b']');
        bytes.contains(&b']') && end.is_empty()
    } else {
        !bytes.contains(&b']')
    }
}

/// Whether bytes contain no dots, or only two or three at their end.
fn has_dots(bytes: &[u8]) -> bool
    ensures { result ≡ has_dots bytes.now }
{
    let (_, dots) = cut_at(bytes, b'.');
    !bytes.contains(&b'.') || (bytes.ends_with(b"..") && dots.len() < 3)
}

/// Whether an operand is required.
fn is_needed(operand: Operand<'_>) -> bool
    ensures { result ≡ is_needed (operand_of operand.entry) }
{
    !operand.item.as_bytes().starts_with(b"[")
}

/// Whether an operand may be repeated.
pub(crate) fn may_repeat(operand: Operand<'_>) -> bool
    ensures { result ≡ may_repeat (operand_of operand.entry) }
{
    operand.item.as_bytes().contains(&b'.')
}

/// What precedes the dots of an item.
fn undotted(item: &str) -> &str
    ensures { result.now ≡ before 46 item.now }
{
    match item.split_once('.') {
        Some((front, _)) => front,
        None => item,
    }
}

/// The first of these operands that another one can't follow, if any.
pub(crate) fn conflicting_operand<'t>(
    before: &[Operand<'t>],
    operand: Operand<'_>,
) -> Option<Operand<'t>>
    ensures { option_map operand_of result
        ≡ conflicting_operand (operands_of before.now) (operand_of operand.entry) }
{
    for at in 0..before.len() {
        let other = before[at];
        if !comes_before(other, operand) {
            return Some(other);
        }
    }
    None
}

/// Whether an operand may precede another.
fn comes_before(other: Operand<'_>, operand: Operand<'_>) -> bool
    ensures { result ≡ comes_before (operand_of operand.entry) (operand_of other.entry) }
{
    !may_repeat(other) && (is_needed(other) || !is_needed(operand))
}

/// Why free words don't match these operands, if they don't.
pub(crate) fn free_error<'t>(
    operands: &[Operand<'t>],
    free: &'t [String],
) -> Option<OperandError<'t>>
    ensures { option_map operand_fault_told result
        ≡ free_fault (operands_of operands.now) (map string_bytes free.now) }
{
    if operands.is_empty() {
        return None;
    }
    for at in 0..operands.len() {
        let operand = operands[at];
        if at >= free.len() {
            return missing(operand);
        }
        if may_repeat(operand) {
            return None;
        }
    }
    let count = operands.len();
    if free.len() > count {
        return Some(OperandError::Unexpected(free[count].as_str()));
    }
    None
}

/// The error that an operand is missing, if it is required.
fn missing<'t>(operand: Operand<'t>) -> Option<OperandError<'t>>
    ensures { option_map operand_fault_told result
        ≡ operand_fault (operand_of operand.entry ∷ []) [] }
{
    if is_needed(operand) {
        Some(OperandError::Missing(undotted(operand.item)))
    } else {
        None
    }
}

/// What separates the rows of a description.
const NEXT_ROW: &str = "\n                        ";

/// The columns of an item before its description.
const COLUMNS: usize = 20;

/// The rows of operands with their descriptions.
pub(crate) fn rows_of(alloc: Global, operands: &[Operand<'_>]) -> Result<Vec<String>, AllocError>
    ensures { IfOk result (λ rows. IsTheOnly (AllZip IsOperandRow (operands_of operands.now))
        (map string_bytes rows.items)) }
{
    let mut rows = Vec::with_capacity(alloc, operands.len())?;
    for operand in operands {
        let row = row_of(alloc, *operand)?;
        rows.push(row)?;
    }
    Ok(rows)
}

/// The row of an operand with its description.
fn row_of(alloc: Global, operand: Operand<'_>) -> Result<String, AllocError>
    ensures { IfOk result (λ row.
        IsTheOnly (IsOperandRow (operand_of operand.entry)) (string_bytes row)) }
{
    let description = each_split_within(alloc, operand.description, 54)?;
    let mut text = head_of(alloc, operand.item)?;
    push_joined(&mut text, &description, NEXT_ROW)?;
    Ok(text)
}

/// What precedes the description of an operand.
fn head_of(alloc: Global, item: &str) -> Result<String, AllocError>
    ensures { IfOk result (λ text. string_bytes text ≡ operand_head item.now) }
{
    let mut text = String::from_str(alloc, "    ")?;
    text.push_str(item)?;
    text.push_str(padding_after(item))?;
    Ok(text)
}

/// What separates an item from its description.
fn padding_after(item: &str) -> &'static str
    ensures { result.now ≡ operand_padding item.now }
{
    let columns = item.len();
    if columns < COLUMNS {
        &NEXT_ROW[5 + columns..]
    } else {
        NEXT_ROW
    }
}

/// Appends operands to a usage line, with a space before each; before the first only if `begun`
/// says that something precedes it.
pub(crate) fn push_operands(
    text: &mut String,
    begun: bool,
    operands: &[Operand<'_>],
) -> Result<(), AllocError>
    ensures { OnOk result (string_bytes text.new ≡ string_bytes text.old
        ++ continued begun (codes " ") (map (λ operand. operand.item) (operands_of operands.now))) }
{
    let mut parted = begun;
    for operand in operands {
        push_parting(text, parted, " ")?;
        text.push_str(operand.item)?;
        parted = true;
    }
    Ok(())
}
