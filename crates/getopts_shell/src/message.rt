//! The messages of errors: one line each.

ghost use Rattle.std.specs.Prelude.{◌≡◌, ◌<◌, ◌++◌, IfOk, OnOk, Some};
ghost use Rattle.std.specs.String.{string_bytes};
ghost use Rattle.getopts.specs.Fail.{Fault, fault_of};
ghost use Rattle.getopts_shell.specs.Program.{error_line, escaped, escaped_char, fault_line};
ghost use Rattle.getopts_shell.specs.Program.{is_control, number_of, octal, operand_fault_line};
ghost use Rattle.getopts_shell.specs.Program.{table_fault_line, variable_fault_line};
ghost use Rattle.getopts_shell.specs.Stored.{fault_told, operand_fault_told, operand_of};
ghost use Rattle.getopts_shell.specs.Stored.{variable_fault_told};
ghost use Rattle.getopts_shell.specs.Table.{TableFault, late_operand};

use crate::item::reason_of;
use crate::operand::{Operand, OperandError, may_repeat};
use crate::table::TableError;
use crate::variables::VariableError;
use getopts::Fail;
use std::alloc::{AllocError, Global};

/// The first mark, that of byte 128.
const FIRST_MARK: u32 = 0x10_FF80;

/// The difference between a mark and its byte.
const ADDED: u32 = 0x10_FF00;

/// Appends the line for an error.
pub(crate) fn push_error(text: &mut String, alloc: Global, error: &str) -> Result<(), AllocError>
    ensures { OnOk result (string_bytes text.new ≡ string_bytes text.old ++ error_line error.now) }
{
    push_escaped(text, alloc, error)?;
    text.push('\n')
}

/// Appends a text as errors show it, without control characters.
pub(crate) fn push_escaped(text: &mut String, alloc: Global, other: &str) -> Result<(), AllocError>
    ensures { OnOk result (string_bytes text.new ≡ string_bytes text.old ++ escaped other.now) }
{
    for char in other.chars() {
        push_escaped_char(text, alloc, char)?;
    }
    Ok(())
}

/// Appends a character as errors show it.
fn push_escaped_char(text: &mut String, alloc: Global, char: char) -> Result<(), AllocError>
    ensures { OnOk result (string_bytes text.new ≡ string_bytes text.old ++ escaped_char char) }
{
    let number = number_of(char);
    if is_control(number) {
        let digits = octal(alloc, number)?;
        text.push_str(digits.as_str())
    } else {
        text.push(char)
    }
}

/// The number of a character, or the byte that it marks.
fn number_of(char: char) -> u32
    ensures { result ≡ number_of char }
{
    let number = u32::from(char);
    if number >= FIRST_MARK {
        number - ADDED
    } else {
        number
    }
}

/// Whether it is the number of a control character.
fn is_control(number: u32) -> bool
    ensures { result ≡ is_control number }
{
    matches!(number, 0..=31 | 127..=159)
}

/// A number below 512 as `\` and three octal digits.
fn octal(alloc: Global, number: u32) -> Result<String, AllocError>
    ensures { IfOk result (λ text. string_bytes text ≡ octal number) }
{
    let first = number / 64;
    let second = number / 8 % 8;
    let third = number % 8;
    format!(in alloc; "\\{first}{second}{third}")
}

/// The text of an error, after a name.
pub(crate) fn fault_line(alloc: Global, name: &str, fail: &Fail) -> Result<String, AllocError>
    ensures { IfOk result (λ text. (fault : Fault) × (fault_of fail.now ≡ Some fault)
        × (string_bytes text ≡ fault_line name.now fault)) }
{
    match fail {
        Fail::OutOfMemory => Err(AllocError),
        _ => format!(in alloc; "{name}: {fail}"),
    }
}

/// The text of an error in a table.
pub(crate) fn table_refusal(alloc: Global, error: TableError<'_>) -> Result<String, AllocError>
    ensures { IfOk result (λ text. (fault : TableFault) × (fault_told error.entry ≡ Some fault)
        × (string_bytes text ≡ table_fault_line fault)) }
{
    match error {
        TableError::NoOption(number, item) => {
            let reason = reason_of(item);
            format!(in alloc; "getopts_shell: line {number} of the table: {item}: {reason}")
        }
        TableError::NameTwice(number, name) => format!(in alloc;
            "getopts_shell: line {number} of the table: \
             the name '{name}' is already used on an earlier line"
        ),
        TableError::LateOperand(number, operand, earlier) => {
            late_operand_line(alloc, number, operand, earlier)
        }
        TableError::OutOfMemory => Err(AllocError),
    }
}

/// The text of the error that an operand can't follow an earlier one.
fn late_operand_line(
    alloc: Global,
    number: usize,
    operand: Operand<'_>,
    earlier: Operand<'_>,
) -> Result<String, AllocError>
    ensures { IfOk result (λ text. string_bytes text ≡ table_fault_line
        (late_operand number (operand_of operand.entry) (operand_of earlier.entry))) }
{
    let item = operand.item;
    let other = earlier.item;
    if may_repeat(earlier) {
        format!(in alloc;
            "getopts_shell: line {number} of the table: \
             {item}: no operand may follow '{other}', which has dots"
        )
    } else {
        format!(in alloc;
            "getopts_shell: line {number} of the table: \
             {item}: no required operand may follow '{other}', which is optional"
        )
    }
}

/// The text of an error about variables.
pub(crate) fn variable_refusal(
    alloc: Global,
    error: VariableError<'_>,
) -> Result<String, AllocError>
    ensures { IfOk result (λ text.
        string_bytes text ≡ variable_fault_line (variable_fault_told error.entry)) }
{
    match error {
        VariableError::ArraysOnly => {
            format!(in alloc; "getopts_shell: --arrays requires --variables")
        }
        VariableError::NoPrefix(prefix) => format!(in alloc;
            "getopts_shell: the prefix '{prefix}' can't begin a variable name \
             (ASCII letters, digits and '_', no digit first)"
        ),
        VariableError::NoVariable(number, name) => format!(in alloc;
            "getopts_shell: line {number} of the table: \
             the option '{name}' doesn't make a valid variable name \
             (ASCII letters, digits and '_', no digit first)"
        ),
        VariableError::ShellVariable(number, name) => format!(in alloc;
            "getopts_shell: line {number} of the table: \
             without a prefix, the option '{name}' may set a variable of the shell: \
             choose a prefix, such as opt_"
        ),
        VariableError::VariableTwice(number, earlier, name) => format!(in alloc;
            "getopts_shell: line {number} of the table: \
             the options '{earlier}' and '{name}' would have the same variable"
        ),
    }
}

/// The text of an error of free words, after a name.
pub(crate) fn operand_fault_line(
    alloc: Global,
    name: &str,
    error: OperandError<'_>,
) -> Result<String, AllocError>
    ensures { IfOk result (λ text.
        string_bytes text ≡ operand_fault_line name.now (operand_fault_told error.entry)) }
{
    match error {
        OperandError::Missing(operand) => {
            format!(in alloc; "{name}: Operand '{operand}' missing")
        }
        OperandError::Unexpected(word) => {
            format!(in alloc; "{name}: Unexpected operand: '{word}'")
        }
    }
}
