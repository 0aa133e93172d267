//! Answers about errors, as fields.

use crate::form::{Answer, Field};
use crate::stop::{Stop, WRONG_FIELDS};
use getopts::Fail;
use std::alloc::{AllocError, Global};

/// Answers an error: its kind and its name.
pub fn put_fault(fail: &Fail, answer: &mut Answer) {
    let (kind, name) = match fail {
        Fail::ArgumentMissing(name) => ("ArgumentMissing", name),
        Fail::UnrecognizedOption(name) => ("UnrecognizedOption", name),
        Fail::OptionMissing(name) => ("OptionMissing", name),
        Fail::OptionDuplicated(name) => ("OptionDuplicated", name),
        Fail::UnexpectedArgument(name) => ("UnexpectedArgument", name),
        Fail::OutOfMemory => return answer.stop(Stop::NoMemory),
    };
    answer.field(kind);
    answer.field(name.as_str());
}

/// Answers what the error of a kind prints, whether it prints the same in other formats, and
/// whether it equals its clone.
pub fn printed(alloc: Global, kind: &str, name: &str, answer: &mut Answer) -> Result<(), Stop> {
    let name = String::from_str(alloc, name)?;
    let fail = match kind {
        "ArgumentMissing" => Fail::ArgumentMissing(name),
        "UnrecognizedOption" => Fail::UnrecognizedOption(name),
        "OptionMissing" => Fail::OptionMissing(name),
        "OptionDuplicated" => Fail::OptionDuplicated(name),
        "UnexpectedArgument" => Fail::UnexpectedArgument(name),
        "OutOfMemory" => Fail::OutOfMemory,
        _ => return Err(WRONG_FIELDS),
    };
    fail.to_string(alloc)?.put(answer);
    prints_the_same(alloc, &fail)?.put(answer);
    (fail.clone()? == fail).put(answer);
    Ok(())
}

/// Whether an error prints the same in formats of several widths and precisions.
fn prints_the_same(alloc: Global, fail: &Fail) -> Result<bool, AllocError> {
    let plain = format!(in alloc; "{fail}")?;
    let others = format!(in alloc;
        "{fail:#}|{fail:60}|{fail:>60}|{fail:^60}|{fail:.3}|{fail:<60.3}"
    )?;
    Ok(others.split('|').all(|other| other == plain.as_str()))
}
