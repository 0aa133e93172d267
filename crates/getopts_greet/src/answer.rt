//! What the greeter prints for its words, and its exit status.

ghost use Rattle.std.specs.Prelude.{◌≡◌, ◌≢◌, map, Err, IfOk, OnOk};
ghost use Rattle.std.specs.Io.KnownBytes.{Appends};
ghost use Rattle.std.specs.String.{string_bytes};
ghost use Rattle.getopts_greet.specs.Answer.{IsAnswerOf, IsAnswerTo, Shows, asked_text, greeting_text};

use crate::greeting::{Greeting, Refusal, Request, help_text, read};
use std::alloc::{AllocError, Global};
use std::convert::AsStr;
use std::io;
use std::io::Write;

/// The status if the words were accepted.
const DONE: u8 = 0;

/// The status if the words were rejected.
const REFUSED: u8 = 2;

/// The status if memory ran out, a word wasn't UTF-8, or a write failed.
pub const FAILED: u8 = 3;

/// What the greeter prints, and its exit status.
#[derive(Drop)]
struct Output {
    text: String,
    status: u8,
}

/// Prints what the words ask for to `out`, or why they were rejected to `err`, and returns the exit
/// status.
pub fn answer<S: AsStr, W: Write, E: Write>(
    alloc: Global,
    words: &[S],
    out: &mut W,
    err: &mut E,
) -> io::Result<u8>
    ensures done { IfOk result (λ status. status ≡ 0
        → Shows (W.contents out.old) (W.contents out.new) (map S.text words.now) status) }
    ensures refused { IfOk result (λ status. status ≢ 0
        → Shows (E.contents err.old) (E.contents err.new) (map S.text words.now) status) }
    ensures no_error { IfOk result (λ status. status ≡ 0 → err.new ≡ err.old) }
    ensures no_output { IfOk result (λ status. status ≢ 0 → out.new ≡ out.old) }
{
    let answer = answer_to(alloc, words)?;
    if answer.status == DONE {
        print(out, answer.text.as_str())?;
    } else {
        print(err, answer.text.as_str())?;
    }
    Ok(answer.status)
}

/// Writes a text, and flushes it.
fn print<W: Write>(out: &mut W, text: &str) -> io::Result<()>
    ensures { OnOk result (Appends (W.contents out.old) (W.contents out.new) text.now) }
{
    out.write_all(text.as_bytes())?;
    out.flush()
}

/// What the greeter prints for its words.
fn answer_to<S: AsStr>(alloc: Global, words: &[S]) -> Result<Output, AllocError>
    ensures { IfOk result (λ answer.
        IsAnswerTo (map S.text words.now) (string_bytes answer.text) answer.status) }
{
    match read(alloc, words) {
        Ok(asked) => Ok(Output {
            text: asked_text(alloc, &asked)?,
            status: DONE,
        }),
        Err(refusal) => Ok(Output {
            text: refusal_text(alloc, &refusal)?,
            status: REFUSED,
        }),
    }
}

/// The help, the version, or the greeting, repeated as often as requested.
fn asked_text(alloc: Global, asked: &Request<Greeting>) -> Result<String, AllocError>
    ensures { IfOk result (λ text. string_bytes text ≡ asked_text asked.now) }
{
    match asked {
        Request::Help => help_text(alloc),
        Request::Version => String::from_str(alloc, "getopts_greet 1.0\n"),
        Request::Parsed(greeting) => greeting_text(alloc, greeting),
    }
}

/// The greeting, repeated as often as requested.
fn greeting_text(alloc: Global, greeting: &Greeting) -> Result<String, AllocError>
    ensures { IfOk result (λ text. string_bytes text ≡ greeting_text greeting.now) }
{
    let line = format!(in alloc; "hello {}\n", greeting.name)?;
    line.repeat(alloc, greeting.times.unwrap_or(1) as usize)
}

/// Why the words were rejected.
fn refusal_text(alloc: Global, refusal: &Refusal) -> Result<String, AllocError>
    ensures { IfOk result (λ text. IsAnswerOf (Err refusal.now) (string_bytes text) 2) }
{
    match refusal {
        Refusal::OutOfMemory => Err(AllocError),
        Refusal::Line(fail) => format!(in alloc; "getopts_greet: {fail}\n"),
        Refusal::Number(_) => String::from_str(
            alloc,
            "getopts_greet: --times takes a number up to 4294967295\n",
        ),
    }
}
