//! The state of a case, and what each line does to it.

ghost use Rattle.std.specs.Prelude.{map};
ghost use Rattle.std.specs.String.{string_bytes};
ghost use Rattle.getopts.specs.Names.{AreLawful};
ghost use Rattle.getopts.specs.Parse.{ReturnsResult};
ghost use Rattle.getopts.specs.Results.{parse_result};

use crate::errors::put_fault;
use crate::form::{Answer, Field};
use crate::iterators::promised;
use crate::stop::{NO_CASE, Stop, UNKNOWN_LINE, UNLAWFUL_NAMES, WRONG_FIELDS};
use crate::{accessors, asks};
use getopts::{HasArg, Occur, Options, ParsingStyle, names_lawful};
use std::alloc::{AllocError, Global};
use std::cell::Cell;

/// Options, and the result of the last words, if any.
struct Side {
    options: Options,
    read: Option<getopts::Result>,
}

/// Written by hand, so that dropping what contains a side calls it.
impl Drop for Side {
    fn drop(self) {
        let Side {
            options: _,
            read: _,
        } = self;
    }
}

impl Side {
    fn new(alloc: Global) -> Side {
        Side {
            options: Options::new(alloc),
            read: None,
        }
    }

    fn copied(&self) -> Result<Side, AllocError> {
        let options = self.options.clone()?;
        let read = copy_of(&self.read)?;
        Ok(Side { options, read })
    }
}

/// A copy of the result of words.
fn copy_of(read: &Option<getopts::Result>) -> Result<Option<getopts::Result>, AllocError> {
    match read {
        None => Ok(None),
        Some(Ok(matches)) => Ok(Some(Ok(matches.clone()?))),
        Some(Err(fail)) => Ok(Some(Err(fail.clone()?))),
    }
}

/// Whether the words of two sides have equal results.
fn same_reads(read: &Option<getopts::Result>, other: &Option<getopts::Result>) -> bool {
    match (read, other) {
        (None, None) => true,
        (Some(Ok(matches)), Some(Ok(others))) => matches == others,
        (Some(Err(fail)), Some(Err(other))) => fail == other,
        _ => false,
    }
}

/// The state of a case.
#[derive(Drop)]
pub struct Session {
    begun: bool,
    side: Side,
    kept: Option<Side>,
}

impl Session {
    pub fn new(alloc: Global) -> Session {
        Session {
            begun: false,
            side: Side::new(alloc),
            kept: None,
        }
    }

    /// Begins a case.
    pub fn begin(&mut self, alloc: Global) {
        *self = Session {
            begun: true,
            ..Session::new(alloc)
        };
    }

    /// Executes a line, given its word and its fields, and makes its answer.
    pub fn answer(
        &mut self,
        alloc: Global,
        word: &str,
        fields: &[String],
        answer: &mut Answer,
    ) -> Result<(), Stop> {
        if !self.begun {
            return Err(NO_CASE);
        }
        match (word, fields) {
            ("keep", []) => self.kept = Some(self.side.copied()?),
            ("anew", []) => self.side = Side::new(alloc),
            ("style", [style]) => self.set_style(style)?,
            ("mode", [mode]) => self.set_mode(mode)?,
            ("chained", []) => chained(&mut self.side.options)?,
            ("clear", []) => self.clear(answer)?,
            (
                "words" | "parse_words" | "parse_promised" | "ignoring_counts" | "check_counts",
                words,
            ) => {
                let read = read_by(alloc, &self.side.options, word, words);
                self.keep_read(read, answer);
            }
            _ if declares(word) => declare(&mut self.side.options, word, fields)?,
            _ => self.ask(alloc, word, fields, answer)?,
        }
        Ok(())
    }

    fn set_style(&mut self, style: &str) -> Result<(), Stop> {
        self.side.options.parsing_style(match style {
            "floating" => ParsingStyle::FloatingFrees,
            "stop" => ParsingStyle::StopAtFirstFree,
            _ => return Err(WRONG_FIELDS),
        });
        Ok(())
    }

    fn set_mode(&mut self, mode: &str) -> Result<(), Stop> {
        self.side.options.long_only(match mode {
            "ordinary" => false,
            "long-only" => true,
            _ => return Err(WRONG_FIELDS),
        });
        Ok(())
    }

    /// Keeps the result of words, and answers it.
    fn keep_read(&mut self, read: getopts::Result, answer: &mut Answer) {
        put_read(&read, answer);
        self.side.read = Some(read);
    }

    /// Empties the free words, and answers the result of the last words.
    fn clear(&mut self, answer: &mut Answer) -> Result<(), Stop> {
        let Some(read) = &mut self.side.read else {
            return Err(WRONG_FIELDS);
        };
        if let Ok(matches) = read {
            matches.free.clear();
        }
        put_read(read, answer);
        Ok(())
    }

    /// Answers a question with a line.
    fn ask(
        &self,
        alloc: Global,
        word: &str,
        fields: &[String],
        answer: &mut Answer,
    ) -> Result<(), Stop> {
        answer.word(word);
        match (word, fields, &self.side.read) {
            ("same", [what], _) => self.same(what, answer)?,
            ("error", [], Some(Err(fail))) => fail.to_string(alloc)?.put(answer),
            ("error", [], _) => answer.field("nothing"),
            (_, _, Some(Ok(matches))) if accessors::has(word) => {
                accessors::ask(alloc, matches, word, fields, answer)?
            }
            _ if accessors::has(word) => answer.field("nothing"),
            _ => asks::ask(alloc, &self.side.options, word, fields, answer)?,
        }
        answer.end();
        Ok(())
    }

    /// Answers whether the kept and the current values are equal.
    fn same(&self, what: &str, answer: &mut Answer) -> Result<(), Stop> {
        let Some(kept) = &self.kept else {
            return Err(WRONG_FIELDS);
        };
        let same = match what {
            "options" => kept.options == self.side.options,
            "answers" => same_reads(&kept.read, &self.side.read),
            _ => return Err(WRONG_FIELDS),
        };
        answer.field(what);
        same.put(answer);
        Ok(())
    }
}

/// Answers the result of words with a line: where the words after `--` begin, and the free words,
/// or their error.
fn put_read(read: &getopts::Result, answer: &mut Answer) {
    match read {
        Ok(matches) => {
            answer.word("accepted");
            matches.free_trailing_start().put(answer);
            matches.free.put(answer);
        }
        Err(fail) => {
            answer.word("refused");
            put_fault(fail, answer);
        }
    }
    answer.end();
}

/// The result of words from the call with this name.
fn read_by(alloc: Global, options: &Options, word: &str, words: &[String]) -> getopts::Result {
    match word {
        "words" => options.parse(alloc, words.iter().map(|word| word.as_str())),
        "parse_promised" => options.parse(alloc, promised(words, usize::MAX, &Cell::new(0))),
        "parse_words" => options.parse_words(alloc, words),
        "check_counts" => read_and_counted(alloc, options, words),
        _ => options.parse_ignoring_counts(alloc, words),
    }
}

/// What `parse_words` returns, by two calls.
fn read_and_counted(alloc: Global, options: &Options, words: &[String]) -> getopts::Result
    ensures result { ReturnsResult result
        (parse_result options.now (map string_bytes words.now)) }
{
    let matches = options.parse_ignoring_counts(alloc, words)?;
    matches.check_counts(alloc)?;
    Ok(matches)
}

/// Whether a line with this word adds a group.
fn declares(word: &str) -> bool {
    matches!(
        word,
        "add_group"
            | "opt"
            | "optflag"
            | "optflagmulti"
            | "optflagopt"
            | "optmulti"
            | "optopt"
            | "reqopt"
    )
}

/// Sets style and mode, and adds a group with each call, in one chain.
fn chained(options: &mut Options) -> Result<(), AllocError> {
    options
        .parsing_style(ParsingStyle::StopAtFirstFree)
        .long_only(true)
        .optflag("a", "apple", "take an apple")?
        .optopt("o", "output", "write to this file", "NAME")?
        .parsing_style(ParsingStyle::FloatingFrees)
        .optflagmulti("v", "verbose", "say more")?
        .long_only(false)
        .optmulti("L", "", "add a folder", "DIR")?
        .optflagopt("c", "color", "colour the output", "WHEN")?
        .reqopt("i", "input", "read this file", "NAME")?
        .opt("t", "tag", "add a tag", "TAG", HasArg::Maybe, Occur::Multi)?
        .long_only(true)
        .parsing_style(ParsingStyle::StopAtFirstFree);
    Ok(())
}

/// Adds a group with the call of this name.
fn declare(options: &mut Options, word: &str, fields: &[String]) -> Result<(), Stop> {
    match fields {
        [short, long, desc, rest @ ..] if names_lawful(short, long) => {
            add(options, word, short, long, desc, rest)
        }
        [_, _, _, ..] => Err(UNLAWFUL_NAMES),
        _ => Err(UNKNOWN_LINE),
    }
}

/// Adds a group with these names, this description and what the other fields say.
fn add(
    options: &mut Options,
    word: &str,
    short: &str,
    long: &str,
    desc: &str,
    rest: &[String],
) -> Result<(), Stop>
    requires { AreLawful short.now long.now }
{
    let added = match (word, rest) {
        ("optflag", []) => options.optflag(short, long, desc).is_ok(),
        ("optflagmulti", []) => options.optflagmulti(short, long, desc).is_ok(),
        ("optflagopt", [hint]) => options.optflagopt(short, long, desc, hint).is_ok(),
        ("optmulti", [hint]) => options.optmulti(short, long, desc, hint).is_ok(),
        ("optopt", [hint]) => options.optopt(short, long, desc, hint).is_ok(),
        ("reqopt", [hint]) => options.reqopt(short, long, desc, hint).is_ok(),
        ("opt" | "add_group", [hint, kind, occur]) => {
            let (kind, occur) = (kind_of(kind)?, occur_of(occur)?);
            if word == "opt" {
                options.opt(short, long, desc, hint, kind, occur).is_ok()
            } else {
                options
                    .add_group(short, long, desc, hint, kind, occur)
                    .is_ok()
            }
        }
        _ => return Err(UNKNOWN_LINE),
    };
    if added { Ok(()) } else { Err(Stop::NoMemory) }
}

fn kind_of(kind: &str) -> Result<HasArg, Stop> {
    match kind {
        "yes" => Ok(HasArg::Yes),
        "no" => Ok(HasArg::No),
        "maybe" => Ok(HasArg::Maybe),
        _ => Err(WRONG_FIELDS),
    }
}

fn occur_of(occur: &str) -> Result<Occur, Stop> {
    match occur {
        "req" => Ok(Occur::Req),
        "optional" => Ok(Occur::Optional),
        "multi" => Ok(Occur::Multi),
        _ => Err(WRONG_FIELDS),
    }
}
