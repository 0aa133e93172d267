//! The options and words of a job, from the rows of a file.

ghost use Rattle.getopts.specs.Names.{AreLawful};

use crate::trouble::Trouble;
use getopts::{Options, names_lawful};
use std::alloc::{AllocError, Global};

/// The call that declares an option.
#[derive(Clone, Copy)]
enum Kind {
    Flag,
    Argument,
    Maybe,
}

/// An option to declare, with valid names.
#[derive(Clone, Copy)]
pub struct Named<'t> {
    short: &'t str,
    long: &'t str,
    desc: &'t str,
    hint: &'t str,
    kind: Kind,
    ghost lawful: { AreLawful short.now long.now },
}

impl<'t> Named<'t> {
    /// Declares the option.
    pub fn declare(&self, options: &mut Options) -> Result<(), AllocError> {
        match self.kind {
            Kind::Flag => options.optflagmulti(self.short, self.long, self.desc)?,
            Kind::Argument => options.optmulti(self.short, self.long, self.desc, self.hint)?,
            Kind::Maybe => options.optflagopt(self.short, self.long, self.desc, self.hint)?,
        };
        Ok(())
    }

    /// The long name if there is one, else the short name.
    pub fn main(&self) -> &str {
        if self.long.is_empty() {
            self.short
        } else {
            self.long
        }
    }
}

/// Options to declare, and words to parse.
#[derive(Drop)]
pub struct Input<'t> {
    pub options: Vec<Named<'t>>,
    pub words: Vec<&'t str>,
}

/// Reads the rows of a text: each is an option, the number of words, or a word.
pub fn input_of(alloc: Global, text: &str) -> Result<Input<'_>, Trouble> {
    let mut input = Input {
        options: Vec::new(alloc),
        words: Vec::new(alloc),
    };
    for row in text.lines() {
        input.add(row)?;
    }
    Ok(input)
}

impl<'t> Input<'t> {
    /// Adds a row.
    fn add(&mut self, row: &'t str) -> Result<(), Trouble> {
        let (call, rest) = row.split_once('\t').unwrap_or((row, ""));
        match call {
            "words" => {
                let count = rest.parse::<usize>().ok().ok_or(Trouble::NoJob)?;
                self.words.reserve_exact(count)?;
            }
            "word" => self.words.push(rest)?,
            "optflagmulti" => self.declare(rest, Kind::Flag)?,
            "optmulti" => self.declare(rest, Kind::Argument)?,
            "optflagopt" => self.declare(rest, Kind::Maybe)?,
            _ => return Err(Trouble::NoJob),
        }
        Ok(())
    }

    /// Appends an option: its names, its description and its hint.
    fn declare(&mut self, fields: &'t str, kind: Kind) -> Result<(), Trouble> {
        let (short, rest) = fields.split_once('\t').unwrap_or((fields, ""));
        let (long, rest) = rest.split_once('\t').unwrap_or((rest, ""));
        let (desc, hint) = rest.split_once('\t').unwrap_or((rest, ""));
        if !names_lawful(short, long) {
            return Err(Trouble::NoJob);
        }
        let named = Named {
            short,
            long,
            desc,
            hint,
            kind,
        };
        self.options.push(named)?;
        Ok(())
    }
}
