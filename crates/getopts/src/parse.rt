//! Parsing a command line: its words are scanned, then its counts are checked.

ghost use Rattle.std.specs.Prelude.{◌≡◌, All, IfOk, IfErr, IfSome, OnOk, Ok, Err, map};
ghost use Rattle.std.specs.Iterator.{IsFinite};
ghost use Rattle.std.specs.Iterator.Runs.{WholeRun};
ghost use Rattle.getopts.specs.Fail.{IsOutOfMemoryOr};
ghost use Rattle.getopts.specs.Names.{AreTexts, texts};

use crate::counts::{check_counts, check_counts_in_order};
use crate::fail::Fail;
use crate::index::Index;
use crate::matches::Matches;
use crate::options::Options;
use crate::scan::{FIRST_ROOM, Given, Line, Scanner, Unread, words_are_texts};
use crate::table::Table;
use std::alloc::{AllocError, Global};
use std::convert::AsStr;

impl Options {
    ghost use Rattle.getopts.specs.Options.{MayBeDeclared, grammar_of};
    ghost use Rattle.getopts.specs.Parse.{IsRefused, HasReading, HasNoReading, ReturnsConverted};
    ghost use Rattle.getopts.specs.Parse.{ReturnsResult, IsOrder, FitOptionsAndCounts, FitOptions};
    ghost use Rattle.getopts.specs.Parse.{Accepts, EndsInTrailing, IsDeclared};
    ghost use Rattle.getopts.specs.ReadingLaws.{KeepsReadingLaws};
    ghost use Rattle.getopts.specs.Results.{parse_result, parse_ignoring_counts_result};
    ghost use Rattle.getopts.specs.Results.{counted_result, parse_in_order_result};
    ghost use Rattle.getopts.specs.Matches.{KeepsCounts, matches_of};
    ghost use Rattle.getopts.specs.Results.{made_of};
    ghost use Rattle.getopts.specs.Scan.{reading_if};
    ghost use Rattle.getopts.specs.Accessors.{borrowed_given};

    /// Parses a command line, given without the program's own name.
    ///
    /// Returns the matches of the words, or their first error. If a word can't be read, the error
    /// reports the first such word. Otherwise, it reports the first option, in order of
    /// declaration, that is missing or was given too often. Returns `Fail::OutOfMemory` instead if
    /// an allocation fails. The options aren't changed.
    ///
    /// With an option `o`/`output` that needs an argument, `["-ofile", "x"]`, `["-o", "file", "x"]`
    /// and `["--output=file", "x"]` all give `output` the value `file`, and the free word `x`.
    ///
    /// The Rust crate has no such method: its `parse` takes an iterator.
    #[inline]
    pub fn parse_words<S: AsStr>(&self, alloc: Global, words: &[S]) -> crate::Result
        ensures result { ReturnsResult result (parse_result self.now (map S.text words.now)) }
        ensures accepted { IfOk result (Accepts self.now (map S.text words.now)) }
        ensures refused { IfErr result (λ fail. IsOutOfMemoryOr fail
            (IsRefused self.now (map S.text words.now))) }

        // The matches have each declared option, with occurrences that fit its declaration.
        ensures declared { IfOk result (λ matches. FitOptionsAndCounts self.now matches.groups) }

        // Laws about other spellings of a command line, joined command lines, free words and
        // positions.
        ensures laws { OnOk result (KeepsReadingLaws (grammar_of self.now)) }
    {
        self.read_matches(alloc, words, true)
    }

    /// Parses a command line like `parse_words`, but doesn't check how often options occur.
    ///
    /// Use it to print help even if a required option is missing: print help if the matches have
    /// the help option, and otherwise call `matches.check_counts(alloc)?`. Both calls together
    /// return what `parse_words` does.
    ///
    /// It succeeds if and only if every word can be read. Required options may then be missing, and
    /// options may occur too often. If a word can't be read, it returns the same error as
    /// `parse_words`. The Rust crate has no such method.
    pub fn parse_ignoring_counts<S: AsStr>(&self, alloc: Global, words: &[S]) -> crate::Result
        ensures result { ReturnsResult result
            (parse_ignoring_counts_result self.now (map S.text words.now)) }
        ensures read { IfOk result (HasReading self.now (map S.text words.now)) }
        ensures refused { IfErr result (λ fail. IsOutOfMemoryOr fail
            (HasNoReading self.now (map S.text words.now))) }
        ensures given { IfOk result (λ matches. FitOptions self.now matches.groups) }
        ensures trailing { IfOk result (λ matches. IfSome matches.trailing_start
            (EndsInTrailing (map S.text words.now) matches)) }

        // With `check_counts`, the result is that of `parse_words`.
        ensures counted { IfOk result
            (λ matches. parse_result self.now (map S.text words.now) ≡ counted_result matches) }
        ensures same_error { IfErr result (λ fail. IsOutOfMemoryOr fail (λ fault.
            parse_result self.now (map S.text words.now) ≡ Err fault)) }
        ensures accepted { IfOk result (λ matches. KeepsCounts matches.groups
            → Accepts self.now (map S.text words.now) matches) }
        ensures declared { IfOk result (λ matches. KeepsCounts matches.groups
            → FitOptionsAndCounts self.now matches.groups) }
    {
        self.read_matches(alloc, words, false)
    }

    /// Parses a command line like `parse_words`, from an iterator.
    ///
    /// Requires an iterator that ends, as in `options.parse(alloc, words.iter().copied())?`. Unless
    /// an allocation fails, takes all items before it returns. The Rust crate's `parse` also takes
    /// words that aren't UTF-8, and returns an error for them.
    pub fn parse<'a, I: Iterator<Item = &'a str> + Drop>(
        &self,
        alloc: Global,
        args: I,
    ) -> crate::Result
        requires can { I.can_next args }
        requires ends { IsFinite (I.remaining args) }
        ensures result { ReturnsConverted (λ matches. matches) result
            (λ returned. WholeRun I.next_gives args
            (λ run. parse_result self.now (texts run.items) ≡ returned)) }
        ensures accepted { IfOk result (λ matches. WholeRun I.next_gives args
            (λ run. Accepts self.now (texts run.items) matches)) }
        ensures refused { IfErr result
            (λ fail. IsOutOfMemoryOr fail (λ fault. WholeRun I.next_gives args
            (λ run. IsRefused self.now (texts run.items) fault))) }
        ensures declared { IfOk result (λ matches. FitOptionsAndCounts self.now matches.groups) }
        ensures laws { OnOk result (KeepsReadingLaws (grammar_of self.now)) }
    {
        let words = words_from(alloc, args)?;
        self.parse_words(alloc, &words)
    }

    /// Parses a command line like `parse_words`, but returns its options and free words in the
    /// order in which they were given.
    ///
    /// Use it if the order of different options matters, for example if the last of `-q` and `-v`
    /// wins, or if an option applies to the free words after it, as in `-C a f -C b g`. (Positions
    /// don't help: options in one word, such as `-vq`, share a position, and free words have none.)
    /// Each option is returned as its place, as from `opt_place`, with its value; no text is
    /// copied. With the options `v` and `o`, the second of which needs an argument,
    /// `["-vofile", "x"]` gives `Option { place: 0, value: None }`,
    /// `Option { place: 1, value: Some("file") }` and `Free("x")`.
    ///
    /// Fails exactly as `parse_words` does. The Rust crate has no such method.
    pub fn parse_in_order<'w, S: AsStr>(
        &self,
        alloc: Global,
        words: &'w [S],
    ) -> Result<Vec<Given<'w>>, Fail>
        ensures result { ReturnsConverted (λ order. map borrowed_given order.items) result
            (λ returned. parse_in_order_result self.now (map S.text words.now) ≡ returned) }
        ensures order { IfOk result (λ order.
            IsOrder self.now (map S.text words.now) (map borrowed_given order.items)) }

        // Each place is below the number of options, and each value fits its option's kind.
        ensures declared { IfOk result (λ order.
            All (λ given. IsDeclared self.now.groups (borrowed_given given)) order.items) }
        ensures same_error { IfErr result (λ fail. IsOutOfMemoryOr fail (λ fault.
            parse_result self.now (map S.text words.now) ≡ Err fault)) }
        ensures refused { IfErr result (λ fail. IsOutOfMemoryOr fail
            (IsRefused self.now (map S.text words.now))) }
    {
        words_are_texts(words);
        let signatures = self.signatures();
        let reader = self.reader(alloc)?;
        let mut unread = Unread::new(words);
        let mut order = Vec::with_capacity(alloc, words.len().min(FIRST_ROOM))?;
        'items: while let Some(given) = reader.next(alloc, &mut unread)? {
            order.push(given)?;
        }
        check_counts_in_order(alloc, signatures, &order)?;
        Ok(order)
    }

    /// The matches of a command line, with its counts checked if `counted`.
    #[inline]
    pub(crate) fn read_matches<S: AsStr>(
        &self,
        alloc: Global,
        words: &[S],
        counted: bool,
    ) -> crate::Result
        ensures result { ReturnsResult result
            (made_of (matches_of self.now) (reading_if counted self.now (map S.text words.now))) }
        ensures declared { MayBeDeclared self.now.groups }
        ensures texts { AreTexts (map S.text words.now) }
        ensures laws { OnOk result (KeepsReadingLaws (grammar_of self.now)) }
    {
        words_are_texts(words);
        let signatures = self.signatures();
        let mut line = Line::for_words(alloc, words)?;
        let table = Table::of(alloc, signatures)?;
        let scanner = Scanner {
            options: self,
            table: &table,
        };
        scanner.scan(alloc, words, &mut line)?;
        let index = Index::of(alloc, signatures.len(), &line.found)?;
        if counted {
            check_counts(alloc, signatures, &index)?;
        }
        Ok(Matches::of_line(signatures.clone()?, table, line, index))
    }
}

/// The words that an iterator yields, in order. Unlike std's `collect`, this reports every failed
/// allocation.
pub(crate) fn words_from<'a, I: Iterator<Item = &'a str> + Drop>(
    alloc: Global,
    args: I,
) -> Result<Vec<&'a str>, AllocError>
    requires can { I.can_next args }
    requires ends { IsFinite (I.remaining args) }
    ensures { IfOk result (λ words. WholeRun I.next_gives args (λ run. words.items ≡ run.items)) }
{
    let room = args.size_hint().0.min(FIRST_ROOM);
    let mut words = Vec::with_capacity(alloc, room)?;
    for word in args {
        words.push(word)?;
    }
    Ok(words)
}
