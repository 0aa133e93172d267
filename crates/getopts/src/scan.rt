//! Reading a command line, one option or free word at a time.

ghost use Rattle.std.specs.Prelude.{◌≡◌, ◌≢◌, ◌≤◌, ◌+◌, ◌-◌, ◌<◌, ◌∷◌, ◌++◌, [], List, ℕ, OnOk, OnErr, IfOk};
ghost use Rattle.std.specs.Prelude.{IfErr, IfSome, IfNone, Some, None, Ok, Err, true, false, length, map};
ghost use Rattle.std.specs.String.{string_bytes};
ghost use Rattle.std.specs.Option.{option_copied, option_map};
ghost use Rattle.getopts.specs.Reading.{Dashes, holds_equals, is_dashed, tail_frees};
ghost use Rattle.getopts.specs.Reader.{AreLast, EndsInFrees, ended, left_in, next_option, size_of, trace, trace_from};
ghost use Rattle.getopts.specs.Scan.{tail_of, words_left};
ghost use Rattle.getopts.specs.Accessors.{borrowed_given};
ghost use Rattle.getopts.specs.Fail.{IsOutOfMemoryOr};
ghost use Rattle.getopts.specs.Names.{AreTexts, Text};
ghost use Rattle.getopts.specs.Step.{with_equals, first_char, chosen_long, chosen_end, Chooses, Step};
ghost use Rattle.getopts.specs.Step.{name_step, faults};
ghost use Rattle.getopts.specs.Parse.{IsDeclared, ReturnsConverted};
ghost use Rattle.getopts.specs.declared.kinds.ParsingStyle.TheVariants.{StopAtFirstFree};

use crate::fail::Fail;
use crate::kinds::{HasArg, ParsingStyle};
use crate::occurrences::LineOccurrences;
use crate::options::Options;
use crate::table::Table;
use std::alloc::{AllocError, Global};
use std::convert::AsStr;
use std::marker::Model;

/// The most words for which memory is reserved without looking at them: an iterator may yield fewer
/// words than it promises.
pub(crate) const FIRST_ROOM: usize = 32;

/// A lemma for proofs: each word is UTF-8, as its type says. Compiles to nothing in an optimized
/// build.
pub fn words_are_texts<S: AsStr>(words: &[S])
    ensures texts { AreTexts (map S.text words.now) }
{
    for word in words {
        word.as_str();
    }
}

/// What a command line contains: its options in order, its free words, and the index of the first
/// free word after `--`.
#[derive(Drop)]
pub(crate) struct Line {
    pub found: LineOccurrences,
    pub free: Vec<String>,
    pub trailing_start: Option<usize>,
}

impl Line {
    ghost use Rattle.getopts.specs.Reading.{trailing_after};

    /// An empty line, with room for options if the first word is dashed, and for free words if the
    /// last one isn't.
    #[inline(always)]
    pub(crate) fn for_words<S: AsStr>(alloc: Global, words: &[S]) -> Result<Line, AllocError>
        ensures found { IfOk result (λ line. line.found ≡ []) }
        ensures free { IfOk result (λ line. line.free.items ≡ []) }
    {
        let room = words.len().min(FIRST_ROOM);
        let options = match words {
            [first, ..] if is_dashed(first.as_str()) => room,
            _ => 0,
        };
        let frees = match words {
            [.., last] if is_dashed(last.as_str()) => 0,
            _ => room,
        };
        Ok(Line {
            found: LineOccurrences::with_capacity(alloc, options)?,
            free: Vec::with_capacity(alloc, frees)?,
            trailing_start: None,
        })
    }

    /// Ends the line with words that aren't read as items: free words, or `--` and free words. No
    /// more options follow, so gives back memory that was reserved for them.
    #[inline(always)]
    fn end<S: AsStr>(&mut self, alloc: Global, words: &[S]) -> Result<(), AllocError>
        ensures found { OnOk result (self.new.found ≡ self.old.found) }
        ensures free { OnOk result (map string_bytes self.new.free.items
            ≡ map string_bytes self.old.free.items ++ tail_frees (tail_of (map S.text words.now))) }
        ensures trailing { OnOk result (self.new.trailing_start
            ≡ trailing_after (length (map string_bytes self.old.free.items))
            (tail_of (map S.text words.now))) }
    {
        self.found.shrink();
        self.trailing_start = None;
        match words.first() {
            Some(word) if word.as_str() == "--" => {
                let after = &words[1..];
                self.trailing_start = (!after.is_empty()).then_some(self.free.len());
                push_copies(alloc, &mut self.free, after)
            }
            Some(_) => push_copies(alloc, &mut self.free, words),
            None => Ok(()),
        }
    }
}

/// An option or a free word in a command line, as `parse_in_order` and `Reader::next` return them.
#[derive(Clone, Copy, Debug, PartialEq, Eq)]
pub enum Given<'w> {
    /// An option.
    Option {
        /// Its place: its index in the order of declaration.
        place: usize,
        /// Its value, if it has one.
        value: Option<&'w str>,
    },
    /// A free word.
    Free(&'w str),
}

/// What wasn't read yet of a command line.
///
/// After a loop that stops early, `words` is what the loop left. To read a word in another way,
/// move `words` past it: `unread.words = &unread.words[1..]`.
#[derive(Debug, Drop)]
pub struct Unread<'w, S> {
    /// The words after the last word that was read.
    pub words: &'w [S],
    /// What is left of that word, if it combines short options: after the first option of `-vx`,
    /// `x`. Otherwise empty. These options come before `words`. A program may set it to `""`, to
    /// skip them, but to no other text.
    pub names: &'w str,
    /// `None` while options may follow. Otherwise, all of `words` are free words, and this is the
    /// free word that `next` returned last and those after it, such as a command and its arguments,
    /// or none at the end. A program may set it to `Some(&[])`, to end the options itself. If
    /// `names` isn't empty then, its options still come first.
    pub free_words: Option<&'w [S]>,
}

impl<'w, S> Unread<'w, S> {
    /// All words of a command line, given without the program's own name.
    pub fn new(words: &'w [S]) -> Unread<'w, S>
        ensures words { result.words.now ≡ words.now }
        ensures names { result.names.now ≡ [] }
        ensures free_words { result.free_words ≡ None }
    {
        Unread {
            words,
            names: "",
            free_words: None,
        }
    }

    /// The position, in a line of `count` words, of the first word that isn't read to its end.
    #[inline(always)]
    pub(crate) fn position_in(&self, count: usize) -> usize
        requires { words_left self.now.names.now self.now.words.now ≤ count }
        ensures { result + words_left self.now.names.now self.now.words.now ≡ count }
    {
        let position = count - self.words.len();
        if self.names.is_empty() {
            position
        } else {
            position - 1
        }
    }
}

/// Reads words by these options, with the table of their names.
#[derive(Clone, Copy)]
pub(crate) struct Scanner<'o> {
    pub options: &'o Options,
    pub table: &'o Table,
}

/// The value that an option takes, if any, and the words that are left after its argument.
#[derive(Drop)]
struct Argument<'w, S> {
    value: Option<&'w str>,
    left: &'w [S],
}

/// An option that was read, the names that are left in its cluster, and the words that are left.
#[derive(Drop)]
struct Taken<'w, S> {
    place: usize,
    value: Option<&'w str>,
    names: &'w str,
    left: &'w [S],
}

/// How a word is read.
#[derive(Clone, Copy)]
pub(crate) enum Shape<'w> {
    /// As a free word: it isn't dashed.
    Free,
    /// As the `--` after which all words are free.
    Stop,
    /// As a long item, with this text after the dashes.
    Long(&'w str),
    /// As a cluster, with this text after the dash.
    Cluster(&'w str),
}

/// Appends a copy of a word.
#[inline]
fn push_copy(alloc: Global, copies: &mut Vec<String>, word: &str) -> Result<(), AllocError>
    ensures { OnOk result (map string_bytes copies.new.items
        ≡ map string_bytes copies.old.items ++ word.now ∷ []) }
{
    copies.push(String::from_str(alloc, word)?)?;
    Ok(())
}

/// Appends copies of words.
fn push_copies<S: AsStr>(
    alloc: Global,
    copies: &mut Vec<String>,
    words: &[S],
) -> Result<(), AllocError>
    ensures { OnOk result (map string_bytes copies.new.items
        ≡ map string_bytes copies.old.items ++ map S.text words.now) }
{
    copies.reserve(words.len())?;
    for word in words {
        push_copy(alloc, copies, word.as_str())?;
    }
    Ok(())
}

/// The free words among the words that `Scanner::next` leaves when it returns `None`: all of them,
/// except a first `--`.
pub(crate) fn free_words<S: AsStr>(left: &[S]) -> &[S]
    ensures words { map S.text result.now ≡ tail_frees (tail_of (map S.text left.now)) }
    ensures last { AreLast result.now left.now }
{
    match left.first() {
        Some(word) if word.as_str() == "--" => &left[1..],
        _ => left,
    }
}

/// The name in the text of a long item, and the attached argument, which follows the first `=`.
fn name_and_argument(text: &str) -> (&str, Option<&str>)
    ensures name { holds_equals result.0.now ≡ false }
    ensures text { text.now ≡ result.0.now ++ with_equals (option_copied result.1) }
{
    match text.split_once('=') {
        Some((name, argument)) => (name, Some(argument)),
        None => (text, None),
    }
}

/// Whether a word is dashed: it begins with `-` and is longer than that.
fn is_dashed(word: &str) -> bool
    ensures { result ≡ is_dashed word.now }
{
    match word.as_bytes() {
        [b'-', _, ..] => true,
        _ => false,
    }
}

/// The first character of a text, as a text.
fn first_character(text: &str) -> &str
    ensures { result.now ≡ first_char text.now }
{
    match text.chars().next() {
        Some(character) => &text[..character.len_utf8()],
        None => text,
    }
}

/// The argument of an option in long form: `attached` follows the `=` in its word, and `after` is
/// the words after that.
#[inline(always)]
fn long_argument<'w, S: AsStr>(
    alloc: Global,
    kind: HasArg,
    name: &str,
    attached: Option<&'w str>,
    after: &'w [S],
) -> Result<Argument<'w, S>, Fail>
    ensures ok { let after = map S.text after.now in IfOk result (λ argument.
        Chooses (chosen_long kind name.now (option_copied attached.entry) after) after
        (option_copied argument.value) (map S.text argument.left.now)) }
    ensures last { IfOk result (λ argument. AreLast argument.left.now after.now) }
    ensures err { IfErr result (λ fail. IsOutOfMemoryOr fail (λ fault.
        chosen_long kind name.now (option_copied attached.entry) (map S.text after.now) ≡ Err fault)) }
{
    let (value, left) = match (kind, attached) {
        (HasArg::No, Some(_)) => return Err(Fail::unexpected_argument(alloc, name)),
        (HasArg::Yes, None) => match after {
            [word, others @ ..] => (Some(word.as_str()), others),
            [] => return Err(Fail::argument_missing(alloc, name)),
        },
        _ => (attached, after),
    };
    Ok(Argument { value, left })
}

/// The argument of an option of kind `Yes` or `Maybe` in a cluster: `rest` is the rest of the
/// cluster's word, and `after` is the words after that.
#[inline(always)]
fn last_argument<'w, S: AsStr>(
    alloc: Global,
    kind: HasArg,
    name: &str,
    rest: &'w str,
    after: &'w [S],
) -> Result<Argument<'w, S>, Fail>
    requires { kind ≢ HasArg.No }
    ensures ok { let after = map S.text after.now in IfOk result (λ argument.
        Chooses (chosen_end kind name.now rest.now after) after
        (option_copied argument.value) (map S.text argument.left.now)) }
    ensures last { IfOk result (λ argument. AreLast argument.left.now after.now) }
    ensures err { IfErr result (λ fail. IsOutOfMemoryOr fail (λ fault.
        chosen_end kind name.now rest.now (map S.text after.now) ≡ Err fault)) }
{
    let (value, left) = match after {
        _ if !rest.is_empty() => (Some(rest), after),
        [word, others @ ..] if kind == HasArg::Yes || !is_dashed(word.as_str()) => {
            (Some(word.as_str()), others)
        }
        [] if kind == HasArg::Yes => return Err(Fail::argument_missing(alloc, name)),
        _ => (None, after),
    };
    Ok(Argument { value, left })
}

impl<'o> Scanner<'o> {
    ghost use Rattle.getopts.specs.Step.{long_step, TakesOne, TakesName};
    ghost use Rattle.getopts.specs.Scan.{scanner_grammar, IsLawfulScanner};
    ghost use Rattle.getopts.specs.Scan.{GivesLine, HasShape};
    ghost use Rattle.getopts.specs.Reading.{IsLawfulTail};
    ghost use Rattle.getopts.specs.Results.{read};

    /// The kind of the option at a place.
    #[inline(always)]
    fn kind(&self, place: usize) -> HasArg
        requires { place < length self.now.options.now.groups }
        ensures { let grammar = scanner_grammar self.now in (name : Text)
            → grammar.place name ≡ Some place → grammar.kind name ≡ Some result }
    {
        self.options.signatures().record(place).kinds.kind
    }

    /// Reads a long item: `text` follows the dashes in its first word, and `after` is the words
    /// after that.
    #[inline(always)]
    fn long<'w, S: AsStr>(
        &self,
        alloc: Global,
        text: &'w str,
        after: &'w [S],
    ) -> Result<Taken<'w, S>, Fail>
        requires lawful { IsLawfulScanner self.now }
        ensures ok { let grammar = scanner_grammar self.now in let after = map S.text after.now in
            IfOk result (λ taken. (dashes : Dashes)
            → TakesOne grammar (long_step grammar dashes text.now after) after
            taken.place (option_copied taken.value) (map S.text taken.left.now)) }
        ensures last { IfOk result (λ taken. AreLast taken.left.now after.now) }
        ensures err { let grammar = scanner_grammar self.now in
            IfErr result (λ fail. (dashes : Dashes) → IsOutOfMemoryOr fail (λ fault.
            long_step grammar dashes text.now (map S.text after.now) ≡ faults fault)) }
    {
        let (name, attached) = name_and_argument(text);
        let place = match self.table.resolve(self.options.signatures(), name) {
            Some(place) => place,
            None => return Err(Fail::unrecognized_option(alloc, name)),
        };
        let argument = long_argument(alloc, self.kind(place), name, attached, after)?;
        Ok(Taken {
            place,
            value: argument.value,
            names: "",
            left: argument.left,
        })
    }

    /// Reads the first of the names that are left in a cluster. `after` is the words after the
    /// cluster's.
    #[inline(always)]
    fn short<'w, S: AsStr>(
        &self,
        alloc: Global,
        names: &'w str,
        after: &'w [S],
    ) -> Result<Taken<'w, S>, Fail>
        requires lawful { IsLawfulScanner self.now }
        requires filled { names.now ≢ [] }
        ensures ok { IfOk result (λ taken.
            TakesName (scanner_grammar self.now) names.now (map S.text after.now)
            taken.place (option_copied taken.value) taken.names.now (map S.text taken.left.now)) }
        ensures last { IfOk result (λ taken. AreLast taken.left.now after.now) }
        ensures err { let grammar = scanner_grammar self.now in
            IfErr result (λ fail. IsOutOfMemoryOr fail (λ fault. (bytes : List ℕ) (more : Step)
            → name_step grammar bytes names.now (map S.text after.now) more ≡ faults fault)) }
    {
        if !names.as_bytes()[0].is_ascii() {
            let name = first_character(names);
            return Err(Fail::unrecognized_option(alloc, name));
        }
        let name = &names[0..1];
        let place = match self.table.resolve_short(name) {
            Some(place) => place,
            None => return Err(Fail::unrecognized_option(alloc, name)),
        };
        match self.kind(place) {
            HasArg::No => Ok(Taken {
                place,
                value: None,
                names: &names[1..],
                left: after,
            }),
            kind => {
                let argument = last_argument(alloc, kind, name, &names[1..], after)?;
                Ok(Taken {
                    place,
                    value: argument.value,
                    names: "",
                    left: argument.left,
                })
            }
        }
    }

    /// How a word is read. In long-only mode, a long item may begin with one dash.
    #[inline(always)]
    fn shape<'w>(&self, word: &'w str) -> Shape<'w>
        ensures { HasShape (scanner_grammar self.now) word.now result }
    {
        match word.as_bytes() {
            [b'-', b'-'] => Shape::Stop,
            [b'-', b'-', ..] => Shape::Long(&word[2..]),
            [b'-', _, ..] if self.options.is_long_only() => Shape::Long(&word[1..]),
            [b'-', _, ..] => Shape::Cluster(&word[1..]),
            _ => Shape::Free,
        }
    }

    /// Reads an option or a free word, and moves `unread` past it. Returns `None` at the end, at
    /// `--` and, if options stop there, at a free word.
    #[inline(always)]
    pub(crate) fn next<'w, S: AsStr>(
        &self,
        alloc: Global,
        unread: &mut Unread<'w, S>,
    ) -> Result<Option<Given<'w>>, Fail>
        requires { IsLawfulScanner self.now }
        ensures none { IfOk result (λ given. IfNone given
            ((unread.old.names.now ≡ []) × (unread.new ≡ unread.old))) }
        ensures tail { IfOk result (λ given. IfNone given
            (IsLawfulTail (scanner_grammar self.now) (tail_of (map S.text unread.old.words.now)))) }
        ensures next { let left = left_in S.text unread.old in
            IfOk result (λ given. IfSome given (λ given.
            next_option (scanner_grammar self.now) left.names left.words left.free_words
            ≡ Ok (Some (borrowed_given given, left_in S.text unread.new)))) }
        ensures stops { self.now.options.now.style ≡ ParsingStyle.StopAtFirstFree → IfOk result
            (λ given. IfSome given (λ given.
            EndsInFrees S.text unread.old.words.now (borrowed_given given) unread.new)) }
        ensures last { IfOk result (λ given. IfSome given (λ given.
            AreLast unread.new.words.now unread.old.words.now)) }
        ensures err { let left = left_in S.text unread.old in
            IfErr result (λ fail. IsOutOfMemoryOr fail (λ fault.
            next_option (scanner_grammar self.now) left.names left.words left.free_words ≡ Err fault)) }
        ensures free_words { unread.new.free_words ≡ unread.old.free_words }
        ensures unchanged { OnErr result (unread.new ≡ unread.old) }
    {
        let mut names = unread.names;
        let mut after = unread.words;
        if names.is_empty() {
            let (word, others) = match after.split_first() {
                Some((word, others)) => (word.as_str(), others),
                None => return Ok(None),
            };
            match self.shape(word) {
                Shape::Free => {
                    if self.options.style() == ParsingStyle::StopAtFirstFree {
                        return Ok(None);
                    }
                    unread.words = others;
                    return Ok(Some(Given::Free(word)));
                }
                Shape::Stop => return Ok(None),
                Shape::Long(text) => {
                    let taken = self.long(alloc, text, others)?;
                    unread.words = taken.left;
                    return Ok(Some(Given::Option {
                        place: taken.place,
                        value: taken.value,
                    }));
                }
                Shape::Cluster(text) => {
                    after = others;
                    names = text;
                }
            }
        }
        let taken = self.short(alloc, names, after)?;
        unread.words = taken.left;
        unread.names = taken.names;
        Ok(Some(Given::Option {
            place: taken.place,
            value: taken.value,
        }))
    }

    /// Reads a command line into an empty line.
    #[inline(always)]
    pub(crate) fn scan<S: AsStr>(
        &self,
        alloc: Global,
        words: &[S],
        line: &mut Line,
    ) -> Result<(), Fail>
        requires lawful { IsLawfulScanner self.now }
        requires empty { (line.old.found ≡ []) × (line.old.free.items ≡ []) }
        ensures ok { let grammar = scanner_grammar self.now in
            OnOk result (GivesLine grammar (read grammar (map S.text words.now)) line.new) }
        ensures err { IfErr result (λ fail. IsOutOfMemoryOr fail (λ fault.
            read (scanner_grammar self.now) (map S.text words.now) ≡ Err fault)) }
    {
        let mut unread = Unread::new(words);
        let mut position = 0;
        'items: while let Some(given) = self.next(alloc, &mut unread)? {
            match given {
                Given::Option { place, value } => {
                    line.found.push(place, position, value)?;
                    position = unread.position_in(words.len());
                }
                Given::Free(word) => {
                    push_copy(alloc, &mut line.free, word)?;
                    position = unread.position_in(words.len());
                }
            }
        }
        line.end(alloc, unread.words)?;
        Ok(())
    }
}

/// Reads command lines by the options from which it was made, one option or free word at a time.
#[derive(Debug, Drop)]
pub struct Reader<'o> {
    options: &'o Options,
    table: Table,
}

impl<'o> Model for Reader<'o> {
    ghost use Rattle.getopts.specs.Options.{Declared, MayBeDeclared, names_of};
    ghost use Rattle.getopts.specs.Stored.Table.{IsTableOf};

    ghost Value = { Declared };

    ghost view = { λ a. a.options.now };

    ghost invariant = { λ a. MayBeDeclared a.options.now.groups
        × IsTableOf (names_of a.options.now.groups) a.table };
}

impl Options {
    /// Returns a reader, which reads any number of command lines by these options.
    ///
    /// Use it if what was read decides how to go on: to stop at a subcommand and hand over the
    /// words after it, to print help before a later word is rejected, or to read a word such as
    /// `-5` as an operand. Otherwise, `parse_words` and `parse_in_order` are simpler, and they also
    /// check how often options occur. Fails only if an allocation fails. The Rust crate has no such
    /// method.
    ///
    /// ```
    /// let reader = options.reader(alloc)?;
    /// let mut unread = Unread::new(words);
    /// while let Some(given) = reader.next(alloc, &mut unread)? {
    ///     match given {
    ///         Given::Option { place, value } => ..,
    ///         Given::Free(word) => ..,
    ///     }
    /// }
    /// ```
    pub fn reader(&self, alloc: Global) -> Result<Reader<'_>, AllocError>
        ensures options { IfOk result (λ reader. reader ≡ self.now) }
    {
        let table = Table::of(alloc, self.signatures())?;
        Ok(Reader {
            options: self,
            table,
        })
    }
}

impl<'o> Reader<'o> {
    /// Reads the next option or free word of a command line, and moves `unread` past it.
    ///
    /// Returns `None` at the end, and again if it is called again. Then all that was returned is
    /// what `parse_in_order` returns if it accepts the line.
    ///
    /// Returns an error if what is next can't be read: the one that `parse_words` returns for a
    /// line of which this is left, or `OutOfMemory` if it can't be allocated. `unread` is then
    /// unchanged. What was returned before remains valid.
    ///
    /// Doesn't check how often options occur. If `unread.names` is empty, `unread.words.first()`
    /// shows, before the call, how an option is typed.
    #[inline(always)]
    pub fn next<'w, S: AsStr>(
        &self,
        alloc: Global,
        unread: &mut Unread<'w, S>,
    ) -> Result<Option<Given<'w>>, Fail>
        // What was left gives what is returned, and then what is left now gives, or an error.
        ensures trace { ReturnsConverted
            (option_map (λ given. (borrowed_given given, left_in S.text unread.new))) result
            (λ returned. trace self.now (left_in S.text unread.old)
            ≡ trace_from (trace self.now) returned) }

        // At the end, nothing is left.
        ensures ended { IfOk result (λ given. IfNone given (left_in S.text unread.new ≡ ended)) }

        // The place is below the number of options, and the value fits the option's kind.
        ensures declared { IfOk result (λ given. IfSome given (λ given.
            IsDeclared self.now.groups (borrowed_given given))) }

        // Under `StopAtFirstFree`, a free word and all words that are left are the free words.
        ensures free_words { self.now.style ≡ StopAtFirstFree → IfOk result (λ given. IfSome given
            (λ given. EndsInFrees S.text unread.old.words.now (borrowed_given given) unread.new)) }

        // The words that are left are the last of those that were left. There is less, so a loop
        // ends.
        ensures less { IfOk result (λ given. IfSome given (λ given.
            AreLast unread.new.words.now unread.old.words.now
            × (size_of (left_in S.text unread.new) < size_of (left_in S.text unread.old)))) }
        ensures unchanged { OnErr result (unread.new ≡ unread.old) }
    {
        if unread.free_words.is_none() || !unread.names.is_empty() {
            let scanner = Scanner {
                options: self.options,
                table: &self.table,
            };
            if let Some(given) = scanner.next(alloc, unread)? {
                return Ok(Some(given));
            }
            unread.words = free_words(unread.words);
        }
        let words = unread.words;
        match words.split_first() {
            Some((word, others)) => {
                unread.free_words = Some(words);
                unread.words = others;
                Ok(Some(Given::Free(word.as_str())))
            }
            None => {
                unread.free_words = Some(&[]);
                Ok(None)
            }
        }
    }
}
