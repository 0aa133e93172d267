//! Canonical lines, which are accepted command lines rewritten with main names only.

ghost use Rattle.std.specs.Prelude.{◌≡◌, ℕ, All, map, not, false, IfOk, IfErr};
ghost use Rattle.std.specs.Prelude.{IfSome, IfNone, OnOk};
ghost use Rattle.std.specs.List.{list_all};
ghost use Rattle.std.specs.Option.{option_copied, option_map};
ghost use Rattle.std.specs.String.{string_bytes};
ghost use Rattle.getopts.specs.Accessors.{borrowed_given};
ghost use Rattle.getopts.specs.Parse.{IsDeclared};
ghost use Rattle.getopts.specs.Reading.{holds_equals, long_word, options_in, two};
ghost use Rattle.getopts.specs.Canon.{canonical_line, main_at};
ghost use Rattle.getopts.specs.Fail.{IsOutOfMemoryOr};
ghost use Rattle.getopts.specs.Names.{texts};
ghost use Rattle.getopts.specs.Scan.{order_content};

use crate::fail::Fail;
use crate::groups::Groups;
use crate::laws::names_resolve;
use crate::options::Options;
use crate::parse::words_from;
use crate::scan::{Given, words_are_texts};
use std::alloc::{AllocError, Global};
use std::convert::AsStr;

fn holds_equals(text: &str) -> bool
    ensures { result ≡ holds_equals text.now }
{
    text.contains('=')
}

fn declare_equals(groups: &Groups) -> bool
    ensures { result ≡ false → (place : ℕ) → holds_equals (main_at groups.now place) ≡ false }
{
    for place in 0..groups.len() {
        if holds_equals(groups.main(place)) {
            return true;
        }
    }
    false
}

/// Tests the declared names first if they are fewer than the options and free words.
fn are_plain(groups: &Groups, order: &[Given]) -> bool
    requires { All (λ given. IsDeclared groups.now (borrowed_given given)) order.now }
    ensures { result ≡ list_all (λ m. not (holds_equals (main_at groups.now m.place)))
        (options_in (map borrowed_given order.now)) }
{
    if groups.len() < order.len() && !declare_equals(groups) {
        return true;
    }
    for given in order {
        if let Given::Option { place, .. } = given {
            if holds_equals(groups.main(*place)) {
                return false;
            }
        }
    }
    true
}

fn canonical_word(alloc: Global, main: &str, value: Option<&str>) -> Result<String, AllocError>
    ensures { IfOk result (λ word.
        string_bytes word ≡ long_word two main.now (option_copied value.entry)) }
{
    let room = main.len() + value.unwrap_or("").len();
    let mut word = String::with_capacity(alloc, room.saturating_add(3))?;
    word.push_str("--")?;
    word.push_str(main)?;
    if let Some(value) = value {
        word.push('=')?;
        word.push_str(value)?;
    }
    Ok(word)
}

/// The words for the options, then `--`, then the free words.
fn canonical_line(
    alloc: Global,
    groups: &Groups,
    order: &[Given],
) -> Result<Vec<String>, AllocError>
    requires { All (λ given. IsDeclared groups.now (borrowed_given given)) order.now }
    ensures { IfOk result (λ words. map string_bytes words.items
        ≡ canonical_line groups.now (order_content (map borrowed_given order.now))) }
{
    let mut words = Vec::with_capacity(alloc, order.len().saturating_add(1))?;
    for given in order {
        if let Given::Option { place, value } = given {
            words.push(canonical_word(alloc, groups.main(*place), *value)?)?;
        }
    }
    words.push(String::from_str(alloc, "--")?)?;
    for given in order {
        if let Given::Free(word) = given {
            words.push(String::from_str(alloc, word)?)?;
        }
    }
    Ok(words)
}

impl Options {
    ghost use Rattle.std.specs.Iterator.{IsFinite};
    ghost use Rattle.std.specs.Iterator.Runs.{WholeRun};
    ghost use Rattle.getopts.specs.Parse.{IsRefused, ReturnsConverted, IsWritten, IsUnwritable};
    ghost use Rattle.getopts.specs.Parse.{KeepsLineLaws};
    ghost use Rattle.getopts.specs.Results.{canonical_result};
    ghost use Rattle.getopts.specs.Theorem.{LinesReadAgain};

    /// Rewrites an accepted command line with main names only, for programs that log, compare or
    /// cache command lines.
    ///
    /// The canonical line has a word for each option, in order: `--main` or `--main=value`. Here
    /// `main` is the option's long name or, if it has none, its short name. Then there is always
    /// `--`, and then the free words. The line doesn't show positions, nor which free words
    /// preceded which options.
    ///
    /// With the flag `v`/`verbose` and an option `o`/`output` that needs an argument:
    ///
    /// - `["-vofile", "x"]` gives `["--verbose", "--output=file", "--", "x"]`.
    /// - `["x", "--verbose", "--output", "file"]` gives the same line.
    /// - `[]` gives `["--"]`.
    ///
    /// Returns `None` if the command line gives an option whose main name contains `=`. Such an
    /// option can't be written: `--p=x` means the option `p` with the argument `x`, not an option
    /// called `p=x`. It does no harm as long as it isn't given.
    ///
    /// Fails exactly as `parse` does, or with `Fail::OutOfMemory` if an allocation fails. As for
    /// `parse`, the iterator has to end and, unless an allocation fails, all its items are taken.
    /// The options aren't changed. The Rust crate has no such method.
    pub fn canonical<'a, I: Iterator<Item = &'a str> + Drop>(
        &self,
        alloc: Global,
        args: I,
    ) -> Result<Option<Vec<String>>, Fail>
        requires can { I.can_next args }
        requires ends { IsFinite (I.remaining args) }
        ensures result { ReturnsConverted (option_map (λ line. map string_bytes line.items)) result
            (λ returned. WholeRun I.next_gives args
            (λ run. canonical_result self.now (texts run.items) ≡ returned)) }
        ensures written { IfOk result (λ returned. IfSome returned (λ line.
            WholeRun I.next_gives args
            (λ run. IsWritten self.now (texts run.items) (map string_bytes line.items)))) }
        ensures unwritable { IfOk result (λ returned. IfNone returned (WholeRun I.next_gives args
            (λ run. IsUnwritable self.now (texts run.items)))) }
        ensures refused { IfErr result
            (λ fail. IsOutOfMemoryOr fail (λ fault. WholeRun I.next_gives args
            (λ run. IsRefused self.now (texts run.items) fault))) }
        ensures laws { OnOk result (KeepsLineLaws self.now) }
        ensures read_again { OnOk result (LinesReadAgain self.now) }
    {
        let words = words_from(alloc, args)?;
        self.canonical_words(alloc, &words)
    }

    /// Rewrites an accepted command line like `canonical`, from a borrowed list of words.
    ///
    /// It doesn't copy the list, and its contract is about the list itself. The Rust crate has no
    /// such method.
    pub fn canonical_words<S: AsStr>(
        &self,
        alloc: Global,
        words: &[S],
    ) -> Result<Option<Vec<String>>, Fail>
        ensures result { ReturnsConverted (option_map (λ line. map string_bytes line.items)) result
            (λ returned. canonical_result self.now (map S.text words.now) ≡ returned) }
        ensures written { IfOk result (λ returned. IfSome returned (λ line.
            IsWritten self.now (map S.text words.now) (map string_bytes line.items))) }
        ensures unwritable { IfOk result (λ returned. IfNone returned
            (IsUnwritable self.now (map S.text words.now))) }
        ensures refused { IfErr result (λ fail. IsOutOfMemoryOr fail
            (IsRefused self.now (map S.text words.now))) }
        ensures laws { OnOk result (KeepsLineLaws self.now) }
        ensures read_again { OnOk result (LinesReadAgain self.now) }
    {
        words_are_texts(words);
        names_resolve(self);
        let order = self.parse_in_order(alloc, words)?;
        let groups = self.groups();
        if are_plain(groups, &order) {
            Ok(Some(canonical_line(alloc, groups, &order)?))
        } else {
            Ok(None)
        }
    }
}
