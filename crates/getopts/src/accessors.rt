//! What matches return for an option's name.

ghost use Rattle.std.specs.Prelude.{◌≡◌, ◌↔◌, IsTrue, map, length, vec_len, ◌<◌, IfOk, IsOk};
ghost use Rattle.std.specs.Prelude.{[], IfSome};
ghost use Rattle.std.specs.List.{list_any};
ghost use Rattle.std.specs.Option.{option_copied, option_map};
ghost use Rattle.std.specs.String.{string_bytes};
ghost use Rattle.getopts.specs.Accessors.{AreDefined, HaveLawfulNames, IsDefined, IsParsedAs};
ghost use Rattle.getopts.specs.Accessors.{IsParsedOr, first_value, first_value_among, first_value_or};
ghost use Rattle.getopts.specs.Accessors.{occurrences_of_group, is_present, occurrences_of_name};
ghost use Rattle.getopts.specs.Accessors.{pair_view, pairs_of, opt_place, positions_of, values_of};
ghost use Rattle.getopts.specs.Names.{texts};

use crate::matches::Matches;
use crate::occurrences::{Occurrences, Values, copied};
use std::alloc::{AllocError, Global};
use std::convert::AsStr;
use std::str::FromStr;

impl Matches {
    /// Returns the index of the option group that a name resolves to, in the order of declaration.
    ///
    /// Names that resolve to the same group give the same index. Returns `None` if `opt_defined` is
    /// false. After `optopt("o",..)` and `optflag("v",..)`, `v` gives `Some(1)`. The Rust crate has
    /// no such method.
    pub fn opt_place(&self, name: &str) -> Option<usize>
        ensures place { result ≡ opt_place self.now.groups name.now }
        ensures lawful { HaveLawfulNames self.now.groups }
    {
        self.held.opt_place(name)
    }

    /// Borrows the occurrences of the option group at an index, in command-line order.
    ///
    /// `opt_place` gives the index of a name. The result is empty if the option wasn't given, or if
    /// there is no such group. After `-v -o x`, with `optopt("o",..)` and `optflag("v",..)`, place
    /// 0 has one occurrence, with position 1 and the value `x`. The Rust crate has no such method.
    #[inline]
    pub fn occurrences_at(&self, place: usize) -> Occurrences<'_>
        ensures occurrences { result ≡ occurrences_of_group self.now.groups place }
    {
        self.held.occurrences_of_group(place)
    }

    /// Borrows the occurrences of an option, in command-line order.
    ///
    /// The result is empty if the option wasn't given. After `-v -o x`, `occurrences("o")` has one
    /// occurrence, with position 1 and the value `x`. Requires a defined name (see `opt_defined`).
    /// The Rust crate has no such method.
    #[inline]
    pub fn occurrences(&self, name: &str) -> Occurrences<'_>
        requires { IsDefined self.now.groups name.now }
        ensures occurrences { result ≡ occurrences_of_name self.now.groups name.now }
    {
        self.held.occurrences_of_name(name)
    }

    /// Borrows the value of an option's first occurrence.
    ///
    /// Like `opt_str`, but copies nothing, and can't fail. Requires a defined name (see
    /// `opt_defined`). The Rust crate has no such method.
    pub fn value(&self, name: &str) -> Option<&str>
        requires { IsDefined self.now.groups name.now }
        ensures value { option_copied result
            ≡ first_value (occurrences_of_name self.now.groups name.now) }
    {
        self.held.occurrences_of_name(name).first_value()
    }

    /// Iterates over the values of an option's occurrences, in command-line order.
    ///
    /// Like `opt_strs`, but copies nothing, and can't fail. After `-La -L b`, `values("L")` yields
    /// `a` and `b`. Requires a defined name (see `opt_defined`). The Rust crate has no such method.
    #[inline]
    pub fn values(&self, name: &str) -> Values<'_>
        requires { IsDefined self.now.groups name.now }
        ensures values { result ≡ values_of (occurrences_of_name self.now.groups name.now) }
    {
        Values::of(self.held.occurrences_of_name(name))
    }

    /// Whether an option was given. An undefined option counts as not given.
    pub(crate) fn has(&self, name: &str) -> bool
        ensures { result ≡ is_present self.now.groups name.now }
    {
        self.held.has(name)
    }

    /// Whether a name resolves to a group.
    ///
    /// Use this to test the precondition of the methods that take one name; the Rust crate panics
    /// there if the name is undefined. Names are written without dashes: `opt_defined("verbose")`.
    pub fn opt_defined(&self, name: &str) -> bool
        ensures defined { IsTrue result ↔ IsDefined self.now.groups name.now }
        ensures lawful { HaveLawfulNames self.now.groups }
    {
        self.opt_place(name).is_some()
    }

    /// How often an option was given, by either name. This is 3 after `-vv --verbose`.
    ///
    /// Returns 0 if the option wasn't given. Requires a defined name (see `opt_defined`); the Rust
    /// crate panics on others.
    pub fn opt_count(&self, name: &str) -> usize
        requires { IsDefined self.now.groups name.now }
        ensures count { result ≡ length (occurrences_of_name self.now.groups name.now) }
    {
        self.held.occurrences_of_name(name).len()
    }

    /// Whether an option was given, by either name.
    ///
    /// Requires a defined name (see `opt_defined`); the Rust crate panics on others.
    pub fn opt_present(&self, name: &str) -> bool
        requires { IsDefined self.now.groups name.now }
        ensures present { result ≡ is_present self.now.groups name.now }
        ensures counted { IsTrue result
            ↔ (0 < length (occurrences_of_name self.now.groups name.now)) }
    {
        self.has(name)
    }

    /// Returns the positions of an option's occurrences, in command-line order.
    ///
    /// A position is the index, from 0, of the word in which the option or its cluster begins.
    /// Options of one cluster share a position. A separate argument counts as a word. After `-v -o
    /// x -vv` the positions of `v` are 0, 3 and 3. The result is empty if the option wasn't given.
    /// Requires a defined name (see `opt_defined`). Fails only if an allocation fails.
    ///
    /// The Rust crate doesn't count separate arguments.
    pub fn opt_positions(&self, alloc: Global, name: &str) -> Result<Vec<usize>, AllocError>
        requires { IsDefined self.now.groups name.now }
        ensures positions { IfOk result (λ positions. positions.items
            ≡ positions_of (occurrences_of_name self.now.groups name.now)) }
        ensures count { IfOk result (λ positions. vec_len positions
            ≡ length (occurrences_of_name self.now.groups name.now)) }
        ensures absent { occurrences_of_name self.now.groups name.now ≡ [] → IsOk result }
    {
        self.held.occurrences_of_name(name).positions(alloc)
    }

    /// Returns the values of an option's occurrences, in command-line order.
    ///
    /// After `-La -L b` the values of `L` are `a` and `b`. Occurrences without a value are skipped,
    /// so there may be fewer values than `opt_count` says. The result is empty if the option wasn't
    /// given. Requires a defined name (see `opt_defined`). Fails only if an allocation fails.
    pub fn opt_strs(&self, alloc: Global, name: &str) -> Result<Vec<String>, AllocError>
        requires { IsDefined self.now.groups name.now }
        ensures values { IfOk result (λ values. map string_bytes values.items
            ≡ values_of (occurrences_of_name self.now.groups name.now)) }
        ensures absent { values_of (occurrences_of_name self.now.groups name.now) ≡ []
            → IsOk result }
    {
        self.held.occurrences_of_name(name).values(alloc)
    }

    /// Returns the positions and values of an option's occurrences that have a value, in
    /// command-line order.
    ///
    /// Positions and values are as in `opt_positions` and `opt_strs`. The position is the position
    /// of the option, even if its argument is a separate word. The result is empty if the option
    /// wasn't given. Requires a defined name (see `opt_defined`). Fails only if an allocation
    /// fails.
    pub fn opt_strs_pos(
        &self,
        alloc: Global,
        name: &str,
    ) -> Result<Vec<(usize, String)>, AllocError>
        requires { IsDefined self.now.groups name.now }
        ensures pairs { IfOk result (λ pairs. map pair_view pairs.items
            ≡ pairs_of (occurrences_of_name self.now.groups name.now)) }
        ensures texts { IfOk result (λ pairs. map (λ pair. string_bytes pair.1) pairs.items
            ≡ values_of (occurrences_of_name self.now.groups name.now)) }
        ensures absent { values_of (occurrences_of_name self.now.groups name.now) ≡ []
            → IsOk result }
    {
        self.held.occurrences_of_name(name).pairs(alloc)
    }

    /// Returns the value of an option's first occurrence.
    ///
    /// After `-ofile` the value of `o` is `file`. Returns `None` if the option wasn't given, or if
    /// its first occurrence has no value. Values of later occurrences don't count (see `opt_strs`).
    /// After `parse`, a required option with a mandatory argument has a value. Requires a defined
    /// name (see `opt_defined`). Fails only if an allocation fails.
    pub fn opt_str(&self, alloc: Global, name: &str) -> Result<Option<String>, AllocError>
        requires { IsDefined self.now.groups name.now }
        ensures value { IfOk result (λ value. option_map string_bytes value
            ≡ first_value (occurrences_of_name self.now.groups name.now)) }
        ensures absent { IfSome (first_value (occurrences_of_name self.now.groups name.now))
            (λ value. value ≡ []) → IsOk result }
    {
        self.held.occurrences_of_name(name).first_copy(alloc)
    }

    /// Returns the value of an option's first occurrence, or `def` if it has no value.
    ///
    /// Returns `None` only if the option wasn't given. After `--color` alone, `opt_default(alloc,
    /// "color", "always")` is `always`. Requires a defined name (see `opt_defined`). Fails only if
    /// an allocation fails.
    pub fn opt_default(
        &self,
        alloc: Global,
        name: &str,
        def: &str,
    ) -> Result<Option<String>, AllocError>
        requires { IsDefined self.now.groups name.now }
        ensures value { IfOk result (λ value. option_map string_bytes value
            ≡ first_value_or (occurrences_of_name self.now.groups name.now) def.now) }
        ensures absent { IfSome (first_value_or (occurrences_of_name self.now.groups name.now) def.now)
            (λ value. value ≡ []) → IsOk result }
    {
        self.held
            .occurrences_of_name(name)
            .first_copy_or(alloc, def)
    }

    /// Parses the value of an option's first occurrence as a `T`.
    ///
    /// After `-n 7`, `opt_get::<u8>("n")` is `Ok(Some(7))`. Returns `Ok(None)` if there is no
    /// value, for example because the option wasn't given, and the error of `T` if parsing fails.
    /// Requires a defined name (see `opt_defined`). Parses the text in place; the Rust crate copies
    /// it first.
    pub fn opt_get<T: FromStr>(&self, name: &str) -> Result<Option<T>, T::Err>
        requires { IsDefined self.now.groups name.now }
        ensures parsed { IsParsedAs T.from_str_gives
            (first_value (occurrences_of_name self.now.groups name.now)) result }
    {
        self.held.occurrences_of_name(name).first_parsed()
    }

    /// Parses the value of an option's first occurrence as a `T`, or returns `def` if there is no
    /// value.
    ///
    /// Returns the error of `T` if parsing fails; `def` doesn't replace a value that can't be
    /// parsed. Requires a defined name (see `opt_defined`). Parses the text in place; the Rust
    /// crate copies it first.
    pub fn opt_get_default<T: FromStr + Drop>(&self, name: &str, def: T) -> Result<T, T::Err>
        requires { IsDefined self.now.groups name.now }
        ensures parsed { IsParsedOr T.from_str_gives
            (first_value (occurrences_of_name self.now.groups name.now)) def result }
    {
        self.held.occurrences_of_name(name).first_parsed_or(def)
    }

    /// Returns the index, among the free words, of the first word after `--`.
    ///
    /// After `a -- b` it is `Some(1)`. Returns `None` if no word follows a `--` that ends the
    /// options. Later changes to `free` don't affect it.
    pub fn free_trailing_start(&self) -> Option<usize>
        ensures start { result ≡ self.now.trailing_start }
    {
        self.trailing_start
    }

    /// Whether any of the named options was given.
    ///
    /// Accepts any names; undefined names count as not given.
    pub fn opts_present(&self, names: &[String]) -> bool
        ensures present { result
            ≡ list_any (λ name. is_present self.now.groups (string_bytes name)) names.now }
    {
        self.held.opts_present(names)
    }

    /// Whether any of the named options was given, for defined names.
    ///
    /// Requires every name to be defined (see `opt_defined`). The Rust crate accepts any list of
    /// texts, and doesn't look at names after the first option that was given.
    pub fn opts_present_any(&self, names: &[&str]) -> bool
        requires { AreDefined self.now.groups (texts names.now) }
        ensures present { result ≡ list_any (λ name. is_present self.now.groups name.now) names.now }
    {
        names.iter().any(|name| self.has(name))
    }

    fn first_among<T: AsStr>(&self, names: &[T]) -> Option<&str>
        ensures { option_copied result
            ≡ first_value_among self.now.groups (map T.text names.now) }
    {
        for name in names {
            if let Some(value) = self.held.occurrences_of_name(name.as_str()).first_value() {
                return Some(value);
            }
        }
        None
    }

    /// Returns the value of the first named option whose first occurrence has a value.
    ///
    /// Returns `None` if there is no such option. Values of later occurrences don't count. Requires
    /// every name to be defined (see `opt_defined`); the Rust crate doesn't look at names after the
    /// first value. Fails only if an allocation fails.
    pub fn opts_str(&self, alloc: Global, names: &[String]) -> Result<Option<String>, AllocError>
        requires { AreDefined self.now.groups (map string_bytes names.now) }
        ensures value { IfOk result (λ value. option_map string_bytes value
            ≡ first_value_among self.now.groups (map string_bytes names.now)) }
        ensures absent { IfSome (first_value_among self.now.groups (map string_bytes names.now))
            (λ value. value ≡ []) → IsOk result }
    {
        copied(alloc, self.first_among(names))
    }

    /// Returns the value of the first named option whose first occurrence has a value, like
    /// `opts_str`.
    ///
    /// Returns `None` if there is no such option. Values of later occurrences don't count. Requires
    /// every name to be defined (see `opt_defined`). The Rust crate accepts any list of texts.
    /// Fails only if an allocation fails.
    pub fn opts_str_first(
        &self,
        alloc: Global,
        names: &[&str],
    ) -> Result<Option<String>, AllocError>
        requires { AreDefined self.now.groups (texts names.now) }
        ensures value { IfOk result (λ value. option_map string_bytes value
            ≡ first_value_among self.now.groups (texts names.now)) }
        ensures absent { IfSome (first_value_among self.now.groups (texts names.now))
            (λ value. value ≡ []) → IsOk result }
    {
        copied(alloc, self.first_among(names))
    }
}
