//! The result of parsing, as it is stored: options with their values by group, and free words.

ghost use Rattle.std.specs.Prelude.{◌≡◌, ◌==◌, ◌↔◌, IsTrue, length, map, IfErr, IfOk, OnOk, Some, None};
ghost use Rattle.std.specs.Cmp.Lexicographic.{pointwise};
ghost use Rattle.std.specs.Cmp.Rules.{comparing};
ghost use Rattle.std.specs.List.{list_any};
ghost use Rattle.std.specs.Option.{option_map};
ghost use Rattle.std.specs.String.{string_bytes};
ghost use Rattle.std.proofs.Common.{rules};
ghost use Rattle.getopts.specs.Accessors.{HaveLawfulNames, is_present, occurrences_of_group};
ghost use Rattle.getopts.specs.Accessors.{occurrences_of_name, opt_place};
ghost use Rattle.getopts.specs.Fail.{IsOutOfMemoryOr};
ghost use Rattle.getopts.specs.Matches.{KeepsCounts, IsCountFault, matched};
ghost use Rattle.getopts.specs.Parse.{ReturnsConverted};
ghost use Rattle.getopts.specs.Results.{counted_result, first_count_fault};
ghost use Rattle.getopts.specs.Stored.Index.{index_of, indices_in};
ghost use Rattle.getopts.specs.Stored.Signatures.{names_in};
ghost use Rattle.getopts.specs.Stored.Table.{IsTableOf};

use crate::counts::check_counts;
use crate::fail::Fail;
use crate::index::Index;
use crate::occurrences::{LineOccurrences, Occurrences};
use crate::scan::Line;
use crate::signatures::Signatures;
use crate::table::Table;
use std::alloc::{AllocError, Global};
use std::marker::Model;

/// The result of parsing a command line: its options by name, and its free words.
///
/// After `let matches = options.parse_words(alloc, &["-v", "a"])?`, `matches.opt_present("v")` is
/// true and `matches.free` is `["a"]`.
#[derive(Debug, Drop)]
pub struct Matches {
    /// The free words, in command-line order. You may change them: accessors ignore this field,
    /// even `free_trailing_start`. Only `==`, `clone` and `{:?}` use it.
    pub free: Vec<String>,
    pub(crate) held: MatchedOptions,
    pub(crate) trailing_start: Option<usize>,
}

impl Model for Matches {
    ghost use Rattle.getopts.specs.Matches.{Matched};
    ghost use Rattle.std.specs.Prelude.{map};
    ghost use Rattle.std.specs.String.{string_bytes};

    ghost Value = { Matched };

    ghost view = { λ a. record {
      groups = a.held;
      free = map string_bytes a.free.items;
      trailing_start = a.trailing_start;
    } };
}

impl Matches {
    pub(crate) fn of_line(signatures: Signatures, table: Table, line: Line, index: Index) -> Matches
        requires table { IsTableOf (names_in signatures) table }
        requires index { indices_in index ≡ index_of (length signatures) line.found }
        ensures { result ≡ record {
          groups = matched 0 signatures line.found;
          free = map string_bytes line.free.items;
          trailing_start = line.trailing_start;
        } }
    {
        let Line {
            found,
            free,
            trailing_start,
        } = line;
        Matches {
            free,
            held: MatchedOptions {
                signatures,
                table,
                found,
                index,
            },
            trailing_start,
        }
    }

    /// Checks how often options occur in matches of `parse_ignoring_counts`, as `parse_words` does.
    ///
    /// Returns the error of the first option, in order of declaration, that is missing or was given
    /// too often. Matches of `parse_words` have no such error. The Rust crate has no such method.
    pub fn check_counts(&self, alloc: Global) -> Result<(), Fail>
        ensures result { ReturnsConverted (λ _. self.now) result
            (λ returned. counted_result self.now ≡ returned) }
        ensures kept { OnOk result (KeepsCounts self.now.groups) }
        ensures broken { IfErr result
            (λ fail. IsOutOfMemoryOr fail (IsCountFault self.now.groups)) }
    {
        self.held.check_counts(alloc)
    }
}

impl Clone for Matches {
    ghost is_clone = { λ a b. b ≡ a };

    /// Copies the options with their values, and the free words. Fails only if an allocation fails.
    fn clone(&self) -> Result<Matches, AllocError>
        ensures same { IfOk result (λ copy. copy ≡ self.now) }
    {
        Ok(Matches {
            free: self.free.clone()?,
            held: self.held.clone()?,
            trailing_start: self.trailing_start,
        })
    }
}

/// Whether two lists of words are equal.
fn same_words(words: &[String], others: &[String]) -> bool
    ensures { result
        ≡ pointwise (pointwise ◌==◌) (map string_bytes words.now) (map string_bytes others.now) }
{
    words == others
}

impl PartialEq for Matches {
    ghost use Rattle.getopts.specs.Same.{same_matches};

    ghost eq = { same_matches };

    ghost laws = { Prim.search (comparing, rules) depth 12 };

    /// Whether the groups, their occurrences, the free words and the trailing starts are equal.
    ///
    /// A group's names, kinds, positions and values count, but its hint and description don't. The
    /// order of different options within a cluster doesn't count: the matches of `-ab` and `-ba`
    /// are equal. Allocates nothing, and visits the occurrences of both once.
    fn eq(&self, other: &Matches) -> bool
        ensures result { result ≡ same_matches self.now other.now }
        ensures same { IsTrue result ↔ (self.now ≡ other.now) }
    {
        self.held.same(&other.held)
            && same_words(&self.free, &other.free)
            && self.trailing_start == other.trailing_start
    }
}

impl Eq for Matches {
    ghost laws = { Prim.search (comparing, rules) depth 12 };
}

#[derive(Debug)]
pub(crate) struct MatchedOptions {
    signatures: Signatures,
    table: Table,
    found: LineOccurrences,
    index: Index,
}

impl Drop for MatchedOptions {
    fn drop(self) {
        let MatchedOptions {
            signatures: _,
            table: _,
            found: _,
            index: _,
        } = self;
    }
}

impl Model for MatchedOptions {
    ghost use Rattle.std.specs.Prelude.{List};
    ghost use Rattle.getopts.specs.Matches.{MatchedGroup};
    ghost use Rattle.getopts.specs.Stored.Matches.{matched_view, KeepsGroups};

    ghost Value = { List MatchedGroup };

    ghost view = { matched_view };

    ghost invariant = { KeepsGroups };
}

impl MatchedOptions {
    ghost use Rattle.getopts.specs.Same.{same_matched_group};

    pub(crate) fn signatures(&self) -> &Signatures
        ensures { map (λ group. group.signature) self.now ≡ result.now }
    {
        &self.signatures
    }

    pub(crate) fn opt_place(&self, name: &str) -> Option<usize>
        ensures place { result ≡ opt_place self.now name.now }
        ensures lawful { HaveLawfulNames self.now }
    {
        self.table.resolve(&self.signatures, name)
    }

    #[inline]
    pub(crate) fn occurrences_of_group(&self, place: usize) -> Occurrences<'_>
        ensures { result ≡ occurrences_of_group self.now place }
    {
        Occurrences::of(&self.found, self.index.indices(place))
    }

    /// The occurrences of the option with this name, or `None` if the name isn't defined.
    #[inline]
    pub(crate) fn occurrences(&self, name: &str) -> Option<Occurrences<'_>>
        ensures { result ≡ option_map (occurrences_of_group self.now) (opt_place self.now name.now) }
    {
        let place = self.opt_place(name)?;
        Some(self.occurrences_of_group(place))
    }

    pub(crate) fn occurrences_of_name(&self, name: &str) -> Occurrences<'_>
        ensures { result ≡ occurrences_of_name self.now name.now }
    {
        match self.occurrences(name) {
            Some(occurrences) => occurrences,
            None => Occurrences::of(&self.found, &[]),
        }
    }

    /// Checks how often each option occurs, in order of declaration.
    #[tactic(auto, using(crate::proofs::counts::Groups::first_wrong_matched))]
    pub(crate) fn check_counts(&self, alloc: Global) -> Result<(), Fail>
        ensures ok { OnOk result (first_count_fault self.now ≡ None) }
        ensures err { IfErr result (λ fail. IsOutOfMemoryOr fail
            (λ fault. first_count_fault self.now ≡ Some fault)) }
    {
        check_counts(alloc, &self.signatures, &self.index)
    }

    /// Whether an option was given. An undefined option counts as not given.
    pub(crate) fn has(&self, name: &str) -> bool
        ensures { result ≡ is_present self.now name.now }
    {
        !self.occurrences_of_name(name).is_empty()
    }

    /// Whether any of the named options was given.
    pub(crate) fn opts_present(&self, names: &[String]) -> bool
        ensures { result ≡ list_any (λ name. is_present self.now (string_bytes name)) names.now }
    {
        names.iter().any(|name| self.has(name.as_str()))
    }

    // Inlined, it would slow down its caller.
    #[inline(never)]
    pub(crate) fn same(&self, other: &MatchedOptions) -> bool
        ensures { result ≡ pointwise same_matched_group self.now other.now }
    {
        if self.signatures != other.signatures {
            return false;
        }
        for place in 0..self.signatures.len() {
            if !self
                .occurrences_of_group(place)
                .same(&other.occurrences_of_group(place))
            {
                return false;
            }
        }
        true
    }
}

impl Clone for MatchedOptions {
    ghost is_clone = { λ a b. b ≡ a };

    fn clone(&self) -> Result<MatchedOptions, AllocError> {
        Ok(MatchedOptions {
            signatures: self.signatures.clone()?,
            table: self.table.clone()?,
            found: self.found.clone()?,
            index: self.index.clone()?,
        })
    }
}
