//! Signatures of option groups, which are their names and kinds.

ghost use Rattle.std.specs.Prelude.{◌≡◌, ◌++◌, ◌∷◌, [], Some, ◌+◌, ◌*◌, ◌<◌, ◌^◌, length};
ghost use Rattle.std.specs.Prelude.{slice_get, OnOk, OnErr};
ghost use Rattle.std.specs.Option.{option_map};
ghost use Rattle.std.specs.Cmp.Lexicographic.{pointwise};
ghost use Rattle.std.specs.Cmp.Rules.{comparing};
ghost use Rattle.std.proofs.Common.{rules};
ghost use Rattle.getopts.specs.Names.{AreLawful, IsLawfullyNamed, main_name};
ghost use Rattle.getopts.specs.Stored.Signatures.{signature_view, names_in, signature_with};
ghost use Rattle.getopts.specs.Stored.Signatures.{HasKeys, ends_of};
ghost use Rattle.getopts.specs.Stored.Names.{names_at};

use crate::adjacent::{FIRST_TEXT, PairEnds, first_at, push_pair, second_at};
use crate::kinds::Kinds;
use crate::names::{key_of, short_byte};
use std::alloc::{AllocError, Global};
use std::marker::Model;

/// Initial capacity: up to this many groups fit without reallocating.
pub(crate) const FIRST_GROUPS: usize = 32;

/// A signature, borrowed.
#[derive(Clone, Copy, PartialEq, Eq)]
pub(crate) struct SignatureView<'g> {
    pub short: &'g str,
    pub long: &'g str,
    pub kinds: Kinds,
}

/// A group as it is stored. `long` and `end` are where its long name starts and ends in the text of
/// all names. A record has 32 bytes, so that the first list, of `FIRST_GROUPS` records, fits in
/// malloc's cache.
#[derive(Debug, Clone, Copy, PartialEq, Eq)]
pub(crate) struct SignatureRecord {
    pub long: usize,
    pub end: usize,
    /// The key of the main name.
    pub key: u64,
    /// The byte of the short name, if there is one.
    pub short: Option<u8>,
    pub has_long: bool,
    pub kinds: Kinds,
}

impl SignatureRecord {
    /// Where the names are in the text of all names. A short name is the byte before the long name.
    #[inline(always)]
    fn ends(&self) -> PairEnds
        ensures { result ≡ ends_of self.now }
    {
        let start = match self.short {
            Some(_) => self.long.saturating_sub(1),
            None => self.long,
        };
        PairEnds {
            start,
            middle: self.long,
            end: self.end,
        }
    }
}

/// What parsing needs of groups with valid names. `text` has the short and long name of each group
/// in turn.
#[derive(Debug, Drop)]
pub(crate) struct Signatures {
    text: String,
    records: Vec<SignatureRecord>,
}

impl Model for Signatures {
    ghost use Rattle.std.specs.Prelude.{List};
    ghost use Rattle.getopts.specs.Options.{Signature};
    ghost use Rattle.getopts.specs.Stored.Signatures.{signatures_view, HoldSignatures};

    ghost Value = { List Signature };

    ghost view = { signatures_view };

    ghost invariant = { HoldSignatures };
}

impl Signatures {
    ghost use Rattle.getopts.specs.Stored.Signatures.{kinds_of};

    /// Allocates nothing.
    pub(crate) fn new(alloc: Global) -> Signatures
        ensures { result ≡ [] }
    {
        Signatures {
            text: String::new(alloc),
            records: Vec::new(alloc),
        }
    }

    #[inline]
    pub(crate) fn len(&self) -> usize
        ensures len { result ≡ length self.now }
        ensures small { 2 * result < 2 ^ 64 }
    {
        self.records.len()
    }

    #[inline(always)]
    pub(crate) fn record(&self, place: usize) -> SignatureRecord
        requires { place < length self.now }
        ensures keys { HasKeys result (names_at (names_in self.now) place) }
        ensures kinds { Some result.kinds ≡ option_map kinds_of (slice_get self.now place) }
        ensures lawful { IsLawfullyNamed (names_at (names_in self.now) place) }
    {
        self.records[place]
    }

    #[inline(always)]
    pub(crate) fn short(&self, place: usize) -> &str
        requires { place < length self.now }
        ensures { result.now ≡ (names_at (names_in self.now) place).short }
    {
        first_at(&self.text, self.records[place].ends())
    }

    #[inline(always)]
    pub(crate) fn long(&self, place: usize) -> &str
        requires { place < length self.now }
        ensures { result.now ≡ (names_at (names_in self.now) place).long }
    {
        second_at(&self.text, self.records[place].ends())
    }

    #[inline(always)]
    pub(crate) fn main(&self, place: usize) -> &str
        requires { place < length self.now }
        ensures { result.now ≡ main_name (names_at (names_in self.now) place) }
    {
        if self.record(place).has_long {
            self.long(place)
        } else {
            self.short(place)
        }
    }

    /// Past the last group, the name is empty: sorting and searching a table need closures that
    /// accept any entry.
    pub(crate) fn long_or_empty(&self, place: usize) -> &str
        ensures { result.now ≡ (names_at (names_in self.now) place).long }
    {
        if place < self.len() {
            self.long(place)
        } else {
            ""
        }
    }

    #[inline(always)]
    pub(crate) fn get(&self, place: usize) -> SignatureView<'_>
        requires { place < length self.now }
        ensures { Some (signature_view result) ≡ slice_get self.now place }
    {
        SignatureView {
            short: self.short(place),
            long: self.long(place),
            kinds: self.record(place).kinds,
        }
    }

    #[inline]
    pub(crate) fn push(&mut self, short: &str, long: &str, kinds: Kinds) -> Result<(), AllocError>
        requires { AreLawful short.now long.now }
        ensures ok { OnOk result
            (self.new ≡ self.old ++ signature_with kinds short.now long.now ∷ []) }
        ensures err { OnErr result (self.new ≡ self.old) }
    {
        let bytes = short.len().saturating_add(long.len());
        if self.records.is_empty() {
            self.records.reserve(FIRST_GROUPS)?;
            self.text.reserve(bytes.max(FIRST_TEXT))?;
        } else {
            self.records.reserve(1)?;
            self.text.reserve(bytes)?;
        }
        let names = push_pair(&mut self.text, short, long);
        let has_long = !long.is_empty();
        let main = if has_long { long } else { short };
        self.records.push_reserved(SignatureRecord {
            long: names.middle,
            end: names.end,
            key: key_of(main.as_bytes()),
            short: short_byte(short),
            has_long,
            kinds,
        });
        Ok(())
    }
}

impl Clone for Signatures {
    ghost is_clone = { λ a b. b ≡ a };

    #[inline(always)]
    fn clone(&self) -> Result<Signatures, AllocError> {
        Ok(Signatures {
            text: self.text.clone()?,
            records: self.records.clone()?,
        })
    }
}

impl PartialEq for Signatures {
    ghost use Rattle.getopts.specs.Same.{same_signature};

    ghost eq = { pointwise same_signature };

    ghost laws = { Prim.search (comparing, rules) depth 12 };

    fn eq(&self, other: &Signatures) -> bool {
        if self.text == other.text && self.records == other.records {
            return true;
        }
        if self.len() != other.len() {
            return false;
        }
        for place in 0..self.len() {
            if self.get(place) != other.get(place) {
                return false;
            }
        }
        true
    }
}
