//! Declared groups: signatures with their hints and descriptions.

ghost use Rattle.std.specs.Prelude.{◌≡◌, ◌++◌, ◌∷◌, [], Some, ◌<◌, length, slice_get, OnOk, OnErr};
ghost use Rattle.std.specs.Cmp.Lexicographic.{pointwise};
ghost use Rattle.std.specs.Cmp.Rules.{comparing};
ghost use Rattle.std.proofs.Common.{rules};
ghost use Rattle.getopts.specs.Names.{AreLawful};
ghost use Rattle.getopts.specs.Options.{MayBeDeclared, group_of, signatures_of};
ghost use Rattle.getopts.specs.Canon.{main_at};
ghost use Rattle.getopts.specs.Stored.Signatures.{AreLawfulSignatures};

use crate::adjacent::{FIRST_TEXT, PairEnds, first_at, push_pair, second_at};
use crate::kinds::{HasArg, Kinds, Occur};
use crate::signatures::{FIRST_GROUPS, Signatures};
use std::alloc::{AllocError, Global};
use std::marker::Model;

/// A declared option. Its fields are what was passed to `opt` or a similar method.
///
/// The Rust crate has no such public type.
#[derive(Debug, Clone, Copy)]
pub struct OptGroup<'o> {
    /// Its short name, or `""` if it has none.
    pub short_name: &'o str,
    /// Its long name, or `""` if it has none.
    pub long_name: &'o str,
    /// What help texts show in place of its argument.
    pub hint: &'o str,
    /// Its description in help texts.
    pub desc: &'o str,
    /// Whether it takes an argument.
    pub hasarg: HasArg,
    /// How often it may occur.
    pub occur: Occur,
}

impl<'o> PartialEq for OptGroup<'o> {
    ghost use Rattle.std.specs.Ordering.{on};
    ghost use Rattle.getopts.specs.Accessors.{borrowed_group};
    ghost use Rattle.getopts.specs.Same.{same_group};

    ghost eq = { on borrowed_group same_group };

    ghost laws = { Prim.search (comparing, rules) depth 12 };

    /// Whether all fields are equal.
    fn eq(&self, other: &OptGroup<'o>) -> bool {
        (self.short_name == other.short_name
            && self.long_name == other.long_name
            && (self.hasarg == other.hasarg && self.occur == other.occur))
            && (self.hint == other.hint && self.desc == other.desc)
    }
}

impl<'o> Eq for OptGroup<'o> {
    ghost laws = { Prim.search (comparing, rules) depth 12 };
}

/// Groups with valid names. `texts` has the hints and descriptions of all groups, and `ends` says
/// where they are.
#[derive(Debug, Drop)]
pub(crate) struct Groups {
    signatures: Signatures,
    texts: String,
    ends: Vec<PairEnds>,
}

impl Model for Groups {
    ghost use Rattle.std.specs.Prelude.{List};
    ghost use Rattle.getopts.specs.Options.{Group};
    ghost use Rattle.getopts.specs.Stored.Groups.{groups_view, HoldGroups};

    ghost Value = { List Group };

    ghost view = { groups_view };

    ghost invariant = { HoldGroups };
}

impl Groups {
    ghost use Rattle.getopts.specs.Accessors.{borrowed_group};

    /// Allocates nothing.
    pub(crate) fn new(alloc: Global) -> Groups
        ensures { result ≡ [] }
    {
        Groups {
            signatures: Signatures::new(alloc),
            texts: String::new(alloc),
            ends: Vec::new(alloc),
        }
    }

    pub(crate) fn len(&self) -> usize
        ensures { result ≡ length self.now }
    {
        self.ends.len()
    }

    pub(crate) fn signatures(&self) -> &Signatures
        ensures signatures { result.now ≡ signatures_of self.now }
        ensures declared { MayBeDeclared self.now }
        ensures lawful { AreLawfulSignatures result.now }
    {
        &self.signatures
    }

    pub(crate) fn main(&self, place: usize) -> &str
        requires { place < length self.now }
        ensures { result.now ≡ main_at self.now place }
    {
        self.signatures.main(place)
    }

    pub(crate) fn get(&self, place: usize) -> OptGroup<'_>
        requires { place < length self.now }
        ensures { Some (borrowed_group result) ≡ slice_get self.now place }
    {
        let signature = self.signatures.get(place);
        let pair = self.ends[place];
        OptGroup {
            short_name: signature.short,
            long_name: signature.long,
            hint: first_at(&self.texts, pair),
            desc: second_at(&self.texts, pair),
            hasarg: signature.kinds.kind,
            occur: signature.kinds.occur,
        }
    }

    #[inline]
    pub(crate) fn push(
        &mut self,
        short: &str,
        long: &str,
        hint: &str,
        desc: &str,
        kinds: Kinds,
    ) -> Result<(), AllocError>
        requires { AreLawful short.now long.now }
        ensures ok { OnOk result (self.new ≡ self.old
            ++ group_of short.now long.now desc.now hint.now kinds.kind kinds.occur ∷ []) }
        ensures err { OnErr result (self.new ≡ self.old) }
    {
        let bytes = hint.len().saturating_add(desc.len());
        if self.ends.is_empty() {
            self.ends.reserve(FIRST_GROUPS)?;
            self.texts.reserve(bytes.max(FIRST_TEXT))?;
        } else {
            self.ends.reserve(1)?;
            self.texts.reserve(bytes)?;
        }
        self.signatures.push(short, long, kinds)?;
        let pair = push_pair(&mut self.texts, hint, desc);
        self.ends.push_reserved(pair);
        Ok(())
    }
}

impl Clone for Groups {
    ghost is_clone = { λ a b. b ≡ a };

    fn clone(&self) -> Result<Groups, AllocError> {
        Ok(Groups {
            signatures: self.signatures.clone()?,
            texts: self.texts.clone()?,
            ends: self.ends.clone()?,
        })
    }
}

impl PartialEq for Groups {
    ghost use Rattle.getopts.specs.Same.{same_group};

    ghost eq = { pointwise same_group };

    ghost laws = { Prim.search (comparing, rules) depth 12 };

    fn eq(&self, other: &Groups) -> bool {
        if self.len() != other.len() {
            return false;
        }
        for place in 0..self.len() {
            if self.get(place) != other.get(place) {
                return false;
            }
        }
        true
    }
}
