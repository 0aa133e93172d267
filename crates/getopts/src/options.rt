//! Options: the groups that a caller declares, a parsing style and a mode.

ghost use Rattle.std.specs.Prelude.{◌≡◌, ◌↔◌, [], false, IfOk, IsTrue, OnOk, OnErr, length, slice_get};
ghost use Rattle.std.specs.Option.{option_map};
ghost use Rattle.getopts.specs.Accessors.{borrowed_group};
ghost use Rattle.std.specs.Borrow.{sem};
ghost use Rattle.std.specs.Cmp.Rules.{comparing};
ghost use Rattle.std.proofs.Common.{rules};
ghost use Rattle.getopts.specs.Names.{AreLawful};
ghost use Rattle.getopts.specs.Stored.Signatures.{AreLawfulSignatures};
ghost use Rattle.getopts.specs.Borrows.{UnchangedIfErr};
ghost use Rattle.getopts.specs.Options.{group_of, with_group, signatures_of, MayBeDeclared};

use crate::groups::{Groups, OptGroup};
use crate::kinds::HasArg::{Maybe, No, Yes};
use crate::kinds::Occur::{Multi, Optional, Req};
use crate::kinds::{HasArg, Kinds, Occur, ParsingStyle};
use crate::signatures::Signatures;
use std::alloc::{AllocError, Global};
use std::marker::Model;

/// The options of a program: option groups, a parsing style and a mode. Methods such as `optflag`
/// add groups, `parse` reads a command line, and `usage` formats help.
#[derive(Debug)]
pub struct Options {
    groups: Groups,
    style: ParsingStyle,
    long_only: bool,
}

impl Drop for Options {
    fn drop(self) {
        let Options {
            groups: _,
            style: _,
            long_only: _,
        } = self;
    }
}

impl Model for Options {
    ghost use Rattle.getopts.specs.Options.{Declared};

    ghost Value = { Declared };

    ghost view = { λ a. record {
      groups = a.groups;
      style = a.style;
      long_only = a.long_only;
    } };
}

impl Options {
    /// Creates options without groups, in the style `FloatingFrees` and in ordinary mode.
    ///
    /// Allocates nothing. Methods that add a group use `alloc`, which the Rust crate doesn't take.
    pub fn new(alloc: Global) -> Options
        ensures empty { result ≡ record {
          groups = [];
          style = ParsingStyle.FloatingFrees;
          long_only = false;
        } }
    {
        Options {
            groups: Groups::new(alloc),
            style: ParsingStyle::FloatingFrees,
            long_only: false,
        }
    }

    /// Adds an option, with any kind of argument and any number of occurrences, as the last group.
    ///
    /// `options.add_group("o", "output", "write to FILE", "FILE", HasArg::Yes, Occur::Multi)?` does
    /// the same as `opt`, but doesn't return the options. Use it to add options in a loop, or to
    /// continue after an error: a caller's proof then knows that the options are unchanged. `opt`
    /// and similar methods promise this too, but generated proofs of callers can't use the promise.
    ///
    /// Requires valid names (see `names_lawful`). Fails only if an allocation fails. The Rust crate
    /// has no such method.
    #[inline]
    pub fn add_group(
        &mut self,
        short_name: &str,
        long_name: &str,
        desc: &str,
        hint: &str,
        hasarg: HasArg,
        occur: Occur,
    ) -> Result<(), AllocError>
        requires { AreLawful short_name.now long_name.now }
        ensures added { OnOk result (self.new ≡ with_group self.old
            (group_of short_name.now long_name.now desc.now hint.now hasarg occur)) }
        ensures unchanged { OnErr result (self.new ≡ self.old) }
    {
        let kinds = Kinds {
            kind: hasarg,
            occur,
        };
        self.groups.push(short_name, long_name, hint, desc, kinds)
    }

    /// Sets whether options may follow the first free word. Groups and mode stay as they are.
    ///
    /// With `options.parsing_style(ParsingStyle::StopAtFirstFree)` every word from the first free
    /// one on is free, which suits programs that run another program. Returns the same options. As
    /// in the Rust crate, it allocates nothing.
    pub fn parsing_style(&mut self, style: ParsingStyle) -> &mut Options
        ensures set { result.now ≡ record self.old { style = style } }
        ensures same_options { result.ghost_name ≡ self.entry.ghost_name }
    {
        self.style = style;
        self
    }

    /// Turns long-only mode on or off. Groups and style stay as they are.
    ///
    /// In long-only mode a long name may follow one dash or two, and short options can't be
    /// combined in one word: after `options.long_only(true)` the word `-verbose` is the option
    /// `verbose`. Returns the same options. As in the Rust crate, it allocates nothing.
    pub fn long_only(&mut self, long_only: bool) -> &mut Options
        ensures set { result.now ≡ record self.old { long_only = long_only } }
        ensures same_options { result.ghost_name ≡ self.entry.ghost_name }
    {
        self.long_only = long_only;
        self
    }
}

// What was declared.
impl Options {
    /// Returns how many options were declared.
    ///
    /// Places, as in `Given` and from `opt_place`, are below this number. Allocates nothing. The
    /// Rust crate has no such method.
    pub fn len(&self) -> usize
        ensures count { result ≡ length self.now.groups }
    {
        self.groups.len()
    }

    /// Returns the declared option at a place, its index in the order of declaration, or `None` if
    /// fewer options were declared.
    ///
    /// Use it to name an option that a `Reader` or `parse_in_order` returned by its place, or to
    /// print what help texts don't contain, such as a manual page:
    ///
    /// ```
    /// for place in 0..options.len() {
    ///     if let Some(option) = options.get(place) {
    ///         writeln!(out, "--{}: {}", option.long_name, option.desc)?;
    ///     }
    /// }
    /// ```
    ///
    /// Allocates nothing. The Rust crate has no such method.
    pub fn get(&self, place: usize) -> Option<OptGroup<'_>>
        ensures group { option_map borrowed_group result ≡ slice_get self.now.groups place }
    {
        if place < self.groups.len() {
            Some(self.groups.get(place))
        } else {
            None
        }
    }
}

// Methods that add a group, named as in the Rust crate.
impl Options {
    ghost use Rattle.getopts.specs.Declaring.{optflag, optflagmulti, optflagopt, optmulti, optopt, reqopt};

    /// Adds an option, with any kind of argument and any number of occurrences, as the last group.
    ///
    /// Usage texts show `hint` in place of the argument, and `desc` as the description. With the
    /// names `c` and `color`, `HasArg::Maybe` and `Occur::Multi`, a command line may contain `-c`
    /// and `--color=auto` any number of times.
    ///
    /// Requires valid names (see `names_lawful`). Fails only if an allocation fails; the options
    /// are then unchanged. Callers that have to prove this use `add_group`. Returns the same
    /// options, so that calls can be chained with `?`.
    ///
    /// The Rust crate panics here if a name is too long or too short, and accepts two empty names,
    /// on which its `parse` panics.
    pub fn opt(
        &mut self,
        short_name: &str,
        long_name: &str,
        desc: &str,
        hint: &str,
        hasarg: HasArg,
        occur: Occur,
    ) -> Result<&mut Options, AllocError>
        requires { AreLawful short_name.now long_name.now }
        ensures* unchanged { sem 𝓛 (UnchangedIfErr self.entry result) }
        ensures added { IfOk result (λ options. options.now ≡ with_group self.old
            (group_of short_name.now long_name.now desc.now hint.now hasarg occur)) }
        ensures same_options { IfOk result (λ options.
            options.ghost_name ≡ self.entry.ghost_name) }
    {
        match self.add_group(short_name, long_name, desc, hint, hasarg, occur) {
            Ok(()) => Ok(self),
            Err(error) => Err(error),
        }
    }

    /// Adds an option without an argument that may occur once.
    ///
    /// `options.optflag("q", "quiet", "say less")?` accepts `-q` or `--quiet`, once per command
    /// line. As in the Rust crate, usage texts show no hint for it. Requirements, result and errors
    /// are the same as for `opt`.
    pub fn optflag(
        &mut self,
        short_name: &str,
        long_name: &str,
        desc: &str,
    ) -> Result<&mut Options, AllocError>
        requires { AreLawful short_name.now long_name.now }
        ensures* unchanged { sem 𝓛 (UnchangedIfErr self.entry result) }
        ensures added { IfOk result (λ options. options.now ≡ with_group self.old
            (optflag short_name.now long_name.now desc.now)) }
        ensures same_options { IfOk result (λ options.
            options.ghost_name ≡ self.entry.ghost_name) }
    {
        self.opt(short_name, long_name, desc, "", No, Optional)
    }

    /// Adds an option without an argument that may occur any number of times.
    ///
    /// `options.optflagmulti("v", "verbose", "say more")?` accepts `-v`, `-vvv` and `-v --verbose`.
    /// As in the Rust crate, usage texts show no hint for it. Requirements, result and errors are
    /// the same as for `opt`.
    pub fn optflagmulti(
        &mut self,
        short_name: &str,
        long_name: &str,
        desc: &str,
    ) -> Result<&mut Options, AllocError>
        requires { AreLawful short_name.now long_name.now }
        ensures* unchanged { sem 𝓛 (UnchangedIfErr self.entry result) }
        ensures added { IfOk result (λ options. options.now ≡ with_group self.old
            (optflagmulti short_name.now long_name.now desc.now)) }
        ensures same_options { IfOk result (λ options.
            options.ghost_name ≡ self.entry.ghost_name) }
    {
        self.opt(short_name, long_name, desc, "", No, Multi)
    }

    /// Adds an option with an optional argument that may occur once.
    ///
    /// `options.optflagopt("c", "color", "colour the output", "WHEN")?` accepts `--color`,
    /// `--color=auto` and, in ordinary mode, `-cauto` and `-c auto`.
    ///
    /// - A long name takes an argument only after `=`. In `--color auto`, `auto` is a free word.
    /// - A short name doesn't take a next word that begins with a dash, except `-`. In `-c -v`, `c`
    ///   has no argument, and `v` is another option. In `-c -`, the argument is `-`.
    ///
    /// Requirements, result and errors are the same as for `opt`.
    pub fn optflagopt(
        &mut self,
        short_name: &str,
        long_name: &str,
        desc: &str,
        hint: &str,
    ) -> Result<&mut Options, AllocError>
        requires { AreLawful short_name.now long_name.now }
        ensures* unchanged { sem 𝓛 (UnchangedIfErr self.entry result) }
        ensures added { IfOk result (λ options. options.now ≡ with_group self.old
            (optflagopt short_name.now long_name.now desc.now hint.now)) }
        ensures same_options { IfOk result (λ options.
            options.ghost_name ≡ self.entry.ghost_name) }
    {
        self.opt(short_name, long_name, desc, hint, Maybe, Optional)
    }

    /// Adds an option with a mandatory argument that may occur any number of times.
    ///
    /// `options.optmulti("L", "", "add a folder", "DIR")?` reads `-L a -Lb` as two folders.
    /// Requirements, result and errors are the same as for `opt`.
    pub fn optmulti(
        &mut self,
        short_name: &str,
        long_name: &str,
        desc: &str,
        hint: &str,
    ) -> Result<&mut Options, AllocError>
        requires { AreLawful short_name.now long_name.now }
        ensures* unchanged { sem 𝓛 (UnchangedIfErr self.entry result) }
        ensures added { IfOk result (λ options. options.now ≡ with_group self.old
            (optmulti short_name.now long_name.now desc.now hint.now)) }
        ensures same_options { IfOk result (λ options.
            options.ghost_name ≡ self.entry.ghost_name) }
    {
        self.opt(short_name, long_name, desc, hint, Yes, Multi)
    }

    /// Adds an option with a mandatory argument that may occur once.
    ///
    /// `options.optopt("o", "output", "set the output file", "NAME")?` accepts `-o a`, `-oa`,
    /// `--output a` and `--output=a`. Requirements, result and errors are the same as for `opt`.
    pub fn optopt(
        &mut self,
        short_name: &str,
        long_name: &str,
        desc: &str,
        hint: &str,
    ) -> Result<&mut Options, AllocError>
        requires { AreLawful short_name.now long_name.now }
        ensures* unchanged { sem 𝓛 (UnchangedIfErr self.entry result) }
        ensures added { IfOk result (λ options. options.now ≡ with_group self.old
            (optopt short_name.now long_name.now desc.now hint.now)) }
        ensures same_options { IfOk result (λ options.
            options.ghost_name ≡ self.entry.ghost_name) }
    {
        self.opt(short_name, long_name, desc, hint, Yes, Optional)
    }

    /// Adds a required option with a mandatory argument: it has to occur exactly once.
    ///
    /// `options.reqopt("i", "input", "read this file", "NAME")?` accepts `-i a`, and rejects a
    /// command line without `input` with `Fail::OptionMissing`. Requirements, result and errors are
    /// the same as for `opt`.
    pub fn reqopt(
        &mut self,
        short_name: &str,
        long_name: &str,
        desc: &str,
        hint: &str,
    ) -> Result<&mut Options, AllocError>
        requires { AreLawful short_name.now long_name.now }
        ensures* unchanged { sem 𝓛 (UnchangedIfErr self.entry result) }
        ensures added { IfOk result (λ options. options.now ≡ with_group self.old
            (reqopt short_name.now long_name.now desc.now hint.now)) }
        ensures same_options { IfOk result (λ options.
            options.ghost_name ≡ self.entry.ghost_name) }
    {
        self.opt(short_name, long_name, desc, hint, Yes, Req)
    }
}

impl Options {
    pub(crate) fn style(&self) -> ParsingStyle
        ensures { result ≡ self.now.style }
    {
        self.style
    }

    pub(crate) fn is_long_only(&self) -> bool
        ensures { result ≡ self.now.long_only }
    {
        self.long_only
    }

    pub(crate) fn groups(&self) -> &Groups
        ensures { result.now ≡ self.now.groups }
    {
        &self.groups
    }

    pub(crate) fn signatures(&self) -> &Signatures
        ensures signatures { result.now ≡ signatures_of self.now.groups }
        ensures declared { MayBeDeclared self.now.groups }
        ensures lawful { AreLawfulSignatures result.now }
    {
        self.groups.signatures()
    }
}

impl Clone for Options {
    ghost is_clone = { λ a b. b ≡ a };

    /// Copies the groups in order, the style and the mode. Fails only if an allocation fails.
    fn clone(&self) -> Result<Options, AllocError>
        ensures same { IfOk result (λ copy. copy ≡ self.now) }
    {
        Ok(Options {
            groups: self.groups.clone()?,
            style: self.style,
            long_only: self.long_only,
        })
    }
}

impl PartialEq for Options {
    ghost use Rattle.getopts.specs.Same.{same_options};

    ghost eq = { same_options };

    ghost laws = { Prim.search (comparing, rules) depth 12 };

    /// Whether all six parts of each group in order, the style and the mode are equal.
    fn eq(&self, other: &Options) -> bool
        ensures result { result ≡ same_options self.now other.now }
        ensures same { IsTrue result ↔ (self.now ≡ other.now) }
    {
        self.groups == other.groups
            && self.style == other.style
            && self.long_only == other.long_only
    }
}

impl Eq for Options {
    ghost laws = { Prim.search (comparing, rules) depth 12 };
}
