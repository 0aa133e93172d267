//! The errors of `parse`.

ghost use Rattle.std.specs.Prelude.{◌≡◌, ◌++◌, ◌↔◌, Some, Ok, IfOk, IfSome, IsTrue};
ghost use Rattle.std.specs.Cmp.Rules.{comparing};
ghost use Rattle.std.proofs.Common.{rules};
ghost use Rattle.getopts.specs.Fail.{IsOutOfMemoryOr, argument_missing, fail_text, fault_name};
ghost use Rattle.getopts.specs.Fail.{fault_of, unexpected_argument, unrecognized_option};
ghost use Rattle.getopts.specs.declared.fail.Fail.TheVariants.{OutOfMemory};

use std::alloc::{AllocError, AllocFailed, Global};
use std::error::Error;
use std::fmt;

/// Why a command line was rejected.
///
/// `ArgumentMissing`, `UnrecognizedOption` and `UnexpectedArgument` report the first word that
/// can't be read, with the name as typed. If every word can be read, occurrences are counted:
/// `OptionMissing` and `OptionDuplicated` report the first option, in order of declaration, that is
/// missing or was given too often. They contain its main name, which is the long name or, if there
/// is none, the short name.
///
/// Errors are printed as in the Rust crate, with names as given, even if these contain control
/// characters. To escape them for a terminal or a log, print the three `parts`. The `?` operator
/// turns an `AllocError` into `OutOfMemory`.
#[derive(Debug, Drop)]
pub enum Fail {
    /// The command line ends before the option's argument. Contains the name as typed.
    ArgumentMissing(String),
    /// No option has this name. Contains the name as typed or, in a cluster, the character.
    UnrecognizedOption(String),
    /// A required option is missing. Contains its main name.
    OptionMissing(String),
    /// An option that may occur once occurs again. Contains its main name.
    OptionDuplicated(String),
    /// An argument is attached to an option that takes none. Contains the name as typed.
    UnexpectedArgument(String),
    /// An allocation failed. The Rust crate aborts the process instead, and has no such variant.
    OutOfMemory,
}

impl Clone for Fail {
    ghost is_clone = { λ a b. fault_of b ≡ fault_of a };

    /// Copies the error with its name. Fails only if an allocation fails; copying `OutOfMemory`
    /// allocates nothing.
    fn clone(&self) -> Result<Fail, AllocError>
        ensures same { IfOk result (λ copy. fault_of copy ≡ fault_of self.now) }
        ensures nameless { self.now ≡ OutOfMemory → result ≡ Ok OutOfMemory }
    {
        Ok(match self {
            Fail::ArgumentMissing(name) => Fail::ArgumentMissing(name.clone()?),
            Fail::UnrecognizedOption(name) => Fail::UnrecognizedOption(name.clone()?),
            Fail::OptionMissing(name) => Fail::OptionMissing(name.clone()?),
            Fail::OptionDuplicated(name) => Fail::OptionDuplicated(name.clone()?),
            Fail::UnexpectedArgument(name) => Fail::UnexpectedArgument(name.clone()?),
            Fail::OutOfMemory => Fail::OutOfMemory,
        })
    }
}

impl PartialEq for Fail {
    ghost use Rattle.getopts.specs.Same.{same_fail};

    ghost eq = { same_fail };

    ghost laws = { Prim.search (comparing, rules) depth 12 };

    /// Whether both are the same variant, with the same name.
    fn eq(&self, other: &Fail) -> bool
        ensures result { result ≡ same_fail self.now other.now }
        ensures same { IsTrue result ↔ (fault_of self.now ≡ fault_of other.now) }
    {
        match (self, other) {
            (Fail::ArgumentMissing(name), Fail::ArgumentMissing(named)) => name == named,
            (Fail::UnrecognizedOption(name), Fail::UnrecognizedOption(named)) => name == named,
            (Fail::OptionMissing(name), Fail::OptionMissing(named)) => name == named,
            (Fail::OptionDuplicated(name), Fail::OptionDuplicated(named)) => name == named,
            (Fail::UnexpectedArgument(name), Fail::UnexpectedArgument(named)) => name == named,
            (Fail::OutOfMemory, Fail::OutOfMemory) => true,
            _ => false,
        }
    }
}

impl Eq for Fail {
    ghost laws = { Prim.search (comparing, rules) depth 12 };
}

impl fmt::Display for Fail {
    ghost output = { λ fail. Some (fail_text fail) };

    fn fmt<W: fmt::Write>(&self, f: &mut fmt::Formatter<W>) -> fmt::Result {
        let (before, name, after) = self.parts();
        write!(f, "{before}{name}{after}")
    }
}

impl Error for Fail {}

impl From<AllocError> for Fail {
    ghost from_gives = { λ _ e. e ≡ OutOfMemory };

    fn from(_error: AllocError) -> Fail {
        Fail::OutOfMemory
    }
}

impl<T: Drop> From<AllocFailed<T>> for Fail {
    ghost from_gives = { λ _ e. e ≡ OutOfMemory };

    fn from(_error: AllocFailed<T>) -> Fail {
        Fail::OutOfMemory
    }
}

impl Fail {
    /// Returns the printed message in three parts: the text before the name, the name, and the text
    /// after it.
    ///
    /// A missing option `n` gives `("Required option '", "n", "' missing")`. Use it to print the
    /// name in another way. For `OutOfMemory`, the first part is the message. The Rust crate has no
    /// such method.
    pub fn parts(&self) -> (&str, &str, &str)
        ensures message { fail_text self.now ≡ result.0.now ++ (result.1.now ++ result.2.now) }
        ensures name { IfSome (fault_of self.now) (λ fault. result.1.now ≡ fault_name fault) }
    {
        match self {
            Fail::ArgumentMissing(name) => ("Argument to option '", name.as_str(), "' missing"),
            Fail::UnrecognizedOption(name) => ("Unrecognized option: '", name.as_str(), "'"),
            Fail::OptionMissing(name) => ("Required option '", name.as_str(), "' missing"),
            Fail::OptionDuplicated(name) => ("Option '", name.as_str(), "' given more than once"),
            Fail::UnexpectedArgument(name) => {
                ("Option '", name.as_str(), "' does not take an argument")
            }
            Fail::OutOfMemory => ("Out of memory", "", ""),
        }
    }
}

// Each of these returns an error with a copy of the name, or `OutOfMemory` if the name can't be
// copied.
impl Fail {
    pub(crate) fn argument_missing(alloc: Global, name: &str) -> Fail
        ensures { IsOutOfMemoryOr result (λ fault. fault ≡ argument_missing name.now) }
    {
        String::from_str(alloc, name).map_or(Fail::OutOfMemory, Fail::ArgumentMissing)
    }

    pub(crate) fn unrecognized_option(alloc: Global, name: &str) -> Fail
        ensures { IsOutOfMemoryOr result (λ fault. fault ≡ unrecognized_option name.now) }
    {
        String::from_str(alloc, name).map_or(Fail::OutOfMemory, Fail::UnrecognizedOption)
    }

    pub(crate) fn unexpected_argument(alloc: Global, name: &str) -> Fail
        ensures { IsOutOfMemoryOr result (λ fault. fault ≡ unexpected_argument name.now) }
    {
        String::from_str(alloc, name).map_or(Fail::OutOfMemory, Fail::UnexpectedArgument)
    }
}
