//! A wrapper of another command: its own options, then `--` and the words that it passes on.

ghost use Rattle.std.specs.Prelude.{◌≡◌, [], ◌∷◌, true, codes, map, Err, IfErr, IfOk, Ok};
ghost use Rattle.std.specs.String.{string_bytes};
ghost use Rattle.getopts.specs.Prelude.{IsOutOfMemoryOr, Matched, is_present, parse_result};
ghost use Rattle.getopts_uses.specs.Wrapper.{HandsOn, wrapper_options};

use getopts::{Fail, Options};
use std::alloc::{AllocError, Global};
use std::convert::AsStr;

/// The wrapper's own options.
fn options(alloc: Global) -> Result<Options, AllocError>
    ensures { IfOk result (λ options. options ≡ wrapper_options) }
{
    let mut options = Options::new(alloc);
    options.optflag("v", "verbose", "say what is run")?;
    Ok(options)
}

/// A command line written out, with its matches: this is how to test definitions before proving
/// anything with them.
fn matches_of_a_line()
    ensures { (matches : Matched)
        × (parse_result wrapper_options
        (codes "-v" ∷ codes "--" ∷ codes "ls" ∷ codes "-l" ∷ []) ≡ Ok matches)
        × (is_present matches.groups (codes "verbose") ≡ true)
        × (matches.free ≡ codes "ls" ∷ codes "-l" ∷ []) }
{}

/// The words that a command line passes on: those after its `--`, unchanged.
pub fn handed_on<S: AsStr>(alloc: Global, words: &[S]) -> Result<Vec<String>, Fail>
    ensures handed { IfOk result (λ handed.
        HandsOn (map S.text words.now) (map string_bytes handed.items)) }
    ensures refused { IfErr result (λ fail. IsOutOfMemoryOr fail (λ fault.
        parse_result wrapper_options (map S.text words.now) ≡ Err fault)) }
{
    let options = options(alloc)?;
    let mut matches = options.parse_words(alloc, words)?;
    match matches.free_trailing_start() {
        Some(start) => Ok(matches.free.split_off(start)?),
        None => Ok(Vec::new(alloc)),
    }
}
