//! Whether a command line gives a flag.

ghost use Rattle.std.specs.Prelude.{◌≡◌, codes, map, Err, IfErr, IfOk, Ok};
ghost use Rattle.getopts.specs.Prelude.{Declares, IsOutOfMemoryOr, Matched, is_present};
ghost use Rattle.getopts.specs.Prelude.{parse_result};

use getopts::{Fail, Options};
use std::alloc::Global;
use std::convert::AsStr;

/// Whether a command line asks for more output, for any options with this flag.
pub fn says_more<S: AsStr>(alloc: Global, options: &Options, words: &[S]) -> Result<bool, Fail>
    requires { Declares options.now (codes "verbose") }
    ensures said { IfOk result (λ more. (matches : Matched)
        × (parse_result options.now (map S.text words.now) ≡ Ok matches)
        × (more ≡ is_present matches.groups (codes "verbose"))) }
    ensures refused { IfErr result (λ fail. IsOutOfMemoryOr fail (λ fault.
        parse_result options.now (map S.text words.now) ≡ Err fault)) }
{
    let matches = options.parse_words(alloc, words)?;
    Ok(matches.opt_present("verbose"))
}
