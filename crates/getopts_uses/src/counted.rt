//! Two calls that return what `parse_words` does. Between them, a program may look for help.

ghost use Rattle.std.specs.Prelude.{map, IfErr, IfOk};
ghost use Rattle.getopts.specs.Parse.{Accepts, IsRefused};
ghost use Rattle.getopts.specs.Prelude.{FitOptionsAndCounts, IsOutOfMemoryOr, ReturnsResult};
ghost use Rattle.getopts.specs.Prelude.{parse_result};

use getopts::Options;
use std::alloc::Global;
use std::convert::AsStr;

/// The matches of a command line, or its first error.
pub fn read_counted<S: AsStr>(alloc: Global, options: &Options, words: &[S]) -> getopts::Result
    ensures result { ReturnsResult result (parse_result options.now (map S.text words.now)) }
    ensures accepted { IfOk result (Accepts options.now (map S.text words.now)) }
    ensures refused { IfErr result (λ fail. IsOutOfMemoryOr fail
        (IsRefused options.now (map S.text words.now))) }
    ensures declared { IfOk result (λ matches. FitOptionsAndCounts options.now matches.groups) }
{
    let matches = options.parse_ignoring_counts(alloc, words)?;
    matches.check_counts(alloc)?;
    Ok(matches)
}
