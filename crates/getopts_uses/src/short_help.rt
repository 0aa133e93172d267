//! Help as soon as `-h` is read, even if the rest of its word is an error, as in `-hx`.

ghost use Rattle.std.specs.Prelude.{◌≡◌, ◌∷◌, [], codes, map, IfErr, IfOk, None, Some};
ghost use Rattle.std.specs.Option.{option_map};
ghost use Rattle.getopts.specs.Prelude.{borrowed_given, fault_of, option};
ghost use Rattle.getopts_uses.specs.ShortHelp.{help_options};

use getopts::{Fail, Given, Options, Unread};
use std::alloc::{AllocError, Global};
use std::convert::AsStr;

/// The options: help alone.
fn options(alloc: Global) -> Result<Options, AllocError>
    ensures { IfOk result (λ options. options ≡ help_options) }
{
    let mut options = Options::new(alloc);
    options.optflag("h", "help", "print this help")?;
    Ok(options)
}

/// The first option or free word of a command line.
#[tactic(auto, unfolding(getopts::proofs::OnLiterals::getopts_on_literals))]
pub fn first_given<'w, S: AsStr>(alloc: Global, words: &'w [S]) -> Result<Option<Given<'w>>, Fail>
    ensures help { map S.text words.now ≡ codes "-hx" ∷ []
        → IfOk result (λ given. option_map borrowed_given given ≡ Some (option 0 None)) }
    ensures no_error { map S.text words.now ≡ codes "-hx" ∷ []
        → IfErr result (λ fail. fault_of fail ≡ None) }
{
    let options = options(alloc)?;
    let reader = options.reader(alloc)?;
    let mut unread = Unread::new(words);
    reader.next(alloc, &mut unread)
}
