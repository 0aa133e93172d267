//! Options whose names are known only at run time, as with plugins.

ghost use Rattle.std.specs.Prelude.{◌≡◌, ◌↔◌, [], if◌then◌else◌, IfOk, IsTrue, OnErr};
ghost use Rattle.getopts.specs.Names.{AreLawful};
ghost use Rattle.getopts.specs.Prelude.{group_of};
ghost use Rattle.getopts.specs.Options.{with_group};

use getopts::{HasArg, Occur, Options, names_lawful};
use std::alloc::AllocError;

/// Adds a flag with this long name if the name is valid, and returns whether it was added.
pub fn add_flag(options: &mut Options, name: &str, does: &str) -> Result<bool, AllocError>
    ensures lawful { IfOk result (λ added. IsTrue added ↔ AreLawful [] name.now) }
    ensures added { IfOk result (λ added. options.new ≡ (if added then with_group options.old
        (group_of [] name.now does.now [] HasArg.No Occur.Optional) else options.old)) }
    ensures unchanged { OnErr result (options.new ≡ options.old) }
{
    if !names_lawful("", name) {
        return Ok(false);
    }
    options.add_group("", name, does, "", HasArg::No, Occur::Optional)?;
    Ok(true)
}
