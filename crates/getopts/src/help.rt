//! What the rows of a usage text and the short usage share: the margin, hints, and texts with a
//! separator between them.

ghost use Rattle.std.specs.Prelude.{◌≡◌, ◌++◌, map, string_bytes, OnOk};
ghost use Rattle.getopts.specs.Usage.{argument_part};
ghost use Rattle.getopts.specs.Wrap.{joined, parting};

use crate::kinds::HasArg;
use std::alloc::AllocError;

/// The number of columns before a description.
pub(crate) const MARGIN: usize = 24;

pub(crate) fn push_argument(text: &mut String, kind: HasArg, hint: &str) -> Result<(), AllocError>
    ensures { OnOk result (string_bytes text.new ≡ string_bytes text.old
        ++ argument_part kind hint.now) }
{
    match kind {
        HasArg::Yes => text.push_str(hint),
        HasArg::No => Ok(()),
        HasArg::Maybe => {
            text.push('[')?;
            text.push_str(hint)?;
            text.push(']')
        }
    }
}

pub(crate) fn push_joined(
    text: &mut String,
    texts: &[String],
    separator: &str,
) -> Result<(), AllocError>
    ensures { OnOk result (string_bytes text.new ≡ string_bytes text.old
        ++ joined separator.now (map string_bytes texts.now)) }
{
    let mut begun = false;
    for part in texts {
        push_parting(text, begun, separator)?;
        text.push_str(part.as_str())?;
        begun = true;
    }
    Ok(())
}

fn push_parting(text: &mut String, begun: bool, separator: &str) -> Result<(), AllocError>
    ensures { OnOk result (string_bytes text.new ≡ string_bytes text.old
        ++ parting begun separator.now) }
{
    text.push_str(if begun { separator } else { "" })
}
