//! Names that are known only at run time, and lists of them.

ghost use Rattle.std.specs.Prelude.{◌≡◌, ◌↔◌, [], None, length, IfSome, IsSome, IsTrue};
ghost use Rattle.std.specs.List.{list_any};
ghost use Rattle.getopts.specs.Prelude.{IsDefined, is_present, occurrences_of_name};
ghost use Rattle.getopts.specs.Accessors.{AreDefined, opt_place};
ghost use Rattle.getopts.specs.Names.{texts};

use getopts::{Matches, held_names_resolve};

/// How often an option was given, if there is one with this name.
pub fn count_of(matches: &Matches, name: &str) -> Option<usize>
    ensures defined { IsSome result ↔ IsDefined matches.now.groups name.now }
    ensures count { IfSome result (λ count.
        count ≡ length (occurrences_of_name matches.now.groups name.now)) }
{
    if matches.opt_defined(name) {
        Some(matches.opt_count(name))
    } else {
        None
    }
}

/// The place of the option that a line in a list names. An empty line names none.
pub fn place_named(matches: &Matches, line: &str) -> Option<usize>
    ensures place { result ≡ opt_place matches.now.groups line.now }
    ensures empty { line.now ≡ [] → result ≡ None }
{
    held_names_resolve(matches);
    matches.opt_place(line)
}

/// Whether all names are defined.
fn all_defined(matches: &Matches, names: &[&str]) -> bool
    ensures { IsTrue result ↔ AreDefined matches.now.groups (texts names.now) }
{
    match names {
        [first, others @ ..] => matches.opt_defined(first) && all_defined(matches, others),
        [] => true,
    }
}

/// Whether one of these options was given, if all names are defined.
pub fn any_given(matches: &Matches, names: &[&str]) -> Option<bool>
    ensures defined { IsSome result ↔ AreDefined matches.now.groups (texts names.now) }
    ensures given { IfSome result (λ given. given
        ≡ list_any (λ name. is_present matches.now.groups name.now) names.now) }
{
    if all_defined(matches, names) {
        Some(matches.opts_present_any(names))
    } else {
        None
    }
}
