//! What the program is asked for, and the script that asks.

ghost use Rattle.std.specs.Prelude.{◌≡◌, None};
ghost use Rattle.getopts_shell.specs.Program.{asked_fault, options_in};
ghost use Rattle.getopts_shell.specs.Stored.{asked_of, entries_of, groups_of};

use crate::table::Table;
use crate::variables::Variables;
use getopts::Options;

/// What the program's own words ask for.
#[derive(Drop)]
pub(crate) struct Asked {
    pub brief: Option<String>,
    pub stop: bool,
    pub long_only: bool,
    pub usage: bool,
    pub complete: Option<String>,
    pub complete_words: Option<String>,
    pub variables: Option<String>,
    pub arrays: bool,
}

/// A script: what it asks for, its name, what its table declares, and its options.
#[derive(Clone, Copy)]
pub(crate) struct Script<'s> {
    pub asked: &'s Asked,
    pub name: &'s str,
    pub table: &'s Table<'s>,
    pub options: &'s Options,
    ghost options_are: { options.now
        ≡ options_in (asked_of asked.now) (groups_of table.now.rows.items) },
    ghost no_fault: { asked_fault (asked_of asked.now) (entries_of table.now.rows.items) ≡ None },
}

impl<'s> Script<'s> {
    /// How its options become variables whose names begin with a prefix.
    pub(crate) fn variables(self, prefix: &'s str) -> Variables<'s>
        ensures { (result.prefix.now ≡ prefix.now) × (result.arrays ≡ self.entry.asked.now.arrays) }
    {
        Variables {
            prefix,
            arrays: self.asked.arrays,
        }
    }
}
