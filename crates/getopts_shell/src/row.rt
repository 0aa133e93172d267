//! A row of a table of options: the option that a line declares.

ghost use Rattle.getopts_shell.specs.Table.{MayBeNames};

use getopts::HasArg;

/// How often an option may occur, and which of its values count.
#[derive(Clone, Copy)]
pub enum Frequency {
    /// Exactly once: no brackets.
    Once,
    /// Any number of times; the last value counts: brackets.
    Last,
    /// Any number of times; all values count: brackets and dots.
    All,
    /// It stands alone: brackets and `!`.
    Alone,
}

/// An option with valid names, declared in the table's line with this number.
#[derive(Clone, Copy)]
pub struct Row<'t> {
    pub line: usize,
    pub short: &'t str,
    pub long: &'t str,
    pub kind: HasArg,
    pub frequency: Frequency,
    pub hint: &'t str,
    pub description: &'t str,
    ghost may_be: { MayBeNames short.now long.now },
}
