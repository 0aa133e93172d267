//! Parsing styles, and the kinds of an option: its kind of argument and its kind of occurrence.

/// Whether options may follow the first free word.
#[derive(Debug, Clone, Copy, PartialEq, Eq)]
pub enum ParsingStyle {
    /// Options and free words may be mixed. This is the style of `Options::new`.
    FloatingFrees,
    /// All words from the first free one on are free, even if they begin with a dash.
    StopAtFirstFree,
}

/// Whether an option takes an argument.
#[derive(Debug, Clone, Copy, PartialEq, Eq)]
pub enum HasArg {
    /// The option needs an argument, in the same word or as the next one.
    Yes,
    /// The option never has an argument.
    No,
    /// The argument is optional. After a name in long form, it follows `=`. After a short name in a
    /// cluster, it is the rest of the word or, if nothing is left, the next word. A next word that
    /// begins with a dash isn't taken, unless it is just `-`.
    Maybe,
}

/// How often an option may occur.
#[derive(Debug, Clone, Copy, PartialEq, Eq)]
pub enum Occur {
    /// Exactly once. Otherwise the command line is rejected with `OptionMissing` or
    /// `OptionDuplicated`.
    Req,
    /// At most once. Otherwise the command line is rejected with `OptionDuplicated`.
    Optional,
    /// Any number of times.
    Multi,
}

#[derive(Debug, Clone, Copy, PartialEq, Eq)]
pub(crate) struct Kinds {
    pub kind: HasArg,
    pub occur: Occur,
}
