//! Command-line options: declared groups, a list of words, and the only reading of those words.
//!
//! ```
//! use getopts::{Fail, Options};
//! use std::alloc::Global;
//!
//! fn output(alloc: Global, words: &[&str]) -> Result<Option<String>, Fail> {
//!     let mut options = Options::new(alloc);
//!     options
//!         .optopt("o", "output", "set output file name", "NAME")?
//!         .optflagmulti("v", "verbose", "say more")?;
//!     let matches = options.parse_words(alloc, words)?;
//!     Ok(matches.opt_str(alloc, "output")?)
//! }
//! ```
//!
//! Attributes `inline` and initial capacities are kept only if they saved instructions when
//! measured.
#![tactic(auto)]

// What a caller declares.
mod adjacent;
mod groups;
mod kinds;
mod names;
mod options;
mod signatures;

// Reading a command line.
mod counts;
mod fail;
mod index;
mod occurrences;
mod scan;
mod table;

// What callers get.
mod accessors;
mod canon;
mod matches;
mod parse;

// Help texts.
mod help;
mod row;
mod usage;
pub mod wrap;

// The main theorem, and other lemmas for proofs.
mod laws;

pub use fail::Fail;
pub use groups::OptGroup;
pub use kinds::{HasArg, Occur, ParsingStyle};
pub use matches::Matches;
pub use names::names_lawful;
pub use occurrences::{Occurrences, Values};
pub use options::Options;
pub use scan::{Given, Reader, Unread};
pub use usage::UsageRows;

/// What `parse` returns: the matches of an accepted command line, or why it was rejected.
pub type Result = std::result::Result<Matches, Fail>;

// Lemmas for proofs. A function calls one if its own proof needs the facts in the lemma's contract.
// Other callers don't need them.
pub use laws::{
    declared_options_keep_laws, equal_input_equal_results, held_names_resolve, names_resolve,
    one_reading_one_canonical_line, results_are_computed, traces_are_orders,
    usage_texts_are_computed,
};
pub use scan::words_are_texts;
