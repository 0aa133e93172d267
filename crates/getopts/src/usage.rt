//! Usage texts: all options in one line, and a row for each option with its description.

ghost use Rattle.std.specs.Prelude.{◌≡◌, ◌++◌, List, [], map, string_bytes, IfOk, IsOk, OnOk};
ghost use Rattle.std.specs.Iterator.{YieldsFirstBy, item_count};
ghost use Rattle.getopts.specs.Accessors.{borrowed_group};
ghost use Rattle.getopts.specs.Names.{Text};
ghost use Rattle.getopts.specs.Only.{IsTheOnly};
ghost use Rattle.getopts.specs.Usage.{AreUsageRows, AreUsageRowsIn, IsUsageText, IsUsageTextIn};
ghost use Rattle.getopts.specs.Usage.{any_short, option_name, option_text, short_usage_text};
ghost use Rattle.getopts.specs.Wrap.{joined};
ghost use Rattle.getopts.specs.UsageResults.{usage_in_result, usage_result, usage_rows_in_result, usage_rows_result};

use crate::groups::OptGroup;
use crate::help::{MARGIN, push_argument, push_joined};
use crate::kinds::{HasArg, Occur};
use crate::options::Options;
use crate::row::{Layout, row_of};
use std::alloc::{AllocError, Global};
use std::marker::Model;
use std::vec;

/// The columns of a usage text unless the caller chooses them.
const USUAL_COLUMNS: usize = MARGIN + 54;

/// The rows of a usage text, one for each option group, in order of declaration.
///
/// `Options::usage_with_format` passes them to its closure. All rows are built before, so `next`
/// allocates nothing.
///
/// A row begins with its head: the indentation, the names and the hint. The row contains a line end
/// after a head of 24 columns or more, and between the rows of the description, but not at its end.
///
/// In the Rust crate the closure gets a `&mut dyn Iterator`, which builds each row on demand.
#[derive(Debug, Drop)]
pub struct UsageRows {
    rows: vec::IntoIter<String>,
}

impl Model for UsageRows {
    ghost use Rattle.std.specs.Vec.Iter.{into_iter_items};
    ghost use Rattle.getopts.specs.Names.{Text};
    ghost use Rattle.std.specs.Prelude.{List, map, string_bytes};

    ghost Value = { List Text };

    ghost view = { λ it. map string_bytes (into_iter_items it.rows) };
}

impl Iterator for UsageRows {
    type Item = String;

    ghost next_gives = { YieldsFirstBy string_bytes (λ rest. rest) };

    ghost remaining = { item_count (λ rest. rest) };

    fn next(&mut self) -> Option<String> {
        self.rows.next()
    }
}

impl Options {
    /// Returns all options in one line, for the top of a usage text.
    ///
    /// Each option is shown by its short name. If it has none, it is shown by its long name, with
    /// two dashes even in long-only mode. The line has no line end. Without options, it ends with a
    /// space.
    ///
    /// ```
    /// options.reqopt("b", "banana", "Desc", "VAL")?.optflag("k", "kiwi", "Desc")?;
    /// let line = options.short_usage(alloc, "fruits")?;
    /// // "Usage: fruits -b VAL [-k]"
    /// ```
    ///
    /// Fails only if an allocation fails. In the Rust crate this method can't fail.
    pub fn short_usage(&self, alloc: Global, program_name: &str) -> Result<String, AllocError>
        ensures text { IfOk result (λ text.
            string_bytes text ≡ short_usage_text self.now program_name.now) }
    {
        let options = self.option_texts(alloc)?;
        let mut text = String::new(alloc);
        text.push_str("Usage: ")?;
        text.push_str(program_name)?;
        text.push(' ')?;
        push_joined(&mut text, &options, " ")?;
        Ok(text)
    }

    /// Returns the brief, then each option with its description, for a help screen.
    ///
    /// Descriptions begin after 24 columns, in rows of at most 54 columns. A wider word has a row
    /// of its own. A head (the indentation, the names and the hint) of 24 columns or more has a
    /// line of its own. Columns are counted by `unicode_width`, not in bytes, so descriptions are
    /// aligned even if names aren't ASCII. A line may end in spaces.
    ///
    /// ```
    /// options
    ///     .optopt("o", "output", "set output file name", "NAME")?
    ///     .optflag("h", "help", "print this")?;
    /// let text = options.usage(alloc, "Usage: copy [options] FILE")?;
    /// // Usage: copy [options] FILE
    /// //
    /// // Options:
    /// //     -o, --output NAME   set output file name
    /// //     -h, --help          print this
    /// ```
    ///
    /// Fails only if an allocation fails.
    ///
    /// In the Rust crate this method can't fail. That crate leaves out a short name that takes no
    /// column, such as a tab in old width tables. Here every short name that isn't empty is shown.
    pub fn usage(&self, alloc: Global, brief: &str) -> Result<String, AllocError>
        ensures text { IfOk result (λ text.
            IsTheOnly (IsUsageText self.now brief.now) (string_bytes text)) }

        ensures result { IfOk result (λ text. string_bytes text ≡ usage_result self.now brief.now) }
    {
        self.usage_in(alloc, brief, USUAL_COLUMNS)
    }

    /// Returns a usage text, as `usage` does, whose descriptions end within this many columns.
    ///
    /// Descriptions begin after 24 columns, in rows of at most `columns - 24`. A wider word has a
    /// row of its own. With 24 columns or fewer, every word has a row of its own. Heads, hints and
    /// the brief aren't wrapped, and may be wider. `usage(brief)` is `usage_in(brief, 78)`.
    ///
    /// ```
    /// options.optflag("h", "help", "print this help and exit")?;
    /// let text = options.usage_in(alloc, "Usage: copy [options] FILE", 40)?;
    /// // Usage: copy [options] FILE
    /// //
    /// // Options:
    /// //     -h, --help          print this help
    /// //                         and exit
    /// ```
    ///
    /// Fails only if an allocation fails. The Rust crate has no such method.
    pub fn usage_in(&self, alloc: Global, brief: &str, columns: usize) -> Result<String, AllocError>
        ensures text { IfOk result (λ text.
            IsTheOnly (IsUsageTextIn columns self.now brief.now) (string_bytes text)) }

        ensures result { IfOk result (λ text.
            string_bytes text ≡ usage_in_result columns self.now brief.now) }
    {
        let rows = self.usage_rows_in(alloc, columns)?;
        let mut text = String::from_str(alloc, brief)?;
        text.push_str("\n\nOptions:\n")?;
        push_joined(&mut text, &rows, "\n")?;
        text.push('\n')?;
        Ok(text)
    }

    /// Passes the usage rows to a closure, and returns its result.
    ///
    /// First, all rows are built. Then the closure is called once. If an allocation for the rows
    /// fails, the closure isn't called.
    ///
    /// Requires a closure that may be called with any rows. A closure that can be called only once
    /// is enough.
    ///
    /// ```
    /// let text = options.usage_with_format(alloc, |rows| {
    ///     let count = rows.count();
    ///     format!(in alloc; "{count} options")
    /// })?;
    /// ```
    ///
    /// Fails if the closure does, or if an allocation for the rows fails.
    ///
    /// In the Rust crate the closure takes a `&mut dyn Iterator`, and neither it nor this method
    /// can fail.
    pub fn usage_with_format<F: FnMut(UsageRows) -> Result<String, AllocError> + Drop>(
        &self,
        alloc: Global,
        mut formatter: F,
    ) -> Result<String, AllocError>
        requires { (rows : _) → F.pre formatter rows }

        // This is what the closure, as it was passed, returns for the usage rows, which are unique.
        ensures called { OnOk result ((rows : List Text) ×
            IsTheOnly (AreUsageRows self.now) rows × F.post formatter rows result) }

        // The same, with the rows computed by a function.
        ensures result { OnOk result (F.post formatter (usage_rows_result self.now) result) }

        // Without options, only the closure can fail.
        ensures absent { self.now.groups ≡ [] → F.post formatter [] result }
    {
        let rows = self.usage_rows(alloc)?.into_iter();
        formatter(UsageRows { rows })
    }

    /// Returns the rows of the usage text as separate texts, as `usage_with_format` passes them to
    /// its closure. Fails only if an allocation fails. The Rust crate has no such method.
    pub fn usage_rows(&self, alloc: Global) -> Result<Vec<String>, AllocError>
        ensures rows { IfOk result (λ rows.
            IsTheOnly (AreUsageRows self.now) (map string_bytes rows.items)) }

        ensures result { IfOk result (λ rows.
            map string_bytes rows.items ≡ usage_rows_result self.now) }
        ensures absent { self.now.groups ≡ [] → IsOk result }
    {
        self.usage_rows_in(alloc, USUAL_COLUMNS)
    }

    fn usage_rows_in(&self, alloc: Global, columns: usize) -> Result<Vec<String>, AllocError>
        ensures rows { IfOk result (λ rows.
            IsTheOnly (AreUsageRowsIn columns self.now) (map string_bytes rows.items)) }
        ensures result { IfOk result (λ rows.
            map string_bytes rows.items ≡ usage_rows_in_result columns self.now) }
        ensures absent { self.now.groups ≡ [] → IsOk result }
    {
        let layout = self.layout(columns);
        let groups = self.groups();
        let mut rows = Vec::with_capacity(alloc, groups.len())?;
        for place in 0..groups.len() {
            rows.push(row_of(alloc, layout, groups.get(place))?)?;
        }
        Ok(rows)
    }

    fn option_texts(&self, alloc: Global) -> Result<Vec<String>, AllocError>
        ensures { IfOk result (λ texts.
            map string_bytes texts.items ≡ map option_text self.now.groups) }
    {
        let groups = self.groups();
        let mut texts = Vec::with_capacity(alloc, groups.len())?;
        for place in 0..groups.len() {
            let mut text = String::new(alloc);
            push_option(&mut text, groups.get(place))?;
            texts.push(text)?;
        }
        Ok(texts)
    }

    fn layout(&self, columns: usize) -> Layout
        ensures long_only { result.long_only ≡ self.now.long_only }
        ensures any_short { result.any_short ≡ any_short self.now.groups }
        ensures columns { result.columns ≡ columns }
    {
        let groups = self.groups();
        let mut any_short = false;
        for place in 0..groups.len() {
            any_short |= !groups.get(place).short_name.is_empty();
        }
        Layout {
            long_only: self.is_long_only(),
            any_short,
            columns,
        }
    }
}

fn push_option(text: &mut String, group: OptGroup<'_>) -> Result<(), AllocError>
    ensures { OnOk result (string_bytes text.new ≡ string_bytes text.old
        ++ option_text (borrowed_group group.entry)) }
{
    let (before, after) = match group.occur {
        Occur::Req => ("", ""),
        Occur::Optional => ("[", "]"),
        Occur::Multi => ("[", "].."),
    };
    text.push_str(before)?;
    push_name(text, group)?;
    if group.hasarg != HasArg::No {
        text.push(' ')?;
    }
    push_argument(text, group.hasarg, group.hint)?;
    text.push_str(after)
}

fn push_name(text: &mut String, group: OptGroup<'_>) -> Result<(), AllocError>
    ensures { OnOk result (string_bytes text.new ≡ string_bytes text.old
        ++ option_name (borrowed_group group.entry).signature.names) }
{
    if group.short_name.is_empty() {
        text.push_str("--")?;
        text.push_str(group.long_name)
    } else {
        text.push('-')?;
        text.push_str(group.short_name)
    }
}
