//! One group's row in a usage text: its head, with the description beside or below it.

ghost use Rattle.std.specs.Prelude.{◌≡◌, ◌++◌, string_bytes, IfOk, OnOk};
ghost use Rattle.getopts.specs.Wrap.{width_of};
ghost use Rattle.getopts.specs.Usage.{has_columns, head, long_part, padding, short_part};
ghost use Rattle.getopts.specs.UsageResults.{usage_row_in};
ghost use Rattle.getopts.specs.Accessors.{borrowed_group};

use crate::groups::OptGroup;
use crate::help::{MARGIN, push_argument, push_joined};
use crate::wrap::each_split_within;
use std::alloc::{AllocError, Global};
use unicode_width::UnicodeWidthStr;

/// A line end, and a space for each column before a description.
const NEXT_ROW: &str = "\n                        ";

/// What all rows in a usage text have in common.
#[derive(Clone, Copy)]
pub(crate) struct Layout {
    pub long_only: bool,
    pub any_short: bool,
    /// The columns within which the rows of descriptions end.
    pub columns: usize,
}

/// The bytes that most rows need.
const ROW_ROOM: usize = 80;

pub(crate) fn row_of(
    alloc: Global,
    layout: Layout,
    group: OptGroup<'_>,
) -> Result<String, AllocError>
    ensures { IfOk result (λ row. string_bytes row
        ≡ usage_row_in layout.columns layout.long_only layout.any_short (borrowed_group group.entry)) }
{
    let mut row = String::with_capacity(alloc, ROW_ROOM)?;
    push_head(&mut row, layout, group)?;
    let padding = padding_after(row.as_str());
    row.push_str(padding)?;
    let rows = each_split_within(alloc, group.desc, layout.columns.saturating_sub(MARGIN))?;
    push_joined(&mut row, &rows, NEXT_ROW)?;
    Ok(row)
}

fn push_head(text: &mut String, layout: Layout, group: OptGroup<'_>) -> Result<(), AllocError>
    ensures { OnOk result (string_bytes text.new ≡ string_bytes text.old
        ++ head layout.long_only layout.any_short (borrowed_group group.entry)) }
{
    text.push_str("    ")?;
    let wide = has_columns(group.long_name);
    push_short(text, layout, group, wide)?;
    push_long(text, layout, group.long_name, wide)?;
    push_argument(text, group.hasarg, group.hint)
}

fn push_short(
    text: &mut String,
    layout: Layout,
    group: OptGroup<'_>,
    wide: bool,
) -> Result<(), AllocError>
    requires { wide ≡ has_columns group.long_name.now }
    ensures { OnOk result (string_bytes text.new ≡ string_bytes text.old
        ++ short_part layout.any_short (borrowed_group group.entry).signature.names) }
{
    if group.short_name.is_empty() {
        text.push_str(if layout.any_short { "    " } else { "" })
    } else {
        text.push('-')?;
        text.push_str(group.short_name)?;
        text.push_str(if wide { ", " } else { " " })
    }
}

fn push_long(text: &mut String, layout: Layout, long: &str, wide: bool) -> Result<(), AllocError>
    requires { wide ≡ has_columns long.now }
    ensures { OnOk result (string_bytes text.new ≡ string_bytes text.old
        ++ long_part layout.long_only long.now) }
{
    if !wide {
        return Ok(());
    }
    text.push_str(if layout.long_only { "-" } else { "--" })?;
    text.push_str(long)?;
    text.push(' ')
}

fn padding_after(head: &str) -> &'static str
    ensures { result.now ≡ padding head.now }
{
    let columns = width_of(head);
    if columns < MARGIN {
        &NEXT_ROW[1 + columns..]
    } else {
        NEXT_ROW
    }
}

fn has_columns(text: &str) -> bool
    ensures { result ≡ has_columns text.now }
{
    width_of(text) > 0
}

#[tactic(auto, unfolding(crate::specs::Wrap::width_of))]
fn width_of(text: &str) -> usize
    ensures { result ≡ width_of text.now }
{
    text.width()
}
