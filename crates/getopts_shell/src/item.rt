//! Items of a table: the names, the argument and the occurrence of an option.

ghost use Rattle.std.specs.Prelude.{◌≡◌, ◌≢◌, ◌==◌, ◌++◌, ◌∷◌, codes, drop, not, ◌&&◌, ◌||◌, ◌≤◌};
ghost use Rattle.std.specs.Prelude.{Bool, MatchOption, find, length, map, nat_lt, slice_index};
ghost use Rattle.std.specs.Prelude.{true, false};
ghost use Rattle.std.specs.List.{AllByRecursion, ends_with, list_all, position_or_len, starts_with};
ghost use Rattle.std.specs.Option.{option_copied, option_map_or};
ghost use Rattle.getopts.specs.Names.{Text, Names, is_empty};
ghost use Rattle.getopts.specs.Reading.{begins_with_dash};
ghost use Rattle.getopts.specs.declared.kinds.HasArg.{HasArg as Kind};
ghost use Rattle.getopts_shell.specs.Table.{is_name, is_name_byte, is_hint, is_hint_byte, AreNames};
ghost use Rattle.getopts_shell.specs.Table.{is_long_name, is_long_byte, MayBeNames, IsArgument};
ghost use Rattle.getopts_shell.specs.Table.{HasParts, IsBracketed, IsItem, end_means};
ghost use Rattle.getopts_shell.specs.Table.{begins_capital, begins_end, begins_name, ends_as_name, ends_behind};
ghost use Rattle.getopts_shell.specs.Table.{fits, unopened, after, before, dashed, holds, names_in};
ghost use Rattle.getopts_shell.specs.Table.{close_bracket, open_bracket, reason_of};
ghost use Rattle.getopts_shell.specs.declared.row.Frequency.{Frequency as HowOften};

use crate::row::{Frequency, Row};
use getopts::{HasArg, names_lawful};

/// The option that an item declares, with the number of its line and its description, if the item
/// is an option.
pub(crate) fn row_of<'t>(line: usize, item: &'t str, description: &'t str) -> Option<Row<'t>>
    ensures option { MatchOption result
        ((names : Names) (kind : Kind) (frequency : HowOften) (hint : Text)
        → ¬ (IsItem item.now names kind frequency hint))
        (λ row. IsItem item.now (record { short = row.short.now; long = row.long.now }) row.kind
        row.frequency row.hint.now) }
    ensures place { MatchOption result (Unit {0})
        (λ row. (row.line ≡ line) × (row.description.now ≡ description.now)) }
{
    let (inside, frequency) = unbracketed(item)?;
    let (names, argument) = parts_of(inside);
    let (short, long) = names_of(names)?;
    let (kind, hint) = argument_of(argument)?;
    if !fits(frequency, kind) {
        return None;
    }
    Some(Row {
        line,
        short,
        long,
        kind,
        frequency,
        hint,
        description,
    })
}

/// Whether an option with this occurrence may have this kind: one that stands alone takes no
/// argument.
fn fits(frequency: Frequency, kind: HasArg) -> bool
    ensures { result ≡ fits frequency kind }
{
    match (frequency, kind) {
        (Frequency::Alone, HasArg::Yes | HasArg::Maybe) => false,
        _ => true,
    }
}

/// A text without its brackets, and how often they say that the option may occur.
fn unbracketed(text: &str) -> Option<(&str, Frequency)>
    ensures { MatchOption result ((inside : Text) (frequency : HowOften)
        → ¬ (IsBracketed text.now inside frequency))
        (λ found. IsBracketed text.now found.0.now found.1) }
{
    let Some(opened) = text.strip_prefix('[') else {
        return Some((text, Frequency::Once));
    };
    let (inside, end) = cut_at_bracket(opened)?;
    let frequency = end_means(end)?;
    Some((inside, frequency))
}

/// A text split at its last `]`: what precedes it, and what follows it.
fn cut_at_bracket(text: &str) -> Option<(&str, &str)>
    ensures { MatchOption result (AllByRecursion (λ byte. byte ≢ close_bracket) text.now) (λ parts.
        (text.now ≡ parts.0.now ++ (close_bracket ∷ parts.1.now))
        × AllByRecursion (λ byte. byte ≢ close_bracket) parts.1.now) }
{
    text.rsplit_once(']')
}

/// What the text after `]` means.
fn end_means(end: &str) -> Option<Frequency>
    ensures { result ≡ end_means end.now }
{
    if end.is_empty() {
        Some(Frequency::Last)
    } else if end == "!" {
        Some(Frequency::Alone)
    } else if end == ".." || end == "..." {
        Some(Frequency::All)
    } else {
        None
    }
}

/// A text split at its first space: what precedes it, and what follows it, if there is one.
fn parts_of(text: &str) -> (&str, Option<&str>)
    ensures { HasParts text.now result.0.now (option_copied result.1) }
{
    match text.split_once(' ') {
        Some((names, argument)) => (names, Some(argument)),
        None => (text, None),
    }
}

/// The short and the long name in a text of the form `-s`, `--long` or `-s|--long`, if it has one.
/// Either may be empty.
fn names_of(text: &str) -> Option<(&str, &str)>
    ensures { MatchOption result ((names : Names) → ¬ (AreNames names text.now))
        (λ found. AreNames (record { short = found.0.now; long = found.1.now }) text.now) }
{
    let bytes = text.as_bytes();
    if bytes.len() < 2 || bytes[0] != b'-' {
        return None;
    }
    if bytes[1] == b'-' {
        return lawful_names("", &text[2..]);
    }
    if bytes.len() == 2 {
        return lawful_names(&text[1..], "");
    }
    if bytes.len() < 6 || bytes[2] != b'|' || bytes[3] != b'-' || bytes[4] != b'-' {
        return None;
    }
    lawful_names(&text[1..2], &text[5..])
}

/// These names, if they are valid and allowed in a table.
fn lawful_names<'t>(short: &'t str, long: &'t str) -> Option<(&'t str, &'t str)>
    ensures { MatchOption result (¬ (MayBeNames short.now long.now))
        (λ found. MayBeNames short.now long.now × (found.0.now ≡ short.now)
        × (found.1.now ≡ long.now)) }
{
    if names_lawful(short, long) && is_name(short.as_bytes()) && is_long_name(long.as_bytes()) {
        Some((short, long))
    } else {
        None
    }
}

/// Whether bytes may be a short name.
fn is_name(bytes: &[u8]) -> bool
    ensures { result ≡ is_name bytes.now }
{
    !bytes.starts_with(b"-") && are_name_bytes(bytes)
}

/// Whether bytes may be in a short name.
fn are_name_bytes(bytes: &[u8]) -> bool
    ensures { result ≡ list_all is_name_byte bytes.now }
{
    bytes.iter().all(|byte| is_name_byte(*byte))
}

/// Whether a byte may be in a short name.
fn is_name_byte(byte: u8) -> bool
    ensures { result ≡ is_name_byte byte }
{
    byte.is_ascii_alphanumeric()
        || matches!(
            byte,
            b'?' | b'@' | b'#' | b'%' | b'+' | b'_' | b'^' | b',' | b'.' | b'/' | b':'
        )
}

/// Whether bytes may be a long name.
pub(crate) fn is_long_name(bytes: &[u8]) -> bool
    ensures { result ≡ is_long_name bytes.now }
{
    !bytes.starts_with(b"-") && are_long_bytes(bytes) && ends_as_name(bytes)
}

/// Whether a long name may end like these bytes.
fn ends_as_name(bytes: &[u8]) -> bool
    ensures { result ≡ ends_as_name bytes.now }
{
    !bytes.ends_with(b":") && !bytes.ends_with(b".")
}

/// Whether bytes may be in a long name.
fn are_long_bytes(bytes: &[u8]) -> bool
    ensures { result ≡ list_all is_long_byte bytes.now }
{
    bytes.iter().all(|byte| is_long_byte(*byte))
}

/// Whether a byte may be in a long name.
fn is_long_byte(byte: u8) -> bool
    ensures { result ≡ is_long_byte byte }
{
    byte.is_ascii_alphanumeric() || matches!(byte, b'-' | b'_' | b'.' | b'+' | b':') || byte > 127
}

/// The kind and the hint of an argument, or of none.
fn argument_of(argument: Option<&str>) -> Option<(HasArg, &str)>
    ensures { MatchOption result
        ((kind : Kind) (hint : Text) → ¬ (IsArgument kind hint (option_copied argument.entry)))
        (λ found. IsArgument found.0 found.1.now (option_copied argument.entry)) }
{
    let Some(text) = argument else {
        return Some((HasArg::No, ""));
    };
    let Some(rest) = text.strip_prefix('[') else {
        return hinted(HasArg::Yes, text);
    };
    match rest.strip_suffix(']') {
        Some(hint) => hinted(HasArg::Maybe, hint),
        None => None,
    }
}

/// This kind and this hint, if the text may be a hint.
fn hinted(kind: HasArg, hint: &str) -> Option<(HasArg, &str)>
    ensures { MatchOption result (is_hint hint.now ≡ false)
        (λ found. (is_hint hint.now ≡ true) × (found.0 ≡ kind) × (found.1.now ≡ hint.now)) }
{
    if is_hint(hint.as_bytes()) {
        Some((kind, hint))
    } else {
        None
    }
}

/// Whether bytes may be a hint.
fn is_hint(bytes: &[u8]) -> bool
    ensures { result ≡ is_hint bytes.now }
{
    !bytes.is_empty() && are_hint_bytes(bytes) && !begins_name(bytes) && !bytes.ends_with(b"..")
}

/// Whether bytes may be in a hint.
fn are_hint_bytes(bytes: &[u8]) -> bool
    ensures { result ≡ list_all is_hint_byte bytes.now }
{
    bytes.iter().all(|byte| is_hint_byte(*byte))
}

/// Whether a byte may be in a hint.
fn is_hint_byte(byte: u8) -> bool
    ensures { result ≡ is_hint_byte byte }
{
    !matches!(byte, b' ' | b'\t' | b'[' | b']')
}

/// Why an item is invalid: this is the reason if it contains `[` but no `]`.
const MISSING_BRACKET: &str = "missing ']'";
/// The reason if a dash, `|` or `]` follows the first space, or a comma or `--` a short name.
const NAMES_TOGETHER: &str = "write names as -s|--long, without spaces or commas";
/// The reason if a space and the end of an item follow the first `]`.
const END_WITHOUT_SPACE: &str = "write '..', '...' or '!' directly after ']', \
    or put a tab or two spaces before a description";
/// The reason if a space follows the first `]`, or an operand.
const DESCRIPTION_AFTER_GAP: &str = "write each option or operand on its own line, \
    and put a tab or two spaces before a description";
/// The reason if it has a second space elsewhere.
const NO_SPACE_IN_ARGUMENT: &str =
    "an argument can't contain spaces, and a description needs a tab or two spaces before it";
/// The reason if its names begin with a capital letter, like an operand.
const OPERAND_FORMS: &str = "write an operand as FILE, [FILE], FILE.. or [FILE]..";
/// The reason if its names contain `=`.
const ARGUMENT_AFTER_SPACE: &str = "write the argument after a space, as in '--long ARG'";
/// The reason if its names contain `[`, or no other reason applies.
const BRACKETS_AROUND_WHOLE: &str =
    "put brackets around the whole option or its argument, and '..' or '...' only after ']'";
/// The reason if a name has the wrong dashes.
const NAME_FORMS: &str =
    "write a short name as -s, a long name as --long, and an operand in capital letters";
/// The reason if no two dashes follow `|`.
const TWO_DASHES_AFTER_BAR: &str = "write two dashes after '|', as in -s|--long";
/// The reason if a second `|` follows, or one follows a long name.
const SHORT_NAME_FIRST: &str = "write the short name first, then a single long name";
/// The reason if its short name has more than one byte.
const SHORT_NAME_LENGTH: &str = "a short name has one character, and a long name needs two dashes";
/// The reason if its short name is a byte that isn't allowed, or begins with one that isn't ASCII.
const SHORT_NAME_BYTES: &str =
    "a short name must be an ASCII letter or digit, or one of ?@#%+_^,./:";
/// The reason if its long name has fewer than two bytes.
const LONG_NAME_LENGTH: &str = "a long name must have at least two bytes";
/// The reason if its long name contains a byte that isn't allowed.
const LONG_NAME_BYTES: &str =
    "a long name may contain letters, digits, '-', '_', '.', '+', ':' and non-ASCII characters";
/// The reason if its long name ends in `:` or `.`.
const LONG_NAME_END: &str = "a long name can't end in ':' or '.'; write dots after ']'";
/// The reason if another option follows the first `]`.
const ONE_OPTION_A_LINE: &str = "write each option on its own line";
/// The reason if it ends in anything else after `]`.
const AFTER_BRACKET: &str = "only '..', '...' or '!' may follow ']'";
/// The reason if it ends in `!`.
const MARK_WITHOUT_ARGUMENT: &str = "'!' may only follow the ']' of an option without an argument";

/// Why an item isn't valid.
pub(crate) fn reason_of(item: &str) -> &'static str
    ensures { result.now ≡ reason_of item.now }
{
    let item = item.as_bytes();
    let (_, argument) = cut_at(item, b' ');
    let (_, end) = cut_at(item, b']');
    let names = names_in(item);
    let (short, long) = dashed(names);
    let reasons = [
        (is_open(item), MISSING_BRACKET),
        (end.starts_with(b" [-"), ONE_OPTION_A_LINE),
        (ends_apart(end), END_WITHOUT_SPACE),
        (stands_apart(argument), NAMES_TOGETHER),
        (end.contains(&b' '), DESCRIPTION_AFTER_GAP),
        (argument.contains(&b' '), NO_SPACE_IN_ARGUMENT),
        (is_described(names, item), DESCRIPTION_AFTER_GAP),
        (begins_capital(names), OPERAND_FORMS),
        (names.contains(&b'='), ARGUMENT_AFTER_SPACE),
        (
            without_first(without_first(names)).contains(&b','),
            NAMES_TOGETHER,
        ),
        (has_second_dashes(short), NAMES_TOGETHER),
        (short.ends_with(b".."), BRACKETS_AROUND_WHOLE),
        (names.contains(&b'['), BRACKETS_AROUND_WHOLE),
        (lack_dash(names, short), NAME_FORMS),
        (lack_two_dashes(names, long), TWO_DASHES_AFTER_BAR),
        (long.starts_with(b"---"), NAME_FORMS),
        (long.contains(&b'|'), SHORT_NAME_FIRST),
        (is_beyond_ascii(short), SHORT_NAME_BYTES),
        (short.len() > 2, SHORT_NAME_LENGTH),
        (!is_name(without_first(short)), SHORT_NAME_BYTES),
        (is_too_short(long), LONG_NAME_LENGTH),
        (!are_long_bytes(long), LONG_NAME_BYTES),
        (!ends_as_name(long), LONG_NAME_END),
        (item.ends_with(b"!"), MARK_WITHOUT_ARGUMENT),
        (ends_behind(item), AFTER_BRACKET),
    ];
    first_reason(&reasons, BRACKETS_AROUND_WHOLE)
}

/// The first reason that applies, or `other`.
fn first_reason(reasons: &[(bool, &'static str)], other: &'static str) -> &'static str
    ensures { result.now ≡ option_map_or (λ (reason : Bool × Text). reason.1)
        (find (λ (reason : Bool × Text). reason.0)
        (map (λ reason. (reason.0, reason.1.now)) reasons.now)) other.now }
{
    for reason in reasons {
        if reason.0 {
            return reason.1;
        }
    }
    other
}

/// Whether bytes contain `[` but no `]`.
fn is_open(bytes: &[u8]) -> bool
    ensures { result ≡ (holds open_bracket bytes.now && not (holds close_bracket bytes.now)) }
{
    bytes.contains(&b'[') && !bytes.contains(&b']')
}

/// Whether bytes contain `]`, and end in something that can't follow it.
fn ends_behind(bytes: &[u8]) -> bool
    ensures { result ≡ ends_behind bytes.now }
{
    bytes.contains(&b']') && !(bytes.ends_with(b"]") || bytes.ends_with(b"."))
}

/// Whether bytes begin with a dash or `|`.
fn begins_name(bytes: &[u8]) -> bool
    ensures { result ≡ begins_name bytes.now }
{
    matches!(bytes, [b'-' | b'|', ..])
}

/// Whether bytes begin like the end of an item.
pub(crate) fn begins_end(bytes: &[u8]) -> bool
    ensures { result ≡ begins_end bytes.now }
{
    matches!(bytes, [b'!', ..] | [b'.', b'.', ..])
}

/// Whether bytes begin with a space and the end of an item.
fn ends_apart(bytes: &[u8]) -> bool
    ensures { result ≡ (slice_index bytes.now 0 == 32 && begins_end (drop 1 bytes.now)) }
{
    match bytes {
        [b' ', rest @ ..] => begins_end(rest),
        _ => false,
    }
}

/// Whether a name or the end of brackets follows the first space, instead of an argument.
fn stands_apart(argument: &[u8]) -> bool
    ensures { result ≡ (begins_name (unopened argument.now)
        || starts_with ◌==◌ argument.now (codes "]")) }
{
    begins_name(unopened(argument)) || argument.starts_with(b"]")
}

/// Whether names begin like an operand, and the item contains a space.
fn is_described(names: &[u8], item: &[u8]) -> bool
    ensures { result ≡ (begins_capital names.now && holds 32 item.now) }
{
    begins_capital(names) && item.contains(&b' ')
}

/// Whether bytes begin with a capital letter.
pub(crate) fn begins_capital(bytes: &[u8]) -> bool
    ensures { result ≡ begins_capital bytes.now }
{
    matches!(bytes, [b'A'..=b'Z', ..])
}

/// Whether names don't begin with a dash, or the short one is only a dash.
fn lack_dash(names: &[u8], short: &[u8]) -> bool
    ensures { result ≡ (not (begins_with_dash names.now) || length short.now == 1) }
{
    !names.starts_with(b"-") || short.len() == 1
}

/// Whether a short name contains a second dash, and a third directly after it.
fn has_second_dashes(short: &[u8]) -> bool
    ensures { result ≡ begins_with_dash (after 45 (drop 1 short.now)) }
{
    cut_at(without_first(short), b'-').1.starts_with(b"-")
}

/// Whether a short name, after its dash, begins with a byte that isn't ASCII.
fn is_beyond_ascii(short: &[u8]) -> bool
    ensures { result ≡ nat_lt 127 (slice_index short.now 1) }
{
    matches!(short, [_, 128..=255, ..])
}

/// Whether names contain `|`, and the long one doesn't begin with two dashes.
fn lack_two_dashes(names: &[u8], long: &[u8]) -> bool
    ensures { result ≡ (holds 124 names.now && not (starts_with ◌==◌ long.now (codes "--"))) }
{
    names.contains(&b'|') && !long.starts_with(b"--")
}

/// Whether a long name, if there is one, has fewer than two bytes after its dashes.
fn is_too_short(long: &[u8]) -> bool
    ensures { result ≡ (not (is_empty long.now) && nat_lt (length long.now) 4) }
{
    !long.is_empty() && long.len() < 4
}

/// The part of an item for its names: everything before the first space or `]`, without a leading
/// `[`.
fn names_in(item: &[u8]) -> &[u8]
    ensures { result.now ≡ names_in item.now }
{
    cut_at(cut_at(unopened(item), b']').0, b' ').0
}

/// Bytes without a leading `[`.
pub(crate) fn unopened(bytes: &[u8]) -> &[u8]
    ensures { result.now ≡ unopened bytes.now }
{
    if bytes.starts_with(b"[") {
        &bytes[1..]
    } else {
        bytes
    }
}

/// The short and the long name in a text, valid or not, each with its dashes.
fn dashed(names: &[u8]) -> (&[u8], &[u8])
    ensures short { result.0.now ≡ (dashed names.now).short }
    ensures long { result.1.now ≡ (dashed names.now).long }
{
    if names.starts_with(b"--") {
        (&[], names)
    } else {
        cut_at(names, b'|')
    }
}

/// What precedes the first such byte (everything if there is none), and what follows it.
pub(crate) fn cut_at(bytes: &[u8], byte: u8) -> (&[u8], &[u8])
    ensures before { result.0.now ≡ before byte bytes.now }
    ensures after { result.1.now ≡ after byte bytes.now }
{
    let place = place_of(bytes, byte);
    (&bytes[..place], without_first(&bytes[place..]))
}

/// The index of the first such byte, or the end.
fn place_of(bytes: &[u8], byte: u8) -> usize
    ensures within { result ≤ length bytes.now }
    ensures place { result ≡ position_or_len (λ other. other == byte) bytes.now }
{
    bytes
        .iter()
        .position(|other| *other == byte)
        .unwrap_or(bytes.len())
}

/// Bytes without the first one, if there is one.
fn without_first(bytes: &[u8]) -> &[u8]
    ensures { result.now ≡ drop 1 bytes.now }
{
    match bytes {
        [_, rest @ ..] => rest,
        _ => bytes,
    }
}
