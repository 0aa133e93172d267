//! Pairs of adjacent texts, all stored in one text.

ghost use Rattle.std.specs.Prelude.{◌≡◌, ◌++◌, ◌+◌, ◌≤◌, length};
ghost use Rattle.std.specs.String.{string_bytes, string_len, string_capacity};
ghost use Rattle.getopts.specs.Stored.Adjacent.{AreEndsOf, IsPairAt, pair_at};

/// Initial capacity for a text that all groups share, in bytes.
pub(crate) const FIRST_TEXT: usize = 1024;

/// Where two adjacent texts are in a longer text. The first ends, and the second starts, at
/// `middle`.
#[derive(Debug, Clone, Copy)]
pub(crate) struct PairEnds {
    pub start: usize,
    pub middle: usize,
    pub end: usize,
}

/// Appends a text that there is room for, and returns its end.
#[inline(always)]
fn push_reserved(texts: &mut String, text: &str) -> usize
    requires { string_len texts.old + length text.now ≤ string_capacity texts.old }
    ensures bytes { string_bytes texts.new ≡ string_bytes texts.old ++ text.now }
    ensures end { result ≡ length (string_bytes texts.new) }
    ensures room { string_capacity texts.old ≤ string_capacity texts.new }
{
    if text.is_empty() {
        return texts.len();
    }
    match texts.push_str(text) {
        Ok(()) => texts.len(),
        Err(_) => unreachable!(),
    }
}

/// Appends two texts that there is room for, and returns where they are.
#[inline(always)]
pub(crate) fn push_pair(texts: &mut String, first: &str, second: &str) -> PairEnds
    requires { string_len texts.old + (length first.now + length second.now)
        ≤ string_capacity texts.old }
    ensures bytes { string_bytes texts.new ≡ string_bytes texts.old ++ (first.now ++ second.now) }
    ensures two { IsPairAt (string_bytes texts.new) result (first.now, second.now) }
    ensures middle { result.middle ≡ result.start + length first.now }
{
    let start = texts.len();
    let middle = push_reserved(texts, first);
    let end = push_reserved(texts, second);
    PairEnds { start, middle, end }
}

#[inline(always)]
pub(crate) fn first_at(text: &str, ends: PairEnds) -> &str
    requires { AreEndsOf text.now ends }
    ensures { result.now ≡ (pair_at text.now ends).0 }
{
    &text[ends.start..ends.middle]
}

#[inline(always)]
pub(crate) fn second_at(text: &str, ends: PairEnds) -> &str
    requires { AreEndsOf text.now ends }
    ensures { result.now ≡ (pair_at text.now ends).1 }
{
    &text[ends.middle..ends.end]
}
