//! Expands cases in short form, and `{Z}`.

use crate::form::Answer;
use unicode_width::UnicodeWidthStr;

/// Stands for a character that takes no columns.
const ZERO_WIDTH: &str = "{Z}";

/// The beginning of a case.
const CASE: &str = "\ncase\t";

/// The first character from U+0300 on that takes no columns and isn't white space.
fn zero_width_character() -> Option<char> {
    ('\u{300}'..=char::MAX).find(|letter| !letter.is_whitespace()
        && letter.encode_utf8(&mut [0; 4]).width() == 0)
}

/// Adds the cases, with that character in place of each `{Z}`. If there is no such character, cases
/// with a `{Z}` are omitted.
pub fn put_zero_width(cases: &str, text: &mut Answer) {
    let letter = zero_width_character();
    for (nth, case) in cases.split(CASE).enumerate() {
        if letter.is_none() && case.contains(ZERO_WIDTH) {
            continue;
        }
        if nth > 0 {
            text.raw(CASE);
        }
        put_case(case, letter, text);
    }
}

/// Adds a case, with this character in place of each `{Z}`.
fn put_case(case: &str, letter: Option<char>, text: &mut Answer) {
    for (nth, part) in case.split(ZERO_WIDTH).enumerate() {
        if nth > 0
            && let Some(letter) = letter
        {
            text.letter(letter);
        }
        text.raw(part);
    }
}

/// Replaces each `$` of a case with a length.
pub fn put_at_length(case: &str, length: usize, text: &mut Answer) {
    text.clear();
    for letter in case.chars() {
        match letter {
            '$' => text.shown(&length),
            _ => text.letter(letter),
        }
    }
}

/// Expands the lines of a case.
pub fn put_written_out(case: &str, lines: &mut Answer) {
    lines.clear();
    lines.raw("case\t");
    for part in case.split('{') {
        match part.split_once('}') {
            Some((repeated, rest)) => {
                put_repeated(repeated, lines);
                lines.raw(rest);
            }
            None => lines.raw(part),
        }
    }
    lines.raw("\n");
}

/// Expands a part in braces.
fn put_repeated(repeated: &str, lines: &mut Answer) {
    let (count, turn) = repeated.split_once('|').unwrap_or(("1", repeated));
    for number in 0..count.parse::<usize>().unwrap_or(0) {
        put_turn(turn, number, lines);
    }
}

/// Adds the repetition with this number.
fn put_turn(turn: &str, number: usize, lines: &mut Answer) {
    for letter in turn.chars() {
        match letter {
            '#' => lines.shown(&number),
            '%' => lines.five_digits(number),
            '&' => lines.shown(&number.saturating_mul(2)),
            _ => lines.letter(letter),
        }
    }
}
