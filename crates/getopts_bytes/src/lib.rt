//! Represents arguments of any bytes as texts, and converts back.
//!
//! The system's arguments are bytes, but `getopts` reads texts. Each byte that isn't part of valid
//! UTF-8 becomes a character, its *mark*, and turns back into the byte when the text is written. So
//! does each byte of a mark that occurs in an argument. Valid UTF-8 without marks stays as it is,
//! and so does all ASCII, such as `-` and `=`.
//!
//! The marks are the last 128 characters, U+10FF80 for byte 128 to U+10FFFF for byte 255. The last
//! two of them are noncharacters, and the others are for private use. Each has four bytes, and
//! takes one column in a help text, like a byte that a terminal can't show.
#![tactic(auto)]

ghost use Rattle.std.specs.Prelude.{◌≡◌, ◌<◌, ◌≤◌, ◌∷◌, ◌++◌, ℕ, suc, drop, length, true, List};
ghost use Rattle.std.specs.Prelude.{IfOk, IfSome, OnOk, is_some};
ghost use Rattle.std.specs.Char.{encode_utf8};
ghost use Rattle.std.specs.List.{list_any};
ghost use Rattle.std.specs.Str.{IsUtf8, chars, continuation_len};
ghost use Rattle.std.specs.String.{string_bytes};
ghost use Rattle.getopts_bytes.specs.Marks.{AreBytes, bytes_of, is_mark, is_plain, mark_of, text_of, written};
ghost use Rattle.getopts_bytes.specs.Laws.{AreCutAlike, ComesBack, StaysPlain};

use std::alloc::AllocError;

/// The first mark, that of byte 128.
const FIRST: u32 = 0x10_FF80;
/// The difference between a mark and its byte.
const ADDED: u32 = 0x10_FF00;

/// Converting a word to text and back gives the word: a lemma for proofs; does nothing.
pub fn words_come_back()
    ensures same { (word : List ℕ) → AreBytes word → ComesBack word }
{}

/// UTF-8 without marks is unchanged by both conversions: a lemma for proofs; does nothing.
pub fn plain_texts_stay()
    ensures unchanged { (text : List ℕ) → is_plain text ≡ true → StaysPlain text }
{}

/// An ASCII byte stays in place: the text of a word is the text of the part before the byte, the
/// byte, and the text of the part after it. If the text of a word is split between characters, each
/// part is the text of a part of the word. A lemma for proofs; does nothing.
pub fn words_are_cut_as_texts()
    ensures ascii { (front back : List ℕ) (byte : ℕ) → byte < 128
        → text_of (front ++ byte ∷ back) ≡ text_of front ++ byte ∷ text_of back }
    ensures cut { (word front back : List ℕ) → text_of word ≡ front ++ back → IsUtf8 front
        → AreCutAlike word front back }
{}

/// Bytes as a text, if they are UTF-8 without marks.
pub fn plain_text(bytes: &[u8]) -> Option<&str>
    ensures same { IfSome result (λ text. text.now ≡ bytes.now) }
    ensures plain { is_some result ≡ is_plain bytes.now }
{
    match str::from_utf8(bytes) {
        Ok(text) if !has_marks(text) => Some(text),
        _ => None,
    }
}

/// Appends the text of a word.
pub fn push_text(text: &mut String, word: &[u8]) -> Result<(), AllocError>
    ensures added { OnOk result (string_bytes text.new ≡ string_bytes text.old ++ text_of word.now) }
{
    match plain_text(word) {
        Some(plain) => text.push_str(plain),
        None => push_marked(text, word),
    }
}

/// Appends the bytes of a text.
#[inline]
pub fn push_bytes(bytes: &mut Vec<u8>, text: &str) -> Result<(), AllocError>
    ensures added { OnOk result (bytes.new.items ≡ bytes.old.items ++ bytes_of text.now) }
{
    if has_marks(text) {
        push_chars(bytes, text)
    } else {
        bytes.extend_from_slice(text.as_bytes())
    }
}

/// Whether a text contains a mark. ASCII, as most words are, contains none.
#[inline(always)]
fn has_marks(text: &str) -> bool
    ensures { result ≡ list_any is_mark (chars text.now) }
{
    !text.is_ascii() && any_is_mark(text)
}

/// Whether one of the characters of a text is a mark.
#[inline(never)]
fn any_is_mark(text: &str) -> bool
    ensures { result ≡ list_any is_mark (chars text.now) }
{
    text.chars().any(is_mark)
}

/// Whether a character is a mark.
fn is_mark(char: char) -> bool
    ensures { result ≡ is_mark char }
{
    u32::from(char) >= FIRST
}

/// Appends the text of a word, byte by byte.
fn push_marked(text: &mut String, word: &[u8]) -> Result<(), AllocError>
    ensures { OnOk result (string_bytes text.new ≡ string_bytes text.old ++ text_of word.now) }
{
    let mut at = 0;
    while at < word.len() {
        at += push_first(text, &word[at..])?;
    }
    Ok(())
}

/// Appends the first character of a word, or else the mark of its first byte. Returns the number of
/// bytes taken.
fn push_first(text: &mut String, word: &[u8]) -> Result<usize, AllocError>
    requires { 0 < length word.now }
    ensures some { IfOk result (λ taken. 0 < taken) }
    ensures within { IfOk result (λ taken. taken ≤ length word.now) }
    ensures added { IfOk result (λ taken. string_bytes text.new ++ text_of (drop taken word.now)
        ≡ string_bytes text.old ++ text_of word.now) }
{
    let end = char_len(word[0]).min(word.len());
    match plain_text(&word[..end]) {
        Some(char) => {
            text.push_str(char)?;
            Ok(end)
        }
        None => {
            push_mark(text, word[0])?;
            Ok(1)
        }
    }
}

/// The number of bytes of a character that begins with this byte.
fn char_len(first: u8) -> usize
    ensures { result ≡ suc (continuation_len first) }
{
    match first {
        0..=127 => 1,
        128..=223 => 2,
        224..=239 => 3,
        _ => 4,
    }
}

/// Appends the mark of a byte.
fn push_mark(text: &mut String, byte: u8) -> Result<(), AllocError>
    ensures { OnOk result (string_bytes text.new ≡ string_bytes text.old ++ encode_utf8 (mark_of byte)) }
{
    match char::from_u32(ADDED + u32::from(byte)) {
        Some(mark) => text.push(mark),
        None => unreachable!(),
    }
}

/// Appends the bytes of a text, character by character.
#[inline(never)]
fn push_chars(bytes: &mut Vec<u8>, text: &str) -> Result<(), AllocError>
    ensures { OnOk result (bytes.new.items ≡ bytes.old.items ++ bytes_of text.now) }
{
    for char in text.chars() {
        push_char(bytes, char)?;
    }
    Ok(())
}

/// Appends the bytes for a character.
fn push_char(bytes: &mut Vec<u8>, char: char) -> Result<(), AllocError>
    ensures { OnOk result (bytes.new.items ≡ bytes.old.items ++ written char) }
{
    if is_mark(char) {
        bytes.push((u32::from(char) - ADDED) as u8)?;
        Ok(())
    } else {
        bytes.extend_from_slice(char.encode_utf8(&mut [0; 4]).as_bytes())
    }
}
