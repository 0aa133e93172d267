//! Words in quotes, as a shell reads them back.

ghost use Rattle.std.specs.Prelude.{◌≡◌, ◌<◌, ◌++◌, map, ℕ, List, Some, OnOk};
ghost use Rattle.std.specs.List.{AllByRecursion, flat_map};
ghost use Rattle.std.specs.String.{string_bytes};
ghost use Rattle.getopts.specs.Names.{Text};
ghost use Rattle.getopts.specs.Wrap.{joined, parting};
ghost use Rattle.getopts_bytes.specs.Marks.{AreBytes, bytes_of, text_of};
ghost use Rattle.getopts_shell.specs.Quote.{quoted, quoted_words, replaced, shell_words, spaced};
ghost use Rattle.getopts_shell.specs.Variables.{line_code};

use std::alloc::AllocError;

/// A lemma for proofs, which does nothing: a shell reads words in quotes as the same words, even
/// words of any bytes that were encoded as text and written as bytes. Different words are quoted
/// differently.
pub fn words_come_back()
    ensures same { (words : List Text) → shell_words (quoted_words words) ≡ Some words }
    ensures bytes { (words : List (List ℕ)) → AllByRecursion AreBytes words
        → shell_words (bytes_of (quoted_words (map text_of words))) ≡ Some words }
    ensures only { (words others : List Text)
        → quoted_words words ≡ quoted_words others → words ≡ others }
{}

/// Appends a text, with another text in place of each occurrence of an ASCII character.
pub(crate) fn push_replaced(
    text: &mut String,
    word: &str,
    character: char,
    other: &str,
) -> Result<(), AllocError>
    requires { character < 128 }
    ensures { OnOk result (string_bytes text.new
        ≡ string_bytes text.old ++ flat_map (replaced character other.now) word.now) }
{
    let mut begun = false;
    for part in word.split(character) {
        push_parting(text, begun, other)?;
        text.push_str(part)?;
        begun = true;
    }
    Ok(())
}

/// Appends the separator if `begun` says that something precedes it.
pub(crate) fn push_parting(
    text: &mut String,
    begun: bool,
    separator: &str,
) -> Result<(), AllocError>
    ensures { OnOk result (string_bytes text.new
        ≡ string_bytes text.old ++ parting begun separator.now) }
{
    text.push_str(if begun { separator } else { "" })
}

/// Appends texts, with the separator between them.
pub(crate) fn push_joined(
    text: &mut String,
    texts: &[String],
    separator: &str,
) -> Result<(), AllocError>
    ensures { OnOk result (string_bytes text.new ≡ string_bytes text.old
        ++ joined separator.now (map string_bytes texts.now)) }
{
    let mut begun = false;
    for part in texts {
        push_parting(text, begun, separator)?;
        text.push_str(part.as_str())?;
        begun = true;
    }
    Ok(())
}

/// Appends a word in quotes: `'`, its bytes with `'\''` for each `'`, and `'`.
pub(crate) fn push_quoted(text: &mut String, word: &str) -> Result<(), AllocError>
    ensures { OnOk result (string_bytes text.new ≡ string_bytes text.old ++ quoted word.now) }
{
    text.push('\'')?;
    push_replaced(text, word, '\'', "'\\''")?;
    text.push('\'')
}

/// Appends the command that sets the words of a script.
pub(crate) fn push_line(text: &mut String, words: &[String]) -> Result<(), AllocError>
    ensures { OnOk result (string_bytes text.new
        ≡ string_bytes text.old ++ line_code (map string_bytes words.now)) }
{
    text.push_str("\\set -- ")?;
    push_quoted_words(text, words)?;
    text.push('\n')
}

/// Appends words in quotes, with a space between them.
fn push_quoted_words(text: &mut String, words: &[String]) -> Result<(), AllocError>
    ensures { OnOk result (string_bytes text.new
        ≡ string_bytes text.old ++ quoted_words (map string_bytes words.now)) }
{
    let [first, others @ ..] = words else {
        return Ok(());
    };
    push_quoted(text, first.as_str())?;
    push_others(text, others)
}

/// Appends words in quotes, with a space before each.
fn push_others(text: &mut String, words: &[String]) -> Result<(), AllocError>
    ensures { OnOk result (string_bytes text.new
        ≡ string_bytes text.old ++ flat_map spaced (map string_bytes words.now)) }
{
    for word in words {
        text.push(' ')?;
        push_quoted(text, word.as_str())?;
    }
    Ok(())
}
