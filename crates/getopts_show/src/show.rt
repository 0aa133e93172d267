//! The program's work, for any words and any writer.

ghost use Rattle.std.specs.Prelude.{◌≡◌, ◌++◌, false, map};
ghost use Rattle.std.specs.Prelude.{IfOk, Ok, OnOk, Some};
ghost use Rattle.std.specs.List.{flat_map};
ghost use Rattle.std.specs.String.{string_bytes};
ghost use Rattle.std.specs.Io.KnownBytes.{Appends};
ghost use Rattle.getopts.specs.Accessors.{AreDefined, IsDefined, occurrences_of_name, pair_view};
ghost use Rattle.getopts.specs.Fail.{Fault, fault_of};
ghost use Rattle.getopts.specs.Names.{texts};
ghost use Rattle.getopts.specs.Options.{with_groups};
ghost use Rattle.getopts.specs.Canon.{canonical_line, content_of};
ghost use Rattle.getopts.specs.Parse.{IsLineOf};
ghost use Rattle.getopts.specs.Only.{IsTheOnly};
ghost use Rattle.getopts.specs.Reading.{Reading};
ghost use Rattle.getopts.specs.Results.{accepted_reading, parse_result};
ghost use Rattle.getopts_show.specs.Program.{IsHelpText, IsProgramText, IsResultText};
ghost use Rattle.getopts_show.specs.Program.{HasProgramGroups, IsStatus, IsDone, ShowsText};
ghost use Rattle.getopts_show.specs.Program.{asks_help, content_text, count_line};
ghost use Rattle.getopts_show.specs.Program.{fault_line, matches_text};
ghost use Rattle.getopts_show.specs.Program.{named_lines, position_mark, program_groups};
ghost use Rattle.getopts_show.specs.Program.{program_options, value_line, word_line};

use getopts::{
    Fail, HasArg, Matches, Occur, Options, one_reading_one_canonical_line, words_are_texts,
};
use std::alloc::{AllocError, Global};
use std::io;
use std::io::Write;

/// The status if the words were accepted and what they mean was shown.
const SHOWN: u8 = 0;
/// The status if the words were rejected and their error was shown.
const REFUSED: u8 = 2;
/// The status if an allocation failed, or the system's words can't be read.
pub(crate) const NO_MEMORY: u8 = 3;
/// The status if writing or flushing failed.
const NOT_WRITTEN: u8 = 4;

/// The main names of the program's options, in order.
const MAIN_NAMES: [&str; 5] = ["output", "help", "verbose", "L", "color"];

/// The line before the options in the program's help.
const BRIEF: &str = "Usage: getopts_show [options] FILE";

/// What the program has to write, and its exit status.
#[derive(Drop)]
struct Answer {
    text: String,
    status: u8,
}

/// Parses words by the program's options, and writes what they mean.
///
/// The whole text is built first, then written once and flushed. If accepted words contain `-h` or
/// `--help`, the text is the program's help. For other accepted words it has, for each option, the
/// line `main: count`, with ` @position` after it for each occurrence, and a line `main @position =
/// value` for each of its values; then a line `free: word` for each free word, and a line `line:
/// word` for each word of the canonical line. The status for accepted words is 0. For rejected
/// words, even if they ask for help, the text is the error after the program's name, and the status
/// is 2. If an allocation fails, nothing is written and the status is 3; if writing or flushing
/// fails, it is 4.
pub fn show<W: Write>(alloc: Global, words: &[&str], out: &mut W) -> u8
    ensures status { IsStatus result }
    ensures shown { IsDone result
        → ShowsText (W.contents out.old) (W.contents out.new) (texts words.now) result }
    ensures nothing_written { result ≡ 3 → out.new ≡ out.old }
{
    match answer_to(alloc, words) {
        Ok(answer) => match print(out, answer.text.as_str()) {
            Ok(()) => answer.status,
            Err(_) => NOT_WRITTEN,
        },
        Err(_) => NO_MEMORY,
    }
}

/// Writes a text, and flushes it.
fn print<W: Write>(out: &mut W, text: &str) -> io::Result<()>
    ensures { OnOk result (Appends (W.contents out.old) (W.contents out.new) text.now) }
{
    out.write_all(text.as_bytes())?;
    out.flush()
}

/// What the program answers to these words.
#[tactic(auto, using(crate::proofs::ShowLemmas::of_the_only))]
fn answer_to(alloc: Global, words: &[&str]) -> Result<Answer, AllocError>
    ensures { IfOk result (λ answer.
        IsProgramText (texts words.now) (string_bytes answer.text) answer.status) }
{
    let options = program_options(alloc)?;
    have_one_result(&options, words);
    match options.parse_words(alloc, words) {
        Ok(matches) => Ok(Answer {
            text: accepted_text(alloc, &options, words, &matches)?,
            status: SHOWN,
        }),
        Err(fail) => Ok(Answer {
            text: fault_line(alloc, &fail)?,
            status: REFUSED,
        }),
    }
}

/// The only result of words, by the contract of the library's main theorem. This is a lemma for
/// proofs, which does nothing.
fn have_one_result(options: &Options, words: &[&str])
    requires { options.now ≡ program_options }
    ensures { IsTheOnly (IsLineOf program_options (texts words.now))
        (accepted_reading program_options (texts words.now)) }
{
    words_are_texts(words);
    one_reading_one_canonical_line(options);
}

/// The text for accepted words with these matches: the program's help if they ask for it, otherwise
/// what they mean.
fn accepted_text(
    alloc: Global,
    options: &Options,
    words: &[&str],
    matches: &Matches,
) -> Result<String, AllocError>
    requires program { options.now ≡ program_options }
    requires accepted { parse_result program_options (texts words.now) ≡ Ok matches.now }
    ensures { IfOk result (λ text. IsResultText
        (accepted_reading program_options (texts words.now)) (string_bytes text) 0) }
{
    if matches.opt_present("help") {
        help_text(alloc, options)
    } else {
        shown_text(alloc, options, words, matches)
    }
}

/// The program's help.
fn help_text(alloc: Global, options: &Options) -> Result<String, AllocError>
    requires { options.now ≡ program_options }
    ensures { IfOk result (λ text. IsHelpText (string_bytes text)) }
{
    options.usage(alloc, BRIEF)
}

/// What accepted words with these matches mean: the text of the matches, and a line for each word
/// of the canonical line.
fn shown_text(
    alloc: Global,
    options: &Options,
    words: &[&str],
    matches: &Matches,
) -> Result<String, AllocError>
    requires program { options.now ≡ program_options }
    requires accepted { parse_result program_options (texts words.now) ≡ Ok matches.now }
    requires no_help { asks_help matches.now ≡ false }
    ensures { IfOk result (λ text. IsResultText
        (accepted_reading program_options (texts words.now)) (string_bytes text) 0) }
{
    let mut text = matches_text(alloc, matches)?;
    push_canonical(&mut text, alloc, options, words)?;
    Ok(text)
}

/// Appends a line for each word of the canonical line of accepted words.
fn push_canonical(
    text: &mut String,
    alloc: Global,
    options: &Options,
    words: &[&str],
) -> Result<(), AllocError>
    requires program { options.now ≡ program_options }
    requires accepted { (reading : Reading)
        × (accepted_reading program_options (texts words.now) ≡ Ok reading) }
    ensures { OnOk result ((reading : Reading)
        → accepted_reading program_options (texts words.now) ≡ Ok reading
        → string_bytes text.new
        ≡ string_bytes text.old ++ content_text (content_of program_options reading)) }
{
    let line = canonical_line(alloc, options, words)?;
    push_words(text, "line", &line)
}

/// The canonical line of accepted words. It exists, since no main name of the program's options
/// contains `=`, and `canonical_words` fails only if an allocation does.
fn canonical_line(
    alloc: Global,
    options: &Options,
    words: &[&str],
) -> Result<Vec<String>, AllocError>
    requires program { options.now ≡ program_options }
    requires accepted { (reading : Reading)
        × (accepted_reading program_options (texts words.now) ≡ Ok reading) }
    ensures { IfOk result (λ line. (reading : Reading)
        → accepted_reading program_options (texts words.now) ≡ Ok reading
        → map string_bytes line.items
        ≡ canonical_line program_groups (content_of program_options reading)) }
{
    match options.canonical_words(alloc, words) {
        Ok(Some(line)) => Ok(line),
        Ok(None) => unreachable!(),
        Err(fail) => match fail {
            Fail::OutOfMemory => Err(AllocError),
            _ => unreachable!(),
        },
    }
}

/// The line for the error that a `Fail` reports. This fails if the `Fail` is out of memory, or an
/// allocation fails.
fn fault_line(alloc: Global, fail: &Fail) -> Result<String, AllocError>
    ensures { IfOk result (λ text. (fault : Fault) × (fault_of fail.now ≡ Some fault)
        × (string_bytes text ≡ fault_line fault)) }
{
    match fail {
        Fail::OutOfMemory => Err(AllocError),
        _ => format!(in alloc; "getopts_show: {fail}\n"),
    }
}

/// The program's options.
fn program_options(alloc: Global) -> Result<Options, AllocError>
    ensures { IfOk result (λ options. options ≡ program_options) }
{
    let mut options = Options::new(alloc);
    add_groups(&mut options)?;
    Ok(options)
}

/// Adds the program's groups.
fn add_groups(options: &mut Options) -> Result<(), AllocError>
    ensures { OnOk result (options.new ≡ with_groups options.old program_groups) }
{
    options
        .opt(
            "o",
            "output",
            "set output file name",
            "NAME",
            HasArg::Yes,
            Occur::Optional,
        )?
        .opt(
            "h",
            "help",
            "print this help menu",
            "",
            HasArg::No,
            Occur::Optional,
        )?
        .opt("v", "verbose", "say more", "", HasArg::No, Occur::Multi)?
        .opt("L", "", "add a folder", "DIR", HasArg::Yes, Occur::Multi)?
        .opt(
            "c",
            "color",
            "colour the output",
            "WHEN",
            HasArg::Maybe,
            Occur::Optional,
        )?;
    Ok(())
}

/// The text for matches of the program's options.
fn matches_text(alloc: Global, matches: &Matches) -> Result<String, AllocError>
    requires { HasProgramGroups matches.now.groups }
    ensures { IfOk result (λ text. string_bytes text ≡ matches_text matches.now) }
{
    let mut text = options_text(alloc, matches, &MAIN_NAMES)?;
    push_words(&mut text, "free", &matches.free)?;
    Ok(text)
}

/// The lines of the options with these names, in order.
fn options_text(alloc: Global, matches: &Matches, names: &[&str]) -> Result<String, AllocError>
    requires { AreDefined matches.now.groups (texts names.now) }
    ensures { IfOk result (λ text.
        string_bytes text ≡ flat_map (named_lines matches.now.groups) (texts names.now)) }
{
    let mut text = String::new(alloc);
    for name in names {
        push_option(&mut text, alloc, matches, name)?;
    }
    Ok(text)
}

/// Appends the lines of the option with this name.
fn push_option(
    text: &mut String,
    alloc: Global,
    matches: &Matches,
    name: &str,
) -> Result<(), AllocError>
    requires { IsDefined matches.now.groups name.now }
    ensures { OnOk result (string_bytes text.new
        ≡ string_bytes text.old ++ named_lines matches.now.groups name.now) }
{
    push_count(text, alloc, matches, name)?;
    let pairs = matches.opt_strs_pos(alloc, name)?;
    push_values(text, name, &pairs)
}

/// Appends the line that says how often the option with this name was given, and where.
fn push_count(
    text: &mut String,
    alloc: Global,
    matches: &Matches,
    name: &str,
) -> Result<(), AllocError>
    requires { IsDefined matches.now.groups name.now }
    ensures { OnOk result (string_bytes text.new
        ≡ string_bytes text.old ++ count_line name.now
        (occurrences_of_name matches.now.groups name.now)) }
{
    let count = matches.opt_count(name);
    write!(text, "{name}: {count}")?;
    let positions = matches.opt_positions(alloc, name)?;
    push_positions(text, &positions)?;
    text.push('\n')
}

/// Appends the mark of each position.
fn push_positions(text: &mut String, positions: &[usize]) -> Result<(), AllocError>
    ensures { OnOk result (string_bytes text.new
        ≡ string_bytes text.old ++ flat_map position_mark positions.now) }
{
    for position in positions {
        write!(text, " @{position}")?;
    }
    Ok(())
}

/// Appends a line for each value of an option, with its position.
fn push_values(text: &mut String, name: &str, pairs: &[(usize, String)]) -> Result<(), AllocError>
    ensures { OnOk result (string_bytes text.new
        ≡ string_bytes text.old ++ flat_map (value_line name.now) (map pair_view pairs.now)) }
{
    for (position, value) in pairs {
        writeln!(text, "{name} @{position} = {value}")?;
    }
    Ok(())
}

/// Appends a line for each word, after this label.
fn push_words(text: &mut String, label: &str, words: &[String]) -> Result<(), AllocError>
    ensures { OnOk result (string_bytes text.new
        ≡ string_bytes text.old ++ flat_map (word_line label.now) (map string_bytes words.now)) }
{
    for word in words {
        writeln!(text, "{label}: {word}")?;
    }
    Ok(())
}
