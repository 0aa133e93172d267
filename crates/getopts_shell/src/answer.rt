//! What the program answers to its words.

ghost use Rattle.std.specs.Prelude.{◌≡◌, ◌≢◌, ◌⊎◌, ◌++◌, ◌-◌, map, length, take, IfOk, MatchOption};
ghost use Rattle.std.specs.Prelude.{OnOk, Some, Ok, Err};
ghost use Rattle.std.specs.Option.{option_map};
ghost use Rattle.std.specs.Io.KnownBytes.{Appends};
ghost use Rattle.std.specs.Str.{IsUtf8};
ghost use Rattle.std.specs.String.{string_bytes};
ghost use Rattle.getopts.specs.Fail.{Fault, IsOutOfMemoryOr, fault_of};
ghost use Rattle.getopts.specs.Names.{AreTexts, Text};
ghost use Rattle.getopts.specs.Results.{parse_result};
ghost use Rattle.getopts_shell.specs.Completion.{offer};
ghost use Rattle.getopts_shell.specs.Program.{AnswersAccepted, AnswersAlone, AnswersCounted};
ghost use Rattle.getopts_shell.specs.Program.{AnswersDeclared, operand_fault_line, refused_by};
ghost use Rattle.getopts_shell.specs.Program.{usage_line, AnswersFree, AnswersLine, AnswersOffer};
ghost use Rattle.getopts_shell.specs.Program.{AnswersOwn, AnswersRead, AnswersScript, AnswersTable};
ghost use Rattle.getopts_shell.specs.Program.{AnswersWords, AppendsFront, IsAnswer, IsHelp};
ghost use Rattle.getopts_shell.specs.Program.{IsOutput, IsStatus, ShowsAnswer, ShowsFront};
ghost use Rattle.getopts_shell.specs.Program.{ShowsFrontAndFault, memory_fault, write_fault};
ghost use Rattle.getopts_shell.specs.Program.{IsVariablesCode, alone_line, asked_by, asked_fault};
ghost use Rattle.getopts_shell.specs.Program.{brief_text, completion_answer, done, help_code};
ghost use Rattle.getopts_shell.specs.Program.{help_front, last_word, misused, no_completion};
ghost use Rattle.getopts_shell.specs.Program.{no_code, no_table, options_in, own_groups, own_options};
ghost use Rattle.getopts_shell.specs.Program.{read_options, refused, sets_nothing, shown_options};
ghost use Rattle.getopts_shell.specs.Stored.{HasOwnGroups, answer_of, asked_of, entries_of};
ghost use Rattle.getopts_shell.specs.Stored.{entry_of_row, operand_fault_told, operands_of};
ghost use Rattle.getopts_shell.specs.Stored.{variable_fault_told, with_groups};
ghost use Rattle.getopts_shell.specs.StoredScript.{script_of};
ghost use Rattle.getopts_shell.specs.Table.{groups_as, occurrence_of};
ghost use Rattle.getopts_shell.specs.Variables.{given_from, line_code};

use crate::complete::{functions, offers, stub};
use crate::given::{asks_help, first_alone, main_name};
use crate::message::{
    fault_line, operand_fault_line, push_error, push_escaped, table_refusal, variable_refusal,
};
use crate::operand::{OperandError, free_error, push_operands, rows_of};
use crate::quote::{push_joined, push_line, push_quoted};
use crate::row::{Frequency, Row};
use crate::script::{Asked, Script};
use crate::table::{Table, declared_in, is_word};
use crate::variables::{VariableError, alone_code, variable_error, variables_code};
use getopts::{Fail, Matches, Occur, Options, ParsingStyle, names_resolve};
use getopts_bytes::push_bytes;
use std::alloc::{AllocError, Global};
use std::io;
use std::io::{ErrorKind, Write};

/// The status if text was written for the script.
const DONE: u8 = 0;
/// The status if the script's words were rejected and their error was written.
const REFUSED: u8 = 2;
/// The status if an allocation failed.
pub(crate) const NO_MEMORY: u8 = 3;
/// The status if writing or flushing failed.
const NOT_WRITTEN: u8 = 4;
/// The status if the script called the program incorrectly and the error was written.
const MISUSED: u8 = 5;

/// What precedes the options in the program's own help.
const BRIEF: &str = "Usage: getopts_shell [options] NAME TABLE [WORD]..\n\n\
    Parses each WORD as TABLE describes, and prints shell code to be run by eval.";

/// What `--version` writes.
const VERSION: &str = "getopts_shell 1.0.0\n";

/// What is written if variables are asked for together with a text that sets none.
const NO_CODE: &str = "getopts_shell: --variables can't be given with --help, --version, --usage, \
    --complete or --complete-words; if NAME may begin with '-', write '--' before it";

/// What is written if the name or the table is missing.
const NEEDED: &str = "getopts_shell: NAME and TABLE are required (see --help)";

/// What the program has to write, and its exit status.
#[derive(Drop)]
struct Outcome {
    text: String,
    status: u8,
}

/// The bytes that the program writes, and its exit status.
#[derive(Drop)]
struct Output {
    bytes: Vec<u8>,
    status: u8,
}

impl Outcome {
    /// Text for the script.
    fn done(text: String) -> Outcome
        ensures { answer_of result ≡ done (string_bytes text) }
    {
        Outcome { text, status: DONE }
    }

    /// An error in how the script calls the program.
    fn misused(alloc: Global, error: String) -> Result<Outcome, AllocError>
        ensures { IfOk result (λ outcome. answer_of outcome ≡ misused (string_bytes error)) }
    {
        let mut text = String::new(alloc);
        push_error(&mut text, alloc, error.as_str())?;
        Ok(Outcome {
            text,
            status: MISUSED,
        })
    }
}

/// Parses a script's words by a table of options, and writes what the script does with them.
///
/// The words are the program's own options, the script's name, its table and its words. The whole
/// text is built first, then written once and flushed: to `out` if the status is 0, and to `err` if
/// it is 2 or 5.
///
/// - 0: code that sets the script's words to the canonical line, sets variables (with
///   `--variables`), or prints the script's help; the help itself with `--usage`, a completion
///   script with `--complete`, completions for the last word with `--complete-words`, and the
///   program's own help or version with `--help` or `--version`
/// - 2: why the script's words were rejected, and its short usage
/// - 3: out of memory, with nothing written
/// - 4: writing or flushing failed. What was written is a prefix of the text, and then, to `err`, a
///   line that says so, or a prefix of this line
/// - 5: what is wrong with the call: the program's own options, such as `--variables` with
///   `--usage`, a missing name or table, a line of the table, the name of a variable, or an unknown
///   shell
pub fn answer<W: Write, E: Write>(alloc: Global, words: &[String], out: &mut W, err: &mut E) -> u8
    ensures status { IsStatus result }
    ensures shown { result ≡ 0
        → ShowsAnswer (W.contents out.old) (W.contents out.new) (map string_bytes words.now) result }
    ensures shown_only { result ≡ 0 → err.new ≡ err.old }
    ensures refused { (result ≡ 2) ⊎ (result ≡ 5)
        → ShowsAnswer (E.contents err.old) (E.contents err.new) (map string_bytes words.now) result }
    ensures refused_only { (result ≡ 2) ⊎ (result ≡ 5) → out.new ≡ out.old }
    ensures cut { result ≡ 4
        → (ShowsFront (W.contents out.old) (W.contents out.new) (map string_bytes words.now)
        (λ status. status ≡ 0)
        × AppendsFront (E.contents err.old) (E.contents err.new) write_fault)
        ⊎ (ShowsFrontAndFault (E.contents err.old) (E.contents err.new) (map string_bytes words.now)
        × (out.new ≡ out.old)) }
    ensures nothing_written { result ≡ 3 → (out.new ≡ out.old) × (err.new ≡ err.old) }
{
    match output_to(alloc, words) {
        Ok(output) => match write_output(&output, out, err) {
            Ok(()) => output.status,
            Err(_) => {
                report_failure(err);
                NOT_WRITTEN
            }
        },
        Err(_) => NO_MEMORY,
    }
}

/// Reports that memory ran out, without allocating. If that fails, too, a prefix of the report was
/// written.
pub fn report_no_memory<E: Write>(err: &mut E)
    ensures { AppendsFront (E.contents err.old) (E.contents err.new) memory_fault }
{
    let _ = print(err, b"getopts_shell: out of memory\n");
}

/// Reports that writing failed. If that fails, too, a prefix of the report was written.
fn report_failure<E: Write>(err: &mut E)
    ensures { AppendsFront (E.contents err.old) (E.contents err.new) write_fault }
{
    let _ = print(err, b"getopts_shell: writing the output failed\n");
}

/// Writes an output, to `out` if the status is 0 and otherwise to `err`. If that fails, a prefix of
/// it was written.
fn write_output<W: Write, E: Write>(output: &Output, out: &mut W, err: &mut E) -> io::Result<()>
    ensures out { OnOk result (output.now.status ≡ 0
        → Appends (W.contents out.old) (W.contents out.new) output.now.bytes.items) }
    ensures out_front { output.now.status ≡ 0
        → AppendsFront (W.contents out.old) (W.contents out.new) output.now.bytes.items }
    ensures out_only { output.now.status ≡ 0 → err.new ≡ err.old }
    ensures err { OnOk result (output.now.status ≢ 0
        → Appends (E.contents err.old) (E.contents err.new) output.now.bytes.items) }
    ensures err_front { output.now.status ≢ 0
        → AppendsFront (E.contents err.old) (E.contents err.new) output.now.bytes.items }
    ensures err_only { output.now.status ≢ 0 → out.new ≡ out.old }
{
    if output.status == DONE {
        print(out, &output.bytes)
    } else {
        print(err, &output.bytes)
    }
}

/// Writes bytes, and flushes them. If that fails, a prefix of them was written.
fn print<W: Write>(out: &mut W, bytes: &[u8]) -> io::Result<()>
    ensures whole { OnOk result (Appends (W.contents out.old) (W.contents out.new) bytes.now) }
    ensures front { AppendsFront (W.contents out.old) (W.contents out.new) bytes.now }
{
    let mut rest = bytes;
    // Bounded, so that the loop is proved to end.
    for _ in 0..u64::MAX {
        if rest.is_empty() {
            return out.flush();
        }
        match out.write(rest) {
            Ok(0) => return Err(io::Error::from(ErrorKind::WriteZero)),
            Ok(count) => rest = &rest[count..],
            Err(error) => {
                if error.kind() != ErrorKind::Interrupted {
                    return Err(error);
                }
            }
        }
    }
    Err(io::Error::from(ErrorKind::Interrupted))
}

/// What the program writes for its words: the bytes of its answer's text.
fn output_to(alloc: Global, words: &[String]) -> Result<Output, AllocError>
    ensures { IfOk result (λ output. IsOutput (map string_bytes words.now) output.bytes.items output.status) }
{
    let outcome = answer_to(alloc, words)?;
    let mut bytes = Vec::with_capacity(alloc, outcome.text.len())?;
    push_bytes(&mut bytes, outcome.text.as_str())?;
    Ok(Output {
        bytes,
        status: outcome.status,
    })
}

/// What the program answers to its words.
fn answer_to(alloc: Global, words: &[String]) -> Result<Outcome, AllocError>
    ensures { IfOk result (λ outcome. IsAnswer (map string_bytes words.now) (answer_of outcome)) }
{
    let options = own_options(alloc)?;
    match options.parse_words(alloc, words) {
        Ok(own) => own_answer(alloc, &options, &own),
        Err(fail) => Outcome::misused(alloc, fault_line(alloc, "getopts_shell", &fail)?),
    }
}

/// The program's own options.
fn own_options(alloc: Global) -> Result<Options, AllocError>
    ensures { IfOk result (λ options. options ≡ own_options) }
{
    let mut options = Options::new(alloc);
    options.parsing_style(ParsingStyle::StopAtFirstFree);
    add_own_options(&mut options)?;
    Ok(options)
}

/// Adds the program's own options.
fn add_own_options(options: &mut Options) -> Result<(), AllocError>
    ensures { OnOk result (options.new ≡ with_groups options.old own_groups) }
{
    options
        .optopt("b", "brief", "print TEXT instead of the usage line", "TEXT")?
        .optflag(
            "s",
            "stop",
            "stop at the first argument that isn't an option",
        )?
        .optflag(
            "l",
            "long-only",
            "also accept long names after a single dash",
        )?
        .optopt(
            "V",
            "variables",
            "store each option in a variable called PREFIX plus its name",
            "PREFIX",
        )?
        .optflag(
            "A",
            "arrays",
            "with --variables, store repeated values in an array",
        )?
        .optflag("u", "usage", "print the help for TABLE")?
        .optopt(
            "c",
            "complete",
            "print a completion script for bash, zsh or fish",
            "SHELL",
        )?
        .optopt(
            "",
            "complete-words",
            "print completions for the last WORD",
            "SHELL",
        )?
        .optflag("h", "help", "print this help")?
        .optflag("", "version", "print the version")?;
    Ok(())
}

/// The answer to the program's own words, which have these matches.
fn own_answer(alloc: Global, options: &Options, own: &Matches) -> Result<Outcome, AllocError>
    requires options { options.now ≡ own_options }
    requires own { HasOwnGroups own.now.groups }
    ensures { IfOk result (λ outcome. AnswersOwn own.now (answer_of outcome)) }
{
    if sets_nothing(own) {
        return Outcome::misused(alloc, String::from_str(alloc, NO_CODE)?);
    }
    if own.opt_present("help") {
        return Ok(Outcome::done(options.usage(alloc, BRIEF)?));
    }
    if own.opt_present("version") {
        return Ok(Outcome::done(String::from_str(alloc, VERSION)?));
    }
    let asked = asked_by(alloc, own)?;
    free_answer(alloc, &asked, &own.free)
}

/// Whether matches contain `--variables` and an option whose text isn't code that sets variables.
fn sets_nothing(own: &Matches) -> bool
    requires { HasOwnGroups own.now.groups }
    ensures { result ≡ sets_nothing own.now }
{
    own.opt_present("variables")
        && (own.opt_present("help")
            || own.opt_present("version")
            || own.opt_present("usage")
            || own.opt_present("complete")
            || own.opt_present("complete-words"))
}

/// What the program's own words ask for, if they are accepted with these matches.
fn asked_by(alloc: Global, own: &Matches) -> Result<Asked, AllocError>
    requires { HasOwnGroups own.now.groups }
    ensures { IfOk result (λ asked. asked_of asked ≡ asked_by own.now) }
{
    Ok(Asked {
        brief: own.opt_str(alloc, "brief")?,
        stop: own.opt_present("stop"),
        long_only: own.opt_present("long-only"),
        usage: own.opt_present("usage"),
        complete: own.opt_str(alloc, "complete")?,
        complete_words: own.opt_str(alloc, "complete-words")?,
        variables: own.opt_str(alloc, "variables")?,
        arrays: own.opt_present("arrays"),
    })
}

/// The answer to the free words of the program's command line: a script's name, its table and its
/// words.
fn free_answer(alloc: Global, asked: &Asked, words: &[String]) -> Result<Outcome, AllocError>
    ensures { IfOk result (λ outcome. AnswersFree (asked_of asked.now) (map string_bytes words.now)
        (answer_of outcome)) }
{
    match words {
        [_, table, ..] if is_word(table.as_str()) => no_table(alloc, table.as_str()),
        [name, table, words @ ..] => {
            table_answer(alloc, asked, name.as_str(), table.as_str(), words)
        }
        _ => Outcome::misused(alloc, String::from_str(alloc, NEEDED)?),
    }
}

/// The error for a word in place of the table.
fn no_table(alloc: Global, word: &str) -> Result<Outcome, AllocError>
    ensures { IfOk result (λ outcome. answer_of outcome ≡ no_table word.now) }
{
    let text = format!(in alloc;
        "getopts_shell: '{word}' isn't a table: \
         write options of getopts_shell before NAME, and the table after it, in quotes \
         (a table such as -v needs a line break)"
    )?;
    Outcome::misused(alloc, text)
}

/// The answer to a script's name, its table and its words.
fn table_answer(
    alloc: Global,
    asked: &Asked,
    name: &str,
    table: &str,
    words: &[String],
) -> Result<Outcome, AllocError>
    ensures { IfOk result (λ outcome.
        AnswersTable (asked_of asked.now) name.now table.now (map string_bytes words.now)
        (answer_of outcome)) }
{
    match declared_in(alloc, table) {
        Ok(declared) => declared_answer(alloc, asked, name, table, &declared, words),
        Err(error) => Outcome::misused(alloc, table_refusal(alloc, error)?),
    }
}

/// The answer if the table is valid: a completion script, an error about variables, or the answer
/// for the script.
fn declared_answer(
    alloc: Global,
    asked: &Asked,
    name: &str,
    text: &str,
    table: &Table<'_>,
    words: &[String],
) -> Result<Outcome, AllocError>
    ensures { IfOk result (λ outcome. AnswersDeclared
        record {
          asked = asked_of asked.now;
          name = name.now;
          entries = entries_of table.now.rows.items;
          operands = operands_of table.now.operands.items;
        }
        text.now (map string_bytes words.now) (answer_of outcome)) }
{
    if let Some(shell) = &asked.complete {
        return completion_answer(alloc, asked, shell.as_str(), name, text);
    }
    if let Some(error) = asked_error(asked, &table.rows) {
        return Outcome::misused(alloc, variable_refusal(alloc, error)?);
    }
    let options = options_of(alloc, asked, &table.rows, false)?;
    let script = Script {
        asked,
        name,
        table,
        options: &options,
    };
    script_answer(alloc, script, words)
}

/// Why variables or arrays can't be used, if they were asked for.
fn asked_error<'t>(asked: &'t Asked, rows: &[Row<'t>]) -> Option<VariableError<'t>>
    ensures { option_map variable_fault_told result
        ≡ asked_fault (asked_of asked.now) (entries_of rows.now) }
{
    match &asked.variables {
        Some(prefix) => variable_error(prefix.as_str(), rows),
        None if asked.arrays => Some(VariableError::ArraysOnly),
        None => None,
    }
}

/// The options of a table, in the style and mode that were asked for: as a help shows them, or as
/// words are parsed.
fn options_of(
    alloc: Global,
    asked: &Asked,
    rows: &[Row<'_>],
    shown: bool,
) -> Result<Options, AllocError>
    ensures { IfOk result (λ options. options ≡ options_in (asked_of asked.now)
        (groups_as shown (entries_of rows.now))) }
{
    let mut options = Options::new(alloc);
    if asked.stop {
        options.parsing_style(ParsingStyle::StopAtFirstFree);
    }
    options.long_only(asked.long_only);
    add_rows(&mut options, rows, shown)?;
    Ok(options)
}

/// Adds the options of a table.
fn add_rows(options: &mut Options, rows: &[Row<'_>], shown: bool) -> Result<(), AllocError>
    ensures { OnOk result (options.new
        ≡ record options.old {
          groups = options.old.groups ++ groups_as shown (entries_of rows.now);
        }) }
{
    for row in rows {
        options.add_group(
            row.short,
            row.long,
            row.description,
            row.hint,
            row.kind,
            occurrence_of(shown, row.frequency),
        )?;
    }
    Ok(())
}

/// How often words may give an option, or how often its help says they may.
fn occurrence_of(shown: bool, frequency: Frequency) -> Occur
    ensures { result ≡ occurrence_of shown frequency }
{
    match frequency {
        Frequency::Once => Occur::Req,
        Frequency::All => Occur::Multi,
        Frequency::Alone => Occur::Optional,
        Frequency::Last => { if shown { Occur::Optional } else { Occur::Multi } }
    }
}

/// The answer for a script and its words.
fn script_answer(alloc: Global, script: Script<'_>, words: &[String]) -> Result<Outcome, AllocError>
    ensures { IfOk result (λ outcome. AnswersScript (script_of script.entry) (map string_bytes words.now)
        (answer_of outcome)) }
{
    if script.asked.usage {
        return Ok(Outcome::done(help_of(alloc, script)?));
    }
    match &script.asked.complete_words {
        Some(shell) => offer_answer(alloc, shell.as_str(), script, words),
        None => words_answer(alloc, script, words),
    }
}

/// The options of a script, as its help shows them.
fn shown_options(alloc: Global, script: Script<'_>) -> Result<Options, AllocError>
    ensures { IfOk result (λ options. options ≡ shown_options (script_of script.entry)) }
{
    options_of(alloc, script.asked, &script.table.rows, true)
}

/// The text at the top of a script's help.
fn brief_text(alloc: Global, script: Script<'_>, shown: &Options) -> Result<String, AllocError>
    requires { shown.now ≡ shown_options (script_of script) }
    ensures { IfOk result (λ text. string_bytes text ≡ brief_text (script_of script.entry)) }
{
    match &script.asked.brief {
        Some(brief) => String::from_str(alloc, brief.as_str()),
        None => usage_line(alloc, script, shown),
    }
}

/// The short usage of a script, as errors show it: its options and its operands.
fn usage_line(alloc: Global, script: Script<'_>, shown: &Options) -> Result<String, AllocError>
    requires { shown.now ≡ shown_options (script_of script) }
    ensures { IfOk result (λ text. string_bytes text ≡ usage_line (script_of script.entry)) }
{
    let mut line = shown.short_usage(alloc, script.name)?;
    push_operands(
        &mut line,
        !script.table.rows.is_empty(),
        &script.table.operands,
    )?;
    let mut text = String::new(alloc);
    push_escaped(&mut text, alloc, line.as_str())?;
    Ok(text)
}

/// The help of a script.
fn help_of(alloc: Global, script: Script<'_>) -> Result<String, AllocError>
    ensures { IfOk result (λ text. IsHelp (script_of script.entry) (string_bytes text)) }
{
    let shown = shown_options(alloc, script)?;
    let brief = brief_text(alloc, script, &shown)?;
    let rows = rows_of(alloc, &script.table.operands)?;
    let front = help_front(brief, &rows)?;
    shown.usage(alloc, front.as_str())
}

/// What precedes the options in a help.
fn help_front(brief: String, rows: &[String]) -> Result<String, AllocError>
    ensures { IfOk result (λ text. string_bytes text
        ≡ help_front (string_bytes brief) (map string_bytes rows.now)) }
{
    if rows.is_empty() {
        return Ok(brief);
    }
    let mut text = brief;
    text.push_str("\n\nArguments:\n")?;
    push_joined(&mut text, rows, "\n")?;
    Ok(text)
}

/// The script that completes words in a shell, or an error if the shell isn't supported.
fn completion_answer(
    alloc: Global,
    asked: &Asked,
    shell: &str,
    name: &str,
    table: &str,
) -> Result<Outcome, AllocError>
    ensures { IfOk result (λ outcome. answer_of outcome
        ≡ completion_answer (asked_of asked.now) shell.now name.now table.now) }
{
    match stub(alloc, shell, asked.stop, asked.long_only, name, table)? {
        Some(text) => Ok(Outcome::done(text)),
        None => no_completion(alloc, shell),
    }
}

/// The error for a shell that isn't supported.
fn no_completion(alloc: Global, shell: &str) -> Result<Outcome, AllocError>
    ensures { IfOk result (λ outcome. answer_of outcome ≡ no_completion shell.now) }
{
    let text = format!(in alloc;
        "getopts_shell: no completion for '{shell}': choose bash, zsh or fish"
    )?;
    Outcome::misused(alloc, text)
}

/// The answer to a shell that asks for completions of the last word.
fn offer_answer(
    alloc: Global,
    shell: &str,
    script: Script<'_>,
    words: &[String],
) -> Result<Outcome, AllocError>
    ensures { IfOk result (λ outcome.
        AnswersOffer (script_of script.entry) shell.now (map string_bytes words.now) (answer_of outcome)) }
{
    match functions(shell) {
        Some(_) => Ok(Outcome::done(last_offers(alloc, script, words)?)),
        None => no_completion(alloc, shell),
    }
}

/// The completions of the last word.
fn last_offers(alloc: Global, script: Script<'_>, words: &[String]) -> Result<String, AllocError>
    ensures { IfOk result (λ text. string_bytes text ≡ offer (read_options (script_of script.entry))
        (script_of script.entry).entries (take (length (map string_bytes words.now) - 1) (map string_bytes words.now))
        (last_word (map string_bytes words.now))) }
{
    let options = script.options;
    let long_only = script.asked.long_only;
    let count = words.len();
    if count == 0 {
        return offers(alloc, options, long_only, &script.table.rows, words, "");
    }
    let before = &words[..count - 1];
    let word = &words[count - 1];
    offers(
        alloc,
        options,
        long_only,
        &script.table.rows,
        before,
        word.as_str(),
    )
}

/// The answer to a script's words. Only rejected words are parsed a second time, since help and
/// options that stand alone are answered even if a count is broken.
fn words_answer(alloc: Global, script: Script<'_>, words: &[String]) -> Result<Outcome, AllocError>
    ensures { IfOk result (λ outcome. AnswersWords (script_of script.entry) (map string_bytes words.now)
        (answer_of outcome)) }
{
    match script.options.parse_words(alloc, words) {
        Ok(matches) => read_answer(alloc, script, words, &matches, None),
        Err(Fail::OutOfMemory) => Err(AllocError),
        Err(fail) => rejected_answer(alloc, script, words, &fail),
    }
}

/// The answer to words that are rejected with this error.
fn rejected_answer(
    alloc: Global,
    script: Script<'_>,
    words: &[String],
    fail: &Fail,
) -> Result<Outcome, AllocError>
    requires { IsOutOfMemoryOr fail.now (λ fault. parse_result (read_options (script_of script))
        (map string_bytes words.now) ≡ Err fault) }
    ensures { IfOk result (λ outcome. AnswersWords (script_of script.entry) (map string_bytes words.now)
        (answer_of outcome)) }
{
    match script.options.parse_ignoring_counts(alloc, words) {
        Ok(matches) => read_answer(alloc, script, words, &matches, Some(fail)),
        Err(fail) => refusal(alloc, script, &fail),
    }
}

/// The answer to words with these matches, and perhaps an error of counts: code that prints the
/// help if they ask for it, code for an option that stands alone if they give one, or else the
/// error or what they mean.
fn read_answer(
    alloc: Global,
    script: Script<'_>,
    words: &[String],
    matches: &Matches,
    fail: Option<&Fail>,
) -> Result<Outcome, AllocError>
    requires { MatchOption fail
        (parse_result (read_options (script_of script)) (map string_bytes words.now) ≡ Ok matches.now)
        (λ fail. IsOutOfMemoryOr fail.now (λ fault. parse_result (read_options (script_of script))
        (map string_bytes words.now) ≡ Err fault)) }
    ensures { IfOk result (λ outcome.
        AnswersRead (script_of script.entry) (map string_bytes words.now) matches.now (answer_of outcome)) }
{
    if asks_help(&script.table.rows, matches) {
        return Ok(Outcome::done(help_code(alloc, script)?));
    }
    match (first_alone(&script.table.rows, matches), fail) {
        (Some(row), _) => alone_answer(alloc, script, row),
        (None, Some(fail)) => refusal(alloc, script, fail),
        (None, None) => parsed_answer(alloc, script, words, matches),
    }
}

/// The answer to words that give an option that stands alone: its line, or variables as if only it
/// had been given.
fn alone_answer(alloc: Global, script: Script<'_>, row: Row<'_>) -> Result<Outcome, AllocError>
    ensures { IfOk result (λ outcome.
        AnswersAlone (script_of script.entry) (entry_of_row row.entry) (answer_of outcome)) }
{
    match &script.asked.variables {
        Some(prefix) => {
            let variables = script.variables(prefix.as_str());
            let code = alone_code(alloc, variables, &script.table.rows, row)?;
            Ok(Outcome::done(code))
        }
        None => Ok(Outcome::done(alone_line(alloc, row)?)),
    }
}

/// The code for the line of an option that stands alone.
fn alone_line(alloc: Global, row: Row<'_>) -> Result<String, AllocError>
    ensures text { IfOk result (λ text. string_bytes text
        ≡ line_code (alone_line (entry_of_row row.entry))) }
    ensures words { OnOk result (AreTexts (alone_line (entry_of_row row.entry))) }
{
    let name = main_name(row);
    let word = format!(in alloc; "--{name}")?;
    let stop = String::from_str(alloc, "--")?;
    line_code(alloc, &[word, stop])
}

/// The code that prints a script's help and exits.
fn help_code(alloc: Global, script: Script<'_>) -> Result<String, AllocError>
    ensures { IfOk result (λ text. (help : Text)
        × IsHelp (script_of script.entry) help × IsUtf8 help
        × (string_bytes text ≡ help_code help)) }
{
    let help = help_of(alloc, script)?;
    let mut text = String::from_str(alloc, "\\printf %s ")?;
    push_quoted(&mut text, help.as_str())?;
    text.push_str("; \\exit\n")?;
    Ok(text)
}

/// The answer to words that keep the counts of options: the error of the free words, or what the
/// words mean.
fn parsed_answer(
    alloc: Global,
    script: Script<'_>,
    words: &[String],
    matches: &Matches,
) -> Result<Outcome, AllocError>
    requires { parse_result (read_options (script_of script)) (map string_bytes words.now) ≡ Ok matches.now }
    ensures { IfOk result (λ outcome.
        AnswersCounted (script_of script.entry) (map string_bytes words.now) (answer_of outcome)) }
{
    match free_error(&script.table.operands, &matches.free) {
        Some(error) => operand_refusal(alloc, script, error),
        None => accepted_answer(alloc, script, words, matches),
    }
}

/// The answer to accepted words with these matches: variables, or the canonical line.
fn accepted_answer(
    alloc: Global,
    script: Script<'_>,
    words: &[String],
    matches: &Matches,
) -> Result<Outcome, AllocError>
    ensures { IfOk result (λ outcome. AnswersAccepted (script_of script.entry) (map string_bytes words.now)
        matches.now (answer_of outcome)) }
{
    match &script.asked.variables {
        Some(prefix) => variables_answer(alloc, script, prefix.as_str(), matches),
        None => line_answer(alloc, script, words),
    }
}

/// The code that sets variables to what matches hold.
fn variables_answer(
    alloc: Global,
    script: Script<'_>,
    prefix: &str,
    matches: &Matches,
) -> Result<Outcome, AllocError>
    requires { (asked_of script.asked.now).variables ≡ Some prefix.now }
    ensures { IfOk result (λ outcome. IsVariablesCode (script_of script.entry) prefix.now
        (given_from 0 (script_of script.entry).entries matches.now.groups) matches.now.free
        (answer_of outcome)) }
{
    let variables = script.variables(prefix);
    let code = variables_code(alloc, variables, &script.table.rows, matches)?;
    Ok(Outcome::done(code))
}

/// The canonical line of words, or their first error.
fn line_answer(alloc: Global, script: Script<'_>, words: &[String]) -> Result<Outcome, AllocError>
    ensures { IfOk result (λ outcome.
        AnswersLine (script_of script.entry) (map string_bytes words.now) (answer_of outcome)) }
{
    names_resolve(script.options);
    match script.options.canonical_words(alloc, words) {
        Ok(Some(line)) => Ok(Outcome::done(line_code(alloc, &line)?)),
        Ok(None) => unreachable!(),
        Err(fail) => refusal(alloc, script, &fail),
    }
}

/// The code that sets a script's words to a line.
fn line_code(alloc: Global, line: &[String]) -> Result<String, AllocError>
    ensures { IfOk result (λ text. string_bytes text ≡ line_code (map string_bytes line.now)) }
{
    let mut text = String::new(alloc);
    push_line(&mut text, line)?;
    Ok(text)
}

/// Why a script's words are rejected, and the text at the top of its help.
fn refusal(alloc: Global, script: Script<'_>, fail: &Fail) -> Result<Outcome, AllocError>
    ensures { IfOk result (λ outcome. (fault : Fault) × (fault_of fail.now ≡ Some fault)
        × (answer_of outcome ≡ refused (script_of script.entry) fault)) }
{
    let line = fault_line(alloc, script.name, fail)?;
    refused(alloc, script, line)
}

/// Why free words don't match the script's operands, and the text at the top of its help.
fn operand_refusal(
    alloc: Global,
    script: Script<'_>,
    error: OperandError<'_>,
) -> Result<Outcome, AllocError>
    ensures { IfOk result (λ outcome. answer_of outcome ≡ refused_by (script_of script.entry)
        (operand_fault_line script.entry.name.now (operand_fault_told error.entry))) }
{
    let line = operand_fault_line(alloc, script.name, error)?;
    refused(alloc, script, line)
}

/// Rejects a script's words with an error, and the text at the top of its help.
fn refused(alloc: Global, script: Script<'_>, error: String) -> Result<Outcome, AllocError>
    ensures { IfOk result (λ outcome.
        answer_of outcome ≡ refused_by (script_of script.entry) (string_bytes error)) }
{
    let mut text = String::new(alloc);
    push_error(&mut text, alloc, error.as_str())?;
    let shown = shown_options(alloc, script)?;
    let brief = brief_text(alloc, script, &shown)?;
    text.push_str(brief.as_str())?;
    text.push('\n')?;
    Ok(Outcome {
        text,
        status: REFUSED,
    })
}
