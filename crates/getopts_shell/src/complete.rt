//! Completion of a script's words: the code for bash, zsh and fish, and the program's answers to
//! it.

ghost use Rattle.std.specs.Prelude.{◌≡◌, ◌++◌, ◌∷◌, [], None, Some, MatchResult, map, nat_eq, IfOk};
ghost use Rattle.std.specs.Prelude.{OnOk};
ghost use Rattle.std.specs.List.{starts_with};
ghost use Rattle.std.specs.Option.{option_map};
ghost use Rattle.std.specs.String.{string_bytes};
ghost use Rattle.getopts.specs.Fail.{Fault, fault_of};
ghost use Rattle.getopts.specs.Names.{texts};
ghost use Rattle.getopts.specs.Results.{parse_ignoring_counts_result};
ghost use Rattle.getopts.specs.Reading.{stop_word};
ghost use Rattle.getopts_shell.specs.Completion.{groups_before_option, name_line, offer};
ghost use Rattle.getopts_shell.specs.Completion.{option_lines, options_lines, first_line};
ghost use Rattle.getopts_shell.specs.Completion.{functions, modes, stub, stub_call, stub_quoted};
ghost use Rattle.getopts_shell.specs.Stored.{entries_of, entry_of_row, is_last_after_stop};

use crate::given::{may_come, takes_argument};
use crate::item::is_long_name;
use crate::quote::{push_parting, push_replaced};
use crate::row::Row;
use getopts::{Fail, Matches, Options, names_resolve};
use std::alloc::{AllocError, Global};

/// Completes words in bash: reads the words up to the cursor, asks the program, and shows
/// descriptions if several options match. One array has the tables of all scripts.
const BASH: &str = r#"declare -gA _getopts_shell_tables _getopts_shell_modes
_getopts_shell_offer() {
    local IFS=' ' name=${1##*/} line=${COMP_LINE:0:COMP_POINT} words=() at=-1 word rest
    for word in "${COMP_WORDS[@]:0:COMP_CWORD+1}"; do
        rest=${line#"${line%%[![:space:]]*}"}
        if [[ $at == -1 || $rest != "$line" ]]; then at=$((at + 1)); fi
        words[at]+=${rest:0:${#word}} line=${rest:${#word}}
    done
    mapfile -t COMPREPLY < <(getopts_shell ${_getopts_shell_modes[$name]-} --complete-words bash \
        "$name" "${_getopts_shell_tables[$name]-}" "${words[@]:1}" 2>/dev/null)
    if [[ ${COMPREPLY-} == [fv]* ]]; then COMPREPLY=(); compopt -o default; fi
    line=${words[at]%"$2"}
    for at in "${!COMPREPLY[@]}"; do
        rest=${COMPREPLY[at]#*$'\t'} word=${COMPREPLY[at]%%$'\t'*}
        if [[ ${#COMPREPLY[@]} == 1 || $COMP_TYPE == 37 || $COMP_TYPE == 42 ]]; then rest=; fi
        COMPREPLY[at]=${word#"$line"}${rest:+  ($rest)}
    done
}
_getopts_shell_complete() {
    local IFS=' ' name=${1##*/}
    _getopts_shell_tables[$name]=$2 _getopts_shell_modes[$name]=${*:3}
    complete -F _getopts_shell_offer -- "$1"
}
"#;

/// Completes words in zsh. If the code is a file in `$fpath`, it is read when it first completes a
/// word.
const ZSH: &str = r#"_getopts_shell_offer() {
    local -a offers
    offers=("${(@f)$(getopts_shell "${(@)argv[3,-1]}" --complete-words zsh "$1" "$2" \
        "${(@Q)words[2,CURRENT-1]}" "$PREFIX" 2>/dev/null)}")
    case $offers[1] in
    (files) _files ;;
    (value) compset -P 1 '*='; _files ;;
    (-*)
        offers=("${(@)${(@)${(@)offers%$'\t'}//\\/\\\\}//:/\\:}")
        offers=("${(@)offers/$'\t'/:}")
        _describe -o option offers
        ;;
    esac
}
_getopts_shell_complete() {
    compdef "_getopts_shell_offer ${(j: :)${(@q)@}}" "$1"
    if (( $+CURRENT )); then _getopts_shell_offer "$@"; fi
}
"#;

/// Completes words in fish.
const FISH: &str = r#"function _getopts_shell_offer
    set -l before (commandline -opc); set -e before[1]
    set -l word (commandline -ct)
    set -l call getopts_shell $argv[3..-1] --complete-words fish $argv[1..2]
    set -l offers (command $call $before "$word" 2>/dev/null)
    switch "$offers[1]"
        case files; __fish_complete_path "$word"
        case value
            set -l parts (string split -m 1 = -- "$word")
            for path in (__fish_complete_path "$parts[2]"); printf '%s=%s\n' $parts[1] $path; end
        case '-*'; printf '%s\n' $offers
    end
end
function _getopts_shell_complete
    set -l call _getopts_shell_offer (string escape -- $argv)
    complete -c $argv[1] -f -a "($call)"
end
"#;

/// Appends a word in quotes, as each of the three shells reads it: quotes and backslashes in the
/// word are written outside the quotes, after a backslash.
fn push_stub_quoted(text: &mut String, word: &str) -> Result<(), AllocError>
    ensures { OnOk result (string_bytes text.new ≡ string_bytes text.old ++ stub_quoted word.now) }
{
    text.push('\'')?;
    let mut begun = false;
    for part in word.split('\\') {
        push_parting(text, begun, "'\\\\'")?;
        push_replaced(text, part, '\'', "'\\''")?;
        begun = true;
    }
    text.push('\'')
}

/// The code that completes a script's words, if the shell is supported.
pub(crate) fn stub(
    alloc: Global,
    shell: &str,
    stop: bool,
    long_only: bool,
    name: &str,
    table: &str,
) -> Result<Option<String>, AllocError>
    ensures { IfOk result (λ text. option_map string_bytes text
        ≡ stub shell.now stop long_only name.now table.now) }
{
    let Some(functions) = functions(shell) else {
        return Ok(None);
    };
    let mut text = String::new(alloc);
    push_first_line(&mut text, shell, name)?;
    text.push_str(functions)?;
    text.push_str(stub_call(alloc, stop, long_only, name, table)?.as_str())?;
    Ok(Some(text))
}

/// The functions that all scripts share in a shell, if the shell is supported.
pub(crate) fn functions(shell: &str) -> Option<&'static str>
    ensures { option_map (λ text. text.now) result ≡ functions shell.now }
{
    match shell {
        "bash" => Some(BASH),
        "zsh" => Some(ZSH),
        "fish" => Some(FISH),
        _ => None,
    }
}

/// Appends the line that names the script in zsh, unless the name might break the line.
fn push_first_line(text: &mut String, shell: &str, name: &str) -> Result<(), AllocError>
    ensures { OnOk result (string_bytes text.new
        ≡ string_bytes text.old ++ first_line shell.now name.now) }
{
    if shell == "zsh" && is_long_name(name.as_bytes()) {
        writeln!(text, "#compdef {name}")?;
    }
    Ok(())
}

/// The line that completes a script's words.
fn stub_call(
    alloc: Global,
    stop: bool,
    long_only: bool,
    name: &str,
    table: &str,
) -> Result<String, AllocError>
    ensures { IfOk result (λ text. string_bytes text
        ≡ stub_call stop long_only name.now table.now) }
{
    let mut text = String::from_str(alloc, "_getopts_shell_complete ")?;
    push_stub_quoted(&mut text, name)?;
    text.push(' ')?;
    push_stub_quoted(&mut text, table)?;
    text.push_str(modes(stop, long_only))?;
    text.push('\n')?;
    Ok(text)
}

/// The program's own options for a style and a mode.
fn modes(stop: bool, long_only: bool) -> &'static str
    ensures { result.now ≡ modes stop long_only }
{
    match (stop, long_only) {
        (false, false) => "",
        (false, true) => " --long-only",
        (true, false) => " --stop",
        (true, true) => " --stop --long-only",
    }
}

/// The completions at a word of a script with these options, after the words before it: options, or
/// files.
pub(crate) fn offers(
    alloc: Global,
    options: &Options,
    long_only: bool,
    rows: &[Row<'_>],
    before: &[String],
    word: &str,
) -> Result<String, AllocError>
    requires { options.now.long_only ≡ long_only }
    ensures { IfOk result (λ text. string_bytes text
        ≡ offer options.now (entries_of rows.now) (map string_bytes before.now) word.now) }
{
    if !begins_with(word, "-") {
        return String::from_str(alloc, "files\n");
    }
    match matches_before_option(alloc, options, before)? {
        Some(matches) => options_lines(alloc, &matches, long_only, word, rows),
        None => String::from_str(alloc, "files\n"),
    }
}

/// The matches of words, if an option may follow them. To find out, it appends `--` and an empty
/// word: an option may follow if these are the stop and the only word after it.
fn matches_before_option(
    alloc: Global,
    options: &Options,
    before: &[String],
) -> Result<Option<Matches>, AllocError>
    ensures { IfOk result (λ found. option_map (λ matches. matches.groups) found
        ≡ groups_before_option options.now (map string_bytes before.now)) }
{
    names_resolve(options);
    let words = with_stop(alloc, before)?;
    let found = read_words(alloc, options, &words)?;
    match found {
        Some(matches) => {
            if is_last_after_stop(&matches) {
                Ok(Some(matches))
            } else {
                Ok(None)
            }
        }
        None => Ok(None),
    }
}

/// The matches of words if they have a reading, whatever their counts.
fn read_words(
    alloc: Global,
    options: &Options,
    words: &[&str],
) -> Result<Option<Matches>, AllocError>
    ensures { IfOk result
        (λ found. MatchResult (parse_ignoring_counts_result options.now (texts words.now))
        (λ matches. found ≡ Some matches) (λ fault. found ≡ None)) }
{
    match options.parse_ignoring_counts(alloc, words) {
        Ok(matches) => Ok(Some(matches)),
        Err(fail) => no_matches(&fail),
    }
}

/// No matches. Fails if the error is that memory ran out.
fn no_matches(fail: &Fail) -> Result<Option<Matches>, AllocError>
    ensures { IfOk result (λ found.
        (found ≡ None) × (fault : Fault) × (fault_of fail.now ≡ Some fault)) }
{
    match fail {
        Fail::OutOfMemory => Err(AllocError),
        _ => Ok(None),
    }
}

/// Words, followed by a `--` and an empty word.
fn with_stop(alloc: Global, before: &[String]) -> Result<Vec<&str>, AllocError>
    ensures { IfOk result (λ words. texts words.items
        ≡ map string_bytes before.now ++ stop_word ∷ [] ∷ []) }
{
    let mut words = Vec::new(alloc);
    for word in before {
        words.push(word.as_str())?;
    }
    words.push("--")?;
    words.push("")?;
    Ok(words)
}

/// Whether exactly one free word, the last one, follows a stop.
fn is_last_after_stop(matches: &Matches) -> bool
    ensures { result ≡ is_last_after_stop matches.now }
{
    match matches.free_trailing_start() {
        Some(start) => matches.free.len().saturating_sub(start) == 1,
        None => false,
    }
}

/// The completions for the options that are offered.
fn options_lines(
    alloc: Global,
    matches: &Matches,
    long_only: bool,
    word: &str,
    rows: &[Row<'_>],
) -> Result<String, AllocError>
    ensures { IfOk result (λ text. string_bytes text
        ≡ options_lines matches.now.groups long_only word.now (entries_of rows.now)) }
{
    let mut text = String::new(alloc);
    for row in rows {
        if may_come(matches, row) {
            push_option(&mut text, long_only, word, row)?;
        }
    }
    Ok(text)
}

/// Appends the completions for an option.
fn push_option(
    text: &mut String,
    long_only: bool,
    word: &str,
    row: &Row<'_>,
) -> Result<(), AllocError>
    ensures { OnOk result (string_bytes text.new
        ≡ string_bytes text.old ++ option_lines long_only word.now (entry_of_row row.now)) }
{
    let valued = takes_argument(row.kind);
    push_name(text, word, valued, "--", row.long, row.description)?;
    let one_dash = if long_only { row.long } else { "" };
    push_name(text, word, valued, "-", one_dash, row.description)?;
    push_name(
        text,
        word,
        long_only && valued,
        "-",
        row.short,
        row.description,
    )
}

/// Appends the completions for a name after its dashes, if there is such a name.
fn push_name(
    text: &mut String,
    word: &str,
    valued: bool,
    dashes: &str,
    name: &str,
    description: &str,
) -> Result<(), AllocError>
    ensures { OnOk result (string_bytes text.new ≡ string_bytes text.old
        ++ name_line word.now valued dashes.now name.now description.now) }
{
    if name.is_empty() {
        return Ok(());
    }
    let mut form = format!(in *text.allocator(); "{dashes}{name}")?;
    if begins_with(form.as_str(), word) {
        return writeln!(text, "{form}\t{description}");
    }
    form.push('=')?;
    if valued && begins_with(word, form.as_str()) {
        text.push_str("value\n")?;
    }
    Ok(())
}

/// Whether a text begins with another.
fn begins_with(text: &str, front: &str) -> bool
    ensures { result ≡ starts_with nat_eq text.now front.now }
{
    text.as_bytes().starts_with(front.as_bytes())
}
