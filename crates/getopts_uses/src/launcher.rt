//! A program that runs another: its own options, then a command with its words, as in
//! `env -u HOME ls -l`. The command's words aren't read. Help is given at once, even if a later
//! word is an error. A loop doesn't check how often options occur, so this one counts `-C` itself.

ghost use Rattle.std.specs.Prelude.{◌≡◌, IfOk, map};
ghost use Rattle.getopts.specs.Parse.{ReturnsConverted};
ghost use Rattle.getopts_uses.specs.Launcher.{asked_by, asked_view, launch_options};

use crate::request::Request;
use getopts::{Fail, Given, Options, ParsingStyle, Unread};
use std::alloc::{AllocError, Global};
use std::convert::AsStr;

/// What a command line runs, and how.
#[derive(Debug, Drop)]
pub struct Launch<'w, S> {
    /// The variables to remove.
    pub unset: Vec<&'w str>,
    /// Whether to begin without variables.
    pub ignore: bool,
    /// The folder in which to begin.
    pub folder: Option<&'w str>,
    /// The program and its words, as they were typed. Empty if there is no program.
    pub command: &'w [S],
}

/// The options, which precede the command.
fn options(alloc: Global) -> Result<Options, AllocError>
    ensures { IfOk result (λ options. options ≡ launch_options) }
{
    let mut options = Options::new(alloc);
    options
        .optmulti("u", "unset", "remove NAME from the variables", "NAME")?
        .optflagmulti("i", "ignore", "begin without variables")?
        .optopt("C", "chdir", "begin in DIR", "DIR")?
        .optflagmulti("", "help", "print this help")?
        .parsing_style(ParsingStyle::StopAtFirstFree);
    Ok(options)
}

/// What a command line asks for.
pub fn read_launch<'w, S: AsStr>(
    alloc: Global,
    words: &'w [S],
) -> Result<Request<Launch<'w, S>>, Fail>
    ensures { ReturnsConverted (asked_view S.text) result
        (λ returned. asked_by (map S.text words.now) ≡ returned) }
{
    let options = options(alloc)?;
    let reader = options.reader(alloc)?;
    let mut unread = Unread::new(words);
    let mut launch = Launch {
        unset: Vec::new(alloc),
        ignore: false,
        folder: None,
        command: &[],
    };
    'words: while let Some(given) = reader.next(alloc, &mut unread)? {
        match given {
            Given::Option { place, value } => match options
                .get(place)
                .map(|group| group.long_name)
            {
                // By the clause `declared`, an option that needs an argument has a value.
                Some("unset") => launch.unset.push(value.unwrap())?,
                Some("ignore") => launch.ignore = true,
                Some("chdir") => {
                    if launch.folder.is_some() {
                        let name = String::from_str(alloc, "chdir")?;
                        return Err(Fail::OptionDuplicated(name));
                    }
                    launch.folder = value;
                }
                Some("help") => return Ok(Request::Help),
                _ => unreachable!(),
            },
            Given::Free(_) => {
                launch.command = unread.free_words.unwrap_or(&[]);
                return Ok(Request::Parsed(launch));
            }
        }
    }
    Ok(Request::Parsed(launch))
}
