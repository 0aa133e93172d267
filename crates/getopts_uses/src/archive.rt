//! An archiver's command line: an option `-C DIR` applies to the files after it, as in
//! `-C a f -C b g`.

ghost use Rattle.std.specs.Prelude.{◌≡◌, IfOk, map};
ghost use Rattle.getopts.specs.Parse.{ReturnsConverted};
ghost use Rattle.getopts_uses.specs.Archive.{archive_options, entries_of, entry_view};

use getopts::{Fail, Given, Options, Unread};
use std::alloc::{AllocError, Global};
use std::convert::AsStr;

/// A file, and the folder that it is in.
#[derive(Clone, Copy, Debug)]
pub struct Entry<'w> {
    pub folder: Option<&'w str>,
    pub file: &'w str,
}

/// The folder of later files.
fn options(alloc: Global) -> Result<Options, AllocError>
    ensures { IfOk result (λ options. options ≡ archive_options) }
{
    let mut options = Options::new(alloc);
    options.optmulti("C", "directory", "find later files in DIR", "DIR")?;
    Ok(options)
}

/// The files of a command line, each with its folder.
pub fn read_entries<'w, S: AsStr>(alloc: Global, words: &'w [S]) -> Result<Vec<Entry<'w>>, Fail>
    ensures { ReturnsConverted (λ entries. map entry_view entries.items) result
        (λ returned. entries_of (map S.text words.now) ≡ returned) }
{
    let options = options(alloc)?;
    let reader = options.reader(alloc)?;
    let mut unread = Unread::new(words);
    let mut folder = None;
    let mut entries = Vec::new(alloc);
    while let Some(given) = reader.next(alloc, &mut unread)? {
        match given {
            Given::Option { place, value } => match options
                .get(place)
                .map(|group| group.long_name)
            {
                Some("directory") => folder = value,
                _ => unreachable!(),
            },
            Given::Free(file) => entries.push(Entry { folder, file })?,
        }
    }
    Ok(entries)
}
