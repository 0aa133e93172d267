//! A linker's command line. Files and libraries are linked in the order in which they were typed:
//! the linker searches a library for what the files before it need.

ghost use Rattle.std.specs.Prelude.{◌≡◌, map, IfOk};
ghost use Rattle.getopts.specs.Prelude.{parse_in_order_result};
ghost use Rattle.getopts_uses.specs.Linker.{IsInputsOrError, linker_options};

use getopts::{Fail, Given, Options};
use std::alloc::{AllocError, Global};
use std::convert::AsStr;

/// What is linked: a file, or a library by its name.
#[derive(Debug, Drop)]
pub enum Input {
    File(String),
    Library(String),
}

/// The place of the option `library`.
const LIBRARY: usize = 0;

/// Libraries, folders to search for them, and the output.
fn options(alloc: Global) -> Result<Options, AllocError>
    ensures { IfOk result (λ options. options ≡ linker_options) }
{
    let mut options = Options::new(alloc);
    options
        .optmulti("l", "library", "link with NAME", "NAME")?
        .optmulti("L", "library-path", "search DIR for libraries", "DIR")?
        .optopt("o", "output", "write the output to FILE", "FILE")?;
    Ok(options)
}

/// The files and libraries that a command line names, in order.
pub fn read_inputs<S: AsStr>(alloc: Global, words: &[S]) -> Result<Vec<Input>, Fail>
    ensures result { IsInputsOrError
        (parse_in_order_result linker_options (map S.text words.now)) result }
{
    let options = options(alloc)?;
    let order = options.parse_in_order(alloc, words)?;
    let mut inputs = Vec::new(alloc);
    for given in &order {
        match *given {
            Given::Free(file) => inputs.push(Input::File(String::from_str(alloc, file)?))?,
            Given::Option {
                place: LIBRARY,
                value,
            } => {
                // By the clause `declared`, an option that needs an argument has a value.
                let name = value.unwrap();
                inputs.push(Input::Library(String::from_str(alloc, name)?))?
            }
            Given::Option { .. } => {}
        }
    }
    Ok(inputs)
}
