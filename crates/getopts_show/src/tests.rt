//! `show` with writers in memory: what it writes and returns for a command line, and that it
//! reports a write or a flush that fails.

use crate::show::show;
use std::alloc::{AllocGlobal, Global};
use std::io;
use std::io::{Error, ErrorKind, Write};
use std::process::Abort;

/// A command line, and what `show` writes and returns for it.
#[derive(Drop)]
struct Case {
    words: &'static [&'static str],
    text: &'static str,
    status: u8,
}

const HELP: &str = "\
Usage: getopts_show [options] FILE

Options:
    -o, --output NAME   set output file name
    -h, --help          print this help menu
    -v, --verbose       say more
    -L DIR              add a folder
    -c, --color [WHEN]  colour the output
";

const CASES: &[Case] = &[
    Case {
        words: &["--output=x.txt", "--verbose", "in.txt"],
        text: "\
output: 1 @0
output @0 = x.txt
help: 0
verbose: 1 @1
L: 0
color: 0
free: in.txt
line: --output=x.txt
line: --verbose
line: --
line: in.txt
",
        status: 0,
    },
    Case {
        words: &["-vvLd", "-c", "auto", "f"],
        text: "\
output: 0
help: 0
verbose: 2 @0 @0
L: 1 @0
L @0 = d
color: 1 @1
color @1 = auto
free: f
line: --verbose
line: --verbose
line: --L=d
line: --color=auto
line: --
line: f
",
        status: 0,
    },
    Case {
        words: &["--color", "x"],
        text: "\
output: 0
help: 0
verbose: 0
L: 0
color: 1 @0
free: x
line: --color
line: --
line: x
",
        status: 0,
    },
    Case {
        words: &["-La", "b", "--L", "c", "-o", "", "--", "-v", ""],
        text: "\
output: 1 @4
output @4 = \n\
help: 0
verbose: 0
L: 2 @0 @2
L @0 = a
L @2 = c
color: 0
free: b
free: -v
free: \n\
line: --L=a
line: --L=c
line: --output=
line: --
line: b
line: -v
line: \n",
        status: 0,
    },
    Case {
        words: &["-o", "x", "-v"],
        text: "\
output: 1 @0
output @0 = x
help: 0
verbose: 1 @2
L: 0
color: 0
line: --output=x
line: --verbose
line: --
",
        status: 0,
    },
    Case {
        words: &[],
        text: "\
output: 0
help: 0
verbose: 0
L: 0
color: 0
line: --
",
        status: 0,
    },
    Case {
        words: &["-h"],
        text: HELP,
        status: 0,
    },
    Case {
        words: &["-h", "x"],
        text: HELP,
        status: 0,
    },
    Case {
        words: &["-vo", "x", "--help", "--", "y"],
        text: HELP,
        status: 0,
    },
    Case {
        words: &["-h", "--nope"],
        text: "getopts_show: Unrecognized option: 'nope'\n",
        status: 2,
    },
    Case {
        words: &["-h", "-h"],
        text: "getopts_show: Option 'help' given more than once\n",
        status: 2,
    },
    Case {
        words: &["--nope"],
        text: "getopts_show: Unrecognized option: 'nope'\n",
        status: 2,
    },
    Case {
        words: &["-o"],
        text: "getopts_show: Argument to option 'o' missing\n",
        status: 2,
    },
    Case {
        words: &["--output=x", "--output", "y"],
        text: "getopts_show: Option 'output' given more than once\n",
        status: 2,
    },
    Case {
        words: &["-o", "x", "--output=y"],
        text: "getopts_show: Option 'output' given more than once\n",
        status: 2,
    },
    Case {
        words: &["--verbose=much"],
        text: "getopts_show: Option 'verbose' does not take an argument\n",
        status: 2,
    },
    Case {
        words: &["-vé"],
        text: "getopts_show: Unrecognized option: 'é'\n",
        status: 2,
    },
    Case {
        words: &["x", "--L"],
        text: "getopts_show: Argument to option 'L' missing\n",
        status: 2,
    },
];

/// A writer that takes at most `most` bytes at a time. Its write number `failing_write` fails (0:
/// none does), and its flush fails if `flush_fails`.
#[derive(Drop)]
struct Memory {
    held: Vec<u8>,
    writes: usize,
    most: usize,
    failing_write: usize,
    flush_fails: bool,
}

impl Memory {
    fn new(alloc: Global, most: usize, failing_write: usize, flush_fails: bool) -> Memory {
        Memory {
            held: Vec::new(alloc),
            writes: 0,
            most,
            failing_write,
            flush_fails,
        }
    }
}

impl Write for Memory {
    fn write(&mut self, bytes: &[u8]) -> io::Result<usize> {
        self.writes = self.writes.saturating_add(1);
        if self.writes == self.failing_write {
            return Err(Error::from(ErrorKind::BrokenPipe));
        }
        let count = bytes.len().min(self.most);
        self.held.extend_from_slice(&bytes[..count])?;
        Ok(count)
    }

    fn flush(&mut self) -> io::Result<()> {
        if self.flush_fails {
            return Err(Error::from(ErrorKind::BrokenPipe));
        }
        Ok(())
    }
}

/// Checks each case with a writer that takes at most `most` bytes at a time.
fn check_cases(rt: &(impl Abort + AllocGlobal), most: usize) {
    for Case {
        words,
        text,
        status,
    } in CASES {
        let mut out = Memory::new(rt.alloc(), most, 0, false);
        assert_eq!(rt; show(rt.alloc(), words, &mut out), *status, "{words:?}");
        assert_eq!(rt; out.held.as_slice(), text.as_bytes(), "{words:?}");
    }
}

/// Checks that `show` returns 4 for each case with such a writer.
fn check_failing(
    rt: &(impl Abort + AllocGlobal),
    most: usize,
    failing_write: usize,
    flush_fails: bool,
) {
    for Case { words, .. } in CASES {
        let mut out = Memory::new(rt.alloc(), most, failing_write, flush_fails);
        assert_eq!(rt; show(rt.alloc(), words, &mut out), 4, "{words:?}");
    }
}

#[test]
fn text_and_status(rt: HostRuntime) {
    check_cases(&rt, usize::MAX);
    check_cases(&rt, 1);
}

#[test]
fn failing_writers(rt: HostRuntime) {
    check_failing(&rt, usize::MAX, 1, false);
    check_failing(&rt, 1, 3, false);
    check_failing(&rt, 0, 0, false);
    check_failing(&rt, usize::MAX, 0, true);
}
