//! `answer` with writers in memory: what it writes to each stream, and the exit status. Also the
//! names of options.

use crate::answer::answer;
use crate::greeting::options;
use getopts::names_lawful;
use std::alloc::AllocGlobal;
use std::process::Abort;

const HELP: &str = "\
Usage: getopts_greet [options]

Options:
    -n, --name NAME     greet NAME
    -t, --times NUMBER  greet NUMBER times
    -h, --help          print this help
    -V, --version       print the version
";

const VERSION: &str = "getopts_greet 1.0\n";

const NOT_A_NUMBER: &str = "getopts_greet: --times takes a number up to 4294967295\n";

/// Command lines that are accepted, and what is written to the standard output.
const ACCEPTED: &[(&[&str], &str)] = &[
    (&["-n", "Ann"], "hello Ann\n"),
    (&["--times=2", "--name=Ann"], "hello Ann\nhello Ann\n"),
    (&["-nAnn", "-t0"], ""),
    (&["-t", "+1", "-n", "", "Bob"], "hello \n"),
    (&["--help"], HELP),
    (&["-Vh", "-t", "many"], HELP),
    (&["--version"], VERSION),
    (&["-V", "-t", "many"], VERSION),
];

/// Command lines that are rejected, and what is written to the standard error.
const REJECTED: &[(&[&str], &str)] = &[
    (&[], "getopts_greet: Required option 'name' missing\n"),
    (
        &["-h", "-n"],
        "getopts_greet: Argument to option 'n' missing\n",
    ),
    (
        &["--nope", "-V"],
        "getopts_greet: Unrecognized option: 'nope'\n",
    ),
    (
        &["-n", "Ann", "--help=all"],
        "getopts_greet: Option 'help' does not take an argument\n",
    ),
    (
        &["-nAnn", "--name", "Bob"],
        "getopts_greet: Option 'name' given more than once\n",
    ),
    (&["-nAnn", "-tmany"], NOT_A_NUMBER),
    (&["-nAnn", "--times="], NOT_A_NUMBER),
    (&["-nAnn", "-t", "-1"], NOT_A_NUMBER),
    (&["-nAnn", "-t", "4294967296"], NOT_A_NUMBER),
];

/// Checks what `answer` writes to both streams, and the exit status.
fn check(rt: &(impl Abort + AllocGlobal), words: &[&str], out: &str, err: &str, status: u8) {
    let mut written = Vec::<u8>::new(rt.alloc());
    let mut complained = Vec::<u8>::new(rt.alloc());
    let ended = answer(rt.alloc(), words, &mut written, &mut complained);
    assert_eq!(rt; ended.ok(), Some(status), "{words:?}");
    assert_eq!(rt; written.as_slice(), out.as_bytes(), "{words:?}");
    assert_eq!(rt; complained.as_slice(), err.as_bytes(), "{words:?}");
}

#[test]
fn accepted_words(rt: HostRuntime) {
    for (words, out) in ACCEPTED {
        check(&rt, words, out, "", 0);
    }
}

#[test]
fn rejected_words(rt: HostRuntime) {
    for (words, err) in REJECTED {
        check(&rt, words, "", err, 2);
    }
}

/// Finds invalid and undefined names without a proof.
#[test]
fn names_of_options(rt: HostRuntime) {
    let groups = [
        ("n", "name"),
        ("t", "times"),
        ("h", "help"),
        ("V", "version"),
    ];
    for (short, long) in groups {
        assert!(rt; names_lawful(short, long), "invalid: {short}, {long}");
    }
    let options = options(rt.alloc()).expect(&rt, "out of memory");
    let words = ["-n", "Ann"];
    let matches = options
        .parse_words(rt.alloc(), &words)
        .expect(&rt, "an error");
    for name in ["name", "times", "help", "version"] {
        assert!(rt; matches.opt_defined(name), "undefined: {name}");
    }
}
