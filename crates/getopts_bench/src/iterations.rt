//! The iterations of a job, and their sum. Each job has its own function, so that the jobs are
//! compiled independently.

ghost use Rattle.std.specs.Iterator.{IsFinite};
ghost use Rattle.getopts.specs.Accessors.{IsDefined};

use crate::input::{Input, Named};
use crate::trouble::Trouble;
use getopts::{Fail, Given, Matches, Occurrences, Options, Unread};
use std::alloc::{AllocError, Global};
use std::convert::AsStr;

/// The first line of a usage text.
const BRIEF: &str = "Usage: getopts_show [options] FILE";

/// Runs a number of iterations of a job, and returns the wrapping sum of their results.
pub fn run(alloc: Global, job: &str, times: usize, input: &Input<'_>) -> Result<usize, Trouble> {
    let (named, words) = (&input.options, &input.words);
    Ok(match job {
        "whole" => whole(alloc, named, words, times)?,
        "copied" => copied(alloc, named, words, times)?,
        "order" => order(alloc, named, words, times)?,
        "loop" => one_at_a_time(alloc, named, words, times)?,
        _ => run_declared(alloc, job, times, named, &declared(alloc, named)?, words)?,
    })
}

/// The same with options declared before.
fn run_declared(
    alloc: Global,
    job: &str,
    times: usize,
    named: &[Named<'_>],
    options: &Options,
    words: &[&str],
) -> Result<usize, Trouble> {
    Ok(match job {
        "read" => read(alloc, options, words, times)?,
        "canonical" => canonical(alloc, options, words, times)?,
        "equal" => equal(alloc, options, words, times)?,
        "usage" => usage(alloc, options, times)?,
        "defined" => defined(&options.parse_words(alloc, words)?, named, times)?,
        "asked" => asked(&options.parse_words(alloc, words)?, named, times)?,
        "held" => held(alloc, options, words, times)?,
        _ => return Err(Trouble::NoJob),
    })
}

/// The wrapping sum of the results of a number of iterations.
fn repeated<F: FnMut() -> Result<usize, Fail> + Drop>(
    times: usize,
    mut iteration: F,
) -> Result<usize, Fail>
    requires { F.IsAlwaysCallable iteration }
{
    let mut sum = 0usize;
    for _ in 0..times {
        sum = sum.wrapping_add(iteration()?);
    }
    Ok(sum)
}

/// Each iteration declares the options, parses the words, and adds up the matches.
#[inline(never)]
fn whole(alloc: Global, named: &[Named<'_>], words: &[&str], times: usize) -> Result<usize, Fail> {
    repeated(times, || {
        let options = declared(alloc, named)?;
        let matches = options.parse_words(alloc, words)?;
        Ok(taken(&matches, named))
    })
}

/// The same with the calls that the Rust crate has: parses an iterator, and copies the values.
#[inline(never)]
fn copied(alloc: Global, named: &[Named<'_>], words: &[&str], times: usize) -> Result<usize, Fail> {
    repeated(times, || {
        let options = declared(alloc, named)?;
        let matches = options.parse(alloc, words.iter().copied())?;
        Ok(taken_as_copies(alloc, &matches, named)?)
    })
}

/// The same with the options and free words in command-line order.
#[inline(never)]
fn order(alloc: Global, named: &[Named<'_>], words: &[&str], times: usize) -> Result<usize, Fail> {
    repeated(times, || {
        let options = declared(alloc, named)?;
        let order = options.parse_in_order(alloc, words)?;
        Ok(taken_in_order(&order))
    })
}

/// The same in a loop, which stores nothing.
#[inline(never)]
fn one_at_a_time(
    alloc: Global,
    named: &[Named<'_>],
    words: &[&str],
    times: usize,
) -> Result<usize, Fail> {
    repeated(
        times,
        || taken_in_a_loop(alloc, &declared(alloc, named)?, words),
    )
}

/// Each iteration parses the words, and adds the number of free words.
#[inline(never)]
fn read(alloc: Global, options: &Options, words: &[&str], times: usize) -> Result<usize, Fail> {
    repeated(times, || Ok(options.parse_words(alloc, words)?.free.len()))
}

/// Each iteration writes the canonical line, and adds the lengths of its words.
#[inline(never)]
fn canonical(
    alloc: Global,
    options: &Options,
    words: &[&str],
    times: usize,
) -> Result<usize, Fail> {
    repeated(times, || match options.canonical_words(alloc, words)? {
        Some(line) => Ok(total_length(&line)),
        None => Ok(0),
    })
}

/// Each iteration compares the matches of both halves of the words, and adds 1 if they are equal.
#[inline(never)]
fn equal(alloc: Global, options: &Options, words: &[&str], times: usize) -> Result<usize, Fail> {
    let half = words.len() / 2;
    let matches = options.parse_words(alloc, &words[..half])?;
    let others = options.parse_words(alloc, &words[half..])?;
    repeated(times, || Ok(usize::from(matches == others)))
}

/// Each iteration writes the usage text, and adds its length.
#[inline(never)]
fn usage(alloc: Global, options: &Options, times: usize) -> Result<usize, Fail> {
    repeated(times, || Ok(options.usage(alloc, BRIEF)?.len()))
}

/// Each iteration asks whether each name is defined, and adds the number that are.
#[inline(never)]
fn defined(matches: &Matches, named: &[Named<'_>], times: usize) -> Result<usize, Fail> {
    repeated(times, || {
        let mut count = 0usize;
        for option in named {
            if matches.opt_defined(option.main()) {
                count = count.wrapping_add(1);
            }
        }
        Ok(count)
    })
}

/// Each iteration asks whether each option was given, and adds the number that were.
#[inline(never)]
fn asked(matches: &Matches, named: &[Named<'_>], times: usize) -> Result<usize, Fail> {
    let is_given = |option: &&Named<'_>| was_given(matches, option.main());
    repeated(times, || Ok(named.iter().filter(is_given).count()))
}

/// Each iteration parses the words, keeps the matches until the end, and adds the number of free
/// words.
#[inline(never)]
fn held(alloc: Global, options: &Options, words: &[&str], times: usize) -> Result<usize, Fail> {
    let mut kept = Vec::with_capacity(alloc, times)?;
    repeated(times, || {
        let matches = options.parse_words(alloc, words)?;
        let count = matches.free.len();
        kept.push(matches)?;
        Ok(count)
    })
}

/// Options with these names, all repeatable except those of `optflagopt`.
fn declared(alloc: Global, named: &[Named<'_>]) -> Result<Options, AllocError> {
    let mut options = Options::new(alloc);
    for option in named {
        option.declare(&mut options)?;
    }
    Ok(options)
}

/// Whether the option with this name was given.
fn was_given(matches: &Matches, name: &str) -> bool {
    let place = matches.opt_place(name);
    place.is_some_and(|place| !matches.occurrences_at(place).is_empty())
}

/// Adds up matches: the count of each option and the lengths of its values, and the lengths of the
/// free words.
fn taken(matches: &Matches, named: &[Named<'_>]) -> usize {
    let mut sum = total_length(&matches.free);
    for option in named {
        if let Some(place) = matches.opt_place(option.main()) {
            let occurrences = matches.occurrences_at(place);
            sum = sum
                .wrapping_add(occurrences.len())
                .wrapping_add(values_length(&occurrences));
        }
    }
    sum
}

/// Adds up matches, with copied values.
fn taken_as_copies(
    alloc: Global,
    matches: &Matches,
    named: &[Named<'_>],
) -> Result<usize, AllocError> {
    let mut sum = total_length(&matches.free);
    for option in named {
        let name = option.main();
        if matches.opt_defined(name) {
            sum = sum.wrapping_add(count_and_copies(alloc, matches, name)?);
        }
    }
    Ok(sum)
}

/// Adds up options and free words: 1 for each option, and the lengths of values and free words.
fn taken_in_order(order: &[Given<'_>]) -> usize {
    sum_of(order.iter().map(|given| length_of(*given)))
}

/// Adds up the same in a loop.
fn taken_in_a_loop<S: AsStr>(alloc: Global, options: &Options, words: &[S]) -> Result<usize, Fail> {
    let reader = options.reader(alloc)?;
    let mut unread = Unread::new(words);
    let mut sum = 0usize;
    while let Some(given) = reader.next(alloc, &mut unread)? {
        sum = sum.wrapping_add(length_of(given));
    }
    Ok(sum)
}

/// 1 for an option, and the length of its value; the length of a free word.
fn length_of(given: Given<'_>) -> usize {
    match given {
        Given::Option { value, .. } => value.map_or(0, str::len).wrapping_add(1),
        Given::Free(word) => word.len(),
    }
}

/// The count of an option plus the lengths of its values, which are copied.
fn count_and_copies(alloc: Global, matches: &Matches, name: &str) -> Result<usize, AllocError>
    requires { IsDefined matches.now.groups name.now }
{
    let values = matches.opt_strs(alloc, name)?;
    Ok(matches.opt_count(name).wrapping_add(total_length(&values)))
}

/// The total length of the values of occurrences.
fn values_length(occurrences: &Occurrences<'_>) -> usize {
    sum_of((0..occurrences.len()).map(|nth| match occurrences.get(nth) {
        Some((_, Some(value))) => value.len(),
        _ => 0,
    }))
}

/// The total length of texts.
fn total_length(texts: &[String]) -> usize {
    sum_of(texts.iter().map(|text| text.len()))
}

/// The wrapping sum of numbers.
fn sum_of<I: Iterator<Item = usize>>(numbers: I) -> usize
    requires { I.can_next numbers × IsFinite (I.remaining numbers) }
{
    numbers.fold(0, |sum, number| sum.wrapping_add(number))
}
