//! Words from an iterator of the caller's own.

ghost use Rattle.std.specs.Prelude.{◌-◌, ◌^◌};
ghost use Rattle.std.specs.Iterator.{at_most};

use crate::errors::put_fault;
use crate::form::{Answer, Field};
use getopts::{Fail, Options};
use std::alloc::Global;
use std::cell::Cell;

/// An iterator over words that promises some number of them, at least. How many were taken is also
/// in a cell, which others can read.
#[derive(Drop)]
pub struct Promising<'a, 'c> {
    words: &'a [String],
    promise: usize,
    taken: usize,
    count: &'c Cell<usize>,
}

impl<'a> Iterator for Promising<'a, '_> {
    type Item = &'a str;

    ghost remaining = { λ s. at_most (2 ^ 64 - 1 - s.taken) };

    fn next(&mut self) -> Option<&'a str> {
        let word = self.words.get(self.taken)?.as_str();
        self.taken += 1;
        self.count.set(self.taken);
        Some(word)
    }

    fn size_hint(&self) -> (usize, Option<usize>) {
        (self.promise.saturating_sub(self.taken), None)
    }
}

/// An iterator over words that promises this many.
pub fn promised<'a, 'c>(
    words: &'a [String],
    promise: usize,
    count: &'c Cell<usize>,
) -> Promising<'a, 'c> {
    Promising {
        words,
        promise,
        taken: 0,
        count,
    }
}

/// Answers how many words `parse` and `canonical` take from an iterator that promises none, and
/// their errors.
pub fn taken(alloc: Global, options: &Options, words: &[String], answer: &mut Answer) {
    let count = Cell::new(0);
    let read = options.parse(alloc, promised(words, 0, &count));
    count.get().put(answer);
    put_error(&read.err(), answer);
    let written = options.canonical(alloc, promised(words, 0, &count));
    count.get().put(answer);
    put_error(&written.err(), answer);
}

/// Answers an error, or `-` if there is none.
fn put_error(error: &Option<Fail>, answer: &mut Answer) {
    match error {
        Some(fail) => put_fault(fail, answer),
        None => answer.field("-"),
    }
}
