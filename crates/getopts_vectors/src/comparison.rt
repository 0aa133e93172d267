//! Compares answers with those that rows expect.

use crate::form::{Answer, parts_of};
use crate::marks;
use crate::session::Session;
use crate::short::{put_at_length, put_written_out, put_zero_width};
use crate::stop::{Stop, UNKNOWN_LINE};
use std::alloc::Global;

/// The beginning of a case in short form.
const SHORT_CASE: &str = "\n* ";

/// The highest power of two around which lengths are tried.
const HIGHEST: u32 = 20;

/// The state between lines: the case with its name, the number of the line answered last with its
/// actual and expected answers, whether any answer was as expected, the number of differences, the
/// report, and whether an allocation failed between marks.
#[derive(Drop)]
pub struct Comparison {
    session: Session,
    case: Answer,
    answered: u64,
    answer: Answer,
    expected: Answer,
    any_agrees: bool,
    differences: u64,
    told: Answer,
    refused: bool,
}

impl Comparison {
    pub fn new(alloc: Global) -> Comparison {
        Comparison {
            session: Session::new(alloc),
            case: Answer::new(alloc),
            answered: 0,
            answer: Answer::new(alloc),
            expected: Answer::new(alloc),
            any_agrees: false,
            differences: 0,
            told: Answer::new(alloc),
            refused: false,
        }
    }

    /// The report about the rows, even if they ended early.
    pub fn told(&self) -> &str {
        self.told.text()
    }

    /// Whether no answer differs, or why the run ended early.
    pub fn agrees(&self) -> Result<bool, Stop> {
        match self.told.stopped() {
            Some(stop) => Err(stop),
            None if self.refused => Err(Stop::NoMemory),
            None if self.differences > 0 => Ok(false),
            None if self.any_agrees => Ok(true),
            None => Err(Stop::NoAnswers),
        }
    }

    /// Compares the rows of a text, and reports different answers, and their number at the end.
    pub fn compare_rows(&mut self, alloc: Global, text: &str) {
        match text.split_once(SHORT_CASE) {
            Some((rows, cases)) => {
                self.compare_cases(alloc, rows);
                self.compare_short_cases(alloc, cases);
            }
            None => self.compare_cases(alloc, text),
        }
        self.sum_up();
    }

    /// Compares cases, with a character that takes no columns in place of each `{Z}`.
    fn compare_cases(&mut self, alloc: Global, cases: &str) {
        let mut lines = Answer::new(alloc);
        put_zero_width(cases, &mut lines);
        self.told.stop_at(lines.stopped(), 0);
        self.compare_lines(alloc, lines.text());
    }

    /// Compares cases in short form.
    fn compare_short_cases(&mut self, alloc: Global, cases: &str) {
        for case in cases.split(SHORT_CASE) {
            if case.contains('$') {
                self.compare_at_lengths(alloc, case);
            } else {
                self.compare_short_case(alloc, case);
            }
        }
    }

    /// Compares a case in short form, at each length.
    fn compare_at_lengths(&mut self, alloc: Global, case: &str) {
        for power in 1..=HIGHEST {
            let around = 2usize.pow(power);
            for length in [around - 1, around, around + 1] {
                let mut text = Answer::new(alloc);
                put_at_length(case, length, &mut text);
                self.compare_short_case(alloc, text.text());
            }
        }
    }

    /// Compares a case in short form.
    fn compare_short_case(&mut self, alloc: Global, case: &str) {
        let mut lines = Answer::new(alloc);
        put_written_out(case, &mut lines);
        self.compare_lines(alloc, lines.text());
    }

    /// Processes lines one after another, and compares the answers.
    fn compare_lines(&mut self, alloc: Global, lines: &str) {
        let mut number = 0u64;
        for line in lines.split('\n') {
            number = number.saturating_add(1);
            self.follow(alloc, line, number);
        }
        self.settle();
    }

    /// Stores an expected answer; or compares the previous answers, and answers the line.
    fn follow(&mut self, alloc: Global, line: &str, number: u64) {
        if matches!(line.as_bytes().first(), Some(b'>' | b'|')) {
            self.expect(line);
        } else {
            self.settle();
            self.answered = number;
            if let Err(stop) = self.answer_line(alloc, line) {
                self.answer.clear();
                self.answer.stop(stop);
            }
        }
        self.told.stop_at(self.answer.stopped(), number);
        self.told.stop_at(self.expected.stopped(), number);
    }

    /// Stores a line of an expected answer, or a continuation.
    fn expect(&mut self, line: &str) {
        if let Some(text) = line.strip_prefix("> ") {
            self.expected.line(text);
        } else if let Some(text) = line.strip_prefix("| ") {
            self.expected.go_on(text);
        } else if line == "|" {
            self.expected.go_on("");
        } else {
            self.expected.stop(UNKNOWN_LINE);
        }
    }

    /// Executes a line, and stores its answer, or begins a case.
    fn answer_line(&mut self, alloc: Global, line: &str) -> Result<(), Stop> {
        let marked = line.strip_prefix("! ");
        let parts = parts_of(alloc, marked.unwrap_or(line))?;
        match parts.as_slice() {
            [] => Ok(()),
            [word, name] if word.as_str() == "case" => {
                self.case.clear();
                self.case.raw(name);
                self.session.begin(alloc);
                Ok(())
            }
            [word, fields @ ..] if marked.is_some() => self.answer_marked(alloc, word, fields),
            [word, fields @ ..] => self.session.answer(alloc, word, fields, &mut self.answer),
        }
    }

    /// Answers a line between the marks. If an allocation fails, it is answered again after the
    /// marks: what it borrowed must be unchanged.
    fn answer_marked(&mut self, alloc: Global, word: &str, fields: &[String]) -> Result<(), Stop> {
        self.answer.make_room();
        marks::begin(alloc);
        let answered = self.session.answer(alloc, word, fields, &mut self.answer);
        marks::end(alloc);
        match self.answer.stopped().or(answered.err()) {
            Some(Stop::NoMemory) => {
                self.refused = true;
                self.answer.clear();
                self.session.answer(alloc, word, fields, &mut self.answer)
            }
            _ => answered,
        }
    }

    /// Compares the last answer with the expected one, and clears both.
    fn settle(&mut self) {
        if self.answer.text() != self.expected.text() {
            self.differences = self.differences.saturating_add(1);
            self.tell();
        } else if !self.answer.text().is_empty() {
            self.any_agrees = true;
        }
        self.answer.clear();
        self.expected.clear();
    }

    /// Reports the expected and the actual answer to the last line.
    fn tell(&mut self) {
        self.told.raw("line ");
        self.told.shown(&self.answered);
        self.told.raw(" of ");
        self.told.raw(self.case.text());
        self.told.raw(", expected:\n");
        self.told.raw(self.expected.text());
        self.told.raw("answered:\n");
        self.told.raw(self.answer.text());
    }

    /// Reports the number of differences.
    fn sum_up(&mut self) {
        self.told.shown(&self.differences);
        self.told.raw(" differ\n");
    }
}
