//! Fields of lines: texts in which tabs and newlines are escaped.

use crate::stop::{Stop, WRONG_ESCAPE, WRONG_FIELDS};
use getopts::Given;
use std::alloc::Global;
use std::fmt::Display;

/// The capacity for the answer of a line that is answered between marks.
const ROOM: usize = 4000;

/// The parts of a line: a word and its fields. A line that is skipped has none.
pub fn parts_of(alloc: Global, line: &str) -> Result<Vec<String>, Stop> {
    let mut parts = Vec::new(alloc);
    if !line.is_empty() && !line.starts_with('#') {
        for field in line.split('\t') {
            parts.push(text_of_field(alloc, field)?)?;
        }
    }
    Ok(parts)
}

/// The text of an escaped field.
fn text_of_field(alloc: Global, field: &str) -> Result<String, Stop> {
    let mut text = String::new(alloc);
    let mut after_backslash = false;
    for letter in field.chars() {
        let meant = match (after_backslash, letter) {
            (false, '\\') => None,
            (false, '\r') => return Err(WRONG_ESCAPE),
            (false, _) | (true, '\\') => Some(letter),
            (true, 't') => Some('\t'),
            (true, 'n') => Some('\n'),
            (true, 'r') => Some('\r'),
            (true, _) => return Err(WRONG_ESCAPE),
        };
        if let Some(meant) = meant {
            text.push(meant)?;
        }
        after_backslash = meant.is_none();
    }
    if after_backslash {
        Err(WRONG_ESCAPE)
    } else {
        Ok(text)
    }
}

/// The number that a field is.
pub fn number_of_field(field: &str) -> Result<usize, Stop> {
    field.parse::<usize>().ok().ok_or(WRONG_FIELDS)
}

/// The lines of answers so far, and why they ended early, if they did.
#[derive(Drop)]
pub struct Answer {
    alloc: Global,
    text: String,
    stop: Option<Stop>,
}

impl Answer {
    pub fn new(alloc: Global) -> Answer {
        Answer {
            alloc,
            text: String::new(alloc),
            stop: None,
        }
    }

    pub fn text(&self) -> &str {
        self.text.as_str()
    }

    /// Ends the lines early.
    pub fn stop(&mut self, stop: Stop) {
        self.stop = Some(stop);
    }

    /// Why the lines ended early.
    pub fn stopped(&self) -> Option<Stop> {
        self.stop
    }

    /// Reserves capacity for an answer.
    pub fn make_room(&mut self) {
        if self.text.reserve(ROOM).is_err() {
            self.stop = Some(Stop::NoMemory);
        }
    }

    /// Ends the lines early if something else stopped at a line, unless they have ended already.
    pub fn stop_at(&mut self, stop: Option<Stop>, number: u64) {
        if self.stop.is_none() {
            self.stop = match stop {
                Some(Stop::Line(_, why)) => Some(Stop::Line(number, why)),
                other => other,
            };
        }
    }

    /// Removes the lines, and why they ended early, and keeps their memory.
    pub fn clear(&mut self) {
        self.text.clear();
        self.stop = None;
    }

    /// Adds a text unescaped.
    pub fn raw(&mut self, text: &str) {
        if self.text.push_str(text).is_err() {
            self.stop = Some(Stop::NoMemory);
        }
    }

    /// Adds a character unescaped.
    pub fn letter(&mut self, letter: char) {
        if self.text.push(letter).is_err() {
            self.stop = Some(Stop::NoMemory);
        }
    }

    /// Adds a number.
    pub fn shown<T: Display>(&mut self, number: &T) {
        match number.to_string(self.alloc) {
            Ok(text) => self.raw(text.as_str()),
            Err(_) => self.stop = Some(Stop::NoMemory),
        }
    }

    /// Adds a number with five digits.
    pub fn five_digits(&mut self, number: usize) {
        match format!(in self.alloc; "{number:05}") {
            Ok(text) => self.raw(text.as_str()),
            Err(_) => self.stop = Some(Stop::NoMemory),
        }
    }

    /// Begins a line with its word, escaped.
    pub fn word(&mut self, word: &str) {
        for letter in word.chars() {
            match letter {
                '\t' => self.raw("\\t"),
                '\n' => self.raw("\\n"),
                '\r' => self.raw("\\r"),
                '\\' => self.raw("\\\\"),
                _ => self.letter(letter),
            }
        }
    }

    /// Adds a field.
    pub fn field(&mut self, text: &str) {
        self.raw("\t");
        self.word(text);
    }

    /// Ends a line, and begins another with its word.
    pub fn next(&mut self, word: &str) {
        self.raw("\n");
        self.word(word);
    }

    /// Adds a line that is already escaped.
    pub fn line(&mut self, line: &str) {
        self.raw(line);
        self.raw("\n");
    }

    /// Appends to the last line: a text that is already escaped, and an escaped newline.
    pub fn go_on(&mut self, text: &str) {
        self.text.pop();
        self.raw(text);
        self.raw("\\n\n");
    }

    /// Ends a line.
    pub fn end(&mut self) {
        self.raw("\n");
    }
}

/// Values that can be written as fields.
pub trait Field {
    /// Adds the fields.
    fn put(&self, answer: &mut Answer);
}

impl Field for bool {
    fn put(&self, answer: &mut Answer) {
        answer.field(if *self { "true" } else { "false" });
    }
}

impl Field for usize {
    fn put(&self, answer: &mut Answer) {
        answer.raw("\t");
        answer.shown(self);
    }
}

/// `-` if there is no value.
impl Field for Option<usize> {
    fn put(&self, answer: &mut Answer) {
        match self {
            Some(number) => number.put(answer),
            None => answer.field("-"),
        }
    }
}

/// `-` if there is no value, else `=` and the value.
impl Field for Option<&str> {
    fn put(&self, answer: &mut Answer) {
        match self {
            Some(value) => {
                answer.field("=");
                answer.word(value);
            }
            None => answer.field("-"),
        }
    }
}

impl Field for Option<String> {
    fn put(&self, answer: &mut Answer) {
        self.as_deref().put(answer);
    }
}

impl Field for String {
    fn put(&self, answer: &mut Answer) {
        answer.field(self.as_str());
    }
}

impl Field for (usize, String) {
    fn put(&self, answer: &mut Answer) {
        let (number, text) = self;
        number.put(answer);
        text.put(answer);
    }
}

/// For an option, a field for its place and one for its value; for a free word, `=` and the word.
impl Field for Given<'_> {
    fn put(&self, answer: &mut Answer) {
        match self {
            Given::Option { place, value } => {
                place.put(answer);
                value.put(answer);
            }
            Given::Free(word) => Some(*word).put(answer),
        }
    }
}

impl<T: Field> Field for Vec<T> {
    fn put(&self, answer: &mut Answer) {
        for value in self {
            value.put(answer);
        }
    }
}
