//! The options in a command line, with their values: all together, and by group.

ghost use Rattle.std.specs.Prelude.{◌≡◌, ◌↔◌, ◌<◌, ◌∷◌, ◌++◌};
ghost use Rattle.std.specs.Prelude.{[], Some, IfOk, IfSome, IsOk, OnOk, OnErr, IsTrue, map, length};
ghost use Rattle.std.specs.Prelude.{slice_get};
ghost use Rattle.std.specs.Cmp.Lexicographic.{pointwise};
ghost use Rattle.std.specs.Iterator.{YieldsFirstBy, YieldsFirstRef, YieldsLastBy, YieldsLastRef};
ghost use Rattle.std.specs.Iterator.{item_count};
ghost use Rattle.std.specs.Option.{option_copied, option_map};
ghost use Rattle.std.specs.Str.{IsCharBoundary, IsUtf8};
ghost use Rattle.std.specs.String.{string_bytes};
ghost use Rattle.getopts.specs.Accessors.{IsParsedAs, IsParsedOr, borrowed_occurrence, first_value};
ghost use Rattle.getopts.specs.Accessors.{first_value_or, pair_view, pairs_of, positions_of};
ghost use Rattle.getopts.specs.Accessors.{values_of};
ghost use Rattle.getopts.specs.Reading.{at_position};
ghost use Rattle.getopts.specs.Same.{same_group_occurrence};
ghost use Rattle.getopts.specs.Stored.Occurrences.{IsAdded, end_by, text_between};
ghost use Rattle.getopts.specs.Stored.Occurrences.{occurrences_at_indices, AreIndicesOf};

use std::alloc::{AllocError, Global};
use std::marker::Model;
use std::str::FromStr;

/// An occurrence of an option, as it is stored.
///
/// All values are in one text, in order. `value` is twice the index at which this value starts,
/// plus one if there is a value. The value ends where the value of the next record starts.
#[derive(Clone, Copy, Debug)]
pub(crate) struct OccurrenceRecord {
    pub place: usize,
    pub position: usize,
    pub value: usize,
}

/// An occurrence of an option, borrowed. `position` is the index of the first word of its item.
#[derive(Clone, Copy)]
pub(crate) struct Occurrence<'l> {
    pub place: usize,
    pub position: usize,
    pub value: Option<&'l str>,
}

/// Bytes reserved for all values when the first one is stored.
const FIRST_VALUES: usize = 64;

/// A list of more records, or a text of more bytes, gives back memory that it doesn't use.
const FIRST_LONG: usize = 512;

/// The first text that isn't empty reserves `FIRST_VALUES` bytes.
#[inline(always)]
fn push_text(values: &mut String, text: &str) -> Result<(), AllocError>
    ensures ok { OnOk result (string_bytes values.new ≡ string_bytes values.old ++ text.now) }
    ensures err { OnErr result (string_bytes values.new ≡ string_bytes values.old) }
    ensures utf8 { IsUtf8 text.now }
{
    if values.is_empty() && !text.is_empty() {
        values.reserve(FIRST_VALUES)?;
    }
    values.push_str(text)
}

/// Appends a value, if there is one, and returns what its record stores.
#[inline(always)]
fn push_value(values: &mut String, value: Option<&str>) -> Result<usize, AllocError>
    ensures ok { IfOk result
        (IsAdded (string_bytes values.old) (string_bytes values.new) (option_copied value.entry)) }
    ensures err { OnErr result (string_bytes values.new ≡ string_bytes values.old) }
{
    let start = values.len();
    match value {
        Some(text) => {
            push_text(values, text)?;
            Ok(2 * start + 1)
        }
        None => Ok(2 * start),
    }
}

/// The value from `start` to where the value of the record at `next` starts.
#[inline(always)]
fn value_from<'v>(
    values: &'v str,
    start: usize,
    records: &[OccurrenceRecord],
    next: usize,
) -> Option<&'v str>
    requires start { IsCharBoundary values.now start }
    requires end { IsCharBoundary values.now (end_by values.now (slice_get records.now next)) }
    ensures { option_copied result
        ≡ text_between values.now start (end_by values.now (slice_get records.now next)) }
{
    let end = match records.get(next) {
        Some(record) => record.value / 2,
        None => values.len(),
    };
    if start <= end {
        Some(&values[start..end])
    } else {
        None
    }
}

/// The options in a command line, in order, and their values as one text.
#[derive(Debug, Drop)]
pub(crate) struct LineOccurrences {
    pub records: Vec<OccurrenceRecord>,
    values: String,
}

impl Model for LineOccurrences {
    ghost use Rattle.std.specs.Prelude.{List};
    ghost use Rattle.getopts.specs.Reading.{Occurrence};
    ghost use Rattle.getopts.specs.Stored.Occurrences.{found_view, HaveTheirValues};

    ghost Value = { List Occurrence };

    ghost view = { found_view };

    ghost invariant = { HaveTheirValues };
}

impl LineOccurrences {
    pub(crate) fn with_capacity(alloc: Global, room: usize) -> Result<LineOccurrences, AllocError>
        ensures { IfOk result (λ found. found ≡ []) }
    {
        Ok(LineOccurrences {
            records: Vec::with_capacity(alloc, room)?,
            values: String::new(alloc),
        })
    }

    /// Gives back unused memory of a long list and a long text.
    #[inline(never)]
    pub(crate) fn shrink(&mut self)
        ensures { self.new ≡ self.old }
    {
        if self.records.len() > FIRST_LONG {
            self.records.shrink_to_fit();
        }
        if self.values.len() > FIRST_LONG {
            self.values.shrink_to_fit();
        }
    }

    pub(crate) fn len(&self) -> usize
        ensures { result ≡ length self.now }
    {
        self.records.len()
    }

    #[inline(always)]
    pub(crate) fn at(&self, index: usize) -> Occurrence<'_>
        requires { index < length self.now }
        ensures { slice_get self.now index ≡ Some (at_position result.position
            (record { place = result.place; value = option_copied result.value })) }
    {
        let stored = self.records[index];
        Occurrence {
            place: stored.place,
            position: stored.position,
            value: if stored.value % 2 == 1 {
                value_from(&self.values, stored.value / 2, &self.records, index + 1)
            } else {
                None
            },
        }
    }

    #[inline(always)]
    pub(crate) fn push(
        &mut self,
        place: usize,
        position: usize,
        value: Option<&str>,
    ) -> Result<(), AllocError>
        ensures { OnOk result (self.new ≡ self.old ++ at_position position
            (record { place = place; value = option_copied value.entry }) ∷ []) }
    {
        let value = push_value(&mut self.values, value)?;
        self.records.push(OccurrenceRecord {
            place,
            position,
            value,
        })?;
        Ok(())
    }
}

impl Clone for LineOccurrences {
    ghost is_clone = { λ a b. b ≡ a };

    fn clone(&self) -> Result<LineOccurrences, AllocError> {
        Ok(LineOccurrences {
            records: self.records.clone()?,
            values: self.values.clone()?,
        })
    }
}

/// The occurrences of one option group, in command-line order, borrowed from the matches.
///
/// `Matches::occurrences_at` returns them. No text is copied. The Rust crate has no such type.
/// They are an iterator, from either end, which takes off what it returns:
///
/// ```
/// for (position, value) in matches.occurrences_at(place) { .. }
/// ```
#[derive(Debug, Drop)]
pub struct Occurrences<'m> {
    found: &'m LineOccurrences,
    indices: &'m [usize],
}

impl<'m> Model for Occurrences<'m> {
    ghost use Rattle.std.specs.Prelude.{List};
    ghost use Rattle.getopts.specs.Matches.{GroupOccurrence};
    ghost use Rattle.getopts.specs.Stored.Occurrences.{occurrences_at_indices, AreIndicesOf};

    ghost Value = { List GroupOccurrence };

    ghost view = { λ a. occurrences_at_indices a.found.now a.indices.now };

    ghost invariant = { λ a. AreIndicesOf a.found.now a.indices.now };
}

impl<'m> Occurrences<'m> {
    pub(crate) fn of(found: &'m LineOccurrences, indices: &'m [usize]) -> Occurrences<'m>
        requires { AreIndicesOf found.now indices.now }
        ensures { result ≡ occurrences_at_indices found.now indices.now }
    {
        Occurrences { found, indices }
    }

    /// The number of occurrences.
    pub fn len(&self) -> usize
        ensures count { result ≡ length self.now }
    {
        self.indices.len()
    }

    /// Whether there are no occurrences.
    pub fn is_empty(&self) -> bool
        ensures empty { IsTrue result ↔ (self.now ≡ []) }
    {
        self.len() == 0
    }

    /// Returns the position and the value of an occurrence, or `None` past the last. The value is
    /// `None` if the occurrence has no value.
    #[inline]
    pub fn get(&self, nth: usize) -> Option<(usize, Option<&'m str>)>
        ensures occurrence { option_map borrowed_occurrence result ≡ slice_get self.now nth }
    {
        if nth >= self.len() {
            return None;
        }
        let occurrence = self.at(nth);
        Some((occurrence.position, occurrence.value))
    }

    #[inline]
    fn at(&self, nth: usize) -> Occurrence<'m>
        requires { nth < length self.now }
        ensures { slice_get self.now nth
            ≡ Some (borrowed_occurrence (result.position, result.value)) }
    {
        self.found.at(self.indices[nth])
    }

    /// Borrows the same occurrences again.
    #[inline]
    pub(crate) fn again(&self) -> Occurrences<'m>
        ensures { result ≡ self.now }
    {
        Occurrences::of(self.found, self.indices)
    }

    /// Takes off the occurrences up to the first one that has a value.
    #[inline]
    pub(crate) fn take_first_value(&mut self) -> Option<&'m str>
        ensures { YieldsFirstRef values_of self.old result self.new }
    {
        while let Some((_, value)) = self.next() {
            if value.is_some() {
                return value;
            }
        }
        None
    }

    /// Takes off the occurrences from the last one that has a value.
    #[inline]
    pub(crate) fn take_last_value(&mut self) -> Option<&'m str>
        ensures { YieldsLastRef values_of self.old result self.new }
    {
        while let Some((_, value)) = self.next_back() {
            if value.is_some() {
                return value;
            }
        }
        None
    }

    pub(crate) fn positions(&self, alloc: Global) -> Result<Vec<usize>, AllocError>
        ensures positions { IfOk result (λ positions. positions.items ≡ positions_of self.now) }
        ensures absent { self.now ≡ [] → IsOk result }
    {
        let mut positions = Vec::with_capacity(alloc, self.len())?;
        for nth in 0..self.len() {
            positions.push(self.at(nth).position)?;
        }
        Ok(positions)
    }

    #[inline]
    pub(crate) fn values(&self, alloc: Global) -> Result<Vec<String>, AllocError>
        ensures values { IfOk result (λ values. map string_bytes values.items ≡ values_of self.now) }
        ensures absent { values_of self.now ≡ [] → IsOk result }
    {
        let mut values = Vec::new(alloc);
        for nth in 0..self.len() {
            if let Some(value) = self.at(nth).value {
                values.push(String::from_str(alloc, value)?)?;
            }
        }
        Ok(values)
    }

    pub(crate) fn pairs(&self, alloc: Global) -> Result<Vec<(usize, String)>, AllocError>
        ensures pairs { IfOk result (λ pairs. map pair_view pairs.items ≡ pairs_of self.now) }
        ensures absent { values_of self.now ≡ [] → IsOk result }
    {
        let mut pairs = Vec::new(alloc);
        for nth in 0..self.len() {
            let occurrence = self.at(nth);
            if let Some(value) = occurrence.value {
                pairs.push((occurrence.position, String::from_str(alloc, value)?))?;
            }
        }
        Ok(pairs)
    }

    pub(crate) fn first_value(&self) -> Option<&'m str>
        ensures { option_copied result ≡ first_value self.now }
    {
        let (_, value) = self.get(0)?;
        value
    }

    pub(crate) fn first_value_or(&self, fallback: &'m str) -> Option<&'m str>
        ensures { option_copied result ≡ first_value_or self.now fallback.now }
    {
        let (_, value) = self.get(0)?;
        Some(value.unwrap_or(fallback))
    }

    /// Copies the value of the first occurrence.
    pub(crate) fn first_copy(&self, alloc: Global) -> Result<Option<String>, AllocError>
        ensures value { IfOk result (λ value. option_map string_bytes value ≡ first_value self.now) }
        ensures absent { IfSome (first_value self.now) (λ value. value ≡ []) → IsOk result }
    {
        copied(alloc, self.first_value())
    }

    /// Copies the value of the first occurrence, or `fallback` if it has no value.
    pub(crate) fn first_copy_or(
        &self,
        alloc: Global,
        fallback: &'m str,
    ) -> Result<Option<String>, AllocError>
        ensures value { IfOk result (λ value. option_map string_bytes value
            ≡ first_value_or self.now fallback.now) }
        ensures absent { IfSome (first_value_or self.now fallback.now) (λ value. value ≡ [])
            → IsOk result }
    {
        copied(alloc, self.first_value_or(fallback))
    }

    /// Parses the value of the first occurrence, if it has one.
    pub(crate) fn first_parsed<T: FromStr>(&self) -> Result<Option<T>, T::Err>
        ensures { IsParsedAs T.from_str_gives (first_value self.now) result }
    {
        match self.first_value() {
            Some(text) => Ok(Some(text.parse()?)),
            None => Ok(None),
        }
    }

    /// Parses the value of the first occurrence, or returns `def` if it has none.
    pub(crate) fn first_parsed_or<T: FromStr + Drop>(&self, def: T) -> Result<T, T::Err>
        ensures { IsParsedOr T.from_str_gives (first_value self.now) def result }
    {
        match self.first_value() {
            Some(text) => text.parse(),
            None => Ok(def),
        }
    }

    #[inline]
    pub(crate) fn same(&self, other: &Occurrences<'_>) -> bool
        ensures { result ≡ pointwise same_group_occurrence self.now other.now }
    {
        if self.is_empty() && other.is_empty() {
            return true;
        }
        if self.len() != other.len() {
            return false;
        }
        for nth in 0..self.len() {
            if self.get(nth) != other.get(nth) {
                return false;
            }
        }
        true
    }
}

/// Copies a text, if there is one.
pub(crate) fn copied(alloc: Global, text: Option<&str>) -> Result<Option<String>, AllocError>
    ensures copy { IfOk result (λ copy. option_map string_bytes copy ≡ option_copied text.entry) }
    ensures absent { IfSome (option_copied text.entry) (λ text. text ≡ []) → IsOk result }
{
    match text {
        Some(text) => {
            // `String::from_str` promises no success, even for an empty text.
            let mut copy = String::with_capacity(alloc, text.len())?;
            copy.push_str(text)?;
            Ok(Some(copy))
        }
        None => Ok(None),
    }
}

impl<'m> Iterator for Occurrences<'m> {
    type Item = (usize, Option<&'m str>);

    ghost next_gives = { YieldsFirstBy borrowed_occurrence (λ rest. rest) };

    ghost remaining = { item_count (λ rest. rest) };

    /// Takes off the first occurrence.
    #[inline]
    fn next(&mut self) -> Option<(usize, Option<&'m str>)> {
        let (first, others) = self.indices.split_first()?;
        let occurrence = self.found.at(*first);
        self.indices = others;
        Some((occurrence.position, occurrence.value))
    }
}

impl<'m> DoubleEndedIterator for Occurrences<'m> {
    ghost next_back_gives = { YieldsLastBy borrowed_occurrence (λ rest. rest) };

    /// Takes off the last occurrence.
    #[inline]
    fn next_back(&mut self) -> Option<(usize, Option<&'m str>)> {
        let (last, others) = self.indices.split_last()?;
        let occurrence = self.found.at(*last);
        self.indices = others;
        Some((occurrence.position, occurrence.value))
    }
}

/// Iterates over the values of those occurrences of one option group that have one.
#[derive(Debug, Drop)]
pub struct Values<'m> {
    left: Occurrences<'m>,
}

impl<'m> Model for Values<'m> {
    ghost use Rattle.std.specs.Prelude.{List};
    ghost use Rattle.getopts.specs.Accessors.{values_of};
    ghost use Rattle.getopts.specs.Names.{Text};

    ghost Value = { List Text };

    ghost view = { λ a. values_of a.left };
}

impl<'m> Values<'m> {
    #[inline]
    pub(crate) fn of(occurrences: Occurrences<'m>) -> Values<'m>
        ensures { result ≡ values_of occurrences.entry }
    {
        Values { left: occurrences }
    }
}

impl<'m> Iterator for Values<'m> {
    type Item = &'m str;

    ghost next_gives = { YieldsFirstRef (λ rest. rest) };

    ghost remaining = { item_count (λ rest. rest) };

    #[inline]
    fn next(&mut self) -> Option<&'m str> {
        self.left.take_first_value()
    }
}

impl<'m> DoubleEndedIterator for Values<'m> {
    ghost next_back_gives = { YieldsLastRef (λ rest. rest) };

    #[inline]
    fn next_back(&mut self) -> Option<&'m str> {
        self.left.take_last_value()
    }
}
