//! Lemmas for proofs: the main theorem, and other facts about all options, words and matches. At
//! run time, they return nothing and change nothing.

ghost use Rattle.getopts.specs.Canon.{Content, Says, IsSound, IsPlain, HasCanonicalLine, with_setting};
ghost use Rattle.getopts.specs.declared.kinds.ParsingStyle.{ParsingStyle};
ghost use Rattle.std.specs.Prelude.{◌≡◌, ℕ, List, Bool, Err};
ghost use Rattle.getopts.specs.Accessors.{held_names};
ghost use Rattle.getopts.specs.Parse.{IsParseResult, IsCanonicalResult, KeepsLineLaws, HasResults};
ghost use Rattle.getopts.specs.Fail.{Fault};
ghost use Rattle.getopts.specs.Names.{Text, AreTexts, MainNameResolves, OneByteIsShort};
ghost use Rattle.getopts.specs.Names.{EmptyResolvesNot};
ghost use Rattle.getopts.specs.Only.{AtMostOne, IsTheOnly};
ghost use Rattle.getopts.specs.Options.{Declared, MayBeDeclared, names_of, grammar_of};
ghost use Rattle.getopts.specs.Reader.{PrecedeError, given_in, order_in, trace, whole};
ghost use Rattle.getopts.specs.ReadingLaws.{KeepsReadingLaws};
ghost use Rattle.getopts.specs.Results.{order_or_error};
ghost use Rattle.getopts.specs.Theorem.{OneReading, AcceptedExactlyWhen, RefusedExactlyWhen};
ghost use Rattle.getopts.specs.Theorem.{HaveResults, OneContentHoldsSame, LinesReadAgain};
ghost use Rattle.getopts.specs.Theorem.{OneLineOneContent};
ghost use Rattle.getopts.specs.Usage.{AreUsageRowsIn, IsUsageTextIn};
ghost use Rattle.getopts.specs.UsageResults.{description_rows, usage_in_result};
ghost use Rattle.getopts.specs.UsageResults.{usage_rows_in_result};
ghost use Rattle.getopts.specs.Wrap.{BreaksInto, IsDescriptionRows, IsFewestBreaking};

use crate::matches::Matches;
use crate::options::Options;

/// The main theorem. This is a lemma for proofs, which does nothing.
///
/// Unless an allocation fails, `parse` accepts words if and only if they have a reading that keeps
/// the counts. That reading is the only one, and the matches are exactly what it says. Other words
/// are rejected with their first error.
///
/// If no main name in use contains `=`, two accepted command lines have equal canonical lines if
/// and only if they give the same occurrences and free words. Their styles and modes may differ. In
/// both styles and both modes, a canonical line gives the same occurrences and free words again.
///
/// Occurrences are the same if their options, their order and their values are. Their positions may
/// differ.
pub fn one_reading_one_canonical_line(options: &Options)
    // Words have at most one reading, in each style and each mode. They are accepted if and only if
    // it exists and keeps the counts, and otherwise rejected with the first error. Functions such
    // as `parse_result` compute the result.
    ensures one_reading { OneReading options.now }
    ensures one_reading_in_each { (style : ParsingStyle) (long_only : Bool)
        → OneReading (with_setting options.now style long_only) }
    ensures accepted { AcceptedExactlyWhen options.now }
    ensures refused { RefusedExactlyWhen options.now }
    ensures results { HaveResults options.now }

    // Words with the same content give the same values to each name, and the same free words.
    // Positions and the trailing start may differ.
    ensures holds_same { OneContentHoldsSame options.now }

    // Canonical lines are equal if and only if their contents are equal; this is stated for
    // contents and for the lines that are returned. Each line reads back in both styles and both
    // modes, has no other content, and is the canonical line of no other content.
    ensures one_line_one_content { OneLineOneContent options.now }
    ensures canonical_lines { (words : List Text) (content : Content)
        → Says options.now words content → IsPlain options.now.groups content
        → HasCanonicalLine options.now content }
    ensures line_laws { KeepsLineLaws options.now }
    ensures read_again { LinesReadAgain options.now }

    // Laws about other spellings of a command line, joined command lines, free words and positions.
    ensures reading_laws { KeepsReadingLaws (grammar_of options.now) }

    // The main name of each option in a command line resolves to that option.
    ensures sound { (words : List Text) (content : Content)
        → Says options.now words content → IsSound options.now.groups content }
{
    names_resolve(options);
}

/// Laws of all options that may be declared. This is a lemma for proofs, which does nothing.
///
/// The laws are about readings, about canonical lines, and about words with equal content, whose
/// matches have the same values and free words. Four clauses of the main theorem follow.
pub fn declared_options_keep_laws()
    ensures reading_laws { (options : Declared) → MayBeDeclared options.groups
        → KeepsReadingLaws (grammar_of options) }
    ensures line_laws { (options : Declared) → MayBeDeclared options.groups
        → KeepsLineLaws options }
    ensures holds_same { (options : Declared) → MayBeDeclared options.groups
        → OneContentHoldsSame options }

    // The clauses of the main theorem about readings and equal canonical lines.
    ensures one_reading { (options : Declared) → MayBeDeclared options.groups → OneReading options }
    ensures accepted { (options : Declared) → MayBeDeclared options.groups
        → AcceptedExactlyWhen options }
    ensures refused { (options : Declared) → MayBeDeclared options.groups
        → RefusedExactlyWhen options }
    ensures one_line_one_content { (options : Declared) → MayBeDeclared options.groups
        → OneLineOneContent options }
{}

/// Three facts about how the names of options resolve, and that the options may be declared. This
/// is a lemma for proofs, which does nothing.
///
/// The main name of a resolved group resolves to that same group. A name of one byte that resolves
/// is a short name, and no long one. The empty name doesn't resolve.
pub fn names_resolve(options: &Options)
    ensures main_name { MainNameResolves (names_of options.now.groups) }
    ensures one_byte { OneByteIsShort (names_of options.now.groups) }
    ensures empty { EmptyResolvesNot (names_of options.now.groups) }

    // The premise of `declared_options_keep_laws`.
    ensures declared { MayBeDeclared options.now.groups }
{
    // For its clause `declared`.
    options.signatures();
}

/// The three facts of `names_resolve`, about the names in the matches. This is a lemma for
/// proofs, which returns nothing and changes nothing.
pub fn held_names_resolve(matches: &Matches)
    ensures main_name { MainNameResolves (held_names matches.now.groups) }
    ensures one_byte { OneByteIsShort (held_names matches.now.groups) }
    ensures empty { EmptyResolvesNot (held_names matches.now.groups) }
{
    // For its clause `lawful`.
    matches.opt_place("");
}

/// Equal input gives equal results: for given options and words, there is at most one result of
/// `parse` and one of `canonical`. Running out of memory doesn't count as a result.
///
/// This is a lemma for proofs, which does nothing.
pub fn equal_input_equal_results()
    ensures parse { (options : Declared) (words : List Text)
        → AtMostOne (IsParseResult options words) }
    ensures canonical { (options : Declared) (words : List Text)
        → AtMostOne (IsCanonicalResult options words) }
{}

/// The results of the calls are those that functions such as `parse_result` compute. This is a
/// lemma for proofs, which does nothing.
pub fn results_are_computed()
    ensures results { (options : Declared) (words : List Text) → MayBeDeclared options.groups
        → AreTexts words → HasResults options words }
{}

/// What a loop gives of a whole line. This is a lemma for proofs, which does nothing.
///
/// It has the options and free words that `parse_in_order` returns, in the same order, and ends at
/// the same error, except that counts aren't checked. Before an error, it has the options and free
/// words of the line up to there.
pub fn traces_are_orders()
    ensures order { (options : Declared) (line : List Text) → MayBeDeclared options.groups
        → order_in (trace options (whole line)) ≡ order_or_error options line }
    ensures before_error { (options : Declared) (line : List Text) (fault : Fault)
        → MayBeDeclared options.groups → order_or_error options line ≡ Err fault
        → PrecedeError options line (given_in (trace options (whole line))) fault }
{}

/// The rows of descriptions and the usage texts are those that functions such as `usage_result`
/// compute, and no fitting breaking of a line has fewer rows. This is a lemma for proofs, which
/// does nothing.
pub fn usage_texts_are_computed()
    ensures text { (columns : ℕ) (options : Declared) (brief : Text)
        → IsTheOnly (IsUsageTextIn columns options brief) (usage_in_result columns options brief) }
    ensures rows { (columns : ℕ) (options : Declared)
        → IsTheOnly (AreUsageRowsIn columns options) (usage_rows_in_result columns options) }
    ensures description { (limit : ℕ) (desc : Text)
        → IsTheOnly (IsDescriptionRows limit desc) (description_rows limit desc) }
    ensures fewest { (limit : ℕ) (desc : Text) (rows : List Text)
        → IsDescriptionRows limit desc rows → BreaksInto (IsFewestBreaking limit) desc rows }
{}
