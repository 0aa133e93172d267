//! Negative numbers as operands, as in `seq -5 5`. If an option is repeated, its last value wins.

ghost use Rattle.std.specs.Prelude.{◌≡◌, ◌<◌, [], ◌∷◌, codes, length, map, Err, IfOk, Ok, Some, true};
ghost use Rattle.std.specs.Option.{option_copied};
ghost use Rattle.getopts.specs.Parse.{ReturnsConverted};
ghost use Rattle.getopts.specs.Prelude.{left_in, unrecognized_option};
ghost use Rattle.getopts_uses.specs.Seq.{asked_by, asked_view, is_at_number, is_negative, nothing};
ghost use Rattle.getopts_uses.specs.Seq.{seq_options, with_option};

use getopts::{Fail, Given, Options, ParsingStyle, Unread};
use std::alloc::{AllocError, Global};
use std::convert::AsStr;

/// How to print numbers, and the operands that say which numbers.
#[derive(Debug, Drop)]
pub struct Seq<'w, S> {
    pub format: Option<&'w str>,
    pub separator: Option<&'w str>,
    pub equal_width: bool,
    pub operands: &'w [S],
}

/// The options. Each may be repeated.
fn options(alloc: Global) -> Result<Options, AllocError>
    ensures { IfOk result (λ options. options ≡ seq_options) }
{
    let mut options = Options::new(alloc);
    options
        .optmulti("f", "format", "print numbers as FORMAT", "FORMAT")?
        .optmulti("s", "separator", "print TEXT between numbers", "TEXT")?
        .optflagmulti("w", "equal-width", "print leading zeros")?
        .parsing_style(ParsingStyle::StopAtFirstFree);
    Ok(options)
}

/// Command lines written out: a negative number ends the options, unless it is an option's value.
#[tactic(auto, unfolding(getopts::proofs::OnLiterals::getopts_on_literals))]
fn lines_written_out()
    ensures operands { asked_by (codes "-5" ∷ codes "5" ∷ [])
        ≡ Ok (record nothing { operands = codes "-5" ∷ codes "5" ∷ [] }) }
    ensures value { asked_by (codes "-s" ∷ codes "-5" ∷ codes "-.5" ∷ codes "-x" ∷ [])
        ≡ Ok (record nothing {
          separator = Some (codes "-5");
          operands = codes "-.5" ∷ codes "-x" ∷ [];
        }) }
    ensures stop { asked_by (codes "-w" ∷ codes "--" ∷ codes "-5" ∷ [])
        ≡ Ok (record nothing { equal_width = true; operands = codes "-5" ∷ [] }) }
    ensures cluster { asked_by (codes "-w5" ∷ codes "-5" ∷ [])
        ≡ Err (unrecognized_option (codes "5")) }
{}

/// What a command line asks for.
pub fn read_seq<'w, S: AsStr>(alloc: Global, words: &'w [S]) -> Result<Seq<'w, S>, Fail>
    ensures { ReturnsConverted (asked_view S.text) result
        (λ returned. asked_by (map S.text words.now) ≡ returned) }
{
    let options = options(alloc)?;
    let reader = options.reader(alloc)?;
    let mut unread = Unread::new(words);
    let mut seq = Seq {
        format: None,
        separator: None,
        equal_width: false,
        operands: &[],
    };
    while !is_at_number(&unread) {
        match reader.next(alloc, &mut unread)? {
            Some(Given::Option { place, value }) => set_option(&mut seq, &options, place, value),
            Some(Given::Free(_)) => {
                seq.operands = unread.free_words.unwrap_or(&[]);
                return Ok(seq);
            }
            None => return Ok(seq),
        }
    }
    seq.operands = unread.words;
    Ok(seq)
}

/// Notes the option at a place, and its value.
fn set_option<'w, S: AsStr>(
    seq: &mut Seq<'w, S>,
    options: &Options,
    place: usize,
    value: Option<&'w str>,
)
    requires options { options.now ≡ seq_options }
    requires place { place < length seq_options.groups }
    ensures asked { asked_view S.text seq.new
        ≡ with_option place (option_copied value.entry) (asked_view S.text seq.old) }
    ensures operands { seq.new.operands ≡ seq.old.operands }
{
    match options.get(place).map(|group| group.long_name) {
        Some("format") => seq.format = value,
        Some("separator") => seq.separator = value,
        Some("equal-width") => seq.equal_width = true,
        _ => unreachable!(),
    }
}

/// Whether the next word begins like a negative number, and no names of a cluster are left.
fn is_at_number<S: AsStr>(unread: &Unread<'_, S>) -> bool
    ensures { result ≡ is_at_number (left_in S.text unread.now) }
{
    match unread.words.first() {
        Some(word) => unread.names.is_empty() && is_negative(word.as_str()),
        None => false,
    }
}

/// Whether a word begins like a negative number: `-`, then a digit or `.`.
fn is_negative(word: &str) -> bool
    ensures { result ≡ is_negative word.now }
{
    matches!(word.as_bytes(), [b'-', b'.' | b'0'..=b'9', ..])
}
