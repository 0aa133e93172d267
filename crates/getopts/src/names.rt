//! Names of options: which pairs are valid, and the keys that names are looked up by.

ghost use Rattle.std.specs.Prelude.{◌≡◌, ◌↔◌, IsTrue, drop, slice_get};
ghost use Rattle.getopts.specs.Names.{AreLawful};
ghost use Rattle.getopts.specs.Stored.Names.{key_of};

/// Whether an option group may have these two names.
///
/// The names are valid if all of these are true:
///
/// - The short name has at most one byte.
/// - The long name is empty, or has at least two bytes. It may be one character of several bytes.
/// - At least one of the names isn't empty.
///
/// The methods that add a group require valid names. The Rust crate has no such function: it panics
/// if a name is too long or too short, and its `parse` panics if both are empty.
///
/// `names_lawful("o", "output")` is true, `names_lawful("", "o")` is false.
pub fn names_lawful(short: &str, long: &str) -> bool
    ensures lawful { IsTrue result ↔ AreLawful short.now long.now }
{
    short.len() <= 1 && long.len() != 1 && !(short.is_empty() && long.is_empty())
}

/// Packs the first seven bytes of a name into a key, and its length (8 if longer) into the lowest
/// byte. Keys sort as the bytes of the names do. Names under eight bytes are equal if their keys
/// are.
#[inline]
#[tactic(auto, unfolding(crate::specs::Stored::Names::key_of))]
pub(crate) fn key_of(name: &[u8]) -> u64
    ensures { result ≡ key_of name.now }
{
    match name {
        [] => 0,
        [a] => u64::from_be_bytes([*a, 0, 0, 0, 0, 0, 0, 1]),
        [a, b] => u64::from_be_bytes([*a, *b, 0, 0, 0, 0, 0, 2]),
        [a, b, c] => u64::from_be_bytes([*a, *b, *c, 0, 0, 0, 0, 3]),
        [a, b, c, d] => u64::from_be_bytes([*a, *b, *c, *d, 0, 0, 0, 4]),
        [a, b, c, d, e] => u64::from_be_bytes([*a, *b, *c, *d, *e, 0, 0, 5]),
        [a, b, c, d, e, f] => u64::from_be_bytes([*a, *b, *c, *d, *e, *f, 0, 6]),
        [a, b, c, d, e, f, g] => u64::from_be_bytes([*a, *b, *c, *d, *e, *f, *g, 7]),
        [a, b, c, d, e, f, g, _, ..] => u64::from_be_bytes([*a, *b, *c, *d, *e, *f, *g, 8]),
    }
}

#[tactic(auto, unfolding(crate::specs::Stored::Names::key_of))]
pub(crate) fn rest_key(name: &[u8]) -> u64
    ensures { result ≡ key_of (drop 7 name.now) }
{
    match name {
        [_, _, _, _, _, _, _, rest @ ..] => key_of(rest),
        _ => 0,
    }
}

pub(crate) fn short_byte(short: &str) -> Option<u8>
    ensures { result ≡ slice_get short.now 0 }
{
    match short.as_bytes() {
        [] => None,
        [byte, ..] => Some(*byte),
    }
}
