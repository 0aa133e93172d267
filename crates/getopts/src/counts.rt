//! Whether options occur as often as they may.

ghost use Rattle.std.specs.Prelude.{◌≡◌, ◌<◌, ℕ, length, get_or, map};
ghost use Rattle.std.specs.Prelude.{replicate, Some, None, IfErr, OnOk};
ghost use Rattle.getopts.specs.Accessors.{borrowed_given};
ghost use Rattle.getopts.specs.Fail.{IsOutOfMemoryOr};
ghost use Rattle.getopts.specs.Matches.{count_fault, fits_count};
ghost use Rattle.getopts.specs.Stored.Index.{count_given, count_in, first_wrong, indices_in};

use crate::fail::Fail;
use crate::index::Index;
use crate::kinds::Occur;
use crate::scan::Given;
use crate::signatures::Signatures;
use std::alloc::Global;

/// Checks the counts in order of declaration, by an index of the occurrences.
#[inline(always)]
pub(crate) fn check_counts(
    alloc: Global,
    signatures: &Signatures,
    index: &Index,
) -> Result<(), Fail>
    ensures ok { OnOk result (first_wrong 0 signatures.now (count_in (indices_in index.now)) ≡ None) }
    ensures err { IfErr result (λ fail. IsOutOfMemoryOr fail
        (λ fault. first_wrong 0 signatures.now (count_in (indices_in index.now)) ≡ Some fault)) }
{
    for place in 0..signatures.len() {
        let count = index.count(place);
        if !fits_count(signatures.record(place).kinds.occur, count) {
            return Err(count_fault(alloc, signatures.main(place), count));
        }
    }
    Ok(())
}

/// Checks the counts in order of declaration, by the order of a command line.
pub(crate) fn check_counts_in_order(
    alloc: Global,
    signatures: &Signatures,
    order: &[Given],
) -> Result<(), Fail>
    ensures ok { OnOk result
        (first_wrong 0 signatures.now (count_given (map borrowed_given order.now)) ≡ None) }
    ensures err { IfErr result (λ fail. IsOutOfMemoryOr fail (λ fault.
        first_wrong 0 signatures.now (count_given (map borrowed_given order.now)) ≡ Some fault)) }
{
    let room = signatures.len();
    let mut counts = vec![in alloc; 0; room]?;
    count_options(&mut counts, order);
    for place in 0..room {
        let count = counts[place];
        if !fits_count(signatures.record(place).kinds.occur, count) {
            return Err(count_fault(alloc, signatures.main(place), count));
        }
    }
    Ok(())
}

fn count_options(counts: &mut [usize], order: &[Given])
    requires { counts.old ≡ replicate (length counts.old) 0 }
    ensures size { length counts.new ≡ length counts.old }
    ensures counts { (place : ℕ) → place < length counts.old
        → get_or counts.new place 0 ≡ count_given (map borrowed_given order.now) place }
{
    for given in order {
        if let Given::Option { place, .. } = given {
            if *place < counts.len() {
                counts[*place] += 1;
            }
        }
    }
}

/// Whether an option may occur this often.
fn fits_count(occur: Occur, count: usize) -> bool
    ensures { result ≡ fits_count occur count }
{
    match occur {
        Occur::Req => count == 1,
        Occur::Optional => count <= 1,
        Occur::Multi => true,
    }
}

fn count_fault(alloc: Global, main: &str, count: usize) -> Fail
    ensures { IsOutOfMemoryOr result (λ fault. fault ≡ count_fault main.now count) }
{
    match String::from_str(alloc, main) {
        Ok(name) if count == 0 => Fail::OptionMissing(name),
        Ok(name) => Fail::OptionDuplicated(name),
        Err(_) => Fail::OutOfMemory,
    }
}
