//! Words that are numbers, pairs of numbers and the like, one after the other.
ghost use Rattle.std.specs.Prelude.{◌≡◌, ◌<◌, ℕ, ℤ, List, map, length, IfOk};
ghost use Rattle.std.specs.List.{AllByRecursion};
ghost use Rattle.std.specs.Fmt.{signed_decimal};
ghost use Rattle.ac_forms.specs.Fits.{Fits};
ghost use Rattle.ac_prooftext_lines.specs.ItemReaders.{Reads};
ghost use Rattle.ac_prooftext_lines.specs.Spellable.{IsIndexed, AreIndices};
ghost use Rattle.ac_prooftext_lines.specs.Spelling.{pair_word, dotted_word};

use crate::numbers::{dotted, indexed, integer};
use crate::words::Words;
use ac_base::Items;
use std::alloc::{AllocError, Global};

/// Integers.
pub fn integers(alloc: Global, words: &Words<'_>) -> Result<Option<Items<i128>>, AllocError>
    ensures { IfOk result (λ found. Reads (AllByRecursion Fits) (map signed_decimal) words.now found) }
{
    let mut words = words.again();
    let mut numbers = Items::new(alloc);
    while let Some(word) = words.next() {
        let Some(number) = integer(word) else {
            return Ok(None);
        };
        numbers.push(number)?;
    }
    Ok(Some(numbers))
}

/// Numbers with an integer each, as `r:l`.
pub fn multiples(
    alloc: Global,
    words: &Words<'_>,
) -> Result<Option<Items<(usize, i128)>>, AllocError>
    ensures { IfOk result (λ found. Reads (AllByRecursion IsIndexed) (map pair_word) words.now found) }
{
    let mut words = words.again();
    let mut pairs = Items::new(alloc);
    while let Some(word) = words.next() {
        let Some(pair) = indexed(word) else {
            return Ok(None);
        };
        pairs.push(pair)?;
    }
    Ok(Some(pairs))
}

/// Pairs of numbers, as `k.q`.
pub fn shapes(alloc: Global, words: &Words<'_>) -> Result<Option<Items<(u64, u64)>>, AllocError>
    ensures { IfOk result (λ found. Reads (AllByRecursion AreIndices) (map dotted_word) words.now found) }
{
    let mut words = words.again();
    let mut pairs = Items::new(alloc);
    while let Some(word) = words.next() {
        let Some((first, second)) = dotted(word) else {
            return Ok(None);
        };
        pairs.push((first as u64, second as u64))?;
    }
    Ok(Some(pairs))
}
