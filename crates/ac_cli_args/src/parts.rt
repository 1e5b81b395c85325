ghost use Rattle.std.specs.Prelude.{◌≡◌, ◌++◌, ◌∷◌, ℕ, List, map, false, MatchOption, IfOk, ◌==◌};
ghost use Rattle.std.specs.List.{list_any, slice_split};
ghost use Rattle.ac_cli_args.specs.ValuationEntries as spec;
ghost use Rattle.ac_cli_args.specs.ValuationEntries.{IsCut, IsEntry, AreEntries, parts_of, plain};

use crate::numbers::integer;
use std::alloc::{AllocError, Global};

/// A name and the integer that is given to it.
#[derive(Clone, Copy, PartialEq, Eq)]
pub struct Given<'a> {
    pub name: &'a [u8],
    pub value: i64,
}

/// What stands before and after the first byte that is this one.
fn cut(text: &[u8], byte: u8) -> Option<(&[u8], &[u8])>
    ensures { MatchOption result (list_any (λ c. c == byte) text.now ≡ false) (λ parts. IsCut byte text.now parts.0.now parts.1.now) }
{
    for at in 0..text.len() {
        if text[at] == byte {
            return Some((&text[..at], &text[at + 1..]));
        }
    }
    None
}

/// The entry that a part of the list spells.
fn entry(part: &[u8]) -> Option<Given<'_>>
    ensures { MatchOption result ((g : spec.Given) → ¬ (IsEntry part.now g)) (λ g. IsEntry part.now (plain g)) }
{
    let (name, digits) = cut(part, b'=')?;
    let value = integer(digits)?;
    Some(Given { name, value })
}

/// The entries of a list that has bytes.
fn entries_of<'a>(alloc: Global, word: &'a [u8]) -> Result<Option<Vec<Given<'a>>>, AllocError>
    ensures { IfOk result (λ found. MatchOption found ((gs : List spec.Given) → ¬ (AreEntries (slice_split (λ c. c == 44) word.now) gs)) (λ given. AreEntries (slice_split (λ c. c == 44) word.now) (map plain given.items))) }
{
    let mut given = Vec::new(alloc);
    let mut rest = word;
    for _turn in 0..word.len() {
        let Some((part, behind)) = cut(rest, b',') else {
            break;
        };
        let Some(found) = entry(part) else {
            return Ok(None);
        };
        given.push(found)?;
        rest = behind;
    }
    let Some(found) = entry(rest) else {
        return Ok(None);
    };
    given.push(found)?;
    Ok(Some(given))
}

/// The entries of a list; none exactly where it is no list of entries.
pub fn entries<'a>(alloc: Global, word: &'a [u8]) -> Result<Option<Vec<Given<'a>>>, AllocError>
    ensures { IfOk result (λ found. MatchOption found ((gs : List spec.Given) → ¬ (AreEntries (parts_of word.now) gs)) (λ given. AreEntries (parts_of word.now) (map plain given.items))) }
{
    if word.is_empty() {
        return Ok(Some(Vec::new(alloc)));
    }
    entries_of(alloc, word)
}
