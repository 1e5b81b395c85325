ghost use Rattle.std.specs.Prelude.{◌≡◌, ◌∷◌, [], ℤ, List, map, nat_eq, MatchOption, IfOk};
ghost use Rattle.std.specs.List.{list_any, list_all};
ghost use Rattle.std.specs.Cmp.Lexicographic.{pointwise};
ghost use Rattle.ac_cli_args.specs.ValuationEntries.{plain};
ghost use Rattle.ac_cli_args.specs.Valuations.{given_to, Gives, IsValuationWord};

use crate::parts::{Given, entries};
use ac_syntax::name::Name;
use std::alloc::{AllocError, Global};

/// The one integer that is given to a name.
fn only_value(given: &[Given<'_>], name: &[u8]) -> Option<i64>
    ensures { MatchOption result ((v : ℤ) → ¬ (given_to name.now (map plain given.now) ≡ v ∷ [])) (λ v. given_to name.now (map plain given.now) ≡ v ∷ []) }
{
    let mut found = None;
    for entry in given {
        if entry.name == name {
            if found.is_some() {
                return None;
            }
            found = Some(entry.value);
        }
    }
    found
}

/// Whether a name is that of a parameter.
fn is_parameter(params: &[Name], name: &[u8]) -> bool
    ensures { result ≡ list_any (pointwise nat_eq name.now) params.now }
{
    for param in params {
        if name == param.as_bytes() {
            return true;
        }
    }
    false
}

/// Whether nothing is given but to parameters.
fn only_parameters(params: &[Name], given: &[Given<'_>]) -> bool
    ensures { result ≡ list_all (λ g. list_any (pointwise nat_eq g.name) params.now) (map plain given.now) }
{
    for entry in given {
        if !is_parameter(params, entry.name) {
            return false;
        }
    }
    true
}

/// The integers that are given to the parameters, in order, where each is given one.
fn values(
    alloc: Global,
    params: &[Name],
    given: &[Given<'_>],
) -> Result<Option<Vec<i64>>, AllocError>
    ensures { IfOk result (λ found. MatchOption found ((vs : List ℤ) → ¬ (map (λ name. given_to name (map plain given.now)) params.now ≡ map (λ v. v ∷ []) vs)) (λ values. map (λ name. given_to name (map plain given.now)) params.now ≡ map (λ v. v ∷ []) values.items)) }
{
    let mut values = Vec::new(alloc);
    for param in params {
        let Some(value) = only_value(given, param.as_bytes()) else {
            return Ok(None);
        };
        values.push(value)?;
    }
    Ok(Some(values))
}

/// The values of the parameters, in their order, where entries give each one value and nothing else.
fn given_values(
    alloc: Global,
    params: &[Name],
    given: &[Given<'_>],
) -> Result<Option<Vec<i64>>, AllocError>
    ensures { IfOk result (λ found. MatchOption found ((vs : List ℤ) → ¬ (Gives params.now (map plain given.now) vs)) (λ values. Gives params.now (map plain given.now) values.items)) }
{
    if only_parameters(params, given) {
        values(alloc, params, given)
    } else {
        Ok(None)
    }
}

/// The values that a word of the form `N=5,M=3` gives the parameters, in the order of the parameters.
///
/// Each parameter is given exactly once, as an integer of 64 bits in digits without leading zeros, with or without a
/// minus; the empty word gives nothing. None exactly where the word has another form.
pub fn valuation(
    alloc: Global,
    params: &[Name],
    word: &[u8],
) -> Result<Option<Vec<i64>>, AllocError>
    ensures { IfOk result (λ found. MatchOption found ((vs : List ℤ) → ¬ (IsValuationWord params.now word.now vs)) (λ values. IsValuationWord params.now word.now values.items)) }
{
    match entries(alloc, word)? {
        Some(given) => given_values(alloc, params, &given),
        None => Ok(None),
    }
}
