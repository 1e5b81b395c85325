//! The valuations at which both programs are run before an output is left unknown.
ghost use Rattle.std.specs.Prelude.{◌≡◌, ◌++◌, [], ◌∷◌, filter, map, replicate, take, false, true, IfOk, OnOk, MatchOption};
ghost use Rattle.ac_walk.specs.TriedValuations.{in_64_bits, refuted_of, samples_of, valuations_in, valuations_of};

use ac_base::Items;
use ac_match::Refuted;
use ac_report::Cause;
use ac_syntax::tree::Pair;
use ac_widen::Entry;
use std::alloc::{AllocError, Global};

/// What all parameters are, in turn.
const SIZES: [i64; 4] = [1, 2, 17, 33];

/// Numbers as numbers of 64 bits; none where one does not fit.
fn narrow(alloc: Global, point: &[i128]) -> Result<Option<Items<i64>>, AllocError>
    ensures { IfOk result (λ found. MatchOption found (in_64_bits point.now ≡ false) (λ at. (at ≡ point.now) × (in_64_bits point.now ≡ true))) }
{
    let mut values = Items::new(alloc);
    for value in point {
        let Ok(value) = i64::try_from(*value) else {
            return Ok(None);
        };
        values.push(value)?;
    }
    Ok(Some(values))
}

/// The parameters' values at a point; none where one does not fit 64 bits.
pub(crate) fn valuation(
    alloc: Global,
    params: usize,
    point: &[i128],
) -> Result<Option<Items<i64>>, AllocError>
    ensures { IfOk result (λ found. MatchOption found (in_64_bits (take params point.now) ≡ false) (λ at. (at ≡ take params point.now) × (in_64_bits (take params point.now) ≡ true))) }
{
    narrow(alloc, &point[..params.min(point.len())])
}

/// Adds the valuation of a point, where it fits 64 bits.
fn push_valuation(
    alloc: Global,
    params: usize,
    valuations: &mut Items<Items<i64>>,
    point: &[i128],
) -> Result<(), AllocError>
    ensures { OnOk result (valuations.new ≡ valuations.old ++ filter in_64_bits (take params point.now ∷ [])) }
{
    match valuation(alloc, params, point)? {
        Some(at) => valuations.push(at),
        None => Ok(()),
    }
}

/// Adds the valuations of entries that fit 64 bits.
fn push_valuations(
    alloc: Global,
    params: usize,
    valuations: &mut Items<Items<i64>>,
    entries: &[Entry],
) -> Result<(), AllocError>
    ensures { OnOk result (valuations.new ≡ valuations.old ++ valuations_in params entries.now) }
{
    for entry in entries {
        push_valuation(alloc, params, valuations, entry.point.as_slice())?;
    }
    Ok(())
}

/// The partial orders that a cause lists, each with its derivation.
fn refuted_of(cause: &Cause) -> &[Refuted]
    ensures { result.now ≡ refuted_of cause.now }
{
    match cause {
        Cause::Unmatched(refuted) => refuted.as_slice(),
        Cause::SpentOrders(refuted) => refuted.as_slice(),
        Cause::OverflowQuestion(_) | Cause::OverflowHull(_) => &[],
        Cause::SpentQuestion { .. } | Cause::SpentPieces { .. } | Cause::SpentPaths(_) => &[],
    }
}

/// The valuations of the derivations that a cause lists, in order.
pub(crate) fn valuations_of(
    alloc: Global,
    params: usize,
    cause: &Cause,
) -> Result<Items<Items<i64>>, AllocError>
    ensures { IfOk result (λ made. made ≡ valuations_of params cause.now) }
{
    let mut made = Items::new(alloc);
    for order in refuted_of(cause) {
        push_valuations(alloc, params, &mut made, order.why.entries.as_slice())?;
    }
    Ok(made)
}

/// Adds for each number the valuation at which it is all parameters' value.
fn push_uniform(
    alloc: Global,
    params: usize,
    valuations: &mut Items<Items<i64>>,
    sizes: &[i64],
) -> Result<(), AllocError>
    ensures { OnOk result (valuations.new ≡ valuations.old ++ map (λ size. replicate params size) sizes.now) }
{
    for size in sizes {
        let at = vec![in alloc; *size; params]?;
        valuations.push(Items::from(at))?;
    }
    Ok(())
}

/// The samples: that of a point of the context, and those at which all parameters have one value.
pub(crate) fn samples(
    alloc: Global,
    pair: &Pair,
    point: &[i128],
) -> Result<Items<Items<i64>>, AllocError>
    ensures { IfOk result (λ made. made ≡ samples_of pair.now point.now) }
{
    let params = pair.left.params.len();
    let mut made = Items::new(alloc);
    push_valuation(alloc, params, &mut made, point)?;
    push_uniform(alloc, params, &mut made, &SIZES)?;
    Ok(made)
}
