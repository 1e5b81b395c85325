ghost use Rattle.std.specs.Prelude.{◌≡◌, ◌++◌, ◌&&◌, cond, Some, None, IfOk, IfSome, slice_get, pos, ◌≤ℤ◌, ◌-ℤ◌};
ghost use Rattle.ac_forms.specs.Fits.{fits};
ghost use Rattle.ac_forms.specs.Rows.{IsWellMade, AreRowsOver};
ghost use Rattle.ac_omega_steps.specs.Bounds.{rows_without, lows, highs};
ghost use Rattle.ac_omega_steps.specs.Choices.{shadow_form, shadows_with, shadows, splinter};
ghost use Rattle.ac_omega_steps.specs.ChoiceFits.{sizes_fit, shadow_fits, shadows_fit_with, shadows_fit, splinter_fits, ArePositive};
ghost use Rattle.ac_omega_steps.specs.LeftRows.{normal_of, AreBoundsOver};

use crate::column::{Bound, highs, lows, rows_without};
use crate::combine::combination;
use crate::normal::{ROOM, within};
use crate::replace::product;
use ac_base::Items;
use ac_forms::{Conj, Form, Row};
use std::alloc::{AllocError, Global};

/// A difference, if it is a number of `i128`.
#[tactic(auto, using(ac_base::proofs::Bits::again_128, crate::proofs::Fitting::fits_true, crate::proofs::Fitting::fits_false))]
fn difference(left: &i128, right: &i128) -> Option<i128>
    ensures { result ≡ cond (fits (left.now -ℤ right.now)) (Some (left.now -ℤ right.now)) None }
{
    left.checked_sub(*right)
}

/// A positive number less 1.
#[tactic(auto, using(ac_base::proofs::Bits::again_128))]
fn less_one(number: &i128) -> i128
    requires { pos 1 ≤ℤ number.now }
    ensures { result ≡ number.now -ℤ pos 1 }
{
    *number - 1
}

/// The dark shadow of a lower row `b z + e >= 0` and an upper row `-a z + f >= 0`: `a e + b f - (a - 1) (b - 1)`.
#[tactic(auto, unfolding(crate::specs::Combination::combination), using(ac_base::proofs::Bits::again_128))]
fn shadow_form(alloc: Global, low: &Bound, high: &Bound) -> Result<Option<Form>, AllocError>
    requires low { pos 1 ≤ℤ low.now.size }
    requires high { pos 1 ≤ℤ high.now.size }
    ensures { IfOk result (λ made. made ≡ cond (shadow_fits low.now high.now) (Some (shadow_form low.now high.now)) None) }
{
    let Some(sum) = combination(alloc, high.size, &low.rest, low.size, &high.rest)? else {
        return Ok(None);
    };
    let Some(product) = product(&less_one(&high.size), &less_one(&low.size)) else {
        return Ok(None);
    };
    let Some(konst) = difference(&sum.konst(), &product) else {
        return Ok(None);
    };
    Ok(Some(sum.with_konst(konst)))
}

/// The dark shadows of a lower row and each upper row, in order, behind other rows.
#[tactic(auto, using(ac_base::proofs::Bits::again_128, crate::proofs::Parts::positive_at))]
fn shadows_with(
    alloc: Global,
    low: &Bound,
    highs: &[Bound],
    made: Items<Row>,
) -> Result<Option<Items<Row>>, AllocError>
    requires low { pos 1 ≤ℤ low.now.size }
    requires highs { ArePositive highs.now }
    ensures { IfOk result (λ after. after ≡ cond (shadows_fit_with low.now highs.now) (Some (made ++ shadows_with low.now highs.now)) None) }
{
    let mut made = made;
    for high in highs {
        let Some(form) = shadow_form(alloc, low, high)? else {
            return Ok(None);
        };
        made.push(Row::Ge(form))?;
    }
    Ok(Some(made))
}

/// Rows that stand for those of all lower and upper rows, in order, behind other rows. Where many come together, what is formed
/// so far is brought into normal form, so that not all of them are held at once.
#[tactic(auto, using(ac_base::proofs::Bits::again_128, crate::proofs::Parts::positive_at))]
fn shadows(
    alloc: Global,
    columns: usize,
    lows: &[Bound],
    highs: &[Bound],
    made: Items<Row>,
) -> Result<Option<Items<Row>>, AllocError>
    requires lows { ArePositive lows.now × AreBoundsOver columns lows.now }
    requires highs { ArePositive highs.now × AreBoundsOver columns highs.now }
    requires over { AreRowsOver columns made }
    ensures normal { IfOk result (λ after. normal_of after ≡ normal_of (cond (shadows_fit lows.now highs.now) (Some (made ++ shadows lows.now highs.now)) None)) }
    ensures over { IfOk result (λ after. IfSome after (λ rows. AreRowsOver columns rows)) }
{
    let mut made = made;
    let mut room = ROOM;
    for low in lows {
        let Some(more) = shadows_with(alloc, low, highs, made)? else {
            return Ok(None);
        };
        let Some(left) = within(alloc, columns, more, &mut room)? else {
            return Ok(None);
        };
        made = left;
    }
    Ok(Some(made))
}

/// Rows that stand for those without the column and the dark shadows of its lower and upper rows.
#[tactic(auto, using(crate::proofs::Parts::lows_positive, crate::proofs::Parts::highs_positive))]
pub(crate) fn shadowed(
    alloc: Global,
    z: usize,
    conj: &Conj,
) -> Result<Option<Items<Row>>, AllocError>
    requires { IsWellMade conj.now }
    ensures normal { IfOk result (λ made. normal_of made ≡ normal_of (cond (sizes_fit (highs z conj.now.rows) && shadows_fit (lows z conj.now.rows) (highs z conj.now.rows)) (Some (rows_without z conj.now.rows ++ shadows (lows z conj.now.rows) (highs z conj.now.rows))) None)) }
    ensures over { IfOk result (λ made. IfSome made (λ rows. AreRowsOver conj.now.columns rows)) }
{
    let rows = conj.rows.as_slice();
    let Some(highs) = highs(alloc, z, rows)? else {
        return Ok(None);
    };
    let lows = lows(alloc, z, rows)?;
    let made = rows_without(alloc, z, rows)?;
    shadows(alloc, conj.columns, lows.as_slice(), highs.as_slice(), made)
}

/// The rows, and that the lower row at a place is worth k; where no `Ge` row is there, the rows alone.
#[tactic(auto, using(ac_base::proofs::Bits::again_128))]
pub(crate) fn splinter(
    alloc: Global,
    at: usize,
    k: &i128,
    conj: &Conj,
) -> Result<Option<Items<Row>>, AllocError>
    ensures { IfOk result (λ made. made ≡ cond (splinter_fits k.now (slice_get conj.now.rows at)) (Some (splinter k.now (slice_get conj.now.rows at) conj.now.rows)) None) }
{
    let mut rows = conj.copy(alloc)?.rows;
    let Some(Row::Ge(form)) = conj.rows.get(at) else {
        return Ok(Some(rows));
    };
    let Some(konst) = difference(&form.konst(), k) else {
        return Ok(None);
    };
    rows.push(Row::Eq(Form::from_parts(alloc, konst, form.coefs())?))?;
    Ok(Some(rows))
}
