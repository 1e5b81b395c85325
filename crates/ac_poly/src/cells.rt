//! The elements of an array as rows, and differences of forms.
ghost use Rattle.std.specs.Prelude.{◌≡◌, ◌+ℤ◌, pos, negsuc};
ghost use Rattle.ac_forms.specs.Affine.{FormFits, combined, shifted};
ghost use Rattle.ac_forms.specs.Fits.{Fits, AllFit};
ghost use Rattle.ac_forms.specs.FormStops.{MadeIff, MadeWhere};
ghost use Rattle.ac_base.specs.Dot.{mix};
ghost use Rattle.ac_poly.specs.CoordinateColumns.{element_rows, CanBound};

use ac_base::Items;
use ac_forms::{Form, FormStop, Row};
use std::alloc::{AllocError, Global};

/// The elements of an array with these extents, whose coordinates stand from column `first` on: for each dimension the
/// coordinate is at least 0, and the extent less the coordinate less 1 is at least 0. `Wide` exactly where a number of an
/// extent less its coordinate, or of that less 1, leaves `i128`.
#[tactic(auto, using(crate::proofs::Bounding::bounding))]
pub fn element_rows(alloc: Global, first: usize, extents: &[Form]) -> Result<Items<Row>, FormStop>
    ensures { MadeWhere result (CanBound first extents.now) (λ rows. rows ≡ element_rows first extents.now) }
{
    let mut rows = Items::new(alloc);
    let mut column = first;
    for extent in extents {
        let behind = column.checked_add(1).ok_or(AllocError)?;
        let coordinate = Form::column(alloc, behind, column)?;
        let room = room(alloc, extent, &coordinate)?;
        rows.push(Row::Ge(coordinate))?;
        rows.push(Row::Ge(room))?;
        column = behind;
    }
    Ok(rows)
}

/// An extent less a coordinate, less 1.
fn room(alloc: Global, extent: &Form, coordinate: &Form) -> Result<Form, FormStop>
    ensures { MadeIff result (FormFits (combined (pos 1) extent.now (negsuc 0) coordinate.now) × Fits ((combined (pos 1) extent.now (negsuc 0) coordinate.now).konst +ℤ negsuc 0)) (shifted (combined (pos 1) extent.now (negsuc 0) coordinate.now) (negsuc 0)) }
{
    less(alloc, extent, coordinate)?.shift(alloc, -1)
}

/// One form less another; `Wide` exactly where a number of it leaves `i128`.
#[tactic(auto, using(crate::proofs::Subtracting::constant_steps))]
pub(crate) fn less(alloc: Global, a: &Form, b: &Form) -> Result<Form, FormStop>
    ensures { MadeIff result (FormFits (combined (pos 1) a.now (negsuc 0) b.now)) (combined (pos 1) a.now (negsuc 0) b.now) }
{
    let coefs = differences(alloc, a, b)?;
    let Some(konst) = a.konst().checked_sub(b.konst()) else {
        return Err(FormStop::Wide);
    };
    Ok(Form::from_parts(alloc, konst, coefs.as_slice())?)
}

/// The differences of the coefficients, column by column.
#[tactic(auto, using(crate::proofs::Subtracting::less_steps))]
fn differences(alloc: Global, a: &Form, b: &Form) -> Result<Vec<i128>, FormStop>
    ensures { MadeWhere result (AllFit (mix (pos 1) a.now.coefs (negsuc 0) b.now.coefs)) (λ made. made.items ≡ mix (pos 1) a.now.coefs (negsuc 0) b.now.coefs) }
{
    let columns = a.columns().max(b.columns());
    let mut coefs = Vec::new(alloc);
    for column in 0..columns {
        let Some(coef) = a.coef(column).checked_sub(b.coef(column)) else {
            return Err(FormStop::Wide);
        };
        coefs.push(coef)?;
    }
    Ok(coefs)
}
