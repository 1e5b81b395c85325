//! The coordinates of an instance among further columns.
ghost use Rattle.std.specs.Prelude.{◌≡◌, ◌+◌, IfOk};
ghost use Rattle.ac_forms.specs.Affine.{column_form};
ghost use Rattle.ac_poly.specs.CoordinateColumns.{coordinate_forms};

use ac_base::Items;
use ac_forms::Form;
use std::alloc::{AllocError, Global};

/// The forms of so many coordinates, from column `first` on.
#[tactic(auto, using(crate::proofs::Coordinating::coordinating))]
pub fn coordinate_forms(
    alloc: Global,
    first: usize,
    count: usize,
) -> Result<Items<Form>, AllocError>
    ensures { IfOk result (λ made. made ≡ coordinate_forms first count) }
{
    let mut made = Items::new(alloc);
    for k in 0..count {
        made.push(coordinate_form(alloc, first, k)?)?;
    }
    Ok(made)
}

/// The form of the coordinate with a number, from column `first` on.
fn coordinate_form(alloc: Global, first: usize, k: usize) -> Result<Form, AllocError>
    ensures { IfOk result (λ form. form ≡ column_form (first + k + 1) (first + k)) }
{
    let column = first.checked_add(k).ok_or(AllocError)?;
    let behind = column.checked_add(1).ok_or(AllocError)?;
    Form::column(alloc, behind, column)
}
