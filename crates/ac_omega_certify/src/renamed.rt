//! A form on the path of a tree, where its columns have names.
ghost use Rattle.std.specs.Prelude.{◌≡◌, ◌≤◌, ℕ, length, slice_set, unsigned_abs, IfOk};
ghost use Rattle.ac_forms.specs.Affine.{coef};
ghost use Rattle.ac_omega_certify.specs.Descents.{AreNames};
ghost use Rattle.ac_omega_certify.specs.TreePathRows.{Renames};

use ac_forms::Form;
use std::alloc::{AllocError, Global};

/// Writes a number at a place, where the list has that place.
fn put(numbers: &mut Vec<i128>, place: usize, number: i128)
    ensures { numbers.new.items ≡ slice_set numbers.old.items place number }
{
    if place < numbers.len() {
        numbers[place] = number;
    }
}

/// The form over the columns of a path: the coefficient of each column stands at its name.
#[tactic(auto, using(crate::proofs::Names::naming_steps))]
pub(crate) fn renamed(
    alloc: Global,
    names: &[usize],
    columns: usize,
    form: &Form,
) -> Result<Form, AllocError>
    ensures renames { IfOk result (λ f. AreNames columns names.now → Renames names.now form.now f) }
    ensures konst { IfOk result (λ f. f.konst ≡ form.now.konst) }
    ensures sizes { IfOk result (λ f. (n : ℕ) → ((j : ℕ) → unsigned_abs (coef j form.now) ≤ n) → (j : ℕ) → unsigned_abs (coef j f) ≤ n) }
    ensures within { IfOk result (λ f. length f.coefs ≤ columns) }
{
    let mut coefs = vec![in alloc; 0i128; columns]?;
    for k in (0..names.len()).rev() {
        put(&mut coefs, names[k], form.coef(k));
    }
    let made = Form::from_parts(alloc, form.konst(), coefs.as_slice())?;
    Ok(made)
}
