ghost use Rattle.std.specs.Prelude.{◌≡◌, IfOk};
ghost use Rattle.ac_omega_steps.specs.Combination.{combination};

use ac_forms::{Form, FormStop};
use std::alloc::{AllocError, Global};

/// `left` times a form plus `right` times another, where the numbers stay in `i128`.
#[tactic(auto, using(crate::proofs::Fitting::combination_some, crate::proofs::Fitting::combination_none, ac_base::proofs::Bits::again_128))]
pub fn combination(
    alloc: Global,
    left: i128,
    form: &Form,
    right: i128,
    other: &Form,
) -> Result<Option<Form>, AllocError>
    ensures { IfOk result (λ made. made ≡ combination left form.now right other.now) }
{
    match form.combine(alloc, left, other, right) {
        Ok(form) => Ok(Some(form)),
        Err(FormStop::Wide) => Ok(None),
        Err(FormStop::Memory(want)) => Err(want),
    }
}
