//! Rows that stand on the path, and the steps to what is left of them in normal form.
ghost use Rattle.std.specs.Prelude.{◌≡◌, ◌≤◌, ◌^◌, ℕ, pos, negsuc, List, OnOk, IfOk, IfSome, IfNone, IsErr};
ghost use Rattle.ac_base.specs.Gcd.{content};
ghost use Rattle.ac_forms.specs.Affine.{Affine};
ghost use Rattle.ac_forms.specs.Fits.{Fits};
ghost use Rattle.ac_forms.specs.NormalRows.{normal_ge};
ghost use Rattle.ac_forms.specs.declared.conj.Conj.{Conj};
ghost use Rattle.ac_forms.specs.declared.row.Row.TheVariants.{Eq, Ge};
ghost use Rattle.ac_forms.specs.declared.normal.NormalRow.TheVariants.{Absurd};
ghost use Rattle.ac_omega_certify.specs.TreePathRows.{StandsAt, Reaches, Shows, IsSameBase, Clash, Blends};

use crate::path::TreePath;
use ac_forms::Form;
use std::alloc::{AllocError, Global};

/// The number in `i128`, where it fits.
pub(crate) fn narrow(number: u128) -> Option<i128>
    ensures value { IfSome result (λ n. (n ≡ pos number) × Fits n) }
    ensures wide { IfNone result (2 ^ 127 ≤ number) }
{
    if number > i128::MAX as u128 {
        None
    } else {
        Some(number as i128)
    }
}

impl TreePath {
    /// What is left of the row `form >= 0` at place x: the place where its normal form stands, or an absurd row. Where the
    /// content of the coefficients is 2^127, which is no number of `i128` (each is 0 or -2^127 then, so no row in normal form is
    /// like that), the answer is want of memory.
    pub fn show_inequality(&mut self, x: usize, form: &Form) -> Result<usize, AllocError>
        ensures wide { 2 ^ 127 ≤ content form.now.coefs → IsErr result }
        ensures base { OnOk result (IsSameBase self.old self.new) }
        ensures shows { IfOk result (λ i. (start path : Conj) (names : List ℕ) → Reaches self.old start path → StandsAt names path x (Ge form.now) → Shows self.new start path names i (normal_ge form.now)) }
    {
        let divisor = ac_base::content(form.coefs());
        if divisor <= 1 {
            return Ok(x);
        }
        let Some(size) = narrow(divisor) else {
            return Err(AllocError);
        };
        let place = self.cut(x, size)?;
        Ok(place)
    }

    /// Two equalities with the same coefficients and different constants, at places x and y: the place of an absurd row.
    pub fn show_clash(&mut self, alloc: Global, x: usize, y: usize) -> Result<usize, AllocError>
        ensures base { OnOk result (IsSameBase self.old self.new) }
        ensures shows { IfOk result (λ i. (start path : Conj) (names : List ℕ) (f g : Affine) → Reaches self.old start path → StandsAt names path x (Eq f) → StandsAt names path y (Eq g) → Clash f g → Blends (pos 1) f (negsuc 0) g → Shows self.new start path names i Absurd) }
    {
        let place = self.add_two(alloc, x, 1, y, -1)?;
        Ok(place)
    }
}
