//! Rows in which an equality replaces a column, on the path (W. Pugh, The Omega test, 1991).
ghost use Rattle.std.specs.Prelude.{ℕ, ℤ, pos, ◌*ℤ◌, ◌≤ℤ◌, List, OnOk, IfOk};
ghost use Rattle.ac_forms.specs.Affine.{Affine, combined, scaled};
ghost use Rattle.ac_forms.specs.Fits.{Fits};
ghost use Rattle.ac_forms.specs.declared.conj.Conj.{Conj};
ghost use Rattle.ac_forms.specs.declared.row.Row.TheVariants.{Eq, Div, Ge};
ghost use Rattle.ac_omega_certify.specs.TreePathRows.{StandsAt, Reaches, Leads, IsSameBase, HasOne, Blends, CanScale};

use crate::path::TreePath;
use std::alloc::{AllocError, Global};

impl TreePath {
    /// A positive number times the divisibility at place x, with the modulus m, plus k times the equality at place y: the
    /// modulus is that number times m.
    pub fn show_replaced_divisibility(
        &mut self,
        x: usize,
        size: i128,
        y: usize,
        k: i128,
        modulus: i128,
    ) -> Result<usize, AllocError>
        ensures base { OnOk result (IsSameBase self.old self.new) }
        ensures leads { IfOk result (λ i. (start path : Conj) (names : List ℕ) (f g : Affine) → Reaches self.old start path → StandsAt names path x (Div modulus f) → StandsAt names path y (Eq g) → pos 1 ≤ℤ size → pos 1 ≤ℤ modulus → Blends size f k g → Leads self.new start path names i (Div (size *ℤ modulus) (combined size f k g))) }
    {
        let Some(product) = size.checked_mul(modulus) else {
            return Err(AllocError);
        };
        let scaled = self.scale(x, size)?;
        let zero = self.divide_zero(y, product)?;
        let place = self.add_divisibilities(scaled, 1, zero, k)?;
        Ok(place)
    }

    /// k times the form of the equality at place x is not negative: the place of that row.
    pub fn bound_of_equality(
        &mut self,
        alloc: Global,
        x: usize,
        k: i128,
    ) -> Result<usize, AllocError>
        ensures base { OnOk result (IsSameBase self.old self.new) }
        ensures leads { IfOk result (λ i. (start path : Conj) (names : List ℕ) (f : Affine) → Reaches self.old start path → HasOne self.old path → StandsAt names path x (Eq f) → CanScale k f → Leads self.new start path names i (Ge (scaled k f))) }
    {
        let one = self.one;
        let place = self.add_two(alloc, x, k, one, 0)?;
        Ok(place)
    }
}
