//! Rows of the dark shadow on the path (W. Pugh, The Omega test, 1991).
ghost use Rattle.std.specs.Prelude.{ℕ, ℤ, pos, ◌≤ℤ◌, List, OnOk, IfOk};
ghost use Rattle.ac_forms.specs.Affine.{Affine, combined};
ghost use Rattle.ac_forms.specs.declared.conj.Conj.{Conj};
ghost use Rattle.ac_forms.specs.declared.row.Row.TheVariants.{Ge};
ghost use Rattle.ac_omega_certify.specs.TreePathRows.{StandsAt, Reaches, Leads, IsSameBase, HasOne, Blends, CanRaise, raised};

use crate::path::TreePath;
use std::alloc::{AllocError, Global};

impl TreePath {
    /// Adds a number that is not negative to the row `form >= 0` at place x, and gives the place of the sum.
    pub fn raise(&mut self, alloc: Global, x: usize, d: i128) -> Result<usize, AllocError>
        ensures base { OnOk result (IsSameBase self.old self.new) }
        ensures leads { IfOk result (λ i. (start path : Conj) (names : List ℕ) (f : Affine) → Reaches self.old start path → HasOne self.old path → StandsAt names path x (Ge f) → pos 0 ≤ℤ d → CanRaise f d → Leads self.new start path names i (Ge (raised f d))) }
    {
        let one = self.one;
        let place = self.add_two(alloc, x, 1, one, d)?;
        Ok(place)
    }

    /// a times a row `>= 0`, b times another, and a number d, none of them negative: the place of the sum.
    pub fn add_bounds(
        &mut self,
        alloc: Global,
        x: usize,
        a: i128,
        y: usize,
        b: i128,
        d: i128,
    ) -> Result<usize, AllocError>
        ensures base { OnOk result (IsSameBase self.old self.new) }
        ensures leads { IfOk result (λ i. (start path : Conj) (names : List ℕ) (f g : Affine) → Reaches self.old start path → HasOne self.old path → StandsAt names path x (Ge f) → StandsAt names path y (Ge g) → pos 0 ≤ℤ a → pos 0 ≤ℤ b → pos 0 ≤ℤ d → Blends a f b g → CanRaise (combined a f b g) d → Leads self.new start path names i (Ge (raised (combined a f b g) d))) }
    {
        let sum = self.add_two(alloc, x, a, y, b)?;
        let place = self.raise(alloc, sum, d)?;
        Ok(place)
    }
}
