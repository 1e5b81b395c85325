//! The row of a pair whose dark shadow loses nothing, on the path (W. Pugh, The Omega test, 1991).
ghost use Rattle.std.specs.Prelude.{◌≡◌, ℕ, List, [], ◌∷◌, pos, ◌+ℤ◌, ◌-ℤ◌, ◌≤ℤ◌, true, IfOk, OnOk};
ghost use Rattle.ac_forms.specs.Affine.{added, coef, combined};
ghost use Rattle.ac_forms.specs.declared.conj.Conj.{Conj};
ghost use Rattle.ac_forms.specs.declared.row.Row.TheVariants.{Ge};
ghost use Rattle.ac_omega_steps.specs.Bounds.{is_high, low_bound, high_bound};
ghost use Rattle.ac_omega_exact.specs.Exact.{real_form};
ghost use Rattle.ac_omega_exact.specs.ExactnessTests.{is_at_most};
ghost use Rattle.ac_omega_certify.specs.Refutations.{AreWithin2To120};
ghost use Rattle.ac_omega_certify.specs.TreePathRows.{StandsAt, Reaches, HasOne, Leads, IsSameBase, Blends, CanRaise};

use crate::margins::opposite_coef;
use crate::path::TreePath;
use ac_forms::Form;
use std::alloc::{AllocError, Global};

impl TreePath {
    /// The real shadow of a lower row at place x and an upper one at place y: the place of their sum.
    #[tactic(auto, using(ac_base::proofs::Bits::again_128))]
    pub(crate) fn show_real(
        &mut self,
        alloc: Global,
        z: usize,
        low: &Form,
        x: usize,
        high: &Form,
        y: usize,
    ) -> Result<usize, AllocError>
        requires within_2_to_120 { AreWithin2To120 (Ge low.now ∷ Ge high.now ∷ []) [] }
        requires low { pos 1 ≤ℤ coef z low.now }
        requires high { is_high z high.now ≡ true }
        ensures base { OnOk result (IsSameBase self.old self.new) }
        ensures leads { IfOk result (λ i. (start path : Conj) (names : List ℕ) → Reaches self.old start path → StandsAt names path x (Ge low.now) → StandsAt names path y (Ge high.now) → Leads self.new start path names i (Ge (real_form (low_bound z low.now) (high_bound z high.now)))) }
    {
        let a = opposite_coef(z, high);
        let b = low.coef(z);
        let place = self.add_two(alloc, x, a, y, b)?;
        Ok(place)
    }

    /// A row `>= 0` that the row at place x implies by its constant: the place of that row plus the difference of both.
    #[tactic(auto, using(ac_base::proofs::Bits::again_128))]
    pub(crate) fn show_implied_by_one(
        &mut self,
        alloc: Global,
        by: &Form,
        x: usize,
        row: &Form,
    ) -> Result<usize, AllocError>
        requires implied { is_at_most by.now row.now ≡ true }
        requires fits { CanRaise by.now (row.now.konst -ℤ by.now.konst) }
        ensures base { OnOk result (IsSameBase self.old self.new) }
        ensures leads { IfOk result (λ i. (start path : Conj) (names : List ℕ) → Reaches self.old start path → HasOne self.old path → StandsAt names path x (Ge by.now) → Leads self.new start path names i (Ge row.now)) }
    {
        let more = row.konst() - by.konst();
        let place = self.raise(alloc, x, more)?;
        Ok(place)
    }

    /// A row `>= 0` that the sum of the rows at places x and y implies by its constant: the place of that sum plus the
    /// difference of both.
    #[tactic(auto, using(ac_base::proofs::Bits::again_128))]
    pub(crate) fn show_implied_by_two(
        &mut self,
        alloc: Global,
        first: &Form,
        x: usize,
        second: &Form,
        y: usize,
        row: &Form,
    ) -> Result<usize, AllocError>
        requires implied { is_at_most (added first.now second.now) row.now ≡ true }
        requires blends { Blends (pos 1) first.now (pos 1) second.now }
        requires fits { CanRaise (combined (pos 1) first.now (pos 1) second.now) (row.now.konst -ℤ (first.now.konst +ℤ second.now.konst)) }
        ensures base { OnOk result (IsSameBase self.old self.new) }
        ensures leads { IfOk result (λ i. (start path : Conj) (names : List ℕ) → Reaches self.old start path → HasOne self.old path → StandsAt names path x (Ge first.now) → StandsAt names path y (Ge second.now) → Leads self.new start path names i (Ge row.now)) }
    {
        let sum = first.konst() + second.konst();
        let more = row.konst() - sum;
        let place = self.add_bounds(alloc, x, 1, y, 1, more)?;
        Ok(place)
    }
}
