//! What is left of an equality that stands on the path, in normal form: from its two bounds, each divided by the greatest
//! common divisor of its coefficients.
ghost use Rattle.std.specs.Prelude.{◌≡◌, ◌⊎◌, ℕ, ℤ, pos, negsuc, ◌≤ℤ◌, List, unsigned_abs, OnOk, IfOk};
ghost use Rattle.ac_base.specs.Gcd.{content, DividesEach};
ghost use Rattle.ac_base.specs.Multiple.{divides};
ghost use Rattle.ac_forms.specs.Affine.{Affine, scaled};
ghost use Rattle.ac_forms.specs.NormalRows.{divided, leads_negative, normal_eq};
ghost use Rattle.ac_forms.specs.declared.conj.Conj.{Conj};
ghost use Rattle.ac_forms.specs.declared.row.Row.TheVariants.{Eq, Ge};
ghost use Rattle.ac_omega_certify.specs.Descents.{IsFormUpTo2To122};
ghost use Rattle.ac_omega_certify.specs.RowRemainders.{Bounds};
ghost use Rattle.ac_omega_certify.specs.TreePathRows.{StandsAt, Reaches, Shows, IsSameBase, HasOne};

use crate::path::TreePath;
use crate::shown_rows::narrow;
use ac_forms::Form;
use std::alloc::{AllocError, Global};

/// Whether the first coefficient that is not 0 is negative.
fn has_negative_lead(coefs: &[i128]) -> bool
    ensures { result ≡ leads_negative coefs.now }
{
    for coef in coefs {
        if *coef != 0 {
            return *coef < 0;
        }
    }
    false
}

/// The greatest common divisor of the coefficients of a form, 0 where all are 0.
fn divisor_of(form: &Form) -> i128
    requires { (content form.now.coefs ≡ 0) ⊎ IsFormUpTo2To122 form.now }
    ensures { result ≡ pos (content form.now.coefs) }
{
    let Some(size) = narrow(ac_base::content(form.coefs())) else {
        unreachable!();
    };
    size
}

/// Whether a number divides the constant of a form.
fn divides_constant(size: i128, form: &Form) -> bool
    ensures { result ≡ divides (unsigned_abs size) form.now.konst }
{
    ac_base::is_multiple(form.konst(), size)
}

impl TreePath {
    /// What is left of the row `form = 0` at place x: the place where its normal form stands, or an absurd row.
    pub(crate) fn show_normal_equality(
        &mut self,
        alloc: Global,
        x: usize,
        form: &Form,
    ) -> Result<usize, AllocError>
        requires { (content form.now.coefs ≡ 0) ⊎ IsFormUpTo2To122 form.now }
        ensures base { OnOk result (IsSameBase self.old self.new) }
        ensures shows { IfOk result (λ i. (start path : Conj) (names : List ℕ) → Reaches self.old start path → HasOne self.old path → StandsAt names path x (Eq form.now) → Shows self.new start path names i (normal_eq form.now)) }
    {
        let size = divisor_of(form);
        if size == 0 {
            return Ok(x);
        }
        if size == 1 {
            let place = self.show_unit_equality(alloc, x, form)?;
            return Ok(place);
        }
        let (low, high) = self.show_bounds(alloc, x, size)?;
        let place = self.join_bounds(alloc, low, high, size, form)?;
        Ok(place)
    }

    /// What is left of the row `form = 0` at place x, whose coefficients have no common divisor: the row itself, or with the opposite
    /// sign.
    fn show_unit_equality(
        &mut self,
        alloc: Global,
        x: usize,
        form: &Form,
    ) -> Result<usize, AllocError>
        requires unit { content form.now.coefs ≡ 1 }
        requires up_to_2_to_122 { IsFormUpTo2To122 form.now }
        ensures base { OnOk result (IsSameBase self.old self.new) }
        ensures shows { IfOk result (λ i. (start path : Conj) (names : List ℕ) → Reaches self.old start path → StandsAt names path x (Eq form.now) → Shows self.new start path names i (normal_eq form.now)) }
    {
        if !has_negative_lead(form.coefs()) {
            return Ok(x);
        }
        let place = self.add_two(alloc, x, -1, x, 0)?;
        Ok(place)
    }

    /// Where the form of the equality at place x, and its opposite, each divided by a positive number that divides all
    /// coefficients, are shown not to be negative.
    fn show_bounds(
        &mut self,
        alloc: Global,
        x: usize,
        size: i128,
    ) -> Result<(usize, usize), AllocError>
        ensures base { OnOk result (IsSameBase self.old self.new) }
        ensures bounds { IfOk result (λ places. (start path : Conj) (names : List ℕ) (f : Affine) → Reaches self.old start path → HasOne self.old path → StandsAt names path x (Eq f) → pos 1 ≤ℤ size → DividesEach (unsigned_abs size) f.coefs → IsFormUpTo2To122 f → Bounds self.new start path names places.0 places.1 size f) }
    {
        let low = self.bound_of_equality(alloc, x, 1)?;
        let high = self.bound_of_equality(alloc, x, -1)?;
        let below = self.cut(low, size)?;
        let above = self.cut(high, size)?;
        Ok((below, above))
    }

    /// What is left of the row `form = 0`, where its bounds, divided by the greatest common divisor of the coefficients,
    /// stand at two places: the equality, or their absurd sum.
    fn join_bounds(
        &mut self,
        alloc: Global,
        low: usize,
        high: usize,
        size: i128,
        form: &Form,
    ) -> Result<usize, AllocError>
        requires divisor { size ≡ pos (content form.now.coefs) }
        requires some { pos 1 ≤ℤ size }
        requires up_to_2_to_122 { IsFormUpTo2To122 form.now }
        ensures base { OnOk result (IsSameBase self.old self.new) }
        ensures shows { IfOk result (λ i. (start path : Conj) (names : List ℕ) → Reaches self.old start path → StandsAt names path low (Ge (divided size (scaled (pos 1) form.now))) → StandsAt names path high (Ge (divided size (scaled (negsuc 0) form.now))) → Shows self.new start path names i (normal_eq form.now)) }
    {
        if !divides_constant(size, form) {
            let sum = self.add_two(alloc, low, 1, high, 1)?;
            return Ok(sum);
        }
        if has_negative_lead(form.coefs()) {
            let turned = self.join(high, low)?;
            return Ok(turned);
        }
        let place = self.join(low, high)?;
        Ok(place)
    }
}
