//! The row that stands on the path for the dark shadow of a lower and an upper row of a column (W. Pugh, The Omega test, 1991).
ghost use Rattle.std.specs.Prelude.{◌≡◌, ℕ, List, [], ◌∷◌, pos, neg_ℤ, ◌+ℤ◌, ◌-ℤ◌, ◌*ℤ◌, ◌≤ℤ◌, length, true, false, IfOk, OnOk};
ghost use Rattle.ac_forms.specs.Affine.{Affine, coef, combined, shifted, CanCombine};
ghost use Rattle.ac_forms.specs.Fits.{Fits};
ghost use Rattle.ac_forms.specs.NormalRows.{normal_ge};
ghost use Rattle.ac_forms.specs.declared.conj.Conj.{Conj};
ghost use Rattle.ac_forms.specs.declared.normal.NormalRow.TheVariants.{Kept};
ghost use Rattle.ac_forms.specs.declared.row.Row.TheVariants.{Ge};
ghost use Rattle.ac_omega_steps.specs.Bounds.{is_high, low_bound, high_bound};
ghost use Rattle.ac_omega_steps.specs.Choices.{shadow_form};
ghost use Rattle.ac_omega_exact.specs.Exact.{real_form};
ghost use Rattle.ac_omega_exact.specs.Reasons.{IsImpliedBy, IsReason};
ghost use Rattle.ac_omega_exact.specs.ExactnessTests.{is_exact};
ghost use Rattle.ac_omega_exact.specs.declared.pairs.Reason.TheVariants as reason;
ghost use Rattle.ac_omega_certify.specs.Refutations.{AreWithin2To120};
ghost use Rattle.ac_omega_certify.specs.ShadowSteps.{dark_gap, IsTaken, IsMargin, IsBeside};
ghost use Rattle.ac_omega_certify.specs.ShadowRows.{shown_form};
ghost use Rattle.ac_omega_certify.specs.TreePathRows.{StandsAt, Stand, Reaches, HasOne, Leads, IsSameBase};
ghost use Rattle.ac_omega_certify.specs.SplinterCounts.{is_enough};

use crate::left::normal_of;
use crate::margins::{dark_gap, opposite_coef, raised_gap};
use crate::path::TreePath;
use ac_forms::{Form, FormStop, NormalRow, Row};
use ac_omega_exact::{Reason, reason_of};
use std::alloc::{AllocError, Global};

/// A lower row of a column, and the place where it stands. Less the margin it stands at another one.
#[derive(Drop)]
pub(crate) struct Lower<'a> {
    pub(crate) form: &'a Form,
    pub(crate) own: usize,
    pub(crate) margin: i128,
    pub(crate) place: usize,
}

/// A column, and all rows with their places.
#[derive(Drop)]
pub(crate) struct Bounded<'a> {
    pub(crate) column: usize,
    pub(crate) rows: &'a [Row],
    pub(crate) places: &'a [usize],
}

/// The form of a row `>= 0`, and the place where it stands.
#[derive(Drop)]
pub(crate) struct Shown {
    pub(crate) form: Form,
    pub(crate) place: usize,
}

/// `k` times a form plus `l` times another, where the numbers stay in `i128`.
fn sum_of(alloc: Global, k: i128, f: &Form, l: i128, g: &Form) -> Result<Form, AllocError>
    requires { CanCombine k f.now l g.now }
    ensures { IfOk result (λ sum. sum ≡ combined k f.now l g.now) }
{
    match f.combine(alloc, k, g, l) {
        Ok(sum) => Ok(sum),
        Err(FormStop::Wide) => unreachable!(),
        Err(FormStop::Memory(want)) => Err(want),
    }
}

/// The form less a number.
#[tactic(auto, using(ac_base::proofs::Bits::again_128))]
fn less(alloc: Global, form: &Form, number: i128) -> Result<Form, AllocError>
    requires { Fits (form.now.konst +ℤ neg_ℤ number) }
    ensures { IfOk result (λ f. f ≡ shifted form.now (neg_ℤ number)) }
{
    Form::from_parts(alloc, form.konst() - number, form.coefs())
}

/// The real shadow of a lower row `b z + e >= 0` and an upper row `-a z + f >= 0`: `a e + b f`.
#[tactic(auto, using(ac_base::proofs::Bits::again_128))]
fn real_of(alloc: Global, z: usize, low: &Form, high: &Form) -> Result<Form, AllocError>
    requires within_2_to_120 { AreWithin2To120 (Ge low.now ∷ Ge high.now ∷ []) [] }
    requires low { pos 1 ≤ℤ coef z low.now }
    requires high { is_high z high.now ≡ true }
    ensures { IfOk result (λ f. f ≡ real_form (low_bound z low.now) (high_bound z high.now)) }
{
    let a = opposite_coef(z, high);
    let b = low.coef(z);
    let sum = sum_of(alloc, a, low, b, high)?;
    Ok(sum)
}

/// Their dark shadow: `a e + b f - (a - 1) (b - 1)`.
#[tactic(auto, using(ac_base::proofs::Bits::again_128))]
fn shadow_of(alloc: Global, z: usize, low: &Form, high: &Form) -> Result<Form, AllocError>
    requires within_2_to_120 { AreWithin2To120 (Ge low.now ∷ Ge high.now ∷ []) [] }
    requires low { pos 1 ≤ℤ coef z low.now }
    requires high { is_high z high.now ≡ true }
    ensures { IfOk result (λ f. f ≡ shadow_form (low_bound z low.now) (high_bound z high.now)) }
{
    let a = opposite_coef(z, high);
    let b = low.coef(z);
    let real = real_of(alloc, z, low, high)?;
    let form = less(alloc, &real, dark_gap(a, b))?;
    Ok(form)
}

/// The normal form of their dark shadow, where a row is left of it.
fn left_shadow(alloc: Global, z: usize, low: &Form, high: &Form) -> Result<Form, AllocError>
    requires within_2_to_120 { AreWithin2To120 (Ge low.now ∷ Ge high.now ∷ []) [] }
    requires low { pos 1 ≤ℤ coef z low.now }
    requires high { is_high z high.now ≡ true }
    requires left { (g : Affine) × (normal_ge (shadow_form (low_bound z low.now) (high_bound z high.now)) ≡ Kept (Ge g)) }
    ensures { IfOk result (λ f. normal_ge (shadow_form (low_bound z low.now) (high_bound z high.now)) ≡ Kept (Ge f)) }
{
    let form = shadow_of(alloc, z, low, high)?;
    let row = Row::Ge(form);
    match normal_of(alloc, &row)? {
        NormalRow::Kept(Row::Ge(left)) => Ok(left),
        _ => unreachable!(),
    }
}

/// Why a pair that is exact beside rows is.
fn reason_for(
    alloc: Global,
    z: usize,
    rows: &[Row],
    low: &Form,
    high: &Form,
) -> Result<Reason, AllocError>
    requires within_2_to_120 { AreWithin2To120 (Ge low.now ∷ Ge high.now ∷ []) [] }
    requires low { pos 1 ≤ℤ coef z low.now }
    requires high { is_high z high.now ≡ true }
    requires exact { is_exact z rows.now (low_bound z low.now) (high_bound z high.now) ≡ true }
    ensures { IfOk result (λ r. IsReason z rows.now (low_bound z low.now) (high_bound z high.now) r) }
{
    match reason_of(alloc, z, rows, low, high) {
        Ok(Some(reason)) => Ok(reason),
        Ok(None) => unreachable!(),
        Err(FormStop::Wide) => unreachable!(),
        Err(FormStop::Memory(want)) => Err(want),
    }
}

/// The size of an upper row times the margin of a lower one, less what their dark shadow takes from their sum.
#[tactic(auto, using(ac_base::proofs::Bits::again_128))]
fn raised_gap_of(z: usize, low: &Lower, high: &Form) -> i128
    requires taken { IsTaken z low.now.margin low.now.form.now (Ge high.now ∷ []) }
    requires high { is_high z high.now ≡ true }
    ensures { result ≡ neg_ℤ (coef z high.now) *ℤ low.now.margin -ℤ dark_gap (neg_ℤ (coef z high.now)) (coef z low.now.form.now) }
{
    let a = opposite_coef(z, high);
    let b = low.form.coef(z);
    raised_gap(a, b, low.margin)
}

impl TreePath {
    /// The dark shadow of a lower row, which stands less enough, and the upper row at a place: its place.
    #[tactic(auto, using(ac_base::proofs::Bits::again_128))]
    fn show_raised(
        &mut self,
        alloc: Global,
        z: usize,
        low: &Lower,
        high: &Form,
        place: usize,
    ) -> Result<usize, AllocError>
        requires taken { IsTaken z low.now.margin low.now.form.now (Ge high.now ∷ []) }
        requires high { is_high z high.now ≡ true }
        requires enough { is_enough low.now.margin (low_bound z low.now.form.now) (high_bound z high.now) ≡ true }
        ensures base { OnOk result (IsSameBase self.old self.new) }
        ensures leads { IfOk result (λ i. (start path : Conj) (names : List ℕ) → Reaches self.old start path → HasOne self.old path → StandsAt names path low.now.place (Ge (shifted low.now.form.now (neg_ℤ low.now.margin))) → StandsAt names path place (Ge high.now) → Leads self.new start path names i (Ge (shadow_form (low_bound z low.now.form.now) (high_bound z high.now)))) }
    {
        let a = opposite_coef(z, high);
        let b = low.form.coef(z);
        let rest = raised_gap_of(z, low, high);
        let sum = self.add_bounds(alloc, low.place, a, place, b, rest)?;
        Ok(sum)
    }

    /// The normal form of the dark shadow of a lower and an upper row, which the row with number i implies.
    fn show_by_row(
        &mut self,
        alloc: Global,
        bounded: &Bounded,
        low: &Form,
        high: &Form,
        i: usize,
    ) -> Result<Shown, AllocError>
        requires long { length bounded.now.places.now ≡ length bounded.now.rows.now }
        requires within_2_to_120 { AreWithin2To120 (Ge low.now ∷ Ge high.now ∷ []) [] }
        requires around { AreWithin2To120 (Ge low.now ∷ bounded.now.rows.now) [] }
        requires low { pos 1 ≤ℤ coef bounded.now.column low.now }
        requires high { is_high bounded.now.column high.now ≡ true }
        requires implied { IsImpliedBy bounded.now.column bounded.now.rows.now (normal_ge (shadow_form (low_bound bounded.now.column low.now) (high_bound bounded.now.column high.now))) (reason.Row i) }
        ensures base { OnOk result (IsSameBase self.old self.new) }
        ensures form { IfOk result (λ s. normal_ge (shadow_form (low_bound bounded.now.column low.now) (high_bound bounded.now.column high.now)) ≡ Kept (Ge s.form)) }
        ensures leads { IfOk result (λ s. (start path : Conj) (names : List ℕ) → Reaches self.old start path → HasOne self.old path → Stand names path bounded.now.rows.now bounded.now.places.now → Leads self.new start path names s.place (Ge s.form)) }
    {
        let form = left_shadow(alloc, bounded.column, low, high)?;
        let Row::Ge(by) = &bounded.rows[i] else {
            unreachable!()
        };
        let place = self.show_implied_by_one(alloc, by, bounded.places[i], &form)?;
        Ok(Shown { form, place })
    }

    /// The normal form of their dark shadow, which the sum of the rows with numbers i and j implies.
    fn show_by_rows(
        &mut self,
        alloc: Global,
        bounded: &Bounded,
        low: &Form,
        high: &Form,
        i: usize,
        j: usize,
    ) -> Result<Shown, AllocError>
        requires long { length bounded.now.places.now ≡ length bounded.now.rows.now }
        requires within_2_to_120 { AreWithin2To120 (Ge low.now ∷ Ge high.now ∷ []) [] }
        requires around { AreWithin2To120 (Ge low.now ∷ bounded.now.rows.now) [] }
        requires low { pos 1 ≤ℤ coef bounded.now.column low.now }
        requires high { is_high bounded.now.column high.now ≡ true }
        requires implied { IsImpliedBy bounded.now.column bounded.now.rows.now (normal_ge (shadow_form (low_bound bounded.now.column low.now) (high_bound bounded.now.column high.now))) (reason.Rows i j) }
        ensures base { OnOk result (IsSameBase self.old self.new) }
        ensures form { IfOk result (λ s. normal_ge (shadow_form (low_bound bounded.now.column low.now) (high_bound bounded.now.column high.now)) ≡ Kept (Ge s.form)) }
        ensures leads { IfOk result (λ s. (start path : Conj) (names : List ℕ) → Reaches self.old start path → HasOne self.old path → Stand names path bounded.now.rows.now bounded.now.places.now → Leads self.new start path names s.place (Ge s.form)) }
    {
        let form = left_shadow(alloc, bounded.column, low, high)?;
        let (Row::Ge(first), Row::Ge(second)) = (&bounded.rows[i], &bounded.rows[j]) else {
            unreachable!()
        };
        let place = self.show_implied_by_two(
            alloc,
            first,
            bounded.places[i],
            second,
            bounded.places[j],
            &form,
        )?;
        Ok(Shown { form, place })
    }

    /// The row for the dark shadow of a lower row and the upper row at a place, whose pair is exact, where the lower one
    /// doesn't stand less enough.
    fn show_exact(
        &mut self,
        alloc: Global,
        bounded: &Bounded,
        low: &Lower,
        high: &Form,
        place: usize,
    ) -> Result<Shown, AllocError>
        requires long { length bounded.now.places.now ≡ length bounded.now.rows.now }
        requires margin { IsMargin bounded.now.column bounded.now.rows.now low.now.margin low.now.form.now (Ge high.now ∷ []) }
        requires high { is_high bounded.now.column high.now ≡ true }
        requires few { is_enough low.now.margin (low_bound bounded.now.column low.now.form.now) (high_bound bounded.now.column high.now) ≡ false }
        ensures base { OnOk result (IsSameBase self.old self.new) }
        ensures form { IfOk result (λ s. s.form ≡ shown_form low.now.margin (low_bound bounded.now.column low.now.form.now) (high_bound bounded.now.column high.now)) }
        ensures leads { IfOk result (λ s. (start path : Conj) (names : List ℕ) → Reaches self.old start path → HasOne self.old path → IsBeside low.now.form.now low.now.margin low.now.place low.now.own bounded.now.rows.now bounded.now.places.now names path → StandsAt names path place (Ge high.now) → Leads self.new start path names s.place (Ge s.form)) }
    {
        let z = bounded.column;
        match reason_for(alloc, z, bounded.rows, low.form, high)? {
            Reason::SameNormalForm => {
                let form = real_of(alloc, z, low.form, high)?;
                let place = self.show_real(alloc, z, low.form, low.own, high, place)?;
                Ok(Shown { form, place })
            }
            Reason::Row(i) => {
                let shown = self.show_by_row(alloc, bounded, low.form, high, i)?;
                Ok(shown)
            }
            Reason::Rows(i, j) => {
                let shown = self.show_by_rows(alloc, bounded, low.form, high, i, j)?;
                Ok(shown)
            }
        }
    }

    /// The row for the dark shadow of a lower row and the upper row at a place: the shadow itself where the lower one stands
    /// less enough; else, as their pair is exact, the real shadow where the same is left of both, or the normal form of the
    /// dark one, which one or two rows imply.
    pub(crate) fn show_pair(
        &mut self,
        alloc: Global,
        bounded: &Bounded,
        low: &Lower,
        high: &Form,
        place: usize,
    ) -> Result<Shown, AllocError>
        requires long { length bounded.now.places.now ≡ length bounded.now.rows.now }
        requires margin { IsMargin bounded.now.column bounded.now.rows.now low.now.margin low.now.form.now (Ge high.now ∷ []) }
        requires high { is_high bounded.now.column high.now ≡ true }
        ensures base { OnOk result (IsSameBase self.old self.new) }
        ensures form { IfOk result (λ s. s.form ≡ shown_form low.now.margin (low_bound bounded.now.column low.now.form.now) (high_bound bounded.now.column high.now)) }
        ensures leads { IfOk result (λ s. (start path : Conj) (names : List ℕ) → Reaches self.old start path → HasOne self.old path → IsBeside low.now.form.now low.now.margin low.now.place low.now.own bounded.now.rows.now bounded.now.places.now names path → StandsAt names path place (Ge high.now) → Leads self.new start path names s.place (Ge s.form)) }
    {
        let z = bounded.column;
        if raised_gap_of(z, low, high) < 0 {
            let shown = self.show_exact(alloc, bounded, low, high, place)?;
            return Ok(shown);
        }
        let form = shadow_of(alloc, z, low.form, high)?;
        let place = self.show_raised(alloc, z, low, high, place)?;
        Ok(Shown { form, place })
    }
}
