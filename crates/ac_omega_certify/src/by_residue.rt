//! The rows that a residue of a column leaves, on the path (W. Pugh, The Omega test, 1991).
ghost use Rattle.std.specs.Prelude.{◌≡◌, ◌≢◌, ◌≤◌, ◌<◌, ◌+◌, ◌^◌, ℕ, List, [], ◌∷◌, ◌++◌, pos, negsuc, neg_ℤ, ◌≤ℤ◌, ◌<ℤ◌, length, map, set, true, unsigned_abs, IfOk, OnOk};
ghost use Rattle.ac_forms.specs.Affine.{Affine, coef};
ghost use Rattle.ac_forms.specs.Negation.{with_column};
ghost use Rattle.ac_forms.specs.Rows.{AreRowsOver, form_of};
ghost use Rattle.ac_forms.specs.declared.conj.Conj.{Conj};
ghost use Rattle.ac_forms.specs.declared.row.Row.TheVariants.{Eq, Div};
ghost use Rattle.ac_omega_steps.specs.ChoiceFits.{spread_fits, spread_row_fits, all_spread_fit};
ghost use Rattle.ac_omega_steps.specs.Choices.{left_by, substitute_residue, substitute_residue_row};
ghost use Rattle.ac_omega_steps.specs.declared.choose.Choice.TheVariants.{Residue};
ghost use Rattle.ac_omega_certify.specs.Descents.{AreRowsUpTo2To122, AreNames, Carries, column_less};
ghost use Rattle.ac_omega_certify.specs.Refutations.{AreWithin2To120};
ghost use Rattle.ac_omega_certify.specs.Residues.{quotient_form, less_times, AreSmall, CanTake, AllCanTake, LeadsAll};
ghost use Rattle.ac_omega_certify.specs.TreePathRows.{IsSameBase, Leads, Reaches, Stand, StandsAt};

use crate::descent::Standing;
use crate::path::TreePath;
use crate::stage::Stage;
use ac_cert::types::Step;
use ac_forms::{Form, Row};
use std::alloc::{AllocError, Global};

/// The coefficients with another one for column z, where there is one.
fn with_coef(alloc: Global, form: &Form, z: usize, coef: i128) -> Result<Vec<i128>, AllocError>
    ensures { IfOk result (λ coefs. coefs.items ≡ set form.now.coefs z coef) }
{
    let mut coefs = Vec::from_slice(alloc, form.coefs())?;
    if z < coefs.len() {
        coefs[z] = coef;
    }
    Ok(coefs)
}

/// The form at `m z + r` in place of column z.
#[tactic(auto, using(ac_base::proofs::Bits::again_128))]
fn substitute_residue(
    alloc: Global,
    z: usize,
    m: i128,
    r: i128,
    form: &Form,
) -> Result<Form, AllocError>
    requires { spread_fits m r (coef z form.now) form.now.konst ≡ true }
    ensures { IfOk result (λ made. made ≡ substitute_residue z m r form.now) }
{
    let coef = form.coef(z);
    let coefs = with_coef(alloc, form, z, coef * m)?;
    let konst = form.konst() + coef * r;
    let made = Form::from_parts(alloc, konst, coefs.as_slice())?;
    Ok(made)
}

/// The row at `m z + r` in place of column z.
#[tactic(auto, using(ac_base::proofs::Bits::again_128))]
fn substitute_residue_row(
    alloc: Global,
    z: usize,
    m: i128,
    r: i128,
    row: &Row,
) -> Result<Row, AllocError>
    requires { spread_row_fits z m r row.now ≡ true }
    ensures { IfOk result (λ made. made ≡ substitute_residue_row z m r row.now) }
{
    let form = substitute_residue(alloc, z, m, r, row.form())?;
    Ok(match row {
        Row::Eq(_) => Row::Eq(form),
        Row::Div(modulus, _) => Row::Div(*modulus, form),
        Row::Ge(_) => Row::Ge(form),
    })
}

/// The rows at `m z + r` in place of column z.
#[tactic(auto, using(ac_base::proofs::Bits::again_128))]
fn substitute_residue_rows(
    alloc: Global,
    z: usize,
    m: i128,
    r: i128,
    rows: &[Row],
) -> Result<Vec<Row>, AllocError>
    requires { all_spread_fit z m r rows.now ≡ true }
    ensures { IfOk result (λ made. made.items ≡ map (substitute_residue_row z m r) rows.now) }
{
    let mut made = Vec::new(alloc);
    for row in rows {
        made.push(substitute_residue_row(alloc, z, m, r, row)?)?;
    }
    Ok(made)
}

/// The form of a column of a path, less a number.
fn class_form(alloc: Global, name: usize, r: i128) -> Result<Form, AllocError>
    requires { pos 0 ≤ℤ r }
    ensures { IfOk result (λ form. form ≡ with_column name (pos 1) (record { konst = neg_ℤ r; coefs = [] })) }
{
    let number = Form::constant(alloc, 0, -r)?;
    let form = number.with_column(alloc, name, 1)?;
    Ok(form)
}

impl TreePath {
    /// A further column and `z - r - m q = 0` for it, where m divides z less r at place `class`: the place of that row.
    fn show_class_quotient(
        &mut self,
        alloc: Global,
        names: &[usize],
        z: usize,
        m: i128,
        r: i128,
        class: usize,
    ) -> Result<usize, AllocError>
        requires column { z < length names.now }
        requires modulus { pos 1 ≤ℤ m }
        requires low { pos 0 ≤ℤ r }
        ensures columns { OnOk result (self.new.columns ≡ self.old.columns + 1) }
        ensures one { OnOk result (self.new.one ≡ self.old.one) }
        ensures leads { IfOk result (λ i. (start path : Conj) → Reaches self.old start path → AreNames self.old.columns names.now → StandsAt names.now path class (Div m (column_less (length names.now) z r)) → Leads self.new start path (names.now ++ self.old.columns ∷ []) i (Eq (quotient_form (length names.now) z m r))) }
    {
        let form = class_form(alloc, names[z], r)?;
        let stated = self.add_row(Step::DivMod(class, 1, m, form))?;
        let place = self.quotient(stated)?;
        Ok(place)
    }

    /// A row less its coefficient of column z times an equality: its place.
    fn take_times(
        &mut self,
        alloc: Global,
        z: usize,
        equality: usize,
        row: &Row,
        place: usize,
    ) -> Result<usize, AllocError>
        requires { unsigned_abs (coef z (form_of row.now)) ≤ 2 ^ 120 }
        ensures base { OnOk result (IsSameBase self.old self.new) }
        ensures leads { IfOk result (λ i. (start path : Conj) (names : List ℕ) (e : Affine) → Reaches self.old start path → StandsAt names path place row.now → StandsAt names path equality (Eq e) → CanTake z e row.now → Leads self.new start path names i (less_times z e row.now)) }
    {
        let coef = row.form().coef(z);
        if coef == 0 {
            return Ok(place);
        }
        match row {
            Row::Eq(_) | Row::Ge(_) => {
                let sum = self.add_two(alloc, place, 1, equality, -coef)?;
                Ok(sum)
            }
            Row::Div(_, _) => {
                let modulus = row.modulus();
                let sum = self.show_replaced_divisibility(place, 1, equality, -coef, modulus)?;
                Ok(sum)
            }
        }
    }

    /// The rows less their coefficients of column z times an equality: their places.
    fn take_each(
        &mut self,
        alloc: Global,
        z: usize,
        equality: usize,
        rows: &[Row],
        places: &[usize],
    ) -> Result<Vec<usize>, AllocError>
        requires long { length places.now ≡ length rows.now }
        requires small { AreSmall z rows.now }
        ensures base { OnOk result (IsSameBase self.old self.new) }
        ensures long { IfOk result (λ made. length made.items ≡ length rows.now) }
        ensures leads { IfOk result (λ made. (start path : Conj) (names : List ℕ) (e : Affine) → Reaches self.old start path → Stand names path rows.now places.now → StandsAt names path equality (Eq e) → AllCanTake z e rows.now → LeadsAll self.new start path names (map (less_times z e) rows.now) made.items) }
    {
        let mut made = Vec::new(alloc);
        for i in 0..rows.len() {
            let place = self.take_times(alloc, z, equality, &rows[i], places[i])?;
            made.push(place)?;
        }
        Ok(made)
    }

    /// The rows with `m` times a further column and r in place of column z: that m divides z less r stands at the place
    /// `class`. From then on the further column has the name z.
    pub(crate) fn show_residue(
        &mut self,
        alloc: Global,
        stage: &Stage,
        z: usize,
        m: i128,
        r: i128,
        class: usize,
    ) -> Result<Standing, AllocError>
        requires long { length stage.now.places.now ≡ length stage.now.rows.now }
        requires column { z < length stage.now.names.now }
        requires made { AreRowsOver (length stage.now.names.now) stage.now.rows.now }
        requires within_2_to_120 { AreWithin2To120 stage.now.rows.now (Residue z m r ∷ []) }
        requires modulus { pos 1 ≤ℤ m }
        requires low { pos 0 ≤ℤ r }
        requires high { r <ℤ m }
        requires fits { all_spread_fit z m r stage.now.rows.now ≡ true }
        ensures columns { OnOk result (self.new.columns ≡ self.old.columns + 1) }
        ensures long { IfOk result (λ s. length s.places.items ≡ length s.rows.items) }
        ensures rows { IfOk result (λ s. s.rows.items ≡ left_by (Residue z m r) stage.now.rows.now) }
        ensures up_to_2_to_122 { IfOk result (λ s. AreRowsUpTo2To122 s.rows.items) }
        ensures carries { IfOk result (λ s. (start : Conj) → Carries self.old start stage.now.names.now (Div m (column_less (length stage.now.names.now) z r) ∷ stage.now.rows.now) (class ∷ stage.now.places.now) → Carries self.new start (set stage.now.names.now z self.old.columns) s.rows.items s.places.items) }
    {
        let equality = self.show_class_quotient(alloc, stage.names, z, m, r, class)?;
        let places = self.take_each(alloc, z, equality, stage.rows, stage.places)?;
        let rows = substitute_residue_rows(alloc, z, m, r, stage.rows)?;
        Ok(Standing { rows, places })
    }
}
