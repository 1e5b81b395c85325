//! The rows that choices of one outcome leave, on the path: by an equality, and without a column; and those of a splinter
//! (W. Pugh, The Omega test, 1991).
ghost use Rattle.std.specs.Prelude.{◌≡◌, ◌<◌, ℕ, List, [], ◌∷◌, ◌++◌, pos, ◌≤ℤ◌, ◌-ℤ◌, length, take, drop, ◌+◌, true, slice_get, Some, IfOk, OnOk};
ghost use Rattle.ac_forms.specs.Affine.{Affine, coef};
ghost use Rattle.ac_forms.specs.Fits.{Fits};
ghost use Rattle.ac_forms.specs.Rows.{AreRowsOver, HaveModuli};
ghost use Rattle.ac_forms.specs.declared.conj.Conj.{Conj};
ghost use Rattle.ac_forms.specs.declared.row.Row.TheVariants.{Eq, Div, Ge};
ghost use Rattle.ac_omega_steps.specs.Bounds.{rows_without, without, is_low};
ghost use Rattle.ac_omega_steps.specs.ChoiceFits.{equality_fits};
ghost use Rattle.ac_omega_steps.specs.Choices.{size_of, by_equality, is_equality_of, left_by};
ghost use Rattle.ac_omega_steps.specs.declared.choose.Choice.TheVariants.{Drop, Equal, Splinter};
ghost use Rattle.ac_omega_certify.specs.Descents.{AreNames, AreRowsUpTo2To122, Carries, StandOn};
ghost use Rattle.ac_omega_certify.specs.Refutations.{AreWithin2To120};
ghost use Rattle.ac_omega_certify.specs.Replacements.{CanDivide, CanReplaceAll, LeadsAll};
ghost use Rattle.ac_omega_certify.specs.TreePathRows.{StandsAt, Stand, Reaches, Leads, IsSameBase};

use crate::descent::{Base, Standing};
use crate::kept::{keep, no_rows};
use crate::path::TreePath;
use crate::renamed::renamed;
use crate::replaced::{Equality, size};
use crate::stage::Stage;
use ac_forms::{Form, Row};
use std::alloc::{AllocError, Global};

/// Adds a copy of a row without the column, and its place.
#[tactic(auto, using(ac_base::proofs::Bits::again_128))]
fn keep_free(
    alloc: Global,
    z: usize,
    row: &Row,
    place: usize,
    kept: &mut Standing,
) -> Result<(), AllocError>
    ensures rows { OnOk result (kept.new.rows.items ≡ kept.old.rows.items ++ rows_without z (row.now ∷ [])) }
    ensures long { OnOk result (length kept.old.places.items ≡ length kept.old.rows.items → length kept.new.places.items ≡ length kept.new.rows.items) }
    ensures stand { OnOk result ((path : Conj) (names : List ℕ) → StandsAt names path place row.now → Stand names path kept.old.rows.items kept.old.places.items → Stand names path kept.new.rows.items kept.new.places.items) }
{
    if row.form().coef(z) != 0 {
        return Ok(());
    }
    keep(kept, row.copy(alloc)?, place)?;
    Ok(())
}

/// The rows without a column, at their places.
pub(crate) fn free_rows(
    alloc: Global,
    z: usize,
    rows: &[Row],
    places: &[usize],
) -> Result<Standing, AllocError>
    requires long { length places.now ≡ length rows.now }
    requires within_2_to_120 { AreWithin2To120 rows.now [] }
    requires moduli { HaveModuli rows.now }
    ensures long { IfOk result (λ s. length s.places.items ≡ length s.rows.items) }
    ensures rows { IfOk result (λ s. s.rows.items ≡ left_by (Drop z) rows.now) }
    ensures up_to_2_to_122 { IfOk result (λ s. AreRowsUpTo2To122 s.rows.items) }
    ensures stand { IfOk result (λ s. (b : Base) (path : Conj) (names : List ℕ) → StandOn b names rows.now places.now path → StandOn b names s.rows.items s.places.items path) }
{
    let mut kept = no_rows(alloc);
    for (i, row) in rows.iter().enumerate() {
        keep_free(alloc, z, row, places[i], &mut kept)?;
    }
    Ok(kept)
}

/// The same rows again.
pub(crate) fn copied(alloc: Global, rows: &[Row]) -> Result<Vec<Row>, AllocError>
    ensures { IfOk result (λ copies. copies.items ≡ rows.now) }
{
    let mut copies = Vec::new(alloc);
    for row in rows {
        copies.push(row.copy(alloc)?)?;
    }
    Ok(copies)
}

/// The form is worth k.
#[tactic(auto, using(ac_base::proofs::Bits::again_128))]
fn worth(alloc: Global, form: &Form, k: i128) -> Result<Row, AllocError>
    requires { Fits (form.now.konst -ℤ k) }
    ensures { IfOk result (λ row. row ≡ Eq (record { konst = form.now.konst -ℤ k; coefs = form.now.coefs })) }
{
    let konst = form.konst() - k;
    Ok(Row::Eq(Form::from_parts(alloc, konst, form.coefs())?))
}

/// The rows and that one of them, a lower one of the column, is worth k, which stands at a place.
pub(crate) fn splinter_rows(
    alloc: Global,
    z: usize,
    i: usize,
    k: i128,
    rows: &[Row],
    places: &[usize],
    place: usize,
) -> Result<Standing, AllocError>
    requires long { length places.now ≡ length rows.now }
    requires within_2_to_120 { AreWithin2To120 rows.now [] }
    requires moduli { HaveModuli rows.now }
    requires lower { i < length rows.now }
    requires low { pos 0 ≤ℤ k }
    requires last { (f : _) → slice_get rows.now i ≡ Some (Ge f) → (is_low z f ≡ true) × (k ≤ℤ coef z f) }
    ensures long { IfOk result (λ s. length s.places.items ≡ length s.rows.items) }
    ensures rows { IfOk result (λ s. s.rows.items ≡ left_by (Splinter z i k) rows.now) }
    ensures up_to_2_to_122 { IfOk result (λ s. AreRowsUpTo2To122 s.rows.items) }
    ensures stand { IfOk result (λ s. (b : Base) (path : Conj) (names : List ℕ) → StandOn b names rows.now places.now path → ((f : Affine) → slice_get rows.now i ≡ Some (Ge f) → StandsAt names path place (Eq (record { konst = f.konst -ℤ k; coefs = f.coefs }))) → StandOn b names s.rows.items s.places.items path) }
{
    let mut kept = Standing {
        rows: copied(alloc, rows)?,
        places: Vec::from_slice(alloc, places)?,
    };
    match &rows[i] {
        Row::Ge(form) => {
            let row = worth(alloc, form, k)?;
            keep(&mut kept, row, place)?;
            Ok(kept)
        }
        Row::Eq(_) | Row::Div(_, _) => Ok(kept),
    }
}

/// The form without the column.
#[tactic(auto, using(ac_base::proofs::Bits::again_128))]
fn without(alloc: Global, z: usize, form: &Form) -> Result<Form, AllocError>
    ensures { IfOk result (λ rest. rest ≡ without z form.now) }
{
    let rest = form.with_numbers(alloc, z, &0, &form.konst())?;
    Ok(rest)
}

/// The items before a place.
fn before<T>(items: &[T], at: usize) -> &[T]
    requires { at < length items.now }
    ensures { result.now ≡ take at items.now }
{
    &items[..at]
}

/// The items behind a place.
fn behind<T>(items: &[T], at: usize) -> &[T]
    requires { at < length items.now }
    ensures { result.now ≡ drop (at + 1) items.now }
{
    &items[at + 1..]
}

impl TreePath {
    /// The absolute value of the column's coefficient in an equality divides the rest of its form: the place of that row.
    fn show_divided(
        &mut self,
        alloc: Global,
        names: &[usize],
        equality: &Equality,
        rest: &Form,
    ) -> Result<usize, AllocError>
        requires column { CanDivide equality.now.column equality.now.form.now }
        requires rest { rest.now ≡ without equality.now.column equality.now.form.now }
        ensures base { OnOk result (IsSameBase self.old self.new) }
        ensures leads { IfOk result (λ i. (start path : Conj) → Reaches self.old start path → AreNames self.old.columns names.now → StandsAt names.now path equality.now.place (Eq equality.now.form.now) → Leads self.new start path names.now i (Div (size_of (coef equality.now.column equality.now.form.now)) rest.now)) }
    {
        let size = size(equality.column, equality.form);
        let form = renamed(alloc, names, self.columns, rest)?;
        let zero = self.divide_zero(equality.place, size)?;
        let place = self.reduce(zero, 1, size, form)?;
        Ok(place)
    }

    /// Adds that row.
    fn keep_divided(
        &mut self,
        alloc: Global,
        names: &[usize],
        equality: &Equality,
        kept: &mut Standing,
    ) -> Result<(), AllocError>
        requires column { CanDivide equality.now.column equality.now.form.now }
        ensures base { OnOk result (IsSameBase self.old self.new) }
        ensures rows { OnOk result (kept.new.rows.items ≡ kept.old.rows.items ++ Div (size_of (coef equality.now.column equality.now.form.now)) (without equality.now.column equality.now.form.now) ∷ []) }
        ensures long { OnOk result (length kept.old.places.items ≡ length kept.old.rows.items → length kept.new.places.items ≡ length kept.new.rows.items) }
        ensures leads { OnOk result ((start path : Conj) → Reaches self.old start path → AreNames self.old.columns names.now → StandsAt names.now path equality.now.place (Eq equality.now.form.now) → Stand names.now path kept.old.rows.items kept.old.places.items → LeadsAll self.new start path names.now kept.new.rows.items kept.new.places.items) }
    {
        let rest = without(alloc, equality.column, equality.form)?;
        let place = self.show_divided(alloc, names, equality, &rest)?;
        let size = size(equality.column, equality.form);
        keep(kept, Row::Div(size, rest), place)?;
        Ok(())
    }

    /// The rows in which the equality with the number i replaces the column, and that its coefficient divides the rest of it.
    fn show_replacing(
        &mut self,
        alloc: Global,
        stage: &Stage,
        z: usize,
        i: usize,
        form: &Form,
    ) -> Result<Standing, AllocError>
        requires long { length stage.now.places.now ≡ length stage.now.rows.now }
        requires within { i < length stage.now.rows.now }
        requires column { CanDivide z form.now }
        requires fits { CanReplaceAll z form.now stage.now.rows.now }
        ensures base { OnOk result (IsSameBase self.old self.new) }
        ensures long { IfOk result (λ s. length s.places.items ≡ length s.rows.items) }
        ensures rows { IfOk result (λ s. s.rows.items ≡ by_equality z i (Some (Eq form.now)) stage.now.rows.now) }
        ensures leads { IfOk result (λ s. (start path : Conj) → Reaches self.old start path → AreNames self.old.columns stage.now.names.now → Stand stage.now.names.now path stage.now.rows.now stage.now.places.now → slice_get stage.now.rows.now i ≡ Some (Eq form.now) → LeadsAll self.new start path stage.now.names.now s.rows.items s.places.items) }
    {
        let (rows, places) = (stage.rows, stage.places);
        let equality = Equality {
            column: z,
            form,
            place: places[i],
        };
        let mut kept = no_rows(alloc);
        let (first, first_places) = (before(rows, i), before(places, i));
        self.keep_all_replaced(alloc, &equality, first, first_places, &mut kept)?;
        let (last, last_places) = (behind(rows, i), behind(places, i));
        self.keep_all_replaced(alloc, &equality, last, last_places, &mut kept)?;
        self.keep_divided(alloc, stage.names, &equality, &mut kept)?;
        Ok(kept)
    }

    /// The rows in which an equality replaces a column, and that its coefficient divides the rest of it.
    pub(crate) fn show_equality(
        &mut self,
        alloc: Global,
        stage: &Stage,
        z: usize,
        i: usize,
    ) -> Result<Standing, AllocError>
        requires long { length stage.now.places.now ≡ length stage.now.rows.now }
        requires made { AreRowsOver (length stage.now.names.now) stage.now.rows.now }
        requires within_2_to_120 { AreWithin2To120 stage.now.rows.now [] }
        requires equality { is_equality_of z (slice_get stage.now.rows.now i) ≡ true }
        requires fits { equality_fits z i (slice_get stage.now.rows.now i) stage.now.rows.now ≡ true }
        ensures long { IfOk result (λ s. length s.places.items ≡ length s.rows.items) }
        ensures rows { IfOk result (λ s. s.rows.items ≡ left_by (Equal z i) stage.now.rows.now) }
        ensures up_to_2_to_122 { IfOk result (λ s. AreRowsUpTo2To122 s.rows.items) }
        ensures carries { IfOk result (λ s. (start : Conj) → Carries self.old start stage.now.names.now stage.now.rows.now stage.now.places.now → Carries self.new start stage.now.names.now s.rows.items s.places.items) }
    {
        let rows = stage.rows;
        match &rows[i] {
            Row::Eq(form) => {
                let left = self.show_replacing(alloc, stage, z, i, form)?;
                Ok(left)
            }
            Row::Div(_, _) | Row::Ge(_) => unreachable!(),
        }
    }
}
