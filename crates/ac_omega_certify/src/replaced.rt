//! Rows in which an equality replaces a column, one by one: as they are written, and on the path
//! (W. Pugh, The Omega test, 1991).
ghost use Rattle.std.specs.Prelude.{◌≡◌, ℕ, List, [], ◌∷◌, ◌++◌, map, length, OnOk, IfOk};
ghost use Rattle.ac_forms.specs.Affine.{coef, combined, CanCombine};
ghost use Rattle.ac_forms.specs.Fits.{Fits};
ghost use Rattle.ac_forms.specs.declared.conj.Conj.{Conj};
ghost use Rattle.ac_forms.specs.declared.row.Row.TheVariants.{Eq};
ghost use Rattle.ac_omega_steps.specs.Choices.{size_of, against, replaced_row};
ghost use Rattle.ac_omega_certify.specs.Replacements.{CanDivide, CanReplace, CanReplaceAll, LeadsAll};
ghost use Rattle.ac_omega_certify.specs.TreePathRows.{StandsAt, Stand, Reaches, Leads, IsSameBase};

use crate::descent::Standing;
use crate::kept::keep;
use crate::path::TreePath;
use ac_forms::{Form, FormStop, Row};
use std::alloc::{AllocError, Global};

/// An equality that replaces a column, and the place where it stands.
#[derive(Clone, Copy)]
pub(crate) struct Equality<'a> {
    pub(crate) column: usize,
    pub(crate) form: &'a Form,
    pub(crate) place: usize,
}

/// The absolute value of the column's coefficient.
#[tactic(auto, using(ac_base::proofs::Bits::again_128, crate::proofs::Equated::opposite_fits))]
pub(crate) fn size(z: usize, equality: &Form) -> i128
    requires { Fits (size_of (coef z equality.now)) }
    ensures { result ≡ size_of (coef z equality.now) }
{
    equality.coef(z).abs()
}

/// The column's coefficient in a form, with the sign that is opposite to that of its coefficient in the equality.
#[tactic(auto, using(ac_base::proofs::Bits::again_128))]
fn factor(z: usize, equality: &Form, form: &Form) -> i128
    requires { Fits (against (coef z equality.now) (coef z form.now)) }
    ensures { result ≡ against (coef z equality.now) (coef z form.now) }
{
    let coef = form.coef(z);
    if equality.coef(z) < 0 { coef } else { -coef }
}

/// A combination of two forms that stays in `i128`.
#[tactic(auto, using(ac_base::proofs::Bits::again_128))]
fn combined(
    alloc: Global,
    left: i128,
    form: &Form,
    right: i128,
    other: &Form,
) -> Result<Form, AllocError>
    requires { CanCombine left form.now right other.now }
    ensures { IfOk result (λ sum. sum ≡ combined left form.now right other.now) }
{
    match form.combine(alloc, left, other, right) {
        Ok(sum) => Ok(sum),
        Err(FormStop::Memory(want)) => Err(want),
        Err(FormStop::Wide) => unreachable!(),
    }
}

/// A row where an equality replaces the column.
#[tactic(auto, using(ac_base::proofs::Bits::again_128))]
fn replaced_row(alloc: Global, z: usize, equality: &Form, row: &Row) -> Result<Row, AllocError>
    requires column { CanDivide z equality.now }
    requires fits { CanReplace z equality.now row.now }
    ensures { IfOk result (λ made. made ≡ replaced_row z equality.now row.now) }
{
    let size = size(z, equality);
    let factor = factor(z, equality, row.form());
    let form = combined(alloc, size, row.form(), factor, equality)?;
    match row {
        Row::Ge(_) => Ok(Row::Ge(form)),
        Row::Eq(_) => Ok(Row::Eq(form)),
        Row::Div(modulus, _) => Ok(Row::Div(size * *modulus, form)),
    }
}

impl TreePath {
    /// The row at a place where an equality replaces its column: its place.
    fn show_replaced(
        &mut self,
        alloc: Global,
        equality: &Equality,
        row: &Row,
        place: usize,
    ) -> Result<usize, AllocError>
        requires column { CanDivide equality.now.column equality.now.form.now }
        requires fits { CanReplace equality.now.column equality.now.form.now row.now }
        ensures base { OnOk result (IsSameBase self.old self.new) }
        ensures leads { IfOk result (λ i. (start path : Conj) (names : List ℕ) → Reaches self.old start path → StandsAt names path place row.now → StandsAt names path equality.now.place (Eq equality.now.form.now) → Leads self.new start path names i (replaced_row equality.now.column equality.now.form.now row.now)) }
    {
        let at = equality.place;
        let size = size(equality.column, equality.form);
        let factor = factor(equality.column, equality.form, row.form());
        match row {
            Row::Div(modulus, _) => {
                let sum = self.show_replaced_divisibility(place, size, at, factor, *modulus)?;
                Ok(sum)
            }
            Row::Eq(_) | Row::Ge(_) => {
                let sum = self.add_two(alloc, place, size, at, factor)?;
                Ok(sum)
            }
        }
    }

    /// Adds the row at a place where an equality replaces its column.
    fn keep_replaced(
        &mut self,
        alloc: Global,
        equality: &Equality,
        row: &Row,
        place: usize,
        kept: &mut Standing,
    ) -> Result<(), AllocError>
        requires column { CanDivide equality.now.column equality.now.form.now }
        requires fits { CanReplace equality.now.column equality.now.form.now row.now }
        ensures base { OnOk result (IsSameBase self.old self.new) }
        ensures rows { OnOk result (kept.new.rows.items ≡ kept.old.rows.items ++ replaced_row equality.now.column equality.now.form.now row.now ∷ []) }
        ensures long { OnOk result (length kept.old.places.items ≡ length kept.old.rows.items → length kept.new.places.items ≡ length kept.new.rows.items) }
        ensures leads { OnOk result ((start path : Conj) (names : List ℕ) → Reaches self.old start path → StandsAt names path place row.now → StandsAt names path equality.now.place (Eq equality.now.form.now) → Stand names path kept.old.rows.items kept.old.places.items → LeadsAll self.new start path names kept.new.rows.items kept.new.places.items) }
    {
        let sum = self.show_replaced(alloc, equality, row, place)?;
        keep(
            kept,
            replaced_row(alloc, equality.column, equality.form, row)?,
            sum,
        )?;
        Ok(())
    }

    /// Adds rows at places where an equality replaces its column.
    pub(crate) fn keep_all_replaced(
        &mut self,
        alloc: Global,
        equality: &Equality,
        rows: &[Row],
        places: &[usize],
        kept: &mut Standing,
    ) -> Result<(), AllocError>
        requires column { CanDivide equality.now.column equality.now.form.now }
        requires fits { CanReplaceAll equality.now.column equality.now.form.now rows.now }
        requires places { length places.now ≡ length rows.now }
        requires long { length kept.old.places.items ≡ length kept.old.rows.items }
        ensures base { OnOk result (IsSameBase self.old self.new) }
        ensures rows { OnOk result (kept.new.rows.items ≡ kept.old.rows.items ++ map (replaced_row equality.now.column equality.now.form.now) rows.now) }
        ensures long { OnOk result (length kept.new.places.items ≡ length kept.new.rows.items) }
        ensures leads { OnOk result ((start path : Conj) (names : List ℕ) → Reaches self.old start path → Stand names path rows.now places.now → StandsAt names path equality.now.place (Eq equality.now.form.now) → Stand names path kept.old.rows.items kept.old.places.items → LeadsAll self.new start path names kept.new.rows.items kept.new.places.items) }
    {
        for (i, row) in rows.iter().enumerate() {
            self.keep_replaced(alloc, equality, row, places[i], kept)?;
        }
        Ok(())
    }
}
