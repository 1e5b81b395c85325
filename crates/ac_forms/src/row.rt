ghost use Rattle.std.specs.Prelude.{◌≡◌, ◌↔◌, ◌==◌, MatchResult, IsTrue, IfOk, length, refl};
ghost use Rattle.std.specs.Cmp.{partial_order_from_own_ties, partial_order_from_total, partial_equiv_from_equiv};
ghost use Rattle.std.specs.Ordering.{as_partial_cmp};
ghost use Rattle.ac_forms.specs.Affine.{CanEvaluate};
ghost use Rattle.ac_forms.specs.FormOrder.{kind_of, modulus_of, row_cmp, row_eq};
ghost use Rattle.ac_forms.specs.Rows.{Holds, IsRowOver, HasModulus, form_of};
ghost use Rattle.ac_forms.specs.Ties.{row_ties, row_total, row_equiv};

use crate::form::Form;
use crate::stop::Wide;
use std::alloc::{AllocError, Global};
use std::cmp::Ordering;

/// A row over integer columns: `form = 0`, the modulus (at least 1) divides the form, or `form >= 0`.
#[derive(Drop)]
pub enum Row {
    /// `form = 0`.
    Eq(Form),
    /// The number divides the form.
    Div(i128, Form),
    /// `form >= 0`.
    Ge(Form),
}

impl Row {
    /// The same row again.
    pub fn copy(&self, alloc: Global) -> Result<Row, AllocError>
        ensures { IfOk result (λ row. row ≡ self.now) }
    {
        Ok(match self {
            Row::Eq(form) => Row::Eq(form.copy(alloc)?),
            Row::Div(modulus, form) => Row::Div(*modulus, form.copy(alloc)?),
            Row::Ge(form) => Row::Ge(form.copy(alloc)?),
        })
    }

    /// The form of the row.
    pub fn form(&self) -> &Form
        ensures { result.now ≡ form_of self.now }
    {
        match self {
            Row::Eq(form) | Row::Div(_, form) | Row::Ge(form) => form,
        }
    }

    /// The number of the row's kind in the order of rows: 0 for `Eq`, 1 for `Div`, 2 for `Ge`.
    pub fn kind(&self) -> u8
        ensures { result ≡ kind_of self.now }
    {
        match self {
            Row::Eq(_) => 0,
            Row::Div(_, _) => 1,
            Row::Ge(_) => 2,
        }
    }

    /// The modulus, 0 for a row without one.
    pub fn modulus(&self) -> i128
        ensures { result ≡ modulus_of self.now }
    {
        match self {
            Row::Div(modulus, _) => *modulus,
            Row::Eq(_) | Row::Ge(_) => 0,
        }
    }

    /// Whether the row is well made over that many columns: its modulus is at least 1, and its form keeps no more
    /// coefficients than there are columns.
    pub fn is_over(&self, columns: usize) -> bool
        ensures { IsTrue result ↔ IsRowOver columns self.now }
    {
        self.form().columns() <= columns && self.has_modulus()
    }

    /// Whether the modulus of a row that has one is at least 1.
    pub fn has_modulus(&self) -> bool
        ensures { IsTrue result ↔ HasModulus self.now }
    {
        match self {
            Row::Div(modulus, _) => *modulus >= 1,
            Row::Eq(_) | Row::Ge(_) => true,
        }
    }

    /// Whether the row holds at a point, which has a number for each column; `Wide` exactly where the form's value
    /// can't be formed in `i128`.
    pub fn holds_at(&self, point: &[i128]) -> Result<bool, Wide>
        requires { IsRowOver (length point.now) self.now }
        ensures { MatchResult result (λ holds. CanEvaluate (form_of self.now) point.now × (IsTrue holds ↔ Holds self.now point.now)) (λ _. ¬ CanEvaluate (form_of self.now) point.now) }
    {
        match self {
            Row::Eq(form) => Ok(form.eval(point)? == 0),
            Row::Div(modulus, form) => Ok(ac_base::is_multiple(form.eval(point)?, *modulus)),
            Row::Ge(form) => Ok(form.eval(point)? >= 0),
        }
    }
}

impl PartialEq for Row {
    ghost eq = { row_eq };

    ghost laws = { partial_equiv_from_equiv row_equiv };

    fn eq(&self, other: &Row) -> bool {
        self.kind() == other.kind()
            && self.modulus() == other.modulus()
            && self.form() == other.form()
    }
}

impl Eq for Row {
    ghost laws = { row_equiv };
}

impl Ord for Row {
    ghost cmp = { row_cmp };

    ghost total = { row_total };

    ghost matches_partial_cmp = { λ _ _. refl };

    ghost matches_eq = { row_ties };

    fn cmp(&self, other: &Row) -> Ordering {
        let kinds = self.kind().cmp(&other.kind());
        let moduli = self.modulus().cmp(&other.modulus());
        kinds.then(moduli.then(self.form().cmp(other.form())))
    }
}

impl PartialOrd for Row {
    ghost partial_cmp = { as_partial_cmp row_cmp };

    ghost laws = { partial_order_from_own_ties (partial_order_from_total row_total) row_ties };

    fn partial_cmp(&self, other: &Row) -> Option<Ordering> {
        Some(self.cmp(other))
    }
}
