//! What is left of one row that stands on the path, in normal form.
ghost use Rattle.std.specs.Prelude.{◌≡◌, true, false, OnOk, IfOk};
ghost use Rattle.ac_forms.specs.NormalRows.{normal_row};
ghost use Rattle.ac_forms.specs.Rows.{HasModulus};
ghost use Rattle.ac_forms.specs.RangeTests.{normal_fits};
ghost use Rattle.ac_forms.specs.declared.conj.Conj.{Conj};
ghost use Rattle.ac_forms.specs.declared.normal.NormalRow.TheVariants.{Kept};
ghost use Rattle.ac_omega_certify.specs.Descents.{AreNames, IsRowUpTo2To122};
ghost use Rattle.ac_omega_certify.specs.TreePathRows.{StandsAt, HasOne, Reaches, Shows, IsSameBase};

use crate::path::TreePath;
use ac_forms::{FormStop, NormalRow, Row};
use std::alloc::{AllocError, Global};

/// What is left of a row in normal form, and the place where that stands.
#[derive(Drop)]
pub(crate) struct Left {
    pub(crate) place: usize,
    pub(crate) row: NormalRow,
}

/// The normal form of a row.
pub(crate) fn normal_of(alloc: Global, row: &Row) -> Result<NormalRow, AllocError>
    requires modulus { HasModulus row.now }
    requires fits { normal_fits row.now ≡ true }
    ensures { IfOk result (λ left. left ≡ normal_row row.now) }
{
    match row.normalise(alloc) {
        Ok(left) => Ok(left),
        Err(FormStop::Memory(want)) => Err(want),
        Err(FormStop::Wide) => unreachable!(),
    }
}

/// Whether a row is left as it is.
pub(crate) fn is_normal(row: &Row, normal: &NormalRow) -> bool
    ensures same { result ≡ true → normal.now ≡ Kept row.now }
    ensures other { result ≡ false → ¬ (normal.now ≡ Kept row.now) }
{
    match normal {
        NormalRow::Kept(kept) => kept == row,
        NormalRow::Dropped | NormalRow::Absurd => false,
    }
}

impl TreePath {
    /// What is left of the row at place x, and where that stands.
    pub(crate) fn show_left(
        &mut self,
        alloc: Global,
        names: &[usize],
        x: usize,
        row: &Row,
    ) -> Result<Left, AllocError>
        requires modulus { HasModulus row.now }
        requires fits { normal_fits row.now ≡ true }
        requires up_to_2_to_122 { IsRowUpTo2To122 row.now }
        ensures base { OnOk result (IsSameBase self.old self.new) }
        ensures row { IfOk result (λ left. left.row ≡ normal_row row.now) }
        ensures shows { IfOk result (λ left. (start path : Conj) → Reaches self.old start path → HasOne self.old path → AreNames path.columns names.now → StandsAt names.now path x row.now → Shows self.new start path names.now left.place (normal_row row.now)) }
    {
        let normal = normal_of(alloc, row)?;
        if is_normal(row, &normal) {
            return Ok(Left {
                place: x,
                row: normal,
            });
        }
        let place = self.show_other(alloc, names, x, row, &normal)?;
        Ok(Left { place, row: normal })
    }

    /// Where what is left of the row at place x stands.
    fn show_other(
        &mut self,
        alloc: Global,
        names: &[usize],
        x: usize,
        row: &Row,
        normal: &NormalRow,
    ) -> Result<usize, AllocError>
        requires modulus { HasModulus row.now }
        requires up_to_2_to_122 { IsRowUpTo2To122 row.now }
        requires normal { normal.now ≡ normal_row row.now }
        ensures base { OnOk result (IsSameBase self.old self.new) }
        ensures shows { IfOk result (λ i. (start path : Conj) → Reaches self.old start path → HasOne self.old path → AreNames path.columns names.now → StandsAt names.now path x row.now → Shows self.new start path names.now i (normal_row row.now)) }
    {
        match row {
            Row::Eq(form) => {
                let place = self.show_normal_equality(alloc, x, form)?;
                Ok(place)
            }
            Row::Div(modulus, form) => {
                let place = self.show_normal_divisibility(alloc, names, x, *modulus, form, normal)?;
                Ok(place)
            }
            Row::Ge(form) => {
                let place = self.show_inequality(x, form)?;
                Ok(place)
            }
        }
    }
}
