//! What is left of a divisibility that stands on the path, in normal form.
ghost use Rattle.std.specs.Prelude.{◌≡◌, ℕ, ◌≤◌, ◌^◌, List, pos, ◌≤ℤ◌, unsigned_abs, OnOk, IfOk};
ghost use Rattle.ac_base.specs.Gcd.{gcd, content};
ghost use Rattle.ac_forms.specs.Affine.{Affine};
ghost use Rattle.ac_forms.specs.NormalRows.{normal_div};
ghost use Rattle.ac_forms.specs.FormOrder.{modulus_of};
ghost use Rattle.ac_forms.specs.declared.conj.Conj.{Conj};
ghost use Rattle.ac_forms.specs.declared.normal.NormalRow.TheVariants.{Kept, Absurd};
ghost use Rattle.ac_forms.specs.declared.row.Row.TheVariants.{Div};
ghost use Rattle.ac_omega_certify.specs.Descents.{AreNames, IsFormUpTo2To122};
ghost use Rattle.ac_omega_certify.specs.TreePathRows.{StandsAt, Reaches, Shows, IsSameBase};

use crate::path::TreePath;
use crate::renamed::renamed;
use crate::shown_rows::narrow;
use ac_forms::{Form, NormalRow, Row};
use std::alloc::{AllocError, Global};

/// The greatest common divisor of a modulus and of the coefficients of a form.
fn common_divisor(modulus: i128, form: &Form) -> i128
    requires { pos 1 ≤ℤ modulus }
    ensures { result ≡ pos (gcd (unsigned_abs modulus) (content form.now.coefs)) }
{
    let content = ac_base::content(form.coefs());
    let divisor = ac_base::greatest_common_divisor(modulus.unsigned_abs(), content);
    let Some(size) = narrow(divisor) else {
        unreachable!();
    };
    size
}

impl TreePath {
    /// What is left of the row `modulus divides form` at place x: the place where its normal form stands, or an absurd row.
    pub(crate) fn show_normal_divisibility(
        &mut self,
        alloc: Global,
        names: &[usize],
        x: usize,
        modulus: i128,
        form: &Form,
        normal: &NormalRow,
    ) -> Result<usize, AllocError>
        requires normal { normal.now ≡ normal_div modulus form.now }
        requires positive { pos 1 ≤ℤ modulus }
        requires small { unsigned_abs modulus ≤ 2 ^ 122 }
        requires up_to_2_to_122 { IsFormUpTo2To122 form.now }
        ensures base { OnOk result (IsSameBase self.old self.new) }
        ensures shows { IfOk result (λ i. (start path : Conj) → Reaches self.old start path → AreNames path.columns names.now → StandsAt names.now path x (Div modulus form.now) → Shows self.new start path names.now i (normal_div modulus form.now)) }
    {
        match normal {
            NormalRow::Dropped => Ok(x),
            NormalRow::Kept(row) => {
                let place = self.show_quotient(alloc, names, x, modulus, row)?;
                Ok(place)
            }
            NormalRow::Absurd => {
                let place = self.show_indivisible(alloc, x, modulus, form)?;
                Ok(place)
            }
        }
    }

    /// The place of a row that is the normal form of the divisibility at place x.
    fn show_quotient(
        &mut self,
        alloc: Global,
        names: &[usize],
        x: usize,
        modulus: i128,
        row: &Row,
    ) -> Result<usize, AllocError>
        requires positive { pos 1 ≤ℤ modulus }
        requires small { unsigned_abs modulus ≤ 2 ^ 122 }
        requires quotient { pos 1 ≤ℤ modulus_of row.now }
        ensures base { OnOk result (IsSameBase self.old self.new) }
        ensures shows { IfOk result (λ i. (f : Affine) → normal_div modulus f ≡ Kept row.now → IsFormUpTo2To122 f → (start path : Conj) → Reaches self.old start path → AreNames path.columns names.now → StandsAt names.now path x (Div modulus f) → Shows self.new start path names.now i (normal_div modulus f)) }
    {
        let quotient = row.modulus();
        let divisor = ac_base::floor_quotient(modulus, quotient);
        let named = renamed(alloc, names, self.columns, row.form())?;
        let place = self.reduce(x, divisor, quotient, named)?;
        Ok(place)
    }

    /// The place of an absurd row, where no number meets the row `modulus divides form` at place x.
    fn show_indivisible(
        &mut self,
        alloc: Global,
        x: usize,
        modulus: i128,
        form: &Form,
    ) -> Result<usize, AllocError>
        requires absurdity { normal_div modulus form.now ≡ Absurd }
        requires positive { pos 1 ≤ℤ modulus }
        requires small { unsigned_abs modulus ≤ 2 ^ 122 }
        requires up_to_2_to_122 { IsFormUpTo2To122 form.now }
        ensures base { OnOk result (IsSameBase self.old self.new) }
        ensures shows { IfOk result (λ i. (start path : Conj) (names : List ℕ) → Reaches self.old start path → AreNames path.columns names → StandsAt names path x (Div modulus form.now) → Shows self.new start path names i (normal_div modulus form.now)) }
    {
        let divisor = common_divisor(modulus, form);
        let constant = Form::constant(alloc, 0, form.konst())?;
        let place = self.reduce(x, 1, divisor, constant)?;
        Ok(place)
    }
}
