ghost use Rattle.std.specs.Prelude.{◌≡◌, [], ◌∷◌, slice_get, unsigned_abs, pos, int_le, ◌&&◌, true, not};
ghost use Rattle.std.specs.Int.Signed.{lt_z};
ghost use Rattle.ac_forms.specs.declared.row.Row.TheVariants.{Eq};
ghost use Rattle.ac_forms.specs.RowColumns.{has_column};
ghost use Rattle.ac_base.specs.Multiple.{divides};
ghost use Rattle.ac_omega_steps.specs.Choices.{column_of, are_absurd, is_equality_of, is_lower_row, is_common_multiple, allows, is_legal};

use crate::choose::Choice;
use crate::column::{is_low, is_one_sided, only_bounds};
use ac_forms::{Conj, Form, Row, has_column};

impl Choice {
    /// The column that goes.
    pub fn column(&self) -> usize
        ensures { result ≡ column_of self.now }
    {
        match self {
            Choice::Drop(z) => *z,
            Choice::Equal(z, _) => *z,
            Choice::Residue(z, _, _) => *z,
            Choice::Shadow(z) => *z,
            Choice::Splinter(z, _, _) => *z,
        }
    }
}

/// Whether the rows are the absurd conjunction's: `-1 >= 0` alone.
#[tactic(auto, using(ac_base::proofs::Bits::again_128))]
pub fn are_absurd(rows: &[Row]) -> bool
    ensures { result ≡ are_absurd rows.now }
{
    match rows {
        [Row::Ge(form)] => form.columns() == 0 && form.konst() == -1,
        _ => false,
    }
}

/// Whether a form has the column.
#[tactic(auto, using(ac_base::proofs::Bits::again_128))]
fn has_coef(z: usize, form: &Form) -> bool
    ensures { result ≡ has_column z (Eq form.now) }
{
    form.coef(z) != 0
}

/// Whether the row at a place is an equality that has the column.
fn is_equality_at(z: usize, at: usize, rows: &[Row]) -> bool
    ensures { result ≡ is_equality_of z (slice_get rows.now at) }
{
    match rows.get(at) {
        Some(Row::Eq(form)) => has_coef(z, form),
        _ => false,
    }
}

/// Whether the row at a place is a lower row of the column.
fn is_lower_at(z: usize, at: usize, rows: &[Row]) -> bool
    ensures { result ≡ is_lower_row z (slice_get rows.now at) }
{
    match rows.get(at) {
        Some(Row::Ge(form)) => is_low(z, form),
        _ => false,
    }
}

/// Whether a number is a multiple of another.
fn is_multiple_of(number: i128, modulus: i128) -> bool
    ensures { result ≡ divides (unsigned_abs modulus) number }
{
    ac_base::is_multiple(number, modulus)
}

/// Whether a number is a multiple of the row's modulus, where it has one and the column.
#[tactic(auto, using(ac_base::proofs::Bits::again_128))]
fn is_multiple_for(z: usize, m: &i128, row: &Row) -> bool
    ensures { result ≡ is_common_multiple z m.now (row.now ∷ []) }
{
    match row {
        Row::Div(modulus, _) => !has_column(z, row) || is_multiple_of(*m, *modulus),
        Row::Eq(_) | Row::Ge(_) => true,
    }
}

/// Whether a number is a multiple of the moduli of all `Div` rows with the column.
fn is_common_multiple(z: usize, m: &i128, rows: &[Row]) -> bool
    ensures { result ≡ is_common_multiple z m.now rows.now }
{
    for row in rows {
        if !is_multiple_for(z, m, row) {
            return false;
        }
    }
    true
}

/// Whether a remainder is from 0 to a positive modulus less 1, the modulus being a common multiple.
#[tactic(auto, using(ac_base::proofs::Bits::again_128))]
fn allows_residue(z: usize, m: &i128, r: &i128, rows: &[Row]) -> bool
    ensures { result ≡ (int_le (pos 1) m.now && (is_common_multiple z m.now rows.now && (int_le (pos 0) r.now && lt_z r.now m.now))) }
{
    *m >= 1 && is_common_multiple(z, m, rows) && *r >= 0 && *r < *m
}

/// Whether a lower row is at a place, and a number is not negative.
#[tactic(auto, using(ac_base::proofs::Bits::again_128))]
fn allows_splinter(z: usize, at: usize, k: &i128, rows: &[Row]) -> bool
    ensures { result ≡ (is_lower_row z (slice_get rows.now at) && int_le (pos 0) k.now) }
{
    is_lower_at(z, at, rows) && *k >= 0
}

/// Whether the rows allow the choice.
fn allows(choice: &Choice, rows: &[Row]) -> bool
    ensures { result ≡ allows choice.now rows.now }
{
    match choice {
        Choice::Drop(z) => only_bounds(*z, rows) && is_one_sided(*z, rows),
        Choice::Equal(z, at) => is_equality_at(*z, *at, rows),
        Choice::Residue(z, m, r) => allows_residue(*z, m, r, rows),
        Choice::Shadow(z) => only_bounds(*z, rows),
        Choice::Splinter(z, at, k) => allows_splinter(*z, *at, k, rows),
    }
}

/// Whether the choice is legal: its column is one of the conjunction's, which is not absurd and allows it.
pub(crate) fn is_legal(conj: &Conj, choice: &Choice) -> bool
    ensures { result ≡ is_legal choice.now conj.now }
{
    let rows = conj.rows.as_slice();
    !are_absurd(rows) && choice.column() < conj.columns && allows(choice, rows)
}
