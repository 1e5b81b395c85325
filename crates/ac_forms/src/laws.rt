//! What the definitions of rows say, in words: each function here changes nothing, and its contract is a fact about all
//! forms, rows or points.
ghost use Rattle.std.specs.Prelude.{◌≡◌, ◌↔◌, ◌≤◌, ◌<◌, ℕ, ℤ, List, ◌++◌, ◌⊎◌, Option, Some, None, true, false, slice_get};
ghost use Rattle.ac_forms.specs.Affine.{Affine, value_at};
ghost use Rattle.ac_forms.specs.RowColumns.{is_present, IsTrimmed, AreTrimmed};
ghost use Rattle.ac_forms.specs.NormalForm.{normal_form, is_absurd};
ghost use Rattle.ac_forms.specs.NormalRows.{normal_row, NormalFits};
ghost use Rattle.ac_forms.specs.PieceMembership.{IsInSome, IsInNone};
ghost use Rattle.ac_forms.specs.Renaming.{AreColumns, AreDistinct, CanRename, picked, renaming, row_renaming, rows_renaming, sums_fit};
ghost use Rattle.ac_forms.specs.Rows.{Holds, Meets, HasModulus, HaveModuli, IsRowOver, AreRowsOver, form_of};
ghost use Rattle.ac_forms.specs.Standing.{stands, all_stand};
ghost use Rattle.ac_forms.specs.ListMembers.{IsAmong};
ghost use Rattle.ac_forms.specs.Traces.{HasAbsurd, HasClash};
ghost use Rattle.ac_forms.specs.declared.row.Row.{Row};
ghost use Rattle.ac_forms.specs.declared.normal.NormalRow.TheVariants.{Kept};

use crate::conj::Conj;
use crate::form::Form;
use crate::row::Row;

/// The rows of a normal form end with no 0. Rows that end with no 0, and that have no column from some column on, are
/// over the columns before it.
pub fn normal_rows_are_trimmed(rows: &[Row])
    ensures normal { AreTrimmed (normal_form rows.now) }
    ensures kept { (r s : Row) → normal_row r ≡ Kept s → IsTrimmed s }
    ensures short { (first n : ℕ) → AreRowsOver n rows.now → AreTrimmed rows.now → ((j : ℕ) → first ≤ j → j < n → is_present j rows.now ≡ false) → AreRowsOver first rows.now }
{}

/// The normal form of a row is its own normal form, made in `i128` where the row's is. So is each row of a normal form, but where a row is absurd, or two
/// equalities clash.
pub fn normal_rows_are_normal(rows: &[Row])
    ensures kept { (r s : Row) → HasModulus r → normal_row r ≡ Kept s → normal_row s ≡ Kept s }
    ensures fits { (r s : Row) → NormalFits r → normal_row r ≡ Kept s → NormalFits s }
    ensures each { (r : Row) → HaveModuli rows.now → IsAmong r (normal_form rows.now) → HasAbsurd rows.now ⊎ HasClash rows.now ⊎ (normal_row r ≡ Kept r) }
{}

/// A form among other columns, of which none stands twice, is never wide.
pub fn renaming_to_distinct_columns(form: &Form, columns: &[usize])
    ensures { AreDistinct columns.now → CanRename columns.now form.now }
{
    form.see_range();
}

/// What is made among other columns has the values and the points of what it is made of, at a point's numbers in these
/// columns, and is over as many columns as have them.
pub fn renamed_values(columns: &[usize])
    ensures test { (f : Affine) → (sums_fit columns.now f.coefs ≡ true) ↔ CanRename columns.now f }
    ensures value { (f g : Affine) (p : List ℤ) → renaming columns.now f ≡ Some g → value_at g p ≡ value_at f (picked columns.now p) }
    ensures row { (r s : Row) (p : List ℤ) → row_renaming columns.now r ≡ Some s → Holds s p ↔ Holds r (picked columns.now p) }
    ensures rows { (rs ss : List Row) (p : List ℤ) → rows_renaming columns.now rs ≡ Some ss → Meets ss p ↔ Meets rs (picked columns.now p) }
    ensures over { (n : ℕ) (rs ss : List Row) → AreColumns n columns.now → HaveModuli rs → rows_renaming columns.now rs ≡ Some ss → AreRowsOver n ss }
{}

/// A row that stands among rows holds wherever they do, and stands among more rows. A row of the rows stands, where it has
/// a normal form in `i128` that isn't absurd.
pub fn rows_that_stand(rows: &[Row])
    ensures holds { (r : Row) (p : List ℤ) → stands rows.now r ≡ true → HaveModuli rows.now → HasModulus r → Meets rows.now p → Holds r p }
    ensures meet { (rs : List Row) (p : List ℤ) → all_stand rows.now rs ≡ true → HaveModuli rows.now → HaveModuli rs → Meets rows.now p → Meets rs p }
    ensures more { (more : List Row) (r : Row) → stands rows.now r ≡ true → stands (rows.now ++ more) r ≡ true }
    ensures all_more { (more rs : List Row) → all_stand rows.now rs ≡ true → all_stand (rows.now ++ more) rs ≡ true }
    ensures there { (i : ℕ) (r : Row) → slice_get rows.now i ≡ Some r → NormalFits r → is_absurd (normal_row r) ≡ false → stands rows.now r ≡ true }
{}

/// A point is in one of the pieces of two lists where it is in one of the first or in one of the second; it is in one of
/// the pieces where it is in the piece at some place; and where it is in none, it is not in one.
pub fn points_of_pieces(conj: &Conj)
    ensures append { (xs ys : List (List Row)) (p : List ℤ) → IsInSome Meets (xs ++ ys) p ↔ (IsInSome Meets xs p ⊎ IsInSome Meets ys p) }
    ensures there { (xs : List (List Row)) (i : ℕ) (p : List ℤ) → slice_get xs i ≡ Some conj.now.rows → Meets conj.now.rows p → IsInSome Meets xs p }
    ensures none { (xs : List (List Row)) (p : List ℤ) → IsInNone Meets xs p → IsInSome Meets xs p → ⊥ }
{}
