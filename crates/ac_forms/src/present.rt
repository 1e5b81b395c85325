ghost use Rattle.std.specs.Prelude.{◌≡◌};
ghost use Rattle.ac_forms.specs.RowColumns.{has_column, is_present};

use crate::row::Row;

/// Whether a row has a column: its coefficient isn't 0.
#[tactic(auto, using(ac_base::proofs::Bits::again_128))]
pub fn has_column(column: usize, row: &Row) -> bool
    ensures { result ≡ has_column column row.now }
{
    row.form().coef(column) != 0
}

/// Whether one of the rows has a column.
pub fn is_present(column: usize, rows: &[Row]) -> bool
    ensures { result ≡ is_present column rows.now }
{
    for row in rows {
        if has_column(column, row) {
            return true;
        }
    }
    false
}
