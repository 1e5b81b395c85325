//! Columns with the coefficient 1 or -1.
ghost use Rattle.std.specs.Prelude.{MatchOption};
ghost use Rattle.ac_cert_short.specs.Units.{HasNoUnit, IsFirstUnit};

use ac_forms::Form;

/// The first column with the coefficient 1 or -1, and whether it is 1.
pub fn unit_column(form: &Form) -> Option<(usize, bool)>
    ensures { MatchOption result (HasNoUnit form.now) (IsFirstUnit form.now) }
{
    for column in 0..form.columns() {
        let coef = form.coef(column);
        if coef == 1 {
            return Some((column, true));
        }
        if coef == -1 {
            return Some((column, false));
        }
    }
    None
}
