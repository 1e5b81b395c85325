//! How large the upper rows are for which a lower row needs splinters, and how many of these it has.
ghost use Rattle.std.specs.Prelude.{◌≡◌, pos, ◌≤ℤ◌, true, [], ◌∷◌, IfOk};
ghost use Rattle.ac_forms.specs.FormStops.{MadeIff};
ghost use Rattle.ac_omega_steps.specs.Bounds.{is_low, is_high, low_bound, highs, last_splinter};
ghost use Rattle.ac_omega_exact.specs.Exact.{count_to};
ghost use Rattle.ac_omega_exact.specs.ExactnessTests.{is_exact, greatest_failing, economical, pairs_fit};

use crate::pairs::is_exact;
use ac_forms::{Form, FormStop, Row};
use std::alloc::Global;

/// Whether the form of a `Ge` row bounds a column from above.
#[tactic(auto, using(ac_base::proofs::Bits::again_128))]
fn is_high(z: usize, form: &Form) -> bool
    ensures { result ≡ is_high z form.now }
{
    form.coef(z) < 0
}

/// The size of an upper row whose pair with the lower one isn't exact, 1 for any other row.
fn inexact_size(
    alloc: Global,
    z: usize,
    rows: &[Row],
    low: &Form,
    row: &Row,
) -> Result<i128, FormStop>
    requires { is_low z low.now ≡ true }
    ensures { MadeIff result (pairs_fit (low_bound z low.now) (highs z (row.now ∷ [])) ≡ true) (greatest_failing (is_exact z rows.now (low_bound z low.now)) (highs z (row.now ∷ []))) }
{
    let Row::Ge(high) = row else {
        return Ok(1);
    };
    if !is_high(z, high) || is_exact(alloc, z, rows, low, high)? {
        return Ok(1);
    }
    match high.coef(z).checked_neg() {
        Some(size) => Ok(size),
        None => Err(FormStop::Wide),
    }
}

/// The greatest size of an upper row of a column whose pair with a lower row isn't exact beside the rows of a conjunction, 1
/// where each pair is exact: the splinters of the lower row up to the last one for this size suffice. `Wide` exactly where a
/// number of one of its dark shadows or of their normal forms leaves `i128`.
pub fn needed_size(alloc: Global, z: usize, rows: &[Row], low: &Form) -> Result<i128, FormStop>
    requires { is_low z low.now ≡ true }
    ensures exact { MadeIff result (pairs_fit (low_bound z low.now) (highs z rows.now) ≡ true) (economical z rows.now low.now) }
    ensures positive { IfOk result (λ need. pos 1 ≤ℤ need) }
{
    let mut need: i128 = 1;
    for row in rows {
        match inexact_size(alloc, z, rows, low, row) {
            Ok(size) => need = need.max(size),
            Err(stop) => return Err(stop),
        }
    }
    Ok(need)
}

/// How many splinters a lower row with coefficient `b` has, where it needs them for upper rows up to the size `a`: the
/// numbers from 0 to `(a b - a - b) / a`, rounded down, which is `b - 2 - (b - 1) / a`; none where `a` is 1.
#[tactic(auto, using(ac_base::proofs::Bits::again_128))]
pub fn splinter_count(a: i128, b: i128) -> i128
    requires size { pos 1 ≤ℤ a }
    requires lower { pos 1 ≤ℤ b }
    ensures { result ≡ pos (count_to (last_splinter a b)) }
{
    let most = b - 1;
    most - most.div_euclid(a)
}
