//! How many splinters the lower rows of a column have (W. Pugh, The Omega test, 1991).
ghost use Rattle.std.specs.Prelude.{◌≡◌, ◌≤◌, ◌^◌, ◌≤ℤ◌, pos, true, false, IfOk, IfSome};
ghost use Rattle.ac_forms.specs.Affine.{coef};
ghost use Rattle.ac_omega_steps.specs.Bounds.{is_low, is_one_sided};
ghost use Rattle.ac_omega.specs.ColumnChoice.{count_for, count_of};
ghost use Rattle.ac_omega.specs.Cursors.{kept_for};
ghost use Rattle.ac_omega_certify.specs.Alternatives.{count_to, need_of};

use crate::scan::{greatest_size, is_lower_row, last_splinter};
use ac_forms::{Form, FormStop, Row};
use ac_omega_certify::Strategy;
use ac_omega_exact::needed_size;
use std::alloc::{AllocError, Global};

/// What is kept for all lower rows of a column: the greatest size of an upper row, where each lower row has its splinters for
/// that one; none where a size leaves `i128`.
pub(crate) fn kept_for(strategy: Strategy, z: usize, rows: &[Row]) -> Option<i128>
    ensures { result ≡ kept_for strategy z rows.now }
{
    match strategy {
        Strategy::Economical => None,
        Strategy::Full => greatest_size(z, rows),
    }
}

/// The size of an upper row for which a lower row has its splinters; none exactly where a number that makes it leaves `i128`.
fn need_of(
    alloc: Global,
    strategy: Strategy,
    z: usize,
    rows: &[Row],
    kept: &Option<i128>,
    low: &Form,
) -> Result<Option<i128>, AllocError>
    requires kept { kept.now ≡ kept_for strategy z rows.now }
    requires low { is_low z low.now ≡ true }
    ensures { IfOk result (λ need. need ≡ need_of strategy z rows.now low.now) }
{
    match strategy {
        Strategy::Full => Ok(*kept),
        Strategy::Economical => match needed_size(alloc, z, rows, low) {
            Ok(size) => Ok(Some(size)),
            Err(FormStop::Wide) => Ok(None),
            Err(FormStop::Memory(want)) => Err(want),
        },
    }
}

/// How many numbers there are from 0 to a last one.
#[tactic(auto, using(ac_base::proofs::Bits::again_128))]
fn count_to(last: i128) -> u128
    ensures value { result ≡ count_to last }
    ensures small { result ≤ 2 ^ 127 }
{
    if last < 0 { 0 } else { last as u128 + 1 }
}

/// How many splinters a lower row with coefficient `b` has for an upper row of a size.
fn count_for(need: &Option<i128>, b: i128) -> Option<u128>
    requires { IfSome need.now (λ a. pos 1 ≤ℤ a) }
    ensures value { result ≡ count_for need.now b }
    ensures small { IfSome result (λ count. count ≤ 2 ^ 127) }
{
    let Some(size) = need else {
        return None;
    };
    match last_splinter(*size, b) {
        None => None,
        Some(last) => Some(count_to(last)),
    }
}

/// How many splinters a row has, 0 where it is no lower one; none exactly where a number that makes them leaves `i128`.
pub(crate) fn splinter_count(
    alloc: Global,
    strategy: Strategy,
    z: usize,
    rows: &[Row],
    kept: &Option<i128>,
    row: &Row,
) -> Result<Option<u128>, AllocError>
    requires kept { kept.now ≡ kept_for strategy z rows.now }
    requires sides { is_one_sided z rows.now ≡ false }
    ensures value { IfOk result (λ count. count ≡ count_of strategy z rows.now row.now) }
    ensures small { IfOk result (λ count. IfSome count (λ n. n ≤ 2 ^ 127)) }
{
    if !is_lower_row(z, row) {
        return Ok(Some(0));
    }
    let form = row.form();
    let need = need_of(alloc, strategy, z, rows, kept, form)?;
    Ok(count_for(&need, form.coef(z)))
}
