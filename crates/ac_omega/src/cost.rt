//! What a conjunction costs a walk.
ghost use Rattle.std.specs.Prelude.{◌≡◌, ◌+◌, ◌-◌, ◌^◌, min};
ghost use Rattle.ac_forms.specs.Rows.{HaveModuli};
ghost use Rattle.ac_omega.specs.ConjunctionCosts.{Charges, cost_of, pairs_at, pairs_formed, pairs_of};

use crate::ranking::{Rule, by_equality, by_rule, lower_rows, upper_rows};
use ac_forms::Row;
use ac_omega_certify::Strategy;

/// A cost with the pairs of a lower and an upper row of a column, at most 2^128 - 1.
fn with_pairs(cost: u128, z: usize, rows: &[Row]) -> u128
    ensures { result ≡ min (cost + pairs_at rows.now z) (2 ^ 128 - 1) }
{
    let lower = lower_rows(z, rows);
    let upper = upper_rows(z, rows);
    cost.saturating_add(lower as u128 * upper as u128)
}

/// A cost with the pairs of all these columns, at most 2^128 - 1.
#[tactic(auto, using(crate::proofs::Charging::pair_steps))]
fn with_all_pairs(cost: u128, vars: &[usize], rows: &[Row]) -> u128
    ensures { result ≡ min (cost + pairs_of rows.now vars.now) (2 ^ 128 - 1) }
{
    let mut total = cost;
    for z in vars {
        total = with_pairs(total, *z, rows);
    }
    total
}

/// A cost with the pairs that are formed for the next of these columns, at most 2^128 - 1.
#[tactic(auto, using(crate::proofs::Charging::stays))]
fn with_formed_pairs(cost: u128, vars: &[usize], rows: &[Row]) -> u128
    requires { HaveModuli rows.now }
    ensures { result ≡ min (cost + pairs_formed vars.now rows.now) (2 ^ 128 - 1) }
{
    if let Some(_) = by_equality(vars, rows) {
        return cost;
    }
    if let Some(_) = by_rule(Rule::Divided, vars, rows) {
        return cost;
    }
    if let Some(_) = by_rule(Rule::OneSided, vars, rows) {
        return cost;
    }
    match by_rule(Rule::UnitPairs, vars, rows) {
        Some(z) => with_pairs(cost, z, rows),
        None => with_all_pairs(cost, vars, rows),
    }
}

/// The running cost behind a conjunction with these rows that is reached at a cost, at most 2^128 - 1.
#[tactic(auto, unfolding(crate::specs::ConjunctionCosts::cost_of))]
fn total_of(strategy: Strategy, vars: &[usize], rows: &[Row], cost: u64) -> u128
    requires { HaveModuli rows.now }
    ensures { result ≡ min (cost + cost_of strategy vars.now rows.now) (2 ^ 128 - 1) }
{
    let paid = cost as u128 + rows.len() as u128;
    match strategy {
        Strategy::Full => paid,
        Strategy::Economical => with_formed_pairs(paid, vars, rows),
    }
}

/// The running cost behind a conjunction with these rows that is reached at a cost; as an error the first one above the
/// budget, or 2^64 - 1 where that is less.
///
/// A conjunction costs its rows. The economical strategy counts also each pair of a lower and an upper row that it forms
/// there for the next of the columns, before it forms them.
pub(crate) fn charged(
    strategy: Strategy,
    vars: &[usize],
    rows: &[Row],
    cost: u64,
    budget: u64,
) -> Result<u64, u64>
    requires { HaveModuli rows.now }
    ensures { Charges result (cost + cost_of strategy vars.now rows.now) budget }
{
    let total = total_of(strategy, vars, rows, cost);
    if total > budget as u128 {
        return Err(total.min(u64::MAX as u128) as u64);
    }
    Ok(total as u64)
}
