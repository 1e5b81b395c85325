ghost use Rattle.std.specs.Prelude.{◌≡◌, ◌↔◌, IsTrue, IfOk, ◌<◌, ◌≤◌, ◌+◌, ◌^◌, ◌||◌, Some, pos, [], ◌∷◌, length, unsigned_abs, filter, cond};
ghost use Rattle.ac_forms.specs.Affine.{coef};
ghost use Rattle.ac_forms.specs.Rows.{HaveModuli, form_of};
ghost use Rattle.ac_omega_steps.specs.Bounds.{is_low, is_high, lows, highs, is_one_sided};
ghost use Rattle.ac_forms.specs.RowColumns.{has_column, is_present};
ghost use Rattle.ac_omega.specs.ColumnChoice.{AreColumns, are_units, are_unit_pairs, excess, less, precedes, better, by_equality, passes, key, by_rule, by_splinters, least_by, size_key, next_column};

use crate::fewest::fewest;
use crate::scan::{common_modulus, has_divisibility, is_one_sided};
use ac_forms::{Form, Row, is_present};
use ac_omega_certify::Strategy;
use std::alloc::{AllocError, Global};

/// The rules by which the next column is taken where no equality decides.
#[derive(Clone, Copy)]
pub(crate) enum Rule {
    /// A divisibility has the column: the least common modulus.
    Divided,
    /// Rows bound the column from one side only.
    OneSided,
    /// In each pair of a lower and an upper row one has the coefficient 1 or -1: the least excess of pairs.
    UnitPairs,
    /// The least excess of pairs.
    TwoSided,
}

/// Whether each is one of so many columns.
#[tactic(auto, using(crate::proofs::ColumnTests::column_steps))]
pub fn are_columns(vars: &[usize], columns: usize) -> bool
    ensures { IsTrue result ↔ AreColumns columns vars.now }
{
    for z in vars {
        if *z >= columns {
            return false;
        }
    }
    true
}

/// How many lower rows of a column the row is: 1 or none.
fn count_lower(z: usize, row: &Row) -> usize
    ensures count { result ≡ length (lows z (row.now ∷ [])) }
    ensures small { result ≤ 1 }
{
    match row {
        Row::Ge(form) => { if form.coef(z) > 0 { 1 } else { 0 } }
        Row::Eq(_) | Row::Div(_, _) => 0,
    }
}

/// How many upper rows of a column the row is: 1 or none.
fn count_upper(z: usize, row: &Row) -> usize
    ensures count { result ≡ length (highs z (row.now ∷ [])) }
    ensures small { result ≤ 1 }
{
    match row {
        Row::Ge(form) => { if form.coef(z) < 0 { 1 } else { 0 } }
        Row::Eq(_) | Row::Div(_, _) => 0,
    }
}

/// How many rows bound a column from below.
pub(crate) fn lower_rows(z: usize, rows: &[Row]) -> usize
    ensures { result ≡ length (lows z rows.now) }
{
    let mut count = 0;
    for row in rows {
        count += count_lower(z, row);
    }
    count
}

/// How many rows bound a column from above.
pub(crate) fn upper_rows(z: usize, rows: &[Row]) -> usize
    ensures { result ≡ length (highs z rows.now) }
{
    let mut count = 0;
    for row in rows {
        count += count_upper(z, row);
    }
    count
}

/// Whether a row is no lower row of a column, or one with the coefficient 1.
fn is_unit_below(z: usize, row: &Row) -> bool
    ensures { result ≡ are_units (lows z (row.now ∷ [])) }
{
    match row {
        Row::Ge(form) => form.coef(z) <= 1,
        Row::Eq(_) | Row::Div(_, _) => true,
    }
}

/// Whether a row is no upper row of a column, or one with the coefficient -1.
fn is_unit_above(z: usize, row: &Row) -> bool
    ensures { result ≡ are_units (highs z (row.now ∷ [])) }
{
    match row {
        Row::Ge(form) => form.coef(z) >= -1,
        Row::Eq(_) | Row::Div(_, _) => true,
    }
}

/// Whether all lower rows of a column have the coefficient 1.
fn are_units_below(z: usize, rows: &[Row]) -> bool
    ensures { result ≡ are_units (lows z rows.now) }
{
    for row in rows {
        if !is_unit_below(z, row) {
            return false;
        }
    }
    true
}

/// Whether all upper rows of a column have the coefficient -1.
fn are_units_above(z: usize, rows: &[Row]) -> bool
    ensures { result ≡ are_units (highs z rows.now) }
{
    for row in rows {
        if !is_unit_above(z, row) {
            return false;
        }
    }
    true
}

/// Whether in each pair of a lower and an upper row of a column one has the coefficient 1 or -1.
fn are_unit_pairs(z: usize, rows: &[Row]) -> bool
    ensures { result ≡ are_unit_pairs (lows z rows.now) (highs z rows.now) }
{
    are_units_below(z, rows) || are_units_above(z, rows)
}

/// By how many rows the pairs of so many lower and upper rows exceed these rows.
fn excess(lower: usize, upper: usize) -> i128
    requires { lower + upper < 2 ^ 64 }
    ensures { result ≡ excess lower upper }
{
    let pairs = lower as u128 * upper as u128;
    pairs as i128 - lower as i128 - upper as i128
}

/// By how many rows the pairs of lower and upper rows of a column exceed these rows.
pub(crate) fn excess_of(z: usize, rows: &[Row]) -> i128
    ensures { result ≡ excess (length (lows z rows.now)) (length (highs z rows.now)) }
{
    let _count = rows.len();
    excess(lower_rows(z, rows), upper_rows(z, rows))
}

/// Whether a number is less than another, where none is greater than any.
pub(crate) fn less(first: &Option<i128>, second: &Option<i128>) -> bool
    ensures { result ≡ less first.now second.now }
{
    match (first, second) {
        (None, _) => false,
        (Some(_), None) => true,
        (Some(x), Some(y)) => *x < *y,
    }
}

/// Whether a rule looks at a column.
fn passes(rule: Rule, rows: &[Row], z: usize) -> bool
    ensures { result ≡ passes rule rows.now z }
{
    match rule {
        Rule::Divided => has_divisibility(z, rows),
        Rule::OneSided => is_present(z, rows) && is_one_sided(z, rows),
        Rule::UnitPairs => !is_one_sided(z, rows) && are_unit_pairs(z, rows),
        Rule::TwoSided => !is_one_sided(z, rows),
    }
}

/// The number of a column of which a rule takes the least.
fn key(rule: Rule, rows: &[Row], z: usize) -> Option<i128>
    requires { HaveModuli rows.now }
    ensures { result ≡ key rule rows.now z }
{
    match rule {
        Rule::Divided => common_modulus(z, rows),
        Rule::OneSided => Some(0),
        Rule::UnitPairs | Rule::TwoSided => Some(excess_of(z, rows)),
    }
}

/// Whether a column comes before another by a rule.
fn precedes(rule: Rule, rows: &[Row], z: usize, y: usize) -> bool
    requires { HaveModuli rows.now }
    ensures { result ≡ precedes (key rule rows.now) z y }
{
    let first = key(rule, rows, z);
    let second = key(rule, rows, y);
    less(&first, &second) || (!less(&second, &first) && z < y)
}

/// The better of the best column so far and one more.
fn better(rule: Rule, rows: &[Row], best: Option<usize>, z: usize) -> Option<usize>
    requires { HaveModuli rows.now }
    ensures { result ≡ better (precedes (key rule rows.now)) best z }
{
    match best {
        None => Some(z),
        Some(y) => {
            if precedes(rule, rows, z, y) {
                Some(z)
            } else {
                Some(y)
            }
        }
    }
}

/// The first column by a rule.
pub(crate) fn by_rule(rule: Rule, vars: &[usize], rows: &[Row]) -> Option<usize>
    requires { HaveModuli rows.now }
    ensures { result ≡ by_rule rule vars.now rows.now }
{
    let mut best = None;
    for z in vars {
        if passes(rule, rows, *z) {
            best = better(rule, rows, best, *z);
        }
    }
    best
}

/// Whether a column of a form comes before another: by the sizes of their coefficients, then by their places.
fn is_smaller(form: &Form, z: usize, y: usize) -> bool
    ensures { result ≡ precedes (size_key form.now) z y }
{
    let first = form.coef(z).unsigned_abs();
    let second = form.coef(y).unsigned_abs();
    first < second || (first == second && z < y)
}

/// The better of the best column of a form so far and one more.
fn smaller(form: &Form, best: Option<usize>, z: usize) -> Option<usize>
    ensures { result ≡ better (precedes (size_key form.now)) best z }
{
    match best {
        None => Some(z),
        Some(y) => {
            if is_smaller(form, z, y) {
                Some(z)
            } else {
                Some(y)
            }
        }
    }
}

/// The column of a form with the least coefficient other than 0, by absolute values.
fn smallest(form: &Form, vars: &[usize]) -> Option<usize>
    ensures { result ≡ least_by (precedes (size_key form.now)) (filter (λ z. has_column z (Row.Eq form.now)) vars.now) }
{
    let mut best = None;
    for z in vars {
        if form.coef(*z) != 0 {
            best = smaller(form, best, *z);
        }
    }
    best
}

/// What an equality decides.
fn by_row(vars: &[usize], row: &Row) -> Option<usize>
    ensures { result ≡ by_equality vars.now (row.now ∷ []) }
{
    match row {
        Row::Eq(form) => smallest(form, vars),
        Row::Div(_, _) | Row::Ge(_) => None,
    }
}

/// The column that the first equality with one of the columns decides.
pub(crate) fn by_equality(vars: &[usize], rows: &[Row]) -> Option<usize>
    ensures { result ≡ by_equality vars.now rows.now }
{
    for row in rows {
        if let Some(z) = by_row(vars, row) {
            return Some(z);
        }
    }
    None
}

/// Of the columns that rows bound from both sides the one that a strategy takes where none has a coefficient 1 or -1 in each of
/// its pairs: by the rows that its pairs are more than its bounds, and by the fewest splinters first where these are economical.
fn by_splinters(
    alloc: Global,
    strategy: Strategy,
    vars: &[usize],
    rows: &[Row],
) -> Result<Option<usize>, AllocError>
    requires { HaveModuli rows.now }
    ensures { IfOk result (λ z. z ≡ by_splinters strategy vars.now rows.now) }
{
    match strategy {
        Strategy::Full => Ok(by_rule(Rule::TwoSided, vars, rows)),
        Strategy::Economical => fewest(alloc, vars, rows),
    }
}

/// The next of these columns; none exactly where no row has one of them.
///
/// The first rule that gives a column decides, and of equal columns the least one goes first: an equality, by its least
/// coefficient; the least common modulus of divisibilities; rows from one side only; pairs of a lower and an upper row
/// that have a coefficient 1 or -1 each, by the rows that the pairs are more than the rows; and then any, by the same, or by
/// the fewest splinters first where these are economical.
#[tactic(auto, unfolding(crate::specs::ColumnChoice::next_column))]
pub(crate) fn next_column(
    alloc: Global,
    strategy: Strategy,
    vars: &[usize],
    rows: &[Row],
) -> Result<Option<usize>, AllocError>
    requires { HaveModuli rows.now }
    ensures { IfOk result (λ z. z ≡ next_column strategy vars.now rows.now) }
{
    if let Some(z) = by_equality(vars, rows) {
        return Ok(Some(z));
    }
    if let Some(z) = by_rule(Rule::Divided, vars, rows) {
        return Ok(Some(z));
    }
    if let Some(z) = by_rule(Rule::OneSided, vars, rows) {
        return Ok(Some(z));
    }
    if let Some(z) = by_rule(Rule::UnitPairs, vars, rows) {
        return Ok(Some(z));
    }
    by_splinters(alloc, strategy, vars, rows)
}
