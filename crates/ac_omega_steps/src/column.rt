ghost use Rattle.std.specs.Prelude.{◌≡◌, [], ◌∷◌, ◌++◌, true, not, cond, Some, None, IfOk};
ghost use Rattle.ac_omega_steps.specs.Bounds.{without, is_low, is_high, lows, highs, rows_without, only_bounds, is_none, is_one_sided};
ghost use Rattle.ac_forms.specs.RowColumns.{has_column};
ghost use Rattle.ac_omega_steps.specs.ChoiceFits.{sizes_fit};

use ac_base::Items;
use ac_forms::{Form, Row, has_column};
use std::alloc::{AllocError, Global};

/// A bound of one column: `size z + rest >= 0` from below, or `rest - size z >= 0` from above, with a positive size.
#[derive(Drop)]
pub struct Bound {
    /// The absolute value of the column's coefficient.
    pub size: i128,
    /// The form without the column.
    pub rest: Form,
}

/// Whether the form of a `Ge` row bounds the column from below.
#[tactic(auto, using(ac_base::proofs::Bits::again_128))]
pub(crate) fn is_low(z: usize, form: &Form) -> bool
    ensures { result ≡ is_low z form.now }
{
    form.coef(z) > 0
}

/// Whether it bounds the column from above.
#[tactic(auto, using(ac_base::proofs::Bits::again_128))]
pub(crate) fn is_high(z: usize, form: &Form) -> bool
    ensures { result ≡ is_high z form.now }
{
    form.coef(z) < 0
}

/// The form without the column.
#[tactic(auto, using(ac_base::proofs::Bits::again_128))]
pub(crate) fn without(alloc: Global, z: usize, form: &Form) -> Result<Form, AllocError>
    ensures { IfOk result (λ made. made ≡ without z form.now) }
{
    form.with_numbers(alloc, z, &0, &form.konst())
}

/// Adds the bound of a lower row.
#[tactic(auto, using(ac_base::proofs::Bits::again_128))]
fn keep_low(alloc: Global, z: usize, row: &Row, kept: &mut Items<Bound>) -> Result<(), AllocError>
    ensures { IfOk result (λ _. kept.new ≡ kept.old ++ lows z (row.now ∷ [])) }
{
    let Row::Ge(form) = row else {
        return Ok(());
    };
    if !is_low(z, form) {
        return Ok(());
    }
    let rest = without(alloc, z, form)?;
    kept.push(Bound {
        size: form.coef(z),
        rest,
    })
}

/// The lower rows of the column, in order.
pub(crate) fn lows(alloc: Global, z: usize, rows: &[Row]) -> Result<Items<Bound>, AllocError>
    ensures { IfOk result (λ made. made ≡ lows z rows.now) }
{
    let mut made = Items::new(alloc);
    for row in rows {
        keep_low(alloc, z, row, &mut made)?;
    }
    Ok(made)
}

/// Adds the bound of an upper row, if its size is a number of `i128`.
#[tactic(auto, using(ac_base::proofs::Bits::again_128, crate::proofs::Fitting::fits_true, crate::proofs::Fitting::fits_false))]
fn keep_high(
    alloc: Global,
    z: usize,
    row: &Row,
    kept: &mut Items<Bound>,
) -> Result<bool, AllocError>
    ensures fits { IfOk result (λ fits. fits ≡ sizes_fit (highs z (row.now ∷ []))) }
    ensures kept { IfOk result (λ fits. fits ≡ true → kept.new ≡ kept.old ++ highs z (row.now ∷ [])) }
{
    let Row::Ge(form) = row else {
        return Ok(true);
    };
    if !is_high(z, form) {
        return Ok(true);
    }
    let Some(size) = form.coef(z).checked_neg() else {
        return Ok(false);
    };
    let rest = without(alloc, z, form)?;
    kept.push(Bound { size, rest })?;
    Ok(true)
}

/// The upper rows of the column, in order, if their sizes are numbers of `i128`.
pub(crate) fn highs(
    alloc: Global,
    z: usize,
    rows: &[Row],
) -> Result<Option<Items<Bound>>, AllocError>
    ensures { IfOk result (λ made. made ≡ cond (sizes_fit (highs z rows.now)) (Some (highs z rows.now)) None) }
{
    let mut made = Items::new(alloc);
    for row in rows {
        if !keep_high(alloc, z, row, &mut made)? {
            return Ok(None);
        }
    }
    Ok(Some(made))
}

/// Adds a copy of a row without the column.
fn keep_free(alloc: Global, z: usize, row: &Row, kept: &mut Items<Row>) -> Result<(), AllocError>
    ensures { IfOk result (λ _. kept.new ≡ kept.old ++ rows_without z (row.now ∷ [])) }
{
    if has_column(z, row) {
        return Ok(());
    }
    kept.push(row.copy(alloc)?)
}

/// The rows without the column.
pub(crate) fn rows_without(alloc: Global, z: usize, rows: &[Row]) -> Result<Items<Row>, AllocError>
    ensures { IfOk result (λ made. made ≡ rows_without z rows.now) }
{
    let mut made = Items::from(Vec::with_capacity(alloc, rows.len())?);
    for row in rows {
        keep_free(alloc, z, row, &mut made)?;
    }
    Ok(made)
}

/// Whether a row is a `Ge` row or doesn't have the column.
fn is_bound(z: usize, row: &Row) -> bool
    ensures { result ≡ only_bounds z (row.now ∷ []) }
{
    match row {
        Row::Ge(_) => true,
        Row::Eq(_) | Row::Div(_, _) => !has_column(z, row),
    }
}

/// Whether only `Ge` rows have the column.
pub(crate) fn only_bounds(z: usize, rows: &[Row]) -> bool
    ensures { result ≡ only_bounds z rows.now }
{
    for row in rows {
        if !is_bound(z, row) {
            return false;
        }
    }
    true
}

/// Whether a row is an upper one of the column.
fn is_upper(z: usize, row: &Row) -> bool
    ensures { result ≡ not (is_none (highs z (row.now ∷ []))) }
{
    match row {
        Row::Ge(form) => is_high(z, form),
        Row::Eq(_) | Row::Div(_, _) => false,
    }
}

/// Whether a row is a lower one of the column.
fn is_lower(z: usize, row: &Row) -> bool
    ensures { result ≡ not (is_none (lows z (row.now ∷ []))) }
{
    match row {
        Row::Ge(form) => is_low(z, form),
        Row::Eq(_) | Row::Div(_, _) => false,
    }
}

/// Whether the column has no lower row.
fn lacks_lows(z: usize, rows: &[Row]) -> bool
    ensures { result ≡ is_none (lows z rows.now) }
{
    for row in rows {
        if is_lower(z, row) {
            return false;
        }
    }
    true
}

/// Whether the column has no upper row.
fn lacks_highs(z: usize, rows: &[Row]) -> bool
    ensures { result ≡ is_none (highs z rows.now) }
{
    for row in rows {
        if is_upper(z, row) {
            return false;
        }
    }
    true
}

/// Whether the rows bound the column from one side only, or not at all.
pub(crate) fn is_one_sided(z: usize, rows: &[Row]) -> bool
    ensures { result ≡ is_one_sided z rows.now }
{
    lacks_lows(z, rows) || lacks_highs(z, rows)
}
