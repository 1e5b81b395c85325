//! The rows of claims.
ghost use Rattle.std.specs.Prelude.{◌≡◌, ◌++◌, map, IfOk};
ghost use Rattle.ac_forms.specs.NormalForm.{absurd_rows};
ghost use Rattle.ac_forms.specs.declared.row.Row.TheVariants.{Eq};
ghost use Rattle.ac_hull.specs.Hulls.{equalities_of};
ghost use Rattle.ac_widen.specs.Walks.{rows_with};

use ac_base::Items;
use ac_forms::{Form, Row};
use ac_hull::Hull;
use std::alloc::{AllocError, Global};

/// The row `-1 >= 0`, which holds at no point.
fn absurd_rows(alloc: Global) -> Result<Items<Row>, AllocError>
    ensures { IfOk result (λ rows. rows ≡ absurd_rows) }
{
    let mut rows = Items::new(alloc);
    rows.push(Row::Ge(Form::constant(alloc, 0, -1)?))?;
    Ok(rows)
}

/// Equalities as rows.
fn equality_rows(alloc: Global, equalities: &[Form]) -> Result<Items<Row>, AllocError>
    ensures { IfOk result (λ rows. rows ≡ map Eq equalities.now) }
{
    let mut rows = Items::new(alloc);
    for form in equalities {
        rows.push(Row::Eq(form.copy(alloc)?))?;
    }
    Ok(rows)
}

/// Equalities as rows, and further rows behind them.
fn joined_rows(alloc: Global, equalities: &[Form], more: &[Row]) -> Result<Items<Row>, AllocError>
    ensures { IfOk result (λ rows. rows ≡ map Eq equalities.now ++ more.now) }
{
    let mut rows = equality_rows(alloc, equalities)?;
    for row in more {
        rows.push(row.copy(alloc)?)?;
    }
    Ok(rows)
}

/// The rows of the claim of members with that hull: the one that no point meets where there are none; else the equalities of the hull,
/// and further rows.
pub(crate) fn rows_of(alloc: Global, hull: &Hull, more: &[Row]) -> Result<Items<Row>, AllocError>
    ensures { IfOk result (λ rows. rows ≡ rows_with hull.now.members (map Eq (equalities_of hull.now.columns hull.now.members) ++ more.now)) }
{
    if hull.is_empty() {
        return absurd_rows(alloc);
    }
    joined_rows(alloc, hull.equalities(), more)
}
