//! From the order in which columns come to their last places.
ghost use Rattle.std.specs.Prelude.{◌≡◌, ◌+◌, ◌++◌, ◌∷◌, [], ◌+ℤ◌, ◌-ℤ◌, neg_ℤ, negsuc, pos, map, IfOk};
ghost use Rattle.std.specs.List.{range_with_len};
ghost use Rattle.ac_forms.specs.Affine.{CanAddTimes, CanCombine, combined, column_form};
ghost use Rattle.ac_forms.specs.Fits.{Fits};
ghost use Rattle.ac_forms.specs.FormStops.{MadeIff, MadeWhere};
ghost use Rattle.ac_forms.specs.Renaming.{AreDistinct, renamed, renamed_row};
ghost use Rattle.ac_forms.specs.declared.row.Row.TheVariants.{Ge};
ghost use Rattle.ac_poly_quotients.specs.FilledColumns.{counters};
ghost use Rattle.ac_poly_quotients.specs.LastColumns.{final_columns, places, moved_quotient, finals};
ghost use Rattle.ac_poly_quotients.specs.LastRange.{CanTellOne, CanTell};
ghost use Rattle.ac_poly_quotients.specs.QuotientRows.{rest_form, spare_form, quotient_rows};

use crate::copy::joined;
use crate::sums::column;
use crate::types::{Column, Rounded, Scope};
use ac_base::Items;
use ac_forms::laws::renaming_to_distinct_columns;
use ac_forms::{Form, FormStop, Row};
use std::alloc::{AllocError, Global};

/// How many columns are counters.
#[tactic(auto, using(crate::proofs::LastSteps::count_steps))]
fn counters(columns: &[Column]) -> Result<usize, AllocError>
    ensures { IfOk result (λ count. count ≡ counters columns.now) }
{
    let mut count = 0usize;
    for column in columns {
        match column {
            Column::Counter => count = count.checked_add(1).ok_or(AllocError)?,
            Column::Quotient(_) => {}
        }
    }
    Ok(count)
}

/// The first column of quotients among the last places: behind the parameters and all counters.
pub fn first_quotient(scope: &Scope) -> Result<usize, AllocError>
    ensures { IfOk result (λ k. k ≡ scope.now.params + counters scope.now.columns) }
{
    let depth = counters(scope.columns.as_slice())?;
    scope.params.checked_add(depth).ok_or(AllocError)
}

/// The last places of the parameters and columns of a scope: all counters stand behind the parameters, and all quotients behind
/// the counters. No place stands twice.
#[tactic(auto, using(crate::proofs::LastSteps::places_distinct))]
pub fn places(alloc: Global, scope: &Scope) -> Result<Items<usize>, AllocError>
    ensures value { IfOk result (λ made. made ≡ places scope.now) }
    ensures distinct { IfOk result (λ made. AreDistinct made) }
{
    let columns = scope.columns.as_slice();
    final_columns(alloc, scope.params, counters(columns)?, columns)
}

/// The last place of each parameter and column, where there are `depth` counters.
#[tactic(auto, using(crate::proofs::LastSteps::last_steps))]
fn final_columns(
    alloc: Global,
    params: usize,
    depth: usize,
    columns: &[Column],
) -> Result<Items<usize>, AllocError>
    ensures { IfOk result (λ made. made ≡ final_columns params depth columns.now) }
{
    let mut made = first_columns(alloc, params)?;
    let mut counter = params;
    let mut quotient = params.checked_add(depth).ok_or(AllocError)?;
    for column in columns {
        match column {
            Column::Counter => {
                made.push(counter)?;
                counter = counter.checked_add(1).ok_or(AllocError)?;
            }
            Column::Quotient(_) => {
                made.push(quotient)?;
                quotient = quotient.checked_add(1).ok_or(AllocError)?;
            }
        }
    }
    Ok(made)
}

/// The columns of the parameters.
#[tactic(auto, using(crate::proofs::LastSteps::first_steps))]
fn first_columns(alloc: Global, params: usize) -> Result<Items<usize>, AllocError>
    ensures { IfOk result (λ made. made ≡ range_with_len 0 params) }
{
    let mut made = Items::new(alloc);
    for k in 0..params {
        made.push(k)?;
    }
    Ok(made)
}

/// A form among other columns, of which none stands twice.
pub fn moved_form(alloc: Global, ks: &[usize], form: &Form) -> Result<Form, AllocError>
    requires { AreDistinct ks.now }
    ensures { IfOk result (λ made. made ≡ renamed ks.now form.now) }
{
    renaming_to_distinct_columns(form, ks);
    match form.renamed(alloc, ks) {
        Ok(made) => Ok(made),
        Err(FormStop::Wide) => unreachable!(),
        Err(FormStop::Memory(want)) => Err(want),
    }
}

/// A quotient among the columns `ks`.
fn moved_quotient(alloc: Global, ks: &[usize], quotient: &Rounded) -> Result<Rounded, AllocError>
    requires { AreDistinct ks.now }
    ensures { IfOk result (λ made. made ≡ moved_quotient ks.now quotient.now) }
{
    let form = moved_form(alloc, ks, &quotient.form)?;
    let div = quotient.div;
    Ok(Rounded { form, div })
}

/// The quotients of columns, among the columns `ks`.
#[tactic(auto, using(crate::proofs::LastSteps::final_steps))]
pub fn finals(alloc: Global, ks: &[usize], columns: &[Column]) -> Result<Items<Rounded>, AllocError>
    requires { AreDistinct ks.now }
    ensures { IfOk result (λ made. made ≡ finals ks.now columns.now) }
{
    let mut made = Items::new(alloc);
    for column in columns {
        match column {
            Column::Counter => {}
            Column::Quotient(quotient) => made.push(moved_quotient(alloc, ks, quotient)?)?,
        }
    }
    Ok(made)
}

/// What the division leaves, where the quotient stands in column `k`.
#[tactic(auto, using(crate::proofs::Widening::read_back))]
fn rest_form(alloc: Global, k: usize, quotient: &Rounded, own: &Form) -> Result<Form, FormStop>
    requires { own.now ≡ column_form (k + 1) k }
    ensures { MadeIff result (CanAddTimes quotient.now.form (neg_ℤ quotient.now.div) (column_form (k + 1) k)) (rest_form k quotient.now) }
{
    quotient.form.add_times(alloc, -(quotient.div as i128), own)
}

/// How far that is below the divisor, less 1.
#[tactic(auto, using(crate::proofs::Widening::read_back))]
fn spare_form(alloc: Global, k: usize, quotient: &Rounded, own: &Form) -> Result<Form, FormStop>
    requires { own.now ≡ column_form (k + 1) k }
    ensures { MadeIff result (CanCombine quotient.now.div (column_form (k + 1) k) (negsuc 0) quotient.now.form × Fits ((combined quotient.now.div (column_form (k + 1) k) (negsuc 0) quotient.now.form).konst +ℤ (quotient.now.div -ℤ pos 1))) (spare_form k quotient.now) }
{
    let times = own.combine(alloc, quotient.div as i128, &quotient.form, -1)?;
    times.shift(alloc, quotient.div as i128 - 1)
}

/// Adds the two rows of the quotient that stands in column `k`.
fn push_rows(
    alloc: Global,
    made: &mut Items<Row>,
    k: usize,
    quotient: &Rounded,
) -> Result<(), FormStop>
    ensures { MadeWhere result (CanTellOne k quotient.now) (λ _. made.new ≡ made.old ++ Ge (rest_form k quotient.now) ∷ (Ge (spare_form k quotient.now) ∷ [])) }
{
    let own = column(alloc, k)?;
    let rest = rest_form(alloc, k, quotient, &own)?;
    let spare = spare_form(alloc, k, quotient, &own)?;
    made.push(Row::Ge(rest))?;
    made.push(Row::Ge(spare))?;
    Ok(())
}

/// The rows of quotients that stand from column `first` on.
#[tactic(auto, using(crate::proofs::LastSteps::tell_steps))]
pub fn quotient_rows(alloc: Global, first: usize, quots: &[Rounded]) -> Result<Items<Row>, FormStop>
    ensures { MadeWhere result (CanTell first quots.now) (λ made. made ≡ quotient_rows first quots.now) }
{
    let mut made = Items::new(alloc);
    let mut k = first;
    for quotient in quots {
        push_rows(alloc, &mut made, k, quotient)?;
        k = k.checked_add(1).ok_or(AllocError)?;
    }
    Ok(made)
}

/// A row among the columns `ks`.
fn moved_row(alloc: Global, ks: &[usize], row: &Row) -> Result<Row, AllocError>
    requires { AreDistinct ks.now }
    ensures { IfOk result (λ made. made ≡ renamed_row ks.now row.now) }
{
    renaming_to_distinct_columns(row.form(), ks);
    match row.renamed(alloc, ks) {
        Ok(made) => Ok(made),
        Err(FormStop::Wide) => unreachable!(),
        Err(FormStop::Memory(want)) => Err(want),
    }
}

/// The rows among the columns `ks`.
pub fn moved_rows(alloc: Global, ks: &[usize], rows: &[Row]) -> Result<Items<Row>, AllocError>
    requires { AreDistinct ks.now }
    ensures { IfOk result (λ made. made ≡ map (renamed_row ks.now) rows.now) }
{
    let mut made = Items::new(alloc);
    for row in rows {
        made.push(moved_row(alloc, ks, row)?)?;
    }
    Ok(made)
}

/// The pieces among the columns `ks`, each with further rows.
pub fn placed_pieces(
    alloc: Global,
    ks: &[usize],
    rows: &[Row],
    pieces: &[Items<Row>],
) -> Result<Items<Items<Row>>, AllocError>
    requires { AreDistinct ks.now }
    ensures { IfOk result (λ made. made ≡ map (λ q. map (renamed_row ks.now) q ++ rows.now) pieces.now) }
{
    let mut made = Items::new(alloc);
    for piece in pieces {
        let moved = moved_rows(alloc, ks, piece.as_slice())?;
        made.push(joined(alloc, moved.as_slice(), rows)?)?;
    }
    Ok(made)
}
