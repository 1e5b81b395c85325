//! What is around the statements inside a loop or a branch, with columns for quotients.
ghost use Rattle.std.specs.Prelude.{◌≡◌, ◌+◌, ◌++◌, ◌∷◌, [], map, IfOk, OnOk};
ghost use Rattle.std.specs.List.{AllByRecursion, flat_map};
ghost use Rattle.ac_forms.specs.Affine.{CanAddTimes, column_form};
ghost use Rattle.ac_forms.specs.FormStops.{MadeIff, MadeWhere};
ghost use Rattle.ac_forms.specs.declared.row.Row.TheVariants.{Ge};
ghost use Rattle.ac_poly_quotients.specs.QuotientScopes.{outermost, column_count, with_quot, with_quots, part_quots, rows_of, with_counter, turned, in_loop, where_holds, where_fails};
ghost use Rattle.ac_poly_quotients.specs.ScopeRange.{CanDivide, CanNote, CanRow, CanHold, CanFail, CanTurn, CanEnter};

use crate::copy::{
    copy_columns, copy_forms, copy_named, copy_pieces, joined, with_form, with_rows,
};
use crate::fails::all_failing;
use crate::sums::{among, column, is_named, lowered_in, plus_times};
use crate::types::{Column, QuotColumn, Rounded, Scope};
use crate::ways::{part_quot, rows_of, ways_of};
use ac_base::Items;
use ac_forms::{Form, FormStop, Row};
use ac_syntax::copy::copy_quot;
use ac_syntax::tree::{Comparison, Cond, IndexExpr, Quot, Rel};
use std::alloc::{AllocError, Global};

/// Outside all loops and branches.
pub fn outermost(alloc: Global, params: usize) -> Result<Scope, AllocError>
    ensures { IfOk result (λ made. made ≡ outermost params) }
{
    let mut pieces = Items::new(alloc);
    pieces.push(Items::new(alloc))?;
    Ok(Scope {
        params,
        iters: Items::new(alloc),
        loops: Items::new(alloc),
        columns: Items::new(alloc),
        quots: Items::new(alloc),
        pieces,
    })
}

/// The same scope again.
pub fn copy_scope(alloc: Global, scope: &Scope) -> Result<Scope, AllocError>
    ensures { IfOk result (λ made. made ≡ scope.now) }
{
    Ok(Scope {
        params: scope.params,
        iters: copy_forms(alloc, scope.iters.as_slice())?,
        loops: Items::from_slice(alloc, scope.loops.as_slice())?,
        columns: copy_columns(alloc, scope.columns.as_slice())?,
        quots: copy_named(alloc, scope.quots.as_slice())?,
        pieces: copy_pieces(alloc, scope.pieces.as_slice())?,
    })
}

/// How many columns there are.
fn column_count(scope: &Scope) -> Result<usize, AllocError>
    ensures { IfOk result (λ count. count ≡ column_count scope.now) }
{
    scope
        .params
        .checked_add(scope.columns.len())
        .ok_or(AllocError)
}

/// Adds a column for a quotient, if it has none.
fn add_quot(alloc: Global, scope: &mut Scope, quot: &Quot) -> Result<(), FormStop>
    ensures { MadeWhere result (CanDivide scope.old.iters quot.now) (λ _. scope.new ≡ with_quot scope.old quot.now) }
{
    let params = quot.params.as_slice();
    let iters = quot.iters.as_slice();
    let form = among(alloc, scope.iters.as_slice(), quot.konst, params, iters)?;
    if !is_named(scope.quots.as_slice(), quot) {
        let column = column_count(scope)?;
        let div = quot.div;
        scope.columns.push(Column::Quotient(Rounded { form, div }))?;
        let quot = copy_quot(alloc, quot)?;
        scope.quots.push(QuotColumn { quot, column })?;
    }
    Ok(())
}

/// Adds columns for quotients, in order.
#[tactic(auto, using(crate::proofs::Making::noted_steps))]
fn add_quots(alloc: Global, scope: &mut Scope, quots: &[Quot]) -> Result<(), FormStop>
    ensures { MadeWhere result (CanNote scope.old.iters quots.now) (λ _. scope.new ≡ with_quots scope.old quots.now) }
{
    for quot in quots {
        add_quot(alloc, scope, quot)?;
    }
    Ok(())
}

/// The scope with columns for quotients: each that has none gets the next, in order.
pub fn with_quots(alloc: Global, scope: &Scope, quots: &[Quot]) -> Result<Scope, FormStop>
    ensures { MadeIff result (CanNote scope.now.iters quots.now) (with_quots scope.now quots.now) }
{
    let mut made = copy_scope(alloc, scope)?;
    add_quots(alloc, &mut made, quots)?;
    Ok(made)
}

/// Adds copies of quotients.
pub(crate) fn push_quots(
    alloc: Global,
    out: &mut Items<Quot>,
    quots: &[Quot],
) -> Result<(), AllocError>
    ensures { OnOk result (out.new ≡ out.old ++ quots.now) }
{
    for quot in quots {
        out.push(copy_quot(alloc, quot)?)?;
    }
    Ok(())
}

/// Adds the quotients of a comparison, and then the one that it tests.
fn push_part(alloc: Global, out: &mut Items<Quot>, part: &Comparison) -> Result<(), AllocError>
    ensures { OnOk result (out.new ≡ out.old ++ part_quots part.now) }
{
    push_quots(alloc, out, part.form.quots.as_slice())?;
    match part.rel {
        Rel::NonNegative => {}
        Rel::Zero => {}
        Rel::Divides(divisor) => out.push(part_quot(alloc, &part.form, divisor)?)?,
    }
    Ok(())
}

/// The quotients of a condition, in order.
#[tactic(auto, using(crate::proofs::Making::gathered_steps))]
fn quots_of(alloc: Global, parts: &[Comparison]) -> Result<Items<Quot>, AllocError>
    ensures { IfOk result (λ made. made ≡ flat_map part_quots parts.now) }
{
    let mut made = Items::new(alloc);
    for part in parts {
        push_part(alloc, &mut made, part)?;
    }
    Ok(made)
}

/// Adds columns for the quotients of a condition.
fn add_parts(alloc: Global, scope: &mut Scope, parts: &[Comparison]) -> Result<(), FormStop>
    ensures { MadeWhere result (CanNote scope.old.iters (flat_map part_quots parts.now)) (λ _. scope.new ≡ with_quots scope.old (flat_map part_quots parts.now)) }
{
    let quots = quots_of(alloc, parts)?;
    add_quots(alloc, scope, quots.as_slice())
}

/// Adds the column of a loop's counter.
fn add_counter(
    alloc: Global,
    scope: &mut Scope,
    number: usize,
    start: &Form,
    step: i64,
) -> Result<(), FormStop>
    ensures { MadeWhere result (CanAddTimes start.now step (column_form (column_count scope.old + 1) (column_count scope.old))) (λ _. scope.new ≡ with_counter scope.old number start.now step) }
{
    let counter = column(alloc, column_count(scope)?)?;
    scope.iters.push(plus_times(alloc, start, step, &counter)?)?;
    scope.loops.push(number)?;
    scope.columns.push(Column::Counter)?;
    Ok(())
}

/// The rows that a loop adds, whose counter stands in the column `k`: it is not negative, and the condition holds among the
/// iterators of turn 0 and among those of the scope.
fn loop_rows(
    alloc: Global,
    scope: &Scope,
    k: usize,
    first: &[Form],
    parts: &[Comparison],
) -> Result<Items<Row>, FormStop>
    ensures { MadeWhere result (AllByRecursion (CanRow scope.now first.now) parts.now × AllByRecursion (CanRow scope.now scope.now.iters) parts.now) (λ made. made ≡ Ge (column_form (k + 1) k) ∷ (rows_of scope.now first.now parts.now ++ rows_of scope.now scope.now.iters parts.now)) }
{
    let mut made = Items::new(alloc);
    made.push(Row::Ge(column(alloc, k)?))?;
    let first = rows_of(alloc, scope, first, parts)?;
    let turn = rows_of(alloc, scope, scope.iters.as_slice(), parts)?;
    let both = joined(alloc, first.as_slice(), turn.as_slice())?;
    Ok(joined(alloc, made.as_slice(), both.as_slice())?)
}

/// Inside the loop with this number, whose start has a form among the columns around it.
fn turned(
    alloc: Global,
    around: &Scope,
    number: usize,
    start: &Form,
    cond: &Cond,
    step: i64,
) -> Result<Scope, FormStop>
    ensures { MadeIff result (CanTurn around.now number start.now cond.now step) (turned around.now number start.now cond.now step) }
{
    let parts = cond.parts.as_slice();
    let first = with_form(alloc, around.iters.as_slice(), start.copy(alloc)?)?;
    let k = column_count(around)?;
    let mut made = copy_scope(alloc, around)?;
    add_counter(alloc, &mut made, number, start, step)?;
    add_parts(alloc, &mut made, parts)?;
    let rows = loop_rows(alloc, &made, k, first.as_slice(), parts)?;
    made.pieces = with_rows(alloc, around.pieces.as_slice(), rows.as_slice())?;
    Ok(made)
}

/// Inside the loop with this number.
pub fn in_loop(
    alloc: Global,
    scope: &Scope,
    number: usize,
    start: &IndexExpr,
    cond: &Cond,
    step: i64,
) -> Result<Scope, FormStop>
    ensures { MadeIff result (CanEnter scope.now number start.now cond.now step) (in_loop scope.now number start.now cond.now step) }
{
    let around = with_quots(alloc, scope, start.quots.as_slice())?;
    let form = lowered_in(alloc, &around, around.iters.as_slice(), start)?;
    turned(alloc, &around, number, &form, cond, step)
}

/// Where a condition holds.
pub fn where_holds(alloc: Global, scope: &Scope, cond: &Cond) -> Result<Scope, FormStop>
    ensures { MadeIff result (CanHold scope.now cond.now) (where_holds scope.now cond.now) }
{
    let parts = cond.parts.as_slice();
    let mut made = copy_scope(alloc, scope)?;
    add_parts(alloc, &mut made, parts)?;
    let rows = rows_of(alloc, &made, made.iters.as_slice(), parts)?;
    made.pieces = with_rows(alloc, made.pieces.as_slice(), rows.as_slice())?;
    Ok(made)
}

/// Where it fails.
pub fn where_fails(alloc: Global, scope: &Scope, cond: &Cond) -> Result<Scope, FormStop>
    ensures { MadeIff result (CanFail scope.now cond.now) (where_fails scope.now cond.now) }
{
    let parts = cond.parts.as_slice();
    let mut made = copy_scope(alloc, scope)?;
    add_parts(alloc, &mut made, parts)?;
    let ways = ways_of(alloc, &made, made.iters.as_slice(), parts)?;
    made.pieces = all_failing(alloc, ways.as_slice(), made.pieces.as_slice())?;
    Ok(made)
}
