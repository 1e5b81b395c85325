//! Statements in whose values each chain is one call.
ghost use Rattle.std.specs.Prelude.{◌≡◌, IfOk, sum_by};
ghost use Rattle.ac_syntax.specs.Trace.{assignments};
ghost use Rattle.ac_assoc_law.specs.ArrangedPairs.{arranged, arranged_stmt, arranged_all};
ghost use Rattle.ac_syntax.specs.declared.tree.Stmt.TheVariants.{For, Assign};
ghost use Rattle.ac_assoc.specs.ChosenOrders.{number_at};

use crate::copies::copy_cond;
use crate::values::{Arrangement, arrange_value};
use ac_base::Items;
use ac_syntax::copy::{copy_index_expr, copy_index_exprs};
use ac_syntax::count;
use ac_syntax::name::Name;
use ac_syntax::tree::{Cond, IndexExpr, Place, Stmt, Value};
use std::alloc::{AllocError, Global};

/// How many assignments stand in a statement.
pub(crate) fn assignments(stmt: &Stmt) -> Result<usize, AllocError>
    ensures { IfOk result (λ count. count ≡ assignments stmt.now) }
{
    match count::assignments(stmt) {
        None => Err(AllocError),
        Some(count) => usize::try_from(count).map_err(|_wide| AllocError),
    }
}

/// How many stand in all of them.
pub(crate) fn assignments_in(stmts: &[Stmt]) -> Result<usize, AllocError>
    ensures { IfOk result (λ count. count ≡ sum_by assignments stmts.now) }
{
    match count::assignments_in(stmts) {
        None => Err(AllocError),
        Some(count) => usize::try_from(count).map_err(|_wide| AllocError),
    }
}

/// The loop with this body.
fn loop_with(
    alloc: Global,
    iter: &Name,
    start: &IndexExpr,
    cond: &Cond,
    step: &i64,
    body: Items<Stmt>,
    place: Place,
) -> Result<Stmt, AllocError>
    ensures { IfOk result (λ made. made ≡ For iter.now start.now cond.now step.now body place) }
{
    Ok(Stmt::For {
        iter: iter.copy(alloc)?,
        start: copy_index_expr(alloc, start)?,
        cond: copy_cond(alloc, cond)?,
        step: *step,
        body,
        place,
    })
}

/// The assignment with each chain as one call.
fn arrange_assign(
    alloc: Global,
    by: Arrangement<'_>,
    array: usize,
    subs: &[IndexExpr],
    value: &Value,
    place: Place,
) -> Result<Stmt, AllocError>
    ensures { IfOk result (λ made. made ≡ Assign array subs.now (arranged by.entry.names.now (number_at by.entry.orders.now by.entry.stmt) 0 value.now) place) }
{
    Ok(Stmt::Assign {
        array,
        subs: copy_index_exprs(alloc, subs)?,
        value: arrange_value(alloc, by, 0, value)?,
        place,
    })
}

/// The statement with each chain as one call. The assignment of `by` is its first one.
#[cycle(statements)]
#[tactic(auto, using(crate::proofs::Stating::stmt_steps))]
fn arrange_stmt(alloc: Global, by: Arrangement<'_>, stmt: &Stmt) -> Result<Stmt, AllocError>
    ensures { IfOk result (λ made. made ≡ arranged_stmt by.entry.names.now (number_at by.entry.orders.now) by.entry.stmt stmt.now) }
{
    match stmt {
        Stmt::For {
            iter,
            start,
            cond,
            step,
            body,
            place,
        } => {
            let body = arrange_stmts(alloc, by, body.as_slice())?;
            loop_with(alloc, iter, start, cond, step, body, *place)
        }
        Stmt::If {
            cond,
            taken,
            other,
            place,
        } => {
            let count = assignments_in(taken.as_slice())?;
            let next = by.stmt.checked_add(count).ok_or(AllocError)?;
            Ok(Stmt::If {
                cond: copy_cond(alloc, cond)?,
                taken: arrange_stmts(alloc, by, taken.as_slice())?,
                other: arrange_stmts(alloc, by.from(next), other.as_slice())?,
                place: *place,
            })
        }
        Stmt::Assign {
            array,
            subs,
            value,
            place,
        } => arrange_assign(alloc, by, *array, subs.as_slice(), value, *place),
    }
}

/// The same of statements one after another.
#[cycle(statements)]
pub(crate) fn arrange_stmts(
    alloc: Global,
    by: Arrangement<'_>,
    stmts: &[Stmt],
) -> Result<Items<Stmt>, AllocError>
    ensures { IfOk result (λ made. made ≡ arranged_all by.entry.names.now (number_at by.entry.orders.now) by.entry.stmt stmts.now) }
{
    let mut made = Items::new(alloc);
    let mut at = by.stmt;
    for stmt in stmts {
        made.push(arrange_stmt(alloc, by.from(at), stmt)?)?;
        at = at.checked_add(assignments(stmt)?).ok_or(AllocError)?;
    }
    Ok(made)
}
