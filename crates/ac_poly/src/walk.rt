//! From statements to the models of their assignments.
ghost use Rattle.std.specs.Prelude.{◌≤◌, length, IfOk};
ghost use Rattle.ac_syntax.specs.ReadyPrograms.{Ready, ReadyAll};
ghost use Rattle.ac_poly_quotients.specs.QuotientScopes.{where_holds, where_fails};
ghost use Rattle.ac_poly_quotients.specs.ScopeRange.{CanHold, CanFail};
ghost use Rattle.ac_poly.specs.LoweringSteps.{Lowers, LowersAll, LowersWithin};

use crate::enter::assigned;
use crate::first_fault::seek_all;
use crate::types::{LowerFault, StmtModel};
use crate::ways::other_pieces;
use ac_base::Items;
use ac_forms::FormStop;
use ac_poly_quotients::Scope;
use ac_poly_quotients::scopes::{in_loop, where_fails, where_holds};
use ac_syntax::tree::{Cond, Stmt};
use std::alloc::{AllocError, Global};

/// Adds the assignments of a statement, whose loops are numbered from `number` on, and gives the number after them.
#[cycle(lowering)]
pub(crate) fn lower_one(
    alloc: Global,
    s: &Stmt,
    number: usize,
    scope: &Scope,
    out: &mut Items<StmtModel>,
) -> Result<usize, LowerFault>
    requires ready { Ready scope.now.params (length scope.now.iters) s.now }
    requires few { length scope.now.pieces ≤ 16 }
    ensures { Lowers result s.now number scope.now (Unit {0}) out.old out.new }
{
    match s {
        Stmt::For {
            start,
            cond,
            step,
            body,
            ..
        } => {
            let next = number.checked_add(1).ok_or(AllocError)?;
            let inner = in_loop(alloc, scope, number, start, cond, *step);
            lower_within(alloc, inner, body.as_slice(), next, scope.pieces.len(), out)
        }
        Stmt::If {
            cond,
            taken,
            other,
            ..
        } => {
            let next = lower_taken(alloc, cond, taken.as_slice(), number, scope, out)?;
            lower_other(alloc, cond, other.as_slice(), next, scope, out)
        }
        Stmt::Assign {
            array,
            subs,
            value,
            place,
        } => match assigned(alloc, scope, *array, subs.as_slice(), value) {
            Ok(made) => {
                out.push(made)?;
                Ok(number)
            }
            Err(FormStop::Wide) => Err(LowerFault::Wide(*place)),
            Err(FormStop::Memory(want)) => Err(LowerFault::Memory(want)),
        },
    }
}

/// Adds the assignments of statements within a scope. Where a number of the scope leaves `i128`, the first of them is the
/// fault, with so many pieces around them.
#[cycle(lowering)]
fn lower_within(
    alloc: Global,
    inner: Result<Scope, FormStop>,
    body: &[Stmt],
    number: usize,
    pieces: usize,
    out: &mut Items<StmtModel>,
) -> Result<usize, LowerFault>
    requires ready { IfOk inner (λ made. ReadyAll made.params (length made.iters) body.now) }
    requires few { IfOk inner (λ made. length made.pieces ≤ 16) }
    ensures { LowersWithin inner result body.now number pieces out.old out.new }
{
    match inner {
        Ok(made) => lower_all(alloc, body, number, &made, out),
        Err(FormStop::Wide) => seek_all(body, number, pieces),
        Err(FormStop::Memory(want)) => Err(LowerFault::Memory(want)),
    }
}

/// Adds the assignments of the taken side of a branch.
#[cycle(lowering)]
fn lower_taken(
    alloc: Global,
    cond: &Cond,
    body: &[Stmt],
    number: usize,
    scope: &Scope,
    out: &mut Items<StmtModel>,
) -> Result<usize, LowerFault>
    requires body { ReadyAll scope.now.params (length scope.now.iters) body.now }
    requires few { length scope.now.pieces ≤ 16 }
    ensures { LowersAll result body.now number (where_holds scope.now cond.now) (CanHold scope.now cond.now) out.old out.new }
{
    let inner = where_holds(alloc, scope, cond);
    lower_within(alloc, inner, body, number, scope.pieces.len(), out)
}

/// Adds the assignments of the other side of a branch.
#[cycle(lowering)]
fn lower_other(
    alloc: Global,
    cond: &Cond,
    body: &[Stmt],
    number: usize,
    scope: &Scope,
    out: &mut Items<StmtModel>,
) -> Result<usize, LowerFault>
    requires body { ReadyAll scope.now.params (length scope.now.iters) body.now }
    requires few { length scope.now.pieces ≤ 16 }
    ensures { LowersAll result body.now number (where_fails scope.now cond.now) (CanFail scope.now cond.now) out.old out.new }
{
    let pieces = other_pieces(scope, cond)?;
    if pieces > 16 {
        return seek_all(body, number, pieces);
    }
    let inner = where_fails(alloc, scope, cond);
    lower_within(alloc, inner, body, number, pieces, out)
}

/// Adds the assignments of statements, one after another.
#[cycle(lowering)]
#[tactic(auto, using(crate::proofs::Walks::list_steps))]
pub(crate) fn lower_all(
    alloc: Global,
    ss: &[Stmt],
    number: usize,
    scope: &Scope,
    out: &mut Items<StmtModel>,
) -> Result<usize, LowerFault>
    requires ready { ReadyAll scope.now.params (length scope.now.iters) ss.now }
    requires few { length scope.now.pieces ≤ 16 }
    ensures { LowersAll result ss.now number scope.now (Unit {0}) out.old out.new }
{
    let mut next = number;
    for s in ss {
        next = lower_one(alloc, s, next, scope, out)?;
    }
    Ok(next)
}
