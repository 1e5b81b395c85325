//! The head of a proof: its point, and the shapes of the programs.
ghost use Rattle.std.specs.Prelude.{◌≡◌, ◌&&◌, length};
ghost use Rattle.ac_forms.specs.Rows.{form_of, IsRowOver, AreRowsOver};
ghost use Rattle.ac_forms.specs.RangeTests.{can_evaluate};
ghost use Rattle.ac_claims.specs.ProofFaults.{row_holds, rows_hold, is_point, has_shape, have_shapes};

use ac_forms::Row;
use ac_poly::types::{Model, StmtModel};

/// Whether a row holds at a point, where its form can be evaluated in `i128`.
#[tactic(auto, using(crate::proofs::HeadSteps::row_steps))]
fn row_holds(row: &Row, point: &[i128]) -> bool
    requires { IsRowOver (length point.now) row.now }
    ensures { result ≡ (can_evaluate (form_of row.now) point.now && row_holds row.now point.now) }
{
    match row.holds_at(point) {
        Ok(holds) => holds,
        Err(_) => false,
    }
}

/// Whether all rows hold at a point.
fn rows_hold(rows: &[Row], point: &[i128]) -> bool
    requires { AreRowsOver (length point.now) rows.now }
    ensures { result ≡ rows_hold rows.now point.now }
{
    for row in rows {
        if !row_holds(row, point) {
            return false;
        }
    }
    true
}

/// Whether a point is a valuation of the context: a number for each parameter, at which each row of the context holds.
pub(crate) fn is_point(model: &Model, point: &[i128]) -> bool
    requires { AreRowsOver model.now.params model.now.context }
    ensures { result ≡ is_point model.now point.now }
{
    point.len() == model.params && rows_hold(model.context.as_slice(), point)
}

/// Whether an assignment has so many counters and quotients.
fn has_shape(shape: &(u64, u64), stmt: &StmtModel) -> bool
    ensures { result ≡ has_shape shape.now stmt.now }
{
    shape.0 == stmt.loops.len() as u64 && shape.1 == stmt.quots.len() as u64
}

/// Whether the assignments have these numbers of counters and quotients, one pair of numbers for each.
#[tactic(auto, using(crate::proofs::HeadSteps::shape_steps))]
pub(crate) fn have_shapes(shapes: &[(u64, u64)], stmts: &[StmtModel]) -> bool
    ensures { result ≡ have_shapes shapes.now stmts.now }
{
    if shapes.len() != stmts.len() {
        return false;
    }
    for i in 0..shapes.len() {
        if !has_shape(&shapes[i], &stmts[i]) {
            return false;
        }
    }
    true
}
