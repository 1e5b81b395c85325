//! The order of instances, and the equality of the cells that they read and write, as rows.
ghost use Rattle.std.specs.Prelude.{◌≡◌, ◌<◌, length, replicate, set, pos, negsuc, IfOk, slice_get, Some};
ghost use Rattle.ac_forms.specs.FormStops.{MadeWhere};
ghost use Rattle.ac_syntax.specs.LoopNests.{common};
ghost use Rattle.ac_poly.specs.LevelRows.{difference, levels, equalities, CanEquate};
ghost use Rattle.ac_poly.specs.Coordinates.{width, levels_before, levels_between};
ghost use Rattle.ac_poly.specs.declared.types.StmtModel.{StmtModel};

use crate::cells::less;
use crate::types::{Model, StmtModel};
use ac_base::Items;
use ac_forms::{Form, FormStop, Row};
use ac_poly_quotients::copy::with_row;
use std::alloc::{AllocError, Global};

/// The levels by which an instance of the assignment `s` stands before one of the assignment `u`: rows over the
/// parameters, the coordinates of `s` and the coordinates of `u`. There is one level for each loop around both, in which the
/// counters of the loops before it agree and its own rises; where `s` stands before `u` in the text, there is a last one in
/// which the counters of all loops around both agree. At a pair of instances a level holds exactly where the first stands
/// before the second in the trace, and no two levels hold together.
pub fn before(alloc: Global, m: &Model, s: usize, u: usize) -> Result<Items<Items<Row>>, AllocError>
    requires first { s < length m.now.stmts }
    requires second { u < length m.now.stmts }
    ensures { IfOk result (λ made. (first second : StmtModel) → slice_get m.now.stmts s ≡ Some first → slice_get m.now.stmts u ≡ Some second → made ≡ levels_before m.now.params s first u second) }
{
    let own = width(&m.stmts.as_slice()[s]);
    let behind = m.params.checked_add(own).ok_or(AllocError)?;
    before_at(alloc, m, s, m.params, u, behind)
}

/// The same levels where the coordinates of `s` stand from column `i` on and those of `u` from column `j` on.
pub fn before_at(
    alloc: Global,
    m: &Model,
    s: usize,
    i: usize,
    u: usize,
    j: usize,
) -> Result<Items<Items<Row>>, AllocError>
    requires first { s < length m.now.stmts }
    requires second { u < length m.now.stmts }
    ensures { IfOk result (λ made. (first second : StmtModel) → slice_get m.now.stmts s ≡ Some first → slice_get m.now.stmts u ≡ Some second → made ≡ levels_between s first i u second j) }
{
    let stmts = m.stmts.as_slice();
    let first = stmts[s].loops.as_slice();
    let second = stmts[u].loops.as_slice();
    levels_of(alloc, i, j, first, second, s < u)
}

/// How many coordinates an instance of an assignment has: one for each loop around it, and one for each quotient.
pub fn width(stmt: &StmtModel) -> usize
    ensures { result ≡ width stmt.now }
{
    stmt.loops.as_slice().len() + stmt.quots.as_slice().len()
}

/// The levels of an assignment in the loops `first`, with its counters from column `i` on, and one in the loops `second`,
/// with its counters from column `j` on.
#[tactic(auto, using(crate::proofs::LevelSteps::level_steps))]
fn levels_of(
    alloc: Global,
    i: usize,
    j: usize,
    first: &[usize],
    second: &[usize],
    text: bool,
) -> Result<Items<Items<Row>>, AllocError>
    ensures { IfOk result (λ made. made ≡ levels i j first.now second.now text) }
{
    let count = common(first, second);
    let mut made = Items::new(alloc);
    let mut done = Items::new(alloc);
    for k in 0..count {
        let own = i.checked_add(k).ok_or(AllocError)?;
        let other = j.checked_add(k).ok_or(AllocError)?;
        let rising = difference(alloc, own, other, -1)?;
        made.push(with_row(alloc, done.as_slice(), Row::Ge(rising))?)?;
        done.push(Row::Eq(difference(alloc, own, other, 0)?))?;
    }
    if text {
        made.push(done)?;
    }
    Ok(made)
}

/// The column `j` less the column `i`, plus `k`.
#[tactic(auto, using(crate::proofs::Differences::difference_steps))]
fn difference(alloc: Global, i: usize, j: usize, k: i128) -> Result<Form, AllocError>
    ensures { IfOk result (λ form. form ≡ difference i j k) }
{
    let past_i = i.checked_add(1).ok_or(AllocError)?;
    let past_j = j.checked_add(1).ok_or(AllocError)?;
    if i == j {
        Form::constant(alloc, past_i, k)
    } else if i < j {
        units(alloc, past_j, i, j, k)
    } else {
        units(alloc, past_i, i, j, k)
    }
}

/// The form over so many columns with -1 at column `i`, 1 at column `j` and the constant `k`.
fn units(alloc: Global, columns: usize, i: usize, j: usize, k: i128) -> Result<Form, AllocError>
    requires first { i < columns }
    requires second { j < columns }
    ensures { IfOk result (λ form. form ≡ record { konst = k; coefs = set (set (replicate columns (pos 0)) i (negsuc 0)) j (pos 1) }) }
{
    let mut coefs = vec![in alloc; 0i128; columns]?;
    coefs[i] = -1;
    coefs[j] = 1;
    Form::from_parts(alloc, k, coefs.as_slice())
}

/// How many loops stand around both of two assignments: the common beginning of the numbers of their loops.
#[tactic(auto, using(crate::proofs::Commons::common_steps))]
fn common(first: &[usize], second: &[usize]) -> usize
    ensures { result ≡ common first.now second.now }
{
    let mut k = 0;
    while k < first.len() && k < second.len() && first[k] == second[k] {
        k += 1;
    }
    k
}

/// The equalities, one for each dimension, that hold exactly where two cells of one array are one: each subscript of `a`
/// less that of `b` is 0. `Wide` exactly where a difference of two coefficients or constants leaves `i128`.
#[tactic(auto, using(crate::proofs::Equating::equating))]
pub fn same_cell(alloc: Global, a: &[Form], b: &[Form]) -> Result<Items<Row>, FormStop>
    requires { length a.now ≡ length b.now }
    ensures { MadeWhere result (CanEquate a.now b.now) (λ rows. rows ≡ equalities a.now b.now) }
{
    let mut rows = Items::new(alloc);
    for i in 0..a.len() {
        rows.push(Row::Eq(less(alloc, &a[i], &b[i])?))?;
    }
    Ok(rows)
}
