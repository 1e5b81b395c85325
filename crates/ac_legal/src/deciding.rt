//! Whether a schedule keeps the order.
ghost use Rattle.std.specs.Prelude.{◌≡◌, ◌+◌, ◌≤◌, ◌<◌, ℕ, Some, length, take, drop, slice_get, IfOk, IfErr};
ghost use Rattle.ac_legal.specs.QuestionChoices.{UnlessMemory};
ghost use Rattle.ac_legal.specs.ScheduleAnswers.{AreOf, NoneBetween, NoDecidedPointBetween, NoDecidedQuestionHasAPoint, IsPointBetween, IsPointOfTwo, IfKept, IfBroken, IsCutOf, SomeStops, KeepsForAll, BreaksForAll};
ghost use Rattle.ac_flow.specs.Readers.{IsLowered, IsOver};

use crate::between::{Two, between};
use crate::searching::first_stop;
use crate::types::{Legal, LegalStop, Schedule};
use ac_flow::types::Limits;
use ac_forms::column_after;
use ac_poly::types::{Model, StmtModel};
use ac_poly::width;
use std::alloc::{AllocError, Global};

/// So many numbers of a point, from one column on.
fn numbers_at(
    alloc: Global,
    point: &[i128],
    from: usize,
    count: usize,
) -> Result<Vec<i128>, AllocError>
    requires { from + count ≤ length point.now }
    ensures { IfOk result (λ numbers. numbers.items ≡ take count (drop from point.now)) }
{
    Vec::from_slice(alloc, &point[from..][..count])
}

/// The answer at a point of a question: its first numbers are the valuation, the next the counters of the first instance. Those of
/// the second stand behind so many numbers.
fn broken(
    alloc: Global,
    params: usize,
    behind: usize,
    two: &Two<'_>,
    point: &[i128],
) -> Result<Legal, AllocError>
    requires first { params + length two.now.first.now.loops ≤ length point.now }
    requires second { behind + length two.now.second.now.loops ≤ length point.now }
    ensures some { IfOk result (λ l. IfKept l ⊥) }
    ensures cut { IfOk result (λ l. IfBroken l (IsCutOf point.now params behind two.now.i two.now.first.now two.now.j two.now.second.now)) }
{
    let at = numbers_at(alloc, point, 0, params)?;
    let first = numbers_at(alloc, point, params, two.first.loops.len())?;
    let second = numbers_at(alloc, point, behind, two.second.loops.len())?;
    Ok(Legal::Broken {
        at,
        first: (two.i, first),
        second: (two.j, second),
    })
}

/// The answer at a point of a question of two assignments.
fn broken_at(
    alloc: Global,
    m: &Model,
    order: &Schedule,
    two: &Two<'_>,
    point: &[i128],
) -> Result<Legal, AllocError>
    requires stmts { AreOf m.now two.now.i two.now.first.now two.now.j two.now.second.now }
    requires point { IsPointBetween m.now order.now.times two.now.i two.now.first.now two.now.j two.now.second.now point.now }
    ensures kept { IfOk result (λ l. IfKept l (NoneBetween m.now order.now.times two.now.i two.now.j)) }
    ensures broken { IfOk result (λ l. IfBroken l (IsPointOfTwo m.now order.now.times)) }
{
    let behind = column_after(m.params, width(two.first))?;
    broken(alloc, m.params, behind, two, point)
}

/// Two assignments: kept if no question of theirs has a point.
fn compare(
    alloc: Global,
    budget: u64,
    m: &Model,
    order: &Schedule,
    two: &Two<'_>,
) -> Result<Legal, LegalStop>
    requires first { two.now.i < length m.now.stmts }
    requires second { two.now.j < length m.now.stmts }
    requires stmts { AreOf m.now two.now.i two.now.first.now two.now.j two.now.second.now }
    requires over { IsOver m.now }
    ensures kept { IfOk result (λ l. IfKept l (NoneBetween m.now order.now.times two.now.i two.now.j)) }
    ensures broken { IfOk result (λ l. IfBroken l (IsPointOfTwo m.now order.now.times)) }
    ensures stops { IfErr result (λ e. UnlessMemory e (SomeStops budget m.now order.now.times e)) }
    ensures decided { IfErr result (λ e. UnlessMemory e (NoDecidedPointBetween budget m.now order.now.times two.now.i two.now.j)) }
{
    match between(alloc, budget, m, order, two) {
        Ok(None) => Ok(Legal::Kept),
        Ok(Some(point)) => Ok(broken_at(alloc, m, order, two, point.as_slice())?),
        Err(stop) => Err(stop),
    }
}

/// An assignment as the first of two. A stop is held until each other assignment is compared.
fn from_first(
    alloc: Global,
    budget: u64,
    m: &Model,
    order: &Schedule,
    i: usize,
    first: &StmtModel,
) -> Result<Legal, LegalStop>
    requires within { i < length m.now.stmts }
    requires first { slice_get m.now.stmts i ≡ Some first.now }
    requires over { IsOver m.now }
    ensures kept { IfOk result (λ l. IfKept l ((j : ℕ) → j < length m.now.stmts → NoneBetween m.now order.now.times i j)) }
    ensures broken { IfOk result (λ l. IfBroken l (IsPointOfTwo m.now order.now.times)) }
    ensures stops { IfErr result (λ e. UnlessMemory e (SomeStops budget m.now order.now.times e)) }
    ensures decided { IfErr result (λ e. UnlessMemory e ((j : ℕ) → j < length m.now.stmts → NoDecidedPointBetween budget m.now order.now.times i j)) }
{
    let stmts = m.stmts.as_slice();
    let mut held = None;
    for j in 0..stmts.len() {
        let two = Two {
            i,
            first,
            j,
            second: &stmts[j],
        };
        match compare(alloc, budget, m, order, &two) {
            Ok(Legal::Kept) => continue,
            Ok(found) => return Ok(found),
            Err(stop) => {
                held = first_stop(held, stop)?;
                continue;
            }
        }
    }
    match held {
        Some(stop) => Err(stop),
        None => Ok(Legal::Kept),
    }
}

/// All assignments. A stop is held until all are compared.
fn from_all(alloc: Global, budget: u64, m: &Model, order: &Schedule) -> Result<Legal, LegalStop>
    requires { IsOver m.now }
    ensures kept { IfOk result (λ l. IfKept l ((i j : ℕ) → i < length m.now.stmts → j < length m.now.stmts → NoneBetween m.now order.now.times i j)) }
    ensures broken { IfOk result (λ l. IfBroken l (IsPointOfTwo m.now order.now.times)) }
    ensures stops { IfErr result (λ e. UnlessMemory e (SomeStops budget m.now order.now.times e)) }
    ensures decided { IfErr result (λ e. UnlessMemory e ((i j : ℕ) → i < length m.now.stmts → j < length m.now.stmts → NoDecidedPointBetween budget m.now order.now.times i j)) }
{
    let stmts = m.stmts.as_slice();
    let mut held = None;
    for i in 0..stmts.len() {
        match from_first(alloc, budget, m, order, i, &stmts[i]) {
            Ok(Legal::Kept) => continue,
            Ok(found) => return Ok(found),
            Err(stop) => {
                held = first_stop(held, stop)?;
                continue;
            }
        }
    }
    match held {
        Some(stop) => Err(stop),
        None => Ok(Legal::Kept),
    }
}

/// Whether a schedule keeps the order of what conflicts in a program.
///
/// `Kept` comes only if at each valuation of the context the earlier of each two instances that conflict has the smaller time.
/// `Broken` comes with a valuation and two instances of which that is not so. A stop comes only if a question stops both walks of
/// its elimination, or cannot be formed. The other questions are asked all the same: beside a stop each question that can be
/// formed has no point, or both walks stop at it too. So a broken pair of a question that is decided goes before a stop.
pub fn legal(
    alloc: Global,
    m: &Model,
    order: &Schedule,
    limits: &Limits,
) -> Result<Legal, LegalStop>
    requires { IsLowered m.now }
    ensures kept { IfOk result (λ l. IfKept l (KeepsForAll m.now order.now.times)) }
    ensures broken { IfOk result (λ l. IfBroken l (BreaksForAll m.now order.now.times)) }
    ensures stops { IfErr result (λ e. UnlessMemory e (SomeStops limits.now.budget m.now order.now.times e)) }
    ensures decided { IfErr result (λ e. UnlessMemory e (NoDecidedQuestionHasAPoint limits.now.budget m.now order.now.times)) }
{
    from_all(alloc, limits.budget, m, order)
}
