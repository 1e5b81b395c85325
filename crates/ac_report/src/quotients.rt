//! How many quotients the assignments of a program have.
ghost use Rattle.std.specs.Prelude.{◌≡◌, ◌++◌, IfOk};
ghost use Rattle.std.specs.List.{flat_map};
ghost use Rattle.ac_syntax.specs.Quotients.{noted_form, noted_parts, noted_subs, noted_value};
ghost use Rattle.ac_report.specs.Layouts.{counts_in, quotient_counts};

use ac_base::Items;
use ac_syntax::copy::copy_quots;
use ac_syntax::quotients::{note_form, note_forms, note_parts, note_value};
use ac_syntax::tree::{Cond, IndexExpr, Quot, Stmt, Value};
use std::alloc::{AllocError, Global};

/// The quotients, and those of the comparisons of a condition behind them.
fn with_tested(alloc: Global, around: &[Quot], cond: &Cond) -> Result<Items<Quot>, AllocError>
    ensures { IfOk result (λ seen. seen ≡ noted_parts around.now cond.now.parts) }
{
    let mut seen = copy_quots(alloc, around)?;
    note_parts(alloc, &mut seen, cond.parts.as_slice())?;
    Ok(seen)
}

/// The quotients, and those of a loop's start and condition behind them.
fn with_loop(
    alloc: Global,
    around: &[Quot],
    start: &IndexExpr,
    cond: &Cond,
) -> Result<Items<Quot>, AllocError>
    ensures { IfOk result (λ seen. seen ≡ noted_parts (noted_form around.now start.now) cond.now.parts) }
{
    let mut seen = copy_quots(alloc, around)?;
    note_form(alloc, &mut seen, start)?;
    note_parts(alloc, &mut seen, cond.parts.as_slice())?;
    Ok(seen)
}

/// The quotients, and those of an assignment's value and subscripts behind them.
fn with_assigned(
    alloc: Global,
    around: &[Quot],
    subs: &[IndexExpr],
    value: &Value,
) -> Result<Items<Quot>, AllocError>
    ensures { IfOk result (λ seen. seen ≡ noted_subs (noted_value around.now value.now) subs.now) }
{
    let mut seen = copy_quots(alloc, around)?;
    note_value(alloc, &mut seen, value)?;
    note_forms(alloc, &mut seen, subs)?;
    Ok(seen)
}

/// The list with the counts of a statement's assignments behind it, where quotients stand around.
#[cycle(statements)]
#[tactic(auto, using(crate::proofs::QuotientCounts::count_steps))]
fn with_statement(
    alloc: Global,
    made: Items<usize>,
    around: &[Quot],
    stmt: &Stmt,
) -> Result<Items<usize>, AllocError>
    ensures { IfOk result (λ new. new ≡ made ++ counts_in around.now stmt.now) }
{
    match stmt {
        Stmt::For {
            start,
            cond,
            body,
            ..
        } => {
            let seen = with_loop(alloc, around, start, cond)?;
            with_statements(alloc, made, seen.as_slice(), body.as_slice())
        }
        Stmt::If {
            cond,
            taken,
            other,
            ..
        } => {
            let seen = with_tested(alloc, around, cond)?;
            let made = with_statements(alloc, made, seen.as_slice(), taken.as_slice())?;
            with_statements(alloc, made, seen.as_slice(), other.as_slice())
        }
        Stmt::Assign { subs, value, .. } => {
            let seen = with_assigned(alloc, around, subs.as_slice(), value)?;
            let mut made = made;
            made.push(seen.len())?;
            Ok(made)
        }
    }
}

/// The list with the counts of the assignments of statements behind it, where quotients stand around.
#[cycle(statements)]
#[tactic(auto, using(crate::proofs::Layouts::joins))]
fn with_statements(
    alloc: Global,
    made: Items<usize>,
    around: &[Quot],
    stmts: &[Stmt],
) -> Result<Items<usize>, AllocError>
    ensures { IfOk result (λ new. new ≡ made ++ flat_map (counts_in around.now) stmts.now) }
{
    let mut made = made;
    for stmt in stmts {
        made = with_statement(alloc, made, around, stmt)?;
    }
    Ok(made)
}

/// How many quotients each assignment of a program's body has, in the order of the text.
#[tactic(auto, using(crate::proofs::QuotientCounts::whole_steps))]
pub fn quotient_counts(alloc: Global, body: &[Stmt]) -> Result<Items<usize>, AllocError>
    ensures { IfOk result (λ made. made ≡ quotient_counts body.now) }
{
    with_statements(alloc, Items::new(alloc), &[], body)
}
