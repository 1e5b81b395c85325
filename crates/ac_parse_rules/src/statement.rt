ghost use Rattle.std.specs.Prelude.{◌≡◌, ◌++◌, ◌+◌, ◌<◌, map, nat_lt, length, slice_get, Some, None, MatchResult, IfOk};
ghost use Rattle.ac_syntax.specs.ValueNodes.{size};
ghost use Rattle.ac_syntax.specs.declared.tree.Stmt.TheVariants.{For, Assign};
ghost use Rattle.ac_parse_exprs.specs.Comparisons.{first_of, index, condition};
ghost use Rattle.ac_parse_exprs.specs.FaultOrder.{earlier};
ghost use Rattle.ac_parse_exprs.specs.Meanings.{meaning};
ghost use Rattle.ac_parse_exprs.specs.Values.{array_number};
ghost use Rattle.ac_parse_rules.specs.Statements.{inside, in_test, in_start, head_broken, step_number, target_rule, extra_nodes, assigned_value, assignment_broken, statement_broken, statements_broken, targets, all_targets, stmt, stmts};

use crate::loops::{Head, begin, check_head, inside};
use ac_base::Items;
use ac_parse_exprs::fault::{Broken, Rule, Which, broken_where, earlier};
use ac_parse_exprs::measure::{Measured, check_access, measure};
use ac_parse_exprs::value::{apply, array_number, build_read, build_value};
use ac_parse_exprs::{Entry, Meaning, Scope, build_condition, build_indices, check_condition};
use ac_parse_grammar::tree::{Expr, Operator, Part, Statement, Word};
use ac_syntax::tree::{Cond, Place, Stmt, Value};
use std::alloc::{AllocError, Global};

/// The rule that a target with so many subscripts breaks.
fn target_rule(meaning: Meaning, subs: usize) -> Option<Rule>
    ensures { result ≡ target_rule meaning subs }
{
    match meaning {
        Meaning::Array { dimensions, .. } => {
            if subs == dimensions {
                None
            } else {
                Some(Rule::Misused)
            }
        }
        Meaning::LoopName | Meaning::Nothing => Some(Rule::Undeclared),
        _ => Some(Rule::Misused),
    }
}

/// How many nodes an operator before `=` adds.
fn extra_nodes(operator: Option<Operator>) -> u8
    ensures { result ≡ extra_nodes operator }
{
    match operator {
        None => 0,
        Some(_) => 2,
    }
}

/// What is broken in an assignment.
#[tactic(auto, using(crate::proofs::AssignedValues::assigning))]
fn check_assignment(
    alloc: Global,
    names: &[Entry],
    scope: &Scope,
    target: &Word,
    subs: &Items<Expr>,
    operator: Option<Operator>,
    value: &Expr,
) -> Result<Option<Broken>, AllocError>
    ensures { IfOk result (λ it. it ≡ assignment_broken names.now scope.now target.now subs.now operator value.now) }
{
    let rule = target_rule(scope.meaning(names, &target.name), subs.len());
    let left = check_access(alloc, names, scope, rule, target, subs.as_slice())?;
    let right = measure(alloc, names, scope, value)?;
    let many = right.nodes() + extra_nodes(operator) > 64;
    let limit = broken_where(many, Rule::Limit(Which::Nodes), target.place);
    Ok(earlier(earlier(left, right.broken()), limit))
}

/// What is broken in a loop.
#[cycle(check)]
fn check_loop(
    alloc: Global,
    names: &[Entry],
    scope: &Scope,
    head: Head<'_>,
    body: &[Statement],
) -> Result<Option<Broken>, AllocError>
    ensures { IfOk result (λ it. it ≡ earlier (head_broken names.now scope.now head.entry.typed head.entry.name.now head.entry.start.now head.entry.cond.now head.entry.step.now head.entry.place) (statements_broken names.now (inside scope.now head.entry.name.now.name) body.now)) }
{
    let inner = inside(alloc, scope, &head.name.name)?;
    let rest = check_statements(alloc, names, &inner, body)?;
    Ok(earlier(check_head(alloc, names, scope, head)?, rest))
}

/// What is broken in a statement.
#[cycle(check)]
#[tactic(auto, using(crate::proofs::Stepping::breaking))]
fn check_statement(
    alloc: Global,
    names: &[Entry],
    scope: &Scope,
    statement: &Statement,
) -> Result<Option<Broken>, AllocError>
    ensures { IfOk result (λ it. it ≡ statement_broken names.now statement.now scope.now) }
{
    match statement {
        Statement::Loop {
            typed,
            name,
            start,
            cond,
            step,
            body,
            place,
        } => {
            let head = Head::new(*typed, name, start, cond.as_slice(), step, *place);
            check_loop(alloc, names, scope, head, body.as_slice())
        }
        Statement::Branch {
            cond,
            taken,
            other,
            ..
        } => {
            let first = check_condition(alloc, names, scope, cond.as_slice())?;
            let left = check_statements(alloc, names, scope, taken.as_slice())?;
            let right = check_statements(alloc, names, scope, other.as_slice())?;
            Ok(earlier(first, earlier(left, right)))
        }
        Statement::Assign {
            target,
            subs,
            operator,
            value,
        } => check_assignment(alloc, names, scope, target, subs, *operator, value),
    }
}

/// What is broken in statements.
#[cycle(check)]
pub fn check_statements(
    alloc: Global,
    names: &[Entry],
    scope: &Scope,
    statements: &[Statement],
) -> Result<Option<Broken>, AllocError>
    ensures { IfOk result (λ it. it ≡ statements_broken names.now scope.now statements.now) }
{
    let mut broken = None;
    for statement in statements {
        broken = earlier(broken, check_statement(alloc, names, scope, statement)?);
    }
    Ok(broken)
}

/// The value of an assignment.
pub fn build_assigned(
    alloc: Global,
    names: &[Entry],
    scope: &Scope,
    target: &Word,
    subs: &[Expr],
    operator: Option<Operator>,
    value: &Expr,
) -> Result<Value, AllocError>
    ensures { IfOk result (λ it. it ≡ assigned_value names.now scope.now target.now subs.now operator value.now) }
{
    let right = build_value(alloc, names, scope, value)?;
    match operator {
        None => Ok(right),
        Some(operator) => {
            let meaning = scope.meaning(names, &target.name);
            let left = build_read(alloc, names, scope, meaning, target, subs)?;
            apply(alloc, operator, left, right)
        }
    }
}

/// An assignment of the program.
fn build_assignment(
    alloc: Global,
    names: &[Entry],
    scope: &Scope,
    target: &Word,
    subs: &Items<Expr>,
    operator: Option<Operator>,
    value: &Expr,
) -> Result<Stmt, AllocError>
    ensures { IfOk result (λ it. it ≡ Assign (array_number (meaning names.now scope.now target.now.name)) (map (index names.now scope.now) subs.now) (assigned_value names.now scope.now target.now subs.now operator value.now) target.now.place) }
{
    let subs = subs.as_slice();
    Ok(Stmt::Assign {
        array: array_number(scope.meaning(names, &target.name)),
        subs: build_indices(alloc, names, scope, subs)?,
        value: build_assigned(alloc, names, scope, target, subs, operator, value)?,
        place: target.place,
    })
}

/// A loop of the program.
#[cycle(build)]
fn build_loop(
    alloc: Global,
    names: &[Entry],
    scope: &Scope,
    head: Head<'_>,
    body: &[Statement],
) -> Result<Stmt, AllocError>
    ensures { IfOk result (λ it. it ≡ For head.entry.name.now.name (index names.now (in_start scope.now head.entry.typed head.entry.name.now.name) head.entry.start.now) (record { parts = condition names.now (in_test scope.now head.entry.name.now.name) head.entry.cond.now }) (step_number head.entry.step.now) (stmts names.now (inside scope.now head.entry.name.now.name) body.now) head.entry.place) }
{
    let begun = begin(alloc, names, scope, head)?;
    let body = build_statements(alloc, names, &begun.inner, body)?;
    Ok(begun.with_body(body, head.place))
}

/// The condition of a branch of the program.
fn build_guard(
    alloc: Global,
    names: &[Entry],
    scope: &Scope,
    cond: &[Part],
) -> Result<Cond, AllocError>
    ensures { IfOk result (λ it. it ≡ record { parts = condition names.now scope.now cond.now }) }
{
    let parts = build_condition(alloc, names, scope, cond)?;
    Ok(Cond { parts })
}

/// A statement of the program.
#[cycle(build)]
#[tactic(auto, using(crate::proofs::Stepping::stating))]
fn build_statement(
    alloc: Global,
    names: &[Entry],
    scope: &Scope,
    statement: &Statement,
) -> Result<Stmt, AllocError>
    ensures { IfOk result (λ it. it ≡ stmt names.now statement.now scope.now) }
{
    match statement {
        Statement::Loop {
            typed,
            name,
            start,
            cond,
            step,
            body,
            place,
        } => {
            let head = Head::new(*typed, name, start, cond.as_slice(), step, *place);
            build_loop(alloc, names, scope, head, body.as_slice())
        }
        Statement::Branch {
            cond,
            taken,
            other,
            place,
        } => Ok(Stmt::If {
            cond: build_guard(alloc, names, scope, cond.as_slice())?,
            taken: build_statements(alloc, names, scope, taken.as_slice())?,
            other: build_statements(alloc, names, scope, other.as_slice())?,
            place: *place,
        }),
        Statement::Assign {
            target,
            subs,
            operator,
            value,
        } => build_assignment(alloc, names, scope, target, subs, *operator, value),
    }
}

/// The statements of the program.
#[cycle(build)]
pub fn build_statements(
    alloc: Global,
    names: &[Entry],
    scope: &Scope,
    statements: &[Statement],
) -> Result<Items<Stmt>, AllocError>
    ensures { IfOk result (λ it. it ≡ stmts names.now scope.now statements.now) }
{
    let mut built = Items::new(alloc);
    for statement in statements {
        built.push(build_statement(alloc, names, scope, statement)?)?;
    }
    Ok(built)
}

/// The place of the target with the number `n`, from 0; otherwise how many are still missing.
#[cycle(target)]
#[tactic(auto, using(crate::proofs::Stepping::targeting, crate::proofs::Targets::target_steps))]
fn target_at(statement: &Statement, n: usize) -> Result<Place, usize>
    ensures { MatchResult result (λ place. slice_get (targets statement.now) n ≡ Some place) (λ missing. missing + length (targets statement.now) ≡ n) }
{
    match statement {
        Statement::Loop { body, .. } => target_in(body.as_slice(), n),
        Statement::Branch { taken, other, .. } => match target_in(taken.as_slice(), n) {
            Ok(place) => Ok(place),
            Err(missing) => match target_in(other.as_slice(), missing) {
                Ok(place) => Ok(place),
                Err(left) => Err(left),
            },
        },
        Statement::Assign { target, .. } => { if n == 0 { Ok(target.place) } else { Err(n - 1) } }
    }
}

/// The same of several statements.
#[cycle(target)]
#[tactic(auto, using(crate::proofs::Targets::target_steps))]
pub fn target_in(statements: &[Statement], n: usize) -> Result<Place, usize>
    ensures { MatchResult result (λ place. slice_get (all_targets statements.now) n ≡ Some place) (λ missing. missing + length (all_targets statements.now) ≡ n) }
{
    let mut missing = n;
    for statement in statements {
        match target_at(statement, missing) {
            Ok(place) => return Ok(place),
            Err(left) => {
                missing = left;
            }
        }
    }
    Err(missing)
}
