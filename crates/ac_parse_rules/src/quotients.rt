//! Assignments with more quotients than the limit.

ghost use Rattle.std.specs.Prelude.{◌≡◌, length, IfOk, OnOk};
ghost use Rattle.ac_syntax.specs.Quotients.{noted_parts};
ghost use Rattle.ac_parse_exprs.specs.Comparisons.{condition};
ghost use Rattle.ac_parse_rules.specs.FewQuotients.{loop_noted, assignment_noted, assignment_crowded, crowded, all_crowded};
ghost use Rattle.ac_parse_rules.specs.Statements.{inside};

use crate::loops::{Head, in_start, in_test, inside};
use crate::statement::build_assigned;
use ac_base::Items;
use ac_parse_exprs::fault::{Broken, Rule, Which, broken_where, earlier};
use ac_parse_exprs::{Entry, Scope, build_condition, build_index, build_indices};
use ac_parse_grammar::tree::{Expr, Operator, Part, Statement, Word};
use ac_syntax::copy::copy_quots;
use ac_syntax::quotients::{note_form, note_forms, note_parts, note_value};
use ac_syntax::tree::Quot;
use std::alloc::{AllocError, Global};

/// The quotients around a loop, and behind them those of its start and of its condition.
fn note_loop(
    alloc: Global,
    names: &[Entry],
    scope: &Scope,
    seen: &[Quot],
    head: Head<'_>,
) -> Result<Items<Quot>, AllocError>
    ensures { IfOk result (λ it. it ≡ loop_noted names.now scope.now head.entry.typed head.entry.name.now head.entry.start.now head.entry.cond.now seen.now) }
{
    let mut noted = copy_quots(alloc, seen)?;
    let outer = in_start(alloc, scope, head.typed, &head.name.name)?;
    let start = build_index(alloc, names, &outer, head.start)?;
    note_form(alloc, &mut noted, &start)?;
    let test = in_test(alloc, scope, &head.name.name)?;
    let parts = build_condition(alloc, names, &test, head.cond)?;
    note_parts(alloc, &mut noted, parts.as_slice())?;
    Ok(noted)
}

/// The quotients around a branch, and behind them those of its condition.
fn note_branch(
    alloc: Global,
    names: &[Entry],
    scope: &Scope,
    seen: &[Quot],
    cond: &[Part],
) -> Result<Items<Quot>, AllocError>
    ensures { IfOk result (λ it. it ≡ noted_parts seen.now (condition names.now scope.now cond.now)) }
{
    let mut noted = copy_quots(alloc, seen)?;
    let parts = build_condition(alloc, names, scope, cond)?;
    note_parts(alloc, &mut noted, parts.as_slice())?;
    Ok(noted)
}

/// An assignment but for its target.
#[derive(Clone, Copy)]
struct Sides<'a> {
    subs: &'a [Expr],
    operator: Option<Operator>,
    value: &'a Expr,
}

/// The quotients around an assignment, and behind them its own.
fn note_assignment(
    alloc: Global,
    names: &[Entry],
    scope: &Scope,
    seen: &[Quot],
    target: &Word,
    sides: Sides<'_>,
) -> Result<Items<Quot>, AllocError>
    ensures { IfOk result (λ it. it ≡ assignment_noted names.now scope.now target.now sides.entry.subs.now sides.entry.operator sides.entry.value.now seen.now) }
{
    let mut noted = copy_quots(alloc, seen)?;
    let value = build_assigned(
        alloc,
        names,
        scope,
        target,
        sides.subs,
        sides.operator,
        sides.value,
    )?;
    note_value(alloc, &mut noted, &value)?;
    let subs = build_indices(alloc, names, scope, sides.subs)?;
    note_forms(alloc, &mut noted, subs.as_slice())?;
    Ok(noted)
}

/// The target of an assignment with more than 8 quotients.
fn check_assignment(
    alloc: Global,
    names: &[Entry],
    scope: &Scope,
    seen: &[Quot],
    target: &Word,
    sides: Sides<'_>,
) -> Result<Option<Broken>, AllocError>
    ensures { IfOk result (λ it. it ≡ assignment_crowded names.now scope.now target.now sides.entry.subs.now sides.entry.operator sides.entry.value.now seen.now) }
{
    let noted = note_assignment(alloc, names, scope, seen, target, sides)?;
    let many = noted.len() > 8;
    Ok(broken_where(many, Rule::Limit(Which::Quotients), target.place))
}

/// The first such target in a loop.
#[cycle(quotients)]
fn check_loop(
    alloc: Global,
    names: &[Entry],
    scope: &Scope,
    seen: &[Quot],
    head: Head<'_>,
    body: &[Statement],
) -> Result<Option<Broken>, AllocError>
    ensures { IfOk result (λ it. it ≡ all_crowded names.now (inside scope.now head.entry.name.now.name) (loop_noted names.now scope.now head.entry.typed head.entry.name.now head.entry.start.now head.entry.cond.now seen.now) body.now) }
{
    let noted = note_loop(alloc, names, scope, seen, head)?;
    let inner = inside(alloc, scope, &head.name.name)?;
    check_quotients(alloc, names, &inner, noted.as_slice(), body)
}

/// The first such target in a statement.
#[cycle(quotients)]
#[tactic(auto, using(crate::proofs::Noting::crowding))]
fn check_statement(
    alloc: Global,
    names: &[Entry],
    scope: &Scope,
    seen: &[Quot],
    statement: &Statement,
) -> Result<Option<Broken>, AllocError>
    ensures { IfOk result (λ it. it ≡ crowded names.now statement.now scope.now seen.now) }
{
    match statement {
        Statement::Loop {
            typed,
            name,
            start,
            cond,
            step,
            body,
            place,
        } => {
            let head = Head::new(*typed, name, start, cond.as_slice(), step, *place);
            check_loop(alloc, names, scope, seen, head, body.as_slice())
        }
        Statement::Branch {
            cond,
            taken,
            other,
            ..
        } => {
            let noted = note_branch(alloc, names, scope, seen, cond.as_slice())?;
            let left = check_quotients(alloc, names, scope, noted.as_slice(), taken.as_slice())?;
            let right = check_quotients(alloc, names, scope, noted.as_slice(), other.as_slice())?;
            Ok(earlier(left, right))
        }
        Statement::Assign {
            target,
            subs,
            operator,
            value,
        } => {
            let sides = Sides {
                subs: subs.as_slice(),
                operator: *operator,
                value,
            };
            check_assignment(alloc, names, scope, seen, target, sides)
        }
    }
}

/// The first such target in statements, where the quotients around have been noted.
#[cycle(quotients)]
pub fn check_quotients(
    alloc: Global,
    names: &[Entry],
    scope: &Scope,
    seen: &[Quot],
    statements: &[Statement],
) -> Result<Option<Broken>, AllocError>
    ensures { IfOk result (λ it. it ≡ all_crowded names.now scope.now seen.now statements.now) }
{
    let mut broken = None;
    for statement in statements {
        broken = earlier(
            broken,
            check_statement(alloc, names, scope, seen, statement)?,
        );
    }
    Ok(broken)
}
