//! The numbers that stand in the texts of two programs.
ghost use Rattle.std.specs.Prelude.{◌≡◌, ◌++◌, IfOk, ℤ, map};
ghost use Rattle.std.specs.List.{flat_map};
ghost use Rattle.ac_hull.specs.declared.collected.Collected.TheVariants.{Coefficient};
ghost use Rattle.ac_hull.specs.ProgramConstants.{numbers_of_sum, numbers_of_division, numbers_of_quotient, numbers_of_form, numbers_of_forms, numbers_of_relation, numbers_of_comparison, numbers_of_condition, numbers_of_value, numbers_of_statement, numbers_of_program, numbers_of_pair};

use ac_base::Items;
use ac_syntax::tree::{Comparison, Cond, IndexExpr, Pair, Program, Quot, Rel, Stmt, Value};
use std::alloc::{AllocError, Global};

/// A number of a text.
#[derive(Clone, Copy, Drop)]
pub(crate) enum Collected {
    /// The constant of a form.
    Constant(i64),
    /// A coefficient of a form.
    Coefficient(i64),
    /// The divisor of a quotient, or one that a comparison tests.
    Divisor(i64),
    /// The step of a loop.
    Step(i64),
}

/// The list with coefficients behind it.
fn with_coefficients(made: Items<Collected>, coefs: &[i64]) -> Result<Items<Collected>, AllocError>
    ensures { IfOk result (λ new. new ≡ made ++ map Coefficient coefs.now) }
{
    let mut made = made;
    for coef in coefs {
        made.push(Collected::Coefficient(*coef))?;
    }
    Ok(made)
}

/// The list with a constant and coefficients of parameters and iterators behind it.
#[tactic(auto, using(crate::proofs::Collecting::collect_steps))]
fn with_sum(
    made: Items<Collected>,
    konst: i64,
    params: &[i64],
    iters: &[i64],
) -> Result<Items<Collected>, AllocError>
    ensures { IfOk result (λ new. new ≡ made ++ numbers_of_sum konst params.now iters.now) }
{
    let mut made = made;
    made.push(Collected::Constant(konst))?;
    let made = with_coefficients(made, params)?;
    with_coefficients(made, iters)
}

/// The list with a quotient's divisor and the numbers of the form that it divides behind it.
#[tactic(auto, using(crate::proofs::Collecting::collect_steps))]
fn with_division(made: Items<Collected>, quot: &Quot) -> Result<Items<Collected>, AllocError>
    ensures { IfOk result (λ new. new ≡ made ++ numbers_of_division quot.now) }
{
    let mut made = made;
    made.push(Collected::Divisor(quot.div))?;
    with_sum(
        made,
        quot.konst,
        quot.params.as_slice(),
        quot.iters.as_slice(),
    )
}

/// The list with the numbers of a quotient behind it.
#[tactic(auto, using(crate::proofs::Collecting::collect_steps))]
fn with_quotient(made: Items<Collected>, quot: &Quot) -> Result<Items<Collected>, AllocError>
    ensures { IfOk result (λ new. new ≡ made ++ numbers_of_quotient quot.now) }
{
    let mut made = made;
    made.push(Collected::Coefficient(quot.coef))?;
    with_division(made, quot)
}

/// The list with the numbers of quotients behind it.
#[tactic(auto, using(crate::proofs::Collecting::collect_steps))]
fn with_quotients(made: Items<Collected>, quots: &[Quot]) -> Result<Items<Collected>, AllocError>
    ensures { IfOk result (λ new. new ≡ made ++ flat_map numbers_of_quotient quots.now) }
{
    let mut made = made;
    for quot in quots {
        made = with_quotient(made, quot)?;
    }
    Ok(made)
}

/// The list with the numbers of a form behind it.
#[tactic(auto, using(crate::proofs::Collecting::collect_steps))]
fn with_form(made: Items<Collected>, form: &IndexExpr) -> Result<Items<Collected>, AllocError>
    ensures { IfOk result (λ new. new ≡ made ++ numbers_of_form form.now) }
{
    let made = with_sum(
        made,
        form.konst,
        form.params.as_slice(),
        form.iters.as_slice(),
    )?;
    with_quotients(made, form.quots.as_slice())
}

/// The list with the numbers of forms behind it.
#[tactic(auto, using(crate::proofs::Collecting::collect_steps))]
fn with_forms(made: Items<Collected>, forms: &[IndexExpr]) -> Result<Items<Collected>, AllocError>
    ensures { IfOk result (λ new. new ≡ made ++ numbers_of_forms forms.now) }
{
    let mut made = made;
    for form in forms {
        made = with_form(made, form)?;
    }
    Ok(made)
}

/// The list with the divisor that a comparison tests behind it.
fn with_relation(made: Items<Collected>, rel: &Rel) -> Result<Items<Collected>, AllocError>
    ensures { IfOk result (λ new. new ≡ made ++ numbers_of_relation rel.now) }
{
    let mut made = made;
    match rel {
        Rel::NonNegative | Rel::Zero => Ok(made),
        Rel::Divides(divisor) => {
            made.push(Collected::Divisor(*divisor))?;
            Ok(made)
        }
    }
}

/// The list with the numbers of a comparison behind it.
#[tactic(auto, using(crate::proofs::Collecting::collect_steps))]
fn with_comparison(
    made: Items<Collected>,
    part: &Comparison,
) -> Result<Items<Collected>, AllocError>
    ensures { IfOk result (λ new. new ≡ made ++ numbers_of_comparison part.now) }
{
    let made = with_form(made, &part.form)?;
    with_relation(made, &part.rel)
}

/// The list with the numbers of a condition behind it.
#[tactic(auto, using(crate::proofs::Collecting::collect_steps))]
fn with_condition(made: Items<Collected>, cond: &Cond) -> Result<Items<Collected>, AllocError>
    ensures { IfOk result (λ new. new ≡ made ++ numbers_of_condition cond.now) }
{
    let mut made = made;
    for part in cond.parts.as_slice() {
        made = with_comparison(made, part)?;
    }
    Ok(made)
}

/// The list with the numbers of a value behind it.
#[cycle(values)]
#[tactic(auto, using(crate::proofs::Collecting::value_steps))]
fn with_value(made: Items<Collected>, value: &Value) -> Result<Items<Collected>, AllocError>
    ensures { IfOk result (λ new. new ≡ made ++ numbers_of_value value.now) }
{
    match value {
        Value::Number(form) => with_form(made, form),
        Value::Access { subs, .. } => with_forms(made, subs.as_slice()),
        Value::Call { args, .. } => with_values(made, args.as_slice()),
    }
}

/// The list with the numbers of values behind it.
#[cycle(values)]
#[tactic(auto, using(crate::proofs::Collecting::collect_steps))]
fn with_values(made: Items<Collected>, values: &[Value]) -> Result<Items<Collected>, AllocError>
    ensures { IfOk result (λ new. new ≡ made ++ flat_map numbers_of_value values.now) }
{
    let mut made = made;
    for value in values {
        made = with_value(made, value)?;
    }
    Ok(made)
}

/// The list with the numbers of a statement behind it.
#[cycle(statements)]
#[tactic(auto, using(crate::proofs::Collecting::statement_steps))]
fn with_statement(made: Items<Collected>, stmt: &Stmt) -> Result<Items<Collected>, AllocError>
    ensures { IfOk result (λ new. new ≡ made ++ numbers_of_statement stmt.now) }
{
    match stmt {
        Stmt::For {
            start,
            cond,
            step,
            body,
            ..
        } => {
            let mut made = with_form(made, start)?;
            made.push(Collected::Step(*step))?;
            let made = with_condition(made, cond)?;
            with_statements(made, body.as_slice())
        }
        Stmt::If {
            cond,
            taken,
            other,
            ..
        } => {
            let made = with_condition(made, cond)?;
            let made = with_statements(made, taken.as_slice())?;
            with_statements(made, other.as_slice())
        }
        Stmt::Assign { subs, value, .. } => {
            let made = with_forms(made, subs.as_slice())?;
            with_value(made, value)
        }
    }
}

/// The list with the numbers of statements behind it.
#[cycle(statements)]
#[tactic(auto, using(crate::proofs::Collecting::collect_steps))]
fn with_statements(made: Items<Collected>, stmts: &[Stmt]) -> Result<Items<Collected>, AllocError>
    ensures { IfOk result (λ new. new ≡ made ++ flat_map numbers_of_statement stmts.now) }
{
    let mut made = made;
    for stmt in stmts {
        made = with_statement(made, stmt)?;
    }
    Ok(made)
}

/// The list with the numbers of a program behind it, but for its context.
#[tactic(auto, using(crate::proofs::Collecting::collect_steps))]
fn with_program(made: Items<Collected>, program: &Program) -> Result<Items<Collected>, AllocError>
    ensures { IfOk result (λ new. new ≡ made ++ numbers_of_program program.now) }
{
    let mut made = made;
    for array in program.arrays.as_slice() {
        made = with_forms(made, array.extents.as_slice())?;
    }
    with_statements(made, program.body.as_slice())
}

/// The numbers of two programs and their context.
#[tactic(auto, using(crate::proofs::Collecting::collect_steps))]
pub(crate) fn numbers_of(alloc: Global, pair: &Pair) -> Result<Items<Collected>, AllocError>
    ensures { IfOk result (λ made. made ≡ numbers_of_pair pair.now) }
{
    let made = with_program(Items::new(alloc), &pair.left)?;
    let made = with_program(made, &pair.right)?;
    with_condition(made, &pair.context)
}
