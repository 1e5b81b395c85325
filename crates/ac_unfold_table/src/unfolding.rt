//! Unfolding a start against a table, behind what can be tabled.
ghost use Rattle.std.specs.Prelude.{◌≡◌, ◌⊎◌, ◌+◌, ◌≤◌, ◌++◌, ◌∷◌, [], IfErr, IfOk, OnOk, false, length, true};
ghost use Rattle.ac_forms.specs.ListMembers.{IsAmong};
ghost use Rattle.ac_claims.specs.declared.types.Claim.{Claim as Asked};
ghost use Rattle.ac_unfold_plans.specs.PlanStops.{claim_positions};
ghost use Rattle.ac_widen_programs.specs.BrokenPaths.{IsBroken};
ghost use Rattle.ac_widen_programs.specs.PairPaths.{Unfolding};
ghost use Rattle.ac_unfold.specs.UnfoldCauses.{StopsUnfolding};
ghost use Rattle.ac_unfold.specs.FoundPaths.{IsFoundAt};
ghost use Rattle.ac_unfold.specs.StartResults.{IfBroken, IfPlans};
ghost use Rattle.ac_unfold.specs.Unfoldings.{IsUnfoldingOf};
ghost use Rattle.ac_unfold_table.specs.TabledClaims.{AddsTabled, AreTabled};
ghost use Rattle.ac_unfold_table.specs.StepQuestions.{IsStepBehind, judge};
ghost use Rattle.ac_unfold_table.specs.Tables.{Grows};
ghost use Rattle.ac_unfold_table.specs.StartTraversal.{IsMet, IsUnderWay, tasks_behind, tasks_of, work_left};
ghost use Rattle.ac_unfold_table.specs.TableCoverage.{AreCalls, Fails, HasClaim, IsCovered, IsHindered, IsThorough};
ghost use Rattle.ac_unfold_table.specs.declared.unfolding.Task.TheVariants.{Question};
ghost use Rattle.ac_unfold_table.specs.StartPlans.{AreTreesOf, UseTabled};

use crate::relations::{copy_of, fitting, is_claimed, is_covered, relation_of};
use crate::stepping::questions_behind;
use crate::table::Table;
use ac_base::Items;
use ac_claims::types::Claim;
use ac_claims_paths::path::Path;
use ac_claims_paths::places::call_at;
use ac_forms::column_after;
use ac_unfold::claim_trees;
use ac_unfold::types::{NumberedClaims, Planned, ProgramFlows, UnfoldStop, freely};
use std::alloc::{AllocError, Global};

/// Whether two calls stand at the pair of a relation.
fn are_calls(program_flows: &ProgramFlows<'_>, relation: &Claim) -> bool
    ensures { result ≡ false → ¬ (AreCalls (judge program_flows.now) relation.now) }
{
    let programs = &program_flows.programs;
    call_at(programs.left, &relation.left).is_some()
        && call_at(programs.right, &relation.right).is_some()
}

/// What comes of a claim with a number that is unfolded against a table as it stands.
fn planned(
    alloc: Global,
    program_flows: &ProgramFlows<'_>,
    number: usize,
    start: &Claim,
    table: &Table,
) -> Result<Planned, UnfoldStop>
    ensures trees { IfOk result (IfPlans (AreTreesOf program_flows.now table.now.base table.now.claims table.now.tabled table.now.order number start.now)) }
    ensures use_tabled { IfOk result (IfPlans (UseTabled program_flows.now table.now.tabled start.now)) }
    ensures broken { IfOk result (IfBroken (λ path. (u : Unfolding) → IsUnfoldingOf program_flows.now start.now table.now.order u → IsBroken u table.now.claims path)) }
    ensures found { IfOk result (IfBroken (λ path. (u : Unfolding) → IsUnfoldingOf program_flows.now start.now table.now.order u → IsFoundAt u program_flows.now.left_flow.now program_flows.now.right_flow.now table.now.claims path)) }
    ensures causes { IfErr result (StopsUnfolding program_flows.now start.now table.now.claims table.now.order) }
{
    let claims = NumberedClaims {
        base: table.base(),
        claims: table.claims(),
        tabled: table.tabled(),
    };
    claim_trees(alloc, program_flows, number, start, &claims, table.order())
}

/// The number of the next claim that is tabled.
fn next_number(table: &Table) -> Result<usize, AllocError>
    ensures { IfOk result (λ number. number ≡ table.now.base + length table.now.claims + length table.now.tabled) }
{
    let behind = column_after(table.base(), table.claims().len())?;
    column_after(behind, table.tabled().len())
}

/// Tables a relation, if it stands. False where a path of it is broken.
fn table_proved(
    alloc: Global,
    program_flows: &ProgramFlows<'_>,
    relation: Claim,
    table: &mut Table,
) -> Result<bool, AllocError>
    requires { (d : Asked) → IsAmong d table.old.claims → ¬ (claim_positions d ≡ claim_positions relation) }
    ensures adds { AddsTabled program_flows.now table.old table.new }
    ensures done { IfOk result (λ stands. Fails program_flows.now table.old.order table.old.claims relation ⊎ ((stands ≡ true) × IsCovered table.new.tabled relation)) }
{
    let Some(relation) = fitting(alloc, program_flows, relation)? else {
        return Ok(true);
    };
    let number = next_number(table)?;
    match freely(planned(alloc, program_flows, number, &relation, table))? {
        Some(Planned::Plans(trees)) => {
            table.push(relation, trees)?;
            Ok(true)
        }
        Some(Planned::Broken(_)) => Ok(false),
        None => Ok(true),
    }
}

/// What is to be done yet behind a start.
#[derive(Drop)]
enum Task {
    /// What lies behind the relation of a question is to be tabled, and then the relation.
    Question(Path),
    /// A relation is to be tabled. What lies behind it was gone through.
    Relation(Claim),
}

/// Puts questions on the stack, the first one on top.
fn put(tasks: &mut Vec<Task>, questions: Items<Path>) -> Result<(), AllocError>
    ensures { OnOk result (tasks.new.items ≡ tasks.old.items ++ tasks_of questions) }
{
    let mut left = questions.into_vec();
    while let Some(question) = left.pop() {
        tasks.push(Task::Question(question))?;
    }
    Ok(())
}

/// Whether nothing is to be done for a relation: its pair has a claim, or a relation that says no more was met or tabled before.
fn is_met(table: &Table, met: &[Claim], relation: &Claim) -> bool
    ensures met { result ≡ true → IsMet table.now met.now relation.now }
    ensures free { result ≡ false → ¬ (HasClaim table.now.claims (claim_positions relation.now)) }
{
    if is_claimed(table.claims(), relation) {
        return true;
    }
    if is_covered(met, relation) {
        return true;
    }
    is_covered(table.tabled(), relation)
}

/// Meets a relation: the questions behind it come next, and then the relation.
fn meet(
    alloc: Global,
    program_flows: &ProgramFlows<'_>,
    table: &Table,
    relation: Claim,
    met: &mut Items<Claim>,
    tasks: &mut Vec<Task>,
) -> Result<(), AllocError>
    ensures met { OnOk result (met.new ≡ met.old ++ relation ∷ []) }
    ensures tasks { OnOk result (tasks.new.items ≡ tasks.old.items ++ tasks_behind program_flows.now table.now relation) }
    ensures ends { OnOk result (work_left met.new tasks.new.items ≤ work_left met.old tasks.old.items) }
{
    met.push(copy_of(alloc, &relation)?)?;
    let questions = questions_behind(alloc, program_flows, table.order(), &relation)?;
    // Both counts are machine numbers, so the work that is left gets less.
    let _met = met.len();
    let _questions = questions.len();
    tasks.push(Task::Relation(relation))?;
    put(tasks, questions)?;
    Ok(())
}

/// Takes a question: its relation is met, unless it has none or nothing is to be done for it.
fn take_question(
    alloc: Global,
    program_flows: &ProgramFlows<'_>,
    table: &Table,
    question: &Path,
    met: &mut Items<Claim>,
    tasks: &mut Vec<Task>,
) -> Result<(), AllocError>
    requires { (c : Asked) × IsStepBehind program_flows.now table.now.order c question.now }
    ensures goes { OnOk result ((start : Asked) → IsUnderWay program_flows.now table.now start met.old (tasks.old.items ++ Question question.now ∷ []) → IsUnderWay program_flows.now table.now start met.new tasks.new.items) }
    ensures ends { OnOk result (work_left met.new tasks.new.items ≤ work_left met.old tasks.old.items) }
{
    let params = program_flows.programs.left.params;
    let Some(relation) = relation_of(alloc, params, question, program_flows.budget)? else {
        return Ok(());
    };
    if is_met(table, met.as_slice(), &relation) {
        return Ok(());
    }
    meet(alloc, program_flows, table, relation, met, tasks)?;
    Ok(())
}

/// Tables a relation, where two calls stand at its pair and it stands. False where a path of it is known to be broken.
fn take_relation(
    alloc: Global,
    program_flows: &ProgramFlows<'_>,
    relation: Claim,
    table: &mut Table,
) -> Result<bool, AllocError>
    requires { ¬ (HasClaim table.old.claims (claim_positions relation)) }
    ensures adds { AddsTabled program_flows.now table.old table.new }
    ensures done { IfOk result (λ stands. Fails program_flows.now table.old.order table.old.claims relation ⊎ ((stands ≡ true) × (AreCalls (judge program_flows.now) relation → IsCovered table.new.tabled relation))) }
{
    if !are_calls(program_flows, &relation) {
        return Ok(true);
    }
    table_proved(alloc, program_flows, relation, table)
}

/// Takes the task that was on top of the others. False where a path of a relation is known to be broken.
fn take_task(
    alloc: Global,
    program_flows: &ProgramFlows<'_>,
    task: Task,
    table: &mut Table,
    met: &mut Items<Claim>,
    tasks: &mut Vec<Task>,
) -> Result<bool, AllocError>
    requires { (start : Asked) × IsUnderWay program_flows.now table.old start met.old (tasks.old.items ++ task ∷ []) }
    ensures adds { AddsTabled program_flows.now table.old table.new }
    ensures goes { IfOk result (λ stands. (start : Asked) → IsUnderWay program_flows.now table.old start met.old (tasks.old.items ++ task ∷ []) → (stands ≡ false → IsHindered program_flows.now table.new.order table.new.claims start) × IsUnderWay program_flows.now table.new start met.new tasks.new.items) }
    ensures ends { OnOk result (work_left met.new tasks.new.items ≤ work_left met.old tasks.old.items) }
{
    match task {
        Task::Question(question) => {
            take_question(alloc, program_flows, table, &question, met, tasks)?;
            Ok(true)
        }
        Task::Relation(relation) => take_relation(alloc, program_flows, relation, table),
    }
}

/// Tables what lies behind the pairs of a start: the relations of the questions to which steps lead from there, depth first and in
/// order, up to the first of which a path is broken. Each point of such a relation is reached from the start, which does not stand then.
fn table_behind(
    alloc: Global,
    program_flows: &ProgramFlows<'_>,
    start: &Claim,
    table: &mut Table,
) -> Result<(), AllocError>
    ensures adds { AddsTabled program_flows.now table.old table.new }
    ensures tabled { OnOk result (IsThorough program_flows.now table.new start.now ⊎ IsHindered program_flows.now table.new.order table.new.claims start.now) }
{
    let mut met = Items::new(alloc);
    let mut tasks = Vec::new(alloc);
    let questions = questions_behind(alloc, program_flows, table.order(), start)?;
    put(&mut tasks, questions)?;
    while let Some(task) = tasks.pop() {
        let stands = take_task(alloc, program_flows, task, table, &mut met, &mut tasks)?;
        if !stands {
            return Ok(());
        }
    }
    Ok(())
}

/// Unfolds a start against a table, to which is added what is proved on the way; the start has the number `number` in the proof.
///
/// The plans of the start end at the claims of the table, and at tabled ones where their rows stand. A judge of proofs accepts them
/// where the claims have the numbers from the base on, and the tabled ones those behind them. So it is with the plans of each tabled
/// claim, which end at the claims and at those that were tabled before it. A path that is broken leads to a mismatch or to a claim of the
/// table, and a stop is one of the start: what is asked of relations is never its cause.
pub fn unfold(
    alloc: Global,
    program_flows: &ProgramFlows<'_>,
    number: usize,
    start: &Claim,
    table: &mut Table,
) -> Result<Planned, UnfoldStop>
    ensures trees { IfOk result (IfPlans (AreTreesOf program_flows.now table.new.base table.new.claims table.new.tabled table.new.order number start.now)) }
    ensures use_tabled { IfOk result (IfPlans (UseTabled program_flows.now table.new.tabled start.now)) }
    ensures broken { IfOk result (IfBroken (λ path. (u : Unfolding) → IsUnfoldingOf program_flows.now start.now table.new.order u → IsBroken u table.new.claims path)) }
    ensures found { IfOk result (IfBroken (λ path. (u : Unfolding) → IsUnfoldingOf program_flows.now start.now table.new.order u → IsFoundAt u program_flows.now.left_flow.now program_flows.now.right_flow.now table.new.claims path)) }
    ensures causes { IfErr result (StopsUnfolding program_flows.now start.now table.new.claims table.new.order) }
    ensures kept { Grows table.old table.new }
    ensures valid { AreTabled program_flows.now table.old → AreTabled program_flows.now table.new }
    ensures tabled { IfOk result (λ planned. IsThorough program_flows.now table.new start.now ⊎ IsHindered program_flows.now table.new.order table.new.claims start.now) }
{
    table_behind(alloc, program_flows, start, table)?;
    planned(alloc, program_flows, number, start, table)
}
