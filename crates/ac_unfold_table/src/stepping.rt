//! The questions to which one step leads from the pairs of a claim.
ghost use Rattle.std.specs.Prelude.{◌≡◌, ◌++◌, IfOk, OnOk};
ghost use Rattle.std.specs.Option.{option_to_list};
ghost use Rattle.ac_claims_paths.specs.PathSteps.{at_rows, extended};
ghost use Rattle.ac_widen_programs.specs.PairPathSteps.{at_rest};
ghost use Rattle.ac_unfold_table.specs.StepQuestions.{judge};
ghost use Rattle.ac_unfold_table.specs.QuestionLists.{beside_of, branches_of, cases_of, next_if, next_of, questions_of, reads_of, rests_of};

use ac_base::Items;
use ac_claims::domains::size_at;
use ac_claims::starts::start_at;
use ac_claims::types::Claim;
use ac_claims_paths::going::{branches, join, onto};
use ac_claims_paths::killing::case_columns;
use ac_claims_paths::path::{Path, Side, at_rows};
use ac_claims_paths::places::cell_read;
use ac_flow::types::Case;
use ac_forms::{Conj, FormStop, Row, column_after, push_range, renamed_rows};
use ac_syntax::tree::{Order, Site};
use ac_unfold::steps::{flow_of, order_at};
use ac_unfold::types::ProgramFlows;
use std::alloc::{AllocError, Global};

/// The question at what is left of a case that it assumes: the quotients of the case are further columns. None where nothing is assumed,
/// or a number leaves `i128`.
fn at_rest(
    alloc: Global,
    params: usize,
    question: &Path,
    rest: &Conj,
) -> Result<Option<Path>, AllocError>
    ensures { IfOk result (λ made. made ≡ at_rest params question.now rest.now) }
{
    let Some(assumed) = &question.last else {
        return Ok(None);
    };
    let mut columns = case_columns(alloc, params, assumed)?;
    let further = rest.columns.saturating_sub(columns.len());
    push_range(&mut columns, question.conj.columns, further)?;
    match renamed_rows(alloc, rest.rows.as_slice(), columns.as_slice()) {
        Ok(rows) => Ok(Some(extended(alloc, question, further, rows)?)),
        Err(FormStop::Wide) => Ok(None),
        Err(FormStop::Memory(want)) => Err(want),
    }
}

/// A question with further columns and rows.
fn extended(
    alloc: Global,
    question: &Path,
    further: usize,
    rows: Items<Row>,
) -> Result<Path, AllocError>
    ensures { IfOk result (λ made. made ≡ at_rows question.now (extended question.now.conj further rows)) }
{
    let Conj {
        columns,
        rows: first,
    } = question.conj.copy(alloc)?;
    let conj = Conj {
        columns: column_after(columns, further)?,
        rows: join(first, rows)?,
    };
    Ok(at_rows(question, conj))
}

/// Adds a question, if it is there.
fn push_made(found: &mut Items<Path>, made: Option<Path>) -> Result<(), AllocError>
    ensures { OnOk result (found.new ≡ found.old ++ option_to_list made) }
{
    match made {
        Some(question) => found.push(question)?,
        None => {}
    }
    Ok(())
}

/// Adds the questions at what is left of a case.
fn push_case(
    alloc: Global,
    params: usize,
    question: &Path,
    case: &Case,
    found: &mut Items<Path>,
) -> Result<(), AllocError>
    ensures { OnOk result (found.new ≡ found.old ++ rests_of params question.now case.now) }
{
    for rest in case.pieces.as_slice() {
        push_made(found, at_rest(alloc, params, question, &rest.conj)?)?;
    }
    Ok(())
}

/// Adds the questions at what is left of each case, each at the branch with its number.
fn push_cases(
    alloc: Global,
    params: usize,
    branches: &[Path],
    cases: &[Case],
    found: &mut Items<Path>,
) -> Result<(), AllocError>
    ensures { OnOk result (found.new ≡ found.old ++ cases_of params branches.now cases.now) }
{
    for number in 0..branches.len().min(cases.len()) {
        push_case(alloc, params, &branches[number], &cases[number], found)?;
    }
    Ok(())
}

/// The branches of a question: none where there is no step, or a number leaves `i128`.
fn branches_of(
    alloc: Global,
    program_flows: &ProgramFlows<'_>,
    order: Order,
    question: &Path,
) -> Result<Items<Path>, AllocError>
    ensures { IfOk result (λ made. made ≡ branches_of (judge program_flows.now) order question.now) }
{
    let mut behind = Items::new(alloc);
    let Some(made) = branches(alloc, &program_flows.programs, order, question)? else {
        return Ok(behind);
    };
    for branch in made.into_vec() {
        behind.push(onto(question.copy(alloc)?, branch)?)?;
    }
    Ok(behind)
}

/// Adds the questions to which the step of a read or an output leads: one for each piece of what is left of each case.
fn push_reads(
    alloc: Global,
    program_flows: &ProgramFlows<'_>,
    question: &Path,
    side: Side,
    found: &mut Items<Path>,
) -> Result<(), AllocError>
    ensures { OnOk result (found.new ≡ found.old ++ reads_of program_flows.now side question.now) }
{
    let Some(flow) = flow_of(program_flows, question, side) else {
        return Ok(());
    };
    let behind = branches_of(alloc, program_flows, Order::Keep, question)?;
    push_cases(
        alloc,
        program_flows.programs.left.params,
        behind.as_slice(),
        flow.cases.as_slice(),
        found,
    )
}

/// Adds the questions to which the step of two calls leads: one for each pair of their arguments.
fn push_calls(
    alloc: Global,
    program_flows: &ProgramFlows<'_>,
    order: Order,
    question: &Path,
    found: &mut Items<Path>,
) -> Result<(), AllocError>
    ensures { OnOk result (found.new ≡ found.old ++ branches_of (judge program_flows.now) order question.now) }
{
    let behind = branches_of(alloc, program_flows, order, question)?;
    for branch in behind.into_vec() {
        found.push(branch)?;
    }
    Ok(())
}

/// Adds the questions to which one step leads from a question: none where there is no step, or a number leaves `i128`.
fn push_step(
    alloc: Global,
    program_flows: &ProgramFlows<'_>,
    order: &[(Site, Order)],
    question: &Path,
    found: &mut Items<Path>,
) -> Result<(), AllocError>
    ensures { OnOk result (found.new ≡ found.old ++ next_of program_flows.now order.now question.now) }
{
    let programs = &program_flows.programs;
    let (left, right) = (&question.left.position, &question.right.position);
    if cell_read(alloc, programs.left, left)?.is_some() {
        return push_reads(alloc, program_flows, question, Side::Left, found);
    }
    if cell_read(alloc, programs.right, right)?.is_some() {
        return push_reads(alloc, program_flows, question, Side::Right, found);
    }
    push_calls(
        alloc,
        program_flows,
        order_at(order, left, right),
        question,
        found,
    )
}

/// Adds the questions to which one step leads from a start, if it is made.
fn push_start(
    alloc: Global,
    program_flows: &ProgramFlows<'_>,
    order: &[(Site, Order)],
    start: Option<Path>,
    found: &mut Items<Path>,
) -> Result<(), AllocError>
    ensures { OnOk result (found.new ≡ found.old ++ next_if program_flows.now order.now start) }
{
    match start {
        Some(question) => push_step(alloc, program_flows, order, &question, found),
        None => Ok(()),
    }
}

/// Adds the questions to which one step leads from the pairs of a claim at one piece of its left position.
fn push_beside(
    alloc: Global,
    program_flows: &ProgramFlows<'_>,
    order: &[(Site, Order)],
    claim: &Claim,
    left: usize,
    rights: usize,
    found: &mut Items<Path>,
) -> Result<(), AllocError>
    ensures { OnOk result (found.new ≡ found.old ++ beside_of program_flows.now order.now claim.now rights left) }
{
    for right in 0..rights {
        let start = start_at(alloc, &program_flows.programs, claim, left, right)?;
        push_start(alloc, program_flows, order, start, found)?;
    }
    Ok(())
}

/// The questions to which one step leads from the pairs of a claim, at all pieces of its positions.
pub(crate) fn questions_behind(
    alloc: Global,
    program_flows: &ProgramFlows<'_>,
    order: &[(Site, Order)],
    claim: &Claim,
) -> Result<Items<Path>, AllocError>
    ensures { IfOk result (λ found. found ≡ questions_of program_flows.now order.now claim.now) }
{
    let mut found = Items::new(alloc);
    let Some(lefts) = size_at(alloc, program_flows.programs.left, &claim.left)? else {
        return Ok(found);
    };
    let Some(rights) = size_at(alloc, program_flows.programs.right, &claim.right)? else {
        return Ok(found);
    };
    for left in 0..lefts.pieces {
        push_beside(
            alloc,
            program_flows,
            order,
            claim,
            left,
            rights.pieces,
            &mut found,
        )?;
    }
    Ok(found)
}
