//! What a pair of positions asks for, by what stands at both.
ghost use Rattle.std.specs.Prelude.{◌≡◌, IfErr, IfOk, None, Some, false, true, length, slice_get};
ghost use Rattle.ac_poly.specs.Model.{is_input};
ghost use Rattle.ac_claims_paths.specs.ModelCalls.{pairing};
ghost use Rattle.ac_claims_paths.specs.ModelPositions.{CallAt, call_at, initial_cell, number_at};
ghost use Rattle.ac_unfold.specs.KillCuts.{IsNext};
ghost use Rattle.ac_unfold.specs.EndResults.{IsEndOfSteps};
ghost use Rattle.ac_unfold.specs.PlanResults.{judge_of};
ghost use Rattle.ac_unfold.specs.BrokenPathResults.{IsKindThere, IsLeaf, IsNoNumber};
ghost use Rattle.ac_unfold.specs.UnfoldQuestions.{AreTwoCalls};
ghost use Rattle.ac_unfold.specs.UnfoldStops.{HandsTargets, HasItsCalls, IsMatchOf};

use crate::ends::{Search, rows_or};
use crate::node::Node;
use crate::steps::order_at;
use crate::types::UnfoldStop;
use ac_base::Items;
use ac_claims::types::PlanNext;
use ac_claims_paths::columns::{equal_at, equal_form_at};
use ac_claims_paths::path::{Path, Programs, Side};
use ac_claims_paths::places::{CellForms, call_at, cell_read, initial_cell, number_at};
use ac_claims_paths::symbols::same_symbol;
use ac_forms::{Form, Row};
use ac_poly::types::Model;
use ac_syntax::tree::{Kind, Order};
use std::alloc::Global;

/// What a pair of positions asks for.
#[derive(Drop)]
pub(crate) enum Next {
    /// A read or an output stands on this side.
    Read(Side),
    /// Two calls of one symbol, whose arguments are paired in this order.
    Calls(Order),
    /// Rows that have to stand, and the end of the plan behind them.
    Match(Items<Row>, PlanNext),
    /// The pair does not match.
    Mismatch,
}

/// Two calls of one symbol with as many arguments.
fn are_calls(programs: &Programs<'_>, path: &Path) -> bool
    ensures none { result ≡ false → (c d : CallAt) → call_at (pairing programs.now).left path.now.left.position ≡ Some c → call_at (pairing programs.now).right path.now.right.position ≡ Some d → ¬ ((c.symbol ≡ d.symbol) × (length c.args ≡ length d.args)) }
    ensures there { result ≡ true → AreTwoCalls (pairing programs.now) path.now }
{
    match call_at(programs.left, &path.left.position) {
        None => false,
        Some(left) => match call_at(programs.right, &path.right.position) {
            None => false,
            Some(right) => {
                if same_symbol(left.symbol, right.symbol) {
                    left.args.len() == right.args.len()
                } else {
                    false
                }
            }
        },
    }
}

/// Whether an array is an input.
fn is_input(model: &Model, array: usize) -> bool
    ensures { result ≡ is_input (slice_get model.now.kinds array) }
{
    match model.kinds.get(array) {
        Some(Kind::Input) => true,
        Some(Kind::Local) => false,
        None => false,
    }
}

/// What two numbers ask for: their equality.
fn numbers(
    alloc: Global,
    search: &Search<'_>,
    node: &Node,
    form: &Form,
    other: &Form,
) -> Result<Next, UnfoldStop>
    requires left { number_at (judge_of search.now).left node.now.question.left.position ≡ Some form.now }
    requires right { number_at (judge_of search.now).right node.now.question.right.position ≡ Some other.now }
    ensures next { IfOk result (IsNext search.now node.now.question) }
    ensures kind { IsLeaf (judge_of search.now) node.now.question → IfOk result (IsKindThere search.now node.now.question) }
    ensures calls { IfOk result (HasItsCalls search.now node.now.question) }
    ensures targets { IfOk result (IsMatchOf search.now node.now.question) }
    ensures causes { IfErr result (HandsTargets search.now node.now.question) }
{
    let path = &node.question;
    let rows = equal_form_at(alloc, search.params(), &path.left, form, &path.right, other)?;
    Ok(Next::Match(rows_or(rows, alloc, search, node)?, PlanNext::SameNumber))
}

/// What two initial cells ask for: one input, and the equality of each subscript.
fn cells(
    alloc: Global,
    search: &Search<'_>,
    node: &Node,
    cell: &CellForms,
    other: &CellForms,
) -> Result<Next, UnfoldStop>
    requires left { initial_cell (judge_of search.now).left node.now.question.left.position ≡ Some cell.now }
    requires right { initial_cell (judge_of search.now).right node.now.question.right.position ≡ Some other.now }
    ensures next { IfOk result (IsNext search.now node.now.question) }
    ensures kind { IsNoNumber (judge_of search.now) node.now.question → IfOk result (IsKindThere search.now node.now.question) }
    ensures calls { IfOk result (HasItsCalls search.now node.now.question) }
    ensures targets { IfOk result (IsMatchOf search.now node.now.question) }
    ensures causes { IfErr result (HandsTargets search.now node.now.question) }
{
    let programs = &search.program_flows.programs;
    if cell.array != other.array || !is_input(programs.left, cell.array) {
        return Ok(Next::Mismatch);
    }
    let path = &node.question;
    let rows = equal_at(
        alloc,
        search.params(),
        &path.left,
        cell.subs.as_slice(),
        &path.right,
        other.subs.as_slice(),
    )?;
    Ok(Next::Match(rows_or(rows, alloc, search, node)?, PlanNext::SameInitial))
}

/// What two initial cells of one input ask for.
fn initials(alloc: Global, search: &Search<'_>, node: &Node) -> Result<Next, UnfoldStop>
    ensures next { IfOk result (IsNext search.now node.now.question) }
    ensures kind { IsNoNumber (judge_of search.now) node.now.question → IfOk result (IsKindThere search.now node.now.question) }
    ensures calls { IfOk result (HasItsCalls search.now node.now.question) }
    ensures targets { IfOk result (IsMatchOf search.now node.now.question) }
    ensures causes { IfErr result (HandsTargets search.now node.now.question) }
{
    let programs = &search.program_flows.programs;
    let Some(cell) = initial_cell(alloc, programs.left, &node.question.left.position)? else {
        return Ok(Next::Mismatch);
    };
    match initial_cell(alloc, programs.right, &node.question.right.position)? {
        Some(other) => cells(alloc, search, node, &cell, &other),
        None => Ok(Next::Mismatch),
    }
}

/// What two numbers ask for, or two initial cells of one input.
fn leaves(alloc: Global, search: &Search<'_>, node: &Node) -> Result<Next, UnfoldStop>
    ensures next { IfOk result (IsNext search.now node.now.question) }
    ensures kind { IsLeaf (judge_of search.now) node.now.question → IfOk result (IsKindThere search.now node.now.question) }
    ensures calls { IfOk result (HasItsCalls search.now node.now.question) }
    ensures targets { IfOk result (IsMatchOf search.now node.now.question) }
    ensures causes { IfErr result (HandsTargets search.now node.now.question) }
{
    let programs = &search.program_flows.programs;
    let Some(form) = number_at(programs.left, &node.question.left.position) else {
        return initials(alloc, search, node);
    };
    match number_at(programs.right, &node.question.right.position) {
        Some(other) => numbers(alloc, search, node, form, other),
        None => initials(alloc, search, node),
    }
}

/// What a pair of positions asks for.
pub(crate) fn next_of(alloc: Global, search: &Search<'_>, node: &Node) -> Result<Next, UnfoldStop>
    ensures next { IfOk result (IsNext search.now node.now.question) }
    ensures kind { IfOk result (IsKindThere search.now node.now.question) }
    ensures calls { IfOk result (HasItsCalls search.now node.now.question) }
    ensures targets { IfOk result (IsMatchOf search.now node.now.question) }
    ensures ends { IfOk result (IsEndOfSteps search.now node.now.question) }
    ensures causes { IfErr result (HandsTargets search.now node.now.question) }
{
    let programs = &search.program_flows.programs;
    let (left, right) = (&node.question.left.position, &node.question.right.position);
    if cell_read(alloc, programs.left, left)?.is_some() {
        return Ok(Next::Read(Side::Left));
    }
    if cell_read(alloc, programs.right, right)?.is_some() {
        return Ok(Next::Read(Side::Right));
    }
    if are_calls(programs, &node.question) {
        return Ok(Next::Calls(order_at(search.order, left, right)));
    }
    leaves(alloc, search, node)
}
