//! Questions of an unfolding.
ghost use Rattle.std.specs.Prelude.{◌≡◌, ℤ, IfErr, IfOk, IfSome, List, Ok, true, false};
ghost use Rattle.ac_cert.specs.AcceptedTrees.{Accepts, absurd_refusals};
ghost use Rattle.ac_forms.specs.Rows.{Holds, Meets, IsRowOver, IsWellMade};
ghost use Rattle.ac_forms.specs.Standing.{stands};
ghost use Rattle.ac_claims_paths.specs.declared.path.Path.{Path};
ghost use Rattle.ac_claims_plans.specs.declared.embedding.Embedding.{Embedding};
ghost use Rattle.ac_unfold.specs.UnfoldCauses.{stop_of};
ghost use Rattle.ac_unfold.specs.UnfoldStops.{StopsAsking};
ghost use Rattle.ac_unfold.specs.RequiredRows.{IsRefused, IsWanted};
ghost use Rattle.ac_unfold.specs.PlanResults.{IsAnswer, IsOpen, IsRefuted, IsStanding};
ghost use Rattle.ac_unfold.specs.EndResults.{IsNeverFull};
ghost use Rattle.ac_unfold.specs.PlanGaps.{HasNone, IsShown, IsShownOpen};
ghost use Rattle.ac_unfold.specs.BrokenPathResults.{IsPointIn, IsUnmet, KeepsPairPath};
ghost use Rattle.ac_unfold.specs.UnbrokenResults.{IsEmptyOpen};

use crate::node::Node;
use crate::types::{UnfoldStop, freely};
use crate::witness::continued;
use ac_cert::{Absurd, Tree};
use ac_cert_short::{Reduction, trim};
use ac_claims::types::Plan;
use ac_claims_plans::moved_plan;
use ac_forms::{Conj, FormStop, NormalRow, Row, stands};
use ac_omega::{Decided, Decision, Stop, settle, settle_point};
use ac_simplex::{Found, USUAL, attempt};
use std::alloc::{AllocError, Global};

/// What a question comes to.
#[derive(Drop)]
pub(crate) enum Answer {
    /// It has no point; where plans are made, the plan that shows it.
    Empty(Option<Plan>),
    /// A point.
    Point(Vec<i128>),
}

/// The same stop.
fn unfold_stop(stop: Stop) -> UnfoldStop
    ensures { result ≡ stop_of stop }
{
    match stop {
        Stop::Overflow(question) => UnfoldStop::Overflow(question),
        Stop::Spent { question, cost } => UnfoldStop::Spent { question, cost },
        Stop::Memory(want) => UnfoldStop::Memory(want),
    }
}

/// The plan that a certificate on a node's question is.
fn plan_by(alloc: Global, node: &Node, tree: &Tree<Absurd>) -> Result<Plan, AllocError>
    requires made { IsWellMade node.now.question.conj }
    requires accepted { Accepts tree.now absurd_refusals node.now.question.conj }
    ensures { IfOk result (IsRefuted node.now.embedding node.now.question) }
{
    let plan = moved_plan(alloc, &node.embedding, tree)?;
    Ok(plan)
}

/// Whether a question has a point, with a plan where it has none.
fn decide_with_plan(alloc: Global, node: &Node, budget: u64) -> Result<Answer, UnfoldStop>
    ensures shown { IfOk result IsShown }
    ensures none { IfOk result (HasNone node.now.question.conj) }
    ensures point { IfOk result (IsPointIn node.now.question.conj) }
    ensures answer { IfOk result (IsAnswer node.now.embedding node.now.question) }
    ensures causes { IfErr result (StopsAsking budget node.now.question.conj) }
    ensures full { IfErr result IsNeverFull }
{
    if !node.question.conj.is_well_made() {
        return Err(UnfoldStop::Memory(AllocError));
    }
    match attempt(alloc, &node.question.conj, USUAL)? {
        Some(Found::Empty(tree)) => {
            let plan = plan_by(alloc, node, &tree)?;
            Ok(Answer::Empty(Some(plan)))
        }
        Some(Found::Point(point)) => Ok(Answer::Point(point)),
        None => decide_by_elimination(alloc, node, budget),
    }
}

/// The same, of a question that the attempt leaves open.
fn decide_by_elimination(alloc: Global, node: &Node, budget: u64) -> Result<Answer, UnfoldStop>
    requires { IsWellMade node.now.question.conj }
    ensures shown { IfOk result IsShown }
    ensures none { IfOk result (HasNone node.now.question.conj) }
    ensures point { IfOk result (IsPointIn node.now.question.conj) }
    ensures answer { IfOk result (IsAnswer node.now.embedding node.now.question) }
    ensures causes { IfErr result (StopsAsking budget node.now.question.conj) }
    ensures full { IfErr result IsNeverFull }
{
    match settle(alloc, &node.question.conj, budget) {
        Ok(Decision::Empty(tree)) => {
            let tree = trim(alloc, node.question.conj.rows.len(), tree)?;
            let plan = plan_by(alloc, node, &tree)?;
            Ok(Answer::Empty(Some(plan)))
        }
        Ok(Decision::Point(point)) => Ok(Answer::Point(point)),
        Err(stop) => Err(unfold_stop(stop)),
    }
}

/// Whether rows have a point.
pub(crate) fn decide_point(alloc: Global, conj: &Conj, budget: u64) -> Result<Answer, UnfoldStop>
    ensures answer { (s : Embedding) (q : Path) → IfOk result (IsAnswer s q) }
    ensures none { IfOk result (HasNone conj.now) }
    ensures point { IfOk result (IsPointIn conj.now) }
    ensures causes { IfErr result (StopsAsking budget conj.now) }
    ensures full { IfErr result IsNeverFull }
{
    if !conj.is_well_made() {
        return Err(UnfoldStop::Memory(AllocError));
    }
    match attempt(alloc, conj, USUAL)? {
        Some(Found::Empty(_)) => Ok(Answer::Empty(None)),
        Some(Found::Point(point)) => Ok(Answer::Point(point)),
        None => find_by_elimination(alloc, conj, budget),
    }
}

/// The same, of rows that the attempt leaves open.
fn find_by_elimination(alloc: Global, conj: &Conj, budget: u64) -> Result<Answer, UnfoldStop>
    requires { IsWellMade conj.now }
    ensures answer { (s : Embedding) (q : Path) → IfOk result (IsAnswer s q) }
    ensures none { IfOk result (HasNone conj.now) }
    ensures point { IfOk result (IsPointIn conj.now) }
    ensures causes { IfErr result (StopsAsking budget conj.now) }
    ensures full { IfErr result IsNeverFull }
{
    match settle_point(alloc, conj, budget) {
        Ok(Decided::Empty(_)) => Ok(Answer::Empty(None)),
        Ok(Decided::Point(point)) => Ok(Answer::Point(point)),
        Err(stop) => Err(unfold_stop(stop)),
    }
}

/// Whether a question has a point; where plans are made, with the plan that shows that it has none.
pub(crate) fn decide_question(
    alloc: Global,
    node: &Node,
    budget: u64,
    making: bool,
) -> Result<Answer, UnfoldStop>
    ensures shown { making ≡ true → IfOk result IsShown }
    ensures answer { IfOk result (IsAnswer node.now.embedding node.now.question) }
    ensures none { IfOk result (HasNone node.now.question.conj) }
    ensures point { IfOk result (IsPointIn node.now.question.conj) }
    ensures causes { IfErr result (StopsAsking budget node.now.question.conj) }
    ensures full { IfErr result IsNeverFull }
{
    if making {
        decide_with_plan(alloc, node, budget)
    } else {
        decide_point(alloc, &node.question.conj, budget)
    }
}

/// The answer that a sum of rows gives to a question, if one does: it has no point; where plans are made, with the plan that shows
/// it.
pub(crate) fn decide_by_sum(
    alloc: Global,
    node: &Node,
    reduction: &Reduction,
    making: bool,
) -> Result<Option<Answer>, AllocError>
    ensures shown { making ≡ true → IfOk result (λ seen. IfSome seen IsShown) }
    ensures answer { IfOk result (λ seen. IfSome seen (IsAnswer node.now.embedding node.now.question)) }
    ensures none { IfOk result (λ seen. IfSome seen (HasNone node.now.question.conj)) }
{
    let question = &node.question.conj;
    if !question.is_well_made() {
        return Ok(None);
    }
    match reduction.refuting_sum(alloc, question)? {
        Some(tree) if making => {
            let plan = plan_by(alloc, node, &tree)?;
            Ok(Some(Answer::Empty(Some(plan))))
        }
        Some(_) => Ok(Some(Answer::Empty(None))),
        None => Ok(None),
    }
}

/// What comes of a question before it is unfolded.
#[derive(Drop)]
pub(crate) enum Opened {
    /// It has no point; where plans are made, the plan that shows it.
    Empty(Option<Plan>),
    /// It may have one: the node, with a point of its question where one is known.
    On(Node),
}

/// A node whose question may have a point. It is not asked where the point that is known goes on to it.
pub(crate) fn open_question(
    alloc: Global,
    node: Node,
    budget: u64,
    making: bool,
) -> Result<Opened, AllocError>
    ensures shown { making ≡ true → IfOk result IsShownOpen }
    ensures open { IfOk result (IsOpen node.embedding node.question) }
    ensures none { IfOk result (IsEmptyOpen node.question.conj) }
    ensures pair_path { IfOk result (KeepsPairPath node) }
{
    if let Some(point) = continued(alloc, &node.question.conj, node.known.as_slice())? {
        return Ok(Opened::On(node.knowing(point)));
    }
    match freely(decide_question(alloc, &node, budget, making))? {
        Some(Answer::Empty(plan)) => Ok(Opened::Empty(plan)),
        Some(Answer::Point(point)) => Ok(Opened::On(node.knowing(point))),
        None => Ok(Opened::On(node)),
    }
}

/// Whether a row over a question's columns stands among its rows.
#[tactic(auto, using(ac_claims_paths::proofs::Moduli::conj_moduli))]
pub(crate) fn stands_in(alloc: Global, conj: &Conj, row: &Row) -> Result<bool, AllocError>
    ensures stands { IfOk result (λ standing. standing ≡ true → IsStanding conj.now row.now) }
    ensures fails { IfOk result (λ standing. standing ≡ false → IsWellMade conj.now → IsRowOver conj.now.columns row.now → stands conj.now.rows row.now ≡ false) }
    ensures holds { IfOk result (λ standing. standing ≡ true → (p : List ℤ) → Meets conj.now.rows p → Holds row.now p) }
{
    if !conj.is_well_made() || !row.is_over(conj.columns) {
        return Ok(false);
    }
    stands(alloc, conj.rows.as_slice(), row)
}

/// What a row is that does not stand yet.
pub(crate) enum Wanted {
    /// It stands where it is added.
    Standing,
    /// No point meets it.
    Absurd,
    /// It is not over these columns, or it has no normal form in `i128`.
    Wide,
}

/// What a row is that does not stand yet among rows over so many columns.
pub(crate) fn kind_of(alloc: Global, row: &Row, columns: usize) -> Result<Wanted, AllocError>
    ensures wanted { IfOk result (IsWanted columns row.now) }
    ensures unmet { IfOk result (IsUnmet columns row.now) }
    ensures refused { IfOk result (IsRefused columns row.now) }
{
    if !row.is_over(columns) {
        return Ok(Wanted::Wide);
    }
    match row.normalise(alloc) {
        Ok(NormalRow::Absurd) => Ok(Wanted::Absurd),
        Ok(_) => Ok(Wanted::Standing),
        Err(FormStop::Wide) => Ok(Wanted::Wide),
        Err(FormStop::Memory(want)) => Err(want),
    }
}
