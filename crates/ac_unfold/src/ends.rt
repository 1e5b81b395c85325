//! The ends of paths: a mismatch, and rows that have to stand.
ghost use Rattle.std.specs.Prelude.{◌≡◌, ◌∷◌, [], ℤ, List, IfOk, IfSome, None, OnOk, Some, is_some, true, IfErr, false};
ghost use Rattle.ac_forms.specs.Rows.{Holds, IsRowOver, IsWellMade};
ghost use Rattle.ac_claims_plans.specs.BranchSides.{sides_of, CanBranch};
ghost use Rattle.ac_unfold.specs.OpenBranches.{IsBehind};
ghost use Rattle.ac_unfold_plans.specs.PlanEnds.{IsEnd};
ghost use Rattle.ac_unfold.specs.PlanResults.{judge_of, IsEndFor, IsMade, IsRefuted};
ghost use Rattle.ac_unfold.specs.PlanGaps.{FindsClosed, FindsElse, FindsStood};
ghost use Rattle.ac_unfold.specs.EndResults.{FullBy};
ghost use Rattle.ac_unfold.specs.BrokenPathResults.{Adds, IsNone, IsPathAt, IsPathBeside, IsPathBreaking, KeepsNode};
ghost use Rattle.ac_unfold.specs.EndRows.{AreStood, IsClosed, IsEndedPlan, IsStood};
ghost use Rattle.ac_unfold.specs.UnbrokenStarts.{AllHold, HasNoPoint};
ghost use Rattle.ac_unfold.specs.UnfoldStops.{HandsBack, StopsAsking, StopsOutside, StopsStanding};
ghost use Rattle.ac_unfold.specs.UnbrokenResults.{FindsNone, IsAllRefuted, HoldsOrEnds};
ghost use Rattle.ac_unfold.specs.RequiredRows.{CanStand};

use crate::breaks::BrokenPaths;
use crate::course::Course;
use crate::decide::{Answer, Wanted, decide_by_sum, decide_question, kind_of, stands_in};
use crate::further::{again, further};
use crate::node::Node;
use crate::types::{ProgramFlows, UnfoldStop};
use ac_base::Items;
use ac_cert_short::Reduction;
use ac_claims::types::{Claim, Plan, PlanNext};
use ac_claims_plans::{Part, parts_of, plan_of};
use ac_forms::Row;
use ac_syntax::tree::{Order, Site};
use std::alloc::{AllocError, Global};

/// What an unfolding looks for: the broken paths of a start against claims, under an order of the sites, or plans, in which the
/// claims are numbered from `base` on, and behind them tabled ones.
#[derive(Clone, Copy)]
pub(crate) struct Search<'a> {
    pub program_flows: &'a ProgramFlows<'a>,
    pub budget: u64,
    pub claims: &'a [Claim],
    pub tabled: &'a [Claim],
    pub base: usize,
    pub order: &'a [(Site, Order)],
    pub making: bool,
}

impl Search<'_> {
    /// The number of parameters.
    pub(crate) fn params(&self) -> usize
        ensures { result ≡ (judge_of self.now).params }
    {
        let programs = &self.program_flows.programs;
        programs.left.params
    }

    /// The question of a node, handed back as one that is too wide.
    pub(crate) fn too_wide(&self, alloc: Global, node: &Node) -> UnfoldStop
        ensures { HandsBack node.now.question.conj (Unit {0}) result }
    {
        match node.question.conj.copy(alloc) {
            Ok(question) => UnfoldStop::Overflow(question),
            Err(want) => UnfoldStop::Memory(want),
        }
    }
}

/// A node whose question has no point where the start stands: its plan, or its path is broken.
pub(crate) fn refuted(
    alloc: Global,
    search: &Search<'_>,
    node: &Node,
    found_paths: &mut BrokenPaths,
) -> Result<Option<Plan>, UnfoldStop>
    ensures missing { IfOk result (λ made. FindsElse search.now made found_paths.old found_paths.new) }
    ensures made { IfOk result (λ made. IfSome made (IsRefuted node.now.embedding node.now.question)) }
    ensures empty { OnOk result (FindsNone search.now found_paths.old found_paths.new → HasNoPoint node.now.question.conj) }
    ensures found { OnOk result (Adds (IsPathAt (judge_of search.now).params node.now.pair_path node.now.question.conj) IsNone found_paths.old found_paths.new) }
    ensures causes { IfErr result (StopsAsking search.now.budget node.now.question.conj) }
    ensures full { IfErr result (FullBy IsNone found_paths.old.ended) }
{
    match decide_question(alloc, node, search.budget, search.making)? {
        Answer::Empty(plan) => Ok(plan),
        Answer::Point(point) => {
            found_paths.push(alloc, search.params(), node, &point)?;
            Ok(None)
        }
    }
}

/// A part of a row's negation has no point where the start stands: its plan, or its path is broken.
fn refuted_part(
    alloc: Global,
    search: &Search<'_>,
    beside: &Node,
    reduction: &Reduction,
    found_paths: &mut BrokenPaths,
) -> Result<Option<Plan>, UnfoldStop>
    ensures missing { IfOk result (λ made. FindsElse search.now made found_paths.old found_paths.new) }
    ensures made { IfOk result (λ made. IfSome made (IsRefuted beside.now.embedding beside.now.question)) }
    ensures empty { OnOk result (FindsNone search.now found_paths.old found_paths.new → HasNoPoint beside.now.question.conj) }
    ensures found { OnOk result (Adds (IsPathAt (judge_of search.now).params beside.now.pair_path beside.now.question.conj) IsNone found_paths.old found_paths.new) }
    ensures causes { IfErr result (StopsAsking search.now.budget beside.now.question.conj) }
    ensures full { IfErr result (FullBy IsNone found_paths.old.ended) }
{
    match decide_by_sum(alloc, beside, reduction, search.making)? {
        Some(Answer::Empty(plan)) => Ok(plan),
        Some(Answer::Point(_)) | None => refuted(alloc, search, beside, found_paths),
    }
}

/// What comes of the parts of a row's negation.
#[derive(Drop)]
enum Closed {
    /// One has a point.
    Broken,
    /// None has one; the plans that show it, where plans are made.
    Refuted(Vec<Plan>),
}

/// Asks for the parts of a row's negation, in order, up to the first that has a point.
fn refute_parts(
    alloc: Global,
    search: &Search<'_>,
    node: &Node,
    outside: &[Part],
    reduction: &Reduction,
    found_paths: &mut BrokenPaths,
) -> Result<Closed, UnfoldStop>
    ensures missing { IfOk result (λ made. FindsClosed search.now made found_paths.old found_paths.new) }
    ensures closed { IfOk result (IsClosed search.now node.now outside.now) }
    ensures empty { IfOk result (λ closed. FindsNone search.now found_paths.old found_paths.new → IsAllRefuted node.now.question.conj outside.now closed) }
    ensures found { OnOk result (Adds (IsPathBeside (judge_of search.now).params node.now.pair_path node.now.question.conj outside.now) IsNone found_paths.old found_paths.new) }
    ensures causes { IfErr result (StopsOutside search.now.budget node.now.question.conj outside.now) }
    ensures full { IfErr result (FullBy IsNone found_paths.old.ended) }
{
    let mut plans = Vec::new(alloc);
    for part in outside {
        let before = found_paths.len();
        let beside = node.within(alloc, part)?;
        match refuted_part(alloc, search, &beside, reduction, found_paths)? {
            Some(plan) => {
                plans.push(plan)?;
                continue;
            }
            None => {
                if search.making || found_paths.len() > before {
                    return Ok(Closed::Broken);
                }
                continue;
            }
        }
    }
    Ok(Closed::Refuted(plans))
}

/// What comes of a row that has to stand.
#[derive(Drop)]
enum Stood {
    /// It stands.
    On(Course),
    /// The course has ended, with a plan where plans are made and the path is not broken.
    Ended(Option<Plan>),
}

/// The plan that ends as said, where there is an end.
fn ended(alloc: Global, course: Course, end: Option<Plan>) -> Result<Option<Plan>, AllocError>
    ensures missing { IfOk result (λ made. made ≡ None → end ≡ None) }
    ensures made { IfOk result (λ made. IfSome made (λ t. IsEndedPlan course end t)) }
{
    match end {
        Some(end) => {
            let plan = course.closed(alloc, end)?;
            Ok(Some(plan))
        }
        None => Ok(None),
    }
}

/// An absurd row has to stand: the question has no point.
fn stand_absurd(
    alloc: Global,
    search: &Search<'_>,
    course: Course,
    row: &Row,
    found_paths: &mut BrokenPaths,
) -> Result<Stood, UnfoldStop>
    requires { IsRowOver course.node.question.conj.columns row.now × ((p : List ℤ) → ¬ (Holds row.now p)) }
    ensures missing { IfOk result (λ made. FindsStood search.now made found_paths.old found_paths.new) }
    ensures stood { IfOk result (IsStood search.now course row.now) }
    ensures met { IsWellMade course.node.question.conj → IfOk result (λ stood. FindsNone search.now found_paths.old found_paths.new → HoldsOrEnds course.node.question.conj row.now stood) }
    ensures kept { IfOk result (KeepsNode course) }
    ensures found { OnOk result (Adds (IsPathBreaking (judge_of search.now).params course.node.pair_path course.node.question.conj (row.now ∷ [])) IsNone found_paths.old found_paths.new) }
    ensures causes { IfErr result (StopsStanding search.now.budget course.node.question.conj (row.now ∷ [])) }
    ensures full { IfErr result (FullBy IsNone found_paths.old.ended) }
{
    let end = refuted(alloc, search, &course.node, found_paths)?;
    let made = ended(alloc, course, end)?;
    Ok(Stood::Ended(made))
}

/// A row that is not there has to stand: no part of its negation has a point.
fn stand_branched(
    alloc: Global,
    search: &Search<'_>,
    course: Course,
    row: &Row,
    reduction: &Reduction,
    found_paths: &mut BrokenPaths,
) -> Result<Stood, UnfoldStop>
    requires { CanStand course.node.question.conj.columns row.now }
    ensures missing { IfOk result (λ made. FindsStood search.now made found_paths.old found_paths.new) }
    ensures stood { IfOk result (IsStood search.now course row.now) }
    ensures met { IsWellMade course.node.question.conj → IfOk result (λ stood. FindsNone search.now found_paths.old found_paths.new → HoldsOrEnds course.node.question.conj row.now stood) }
    ensures kept { IfOk result (KeepsNode course) }
    ensures found { OnOk result (Adds (IsPathBreaking (judge_of search.now).params course.node.pair_path course.node.question.conj (row.now ∷ [])) IsNone found_paths.old found_paths.new) }
    ensures causes { IfErr result (StopsStanding search.now.budget course.node.question.conj (row.now ∷ [])) }
    ensures full { IfErr result (FullBy IsNone found_paths.old.ended) }
{
    let Some(parts) = parts_of(alloc, row, course.node.question.conj.columns)? else {
        return Err(search.too_wide(alloc, &course.node));
    };
    let closed = refute_parts(
        alloc,
        search,
        &course.node,
        parts.outside.as_slice(),
        reduction,
        found_paths,
    )?;
    match closed {
        Closed::Broken => Ok(Stood::Ended(None)),
        Closed::Refuted(outside) => {
            let next = course.beyond(alloc, row, &parts.inside, outside)?;
            Ok(Stood::On(next))
        }
    }
}

/// A row has to stand.
fn stand_row(
    alloc: Global,
    search: &Search<'_>,
    course: Course,
    row: &Row,
    reduction: &Reduction,
    found_paths: &mut BrokenPaths,
) -> Result<Stood, UnfoldStop>
    ensures missing { IfOk result (λ made. FindsStood search.now made found_paths.old found_paths.new) }
    ensures stood { IfOk result (IsStood search.now course row.now) }
    ensures met { IsWellMade course.node.question.conj → IfOk result (λ stood. FindsNone search.now found_paths.old found_paths.new → HoldsOrEnds course.node.question.conj row.now stood) }
    ensures kept { IfOk result (KeepsNode course) }
    ensures found { OnOk result (Adds (IsPathBreaking (judge_of search.now).params course.node.pair_path course.node.question.conj (row.now ∷ [])) IsNone found_paths.old found_paths.new) }
    ensures causes { IfErr result (StopsStanding search.now.budget course.node.question.conj (row.now ∷ [])) }
    ensures full { IfErr result (FullBy IsNone found_paths.old.ended) }
{
    let standing = stands_in(alloc, &course.node.question.conj, row)?;
    if standing {
        return Ok(Stood::On(course));
    }
    let kind = kind_of(alloc, row, course.node.question.conj.columns)?;
    match kind {
        Wanted::Standing => stand_branched(alloc, search, course, row, reduction, found_paths),
        Wanted::Absurd => stand_absurd(alloc, search, course, row, found_paths),
        Wanted::Wide => Err(search.too_wide(alloc, &course.node)),
    }
}

/// The end of a plan, where plans are made.
fn end_of(alloc: Global, search: &Search<'_>, end: PlanNext) -> Option<Plan>
    ensures there { search.now.making ≡ true → is_some result ≡ true }
    ensures made { IfSome result (IsEnd end) }
{
    if search.making {
        Some(plan_of(alloc, end))
    } else {
        None
    }
}

/// Rows have to stand at a node: each that is not there is branched on, and no part of its negation has a point. The course to
/// where they stand, or its end.
fn stand_rows(
    alloc: Global,
    search: &Search<'_>,
    node: Node,
    rows: &[Row],
    found_paths: &mut BrokenPaths,
) -> Result<Stood, UnfoldStop>
    ensures missing { IfOk result (λ made. FindsStood search.now made found_paths.old found_paths.new) }
    ensures stood { IfOk result (AreStood search.now node rows.now) }
    ensures met { OnOk result (FindsNone search.now found_paths.old found_paths.new → AllHold node.question.conj rows.now) }
    ensures found { OnOk result (Adds (IsPathBreaking (judge_of search.now).params node.pair_path node.question.conj rows.now) (IsPathAt (judge_of search.now).params node.pair_path node.question.conj) found_paths.old found_paths.new) }
    ensures causes { IfErr result (StopsStanding search.now.budget node.question.conj rows.now) }
    ensures full { IfErr result (FullBy (IsPathAt (judge_of search.now).params node.pair_path node.question.conj) found_paths.old.ended) }
{
    if !node.question.conj.is_well_made() {
        return Err(UnfoldStop::Memory(AllocError));
    }
    found_paths.reach(alloc, search.params(), &node)?;
    let reduction = Reduction::of(alloc, &node.question.conj)?;
    let spare = again(alloc, search, &node)?;
    let mut course = Course::new(alloc, node);
    for (at, row) in rows.iter().enumerate() {
        let stood = stand_row(alloc, search, course, row, &reduction, found_paths)?;
        match stood {
            Stood::On(next) => {
                course = next;
                continue;
            }
            Stood::Ended(plan) => {
                further(
                    alloc,
                    search,
                    &spare,
                    &rows[at + 1..],
                    &reduction,
                    found_paths,
                )?;
                return Ok(Stood::Ended(plan));
            }
        }
    }
    Ok(Stood::On(course))
}

/// Rows have to stand at a node: each that is not there is branched on, and no part of its negation has a point. The plan,
/// which ends as said; none where a path is broken, or no plans are made.
pub(crate) fn stand(
    alloc: Global,
    search: &Search<'_>,
    node: Node,
    rows: &[Row],
    end: PlanNext,
    found_paths: &mut BrokenPaths,
) -> Result<Option<Plan>, UnfoldStop>
    requires { IsEndFor search.now node.question rows.now end }
    ensures missing { IfOk result (λ made. FindsElse search.now made found_paths.old found_paths.new) }
    ensures made { IfOk result (λ made. IfSome made (IsMade search.now node.embedding node.question)) }
    ensures met { OnOk result (FindsNone search.now found_paths.old found_paths.new → AllHold node.question.conj rows.now) }
    ensures found { OnOk result (Adds (IsPathBreaking (judge_of search.now).params node.pair_path node.question.conj rows.now) (IsPathAt (judge_of search.now).params node.pair_path node.question.conj) found_paths.old found_paths.new) }
    ensures causes { IfErr result (StopsStanding search.now.budget node.question.conj rows.now) }
    ensures full { IfErr result (FullBy (IsPathAt (judge_of search.now).params node.pair_path node.question.conj) found_paths.old.ended) }
{
    let stood = stand_rows(alloc, search, node, rows, found_paths)?;
    match stood {
        Stood::On(course) => {
            let last = end_of(alloc, search, end);
            let made = ended(alloc, course, last)?;
            Ok(made)
        }
        Stood::Ended(plan) => Ok(plan),
    }
}

/// A pair that does not match: its path must have no point.
pub(crate) fn mismatch(
    alloc: Global,
    search: &Search<'_>,
    node: &Node,
    found_paths: &mut BrokenPaths,
) -> Result<Option<Plan>, UnfoldStop>
    ensures missing { IfOk result (λ made. FindsElse search.now made found_paths.old found_paths.new) }
    ensures made { IfOk result (λ made. IfSome made (IsRefuted node.now.embedding node.now.question)) }
    ensures empty { OnOk result (FindsNone search.now found_paths.old found_paths.new → HasNoPoint node.now.question.conj) }
    ensures found { OnOk result (Adds (IsPathAt (judge_of search.now).params node.now.pair_path node.now.question.conj) (IsPathAt (judge_of search.now).params node.now.pair_path node.now.question.conj) found_paths.old found_paths.new) }
    ensures causes { IfErr result (StopsAsking search.now.budget node.now.question.conj) }
    ensures full { IfErr result (FullBy (IsPathAt (judge_of search.now).params node.now.pair_path node.now.question.conj) found_paths.old.ended) }
{
    found_paths.reach(alloc, search.params(), node)?;
    refuted(alloc, search, node, found_paths)
}

/// Rows that were made.
pub(crate) fn rows_or(
    rows: Option<Items<Row>>,
    alloc: Global,
    search: &Search<'_>,
    node: &Node,
) -> Result<Items<Row>, UnfoldStop>
    ensures rows { IfOk result (λ made. rows ≡ Some made) }
    ensures causes { IfErr result (HandsBack node.now.question.conj (rows ≡ None)) }
{
    match rows {
        Some(rows) => Ok(rows),
        None => Err(search.too_wide(alloc, node)),
    }
}
