//! Hits on tabled claims: what was proved before of the pairs that a path comes to.
ghost use Rattle.std.specs.Prelude.{◌≡◌, ◌+◌, ℤ, IfOk, IfSome, List, None, false, length, true};
ghost use Rattle.ac_forms.specs.Rows.{AreRowsOver, IsWellMade, Meets};
ghost use Rattle.ac_forms.specs.Standing.{all_stand};
ghost use Rattle.ac_claims.specs.declared.types.PlanNext.TheVariants.{Hit};
ghost use Rattle.ac_unfold_plans.specs.TabledUse.{HaveClaimModuli, PassesNone};
ghost use Rattle.ac_unfold.specs.KillCuts.{IsTabledBehind};
ghost use Rattle.ac_unfold.specs.TabledHits.{IsMissed};
ghost use Rattle.ac_unfold.specs.PlanResults.{judge_of, AreStanding, IsEndFor, IsMade};

use crate::breaks::BrokenPaths;
use crate::claiming::{is_of, rows_at};
use crate::decide::stands_in;
use crate::ends::{Search, stand};
use crate::node::Node;
use crate::types::freely;
use ac_claims::types::{Plan, PlanNext};
use ac_claims_plans::plan_of;
use ac_forms::{Conj, Row, column_after};
use std::alloc::{AllocError, Global};

/// Whether each of some rows stands among those of a question.
pub(crate) fn all_stand(alloc: Global, conj: &Conj, rows: &[Row]) -> Result<bool, AllocError>
    ensures stand { IfOk result (λ all. all ≡ true → AreStanding conj.now rows.now) }
    ensures holds { IfOk result (λ all. all ≡ true → (p : List ℤ) → Meets conj.now.rows p → Meets rows.now p) }
    ensures fails { IfOk result (λ all. all ≡ false → IsWellMade conj.now → AreRowsOver conj.now.columns rows.now → all_stand conj.now.rows rows.now ≡ false) }
{
    for row in rows {
        let standing = stands_in(alloc, conj, row)?;
        if !standing {
            return Ok(false);
        }
    }
    Ok(true)
}

/// The number of a tabled claim among all claims.
fn number_of(search: &Search<'_>, number: usize) -> Result<usize, AllocError>
    ensures { IfOk result (λ behind. behind ≡ search.now.base + length search.now.claims.now + number) }
{
    let first = column_after(search.base, search.claims.len())?;
    column_after(first, number)
}

/// The plan of a hit on a tabled claim that asks for rows at a node: at once where they stand among the node's rows, and
/// elsewhere by questions that are never a cause.
fn hit_on(
    alloc: Global,
    search: &Search<'_>,
    node: &Node,
    number: usize,
    rows: &[Row],
) -> Result<Option<Plan>, AllocError>
    requires { IsEndFor search.now node.now.question rows.now (Hit (search.now.base + length search.now.claims.now + number)) }
    ensures made { IfOk result (λ made. IfSome made (IsMade search.now node.now.embedding node.now.question)) }
    ensures missed { IfOk result (λ made. made ≡ None → IsWellMade node.now.question.conj → AreRowsOver node.now.question.conj.columns rows.now → all_stand node.now.question.conj.rows rows.now ≡ false) }
{
    let behind = number_of(search, number)?;
    let end = PlanNext::Hit(behind);
    let standing = all_stand(alloc, &node.question.conj, rows)?;
    if standing {
        return Ok(Some(plan_of(alloc, end)));
    }
    let again = node.copy(alloc)?;
    let mut spare = BrokenPaths::new(alloc);
    let asked = freely(stand(alloc, search, again, rows, end, &mut spare))?;
    match asked {
        Some(made) => Ok(made),
        None => Ok(None),
    }
}

/// The plan of a hit on a tabled claim, where its rows are known to stand at a node of its pair.
fn hit(
    alloc: Global,
    search: &Search<'_>,
    node: &Node,
    number: usize,
) -> Result<Option<Plan>, AllocError>
    requires { IsTabledBehind search.now node.now.question number }
    ensures made { IfOk result (λ made. IfSome made (IsMade search.now node.now.embedding node.now.question)) }
    ensures missed { IfOk result (λ made. made ≡ None → IsWellMade node.now.question.conj → IsMissed search.now node.now.question number) }
{
    let Some(claim) = search.tabled.get(number) else {
        return Ok(None);
    };
    let wanted = freely(rows_at(alloc, search, node, claim))?;
    match wanted {
        Some(rows) => hit_on(alloc, search, node, number, rows.as_slice()),
        None => Ok(None),
    }
}

/// The plan of a hit on the first tabled claim of a node's pair whose rows are known to stand there. Where there is none, the judge would accept
/// no hit on a tabled claim at the node's question.
fn first_hit(alloc: Global, search: &Search<'_>, node: &Node) -> Result<Option<Plan>, AllocError>
    requires gone { node.now.question.gone ≡ true }
    requires well { IsWellMade node.now.question.conj }
    ensures made { IfOk result (λ made. IfSome made (IsMade search.now node.now.embedding node.now.question)) }
    ensures none { IfOk result (λ made. made ≡ None → HaveClaimModuli search.now.tabled.now → PassesNone (judge_of search.now) search.now.tabled.now node.now.question) }
{
    let (left, right) = (&node.question.left.position, &node.question.right.position);
    for number in 0..search.tabled.len() {
        let claim = &search.tabled[number];
        if !is_of(claim, left, right) {
            continue;
        }
        let made = hit(alloc, search, node, number)?;
        match made {
            Some(plan) => return Ok(Some(plan)),
            None => continue,
        }
    }
    Ok(None)
}

/// The same behind a step where plans are made, and none elsewhere.
pub(crate) fn tabled_hit(
    alloc: Global,
    search: &Search<'_>,
    node: &Node,
) -> Result<Option<Plan>, AllocError>
    ensures making { IfOk result (λ made. IfSome made (λ plan. search.now.making ≡ true)) }
    ensures made { IfOk result (λ made. IfSome made (IsMade search.now node.now.embedding node.now.question)) }
    ensures none { IfOk result (λ made. made ≡ None → search.now.making ≡ true → HaveClaimModuli search.now.tabled.now → PassesNone (judge_of search.now) search.now.tabled.now node.now.question) }
{
    if !search.making {
        return Ok(None);
    }
    if !node.question.gone {
        return Ok(None);
    }
    if !node.question.conj.is_well_made() {
        return Err(AllocError);
    }
    first_hit(alloc, search, node)
}
