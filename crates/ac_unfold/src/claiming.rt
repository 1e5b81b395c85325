//! The end of a path at the claim of its pair.
ghost use Rattle.std.specs.Prelude.{◌≡◌, ◌&&◌, IfErr, IfOk, IfSome, None, OnOk, true};
ghost use Rattle.ac_forms.specs.ListMembers.{IsAmong};
ghost use Rattle.ac_forms.specs.Renaming.{rows_renaming};
ghost use Rattle.ac_claims.specs.ProofEnds.{same_position};
ghost use Rattle.ac_claims.specs.declared.types.Claim.{Claim as Asked};
ghost use Rattle.ac_widen_programs.specs.PairPaths.{seats_of};
ghost use Rattle.ac_widen_programs.specs.BrokenPaths.{HasNoClaim};
ghost use Rattle.ac_unfold.specs.BrokenPathResults.{AddsBroken, IsAt};
ghost use Rattle.ac_unfold.specs.EndResults.{FullUnder};
ghost use Rattle.ac_unfold.specs.PlanResults.{IsMade};
ghost use Rattle.ac_unfold.specs.PlanGaps.{FindsElse};
ghost use Rattle.ac_unfold.specs.KillCuts.{columns_there, IsClaimBehind, IsNumbered};
ghost use Rattle.ac_unfold.specs.UnfoldStops.{Follows, HandsBack, StopsUnder};
ghost use Rattle.ac_unfold.specs.UnfoldTasks.{IsThere};
ghost use Rattle.ac_unfold.specs.UnbrokenResults.{FindsNone, StandsIn};

use crate::breaks::BrokenPaths;
use crate::ends::{Search, stand};
use crate::node::Node;
use crate::remaining::over_columns;
use crate::types::UnfoldStop;
use ac_base::Items;
use ac_claims::ending::same_position;
use ac_claims::types::{Claim, Plan, PlanNext};
use ac_claims_paths::columns::columns_of_both;
use ac_claims_paths::path::Path;
use ac_forms::{Row, column_after};
use ac_syntax::tree::Position;
use std::alloc::Global;

/// Whether a claim is of a pair.
pub(crate) fn is_of(claim: &Claim, left: &Position, right: &Position) -> bool
    ensures { result ≡ (same_position left.now claim.now.left && same_position right.now claim.now.right) }
{
    same_position(left, &claim.left) && same_position(right, &claim.right)
}

/// The number of the claim of a pair, if there is one.
fn claim_at(claims: &[Claim], left: &Position, right: &Position) -> Option<usize>
    ensures number { IfSome result (IsNumbered claims.now left.now right.now) }
    ensures none { result ≡ None → (c : Asked) → IsAmong c claims.now → left.now ≡ c.left → ¬ (right.now ≡ c.right) }
{
    for number in 0..claims.len() {
        let claim = &claims[number];
        if is_of(claim, left, right) {
            return Some(number);
        }
    }
    None
}

/// The claim at which a path ends.
pub(crate) fn claim_of(search: &Search<'_>, path: &Path) -> Option<usize>
    ensures number { IfSome result (IsClaimBehind search.now path.now) }
    ensures none { result ≡ None → path.now.gone ≡ true → HasNoClaim search.now.claims.now (seats_of path.now) }
{
    if !path.gone {
        return None;
    }
    claim_at(search.claims, &path.left.position, &path.right.position)
}

/// The rows of a claim over the columns of a node of its pair.
pub(crate) fn rows_at(
    alloc: Global,
    search: &Search<'_>,
    node: &Node,
    claim: &Claim,
) -> Result<Items<Row>, UnfoldStop>
    ensures rows { IfOk result (λ rows. Some rows ≡ rows_renaming (columns_there search.now node.now.question) claim.now.rows) }
    ensures causes { IfErr result (HandsBack node.now.question.conj (rows_renaming (columns_there search.now node.now.question) claim.now.rows ≡ None)) }
{
    let params = search.params();
    let columns = columns_of_both(alloc, params, &node.question.left, &node.question.right)?;
    over_columns(
        alloc,
        search,
        node,
        claim.rows.as_slice(),
        columns.as_slice(),
    )
}

/// A pair of a claim, behind at least one step: the rows of the claim have to stand.
pub(crate) fn at_claim(
    alloc: Global,
    search: &Search<'_>,
    node: Node,
    number: usize,
    found_paths: &mut BrokenPaths,
) -> Result<Option<Plan>, UnfoldStop>
    requires { IsClaimBehind search.now node.question number }
    ensures missing { IfOk result (λ made. FindsElse search.now made found_paths.old found_paths.new) }
    ensures made { IfOk result (λ made. IfSome made (IsMade search.now node.embedding node.question)) }
    ensures stands { OnOk result (FindsNone search.now found_paths.old found_paths.new → StandsIn search.now node.question) }
    ensures broken { OnOk result (AddsBroken search.now (IsThere search.now node.pair_path node.question) found_paths.old found_paths.new) }
    ensures causes { IfErr result (StopsUnder search.now (Follows search.now node.pair_path node.question)) }
    ensures full { IfErr result (FullUnder search.now (IsAt search.now node.pair_path node.question) found_paths.old) }
{
    let Some(claim) = search.claims.get(number) else {
        unreachable!();
    };
    let rows = rows_at(alloc, search, &node, claim)?;
    let hit = PlanNext::Hit(column_after(search.base, number)?);
    stand(alloc, search, node, rows.as_slice(), hit, found_paths)
}
