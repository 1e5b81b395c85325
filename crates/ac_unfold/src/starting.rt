//! Where an unfolding starts: each pair of pieces of a claim.
ghost use Rattle.std.specs.Prelude.{◌≡◌, ◌+◌, ◌++◌, [], IfOk, IfSome, List, None, OnOk, length, map, true, IfErr};
ghost use Rattle.std.specs.List.{AllByRecursion, range_with_len};
ghost use Rattle.ac_claims_paths.specs.ModelCalls.{pairing};
ghost use Rattle.ac_claims.specs.ProofFaults.{domain};
ghost use Rattle.ac_claims.specs.RemainingPlans.{count_by};
ghost use Rattle.ac_claims.specs.declared.types.Claim.{Claim as Asked};
ghost use Rattle.ac_claims.specs.declared.types.ClaimTree.{ClaimTree as Tree};
ghost use Rattle.ac_unfold_plans.specs.PlanStops.{claim_positions};
ghost use Rattle.ac_unfold_plans.specs.TabledUse.{HaveClaimModuli, UsesTabledFromStart};
ghost use Rattle.ac_unfold_plans.specs.PairStops.{Stopped, StopsFrom};
ghost use Rattle.ac_widen_programs.specs.PairPaths.{Unfolding};
ghost use Rattle.ac_widen_programs.specs.BrokenPaths.{IsBroken};
ghost use Rattle.ac_unfold.specs.UnfoldCauses.{StopsUnfolding};
ghost use Rattle.ac_unfold.specs.FoundPaths.{IsFoundAt};
ghost use Rattle.ac_unfold.specs.Unfoldings.{IsUnfoldingOf};
ghost use Rattle.ac_unfold.specs.EndResults.{nothing_found, FullUnder};
ghost use Rattle.ac_unfold.specs.PlanResults.{judge_of, IsGiven};
ghost use Rattle.ac_unfold.specs.PlanGaps.{FindsElse};
ghost use Rattle.ac_unfold.specs.UnfoldPaths.{IsPath, ArePlansOf};
ghost use Rattle.ac_unfold.specs.StartResults.{HasDomains, IfBroken, IfPlans, IsBrokenFrom};
ghost use Rattle.ac_claims_plans.specs.DuePlans.{pairs_of, pieces_of, AreNumbered, StartsAccepted};
ghost use Rattle.ac_unfold.specs.ReadySetting.{IsSettled};
ghost use Rattle.ac_unfold.specs.PiecePlans.{AreBegun, IsBegun};
ghost use Rattle.ac_unfold.specs.BrokenPathResults.{AddsBroken, IsFrom};
ghost use Rattle.ac_unfold.specs.SearchPlanStops.{IsStoppedAt};
ghost use Rattle.ac_unfold.specs.UnbrokenStarts.{StartStands};
ghost use Rattle.ac_unfold.specs.UnfoldStops.{StopsUnder};
ghost use Rattle.ac_unfold.specs.UnbrokenResults.{FindsNone, StandsAtStart, StandsBeside};

use crate::breaks::BrokenPaths;
use crate::decide::{Opened, open_question};
use crate::ends::Search;
use crate::node::Node;
use crate::types::{NumberedClaims, Planned, ProgramFlows, UnfoldStop};
use crate::unfolding::visit;
use ac_base::Items;
use ac_claims::domains::size_at;
use ac_claims::starts::start_at;
use ac_claims::types::{Claim, ClaimTree, Plan};
use ac_syntax::tree::{Order, Site};
use ac_widen::Entry;
use std::alloc::{AllocError, Global};

/// What an unfolding looks for.
fn search_of<'a>(
    program_flows: &'a ProgramFlows<'a>,
    claims: &'a [Claim],
    tabled: &'a [Claim],
    base: usize,
    order: &'a [(Site, Order)],
    making: bool,
) -> Search<'a>
    ensures program_flows { result.program_flows.now ≡ program_flows.now }
    ensures base { result.base ≡ base }
    ensures claims { result.claims.now ≡ claims.now }
    ensures tabled { result.tabled.now ≡ tabled.now }
    ensures order { result.order.now ≡ order.now }
    ensures making { result.making ≡ making }
    ensures budget { result.budget ≡ program_flows.now.budget }
{
    Search {
        program_flows,
        budget: program_flows.budget,
        claims,
        tabled,
        base,
        order,
        making,
    }
}

/// Unfolds a claim at a piece of each of its positions.
fn unfold_at(
    alloc: Global,
    search: &Search<'_>,
    start: &Claim,
    left: usize,
    right: usize,
    found_paths: &mut BrokenPaths,
) -> Result<Option<Plan>, UnfoldStop>
    ensures missing { IfOk result (λ made. FindsElse search.now made found_paths.old found_paths.new) }
    ensures begun { IfOk result (λ made. IfSome made (IsBegun search.now start.now left right)) }
    ensures stands { OnOk result (FindsNone search.now found_paths.old found_paths.new → StandsAtStart search.now start.now left right) }
    ensures broken { OnOk result (AddsBroken search.now (IsFrom start.now) found_paths.old found_paths.new) }
    ensures causes { IfErr result (StopsUnder search.now (IsFrom start.now)) }
    ensures full { IfErr result (FullUnder search.now (IsFrom start.now) found_paths.old) }
{
    let programs = &search.program_flows.programs;
    let Some(path) = start_at(alloc, programs, start, left, right)? else {
        return Err(UnfoldStop::Memory(AllocError));
    };
    if !path.conj.is_well_made() {
        return Err(UnfoldStop::Memory(AllocError));
    }
    let node = Node::start(alloc, path)?;
    let question = open_question(alloc, node, search.budget, search.making)?;
    match question {
        Opened::Empty(plan) => Ok(plan),
        Opened::On(node) => visit(alloc, search, node, found_paths),
    }
}

/// How many pieces the left position of a claim has, and the right one.
fn pieces(
    alloc: Global,
    program_flows: &ProgramFlows<'_>,
    start: &Claim,
) -> Result<(usize, usize), AllocError>
    ensures domains { IfOk result (λ counts. HasDomains (pairing program_flows.now.programs) start.now) }
    ensures counts { IfOk result (λ counts. counts ≡ (count_by (domain program_flows.now.programs.left.now start.now.left), count_by (domain program_flows.now.programs.right.now start.now.right))) }
{
    let left = size_at(alloc, program_flows.programs.left, &start.left)?;
    let right = size_at(alloc, program_flows.programs.right, &start.right)?;
    match (left, right) {
        (Some(left), Some(right)) => Ok((left.pieces, right.pieces)),
        _ => Err(AllocError),
    }
}

/// Finds the broken paths from one piece of the left position.
fn find_beside(
    alloc: Global,
    search: &Search<'_>,
    start: &Claim,
    left: usize,
    rights: usize,
    found_paths: &mut BrokenPaths,
) -> Result<(), UnfoldStop>
    ensures stands { OnOk result (FindsNone search.now found_paths.old found_paths.new → StandsBeside search.now start.now left rights) }
    ensures broken { OnOk result (AddsBroken search.now (IsFrom start.now) found_paths.old found_paths.new) }
    ensures causes { IfErr result (StopsUnder search.now (IsFrom start.now)) }
    ensures full { IfErr result (FullUnder search.now (IsFrom start.now) found_paths.old) }
{
    for right in 0..rights {
        let _none = unfold_at(alloc, search, start, left, right, found_paths)?;
    }
    Ok(())
}

/// Concrete paths on which a start fails, maybe not all of them: from one of its pairs along the steps to a mismatch, or to the pair
/// of a claim that breaks one of its rows. Where there are none the start stands: what it leads to, by the branches of calls and by
/// what is left of the cases of reads and outputs, has no point, or ends at a pair where a claim holds or both sides match.
///
/// The start's pairs are the points of its rows, the context and a piece of each of its positions, over the parameters, the
/// coordinates of the left position and those of the right one. A path ends at the first pair of a claim behind at least one
/// step, or at a pair without a step. Each path has an entry for each of its pairs: the first has the reason `Output`, each
/// other is a step from the one before it, by its number in the path. All are read off one point of a question that is asked there.
pub fn broken_paths(
    alloc: Global,
    program_flows: &ProgramFlows<'_>,
    start: &Claim,
    claims: &[Claim],
    order: &[(Site, Order)],
) -> Result<Items<Items<Entry>>, UnfoldStop>
    ensures paths { IfOk result (AllByRecursion IsPath) }
    ensures stands { IfOk result (λ paths. paths ≡ [] → (u : Unfolding) → IsUnfoldingOf program_flows.now start.now order.now u → StartStands u program_flows.now.left_flow.now program_flows.now.right_flow.now claims.now) }
    ensures broken { IfOk result (λ paths. (u : Unfolding) → IsUnfoldingOf program_flows.now start.now order.now u → AllByRecursion (IsBroken u claims.now) paths) }
    ensures found { IfOk result (λ paths. (u : Unfolding) → IsUnfoldingOf program_flows.now start.now order.now u → AllByRecursion (IsFoundAt u program_flows.now.left_flow.now program_flows.now.right_flow.now claims.now) paths) }
    ensures causes { IfErr result (StopsUnfolding program_flows.now start.now claims.now order.now) }
{
    let search = search_of(program_flows, claims, &[], 0, order, false);
    let (lefts, rights) = pieces(alloc, program_flows, start)?;
    let mut found_paths = BrokenPaths::new(alloc);
    for left in 0..lefts {
        find_beside(alloc, &search, start, left, rights, &mut found_paths)?;
    }
    Ok(found_paths.into_paths())
}

/// Adds the plans from one piece of the left position, up to the first that can't be made: the path that is broken there.
#[tactic(auto, using(crate::proofs::PathSteps::path_steps))]
fn push_trees(
    alloc: Global,
    search: &Search<'_>,
    number: usize,
    start: &Claim,
    left: usize,
    rights: usize,
    trees: &mut Vec<ClaimTree>,
) -> Result<Option<Items<Entry>>, UnfoldStop>
    requires making { search.now.making ≡ true }
    requires claim { ArePlansOf number trees.old.items }
    ensures broken { IfOk result (λ path. IfSome path (IsBrokenFrom search.now start.now)) }
    ensures claim { ArePlansOf number trees.new.items }
    ensures pieces { IfOk result (λ path. path ≡ None → map pieces_of trees.new.items ≡ map pieces_of trees.old.items ++ map (λ right. (left, right)) (range_with_len 0 rights)) }
    ensures accepted { IfOk result (λ path. path ≡ None → AreBegun search.now start.now trees.old.items → AreBegun search.now start.now trees.new.items) }
    ensures causes { IfErr result (StopsUnder search.now (IsFrom start.now)) }
    ensures full { IfErr result (FullUnder search.now (IsFrom start.now) nothing_found) }
{
    let mut found_paths = BrokenPaths::new(alloc);
    for right in 0..rights {
        let Some(tree) = unfold_at(alloc, search, start, left, right, &mut found_paths)? else {
            return Ok(Some(found_paths.into_first()));
        };
        trees.push(ClaimTree {
            claim: number,
            left_piece: left,
            right_piece: right,
            tree,
        })?;
    }
    Ok(None)
}

/// The plans of a start that stands, one for each pair of pieces in order. The start has the number `number` in the proof. A judge of
/// proofs accepts each plan where the start begins at its pieces, against whatever claims these are among with their numbers. It stops
/// at pairs of the list's claims: behind its first step it neither goes on from such a pair nor ends there at a number or an initial
/// cell. At a pair of a tabled claim it ends only where that claim's rows are known to stand, and goes on elsewhere; so no path fails
/// there. And it uses the tabled claims: followed by its steps alone from the start on, it goes on from no path on which a hit on one
/// of them would be accepted.
///
/// Where the start does not stand, a concrete path on which it fails, as those of `broken_paths`.
pub fn claim_trees(
    alloc: Global,
    program_flows: &ProgramFlows<'_>,
    number: usize,
    start: &Claim,
    claims: &NumberedClaims<'_>,
    order: &[(Site, Order)],
) -> Result<Planned, UnfoldStop>
    ensures broken { IfOk result (IfBroken (λ path. (u : Unfolding) → IsUnfoldingOf program_flows.now start.now order.now u → IsBroken u claims.now.claims.now path)) }
    ensures found { IfOk result (IfBroken (λ path. (u : Unfolding) → IsUnfoldingOf program_flows.now start.now order.now u → IsFoundAt u program_flows.now.left_flow.now program_flows.now.right_flow.now claims.now.claims.now path)) }
    ensures domains { IfOk result (IfPlans (λ trees. HasDomains (pairing program_flows.now.programs) start.now)) }
    ensures claim { IfOk result (IfPlans (λ trees. ArePlansOf number trees)) }
    ensures pieces { IfOk result (IfPlans (λ trees. map pieces_of trees ≡ pairs_of (count_by (domain program_flows.now.programs.left.now start.now.left)) (count_by (domain program_flows.now.programs.right.now start.now.right)))) }
    ensures accepted { IsSettled program_flows.now → IfOk result (IfPlans (λ trees. (cs : List Asked) → AreNumbered claims.now.base claims.now.claims.now cs → AreNumbered (claims.now.base + length claims.now.claims.now) claims.now.tabled.now cs → AllByRecursion (StartsAccepted (pairing program_flows.now.programs) cs start.now) trees)) }
    ensures uses_tabled { IsSettled program_flows.now → HaveClaimModuli claims.now.tabled.now → IfOk result (IfPlans (AllByRecursion (UsesTabledFromStart (pairing program_flows.now.programs) claims.now.tabled.now start.now))) }
    ensures stops { IfOk result (IfPlans (λ trees. (g : Stopped) → IsStoppedAt program_flows.now order.now claims.now.base claims.now.claims.now claims.now.tabled.now g → AllByRecursion (λ (t : Tree). StopsFrom g (claim_positions start.now) t.tree) trees)) }
    ensures causes { IfErr result (StopsUnfolding program_flows.now start.now claims.now.claims.now order.now) }
{
    let search = search_of(
        program_flows,
        claims.claims,
        claims.tabled,
        claims.base,
        order,
        true,
    );
    let counts = pieces(alloc, program_flows, start)?;
    let mut trees = Vec::new(alloc);
    for left in 0..counts.0 {
        let broken = push_trees(alloc, &search, number, start, left, counts.1, &mut trees)?;
        if let Some(path) = broken {
            return Ok(Planned::Broken(path));
        }
    }
    Ok(Planned::Plans(trees))
}
