//! Unfoldings of the output and of claims, and the broken paths that they find.
ghost use Rattle.std.specs.Prelude.{◌≡◌, ◌<◌, [], ◌∷◌, length, IfOk, IfErr, IfSome};
ghost use Rattle.std.specs.List.{AllByRecursion};
ghost use Rattle.ac_widen_programs.specs.PairPaths.{Unfolding};
ghost use Rattle.ac_unfold.specs.UnfoldCauses.{StopsUnfolding};
ghost use Rattle.ac_unfold.specs.Unfoldings.{IsUnfoldingOf};
ghost use Rattle.ac_walk_state.specs.OrderKnowledge.{claims_of};
ghost use Rattle.ac_walk_state.specs.Growth.{IfKnown, IfMismatch};
ghost use Rattle.ac_walk.specs.OutputSearch.{IsKnownUnder, IsSearch, ShowMismatch};
ghost use Rattle.ac_walk.specs.SearchStops.{EndsEarly};
ghost use Rattle.ac_walk.specs.StartPaths.{AreBrokenFrom, IsPathFound, start_among};

use crate::search_types::Search;
use crate::stops::{Stop, of_hull, of_unfolding};
use crate::tabling::table_of;
use ac_base::Items;
use ac_claims::types::Claim;
use ac_syntax::tree::{Order, Site};
use ac_unfold::broken_paths;
use ac_unfold::types::{Planned, UnfoldStop};
use ac_unfold_table::unfold as unfold_with;
use ac_walk_state::{Growth, Known, output_claim};
use ac_widen::Entry;
use std::alloc::{AllocError, Global};

/// Takes broken paths of one start.
pub(crate) fn take(
    alloc: Global,
    search: &Search<'_>,
    order: &[(Site, Order)],
    known: Known,
    from: Option<usize>,
    paths: Items<Items<Entry>>,
) -> Result<Growth, Stop>
    requires search { IsSearch search.now }
    requires known { IsKnownUnder search.now order.now known }
    requires paths { AreBrokenFrom search.now order.now known from paths }
    ensures known { IfOk result (IfKnown (IsKnownUnder search.now order.now)) }
    ensures mismatch { IfOk result (IfMismatch (ShowMismatch search.now order.now)) }
    ensures causes { IfErr result (EndsEarly search.now order.now) }
{
    match known.take(alloc, search.template, from, paths) {
        Ok(growth) => Ok(growth),
        Err(stop) => Err(of_hull(stop)),
    }
}

/// The claim with a number, or that of the output.
fn start_among<'a>(output: &'a Claim, claims: &'a [Claim], from: Option<usize>) -> &'a Claim
    requires { IfSome from (λ at. at < length claims.now) }
    ensures { result.now ≡ start_among output.now claims.now from }
{
    match from {
        Some(at) => &claims[at],
        None => output,
    }
}

/// One path alone.
pub(crate) fn alone(alloc: Global, path: Items<Entry>) -> Result<Items<Items<Entry>>, AllocError>
    ensures { IfOk result (λ paths. paths ≡ path ∷ []) }
{
    let mut paths = Items::new(alloc);
    paths.push(path)?;
    Ok(paths)
}

/// The broken path that an unfolding with a table finds from a start, if there is one.
fn tabled_path(
    alloc: Global,
    search: &Search<'_>,
    order: &[(Site, Order)],
    claims: Vec<Claim>,
    start: &Claim,
) -> Result<Items<Items<Entry>>, UnfoldStop>
    ensures broken { IfOk result (λ paths. (u : Unfolding) → IsUnfoldingOf search.now.program_flows.now start.now order.now u → AllByRecursion (IsPathFound search.now.program_flows.now u claims.items) paths) }
    ensures causes { IfErr result (StopsUnfolding search.now.program_flows.now start.now claims.items order.now) }
{
    let mut table = table_of(alloc, 1, claims, order)?;
    match unfold_with(alloc, search.program_flows, 0, start, &mut table)? {
        Planned::Plans(_) => Ok(Items::new(alloc)),
        Planned::Broken(path) => Ok(alone(alloc, path)?),
    }
}

/// Broken paths from a start: those that one unfolding finds; where pairs are tabled, one at most.
fn paths_from(
    alloc: Global,
    search: &Search<'_>,
    order: &[(Site, Order)],
    known: &Known,
    claims: &[Claim],
    start: &Claim,
) -> Result<Items<Items<Entry>>, UnfoldStop>
    requires { claims.now ≡ claims_of known.now }
    ensures broken { IfOk result (λ paths. (u : Unfolding) → IsUnfoldingOf search.now.program_flows.now start.now order.now u → AllByRecursion (IsPathFound search.now.program_flows.now u claims.now) paths) }
    ensures causes { IfErr result (StopsUnfolding search.now.program_flows.now start.now claims.now order.now) }
{
    if search.tabling {
        return tabled_path(alloc, search, order, known.claims(alloc)?, start);
    }
    broken_paths(alloc, search.program_flows, start, claims, order)
}

/// Unfolds the output, or the claim of the widening point with a number, and takes the paths that are broken.
pub(crate) fn unfold(
    alloc: Global,
    search: &Search<'_>,
    order: &[(Site, Order)],
    known: Known,
    from: Option<usize>,
) -> Result<Growth, Stop>
    requires search { IsSearch search.now }
    requires known { IsKnownUnder search.now order.now known }
    requires from { IfSome from (λ at. at < length known.widening_points.items) }
    ensures known { IfOk result (IfKnown (IsKnownUnder search.now order.now)) }
    ensures mismatch { IfOk result (IfMismatch (ShowMismatch search.now order.now)) }
    ensures causes { IfErr result (EndsEarly search.now order.now) }
{
    let output = output_claim(alloc, &search.program_flows.programs, search.array)?;
    let claims = known.claims(alloc)?;
    let start = start_among(&output, claims.as_slice(), from);
    let paths = match paths_from(alloc, search, order, &known, claims.as_slice(), start) {
        Ok(paths) => paths,
        Err(stop) => return Err(of_unfolding(stop)),
    };
    take(alloc, search, order, known, from, paths)
}
