//! The plans of the output and of the claims, where all of them stand.
ghost use Rattle.std.specs.Prelude.{◌≡◌, ◌<◌, ◌≤◌, length, IfOk, IfErr};
ghost use Rattle.ac_forms.specs.Rows.{AreRowsOver};
ghost use Rattle.ac_unfold_plans.specs.PlanStops.{claim_positions};
ghost use Rattle.ac_widen_programs.specs.PairSetting.{point_width};
ghost use Rattle.ac_walk.specs.PartConstruction.{HaveClaims, IsAdded, IsFirstAdded, IsPlanned, IsPlannedTo};
ghost use Rattle.ac_walk.specs.Ranks.{AreClaimsAt, AreRanks};
ghost use Rattle.ac_walk.specs.OutputSearch.{IsKnownUnder, IsSearch};
ghost use Rattle.ac_walk.specs.SearchStops.{EndsEarly, EndsEarlyBy, EndsEarlyFirst};

use crate::ranking::{claims_at, ranked};
use crate::search_types::Search;
use crate::stops::{Stop, of_unfolding};
use crate::tabling::part_tabled;
use ac_base::Items;
use ac_claims::types::Claim;
use ac_forms::column_after;
use ac_syntax::tree::{Order, Site};
use ac_unfold::claim_trees;
use ac_unfold::types::{NumberedClaims, Planned};
use ac_walk_state::types::Part;
use ac_walk_state::{Known, no_part, output_claim, trees_hit_within, with_claim};
use ac_widen::Entry;
use std::alloc::Global;

/// What comes of the plans of one start.
#[derive(Drop)]
enum Added {
    /// They are made: a part with one more claim.
    Part(Part),
    /// A path from the start is broken.
    Broken(Items<Entry>),
}

/// What comes of the plans of the output and of claims.
#[derive(Drop)]
pub(crate) enum Planning {
    /// They are made.
    Part(Part),
    /// A path is broken, from the widening point with this number or from the output.
    Broken(Option<usize>, Items<Entry>),
}

/// The claims of widening points in the order of their numbers, and tabled claims behind them.
#[derive(Clone, Copy)]
pub(crate) struct ListedClaims<'a> {
    pub numbers: &'a [usize],
    pub claims: &'a [Claim],
    pub tabled: &'a [Claim],
}

/// Adds a start with its plans to a part.
fn add(
    alloc: Global,
    search: &Search<'_>,
    order: &[(Site, Order)],
    claims: &[Claim],
    tabled: &[Claim],
    part: Part,
    start: Claim,
) -> Result<Added, Stop>
    requires search { IsSearch search.now }
    requires claims { HaveClaims search.now.stops.now claims.now }
    requires start { AreRowsOver (point_width search.now.pair.now (claim_positions start)) start.rows }
    ensures added { IfOk result (IsAdded search.now order.now claims.now tabled.now start part) }
    ensures causes { IfErr result (EndsEarlyBy search.now order.now claims.now start) }
{
    let number = column_after(search.first, part.claims.len())?;
    let base = column_after(search.first, 1)?;
    let program_flows = search.program_flows;
    let ends = NumberedClaims {
        base,
        claims,
        tabled,
    };
    match claim_trees(alloc, program_flows, number, &start, &ends, order) {
        Ok(Planned::Plans(trees)) => Ok(Added::Part(with_claim(part, start, trees)?)),
        Ok(Planned::Broken(path)) => Ok(Added::Broken(path)),
        Err(stop) => Err(of_unfolding(stop)),
    }
}

/// Begins a part with the output and its plans.
fn begin(
    alloc: Global,
    search: &Search<'_>,
    order: &[(Site, Order)],
    claims: &[Claim],
    tabled: &[Claim],
) -> Result<Added, Stop>
    requires search { IsSearch search.now }
    requires claims { HaveClaims search.now.stops.now claims.now }
    ensures added { IfOk result (IsFirstAdded search.now order.now claims.now tabled.now) }
    ensures causes { IfErr result (EndsEarlyFirst search.now order.now claims.now) }
{
    let output = output_claim(alloc, &search.program_flows.programs, search.array)?;
    add(alloc, search, order, claims, tabled, no_part(alloc), output)
}

/// The part of the output, and of the first of the claims of widening points, so many, whose plans may end at the tabled claims behind all of these.
pub(crate) fn part_to(
    alloc: Global,
    search: &Search<'_>,
    order: &[(Site, Order)],
    known: &Known,
    listed: &ListedClaims<'_>,
    count: usize,
) -> Result<Planning, Stop>
    requires search { IsSearch search.now }
    requires known { IsKnownUnder search.now order.now known.now }
    requires ranks { AreRanks known.now.widening_points.items listed.now.numbers.now }
    requires claims { AreClaimsAt known.now.widening_points.items listed.now.numbers.now listed.now.claims.now }
    requires count { count ≤ length listed.now.numbers.now }
    ensures planned { IfOk result (IsPlannedTo search.now order.now known.now listed.now.claims.now listed.now.tabled.now count) }
    ensures causes { IfErr result (EndsEarly search.now order.now) }
{
    let mut part = match begin(alloc, search, order, listed.claims, listed.tabled)? {
        Added::Part(part) => part,
        Added::Broken(path) => return Ok(Planning::Broken(None, path)),
    };
    let widening_points = known.widening_points.as_slice();
    for at in 0..count {
        let number = listed.numbers[at];
        let start = widening_points[number].claim(alloc)?;
        match add(
            alloc,
            search,
            order,
            listed.claims,
            listed.tabled,
            part,
            start,
        )? {
            Added::Part(longer) => {
                part = longer;
                continue;
            }
            Added::Broken(path) => return Ok(Planning::Broken(Some(number), path)),
        }
    }
    Ok(Planning::Part(part))
}

/// The part of the output, and of so many of the claims of widening points with these numbers; and of all of them, if a plan ends at another one.
fn part_with(
    alloc: Global,
    search: &Search<'_>,
    order: &[(Site, Order)],
    known: &Known,
    numbers: &[usize],
    claims: &[Claim],
    count: usize,
) -> Result<Planning, Stop>
    requires search { IsSearch search.now }
    requires known { IsKnownUnder search.now order.now known.now }
    requires ranks { AreRanks known.now.widening_points.items numbers.now }
    requires claims { AreClaimsAt known.now.widening_points.items numbers.now claims.now }
    requires count { count ≤ length numbers.now }
    ensures planned { IfOk result (IsPlanned search.now order.now known.now) }
    ensures causes { IfErr result (EndsEarly search.now order.now) }
{
    let listed = ListedClaims {
        numbers,
        claims,
        tabled: &[],
    };
    match part_to(alloc, search, order, known, &listed, count)? {
        Planning::Part(part) => {
            let limit = column_after(search.first, part.claims.len())?;
            let within = trees_hit_within(alloc, part.trees.as_slice(), limit)?;
            if within {
                return Ok(Planning::Part(part));
            }
            let all = numbers.len();
            let planned = part_to(alloc, search, order, known, &listed, all)?;
            Ok(planned)
        }
        Planning::Broken(from, path) => Ok(Planning::Broken(from, path)),
    }
}

/// The part of the output, where it stands with the claims of the widening points: its claim, those of the widening points that have members, and their
/// plans; or a path that is broken. The claims of the other widening points are behind them only if a plan ends at one, or where pairs are tabled:
/// then the tabled claims are behind all of them.
pub(crate) fn plan(
    alloc: Global,
    search: &Search<'_>,
    order: &[(Site, Order)],
    known: &Known,
) -> Result<Planning, Stop>
    requires search { IsSearch search.now }
    requires known { IsKnownUnder search.now order.now known.now }
    ensures planned { IfOk result (IsPlanned search.now order.now known.now) }
    ensures causes { IfErr result (EndsEarly search.now order.now) }
{
    let widening_points = known.widening_points.as_slice();
    let ranks = ranked(alloc, widening_points)?;
    let numbers = ranks.numbers.as_slice();
    let claims = claims_at(alloc, widening_points, numbers)?;
    if search.tabling {
        return part_tabled(alloc, search, order, known, numbers, claims);
    }
    let count = ranks.count.min(numbers.len());
    part_with(
        alloc,
        search,
        order,
        known,
        numbers,
        claims.as_slice(),
        count,
    )
}
