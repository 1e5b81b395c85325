//! The part of an output in whose plans pairs are tabled.
ghost use Rattle.std.specs.Prelude.{◌≡◌, ◌++◌, IfErr, IfOk, IfSome};
ghost use Rattle.ac_unfold_table.specs.Tables.{all_trees, new_table};
ghost use Rattle.ac_unfold_table.specs.TabledClaims.{AddsTabled};
ghost use Rattle.ac_walk.specs.PartConstruction.{IsBrokenBy, IsPlanned};
ghost use Rattle.ac_walk.specs.Ranks.{AreClaimsAt, AreRanks};
ghost use Rattle.ac_walk.specs.OutputSearch.{IsKnownUnder, IsSearch};
ghost use Rattle.ac_walk.specs.SearchStops.{EndsEarly, EndsEarlyBy};
ghost use Rattle.ac_walk.specs.SearchTables.{IsFilled};

use crate::planning::{ListedClaims, Planning, part_to};
use crate::search_types::Search;
use crate::stops::{Stop, of_unfolding};
use ac_base::Items;
use ac_claims::types::{Claim, ClaimTree};
use ac_forms::column_after;
use ac_syntax::tree::{Order, Site};
use ac_unfold::types::Planned;
use ac_unfold_table::{Table, unfold};
use ac_walk_state::types::Part;
use ac_walk_state::{Known, output_claim};
use ac_widen::Entry;
use std::alloc::{AllocError, Global};

/// A table of claims, numbered from the base on.
pub(crate) fn table_of(
    alloc: Global,
    base: usize,
    claims: Vec<Claim>,
    order: &[(Site, Order)],
) -> Result<Table, AllocError>
    ensures { IfOk result (λ table. table ≡ new_table base claims.items order.now) }
{
    let order = Items::from_slice(alloc, order)?;
    Ok(Table::new(alloc, base, claims, order.into_vec()))
}

/// Tables pairs behind a start: the path that is broken, if there is one.
fn fill_from(
    alloc: Global,
    search: &Search<'_>,
    start: &Claim,
    table: &mut Table,
) -> Result<Option<Items<Entry>>, Stop>
    ensures broken { IfOk result (λ path. IfSome path (IsBrokenBy search.now table.new.order table.new.claims start.now)) }
    ensures causes { IfErr result (EndsEarlyBy search.now table.new.order table.new.claims start.now) }
    ensures tabled { AddsTabled search.now.program_flows.now table.old table.new }
{
    match unfold(alloc, search.program_flows, 0, start, table) {
        Ok(Planned::Plans(_)) => Ok(None),
        Ok(Planned::Broken(path)) => Ok(Some(path)),
        Err(stop) => Err(of_unfolding(stop)),
    }
}

/// What comes of tabling behind the output and the claims of widening points.
#[derive(Drop)]
enum Filled {
    /// Each of them stands, and pairs behind them are tabled.
    Table(Table),
    /// A path is broken, from the widening point with this number or from the output.
    Broken(Option<usize>, Items<Entry>),
}

/// Tables pairs behind the output, and behind the claims of the widening points with these numbers.
fn fill(
    alloc: Global,
    search: &Search<'_>,
    order: &[(Site, Order)],
    known: &Known,
    numbers: &[usize],
    claims: Vec<Claim>,
) -> Result<Filled, Stop>
    requires search { IsSearch search.now }
    requires known { IsKnownUnder search.now order.now known.now }
    requires ranks { AreRanks known.now.widening_points.items numbers.now }
    requires claims { AreClaimsAt known.now.widening_points.items numbers.now claims.items }
    ensures filled { IfOk result (IsFilled search.now order.now known.now claims.items) }
    ensures causes { IfErr result (EndsEarly search.now order.now) }
{
    let base = column_after(search.first, 1)?;
    let mut table = table_of(alloc, base, claims, order)?;
    let output = output_claim(alloc, &search.program_flows.programs, search.array)?;
    if let Some(path) = fill_from(alloc, search, &output, &mut table)? {
        return Ok(Filled::Broken(None, path));
    }
    let widening_points = known.widening_points.as_slice();
    for at in 0..numbers.len() {
        let number = numbers[at];
        let start = widening_points[number].claim(alloc)?;
        if let Some(path) = fill_from(alloc, search, &start, &mut table)? {
            return Ok(Filled::Broken(Some(number), path));
        }
    }
    Ok(Filled::Table(table))
}

/// Claims with further ones behind them.
fn with_claims(claims: Vec<Claim>, more: Vec<Claim>) -> Result<Vec<Claim>, AllocError>
    ensures { IfOk result (λ all. all.items ≡ claims.items ++ more.items) }
{
    let mut all = claims;
    for claim in more {
        all.push(claim)?;
    }
    Ok(all)
}

/// Plans with further ones behind them.
fn with_plans(plans: Vec<ClaimTree>, more: Vec<ClaimTree>) -> Result<Vec<ClaimTree>, AllocError>
    ensures { IfOk result (λ all. all.items ≡ plans.items ++ more.items) }
{
    let mut all = plans;
    for plan in more {
        all.push(plan)?;
    }
    Ok(all)
}

/// Plans with those of tabled claims behind them.
fn with_trees(
    plans: Vec<ClaimTree>,
    more: Vec<Items<ClaimTree>>,
) -> Result<Vec<ClaimTree>, AllocError>
    ensures { IfOk result (λ all. all.items ≡ plans.items ++ all_trees more.items) }
{
    let mut all = plans;
    for trees in more {
        all = with_plans(all, trees.into_vec())?;
    }
    Ok(all)
}

/// A part with the claims of a table that are tabled, and with their plans.
fn with_tabled(part: Part, table: Table) -> Result<Part, AllocError>
    ensures claims { IfOk result (λ longer. longer.claims.items ≡ part.claims.items ++ table.tabled) }
    ensures trees { IfOk result (λ longer. longer.trees.items ≡ part.trees.items ++ all_trees table.trees) }
{
    let Part { claims, trees } = part;
    let (tabled, plans) = table.into_tabled();
    Ok(Part {
        claims: with_claims(claims, tabled.into_vec())?,
        trees: with_trees(trees, plans.into_vec())?,
    })
}

/// The part of the output, where it stands with the claims of the widening points with these numbers: its claim, those of the widening points, and the tabled
/// ones, each with its plans; or a path that is broken.
pub(crate) fn part_tabled(
    alloc: Global,
    search: &Search<'_>,
    order: &[(Site, Order)],
    known: &Known,
    numbers: &[usize],
    claims: Vec<Claim>,
) -> Result<Planning, Stop>
    requires search { IsSearch search.now }
    requires known { IsKnownUnder search.now order.now known.now }
    requires ranks { AreRanks known.now.widening_points.items numbers.now }
    requires claims { AreClaimsAt known.now.widening_points.items numbers.now claims.items }
    ensures planned { IfOk result (IsPlanned search.now order.now known.now) }
    ensures causes { IfErr result (EndsEarly search.now order.now) }
{
    let table = match fill(alloc, search, order, known, numbers, claims)? {
        Filled::Table(table) => table,
        Filled::Broken(from, path) => return Ok(Planning::Broken(from, path)),
    };
    let count = numbers.len();
    let claims = table.claims();
    let tabled = table.tabled();
    let listed = ListedClaims {
        numbers,
        claims,
        tabled,
    };
    match part_to(alloc, search, order, known, &listed, count)? {
        Planning::Part(part) => Ok(Planning::Part(with_tabled(part, table)?)),
        Planning::Broken(from, path) => Ok(Planning::Broken(from, path)),
    }
}
