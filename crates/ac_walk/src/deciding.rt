//! The search on one output over all orders of commutative arguments.
ghost use Rattle.std.specs.Prelude.{◌≡◌, [], IfOk};
ghost use Rattle.ac_match.specs.SiteOrders.{IsNext};
ghost use Rattle.ac_match.specs.declared.orders.Next.TheVariants.{Order as Chosen};
ghost use Rattle.ac_walk_state.specs.GraphWidenings.{AreRecurrentFrom};
ghost use Rattle.ac_walk_state.specs.UnmatchedOutputs.{AreSitesOf};
ghost use Rattle.ac_walk.specs.OutputSearch.{ShowMismatch};
ghost use Rattle.ac_walk.specs.OutputDecisions.{AreReachedSites, AreShown, AreSitesAmong, GoesNoFurther, IsDecision, IsFurther, IsKept, IsOutputSearch};

use crate::differing::{Difference, try_point};
use crate::pairs::{common, joined};
use crate::search_types::{Ended, Search};
use crate::sharing::shared;
use crate::stops::Stop;
use crate::walking::walk;
use ac_base::Items;
use ac_graph::types::Graph;
use ac_graph::{reachable_from, sites};
use ac_match::{Next, Orders};
use ac_report::Cause;
use ac_syntax::tree::{Order, Pair, Position, Site};
use ac_walk_state::types::Part;
use ac_walk_state::{distinct_sites, partial_of};
use ac_widen::Derivation;
use std::alloc::{AllocError, Global};

/// What the search finds of an output.
#[derive(Drop)]
pub(crate) enum Decision {
    /// It stands, by this part of a proof.
    Stands(Part),
    /// An element differs.
    Different(Difference),
    /// Neither is shown.
    Unknown(Cause),
}

/// What moves reach from an output.
#[derive(Drop)]
pub(crate) struct Reach {
    /// The recurrence pairs.
    pub recurrent: Items<(Position, Position)>,
    /// Further pairs, to which many ways lead.
    pub shared: Items<(Position, Position)>,
    pub sites: Items<Site>,
}

impl Reach {
    /// Whether many ways lead to some pair.
    pub(crate) fn is_shared(&self) -> bool {
        !self.shared.is_empty()
    }
}

/// How many ways may lead to a pair before the search stops there as at a recurrence pair.
const MOST_WAYS: u64 = 16;

/// The sites among pairs, each once.
fn sites_among(
    alloc: Global,
    pair: &Pair,
    pairs: &[(Position, Position)],
) -> Result<Items<Site>, AllocError>
    ensures { IfOk result (AreSitesAmong pair.now pairs.now) }
{
    let all = sites(alloc, pair, pairs)?;
    distinct_sites(alloc, all.as_slice())
}

/// What moves reach from an output.
pub(crate) fn reach_of(
    alloc: Global,
    pair: &Pair,
    graph: &Graph,
    array: usize,
) -> Result<Reach, AllocError>
    ensures recurrent { IfOk result (λ reach. AreRecurrentFrom pair.now graph.now array reach.recurrent) }
    ensures sites { IfOk result (λ reach. AreReachedSites pair.now graph.now array reach.sites) }
{
    let pairs = reachable_from(alloc, pair, graph, array)?;
    let reached = pairs.as_slice();
    let sites = sites_among(alloc, pair, reached)?;
    let recurrent = common(alloc, reached, graph.recurrent.as_slice())?;
    let marked = shared(alloc, graph, MOST_WAYS)?;
    let many = common(alloc, reached, marked.as_slice())?;
    Ok(Reach {
        recurrent,
        shared: many,
        sites,
    })
}

/// What comes of a further order.
#[derive(Drop)]
enum Further {
    /// It is refuted.
    Refuted,
    /// The output is decided.
    Decided(Decision),
}

/// Takes a derivation of a mismatch under an order: an element differs at its valuation, or a partial order is refuted.
fn refute(
    alloc: Global,
    search: &Search<'_>,
    number: usize,
    orders: &mut Orders,
    tried: &mut Items<Items<i64>>,
    order: &[(Site, Order)],
    why: Derivation,
) -> Result<Further, AllocError>
    requires search { IsOutputSearch search.now number }
    requires next { IsNext orders.old (Chosen order.now) }
    requires mismatch { ShowMismatch search.now order.now why.entries }
    ensures further { IfOk result (IsFurther search.now number) }
    ensures sites { orders.new.sites ≡ orders.old.sites }
    ensures shown { AreShown search.now orders.old.sites [] orders.old.refuted → AreShown search.now orders.old.sites [] orders.new.refuted }
{
    if let Some(last) = why.entries.as_slice().last() {
        let point = last.point.as_slice();
        if let Some(found) = try_point(alloc, search.pair, number, tried, point)? {
            return Ok(Further::Decided(Decision::Different(found)));
        }
    }
    let partial = partial_of(alloc, search.pair, why.entries.as_slice(), order)?;
    orders.refute(partial, why)?;
    Ok(Further::Refuted)
}

/// Searches under a further order.
fn try_order(
    alloc: Global,
    search: &Search<'_>,
    number: usize,
    orders: &mut Orders,
    tried: &mut Items<Items<i64>>,
    order: &[(Site, Order)],
) -> Result<Further, AllocError>
    requires search { IsOutputSearch search.now number }
    requires next { IsNext orders.old (Chosen order.now) }
    requires sites { AreSitesOf search.now.pair.now search.now.array orders.old.sites }
    ensures further { IfOk result (IsFurther search.now number) }
    ensures sites { orders.new.sites ≡ orders.old.sites }
    ensures shown { AreShown search.now orders.old.sites [] orders.old.refuted → AreShown search.now orders.old.sites [] orders.new.refuted }
{
    match walk(alloc, search, order) {
        Ok(Ended::Stands(part)) => Ok(Further::Decided(Decision::Stands(part))),
        Ok(Ended::Mismatch(why)) => refute(alloc, search, number, orders, tried, order, why),
        Err(Stop::Early(cause)) => Ok(Further::Decided(Decision::Unknown(cause))),
        Err(Stop::Memory(want)) => Err(want),
    }
}

/// Searches on the output with a number: under one order of the sites after another, until the output stands or each order is refuted.
fn decide_up_to(
    alloc: Global,
    search: &Search<'_>,
    number: usize,
    sites: &[Site],
) -> Result<Decision, AllocError>
    requires search { IsOutputSearch search.now number }
    requires sites { AreSitesOf search.now.pair.now search.now.array sites.now }
    ensures { IfOk result (IsDecision search.now number) }
{
    let sites = Items::from_slice(alloc, sites)?;
    let mut orders = Orders::new(alloc, sites.into_vec());
    let mut tried = Items::new(alloc);
    for _order in 0..u64::MAX {
        let order = match orders.next(alloc)? {
            Next::Order(order) => order,
            Next::Done => {
                return Ok(Decision::Unknown(Cause::Unmatched(orders.into_refuted())));
            }
            Next::Spent => {
                return Ok(Decision::Unknown(Cause::SpentOrders(orders.into_refuted())));
            }
        };
        let order = order.as_slice();
        let further = try_order(alloc, search, number, &mut orders, &mut tried, order)?;
        if let Further::Decided(decision) = further {
            return Ok(decision);
        }
    }
    Err(AllocError)
}

/// Searches on the output with a number, where many ways lead to some pairs, up to these as up to recurrence pairs.
fn decide_further(
    alloc: Global,
    search: &Search<'_>,
    number: usize,
    reach: &Reach,
) -> Result<Decision, AllocError>
    requires search { IsOutputSearch search.now number }
    requires sites { AreSitesOf search.now.pair.now search.now.array reach.now.sites }
    ensures { IfOk result (IsKept search.now number) }
{
    let stops = joined(alloc, search.stops, reach.shared.as_slice())?;
    let further = Search {
        pair: search.pair,
        program_flows: search.program_flows,
        template: search.template,
        array: search.array,
        stops: stops.as_slice(),
        first: search.first,
        tabling: false,
    };
    decide_up_to(alloc, &further, number, reach.sites.as_slice())
}

/// Searches on the output with a number: where many ways lead to some pairs, up to these as up to recurrence pairs; and where that is
/// not so, or where it leaves the output unknown, up to the recurrence pairs alone, then with pairs of calls tabled where many ways lead to
/// some.
pub(crate) fn decide(
    alloc: Global,
    search: &Search<'_>,
    number: usize,
    reach: &Reach,
) -> Result<Decision, AllocError>
    requires search { IsOutputSearch search.now number }
    requires further { GoesNoFurther search.now }
    requires sites { AreSitesOf search.now.pair.now search.now.array reach.now.sites }
    ensures { IfOk result (IsDecision search.now number) }
{
    if reach.is_shared() {
        match decide_further(alloc, search, number, reach)? {
            Decision::Unknown(_) => {}
            decision => return Ok(decision),
        }
    }
    decide_up_to(alloc, search, number, reach.sites.as_slice())
}
