//! Broken paths: the pairs that lead from a start to where it fails.
ghost use Rattle.std.specs.Prelude.{◌≡◌, ◌<◌, ◌++◌, ◌∷◌, [], IfErr, IfOk, OnOk, Some, length, pos, slice_get, slice_index_or};
ghost use Rattle.std.specs.List.{AllByRecursion, range_with_len};
ghost use Rattle.ac_forms.specs.Renaming.{picked};
ghost use Rattle.ac_widen_programs.specs.PairPathEnds.{entries_at};
ghost use Rattle.ac_widen_programs.specs.PairPaths.{point_of};
ghost use Rattle.ac_unfold.specs.UnfoldEnds.{places_along, place_of};
ghost use Rattle.ac_unfold.specs.EndResults.{nothing_found, EndsMore, FullBy, IsCounted};
ghost use Rattle.ac_unfold.specs.UnfoldPaths.{IsPath, reason_at};
ghost use Rattle.ac_unfold.specs.BrokenPathResults.{IsPathAt};

use crate::node::Node;
use crate::types::UnfoldStop;
use crate::witness::continued;
use ac_base::Items;
use ac_claims_paths::path::Seat;
use ac_forms::column_after;
use ac_syntax::tree::Position;
use ac_widen::{Entry, Reason};
use std::alloc::{AllocError, Global};
use std::cmp::Ordering;
use std::marker::Model;

/// How many ends of paths one start may have.
const MOST_ENDS: usize = 20_000;

/// The broken paths found so far, and the paths to ends that were reached, each through other positions than those before it.
/// Contracts see both.
#[derive(Drop)]
pub(crate) struct BrokenPaths {
    paths: Items<Items<Entry>>,
    ended: Items<Items<Entry>>,
    last: Items<usize>,
}

impl Model for BrokenPaths {
    ghost use Rattle.std.specs.Prelude.{◌≤◌, length, map};
    ghost use Rattle.std.specs.List.{AllByRecursion};
    ghost use Rattle.ac_unfold.specs.UnfoldEnds.{places_along};
    ghost use Rattle.ac_unfold.specs.EndResults.{IncreaseTo};
    ghost use Rattle.ac_unfold.specs.UnfoldPaths.{BrokenPathsOf, IsPath};

    ghost Value = { BrokenPathsOf };

    ghost view = { λ found_paths. record { paths = found_paths.paths; ended = found_paths.ended } };

    ghost invariant = { λ found_paths. AllByRecursion IsPath found_paths.paths × IncreaseTo (map places_along found_paths.ended) found_paths.last × (length found_paths.ended ≤ 20000) };
}

/// The number of a point in a column, 0 where it has none.
fn number_in(point: &[i128], column: usize) -> i128
    ensures { result ≡ slice_index_or point.now column (pos 0) }
{
    match point.get(column) {
        Some(number) => *number,
        None => 0,
    }
}

/// The numbers of a point in so many columns from one on.
#[tactic(auto, using(crate::proofs::Tracing::trace_steps))]
fn push_numbers(
    numbers: &mut Items<i128>,
    point: &[i128],
    first: usize,
    count: usize,
) -> Result<(), AllocError>
    ensures { OnOk result (numbers.new ≡ numbers.old ++ picked (range_with_len first count) point.now) }
{
    for k in 0..count {
        numbers.push(number_in(point, column_after(first, k)?))?;
    }
    Ok(())
}

/// The point of a pair: the parameters, the coordinates of the left position and those of the right one.
#[tactic(auto, using(crate::proofs::Tracing::trace_steps))]
fn pair_point(
    alloc: Global,
    params: usize,
    pair: &(Seat, Seat),
    point: &[i128],
) -> Result<Items<i128>, AllocError>
    ensures { IfOk result (λ numbers. numbers ≡ point_of params point.now pair.now) }
{
    let mut numbers = Items::new(alloc);
    push_numbers(&mut numbers, point, 0, params)?;
    push_numbers(&mut numbers, point, pair.0.first, pair.0.width)?;
    push_numbers(&mut numbers, point, pair.1.first, pair.1.width)?;
    Ok(numbers)
}

/// Why the pair with this number stands on its path.
fn reason_of(number: usize) -> Reason
    ensures { result ≡ reason_at number }
{
    match number.checked_sub(1) {
        None => Reason::Output,
        Some(from) => Reason::Step { from },
    }
}

/// The pairs of a path at a point of its question.
#[tactic(auto, using(crate::proofs::PathSteps::path_steps, crate::proofs::Tracing::trace_steps))]
fn entries(
    alloc: Global,
    params: usize,
    pair_path: &[(Seat, Seat)],
    point: &[i128],
) -> Result<Items<Entry>, AllocError>
    ensures path { IfOk result IsPath }
    ensures exact { IfOk result (λ made. made ≡ entries_at params point.now pair_path.now) }
{
    let mut made = Items::new(alloc);
    for pair in pair_path {
        let reason = reason_of(made.len());
        made.push(Entry {
            left: pair.0.position,
            right: pair.1.position,
            point: pair_point(alloc, params, pair, point)?,
            reason,
        })?;
    }
    Ok(made)
}

/// The numbers of a position.
fn place_of(position: &Position) -> (usize, usize, usize)
    ensures { place_of position.now ≡ result.0 ∷ result.1 ∷ result.2 ∷ [] }
{
    match position {
        Position::Output(array) => (0, *array, 0),
        Position::Node { stmt, node } => (1, *stmt, *node),
        Position::InitialOutput(array) => (2, *array, 0),
        Position::InitialNode { stmt, node } => (3, *stmt, *node),
    }
}

/// The numbers of a position behind others.
#[tactic(auto, using(crate::proofs::Reaching::places_steps))]
fn push_place(places: &mut Items<usize>, position: &Position) -> Result<(), AllocError>
    ensures { OnOk result (places.new ≡ places.old ++ place_of position.now) }
{
    let (kind, first, second) = place_of(position);
    places.push(kind)?;
    places.push(first)?;
    places.push(second)
}

/// The numbers of the positions along a path.
#[tactic(auto, using(crate::proofs::Reaching::places_steps))]
fn places_along(alloc: Global, path: &[Entry]) -> Result<Items<usize>, AllocError>
    ensures { IfOk result (λ places. places ≡ places_along path.now) }
{
    let mut places = Items::new(alloc);
    for entry in path {
        push_place(&mut places, &entry.left)?;
        push_place(&mut places, &entry.right)?;
    }
    Ok(places)
}

impl BrokenPaths {
    /// Nothing is found.
    #[tactic(auto, using(crate::proofs::Reaching::keep_steps))]
    pub(crate) fn new(alloc: Global) -> BrokenPaths
        ensures { result ≡ nothing_found }
    {
        BrokenPaths {
            paths: Items::new(alloc),
            ended: Items::new(alloc),
            last: Items::new(alloc),
        }
    }

    /// How many paths were found.
    pub(crate) fn len(&self) -> usize
        ensures { result ≡ length self.now.paths }
    {
        self.paths.len()
    }

    /// The paths.
    pub(crate) fn into_paths(self) -> Items<Items<Entry>>
        ensures same { result ≡ self.paths }
        ensures paths { AllByRecursion IsPath result }
    {
        let BrokenPaths { paths, .. } = self;
        paths
    }

    /// The first path.
    pub(crate) fn into_first(self) -> Items<Entry>
        requires { 0 < length self.paths }
        ensures { slice_get self.paths 0 ≡ Some result }
    {
        let mut paths = self.into_paths().into_vec();
        paths.remove(0)
    }

    /// The path to a node, at a point of its question, is broken.
    #[tactic(auto, using(crate::proofs::PathSteps::path_steps, crate::proofs::Reaching::keep_steps))]
    pub(crate) fn push(
        &mut self,
        alloc: Global,
        params: usize,
        node: &Node,
        point: &[i128],
    ) -> Result<(), AllocError>
        ensures paths { OnOk result (self.new.paths ≡ self.old.paths ++ entries_at params point.now node.now.pair_path ∷ []) }
        ensures ended { OnOk result (self.new.ended ≡ self.old.ended) }
    {
        self.paths
            .push(entries(alloc, params, node.pair_path.as_slice(), point)?)
    }

    /// The end of a node is reached: its path is kept where a point of its question is known, if it goes through later positions
    /// than the last one that was kept, in the order of the dictionary.
    #[tactic(auto, using(crate::proofs::Reaching::keep_steps))]
    pub(crate) fn reach(
        &mut self,
        alloc: Global,
        params: usize,
        node: &Node,
    ) -> Result<(), UnfoldStop>
        ensures paths { OnOk result (self.new.paths ≡ self.old.paths) }
        ensures ended { OnOk result (EndsMore (IsPathAt params node.now.pair_path node.now.question.conj) self.old.ended self.new.ended) }
        ensures full { IfErr result (FullBy (IsPathAt params node.now.pair_path node.now.question.conj) self.old.ended) }
        ensures counted { IfErr result IsCounted }
    {
        let Some(point) = continued(alloc, &node.question.conj, node.known.as_slice())? else {
            return Ok(());
        };
        let path = entries(alloc, params, node.pair_path.as_slice(), &point)?;
        let places = places_along(alloc, path.as_slice())?;
        match self.last.as_slice().cmp(places.as_slice()) {
            Ordering::Less => {}
            Ordering::Equal | Ordering::Greater => return Ok(()),
        }
        self.ended.push(path)?;
        self.last = places;
        if self.ended.len() <= MOST_ENDS {
            return Ok(());
        }
        self.last = Items::new(alloc);
        let ended = std::mem::replace(&mut self.ended, Items::new(alloc));
        Err(UnfoldStop::Paths(ended))
    }
}
