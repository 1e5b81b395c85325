//! A growth: broken paths from one start become entries, and their ends members.
ghost use Rattle.std.specs.Prelude.{◌≡◌, ◌++◌, List, [], ◌∷◌, IfErr, IfOk, MatchOption, slice_get};
ghost use Rattle.ac_claims.specs.declared.types.Claim.{Claim};
ghost use Rattle.ac_widen_programs.specs.PairPaths.{Unfolding};
ghost use Rattle.ac_widen.specs.declared.derivation.Entry.{Entry};
ghost use Rattle.ac_walk_state.specs.RecurrencePairs.{WideningPointOf};
ghost use Rattle.ac_walk_state.specs.RecurrencePairInvariant.{HasModuli, IsTooLarge};
ghost use Rattle.ac_walk_state.specs.PathEnds.{EndsFree, IsEnd, entry_positions};
ghost use Rattle.ac_walk_state.specs.PathEntries.{GoesOn};
ghost use Rattle.ac_walk_state.specs.OrderKnowledge.{claims_of, pairs_of};
ghost use Rattle.ac_walk_state.specs.MemberGrowth.{GrowsAt, HasWidthAt};
ghost use Rattle.ac_walk_state.specs.Growth.{ArePathsOf, IfKnown, IsGrowthOf};
ghost use Rattle.ac_walk_state.specs.GrowthStops.{StopsAt, StopsGrowth, StopsNext};
ghost use Rattle.ac_walk_state.specs.GrowthStep.{BeginsIf, IsPathFor, Takes, as_grown};

use crate::begins::{Begin, begins_of};
use crate::entering::enter;
use crate::known::{Known, number_of};
use crate::template::Template;
use crate::widening_point::WideningPoint;
use ac_base::Items;
use ac_hull::HullStop;
use ac_widen::Entry;
use std::alloc::{AllocError, Global};

/// What comes of broken paths from one start.
#[derive(Drop)]
pub enum Growth {
    /// Claims grew.
    Grown(Known),
    /// The last entry is a mismatch.
    Mismatch(Items<Entry>),
    /// There was no path.
    Nothing(Known),
}

/// The last entry of a path with a step; none exactly where the path has no step.
fn end_of(path: &[Entry]) -> Option<&Entry>
    ensures { MatchOption result ((e : Entry) → ¬ (IsEnd path.now e)) (λ e. IsEnd path.now e.now) }
{
    if path.len() < 2 {
        return None;
    }
    path.last()
}

/// The widening points, where that with a number has a further member, whose entry has the number `place`.
fn with_member(
    alloc: Global,
    template: &Template,
    widening_points: Vec<WideningPoint>,
    at: usize,
    point: &[i128],
    place: usize,
) -> Result<Vec<WideningPoint>, HullStop>
    requires moduli { HasModuli template.now }
    requires width { HasWidthAt widening_points.items at point.now }
    ensures grown { IfOk result (λ grown. GrowsAt template.now widening_points.items at point.now place grown.items) }
    ensures stops { IfErr result (λ stop. (widening_point : WideningPointOf) → slice_get widening_points.items at ≡ Some widening_point → IsTooLarge widening_point point.now stop) }
{
    let mut widening_points = widening_points;
    let widening_point = widening_points.remove(at);
    match widening_point.with_member(alloc, template, point, place) {
        Ok(grown) => match widening_points.insert(at, grown) {
            Ok(()) => Ok(widening_points),
            Err(_) => Err(HullStop::Memory(AllocError)),
        },
        Err(stop) => Err(stop),
    }
}

/// Enters a path that ends at the widening point with a number, if its end breaks the claim there.
fn take_member(
    alloc: Global,
    template: &Template,
    known: Known,
    begin: &Begin,
    path: &[Entry],
    end: &Entry,
    at: usize,
) -> Result<Growth, HullStop>
    requires moduli { HasModuli template.now }
    requires steps { GoesOn path.now begin.now }
    requires path { (u : Unfolding) × (claims : List Claim) × IsPathFor u template.now claims known path.now }
    requires ends { IsEnd path.now end.now }
    requires widening_point { slice_get (pairs_of known) at ≡ Some (entry_positions end.now) }
    ensures takes { IfOk result (λ growth. (u : Unfolding) (claims : List Claim) → IsPathFor u template.now claims known path.now → Takes u template.now claims known begin.now path.now growth) }
    ensures stops { IfErr result (StopsAt template.now known.widening_points.items path.now) }
{
    let point = end.point.as_slice();
    let breaks = known.widening_points[at].breaks(alloc, point)?;
    if !breaks {
        return Ok(Growth::Nothing(known));
    }
    let Known {
        widening_points,
        entries,
    } = known;
    let entries = match enter(alloc, entries, begin, path) {
        Ok(entries) => entries,
        Err(want) => return Err(HullStop::Memory(want)),
    };
    let place = entries.len() - 1;
    match with_member(alloc, template, widening_points, at, point, place) {
        Ok(widening_points) => Ok(Growth::Grown(Known {
            widening_points,
            entries,
        })),
        Err(stop) => Err(stop),
    }
}

/// Enters a path that ends unmatched.
fn take_mismatch(
    alloc: Global,
    known: Known,
    begin: &Begin,
    path: &[Entry],
) -> Result<Growth, HullStop>
    requires steps { GoesOn path.now begin.now }
    requires free { EndsFree (pairs_of known) path.now }
    ensures takes { IfOk result (λ growth. (u : Unfolding) (t : Template) (claims : List Claim) → IsPathFor u t claims known path.now → Takes u t claims known begin.now path.now growth) }
    ensures stops { IfErr result (λ stop. (t : Template) (widening_points : List WideningPointOf) → StopsAt t widening_points path.now stop) }
{
    match enter(alloc, known.entries, begin, path) {
        Ok(entries) => Ok(Growth::Mismatch(entries)),
        Err(want) => Err(HullStop::Memory(want)),
    }
}

/// Takes a broken path: its end becomes a member of the widening point there, if it breaks the claim; or it shows a mismatch.
fn take_path(
    alloc: Global,
    template: &Template,
    known: Known,
    begin: &Begin,
    path: &[Entry],
) -> Result<Growth, HullStop>
    requires moduli { HasModuli template.now }
    requires steps { GoesOn path.now begin.now }
    requires path { (u : Unfolding) × (claims : List Claim) × IsPathFor u template.now claims known path.now }
    ensures takes { IfOk result (λ growth. (u : Unfolding) (claims : List Claim) → IsPathFor u template.now claims known path.now → Takes u template.now claims known begin.now path.now growth) }
    ensures stops { IfErr result (StopsAt template.now known.widening_points.items path.now) }
{
    let Some(end) = end_of(path) else {
        return take_mismatch(alloc, known, begin, path);
    };
    match number_of(known.widening_points.as_slice(), &end.left, &end.right) {
        Some(at) => take_member(alloc, template, known, begin, path, end, at),
        None => take_mismatch(alloc, known, begin, path),
    }
}

/// The same, where claims grew before.
fn as_grown(growth: Growth) -> Growth
    ensures { result ≡ as_grown growth }
{
    match growth {
        Growth::Grown(known) => Growth::Grown(known),
        Growth::Mismatch(entries) => Growth::Mismatch(entries),
        Growth::Nothing(known) => Growth::Grown(known),
    }
}

/// Takes a further broken path, unless a mismatch was shown.
fn take_next(
    alloc: Global,
    template: &Template,
    growth: Growth,
    begin: &Begin,
    path: &[Entry],
) -> Result<Growth, HullStop>
    requires moduli { HasModuli template.now }
    requires steps { GoesOn path.now begin.now }
    requires path { IfKnown (λ known. (u : Unfolding) × (claims : List Claim) × IsPathFor u template.now claims known path.now) growth }
    ensures takes { IfOk result (λ next. (u : Unfolding) (start : Known) (paths : List (List Entry)) → IsGrowthOf u template.now start paths growth → IsPathFor u template.now (claims_of start) start path.now → BeginsIf u template.now start path.now begin.now → IsGrowthOf u template.now start (paths ++ path.now ∷ []) next) }
    ensures stops { IfErr result (StopsNext template.now path.now growth) }
{
    match growth {
        Growth::Mismatch(entries) => Ok(Growth::Mismatch(entries)),
        Growth::Nothing(known) => take_path(alloc, template, known, begin, path),
        Growth::Grown(known) => match take_path(alloc, template, known, begin, path) {
            Ok(growth) => Ok(as_grown(growth)),
            Err(stop) => Err(stop),
        },
    }
}

impl Known {
    /// Takes the broken paths from one start, the claim of the widening point with the number `from`, or that of an output where it is none: each
    /// becomes entries, and its end a further member of the widening point there, up to the first that ends in a mismatch. A path that meets a
    /// claim since one before it was taken is left out; so nothing comes of them only where there are no paths, and where claims
    /// grew, each further member broke the claim of its widening point as it was then. `Overflow` only with obligations at the pair of a widening
    /// point, where a number leaves `i128` as the last of them is taken beside the others.
    pub fn take(
        self,
        alloc: Global,
        template: &Template,
        from: Option<usize>,
        paths: Items<Items<Entry>>,
    ) -> Result<Growth, HullStop>
        requires moduli { HasModuli template.now }
        requires paths { (u : Unfolding) × ArePathsOf u template.now self from paths }
        ensures takes { IfOk result (λ growth. (u : Unfolding) → ArePathsOf u template.now self from paths → IsGrowthOf u template.now self paths growth) }
        ensures stops { IfErr result (StopsGrowth template.now self from paths) }
    {
        let paths = paths.as_slice();
        let begins = begins_of(alloc, &self, from, paths)?;
        let begins = begins.as_slice();
        let mut growth = Growth::Nothing(self);
        for at in 0..paths.len() {
            growth = take_next(alloc, template, growth, &begins[at], paths[at].as_slice())?;
        }
        Ok(growth)
    }
}
