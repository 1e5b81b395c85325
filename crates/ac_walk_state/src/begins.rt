//! Where broken paths begin.
ghost use Rattle.std.specs.Prelude.{◌≡◌, ◌++◌, length, List, [], ◌∷◌, IfErr, IfOk, OnOk};
ghost use Rattle.ac_forms.specs.ListMembers.{IsAmong};
ghost use Rattle.ac_widen_programs.specs.BrokenPaths.{IsBroken};
ghost use Rattle.ac_widen_programs.specs.PairPaths.{Unfolding};
ghost use Rattle.ac_syntax.specs.declared.tree.Position.{Position};
ghost use Rattle.ac_widen.specs.Derivations.{EntryOf};
ghost use Rattle.ac_walk_state.specs.RecurrencePairInvariant.{IsWideningPoint};
ghost use Rattle.ac_walk_state.specs.declared.template.Template.{Template};
ghost use Rattle.ac_walk_state.specs.BrokenPathStarts.{AtEach, BeginsInside, BeginsOf, IsInside};
ghost use Rattle.ac_walk_state.specs.PathEntries.{GoesOn};
ghost use Rattle.ac_walk_state.specs.OrderKnowledge.{claims_of};
ghost use Rattle.ac_walk_state.specs.Growth.{ArePathsOf, StartsFrom};
ghost use Rattle.ac_walk_state.specs.GrowthStops.{StopsAt};
ghost use Rattle.ac_walk_state.specs.declared.begins.Begin.{Begin};

use crate::known::Known;
use crate::widening_point::WideningPoint;
use ac_base::Items;
use ac_hull::HullStop;
use ac_widen::{Entry, Reason};
use std::alloc::Global;

/// Where a path begins.
#[derive(Drop)]
pub(crate) enum Begin {
    /// At the entry with this number.
    At(usize),
    /// At a further entry, which stands for this reason.
    Further(Reason),
}

/// Where a path begins from a point of a widening point's claim: at the entry of the member with this point, if a step goes on from there;
/// else at a further entry, in the hull of the members.
fn begin_at(
    alloc: Global,
    widening_point: &WideningPoint,
    path: &[Entry],
) -> Result<Begin, HullStop>
    requires right { (t : Template) × (es : List (EntryOf (Position × Position))) × IsWideningPoint t es widening_point.now }
    requires inside { IsInside widening_point.now path.now }
    ensures steps { IfOk result (GoesOn path.now) }
    ensures begins { IfOk result (BeginsInside widening_point.now path.now) }
    ensures stops { IfErr result (λ stop. (t : Template) → StopsAt t (widening_point.now ∷ []) path.now stop) }
{
    let point = path[0].point.as_slice();
    if path.len() > 1 {
        if let Some(place) = widening_point.place_of(point) {
            return Ok(Begin::At(place));
        }
    }
    match widening_point.reason(alloc, point) {
        Ok(Some(reason)) => Ok(Begin::Further(reason)),
        Ok(None) => unreachable!(),
        Err(stop) => Err(stop),
    }
}

/// Where a broken path begins, from the claim of the widening point with a number, or from the claim of an output.
fn begin_of(
    alloc: Global,
    known: &Known,
    from: Option<usize>,
    path: &[Entry],
) -> Result<Begin, HullStop>
    requires { (u : Unfolding) × (t : Template) × StartsFrom u t known.now from × IsBroken u (claims_of known.now) path.now }
    ensures begins { IfOk result (BeginsOf known.now from path.now) }
    ensures stops { IfErr result (λ stop. (t : Template) → StopsAt t known.now.widening_points.items path.now stop) }
{
    match from {
        Some(at) => begin_at(alloc, &known.widening_points[at], path),
        None => Ok(Begin::Further(Reason::Output)),
    }
}

/// Adds where a broken path begins.
fn push_begin(
    alloc: Global,
    known: &Known,
    from: Option<usize>,
    path: &[Entry],
    begins: &mut Items<Begin>,
) -> Result<(), HullStop>
    requires { (u : Unfolding) × (t : Template) × StartsFrom u t known.now from × IsBroken u (claims_of known.now) path.now }
    ensures begins { OnOk result ((begin : Begin) × BeginsOf known.now from path.now begin × (begins.new ≡ begins.old ++ begin ∷ [])) }
    ensures stops { IfErr result (λ stop. (t : Template) → StopsAt t known.now.widening_points.items path.now stop) }
{
    match begin_of(alloc, known, from, path) {
        Ok(begin) => match begins.push(begin) {
            Ok(()) => Ok(()),
            Err(want) => Err(HullStop::Memory(want)),
        },
        Err(stop) => Err(stop),
    }
}

/// Where broken paths begin, one after the other.
pub(crate) fn begins_of(
    alloc: Global,
    known: &Known,
    from: Option<usize>,
    paths: &[Items<Entry>],
) -> Result<Items<Begin>, HullStop>
    requires { (u : Unfolding) × (t : Template) × ArePathsOf u t known.now from paths.now }
    ensures count { IfOk result (λ begins. length begins ≡ length paths.now) }
    ensures each { IfOk result (AtEach (BeginsOf known.now from) paths.now) }
    ensures stops { IfErr result (λ stop. (path : List Entry) × IsAmong path paths.now × ((t : Template) → StopsAt t known.now.widening_points.items path stop)) }
{
    let mut begins = Items::new(alloc);
    for path in paths {
        push_begin(alloc, known, from, path.as_slice(), &mut begins)?;
    }
    Ok(begins)
}
