ghost use Rattle.std.specs.Prelude.{◌≡◌, ◌↔◌, ◌++◌, List, [], ◌∷◌, map, IfOk, MatchOption, OnOk, slice_get};
ghost use Rattle.ac_forms.specs.ListMembers.{IsAmong};
ghost use Rattle.ac_graph.specs.PairMoves.{pairing_of};
ghost use Rattle.ac_claims_paths.specs.ModelCalls.{pairing};
ghost use Rattle.ac_syntax.specs.declared.tree.Pair.{Pair};
ghost use Rattle.ac_syntax.specs.declared.tree.Position.{Position};
ghost use Rattle.ac_walk_state.specs.RecurrencePairs.{positions};
ghost use Rattle.ac_walk_state.specs.declared.template.Template.{Template};
ghost use Rattle.ac_walk_state.specs.OrderKnowledge.{IsKnown, claims_of, pairs_of};
ghost use Rattle.ac_walk_state.specs.FreshRecurrencePairs.{HaveWideningPoints, IsFresh};

use crate::columns::columns_of;
use crate::widening_point::WideningPoint;
use ac_base::Items;
use ac_claims::types::Claim;
use ac_claims_paths::path::Programs;
use ac_syntax::tree::Position;
use ac_widen::Entry;
use std::alloc::{AllocError, Global};

/// What is known under one order: the widening points with their members, and a derivation so far.
#[derive(Drop)]
pub struct Known {
    /// At most one for each pair of positions.
    pub widening_points: Vec<WideningPoint>,
    pub entries: Items<Entry>,
}

/// The number of the first widening point at two positions; none exactly where no widening point is there.
pub(crate) fn number_of(
    widening_points: &[WideningPoint],
    left: &Position,
    right: &Position,
) -> Option<usize>
    ensures { MatchOption result (¬ (IsAmong (left.now, right.now) (map positions widening_points.now))) (λ at. slice_get (map positions widening_points.now) at ≡ Some (left.now, right.now)) }
{
    for (at, widening_point) in widening_points.iter().enumerate() {
        if widening_point.is_at(left, right) {
            return Some(at);
        }
    }
    None
}

/// A widening point without members.
fn new_widening_point(
    alloc: Global,
    programs: &Programs<'_>,
    pair: &(Position, Position),
) -> Result<WideningPoint, AllocError>
    ensures pair { IfOk result (λ widening_point. positions widening_point ≡ pair.now) }
    ensures fresh { IfOk result (IsFresh programs.now) }
{
    let columns = columns_of(programs, &pair.0, &pair.1)?;
    Ok(WideningPoint::new(alloc, pair.0, pair.1, columns))
}

/// The widening points with one at a further pair of positions, if there is none yet.
fn with_widening_point(
    alloc: Global,
    programs: &Programs<'_>,
    widening_points: &mut Vec<WideningPoint>,
    pair: &(Position, Position),
) -> Result<(), AllocError>
    ensures { OnOk result ((pairs : List (Position × Position)) → HaveWideningPoints programs.now pairs widening_points.old.items → HaveWideningPoints programs.now (pairs ++ pair.now ∷ []) widening_points.new.items) }
{
    match number_of(widening_points.as_slice(), &pair.0, &pair.1) {
        Some(_) => Ok(()),
        None => {
            widening_points.push(new_widening_point(alloc, programs, pair)?)?;
            Ok(())
        }
    }
}

impl Known {
    /// A widening point without members for each of the pairs of positions of two programs, and no entries.
    pub fn new(
        alloc: Global,
        programs: &Programs<'_>,
        pairs: &[(Position, Position)],
    ) -> Result<Known, AllocError>
        ensures entries { IfOk result (λ known. known.entries ≡ []) }
        ensures pairs { IfOk result (λ known. (positions : Position × Position) → IsAmong positions (pairs_of known) ↔ IsAmong positions pairs.now) }
        ensures known { IfOk result (λ known. (pair : Pair) (t : Template) → pairing_of pair ≡ pairing programs.now → IsKnown pair t known) }
    {
        let mut widening_points = Vec::new(alloc);
        for pair in pairs {
            with_widening_point(alloc, programs, &mut widening_points, pair)?;
        }
        Ok(Known {
            widening_points,
            entries: Items::new(alloc),
        })
    }

    /// The claims of the widening points, in order.
    pub fn claims(&self, alloc: Global) -> Result<Vec<Claim>, AllocError>
        ensures { IfOk result (λ claims. claims.items ≡ claims_of self.now) }
    {
        let mut claims = Vec::new(alloc);
        for widening_point in self.widening_points.as_slice() {
            claims.push(widening_point.claim(alloc)?)?;
        }
        Ok(claims)
    }
}
