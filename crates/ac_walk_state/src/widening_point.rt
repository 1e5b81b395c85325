ghost use Rattle.std.specs.Prelude.{◌≡◌, ◌↔◌, ℤ, List, [], ◌∷◌, ◌++◌, length, IfOk, IsTrue, MatchOption, MatchResult};
ghost use Rattle.ac_forms.specs.Rows.{AreRowsOver, Meets};
ghost use Rattle.ac_forms.specs.ListMembers.{IsAmong};
ghost use Rattle.ac_forms.specs.FormStops.{GivenWhere};
ghost use Rattle.ac_syntax.specs.declared.tree.Position.{Position};
ghost use Rattle.ac_hull.specs.ColumnDifferences.{GapsFit};
ghost use Rattle.ac_hull.specs.EliminationRange.{CanAdd, CanCombine};
ghost use Rattle.ac_hull.specs.HullStops.{HandsBack};
ghost use Rattle.ac_widen.specs.Combinations.{Each, InHull};
ghost use Rattle.ac_widen.specs.Derivations.{EntryOf, StandsAt};
ghost use Rattle.ac_widen.specs.DerivationPaths.{AreAt};
ghost use Rattle.ac_walk_state.specs.RecurrencePairs.{positions, claim_of};
ghost use Rattle.ac_walk_state.specs.RecurrencePairInvariant.{CanMeet, HasModuli, IsWideningPoint, IsReasonAt, IsTooLarge, IsWith};
ghost use Rattle.ac_walk_state.specs.declared.template.Template.{Template};

use crate::claiming::rows_of;
use crate::holding::{hold, is_inside};
use crate::member::{claimed_rows, weighed, with_numbers};
use crate::points::{stopped, with_point};
use crate::template::Template;
use ac_base::Items;
use ac_claims::types::Claim;
use ac_forms::{FormStop, Row};
use ac_hull::{Hull, HullStop};
use ac_syntax::tree::Position;
use ac_widen::Reason;
use std::alloc::{AllocError, Global};
use std::marker::Model;

/// What is known at a recurrence pair.
#[derive(Drop)]
pub struct WideningPoint {
    left: Position,
    right: Position,
    hull: Hull,
    members: Items<Items<i128>>,
    places: Items<usize>,
    kept: Items<usize>,
    rows: Items<Row>,
}

impl Model for WideningPoint {
    ghost use Rattle.ac_walk_state.specs.RecurrencePairs.{WideningPointOf, AreKept};

    ghost Value = { WideningPointOf };

    ghost view = { λ k. record { left = k.left; right = k.right; hull = k.hull; members = k.members; places = k.places; kept = k.kept; rows = k.rows } };

    ghost invariant = { λ k. AreKept k.hull k.members k.places k.kept k.rows };
}

impl WideningPoint {
    /// A recurrence pair without members; each point there has that many numbers.
    pub fn new(alloc: Global, left: Position, right: Position, columns: usize) -> WideningPoint
        ensures value { result ≡ record { left = left; right = right; hull = record { columns = columns; members = [] }; members = []; places = []; kept = []; rows = [] } }
        ensures right { (t : Template) (es : List (EntryOf (Position × Position))) → IsWideningPoint t es result }
    {
        WideningPoint {
            left,
            right,
            hull: Hull::new(alloc, columns),
            members: Items::new(alloc),
            places: Items::new(alloc),
            kept: Items::new(alloc),
            rows: Items::new(alloc),
        }
    }

    /// The left position.
    pub fn left(&self) -> Position
        ensures { result ≡ self.now.left }
    {
        self.left
    }

    /// The right position.
    pub fn right(&self) -> Position
        ensures { result ≡ self.now.right }
    {
        self.right
    }

    /// How many numbers a point has.
    pub fn columns(&self) -> usize
        ensures { result ≡ self.now.hull.columns }
    {
        self.hull.columns()
    }

    /// How many members were found.
    pub fn count(&self) -> usize
        ensures { result ≡ length self.now.members }
    {
        self.members.len()
    }

    /// Whether no member was found, which is whether the hull has none.
    pub fn is_empty(&self) -> bool
        ensures members { IsTrue result ↔ (self.now.members ≡ []) }
        ensures hull { IsTrue result ↔ (self.now.hull.members ≡ []) }
    {
        self.hull.is_empty()
    }

    /// Whether it is this pair of positions.
    pub fn is_at(&self, left: &Position, right: &Position) -> bool
        ensures { IsTrue result ↔ (positions self.now ≡ (left.now, right.now)) }
    {
        self.left == *left && self.right == *right
    }

    /// The claim: the row `-1 >= 0` before the first member; then the equalities of the hull, and template rows that all members meet.
    pub fn claim(&self, alloc: Global) -> Result<Claim, AllocError>
        ensures value { IfOk result (λ claim. claim ≡ claim_of self.now) }
        ensures over { IfOk result (λ claim. AreRowsOver self.now.hull.columns claim.rows) }
    {
        Ok(Claim {
            left: self.left,
            right: self.right,
            rows: rows_of(alloc, &self.hull, self.rows.as_slice())?,
        })
    }

    /// Whether a point breaks the claim. `Overflow` with the hull's members and the point exactly where a template row of the claim, up
    /// to the first that does not hold, can't be evaluated at the point in `i128`, or, where all of them hold, a number leaves `i128` as
    /// the point is combined from the members.
    pub fn breaks(&self, alloc: Global, point: &[i128]) -> Result<bool, HullStop>
        requires { length point.now ≡ self.now.hull.columns }
        ensures { GivenWhere result (HandsBack (self.now.hull.members ++ point.now ∷ [])) (CanMeet self.now point.now) (λ breaks. IsTrue breaks ↔ (¬ Meets (claim_of self.now).rows point.now)) }
    {
        let met = match hold(self.rows.as_slice(), point) {
            Ok(met) => met,
            Err(_wide) => return Err(stopped(alloc, self.hull.members(), point)),
        };
        if !met {
            return Ok(true);
        }
        if self.hull.is_empty() {
            return Ok(true);
        }
        match is_inside(alloc, &self.hull, point) {
            Ok(inside) => Ok(!inside),
            Err(stop) => Err(stop),
        }
    }

    /// The pair with a further member, whose entry has the number `place`. `Overflow` exactly where a number of the hull's elimination
    /// leaves `i128`, with the hull's members and the point, or a difference of two columns at a member does, with all members.
    pub fn with_member(
        self,
        alloc: Global,
        template: &Template,
        point: &[i128],
        place: usize,
    ) -> Result<WideningPoint, HullStop>
        requires width { length point.now ≡ self.hull.columns }
        requires moduli { HasModuli template.now }
        ensures made { MatchResult result (λ widening_point. CanAdd self.hull.columns self.hull.members point.now × Each GapsFit (self.members ++ point.now ∷ []) × IsWith self point.now place widening_point) (IsTooLarge self point.now) }
        ensures right { IfOk result (λ widening_point. (es : List (EntryOf (Position × Position))) → IsWideningPoint template.now es self → StandsAt es place (positions self) point.now → IsWideningPoint template.now es widening_point) }
    {
        let WideningPoint {
            left,
            right,
            mut hull,
            members,
            places,
            kept,
            rows: _,
        } = self;
        let grew = match hull.add(point) {
            Ok(grew) => grew,
            Err(stop) => return Err(stop),
        };
        let numbers = match with_numbers(places, kept, place, grew) {
            Ok(numbers) => numbers,
            Err(want) => return Err(HullStop::Memory(want)),
        };
        let members = match with_point(alloc, members, point) {
            Ok(members) => members,
            Err(want) => return Err(HullStop::Memory(want)),
        };
        match claimed_rows(alloc, template, &hull, members.as_slice()) {
            Ok(rows) => Ok(WideningPoint {
                left,
                right,
                hull,
                members,
                places: numbers.0,
                kept: numbers.1,
                rows,
            }),
            Err(FormStop::Wide) => Err(HullStop::Overflow(members)),
            Err(FormStop::Memory(want)) => Err(HullStop::Memory(want)),
        }
    }

    /// The number of the entry of a member with this point; none exactly where no member has it.
    #[tactic(auto, using(crate::proofs::Testing::search_steps))]
    pub fn place_of(&self, point: &[i128]) -> Option<usize>
        ensures { MatchOption result (¬ IsAmong point.now self.now.members) (λ place. (es : List (EntryOf (Position × Position))) → AreAt es (positions self.now) self.now.places self.now.members → StandsAt es place (positions self.now) point.now) }
    {
        let members = self.members.as_slice();
        let places = self.places.as_slice();
        for at in 0..places.len() {
            if members[at].as_slice() == point {
                return Some(places[at]);
            }
        }
        None
    }

    /// Why a point of the claim stands: its combination from the members of the hull. None exactly where it is outside the hull;
    /// `Overflow` exactly as `Hull::combination`.
    pub fn reason(&self, alloc: Global, point: &[i128]) -> Result<Option<Reason>, HullStop>
        requires { length point.now ≡ self.now.hull.columns }
        ensures { GivenWhere result (HandsBack (self.now.hull.members ++ point.now ∷ [])) (CanCombine self.now.hull.members point.now) (λ found. MatchOption found (¬ InHull self.now.hull.members point.now) (IsReasonAt self.now point.now)) }
    {
        match self.hull.combination(alloc, point) {
            Ok(Some(combination)) => match weighed(alloc, self.kept.as_slice(), &combination) {
                Ok(reason) => Ok(Some(reason)),
                Err(want) => Err(HullStop::Memory(want)),
            },
            Ok(None) => Ok(None),
            Err(stop) => Err(stop),
        }
    }
}
