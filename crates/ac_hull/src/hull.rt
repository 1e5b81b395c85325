ghost use Rattle.std.specs.Prelude.{ℤ, List, MatchResult, MatchOption, IsTrue, ◌↔◌, ◌≡◌, [], ◌∷◌, ◌++◌, length, MatchBool, IfOk, OnErr};
ghost use Rattle.ac_forms.specs.FormStops.{GivenWhere, MadeWhere};
ghost use Rattle.ac_hull.specs.Hulls.{HullOf, IsGrown, IsWithin, Falls, IsFound, Vanish, CanVanish, equalities_of};
ghost use Rattle.ac_hull.specs.HullInternals.Keeping.{IsGrowth, IsExtension, equalities_behind};
ghost use Rattle.ac_widen.specs.Combinations.{InHull};
ghost use Rattle.ac_hull.specs.HullStops.{HandsBack};
ghost use Rattle.ac_hull.specs.EliminationRange.{CanAdd, CanGrow, CanEqualities, CanCombine};

use crate::combination::{Combination, read};
use crate::equality::equalities;
use crate::line::{Line, line_of};
use crate::points::stopped;
use crate::stop::HullStop;
use crate::vanish::vanish;
use ac_base::Items;
use ac_forms::{Form, FormStop, Wide};
use std::alloc::{AllocError, Global};
use std::marker::Model;

/// The rational affine hull of integer points, by members none of which lies in the hull of those before it, with the
/// rows of their elimination and the equalities of the hull.
#[derive(Drop)]
pub struct Hull {
    alloc: Global,
    columns: usize,
    members: Items<Items<i128>>,
    lines: Items<Line>,
    equalities: Items<Form>,
}

impl Model for Hull {
    ghost use Rattle.ac_hull.specs.Hulls.{HullOf};
    ghost use Rattle.ac_hull.specs.HullInternals.Keeping.{IsHull};

    ghost Value = { HullOf };

    ghost view = { λ h. record { columns = h.columns; members = h.members } };

    ghost invariant = { λ h. IsHull h.columns h.members h.lines h.equalities };
}

impl Hull {
    /// A hull without members; each point has that many numbers.
    pub fn new(alloc: Global, columns: usize) -> Hull
        ensures { result ≡ record { columns = columns; members = [] } }
    {
        Hull {
            alloc,
            columns,
            members: Items::new(alloc),
            lines: Items::new(alloc),
            equalities: Items::new(alloc),
        }
    }

    /// Adds a point, and says whether the hull grew. `Overflow` exactly where a number of the point's elimination, or of
    /// the equalities behind it, leaves `i128`. After a stop the hull is as before.
    pub fn add(&mut self, point: &[i128]) -> Result<bool, HullStop>
        requires { length point.now ≡ self.old.columns }
        ensures exact { IfOk result (λ grew. MatchBool grew (IsGrown self.old point.now self.new) (IsWithin self.old point.now self.new)) }
        ensures falls { IfOk result (λ grew. IsTrue grew → Falls self.old self.new) }
        ensures stopped { OnErr result (self.new ≡ self.old) }
        ensures overflow { GivenWhere result (HandsBack (self.old.members ++ point.now ∷ [])) (CanAdd self.old.columns self.old.members point.now) (λ _. Unit {0}) }
    {
        match self.add_point(point) {
            Ok(grew) => Ok(grew),
            Err(stop) => Err(stopped(self.alloc, self.members.as_slice(), point, stop)),
        }
    }

    /// How many numbers a point has.
    pub fn columns(&self) -> usize
        ensures { result ≡ self.now.columns }
    {
        self.columns
    }

    /// The kept members, in the order in which they came.
    pub fn members(&self) -> &[Items<i128>]
        ensures { result.now ≡ self.now.members }
    {
        self.members.as_slice()
    }

    /// Whether there is no member.
    pub fn is_empty(&self) -> bool
        ensures { IsTrue result ↔ (self.now.members ≡ []) }
    {
        self.members.is_empty()
    }

    /// The equalities, one for each column that is no pivot, in order and in normal form: their points are exactly the
    /// hull.
    pub fn equalities(&self) -> &[Form]
        requires { ¬ (self.now.members ≡ []) }
        ensures value { result.now ≡ equalities_of self.now.columns self.now.members }
        ensures points { (q : List ℤ) → length q ≡ self.now.columns → InHull self.now.members q ↔ Vanish result.now q }
    {
        self.equalities.as_slice()
    }

    /// Whether the point is in the hull; `Wide` exactly where an equality, up to the first that it breaks, can't be
    /// evaluated in `i128`.
    pub fn contains(&self, point: &[i128]) -> Result<bool, Wide>
        requires { length point.now ≡ self.now.columns }
        ensures { MatchResult result (λ is. CanVanish (equalities_of self.now.columns self.now.members) point.now × (IsTrue is ↔ InHull self.now.members point.now)) (λ _. ¬ CanVanish (equalities_of self.now.columns self.now.members) point.now) }
    {
        if self.members.is_empty() {
            return Ok(false);
        }
        vanish(self.equalities.as_slice(), point)
    }

    /// An integer combination of the members that gives the point; none exactly where the point is outside the hull.
    /// `Overflow` exactly where a number of the point's elimination, or of the weights that are read off it, leaves
    /// `i128`.
    pub fn combination(
        &self,
        alloc: Global,
        point: &[i128],
    ) -> Result<Option<Combination>, HullStop>
        requires { length point.now ≡ self.now.columns }
        ensures { GivenWhere result (HandsBack (self.now.members ++ point.now ∷ [])) (CanCombine self.now.members point.now) (λ found. MatchOption found (¬ InHull self.now.members point.now) (IsFound self.now.members point.now)) }
    {
        match self.combine(alloc, point) {
            Ok(found) => Ok(found),
            Err(stop) => Err(stopped(alloc, self.members.as_slice(), point, stop)),
        }
    }

    /// Adds a point, and says whether the hull grew.
    fn add_point(&mut self, point: &[i128]) -> Result<bool, FormStop>
        requires { length point.now ≡ self.old.columns }
        ensures exact { IfOk result (λ grew. MatchBool grew (IsGrown self.old point.now self.new) (IsWithin self.old point.now self.new)) }
        ensures falls { IfOk result (λ grew. IsTrue grew → Falls self.old self.new) }
        ensures stopped { OnErr result (self.new ≡ self.old) }
        ensures wide { MadeWhere result (CanAdd self.old.columns self.old.members point.now) (λ _. Unit {0}) }
    {
        let alloc = self.alloc;
        let Some(first) = self.members.get(0) else {
            self.begin(alloc, point)?;
            return Ok(true);
        };
        let line = line_of(alloc, self.lines.as_slice(), first.as_slice(), point)?;
        if line.is_zero() {
            return Ok(false);
        }
        match self.grow(alloc, point, line) {
            Ok(()) => Ok(true),
            Err(stop) => Err(stop),
        }
    }

    /// An integer combination of the members that gives the point; none exactly where it is outside the hull.
    fn combine(&self, alloc: Global, point: &[i128]) -> Result<Option<Combination>, FormStop>
        requires { length point.now ≡ self.now.columns }
        ensures { MadeWhere result (CanCombine self.now.members point.now) (λ found. MatchOption found (¬ InHull self.now.members point.now) (IsFound self.now.members point.now)) }
    {
        let Some(first) = self.members.get(0) else {
            return Ok(None);
        };
        let line = line_of(alloc, self.lines.as_slice(), first.as_slice(), point)?;
        if !line.is_zero() {
            return Ok(None);
        }
        match read(alloc, &line, self.lines.len()) {
            Ok(combination) => Ok(Some(combination)),
            Err(stop) => Err(stop),
        }
    }

    /// Makes a point the first member.
    fn begin(&mut self, alloc: Global, point: &[i128]) -> Result<(), FormStop>
        requires length { length point.now ≡ self.old.columns }
        requires none { self.old.members ≡ [] }
        ensures made { MadeWhere result (CanEqualities self.old.columns [] point.now self.old.columns) (λ _. self.new ≡ record { columns = self.old.columns; members = self.old.members ++ point.now ∷ [] }) }
        ensures stopped { OnErr result (self.new ≡ self.old) }
    {
        let member = Items::from_slice(alloc, point)?;
        let made = equalities(alloc, self.columns, self.lines.as_slice(), point)?;
        self.members.push(member)?;
        self.equalities = made;
        Ok(())
    }

    /// Adds a point whose row does not come to 0.
    fn grow(&mut self, alloc: Global, point: &[i128], line: Line) -> Result<(), FormStop>
        requires { IsGrowth self.old.columns self.old.members point.now line }
        ensures made { MadeWhere result (CanGrow self.old.columns self.old.members line) (λ _. self.new ≡ record { columns = self.old.columns; members = self.old.members ++ point.now ∷ [] }) }
        ensures stopped { OnErr result (self.new ≡ self.old) }
    {
        let member = Items::from_slice(alloc, point)?;
        let made = extended(
            alloc,
            self.columns,
            &mut self.lines,
            self.members.as_slice(),
            line,
        )?;
        if self.members.push(member).is_err() {
            let _last = self.lines.pop();
            return Err(FormStop::Memory(AllocError));
        }
        self.equalities = made;
        Ok(())
    }
}

/// The rows with one more, and the equalities behind it; after a stop the rows are as before.
fn extended(
    alloc: Global,
    columns: usize,
    lines: &mut Items<Line>,
    members: &[Items<i128>],
    line: Line,
) -> Result<Items<Form>, FormStop>
    requires { IsExtension columns lines.old members.now line }
    ensures made { MadeWhere result (CanGrow columns members.now line) (λ made. (made ≡ equalities_behind columns members.now line) × (lines.new ≡ lines.old ++ line ∷ [])) }
    ensures stopped { OnErr result (lines.new ≡ lines.old) }
{
    lines.push(line)?;
    let made = match members.first() {
        Some(first) => equalities(alloc, columns, lines.as_slice(), first.as_slice()),
        None => Ok(Items::new(alloc)),
    };
    if made.is_err() {
        let _last = lines.pop();
    }
    made
}
