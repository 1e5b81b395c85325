//! Rows and hulls at a point.
ghost use Rattle.std.specs.Prelude.{◌≡◌, ◌↔◌, [], ◌∷◌, ◌++◌, length, IsTrue, MatchResult};
ghost use Rattle.ac_forms.specs.Rows.{AreRowsOver, CanTest, Meets};
ghost use Rattle.ac_forms.specs.FormStops.{GivenWhere};
ghost use Rattle.ac_hull.specs.EliminationRange.{CanCombine};
ghost use Rattle.ac_hull.specs.Hulls.{Vanish, equalities_of};
ghost use Rattle.ac_hull.specs.HullStops.{HandsBack};

use ac_forms::{Row, Wide};
use ac_hull::{Hull, HullStop};
use std::alloc::Global;

/// Whether a point meets all rows; `Wide` exactly where a row, up to the first that does not hold, can't be evaluated in `i128`.
#[tactic(auto, using(ac_forms::proofs::RowTests::test_steps))]
pub(crate) fn hold(rows: &[Row], point: &[i128]) -> Result<bool, Wide>
    requires { AreRowsOver (length point.now) rows.now }
    ensures { MatchResult result (λ hold. CanTest rows.now point.now × (IsTrue hold ↔ Meets rows.now point.now)) (λ _. ¬ CanTest rows.now point.now) }
{
    for row in rows {
        if !row.holds_at(point)? {
            return Ok(false);
        }
    }
    Ok(true)
}

/// Whether the equalities of a hull that has members hold at a point: whether the members can be combined to it. `Overflow` exactly as
/// `Hull::combination`.
pub(crate) fn is_inside(alloc: Global, hull: &Hull, point: &[i128]) -> Result<bool, HullStop>
    requires width { length point.now ≡ hull.now.columns }
    requires some { ¬ (hull.now.members ≡ []) }
    ensures { GivenWhere result (HandsBack (hull.now.members ++ point.now ∷ [])) (CanCombine hull.now.members point.now) (λ is. IsTrue is ↔ Vanish (equalities_of hull.now.columns hull.now.members) point.now) }
{
    let _equalities = hull.equalities();
    match hull.combination(alloc, point) {
        Ok(Some(_combination)) => Ok(true),
        Ok(None) => Ok(false),
        Err(stop) => Err(stop),
    }
}
