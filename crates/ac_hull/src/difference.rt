ghost use Rattle.std.specs.Prelude.{◌≡◌, ◌↔◌, ◌+ℤ◌, ◌-ℤ◌, ◌≤ℤ◌, ℤ, pos, List, IfSome, IsTrue, OkIff};
ghost use Rattle.ac_base.specs.Multiple.{IsMultiple};
ghost use Rattle.ac_forms.specs.Fits.{Fits};
ghost use Rattle.ac_forms.specs.ListMembers.{IsAmong};
ghost use Rattle.ac_widen.specs.Combinations.{Each};
ghost use Rattle.ac_hull.specs.ColumnDifferences.{AllMeetRow, GapsFit, HoldsWith, IsConstant, IsSum, IsWeaker, gap, gap_of};

use ac_base::Items;
use ac_forms::{Wide, coefficient};

/// A row over the difference of two columns, of which one past the end stands for 0.
#[derive(Clone, Copy, Drop)]
pub(crate) struct Difference {
    pub first: usize,
    pub second: usize,
    pub constant: i128,
    /// None for `first - second + constant >= 0`; for a residue class the modulus.
    pub modulus: Option<i128>,
}

/// One column less another at a point; `Wide` exactly where that leaves `i128`.
#[tactic(auto, using(ac_base::proofs::Bits::again_128))]
pub(crate) fn gap(point: &[i128], first: usize, second: usize) -> Result<i128, Wide>
    ensures { OkIff result (Fits (gap first second point.now)) (gap first second point.now) }
{
    match coefficient(point, first).checked_sub(coefficient(point, second)) {
        Some(gap) => Ok(gap),
        None => Err(Wide),
    }
}

/// Whether `left - right` is at most `other_left - other_right`.
#[tactic(auto, using(ac_base::proofs::Bits::again_128))]
fn is_at_most(left: &i128, right: &i128, other_left: &i128, other_right: &i128) -> bool
    ensures { IsTrue result ↔ ((left.now -ℤ right.now) ≤ℤ (other_left.now -ℤ other_right.now)) }
{
    let size = left.abs_diff(*right);
    let other_size = other_left.abs_diff(*other_right);
    if left < right {
        other_left >= other_right || size >= other_size
    } else {
        other_left >= other_right && size <= other_size
    }
}

/// Whether a modulus divides the sum of two numbers, of which the second is not negative.
#[tactic(auto, using(crate::proofs::Meeting::meet_steps))]
fn has_residue(number: &i128, constant: &i128, modulus: &i128) -> bool
    requires modulus { pos 1 ≤ℤ modulus.now }
    requires constant { pos 0 ≤ℤ constant.now }
    ensures { IsTrue result ↔ IsMultiple modulus.now (number.now +ℤ constant.now) }
{
    let rest = number.rem_euclid(*modulus);
    let opposite = -*constant;
    let difference = rest - opposite.rem_euclid(*modulus);
    ac_base::is_multiple(difference, *modulus)
}

impl Difference {
    /// The difference of the row's columns at a point.
    #[tactic(auto, using(ac_base::proofs::Bits::again_128))]
    fn gap(&self, point: &[i128]) -> i128
        requires { GapsFit point.now }
        ensures { result ≡ gap_of self.now point.now }
    {
        coefficient(point, self.first) - coefficient(point, self.second)
    }

    /// Whether a point meets the row.
    #[tactic(auto, using(crate::proofs::Meeting::meet_steps))]
    fn is_met_at(&self, point: &[i128]) -> bool
        requires fit { GapsFit point.now }
        requires modulus { IfSome self.now.modulus (λ m. pos 1 ≤ℤ m) }
        requires constant { IfSome self.now.modulus (λ _. pos 0 ≤ℤ self.now.constant) }
        ensures { IsTrue result ↔ HoldsWith self.now.modulus (gap_of self.now point.now +ℤ self.now.constant) }
    {
        let gap = self.gap(point);
        match self.modulus {
            None => is_at_most(&0, &self.constant, &gap, &0),
            Some(modulus) => has_residue(&gap, &self.constant, &modulus),
        }
    }

    /// Whether all points meet the row.
    #[tactic(auto, using(crate::proofs::Meeting::meet_steps))]
    pub(crate) fn is_met(&self, points: &[Items<i128>]) -> bool
        requires fit { Each GapsFit points.now }
        requires modulus { IfSome self.now.modulus (λ m. pos 1 ≤ℤ m) }
        requires constant { IfSome self.now.modulus (λ _. pos 0 ≤ℤ self.now.constant) }
        ensures { IsTrue result ↔ AllMeetRow points.now self.now }
    {
        for point in points {
            if !self.is_met_at(point.as_slice()) {
                return false;
            }
        }
        true
    }

    /// Whether the difference of the columns is one number at all points.
    pub(crate) fn is_constant(&self, points: &[Items<i128>]) -> bool
        requires { Each GapsFit points.now }
        ensures { IsTrue result ↔ IsConstant points.now self.now }
    {
        let Some(base) = points.first() else {
            return true;
        };
        for point in points {
            if self.gap(point.as_slice()) != self.gap(base.as_slice()) {
                return false;
            }
        }
        true
    }

    /// Whether the forms of two rows differ by the same number at two points.
    #[tactic(auto, using(ac_base::proofs::Bits::again_128))]
    fn is_parallel_at(&self, other: &Difference, base: &[i128], point: &[i128]) -> bool
        requires base { GapsFit base.now }
        requires point { GapsFit point.now }
        ensures { IsTrue result ↔ (gap_of self.now point.now -ℤ gap_of self.now base.now ≡ gap_of other.now point.now -ℤ gap_of other.now base.now) }
    {
        let here = self.gap(point);
        let before = self.gap(base);
        let other_here = other.gap(point);
        let other_before = other.gap(base);
        is_at_most(&here, &before, &other_here, &other_before)
            && is_at_most(&other_here, &other_before, &here, &before)
    }

    /// Whether the forms of two rows differ by one number at all points.
    fn is_parallel(&self, other: &Difference, base: &[i128], points: &[Items<i128>]) -> bool
        requires base { GapsFit base.now }
        requires points { Each GapsFit points.now }
        ensures { IsTrue result ↔ Each (λ p. gap_of self.now p -ℤ gap_of self.now base.now ≡ gap_of other.now p -ℤ gap_of other.now base.now) points.now }
    {
        for point in points {
            if !self.is_parallel_at(other, base, point.as_slice()) {
                return false;
            }
        }
        true
    }

    /// Whether the form of a row is at most that of another at a point.
    #[tactic(auto, using(ac_base::proofs::Bits::again_128))]
    fn is_below_at(&self, other: &Difference, point: &[i128]) -> bool
        requires { GapsFit point.now }
        ensures { IsTrue result ↔ ((gap_of self.now point.now +ℤ self.now.constant) ≤ℤ (gap_of other.now point.now +ℤ other.now.constant)) }
    {
        is_at_most(
            &self.gap(point),
            &other.gap(point),
            &other.constant,
            &self.constant,
        )
    }

    /// Whether the row says no more than another.
    pub(crate) fn is_weaker(&self, other: &Difference, points: &[Items<i128>]) -> bool
        requires { Each GapsFit points.now }
        ensures { IsTrue result ↔ IsWeaker points.now other.now self.now }
    {
        if !other.is_alike(self) {
            return false;
        }
        let Some(base) = points.first() else {
            return true;
        };
        let is_below = self.modulus.is_some() || other.is_below_at(self, base.as_slice());
        is_below && self.is_parallel(other, base.as_slice(), points)
    }

    /// Whether the row says no more than the sum of two.
    pub(crate) fn is_sum(&self, left: &Difference, right: &Difference) -> bool
        ensures { IsTrue result ↔ IsSum left.now right.now self.now }
    {
        if !self.is_chained(left, right) {
            return false;
        }
        if !left.is_alike(self) || !right.is_alike(self) {
            return false;
        }
        self.modulus.is_some() || is_at_most(&left.constant, &self.constant, &0, &right.constant)
    }

    /// Whether two rows lead from the row's first column over another to its second.
    fn is_chained(&self, left: &Difference, right: &Difference) -> bool
        ensures { IsTrue result ↔ ((left.now.first ≡ self.now.first) × (left.now.second ≡ right.now.first) × (right.now.second ≡ self.now.second)) }
    {
        left.first == self.first && left.second == right.first && right.second == self.second
    }

    /// Whether two rows are bounds, or classes of one modulus.
    fn is_alike(&self, other: &Difference) -> bool
        ensures { IsTrue result ↔ (self.now.modulus ≡ other.now.modulus) }
    {
        self.modulus == other.modulus
    }
}
