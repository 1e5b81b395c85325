ghost use Rattle.std.specs.Prelude.{◌≡◌, ◌++◌, ℕ, pos, ◌<◌, IfOk, OkIff, IsTrue, ◌↔◌};
ghost use Rattle.ac_base.specs.Gcd.{content};
ghost use Rattle.ac_forms.specs.Fits.{Fits};
ghost use Rattle.ac_forms.specs.FormStops.{MadeIff};
ghost use Rattle.ac_hull.specs.FractionFreeElimination.{reduced_by, reduced_all, lowered, fresh, next_line, next_content, minus, IsZero};
ghost use Rattle.ac_hull.specs.EliminationRange.{CanReduce, CanReduceAll, CanNext, AllCross};

use crate::numbers::{common_divisor, crossed, lead, quotients};
use ac_base::Items;
use ac_forms::{FormStop, Wide, coefficient};
use std::alloc::{AllocError, Global};

/// A row of the elimination: its coordinates, and its weights over the differences of the members to the first.
#[derive(Drop)]
pub(crate) struct Line {
    pub coords: Items<i128>,
    pub weights: Items<i128>,
}

impl Line {
    /// The row of a difference behind `n` others: it has the weight 1 for itself.
    pub(crate) fn fresh(alloc: Global, n: usize, coords: Items<i128>) -> Result<Line, AllocError>
        ensures { IfOk result (λ line. line ≡ fresh n coords) }
    {
        let mut weights = vec![in alloc; 0i128; n]?;
        weights.push(1)?;
        Ok(Line {
            coords,
            weights: Items::from(weights),
        })
    }

    /// The row reduced by another.
    pub(crate) fn reduced_by(&self, alloc: Global, other: &Line) -> Result<Line, FormStop>
        ensures { MadeIff result (CanReduce other.now self.now) (reduced_by other.now self.now) }
    {
        let column = lead(other.coords.as_slice());
        let pivot = coefficient(other.coords.as_slice(), column);
        let number = coefficient(self.coords.as_slice(), column);
        let coords = crossed(
            alloc,
            pivot,
            self.coords.as_slice(),
            number,
            other.coords.as_slice(),
        )?;
        let weights = crossed(
            alloc,
            pivot,
            self.weights.as_slice(),
            number,
            other.weights.as_slice(),
        )?;
        Ok(Line { coords, weights })
    }

    /// The row reduced by others in order.
    #[tactic(auto, using(crate::proofs::Reductions::reduction_steps))]
    pub(crate) fn reduced_all(self, alloc: Global, others: &[Line]) -> Result<Line, FormStop>
        ensures { MadeIff result (CanReduceAll others.now self) (reduced_all others.now self) }
    {
        let mut line = self;
        for other in others {
            line = line.reduced_by(alloc, other)?;
        }
        Ok(line)
    }

    /// The greatest common divisor of the entries; wide exactly where it leaves `i128`.
    #[tactic(auto, using(crate::proofs::Commons::divisor_steps))]
    fn divisor(&self) -> Result<i128, Wide>
        ensures { OkIff result (Fits (pos (content (self.now.coords ++ self.now.weights)))) (pos (content (self.now.coords ++ self.now.weights))) }
    {
        let divisor = common_divisor(
            ac_base::content(self.coords.as_slice()),
            self.weights.as_slice(),
        );
        if divisor <= i128::MAX as u128 {
            Ok(divisor as i128)
        } else {
            Err(Wide)
        }
    }

    /// The row divided by the greatest common divisor of its entries; wide exactly where that leaves `i128`.
    #[tactic(auto, using(crate::proofs::Commons::lowered_steps))]
    pub(crate) fn lowered(&self, alloc: Global) -> Result<Line, FormStop>
        requires { 0 < content (self.now.coords ++ self.now.weights) }
        ensures { MadeIff result (Fits (pos (content (self.now.coords ++ self.now.weights)))) (lowered self.now) }
    {
        let divisor = self.divisor()?;
        let coords = quotients(alloc, self.coords.as_slice(), divisor)?;
        let weights = quotients(alloc, self.weights.as_slice(), divisor)?;
        Ok(Line { coords, weights })
    }

    /// Whether all coordinates are 0.
    #[tactic(auto, using(crate::proofs::Leads::zero_steps))]
    pub(crate) fn is_zero(&self) -> bool
        ensures { IsTrue result ↔ IsZero self.now.coords }
    {
        lead(self.coords.as_slice()) == self.coords.len()
    }
}

/// The row of a further difference behind the rows.
pub(crate) fn next_line(
    alloc: Global,
    lines: &[Line],
    difference: Items<i128>,
) -> Result<Line, FormStop>
    requires { 0 < next_content lines.now difference }
    ensures { MadeIff result (CanNext lines.now difference) (next_line lines.now difference) }
{
    let line = Line::fresh(alloc, lines.len(), difference)?;
    let line = line.reduced_all(alloc, lines)?;
    line.lowered(alloc)
}

/// The row of a further point, by its difference to the first.
pub(crate) fn line_of(
    alloc: Global,
    lines: &[Line],
    first: &[i128],
    point: &[i128],
) -> Result<Line, FormStop>
    requires { 0 < next_content lines.now (minus point.now first.now) }
    ensures { MadeIff result (AllCross (pos 1) point.now (pos 1) first.now × CanNext lines.now (minus point.now first.now)) (next_line lines.now (minus point.now first.now)) }
{
    let difference = crossed(alloc, 1, point, 1, first)?;
    next_line(alloc, lines, difference)
}
