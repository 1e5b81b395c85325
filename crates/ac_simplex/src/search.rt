//! The search for a vertex that is an integer point.

use crate::attempts::Effort;
use crate::bounds::Bound;
use crate::choice::{Leaving, entering_column, leaving_row, refutation_at};
use crate::cuts::{add_cut, best_cut, free_pivot};
use crate::tableau::Tableau;
use crate::vertex::near_point;
use ac_simplex_lines::{Derivations, Halt, Refutation};
use std::alloc::Global;

/// What the search comes to.
#[derive(Drop)]
pub(crate) enum Outcome {
    /// There is no point.
    Empty(Refutation),
    /// The bounds hold at this point.
    Point(Vec<i128>),
}

/// The state of a search: the tableau, and the bounds of the question over so many columns.
#[derive(Drop)]
pub(crate) struct Search {
    pub tableau: Tableau,
    pub columns: usize,
    pub bounds: Vec<Bound>,
    pub effort: Effort,
}

impl Search {
    /// Makes a pivot, if one is left.
    fn pivot(&mut self, alloc: Global, place: usize, column: usize) -> Result<(), Halt> {
        match self.effort.pivots.checked_sub(1) {
            Some(left) => self.effort.pivots = left,
            None => return Err(Halt::Open),
        }
        self.tableau.pivot(alloc, place, column)
    }

    /// Counts a cut, if one is left.
    fn count_cut(&mut self) -> Result<(), Halt> {
        match self.effort.cuts.checked_sub(1) {
            Some(left) => self.effort.cuts = left,
            None => return Err(Halt::Open),
        }
        Ok(())
    }

    /// A point near a vertex at which the bounds hold; otherwise a cut, or a pivot that prepares one.
    fn at_vertex(
        &mut self,
        alloc: Global,
        derivations: &mut Derivations,
    ) -> Result<Option<Outcome>, Halt> {
        if let Some(point) = near_point(alloc, &self.tableau, self.columns, &self.bounds)? {
            return Ok(Some(Outcome::Point(point)));
        }
        if let Some(cut) = best_cut(&self.tableau)? {
            self.count_cut()?;
            add_cut(alloc, &mut self.tableau, &cut, derivations)?;
            return Ok(None);
        }
        match free_pivot(&self.tableau)? {
            Some((place, column)) => self.pivot(alloc, place, column)?,
            None => return Err(Halt::Open),
        }
        Ok(None)
    }

    /// One step of the search.
    fn turn(
        &mut self,
        alloc: Global,
        derivations: &mut Derivations,
    ) -> Result<Option<Outcome>, Halt> {
        match leaving_row(&self.tableau) {
            Leaving::Feasible => self.at_vertex(alloc, derivations),
            Leaving::Refuting(place) => {
                let refutation = refutation_at(alloc, &self.tableau, place)?;
                Ok(Some(Outcome::Empty(refutation)))
            }
            Leaving::Row(place) => {
                let Some(column) = entering_column(&self.tableau, place) else {
                    return Err(Halt::Open);
                };
                self.pivot(alloc, place, column)?;
                Ok(None)
            }
        }
    }

    /// The whole search.
    pub(crate) fn outcome(
        &mut self,
        alloc: Global,
        derivations: &mut Derivations,
    ) -> Result<Outcome, Halt> {
        let turns = self.effort.pivots.saturating_add(self.effort.cuts);
        for _ in 0..u64::from(turns).saturating_add(1) {
            if let Some(outcome) = self.turn(alloc, derivations)? {
                return Ok(outcome);
            }
        }
        Err(Halt::Open)
    }
}
