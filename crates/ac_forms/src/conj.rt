ghost use Rattle.std.specs.Prelude.{◌≡◌, ◌↔◌, MatchResult, IsTrue, IfOk, length, ℤ, List};
ghost use Rattle.ac_forms.specs.NormalForm.{RowsFit, normal_conj};
ghost use Rattle.ac_forms.specs.FormStops.{MadeIff};
ghost use Rattle.ac_forms.specs.Rows.{Meets, CanTest, IsWellMade};

use crate::join::normal_rows;
use crate::row::Row;
use crate::stop::{FormStop, Wide};
use ac_base::Items;
use std::alloc::{AllocError, Global};

/// A conjunction: rows over that many columns that all hold.
///
/// It is well made if each modulus is at least 1 and no form keeps more coefficients than there are columns.
#[derive(Drop, PartialEq, Eq)]
pub struct Conj {
    /// The number of columns.
    pub columns: usize,
    /// The rows.
    pub rows: Items<Row>,
}

impl Conj {
    /// The same conjunction again.
    pub fn copy(&self, alloc: Global) -> Result<Conj, AllocError>
        ensures { IfOk result (λ conj. conj ≡ self.now) }
    {
        let mut rows = Vec::with_capacity(alloc, self.rows.len())?;
        for row in self.rows.as_slice() {
            rows.push(row.copy(alloc)?)?;
        }
        Ok(Conj {
            columns: self.columns,
            rows: Items::from(rows),
        })
    }

    /// Whether the conjunction is well made.
    #[tactic(auto, using(crate::proofs::RowTests::made_steps))]
    pub fn is_well_made(&self) -> bool
        ensures { IsTrue result ↔ IsWellMade self.now }
    {
        for row in self.rows.as_slice() {
            if !row.is_over(self.columns) {
                return false;
            }
        }
        true
    }

    /// Whether all rows hold at a point, which has a number for each column. The rows are tested in order, and the
    /// first that does not hold ends the test; `Wide` exactly where one up to there can't be evaluated in `i128`.
    #[tactic(auto, using(crate::proofs::RowTests::test_steps))]
    pub fn holds_at(&self, point: &[i128]) -> Result<bool, Wide>
        requires columns { length point.now ≡ self.now.columns }
        requires made { IsWellMade self.now }
        ensures { MatchResult result (λ holds. CanTest self.now.rows point.now × (IsTrue holds ↔ Meets self.now.rows point.now)) (λ _. ¬ CanTest self.now.rows point.now) }
    {
        for row in self.rows.as_slice() {
            if !row.holds_at(point)? {
                return Ok(false);
            }
        }
        Ok(true)
    }
    /// The normal form, with the same integer points: each row in normal form, one after the other; then in the order
    /// `Eq`, `Div`, `Ge`, within a kind by modulus, then coefficients, then constant; of `Ge` rows with equal
    /// coefficients the one with the least constant stays, and equal rows stay once. Where a row is absurd, or two `Eq`
    /// rows have equal coefficients and different constants, the normal form is the one row `-1 >= 0`. `Wide` exactly
    /// where the normal form of a row is.
    pub fn normalise(&self, alloc: Global) -> Result<Conj, FormStop>
        requires { IsWellMade self.now }
        ensures exact { MadeIff result (RowsFit self.now.rows) (normal_conj self.now) }
        ensures points { IfOk result (λ conj. (p : List ℤ) → Meets conj.rows p ↔ Meets self.now.rows p) }
    {
        let rows = normal_rows(alloc, self.rows.as_slice())?;
        Ok(Conj {
            columns: self.columns,
            rows: Items::from(rows),
        })
    }
}
