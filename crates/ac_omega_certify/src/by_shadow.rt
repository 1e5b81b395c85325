//! The rows of the dark shadow of a column, on the path (W. Pugh, The Omega test, 1991).
ghost use Rattle.std.specs.Prelude.{◌≡◌, ℕ, ◌+◌, ◌≤◌, List, [], ◌∷◌, ◌++◌, drop, length, true, IfOk};
ghost use Rattle.ac_forms.specs.Rows.{AreRowsOver};
ghost use Rattle.ac_forms.specs.declared.conj.Conj.{Conj};
ghost use Rattle.ac_forms.specs.declared.row.Row.{Row};
ghost use Rattle.ac_omega_steps.specs.Bounds.{highs, lows, low_bound, only_bounds};
ghost use Rattle.ac_omega_steps.specs.ChoiceFits.{choice_fits};
ghost use Rattle.ac_omega_steps.specs.Choices.{left_by};
ghost use Rattle.ac_omega_steps.specs.declared.choose.Choice.TheVariants.{Shadow};
ghost use Rattle.ac_omega_certify.specs.Descents.{AreRowsUpTo2To122, Carries, raised_rows};
ghost use Rattle.ac_omega_certify.specs.Refutations.{AreWithin2To120};
ghost use Rattle.ac_omega_certify.specs.ShadowSteps.{IsMargin, IsBeside, Continues};
ghost use Rattle.ac_omega_certify.specs.ShadowRows.{shown_with, shown_rows, StandFor};
ghost use Rattle.ac_omega_certify.specs.TreePathRows.{StandsAt, Stand};
ghost use Rattle.ac_omega_certify.specs.SplinterCounts.{SufficesAt, Suffice};

use crate::by_equality::free_rows;
use crate::descent::Standing;
use crate::kept::keep;
use crate::margins::{is_high, is_low};
use crate::path::TreePath;
use crate::shown_pair::{Bounded, Lower};
use crate::stage::Stage;
use ac_forms::Row;
use std::alloc::{AllocError, Global};

/// A row that may be a lower one of a column, its place, and its number of splinters.
#[derive(Clone, Copy)]
struct Candidate<'a> {
    row: &'a Row,
    own: usize,
    count: usize,
}

impl TreePath {
    /// The row for the dark shadow of a lower row and a row at a place, if that is an upper one.
    fn show_beside(
        &mut self,
        alloc: Global,
        bounded: &Bounded,
        low: &Lower,
        row: &Row,
        place: usize,
        made: &mut Standing,
    ) -> Result<(), AllocError>
        requires long { length bounded.now.places.now ≡ length bounded.now.rows.now }
        requires margin { IsMargin bounded.now.column bounded.now.rows.now low.now.margin low.now.form.now (row.now ∷ []) }
        ensures rows { IfOk result (λ _. made.new.rows.items ≡ made.old.rows.items ++ shown_with low.now.margin (low_bound bounded.now.column low.now.form.now) (highs bounded.now.column (row.now ∷ []))) }
        ensures long { IfOk result (λ _. length made.old.places.items ≡ length made.old.rows.items → length made.new.places.items ≡ length made.new.rows.items) }
        ensures shows { IfOk result (λ _. Continues self.old self.new made.old made.new (λ names path. IsBeside low.now.form.now low.now.margin low.now.place low.now.own bounded.now.rows.now bounded.now.places.now names path × StandsAt names path place row.now)) }
    {
        let Row::Ge(high) = row else {
            return Ok(());
        };
        if !is_high(bounded.column, high) {
            return Ok(());
        }
        let shown = self.show_pair(alloc, bounded, low, high, place)?;
        keep(made, Row::Ge(shown.form), shown.place)?;
        Ok(())
    }

    /// The rows for the dark shadows of a lower row and each upper row, in order.
    fn show_uppers(
        &mut self,
        alloc: Global,
        bounded: &Bounded,
        low: &Lower,
        made: &mut Standing,
    ) -> Result<(), AllocError>
        requires long { length bounded.now.places.now ≡ length bounded.now.rows.now }
        requires margin { IsMargin bounded.now.column bounded.now.rows.now low.now.margin low.now.form.now bounded.now.rows.now }
        ensures rows { IfOk result (λ _. made.new.rows.items ≡ made.old.rows.items ++ shown_with low.now.margin (low_bound bounded.now.column low.now.form.now) (highs bounded.now.column bounded.now.rows.now)) }
        ensures long { IfOk result (λ _. length made.old.places.items ≡ length made.old.rows.items → length made.new.places.items ≡ length made.new.rows.items) }
        ensures shows { IfOk result (λ _. Continues self.old self.new made.old made.new (λ names path. IsBeside low.now.form.now low.now.margin low.now.place low.now.own bounded.now.rows.now bounded.now.places.now names path)) }
    {
        for i in 0..bounded.rows.len() {
            self.show_beside(
                alloc,
                bounded,
                low,
                &bounded.rows[i],
                bounded.places[i],
                made,
            )?;
        }
        Ok(())
    }

    /// The rows for the dark shadows of a candidate, if it is a lower row, and each upper row, in order. Less its count it
    /// stands at one of the places `raised`, of which so many were used before; gives how many are then.
    fn show_lower(
        &mut self,
        alloc: Global,
        bounded: &Bounded,
        candidate: &Candidate,
        raised: &[usize],
        used: usize,
        made: &mut Standing,
    ) -> Result<usize, AllocError>
        requires long { length bounded.now.places.now ≡ length bounded.now.rows.now }
        requires within_2_to_120 { AreWithin2To120 (candidate.now.row.now ∷ bounded.now.rows.now) [] }
        requires suffices { SufficesAt bounded.now.column bounded.now.rows.now candidate.now.row.now candidate.now.count }
        requires raised { used + length (lows bounded.now.column (candidate.now.row.now ∷ [])) ≤ length raised.now }
        ensures used { IfOk result (λ n. n ≡ used + length (lows bounded.now.column (candidate.now.row.now ∷ []))) }
        ensures rows { IfOk result (λ _. made.new.rows.items ≡ made.old.rows.items ++ shown_rows bounded.now.column bounded.now.rows.now (candidate.now.row.now ∷ []) (candidate.now.count ∷ [])) }
        ensures long { IfOk result (λ _. length made.old.places.items ≡ length made.old.rows.items → length made.new.places.items ≡ length made.new.rows.items) }
        ensures shows { IfOk result (λ _. (rest : List Row) (counts : List ℕ) → Continues self.old self.new made.old made.new (λ names path. Stand names path (raised_rows bounded.now.column (candidate.now.row.now ∷ rest) (candidate.now.count ∷ counts)) (drop used raised.now) × StandsAt names path candidate.now.own candidate.now.row.now × Stand names path bounded.now.rows.now bounded.now.places.now)) }
    {
        let Row::Ge(form) = candidate.row else {
            return Ok(used);
        };
        if !is_low(bounded.column, form) {
            return Ok(used);
        }
        let low = Lower {
            form,
            own: candidate.own,
            margin: candidate.count as i128,
            place: raised[used],
        };
        self.show_uppers(alloc, bounded, &low, made)?;
        Ok(used + 1)
    }

    /// The rows for the dark shadows of each lower row and each upper row, in order.
    fn show_lowers(
        &mut self,
        alloc: Global,
        bounded: &Bounded,
        counts: &[usize],
        raised: &[usize],
        made: &mut Standing,
    ) -> Result<(), AllocError>
        requires long { length bounded.now.places.now ≡ length bounded.now.rows.now }
        requires within_2_to_120 { AreWithin2To120 bounded.now.rows.now [] }
        requires suffices { Suffice bounded.now.column bounded.now.rows.now bounded.now.rows.now counts.now }
        requires raised { length raised.now ≡ length (lows bounded.now.column bounded.now.rows.now) }
        ensures rows { IfOk result (λ _. made.new.rows.items ≡ made.old.rows.items ++ shown_rows bounded.now.column bounded.now.rows.now bounded.now.rows.now counts.now) }
        ensures long { IfOk result (λ _. length made.old.places.items ≡ length made.old.rows.items → length made.new.places.items ≡ length made.new.rows.items) }
        ensures shows { IfOk result (λ _. Continues self.old self.new made.old made.new (λ names path. Stand names path (raised_rows bounded.now.column bounded.now.rows.now counts.now) raised.now × Stand names path bounded.now.rows.now bounded.now.places.now)) }
    {
        let mut used = 0;
        for i in 0..bounded.rows.len() {
            let candidate = Candidate {
                row: &bounded.rows[i],
                own: bounded.places[i],
                count: counts[i],
            };
            used = self.show_lower(alloc, bounded, &candidate, raised, used, made)?;
        }
        Ok(())
    }

    /// The rows without column z, and one for the dark shadow of each of its lower and upper rows, with the same normal form:
    /// each lower row, less its number of splinters, stands at one of the places `raised`, in order. For each upper row that
    /// number is enough, or their pair is exact beside the rows.
    pub(crate) fn show_shadow(
        &mut self,
        alloc: Global,
        stage: &Stage,
        z: usize,
        raised: &[usize],
    ) -> Result<Standing, AllocError>
        requires long { length stage.now.places.now ≡ length stage.now.rows.now }
        requires lows { length raised.now ≡ length (lows z stage.now.rows.now) }
        requires made { AreRowsOver (length stage.now.names.now) stage.now.rows.now }
        requires within_2_to_120 { AreWithin2To120 stage.now.rows.now [] }
        requires bounds { only_bounds z stage.now.rows.now ≡ true }
        requires fits { choice_fits (Shadow z) stage.now.rows.now ≡ true }
        requires suffices { Suffice z stage.now.rows.now stage.now.rows.now stage.now.counts.now }
        ensures long { IfOk result (λ s. length s.places.items ≡ length s.rows.items) }
        ensures rows { IfOk result (λ s. StandFor (length stage.now.names.now) s.rows.items (left_by (Shadow z) stage.now.rows.now)) }
        ensures up_to_2_to_122 { IfOk result (λ s. AreRowsUpTo2To122 s.rows.items) }
        ensures carries { IfOk result (λ s. (start : Conj) → Carries self.old start stage.now.names.now (stage.now.rows.now ++ raised_rows z stage.now.rows.now stage.now.counts.now) (stage.now.places.now ++ raised.now) → Carries self.new start stage.now.names.now s.rows.items s.places.items) }
    {
        let mut made = free_rows(alloc, z, stage.rows, stage.places)?;
        let bounded = Bounded {
            column: z,
            rows: stage.rows,
            places: stage.places,
        };
        self.show_lowers(alloc, &bounded, stage.counts, raised, &mut made)?;
        Ok(made)
    }
}
