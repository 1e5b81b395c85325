//! The normal form of rows that stand on the path.
ghost use Rattle.std.specs.Prelude.{◌≡◌, ◌≤◌, length, map, true, OnOk, IfOk};
ghost use Rattle.ac_forms.specs.NormalForm.{normal_form};
ghost use Rattle.ac_forms.specs.NormalRows.{normal_row};
ghost use Rattle.ac_forms.specs.Rows.{AreRowsOver};
ghost use Rattle.ac_forms.specs.RangeTests.{rows_fit};
ghost use Rattle.ac_forms.specs.declared.conj.Conj.{Conj};
ghost use Rattle.ac_omega_certify.specs.ChoiceBranches.{HasPlaces};
ghost use Rattle.ac_omega_certify.specs.Descents.{AreRowsUpTo2To122, Carries, Settles};
ghost use Rattle.ac_omega_certify.specs.RowRemainders.{CarriesLefts};

use crate::descent::{Below, Standing};
use crate::left::Left;
use crate::left_search::{absurd_place, clash_places, places_of};
use crate::path::TreePath;
use ac_forms::Row;
use std::alloc::{AllocError, Global};

impl TreePath {
    /// Where the rows of the normal form of rows that stand on the path stand, or where an absurd row does.
    pub(crate) fn show_normal_form(
        &mut self,
        alloc: Global,
        names: &[usize],
        standing: &Standing,
        normal: &[Row],
    ) -> Result<Below, AllocError>
        requires long { length standing.now.places.items ≡ length standing.now.rows.items }
        requires made { AreRowsOver (length names.now) standing.now.rows.items }
        requires fits { rows_fit standing.now.rows.items ≡ true }
        requires up_to_2_to_122 { AreRowsUpTo2To122 standing.now.rows.items }
        requires normal { normal.now ≡ normal_form standing.now.rows.items }
        ensures long { IfOk result (λ b. HasPlaces b normal.now) }
        ensures settles { IfOk result (λ b. (start : Conj) → Carries self.old start names.now standing.now.rows.items standing.now.places.items → Settles self.new start names.now b normal.now) }
    {
        let lefts = self.show_all_left(
            alloc,
            names,
            standing.rows.as_slice(),
            standing.places.as_slice(),
        )?;
        if let Some(place) = absurd_place(lefts.as_slice()) {
            return Ok(Below::Absurd(place));
        }
        if let Some((first, second)) = clash_places(lefts.as_slice()) {
            let place = self.show_clash(alloc, first, second)?;
            return Ok(Below::Absurd(place));
        }
        let places = places_of(alloc, lefts.as_slice(), normal)?;
        Ok(Below::Rows(places))
    }

    /// What is left of each of the rows that stand at these places, and where that stands.
    #[tactic(auto, using(crate::proofs::LeftRows::left_steps))]
    fn show_all_left(
        &mut self,
        alloc: Global,
        names: &[usize],
        rows: &[Row],
        places: &[usize],
    ) -> Result<Vec<Left>, AllocError>
        requires long { length places.now ≡ length rows.now }
        requires made { AreRowsOver (length names.now) rows.now }
        requires fits { rows_fit rows.now ≡ true }
        requires up_to_2_to_122 { AreRowsUpTo2To122 rows.now }
        ensures rows { IfOk result (λ lefts. map (λ left. left.row) lefts.items ≡ map normal_row rows.now) }
        ensures carries { IfOk result (λ lefts. (start : Conj) → Carries self.old start names.now rows.now places.now → CarriesLefts self.new start names.now rows.now places.now lefts.items) }
    {
        let mut lefts = Vec::new(alloc);
        for i in 0..rows.len() {
            let left = self.show_left(alloc, names, places[i], &rows[i])?;
            lefts.push(left)?;
        }
        Ok(lefts)
    }
}
