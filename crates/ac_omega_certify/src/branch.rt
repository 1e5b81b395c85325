//! Where the rows that a choice leaves stand.
ghost use Rattle.std.specs.Prelude.{◌≡◌, ◌<◌, ◌≤ℤ◌, ◌<ℤ◌, pos, [], ◌∷◌, true, length, slice_get, Some, ◌+◌, ◌++◌, cond, IfOk, IfSome};
ghost use Rattle.ac_forms.specs.Rows.{AreRowsOver};
ghost use Rattle.ac_omega_steps.specs.Bounds.{only_bounds};
ghost use Rattle.ac_omega_steps.specs.ChoiceFits.{choice_fits};
ghost use Rattle.ac_omega_steps.specs.Choices.{is_equality_of, is_lower_row};
ghost use Rattle.ac_omega_steps.specs.declared.choose.Choice.TheVariants.{Drop, Equal, Residue, Shadow, Splinter};
ghost use Rattle.ac_omega_certify.specs.ChoiceBranches.{IsBranch, IsSplinterOf, IsTry, lift_count, place_after, raised_place, raised_places, seen};
ghost use Rattle.ac_omega_certify.specs.Refutations.{AreWithin2To120};
ghost use Rattle.ac_omega_certify.specs.SplinterCounts.{Suffice};

use crate::by_equality::{free_rows, splinter_rows};
use crate::descent::{Base, Standing};
use crate::path::TreePath;
use crate::stage::Stage;
use ac_forms::Row;
use ac_omega_steps::Choice;
use std::alloc::{AllocError, Global};

/// The rows that a choice leaves, behind the steps of a tree path, under names for their columns.
#[derive(Drop)]
pub(crate) struct Branch {
    pub(crate) tree_path: TreePath,
    pub(crate) names: Vec<usize>,
    pub(crate) standing: Standing,
}

/// The branch without a column.
fn drop_branch(alloc: Global, stage: &Stage, z: usize) -> Result<Branch, AllocError>
    requires long { length stage.now.places.now ≡ length stage.now.rows.now }
    requires made { AreRowsOver (length stage.now.names.now) stage.now.rows.now }
    requires within_2_to_120 { AreWithin2To120 stage.now.rows.now [] }
    ensures { IfOk result (IsBranch (seen stage.now) (Drop z)) }
{
    let standing = free_rows(alloc, z, stage.rows, stage.places)?;
    let names = Vec::from_slice(alloc, stage.names)?;
    let tree_path = TreePath::behind(alloc, stage.base);
    Ok(Branch {
        tree_path,
        names,
        standing,
    })
}

/// The branch where an equality replaces a column.
fn equal_branch(alloc: Global, stage: &Stage, z: usize, i: usize) -> Result<Branch, AllocError>
    requires long { length stage.now.places.now ≡ length stage.now.rows.now }
    requires made { AreRowsOver (length stage.now.names.now) stage.now.rows.now }
    requires within_2_to_120 { AreWithin2To120 stage.now.rows.now [] }
    requires equality { is_equality_of z (slice_get stage.now.rows.now i) ≡ true }
    requires fits { choice_fits (Equal z i) stage.now.rows.now ≡ true }
    ensures { IfOk result (IsBranch (seen stage.now) (Equal z i)) }
{
    let mut tree_path = TreePath::behind(alloc, stage.base);
    let standing = tree_path.show_equality(alloc, stage, z, i)?;
    let names = Vec::from_slice(alloc, stage.names)?;
    Ok(Branch {
        tree_path,
        names,
        standing,
    })
}

/// The branch of a residue of a column: that the modulus divides the column less r is the first row behind the path.
fn residue_branch(
    alloc: Global,
    stage: &Stage,
    z: usize,
    m: i128,
    r: i128,
) -> Result<Branch, AllocError>
    requires long { length stage.now.places.now ≡ length stage.now.rows.now }
    requires column { z < length stage.now.names.now }
    requires made { AreRowsOver (length stage.now.names.now) stage.now.rows.now }
    requires within_2_to_120 { AreWithin2To120 stage.now.rows.now (Residue z m r ∷ []) }
    requires modulus { pos 1 ≤ℤ m }
    requires low { pos 0 ≤ℤ r }
    requires high { r <ℤ m }
    requires fits { choice_fits (Residue z m r) stage.now.rows.now ≡ true }
    ensures { IfOk result (IsBranch (seen stage.now) (Residue z m r)) }
{
    let base = stage.base;
    let Some(next) = base.rows.checked_add(1) else {
        return Err(AllocError);
    };
    let mut tree_path = TreePath::behind(alloc, Base { rows: next, ..base });
    let standing = tree_path.show_residue(alloc, stage, z, m, r, base.rows)?;
    let mut names = Vec::from_slice(alloc, stage.names)?;
    names[z] = base.columns;
    Ok(Branch {
        tree_path,
        names,
        standing,
    })
}

/// How many numbers are not 0.
#[tactic(auto, using(crate::proofs::RaisedPlaces::lift_steps))]
fn lift_count(counts: &[usize]) -> usize
    ensures { result ≡ lift_count counts.now }
{
    let mut lifted = 0;
    for count in counts {
        if *count > 0 {
            lifted += 1;
        }
    }
    lifted
}

/// Whether a row bounds a column from below.
#[tactic(auto, using(ac_base::proofs::Bits::again_128))]
fn is_lower_row(z: usize, row: &Row) -> bool
    ensures { result ≡ is_lower_row z (Some row.now) }
{
    match row {
        Row::Ge(form) => form.coef(z) > 0,
        Row::Eq(_) | Row::Div(_, _) => false,
    }
}

/// Where a row with so many splinters stands beyond them: at its own place, if there is none, else at the next one.
#[tactic(auto, using(crate::proofs::RaisedPlaces::place_steps))]
fn raised_place(count: usize, place: usize, next: usize) -> usize
    ensures { result ≡ raised_place count place next }
{
    if count == 0 { place } else { next }
}

/// The next place behind a row with so many splinters.
#[tactic(auto, using(crate::proofs::RaisedPlaces::place_steps))]
fn place_after(count: usize, next: usize) -> Option<usize>
    ensures { IfSome result (λ after. after ≡ place_after count next) }
{
    if count == 0 {
        return Some(next);
    }
    next.checked_add(1)
}

/// Adds the place of a row, if it is a lower one of a column.
fn push_lower(raised: &mut Vec<usize>, z: usize, row: &Row, place: usize) -> Result<(), AllocError>
    ensures { IfOk result (λ _. raised.new.items ≡ raised.old.items ++ cond (is_lower_row z (Some row.now)) (place ∷ []) []) }
{
    if !is_lower_row(z, row) {
        return Ok(());
    }
    raised.push(place)?;
    Ok(())
}

/// The place of each lower row of a column behind its splinters: its own where it has none, else the next one.
#[tactic(auto, using(crate::proofs::RaisedPlaces::raised_step))]
fn raised_places(
    alloc: Global,
    z: usize,
    rows: &[Row],
    counts: &[usize],
    places: &[usize],
    first: usize,
) -> Result<Vec<usize>, AllocError>
    requires long { length places.now ≡ length rows.now }
    requires counts { length counts.now ≡ length rows.now }
    ensures { IfOk result (λ raised. raised.items ≡ raised_places z rows.now counts.now places.now first) }
{
    let mut raised = Vec::new(alloc);
    let mut next = first;
    for i in 0..rows.len() {
        let place = raised_place(counts[i], places[i], next);
        push_lower(&mut raised, z, &rows[i], place)?;
        match place_after(counts[i], next) {
            Some(after) => next = after,
            None => return Err(AllocError),
        }
    }
    Ok(raised)
}

/// The branch of the dark shadow of a column: each lower row that has splinters stands beyond them, behind the path.
fn shadow_branch(alloc: Global, stage: &Stage, z: usize) -> Result<Branch, AllocError>
    requires long { length stage.now.places.now ≡ length stage.now.rows.now }
    requires counts { length stage.now.counts.now ≡ length stage.now.rows.now }
    requires suffices { Suffice z stage.now.rows.now stage.now.rows.now stage.now.counts.now }
    requires made { AreRowsOver (length stage.now.names.now) stage.now.rows.now }
    requires within_2_to_120 { AreWithin2To120 stage.now.rows.now [] }
    requires bounds { only_bounds z stage.now.rows.now ≡ true }
    requires fits { choice_fits (Shadow z) stage.now.rows.now ≡ true }
    ensures { IfOk result (IsBranch (seen stage.now) (Shadow z)) }
{
    let base = stage.base;
    let raised = raised_places(alloc, z, stage.rows, stage.counts, stage.places, base.rows)?;
    let Some(end) = base.rows.checked_add(lift_count(stage.counts)) else {
        return Err(AllocError);
    };
    let mut tree_path = TreePath::behind(alloc, Base { rows: end, ..base });
    let standing = tree_path.show_shadow(alloc, stage, z, raised.as_slice())?;
    let names = Vec::from_slice(alloc, stage.names)?;
    Ok(Branch {
        tree_path,
        names,
        standing,
    })
}

/// The place of the last row of a splinter's path.
fn splinter_place(first: usize, lifted: usize, depth: u32) -> Option<usize>
    ensures { IfSome result (λ place. place ≡ first + lifted + depth + 1) }
{
    let above = first.checked_add(lifted)?;
    let end = above.checked_add(depth as usize)?;
    end.checked_add(1)
}

/// The branch of a splinter of a column: that the row i is worth k is the last row behind the path.
fn splinter_branch(
    alloc: Global,
    stage: &Stage,
    z: usize,
    i: usize,
    k: i128,
) -> Result<Branch, AllocError>
    requires long { length stage.now.places.now ≡ length stage.now.rows.now }
    requires counts { length stage.now.counts.now ≡ length stage.now.rows.now }
    requires made { AreRowsOver (length stage.now.names.now) stage.now.rows.now }
    requires within_2_to_120 { AreWithin2To120 stage.now.rows.now [] }
    requires lower { IsSplinterOf z i k stage.now.rows.now }
    ensures { IfOk result (IsBranch (seen stage.now) (Splinter z i k)) }
{
    let base = stage.base;
    let (before, _after) = stage.counts.split_at(i);
    let Some(place) = splinter_place(base.rows, lift_count(before), stage.depth) else {
        return Err(AllocError);
    };
    let Some(end) = place.checked_add(1) else {
        return Err(AllocError);
    };
    let standing = splinter_rows(alloc, z, i, k, stage.rows, stage.places, place)?;
    let names = Vec::from_slice(alloc, stage.names)?;
    let tree_path = TreePath::behind(alloc, Base { rows: end, ..base });
    Ok(Branch {
        tree_path,
        names,
        standing,
    })
}

/// The branch of a choice for a column.
pub(crate) fn branch_of(alloc: Global, stage: &Stage, choice: &Choice) -> Result<Branch, AllocError>
    requires long { length stage.now.places.now ≡ length stage.now.rows.now }
    requires counts { length stage.now.counts.now ≡ length stage.now.rows.now }
    requires made { AreRowsOver (length stage.now.names.now) stage.now.rows.now }
    requires within_2_to_120 { AreWithin2To120 stage.now.rows.now (choice.now ∷ []) }
    requires tried { IsTry (length stage.now.names.now) stage.now.rows.now stage.now.counts.now choice.now }
    requires fits { choice_fits choice.now stage.now.rows.now ≡ true }
    ensures { IfOk result (IsBranch (seen stage.now) choice.now) }
{
    match choice {
        Choice::Drop(z) => drop_branch(alloc, stage, *z),
        Choice::Equal(z, i) => equal_branch(alloc, stage, *z, *i),
        Choice::Residue(z, m, r) => residue_branch(alloc, stage, *z, *m, *r),
        Choice::Shadow(z) => shadow_branch(alloc, stage, *z),
        Choice::Splinter(z, i, k) => splinter_branch(alloc, stage, *z, *i, *k),
    }
}
