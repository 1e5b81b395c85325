//! The tree of all choices for a column, from the tree of each.
ghost use Rattle.std.specs.Prelude.{◌≡◌, ◌<◌, ◌≤◌, ◌+◌, ◌^◌, ℕ, [], ◌∷◌, length, take, pos, IfOk};
ghost use Rattle.ac_forms.specs.Fits.{Fits};
ghost use Rattle.ac_forms.specs.Rows.{AreRowsOver};
ghost use Rattle.ac_forms.specs.declared.conj.Conj.{Conj};
ghost use Rattle.ac_cert.specs.AcceptedTrees.{Accepts, absurd_refusals};
ghost use Rattle.ac_omega_certify.specs.ChoiceBranches.{AreAll, IsOn, IsRaised, AreRefutedBy, ServeLeaves, count_of, counts_from, lift_count, residue_choices, seen};
ghost use Rattle.ac_omega_certify.specs.Refutations.{AreWithin2To120};
ghost use Rattle.ac_omega_certify.specs.SplinterCounts.{Suffice};

use crate::renamed::renamed;
use crate::residues::class_tree;
use crate::splinter_tree::raised_tree;
use crate::stage::Stage;
use ac_cert::{Absurd, Tree};
use ac_forms::Form;
use ac_omega_steps::Choice;
use std::alloc::{AllocError, Global};

/// How many splinters of a row a choice is: one or none.
#[tactic(auto, using(crate::proofs::Counting::place_steps))]
fn count_in(choice: &Choice, i: usize) -> usize
    ensures value { result ≡ count_of i (choice.now ∷ []) }
    ensures few { result ≤ 1 }
{
    match choice {
        Choice::Splinter(_, place, _) => { if *place == i { 1 } else { 0 } }
        Choice::Drop(_) | Choice::Equal(_, _) | Choice::Residue(_, _, _) | Choice::Shadow(_) => 0,
    }
}

/// How many of the choices are splinters of a row.
#[tactic(auto, using(crate::proofs::Counting::count_step))]
fn count_of(choices: &[Choice], i: usize) -> usize
    ensures { result ≡ count_of i choices.now }
{
    let mut count = 0;
    for choice in choices {
        count += count_in(choice, i);
    }
    count
}

/// How many of the choices are splinters of each row.
#[tactic(auto, using(crate::proofs::Counting::counts_step))]
pub(crate) fn counts_of(
    alloc: Global,
    choices: &[Choice],
    rows: usize,
) -> Result<Vec<usize>, AllocError>
    ensures { IfOk result (λ counts. counts.items ≡ counts_from 0 rows choices.now) }
{
    let mut counts = Vec::new(alloc);
    for i in 0..rows {
        counts.push(count_of(choices, i))?;
    }
    Ok(counts)
}

/// The tree of all residues of a column.
fn residues_tree(
    alloc: Global,
    stage: &Stage,
    z: usize,
    m: i128,
    trees: Vec<Tree<Absurd>>,
) -> Result<Tree<Absurd>, AllocError>
    requires column { z < length stage.now.names.now }
    requires fits { Fits m }
    requires each { m ≡ pos (length trees.items) }
    requires some { 1 ≤ length trees.items }
    ensures { IfOk result (λ t. (c : Conj) → AreRefutedBy (seen stage.now) (residue_choices (length trees.items) z m 0) trees.items → IsOn (seen stage.now) c → Accepts t absurd_refusals c) }
{
    let column = Form::column(alloc, stage.names.len(), z)?;
    let form = renamed(alloc, stage.names, stage.base.columns, &column)?;
    Ok(class_tree(alloc, m, form, trees))
}

/// Shows that a number of splinters is one of `usize`.
fn see_count(count: usize)
    ensures { count < 2 ^ 64 }
{
    let _count = count;
}

/// The tree of the rows from row i on, from that of the dark shadow and those of their splinters in turn: each row that has
/// splinters is raised beyond the last of them, at the place `end`, or worth one of the numbers up to it.
fn raised_from(
    alloc: Global,
    stage: &Stage,
    i: usize,
    end: usize,
    shadow: Tree<Absurd>,
    splinters: Vec<Tree<Absurd>>,
) -> Result<Tree<Absurd>, AllocError>
    requires long { length stage.now.places.now ≡ length stage.now.rows.now }
    requires counts { (z : ℕ) × Suffice z stage.now.rows.now stage.now.rows.now stage.now.counts.now }
    requires within_2_to_120 { AreWithin2To120 stage.now.rows.now [] }
    requires deep { length splinters.items ≤ 2 ^ stage.now.depth }
    requires here { i ≤ length stage.now.rows.now }
    requires end { end ≡ stage.now.base.rows + lift_count (take i stage.now.counts.now) }
    requires served { ServeLeaves (seen stage.now) i splinters.items }
    requires shadow { (c d : Conj) → IsOn (seen stage.now) c → IsRaised stage.now.names.now stage.now.rows.now stage.now.counts.now c d → Accepts shadow absurd_refusals d }
    ensures { IfOk result (λ t. (c d : Conj) → IsOn (seen stage.now) c → IsRaised stage.now.names.now (take i stage.now.rows.now) stage.now.counts.now c d → Accepts t absurd_refusals d) }
{
    let rows = stage.rows;
    let counts = stage.counts;
    if i == rows.len() {
        return Ok(shadow);
    }
    let count = counts[i];
    if count == 0 {
        return raised_from(alloc, stage, i + 1, end, shadow, splinters);
    }
    see_count(count);
    let Some(next) = end.checked_add(1) else {
        return Err(AllocError);
    };
    let mut leaves = splinters;
    let later = leaves.split_off(count)?;
    let onward = raised_from(alloc, stage, i + 1, next, shadow, later)?;
    let form = renamed(alloc, stage.names, stage.base.columns, rows[i].form())?;
    let low = stage.places[i];
    raised_tree(alloc, &form, stage.depth, leaves, onward, low, end)
}

/// The tree of all choices for a column.
pub(crate) fn choice_tree(
    alloc: Global,
    stage: &Stage,
    choices: &[Choice],
    trees: Vec<Tree<Absurd>>,
) -> Result<Tree<Absurd>, AllocError>
    requires long { length stage.now.places.now ≡ length stage.now.rows.now }
    requires counts { length stage.now.counts.now ≡ length stage.now.rows.now }
    requires made { AreRowsOver (length stage.now.names.now) stage.now.rows.now }
    requires within_2_to_120 { AreWithin2To120 stage.now.rows.now choices.now }
    requires all { AreAll (length stage.now.names.now) stage.now.rows.now stage.now.counts.now choices.now }
    requires deep { length choices.now ≤ 2 ^ stage.now.depth }
    requires served { AreRefutedBy (seen stage.now) choices.now trees.items }
    requires each { length trees.items ≡ length choices.now }
    ensures { IfOk result (λ t. (c : Conj) → IsOn (seen stage.now) c → Accepts t absurd_refusals c) }
{
    let mut trees = trees;
    match &choices[0] {
        Choice::Drop(_) | Choice::Equal(_, _) | Choice::Splinter(_, _, _) => Ok(trees.remove(0)),
        Choice::Residue(z, m, _) => residues_tree(alloc, stage, *z, *m, trees),
        Choice::Shadow(_) => {
            let shadow = trees.remove(0);
            raised_from(alloc, stage, 0, stage.base.rows, shadow, trees)
        }
    }
}
