//! The certificate of a refutation: a tree that follows the elimination (W. Pugh, The Omega test, 1991).
ghost use Rattle.std.specs.Prelude.{◌≡◌, length, true, [], IfOk};
ghost use Rattle.ac_forms.specs.NormalForm.{normal_form};
ghost use Rattle.ac_forms.specs.Rows.{AreRowsOver, IsWellMade};
ghost use Rattle.ac_forms.specs.RangeTests.{rows_fit};
ghost use Rattle.ac_forms.specs.declared.conj.Conj.{Conj};
ghost use Rattle.ac_cert.specs.AcceptedTrees.{Accepts, absurd_refusals};
ghost use Rattle.ac_omega_certify.specs.ChoiceBranches.{EachIsWithin2To120, AreAlternatives, HasPlaces, IsSettled, RefuteAll, AreRefutedBy, conj_on, seen};
ghost use Rattle.ac_omega_certify.specs.Descents.{AreRowsUpTo2To122, Carries, StandOn};
ghost use Rattle.ac_omega_certify.specs.Refutations.{IsRefutationOf, IsWithin2To120, AreWithin2To120, Refutes, conj_of};

use crate::branch::{Branch, branch_of};
use crate::choice_tree::{choice_tree, counts_of};
use crate::descent::{Base, Below};
use crate::question::question_branch;
use crate::refutation::Refutation;
use crate::splinter_tree::depth_of;
use crate::stage::Stage;
use ac_cert::{Absurd, Tree, absurd_tree, behind_steps};
use ac_forms::Conj;
use ac_omega_steps::Choice;
use std::alloc::{AllocError, Global};

/// The tree of a refutation whose conjunction's rows stand at places.
#[cycle(certifies)]
fn certify_at(
    alloc: Global,
    base: Base,
    names: &[usize],
    places: &[usize],
    refutation: &Refutation,
) -> Result<Tree<Absurd>, AllocError>
    requires long { length places.now ≡ length (conj_of refutation.now).rows }
    requires names { length names.now ≡ (conj_of refutation.now).columns }
    requires refutes { Refutes refutation.now }
    requires within_2_to_120 { IsWithin2To120 refutation.now }
    ensures { IfOk result (λ t. (c : Conj) → StandOn base names.now (conj_of refutation.now).rows places.now c → Accepts t absurd_refusals c) }
{
    match refutation {
        Refutation::Absurd(_) => Ok(absurd_tree(alloc, places[0])),
        Refutation::Open {
            conj,
            choices,
            below,
        } => {
            let choices = choices.as_slice();
            let below = below.as_slice();
            let rows = conj.rows.as_slice();
            let counts = counts_of(alloc, choices, conj.rows.len())?;
            let splinters = counts.as_slice();
            let depth = depth_of(choices.len());
            let stage = Stage {
                base,
                names,
                places,
                rows,
                counts: splinters,
                depth,
            };
            let trees = certify_each(alloc, &stage, choices, below)?;
            choice_tree(alloc, &stage, choices, trees)
        }
    }
}

/// The tree of each choice.
#[cycle(certifies)]
fn certify_each(
    alloc: Global,
    stage: &Stage,
    choices: &[Choice],
    below: &[Refutation],
) -> Result<Vec<Tree<Absurd>>, AllocError>
    requires long { length stage.now.places.now ≡ length stage.now.rows.now }
    requires counts { length stage.now.counts.now ≡ length stage.now.rows.now }
    requires made { IsWellMade (conj_on (seen stage.now)) }
    requires within_2_to_120 { AreWithin2To120 stage.now.rows.now choices.now }
    requires tries { AreAlternatives (length stage.now.names.now) stage.now.rows.now stage.now.counts.now choices.now }
    requires refuted { RefuteAll (conj_on (seen stage.now)) choices.now below.now }
    requires below { EachIsWithin2To120 below.now }
    ensures served { IfOk result (λ ts. AreRefutedBy (seen stage.now) choices.now ts.items) }
    ensures each { IfOk result (λ ts. length ts.items ≡ length choices.now) }
{
    let mut trees = Vec::new(alloc);
    for j in 0..below.len() {
        let branch = branch_of(alloc, stage, &choices[j])?;
        let tree = beneath(alloc, branch, &below[j])?;
        trees.push(tree)?;
    }
    Ok(trees)
}

/// The tree of a branch, from a refutation of the normal form of its rows.
#[cycle(certifies)]
fn beneath(alloc: Global, branch: Branch, child: &Refutation) -> Result<Tree<Absurd>, AllocError>
    requires long { length branch.standing.places.items ≡ length branch.standing.rows.items }
    requires names { length branch.names.items ≡ (conj_of child.now).columns }
    requires made { AreRowsOver (length branch.names.items) branch.standing.rows.items }
    requires fits { rows_fit branch.standing.rows.items ≡ true }
    requires up_to_2_to_122 { AreRowsUpTo2To122 branch.standing.rows.items }
    requires normal { (conj_of child.now).rows ≡ normal_form branch.standing.rows.items }
    requires refutes { Refutes child.now }
    requires within_2_to_120 { IsWithin2To120 child.now }
    ensures { IfOk result (λ t. (start : Conj) → Carries branch.tree_path start branch.names.items branch.standing.rows.items branch.standing.places.items → Accepts t absurd_refusals start) }
{
    let Branch {
        mut tree_path,
        names,
        standing,
    } = branch;
    let normal = child.conj().rows.as_slice();
    let below = tree_path.show_normal_form(alloc, &names, &standing, normal)?;
    let tree = certify_below(alloc, tree_path.base(), &names, below, child)?;
    behind_steps(tree_path.steps, tree)
}

/// The tree behind the steps to a normal form.
#[cycle(certifies)]
fn certify_below(
    alloc: Global,
    base: Base,
    names: &[usize],
    below: Below,
    refutation: &Refutation,
) -> Result<Tree<Absurd>, AllocError>
    requires long { HasPlaces below (conj_of refutation.now).rows }
    requires names { length names.now ≡ (conj_of refutation.now).columns }
    requires refutes { Refutes refutation.now }
    requires within_2_to_120 { IsWithin2To120 refutation.now }
    ensures { IfOk result (λ t. (path : Conj) → IsSettled base names.now below (conj_of refutation.now).rows path → Accepts t absurd_refusals path) }
{
    match below {
        Below::Absurd(place) => Ok(absurd_tree(alloc, place)),
        Below::Rows(places) => certify_at(alloc, base, names, &places, refutation),
    }
}

/// The certificate that a question has no integer point, from a refutation of its normal form whose numbers are not large:
/// `check_tree` accepts it.
pub fn certify(
    alloc: Global,
    question: &Conj,
    refutation: &Refutation,
) -> Result<Tree<Absurd>, AllocError>
    requires made { IsWellMade question.now }
    requires refuted { IsRefutationOf question.now refutation.now }
    requires within_2_to_120 { IsWithin2To120 refutation.now }
    requires numbers { AreWithin2To120 question.now.rows [] }
    ensures accepted { IfOk result (λ t. Accepts t absurd_refusals question.now) }
{
    let branch = question_branch(alloc, question)?;
    beneath(alloc, branch, refutation)
}
