//! The check of a whole proof.
ghost use Rattle.std.specs.Prelude.{◌≡◌, [], ◌∷◌, ◌++◌, map, length, IfOk, IfErr, OnOk};
ghost use Rattle.std.specs.List.{AllByRecursion, flat_map};
ghost use Rattle.ac_forms.specs.Rows.{HaveModuli};
ghost use Rattle.ac_syntax.specs.Outputs.{SameOutput};
ghost use Rattle.ac_claims.specs.CheckKnowledge.{IsLine};
ghost use Rattle.ac_claims.specs.Dues.{RowsHaveModuli};
ghost use Rattle.ac_claims.specs.CheckFeed.{Feeds, of_step, of_choice, of_row, of_claim, of_output, of_tree, of_heads, IsFirstFault};
ghost use Rattle.ac_claims.specs.CheckState.{IsSteady};
ghost use Rattle.ac_claims.specs.PlanNodes.{own_items, node_items};
ghost use Rattle.ac_claims.specs.ProofFaults.{proof_fault, IsValidProof};
ghost use Rattle.ac_claims.specs.ProofMachine.{items_of, lines_of, AreSpelledTrees};
ghost use Rattle.ac_claims.specs.Soundness.{ArePaired, AreModels, ClaimsHaveModuli, pairing_of};
ghost use Rattle.ac_claims.specs.declared.item.Item.TheVariants as item;

use crate::copies::{
    left_item, point_item, residue_item, right_item, row_item, split_item, step_item,
};
use crate::item::Item;
use crate::nodes::nodes;
use crate::stepper::Stepper;
use crate::types::{Claim, ClaimTree, Heads, Kill, Plan, PlanNext, Proof, ProofFault};
use ac_cert::types::Step;
use ac_forms::Row;
use ac_omega_steps::Choice;
use ac_poly::types::Model;
use ac_syntax::tree::Pair;
use std::alloc::{AllocError, Global};

/// Feeds an item.
#[tactic(auto, using(crate::proofs::FeedSteps::feed_steps))]
fn feed(stepper: &mut Stepper, item: Item) -> Result<(), AllocError>
    requires steady { IsSteady stepper.old }
    requires item { IsLine item }
    ensures { OnOk result (Feeds (item ∷ []) stepper.old stepper.new) }
{
    stepper.take_item(&item)
}

/// Feeds steps.
#[tactic(auto, using(crate::proofs::FeedSteps::loop_steps))]
fn feed_steps(alloc: Global, stepper: &mut Stepper, steps: &[Step]) -> Result<(), AllocError>
    requires { IsSteady stepper.old }
    ensures { OnOk result (Feeds (flat_map of_step steps.now) stepper.old stepper.new) }
{
    for step in steps {
        feed(stepper, step_item(alloc, step)?)?;
    }
    Ok(())
}

/// Feeds choices.
#[tactic(auto, using(crate::proofs::FeedSteps::loop_steps))]
fn feed_choices(stepper: &mut Stepper, choices: &[Choice]) -> Result<(), AllocError>
    requires { IsSteady stepper.old }
    ensures { OnOk result (Feeds (flat_map of_choice choices.now) stepper.old stepper.new) }
{
    for choice in choices {
        feed(stepper, Item::Choice(*choice))?;
    }
    Ok(())
}

/// Feeds the rows of a claim.
#[tactic(auto, using(crate::proofs::FeedSteps::loop_steps))]
fn feed_rows(alloc: Global, stepper: &mut Stepper, rows: &[Row]) -> Result<(), AllocError>
    requires steady { IsSteady stepper.old }
    requires rows { HaveModuli rows.now }
    ensures { OnOk result (Feeds (flat_map of_row rows.now) stepper.old stepper.new) }
{
    for row in rows {
        feed(stepper, row_item(alloc, row)?)?;
    }
    Ok(())
}

/// Feeds a claim.
#[tactic(auto, using(crate::proofs::FeedSteps::then_steps))]
fn feed_claim(alloc: Global, stepper: &mut Stepper, claim: &Claim) -> Result<(), AllocError>
    requires steady { IsSteady stepper.old }
    requires claim { HaveModuli claim.now.rows }
    ensures { OnOk result (Feeds (of_claim claim.now) stepper.old stepper.new) }
{
    let item = Item::Claim {
        left: claim.left,
        right: claim.right,
        rows: claim.rows.len(),
    };
    feed(stepper, item)?;
    feed_rows(alloc, stepper, claim.rows.as_slice())
}

/// Feeds claims.
#[tactic(auto, using(crate::proofs::FeedSteps::loop_steps))]
fn feed_claims(alloc: Global, stepper: &mut Stepper, claims: &[Claim]) -> Result<(), AllocError>
    requires steady { IsSteady stepper.old }
    requires claims { RowsHaveModuli claims.now }
    ensures { OnOk result (Feeds (flat_map of_claim claims.now) stepper.old stepper.new) }
{
    for claim in claims {
        feed_claim(alloc, stepper, claim)?;
    }
    Ok(())
}

/// Feeds outputs.
#[tactic(auto, using(crate::proofs::FeedSteps::loop_steps))]
fn feed_outputs(stepper: &mut Stepper, outputs: &[(usize, usize)]) -> Result<(), AllocError>
    requires { IsSteady stepper.old }
    ensures { OnOk result (Feeds (flat_map of_output outputs.now) stepper.old stepper.new) }
{
    for output in outputs {
        let item = Item::Output {
            array: output.0,
            claim: output.1,
        };
        feed(stepper, item)?;
    }
    Ok(())
}

/// Feeds a copy that kills a place.
#[tactic(auto, using(crate::proofs::FeedSteps::then_steps))]
fn feed_kill(stepper: &mut Stepper, kill: &Kill) -> Result<(), AllocError>
    requires { IsSteady stepper.old }
    ensures { OnOk result (Feeds (item.Killed kill.now.stmt kill.now.piece kill.now.after kill.now.before (length kill.now.choices) ∷ flat_map of_choice kill.now.choices) stepper.old stepper.new) }
{
    let item = Item::Killed {
        stmt: kill.stmt,
        piece: kill.piece,
        after: kill.after,
        before: kill.before,
        choices: kill.choices.len(),
    };
    feed(stepper, item)?;
    feed_choices(stepper, kill.choices.as_slice())
}

/// Feeds a branch without its plans, or an end.
fn feed_next(alloc: Global, stepper: &mut Stepper, next: &PlanNext) -> Result<(), AllocError>
    requires { IsSteady stepper.old }
    ensures { OnOk result (Feeds (own_items next.now) stepper.old stepper.new) }
{
    match next {
        PlanNext::Split(form, ..) => {
            feed(stepper, split_item(alloc, form)?)?;
            Ok(())
        }
        PlanNext::Residue(modulus, form, _) => {
            feed(stepper, residue_item(alloc, modulus, form)?)?;
            Ok(())
        }
        PlanNext::Go { order, cases } => {
            let item = Item::Go {
                order: *order,
                cases: cases.len(),
            };
            feed(stepper, item)?;
            Ok(())
        }
        PlanNext::Absurd(row) => feed(stepper, Item::Absurd(*row)),
        PlanNext::Killed(kill) => {
            feed_kill(stepper, kill)?;
            Ok(())
        }
        PlanNext::Hit(claim) => feed(stepper, Item::Hit(*claim)),
        PlanNext::SameNumber => feed(stepper, Item::Number),
        PlanNext::SameInitial => feed(stepper, Item::Initial),
    }
}

/// Feeds a node of a plan.
#[tactic(auto, using(crate::proofs::FeedSteps::then_steps))]
fn feed_node(alloc: Global, stepper: &mut Stepper, node: &Plan) -> Result<(), AllocError>
    requires { IsSteady stepper.old }
    ensures { OnOk result (Feeds (node_items node.now) stepper.old stepper.new) }
{
    feed_steps(alloc, stepper, node.steps.as_slice())?;
    feed_next(alloc, stepper, &node.next)
}

/// Feeds nodes.
#[tactic(auto, using(crate::proofs::FeedSteps::loop_steps))]
fn feed_nodes(alloc: Global, stepper: &mut Stepper, nodes: &[&Plan]) -> Result<(), AllocError>
    requires { IsSteady stepper.old }
    ensures { OnOk result (Feeds (flat_map (λ node. node_items node.now) nodes.now) stepper.old stepper.new) }
{
    for node in nodes {
        feed_node(alloc, stepper, *node)?;
    }
    Ok(())
}

/// Feeds a plan.
fn feed_plan(alloc: Global, stepper: &mut Stepper, plan: &Plan) -> Result<(), AllocError>
    requires { IsSteady stepper.old }
    ensures { OnOk result (Feeds (items_of plan.now) stepper.old stepper.new) }
{
    let all = nodes(alloc, plan)?;
    feed_nodes(alloc, stepper, all.as_slice())?;
    Ok(())
}

/// Feeds the plan of a claim.
#[tactic(auto, using(crate::proofs::FeedSteps::then_steps))]
fn feed_tree(alloc: Global, stepper: &mut Stepper, tree: &ClaimTree) -> Result<(), AllocError>
    requires { IsSteady stepper.old }
    ensures { OnOk result (Feeds (of_tree tree.now) stepper.old stepper.new) }
{
    let item = Item::Tree {
        claim: tree.claim,
        left_piece: tree.left_piece,
        right_piece: tree.right_piece,
    };
    feed(stepper, item)?;
    feed_plan(alloc, stepper, &tree.tree)
}

/// Feeds the plans of claims.
#[tactic(auto, using(crate::proofs::FeedSteps::loop_steps))]
fn feed_trees(alloc: Global, stepper: &mut Stepper, trees: &[ClaimTree]) -> Result<(), AllocError>
    requires { IsSteady stepper.old }
    ensures { OnOk result (Feeds (flat_map of_tree trees.now) stepper.old stepper.new) }
{
    for tree in trees {
        feed_tree(alloc, stepper, tree)?;
    }
    Ok(())
}

/// Feeds the shapes of programs, where they are stated.
#[tactic(auto, using(crate::proofs::FeedSteps::then_steps))]
fn feed_heads(alloc: Global, stepper: &mut Stepper, heads: &Option<Heads>) -> Result<(), AllocError>
    requires { IsSteady stepper.old }
    ensures { OnOk result (Feeds (of_heads heads.now) stepper.old stepper.new) }
{
    match heads {
        Some(heads) => {
            feed(stepper, left_item(alloc, heads.left.as_slice())?)?;
            feed(stepper, right_item(alloc, heads.right.as_slice())?)
        }
        None => Ok(()),
    }
}

/// Feeds the point and the shapes of programs.
#[tactic(auto, using(crate::proofs::FeedSteps::then_steps))]
fn feed_head(alloc: Global, stepper: &mut Stepper, proof: &Proof) -> Result<(), AllocError>
    requires { IsSteady stepper.old }
    ensures { OnOk result (Feeds (item.Point proof.now.point ∷ of_heads proof.now.heads) stepper.old stepper.new) }
{
    feed(stepper, point_item(alloc, proof.point.as_slice())?)?;
    feed_heads(alloc, stepper, &proof.heads)
}

/// Feeds the claims with their number.
#[tactic(auto, using(crate::proofs::FeedSteps::then_steps))]
fn feed_all_claims(alloc: Global, stepper: &mut Stepper, claims: &[Claim]) -> Result<(), AllocError>
    requires steady { IsSteady stepper.old }
    requires claims { RowsHaveModuli claims.now }
    ensures { OnOk result (Feeds (item.Claims (length claims.now) ∷ flat_map of_claim claims.now) stepper.old stepper.new) }
{
    feed(stepper, Item::Claims(claims.len()))?;
    feed_claims(alloc, stepper, claims)
}

/// Feeds the plans, and the end.
#[tactic(auto, using(crate::proofs::FeedSteps::then_steps))]
fn feed_all_trees(
    alloc: Global,
    stepper: &mut Stepper,
    trees: &[ClaimTree],
) -> Result<(), AllocError>
    requires { IsSteady stepper.old }
    ensures { OnOk result (Feeds (flat_map of_tree trees.now ++ item.End ∷ []) stepper.old stepper.new) }
{
    feed_trees(alloc, stepper, trees)?;
    feed(stepper, Item::End)
}

/// Feeds the lines of a proof.
fn feed_proof(alloc: Global, stepper: &mut Stepper, proof: &Proof) -> Result<(), AllocError>
    requires steady { IsSteady stepper.old }
    requires claims { RowsHaveModuli proof.now.claims }
    ensures { OnOk result (Feeds (lines_of proof.now) stepper.old stepper.new) }
{
    feed_head(alloc, stepper, proof)?;
    feed_all_claims(alloc, stepper, proof.claims.as_slice())?;
    feed_outputs(stepper, proof.outputs.as_slice())?;
    feed_all_trees(alloc, stepper, proof.trees.as_slice())?;
    Ok(())
}

/// Checks a proof that outputs of a pair are the same. It answers them exactly where no line of the proof fails; else
/// `Refused` names the first line that fails, as its text would have it, and the rule by which it does.
///
/// Each output that is answered is the same in both programs: for each valuation of the parameters that meets the context, at
/// each element, for all contents of the arrays that agree on the inputs, and whatever the symbols stand for, as long as
/// the commutative ones commute. The models are those of the pair's programs under its context, and the proof is spelled:
/// a residue branch has as many children as its number says, and the modulus of a claim's row is at least 1.
pub fn check_proof(
    alloc: Global,
    pair: &Pair,
    left: &Model,
    right: &Model,
    proof: &Proof,
) -> Result<Vec<usize>, ProofFault>
    requires pair { ArePaired pair.now }
    requires models { AreModels pair.now left.now right.now }
    requires spelled { AreSpelledTrees proof.now.trees.items }
    requires claims { ClaimsHaveModuli proof.now }
    ensures valid { IfOk result (λ _. IsValidProof (pairing_of pair.now left.now right.now) pair.now.outputs proof.now) }
    ensures outputs { IfOk result (λ outputs. outputs.items ≡ map (λ o. o.0) proof.now.outputs) }
    ensures fault { IfErr result (IsFirstFault (proof_fault (pairing_of pair.now left.now right.now) pair.now.outputs proof.now)) }
    ensures same { IfOk result (λ outputs. AllByRecursion (SameOutput pair.now) outputs.items) }
{
    let mut stepper = Stepper::new(alloc, pair, left, right);
    feed_proof(alloc, &mut stepper, proof)?;
    match stepper.finish() {
        Ok(outputs) => Ok(outputs),
        Err(fault) => Err(fault),
    }
}
