//! The lines of plans, added to a text.
ghost use Rattle.std.specs.Prelude.{◌≡◌, ◌∷◌, [], length, OnOk};
ghost use Rattle.std.specs.List.{flat_map};
ghost use Rattle.ac_claims.specs.CheckFeed.{of_step, of_choice};
ghost use Rattle.ac_claims.specs.PlanNodes.{own_items, node_items};
ghost use Rattle.ac_claims.specs.ProofMachine.{items_of};
ghost use Rattle.ac_claims.specs.declared.item.Item.TheVariants as item;
ghost use Rattle.ac_prooftext.specs.Writing.{Adds};

use ac_cert::types::Step;
use ac_claims::item::Item;
use ac_claims::nodes::nodes;
use ac_claims::types::{Kill, Plan, PlanNext};
use ac_forms::Form;
use ac_omega_steps::Choice;
use ac_prooftext_lines::{push_choice, push_item, push_residue, push_split, push_step};
use std::alloc::{AllocError, Global};

/// Adds the line of an item.
#[tactic(auto, using(crate::proofs::WriteSteps::line_steps))]
pub fn write_line(text: &mut Vec<u8>, item: &Item) -> Result<(), AllocError>
    ensures { OnOk result (Adds (item.now ∷ []) text.old text.new) }
{
    push_item(text, item)?;
    text.push(b'\n')?;
    Ok(())
}

#[tactic(auto, using(crate::proofs::WriteSteps::line_steps))]
fn write_step(text: &mut Vec<u8>, step: &Step) -> Result<(), AllocError>
    ensures { OnOk result (Adds (of_step step.now) text.old text.new) }
{
    push_step(text, step)?;
    text.push(b'\n')?;
    Ok(())
}

#[tactic(auto, using(crate::proofs::WriteSteps::loop_steps))]
fn write_steps(text: &mut Vec<u8>, steps: &[Step]) -> Result<(), AllocError>
    ensures { OnOk result (Adds (flat_map of_step steps.now) text.old text.new) }
{
    for step in steps {
        write_step(text, step)?;
    }
    Ok(())
}

#[tactic(auto, using(crate::proofs::WriteSteps::line_steps))]
fn write_choice(text: &mut Vec<u8>, choice: &Choice) -> Result<(), AllocError>
    ensures { OnOk result (Adds (of_choice choice.now) text.old text.new) }
{
    push_choice(text, choice)?;
    text.push(b'\n')?;
    Ok(())
}

#[tactic(auto, using(crate::proofs::WriteSteps::loop_steps))]
fn write_choices(text: &mut Vec<u8>, choices: &[Choice]) -> Result<(), AllocError>
    ensures { OnOk result (Adds (flat_map of_choice choices.now) text.old text.new) }
{
    for choice in choices {
        write_choice(text, choice)?;
    }
    Ok(())
}

/// Adds the lines of a copy that kills a place.
#[tactic(auto, using(crate::proofs::WriteSteps::then_steps))]
fn write_kill(text: &mut Vec<u8>, kill: &Kill) -> Result<(), AllocError>
    ensures { OnOk result (Adds (item.Killed kill.now.stmt kill.now.piece kill.now.after kill.now.before (length kill.now.choices) ∷ flat_map of_choice kill.now.choices) text.old text.new) }
{
    let item = Item::Killed {
        stmt: kill.stmt,
        piece: kill.piece,
        after: kill.after,
        before: kill.before,
        choices: kill.choices.len(),
    };
    write_line(text, &item)?;
    write_choices(text, kill.choices.as_slice())
}

/// Adds the line of a branch by the sign of a form.
#[tactic(auto, using(crate::proofs::WriteSteps::line_steps))]
fn write_split(text: &mut Vec<u8>, form: &Form) -> Result<(), AllocError>
    ensures { OnOk result (Adds (item.Split form.now ∷ []) text.old text.new) }
{
    push_split(text, form)?;
    text.push(b'\n')?;
    Ok(())
}

/// Adds the line of a branch by the residue of a form.
#[tactic(auto, using(crate::proofs::WriteSteps::line_steps))]
fn write_residue(text: &mut Vec<u8>, modulus: &i128, form: &Form) -> Result<(), AllocError>
    ensures { OnOk result (Adds (item.Residue modulus.now form.now ∷ []) text.old text.new) }
{
    push_residue(text, modulus, form)?;
    text.push(b'\n')?;
    Ok(())
}

/// Adds the line of a branch, without those of its plans, or the lines of an end.
fn write_next(text: &mut Vec<u8>, next: &PlanNext) -> Result<(), AllocError>
    ensures { OnOk result (Adds (own_items next.now) text.old text.new) }
{
    match next {
        PlanNext::Split(form, ..) => write_split(text, form),
        PlanNext::Residue(modulus, form, _) => write_residue(text, modulus, form),
        PlanNext::Go { order, cases } => {
            let item = Item::Go {
                order: *order,
                cases: cases.len(),
            };
            write_line(text, &item)
        }
        PlanNext::Absurd(row) => write_line(text, &Item::Absurd(*row)),
        PlanNext::Killed(kill) => write_kill(text, kill),
        PlanNext::Hit(claim) => write_line(text, &Item::Hit(*claim)),
        PlanNext::SameNumber => write_line(text, &Item::Number),
        PlanNext::SameInitial => write_line(text, &Item::Initial),
    }
}

/// Adds the lines of a node of a plan, without those of the plans behind it.
#[tactic(auto, using(crate::proofs::WriteSteps::then_steps))]
fn write_node(text: &mut Vec<u8>, node: &Plan) -> Result<(), AllocError>
    ensures { OnOk result (Adds (node_items node.now) text.old text.new) }
{
    write_steps(text, node.steps.as_slice())?;
    write_next(text, &node.next)
}

#[tactic(auto, using(crate::proofs::WriteSteps::loop_steps))]
fn write_nodes(text: &mut Vec<u8>, nodes: &[&Plan]) -> Result<(), AllocError>
    ensures { OnOk result (Adds (flat_map (λ node. node_items node.now) nodes.now) text.old text.new) }
{
    for node in nodes {
        write_node(text, *node)?;
    }
    Ok(())
}

/// Adds the lines of a plan.
pub fn write_plan(alloc: Global, text: &mut Vec<u8>, plan: &Plan) -> Result<(), AllocError>
    ensures { OnOk result (Adds (items_of plan.now) text.old text.new) }
{
    let all = nodes(alloc, plan)?;
    write_nodes(text, all.as_slice())?;
    Ok(())
}
