//! The text of a proof.
ghost use Rattle.std.specs.Prelude.{◌≡◌, ◌∷◌, ◌++◌, [], length, IfOk, OnOk, is_some};
ghost use Rattle.std.specs.List.{flat_map};
ghost use Rattle.ac_claims.specs.CheckFeed.{of_row, of_claim, of_output, of_tree, of_heads};
ghost use Rattle.ac_claims.specs.ProofMachine.{lines_of};
ghost use Rattle.ac_claims.specs.declared.item.Item.TheVariants as item;
ghost use Rattle.ac_prooftext.specs.ProofTexts.{IsSpelledProof, IsSpelling, deepest, ended, format_line, proof_text};
ghost use Rattle.ac_prooftext.specs.Writing.{Adds};

use crate::plan_text::{write_line, write_plan};
use ac_claims::item::Item;
use ac_claims::types::{Claim, ClaimTree, Heads, Proof};
use ac_forms::Row;
use ac_prooftext_lines::{push_left, push_point, push_right, push_row};
use std::alloc::{AllocError, Global};

#[tactic(auto, using(crate::proofs::WriteSteps::line_steps))]
fn write_row(text: &mut Vec<u8>, row: &Row) -> Result<(), AllocError>
    ensures { OnOk result (Adds (of_row row.now) text.old text.new) }
{
    push_row(text, row)?;
    text.push(b'\n')?;
    Ok(())
}

#[tactic(auto, using(crate::proofs::WriteSteps::loop_steps))]
fn write_rows(text: &mut Vec<u8>, rows: &[Row]) -> Result<(), AllocError>
    ensures { OnOk result (Adds (flat_map of_row rows.now) text.old text.new) }
{
    for row in rows {
        write_row(text, row)?;
    }
    Ok(())
}

#[tactic(auto, using(crate::proofs::WriteSteps::then_steps))]
fn write_claim(text: &mut Vec<u8>, claim: &Claim) -> Result<(), AllocError>
    ensures { OnOk result (Adds (of_claim claim.now) text.old text.new) }
{
    let item = Item::Claim {
        left: claim.left,
        right: claim.right,
        rows: claim.rows.len(),
    };
    write_line(text, &item)?;
    write_rows(text, claim.rows.as_slice())
}

#[tactic(auto, using(crate::proofs::WriteSteps::loop_steps))]
fn write_claims(text: &mut Vec<u8>, claims: &[Claim]) -> Result<(), AllocError>
    ensures { OnOk result (Adds (flat_map of_claim claims.now) text.old text.new) }
{
    for claim in claims {
        write_claim(text, claim)?;
    }
    Ok(())
}

#[tactic(auto, using(crate::proofs::WriteSteps::loop_steps))]
fn write_outputs(text: &mut Vec<u8>, outputs: &[(usize, usize)]) -> Result<(), AllocError>
    ensures { OnOk result (Adds (flat_map of_output outputs.now) text.old text.new) }
{
    for output in outputs {
        let item = Item::Output {
            array: output.0,
            claim: output.1,
        };
        write_line(text, &item)?;
    }
    Ok(())
}

#[tactic(auto, using(crate::proofs::WriteSteps::then_steps))]
fn write_tree(alloc: Global, text: &mut Vec<u8>, tree: &ClaimTree) -> Result<(), AllocError>
    ensures { OnOk result (Adds (of_tree tree.now) text.old text.new) }
{
    let item = Item::Tree {
        claim: tree.claim,
        left_piece: tree.left_piece,
        right_piece: tree.right_piece,
    };
    write_line(text, &item)?;
    write_plan(alloc, text, &tree.tree)
}

#[tactic(auto, using(crate::proofs::WriteSteps::loop_steps))]
fn write_trees(alloc: Global, text: &mut Vec<u8>, trees: &[ClaimTree]) -> Result<(), AllocError>
    ensures { OnOk result (Adds (flat_map of_tree trees.now) text.old text.new) }
{
    for tree in trees {
        write_tree(alloc, text, tree)?;
    }
    Ok(())
}

#[tactic(auto, using(crate::proofs::WriteSteps::line_steps))]
fn write_left(text: &mut Vec<u8>, shapes: &[(u64, u64)]) -> Result<(), AllocError>
    ensures { OnOk result (Adds (item.Left shapes.now ∷ []) text.old text.new) }
{
    push_left(text, shapes)?;
    text.push(b'\n')?;
    Ok(())
}

#[tactic(auto, using(crate::proofs::WriteSteps::line_steps))]
fn write_right(text: &mut Vec<u8>, shapes: &[(u64, u64)]) -> Result<(), AllocError>
    ensures { OnOk result (Adds (item.Right shapes.now ∷ []) text.old text.new) }
{
    push_right(text, shapes)?;
    text.push(b'\n')?;
    Ok(())
}

/// Adds the shapes of programs, where they are stated.
#[tactic(auto, using(crate::proofs::WriteSteps::then_steps))]
fn write_heads(text: &mut Vec<u8>, heads: &Option<Heads>) -> Result<(), AllocError>
    ensures { OnOk result (Adds (of_heads heads.now) text.old text.new) }
{
    match heads {
        Some(heads) => {
            write_left(text, heads.left.as_slice())?;
            write_right(text, heads.right.as_slice())
        }
        None => Ok(()),
    }
}

#[tactic(auto, using(crate::proofs::WriteSteps::line_steps))]
fn write_point(text: &mut Vec<u8>, point: &[i128]) -> Result<(), AllocError>
    ensures { OnOk result (Adds (item.Point point.now ∷ []) text.old text.new) }
{
    push_point(text, point)?;
    text.push(b'\n')?;
    Ok(())
}

/// Adds the point and the shapes of programs.
#[tactic(auto, using(crate::proofs::WriteSteps::then_steps))]
fn write_head(text: &mut Vec<u8>, proof: &Proof) -> Result<(), AllocError>
    ensures { OnOk result (Adds (item.Point proof.now.point ∷ of_heads proof.now.heads) text.old text.new) }
{
    write_point(text, proof.point.as_slice())?;
    write_heads(text, &proof.heads)
}

/// Adds the claims behind their number.
#[tactic(auto, using(crate::proofs::WriteSteps::then_steps))]
fn write_all_claims(text: &mut Vec<u8>, claims: &[Claim]) -> Result<(), AllocError>
    ensures { OnOk result (Adds (item.Claims (length claims.now) ∷ flat_map of_claim claims.now) text.old text.new) }
{
    write_line(text, &Item::Claims(claims.len()))?;
    write_claims(text, claims)
}

/// Adds the plans, and the end.
#[tactic(auto, using(crate::proofs::WriteSteps::then_steps))]
fn write_all_trees(alloc: Global, text: &mut Vec<u8>, trees: &[ClaimTree]) -> Result<(), AllocError>
    ensures { OnOk result (Adds (flat_map of_tree trees.now ++ item.End ∷ []) text.old text.new) }
{
    write_trees(alloc, text, trees)?;
    write_line(text, &Item::End)
}

/// Adds the lines of a proof behind the first.
fn write_items(alloc: Global, text: &mut Vec<u8>, proof: &Proof) -> Result<(), AllocError>
    ensures { OnOk result (Adds (lines_of proof.now) text.old text.new) }
{
    write_head(text, proof)?;
    write_all_claims(text, proof.claims.as_slice())?;
    write_outputs(text, proof.outputs.as_slice())?;
    write_all_trees(alloc, text, proof.trees.as_slice())?;
    Ok(())
}

/// The first line: the format.
fn write_format(text: &mut Vec<u8>, heads: &Option<Heads>) -> Result<(), AllocError>
    ensures { OnOk result (text.new.items ≡ text.old.items ++ ended (format_line (is_some heads.now))) }
{
    match heads {
        Some(_) => text.extend_from_slice(b"affine-proof 2\n"),
        None => text.extend_from_slice(b"affine-proof 1\n"),
    }
}

/// The text of a proof: the line of its format, and behind it a line for each of its items, each with an LF at its end. It is
/// a spelling where the proof is spelled (`IsSpelledProof`): its numbers fit their types, an `Add` has a row, no form ends in
/// a 0, each modulus is at least 1, a residue branch has as many children as its modulus says, and the arrays of its outputs
/// rise.
///
/// It takes time and room in the length of the text. The stack that it takes does not grow with the depth of the plans.
pub fn write_proof(alloc: Global, proof: &Proof) -> Result<Vec<u8>, AllocError>
    ensures text { IfOk result (λ text. text.items ≡ proof_text proof.now) }
    ensures spelling { IfOk result (λ text. IsSpelledProof proof.now → IsSpelling text.items (deepest (is_some proof.now.heads) (lines_of proof.now))) }
{
    let mut text = Vec::new(alloc);
    write_format(&mut text, &proof.heads)?;
    write_items(alloc, &mut text, proof)?;
    Ok(text)
}
