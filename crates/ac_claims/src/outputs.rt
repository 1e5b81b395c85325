//! The claims of outputs.
ghost use Rattle.std.specs.Prelude.{◌≡◌, ◌&&◌, IfOk, nat_eq, slice_get};
ghost use Rattle.std.specs.List.{list_any};
ghost use Rattle.ac_forms.specs.Rows.{HaveModuli};
ghost use Rattle.ac_syntax.specs.declared.tree.Position.TheVariants.{Output};
ghost use Rattle.ac_claims_paths.specs.ModelCalls.{pairing};
ghost use Rattle.ac_claims_paths.specs.OptionalRows.{HaveIf};
ghost use Rattle.ac_claims.specs.Domains.{single, of_width, asks_of};
ghost use Rattle.ac_claims.specs.Dues.{RowsHaveModuli};
ghost use Rattle.ac_claims.specs.ProofEnds.{same_position};
ghost use Rattle.ac_claims.specs.ProofFaults.{domain, output_rows, all_stand_among, asks_no_more, output_stands};
ghost use Rattle.ac_claims.specs.ReadyModels.{AreReady};

use crate::domains::{Piece, piece_at, size_at};
use crate::starts::output_rows;
use crate::types::Claim;
use ac_base::Items;
use ac_claims_paths::path::Programs;
use ac_forms::{Row, all_stand};
use ac_poly::types::Model;
use ac_syntax::tree::Position;
use std::alloc::{AllocError, Global};

/// The only piece of a position, if it has one piece.
#[tactic(auto, using(crate::proofs::OutputSteps::single_steps))]
fn single(alloc: Global, model: &Model, position: &Position) -> Result<Option<Piece>, AllocError>
    ensures { IfOk result (λ piece. piece ≡ single (domain model.now position.now)) }
{
    match size_at(alloc, model, position)? {
        Some(size) => {
            if size.pieces != 1 {
                return Ok(None);
            }
            piece_at(alloc, model, position, 0)
        }
        None => Ok(None),
    }
}

/// Whether rows stand among others, where these were made.
fn all_stand_among(
    alloc: Global,
    given: &Option<Items<Row>>,
    wanted: &[Row],
) -> Result<bool, AllocError>
    requires given { HaveIf given.now }
    requires wanted { HaveModuli wanted.now }
    ensures { IfOk result (λ answer. answer ≡ all_stand_among given.now wanted.now) }
{
    match given {
        Some(rows) => all_stand(alloc, rows.as_slice(), wanted),
        None => Ok(false),
    }
}

/// Whether a claim of outputs with these pieces asks no more than equal elements, the context and both pieces.
#[tactic(auto, using(crate::proofs::OutputSteps::given_if))]
fn asks_within(
    alloc: Global,
    programs: &Programs,
    claim: &Claim,
    left: &Piece,
    right: &Piece,
) -> Result<bool, AllocError>
    requires ready { AreReady programs.now }
    requires left { HaveModuli left.now.rows }
    requires right { HaveModuli right.now.rows }
    requires claim { HaveModuli claim.now.rows }
    ensures { IfOk result (λ answer. answer ≡ all_stand_among (output_rows (pairing programs.now) claim.now (of_width left.now.width) (of_width right.now.width) left.now.rows right.now.rows) claim.now.rows) }
{
    let given = output_rows(alloc, programs, claim, left, right)?;
    all_stand_among(alloc, &given, claim.rows.as_slice())
}

/// The same for the only pieces of both positions, if they are there.
#[tactic(auto, using(crate::proofs::OutputSteps::piece_steps))]
fn asks_no_more(alloc: Global, programs: &Programs, claim: &Claim) -> Result<bool, AllocError>
    requires ready { AreReady programs.now }
    requires claim { HaveModuli claim.now.rows }
    ensures { IfOk result (λ answer. answer ≡ asks_of (pairing programs.now) claim.now (single (domain programs.now.left.now claim.now.left)) (single (domain programs.now.right.now claim.now.right))) }
{
    match single(alloc, programs.left, &claim.left)? {
        Some(left) => match single(alloc, programs.right, &claim.right)? {
            Some(right) => asks_within(alloc, programs, claim, &left, &right),
            None => Ok(false),
        },
        None => Ok(false),
    }
}

/// Whether a position is that of an output.
fn is_output(position: &Position, array: usize) -> bool
    ensures { result ≡ same_position position.now (Output array) }
{
    match position {
        Position::Output(output) => *output == array,
        Position::Node { .. } | Position::InitialOutput(_) | Position::InitialNode { .. } => false,
    }
}

/// Whether a claim says of an output of the pair, on both sides, that it is the same.
#[tactic(auto, using(crate::proofs::OutputSteps::other_way))]
fn is_named_by(outputs: &[usize], array: usize, claim: &Claim) -> bool
    ensures { result ≡ (list_any (nat_eq array) outputs.now && (same_position claim.now.left (Output array) && same_position claim.now.right (Output array))) }
{
    outputs.contains(&array) && is_output(&claim.left, array) && is_output(&claim.right, array)
}

/// Whether an array is an output of the pair, and the claim with a number says that it is the same and asks no more than it
/// may.
#[tactic(auto, using(crate::proofs::OutputSteps::stand_steps))]
pub(crate) fn output_stands(
    alloc: Global,
    programs: &Programs,
    outputs: &[usize],
    claims: &[Claim],
    array: usize,
    claim: usize,
) -> Result<bool, AllocError>
    requires ready { AreReady programs.now }
    requires claims { RowsHaveModuli claims.now }
    ensures { IfOk result (λ answer. answer ≡ output_stands (pairing programs.now) outputs.now array (slice_get claims.now claim)) }
{
    if claim >= claims.len() {
        return Ok(false);
    }
    let found = &claims[claim];
    if !is_named_by(outputs, array, found) {
        return Ok(false);
    }
    asks_no_more(alloc, programs, found)
}
