//! The positions of a model: how many coordinates they have, and their pieces.
ghost use Rattle.std.specs.Prelude.{◌≡◌, ℕ, IfOk, cond, option_copied, option_map, option_and_then, slice_get};
ghost use Rattle.ac_poly.specs.Model.{is_input};
ghost use Rattle.ac_claims.specs.ProofFaults.{is_output_array, bounded_rows, some_output, output_domain, node_domain, domain};
ghost use Rattle.ac_claims.specs.Domains.{size_of, stmt_at, piece_by};

use ac_base::Items;
use ac_claims_paths::places::initial_cell;
use ac_forms::{Form, FormStop, Row};
use ac_poly::types::{Model, StmtModel};
use ac_poly::{element_rows, width};
use ac_syntax::tree::{Kind, Position};
use std::alloc::{AllocError, Global};

/// How many coordinates a position has, and how many pieces.
#[derive(Clone, Copy, PartialEq, Eq)]
pub struct Size {
    pub width: usize,
    pub pieces: usize,
}

/// A piece of a position: its rows, over the parameters and so many coordinates.
#[derive(Drop)]
pub struct Piece {
    pub width: usize,
    pub rows: Items<Row>,
}

/// Whether an array is an input.
fn is_input(model: &Model, array: usize) -> bool
    ensures { result ≡ is_input (slice_get model.now.kinds array) }
{
    match model.kinds.get(array) {
        Some(kind) => *kind == Kind::Input,
        None => false,
    }
}

/// The rows of the elements of an output, where they are made in `i128`.
#[tactic(auto, using(crate::proofs::DomainSteps::bound_steps))]
fn bounded_rows(
    alloc: Global,
    params: usize,
    extents: &[Form],
) -> Result<Option<Items<Row>>, AllocError>
    ensures { IfOk result (λ rows. rows ≡ bounded_rows params extents.now) }
{
    match element_rows(alloc, params, extents) {
        Ok(rows) => Ok(Some(rows)),
        Err(FormStop::Wide) => Ok(None),
        Err(FormStop::Memory(want)) => Err(want),
    }
}

/// The extents of an array that is an output: an input with at least one dimension.
fn output_extents<'a>(model: &'a Model, array: usize) -> Option<&'a [Form]>
    ensures { option_map (λ extents. extents.now) result ≡ cond (is_output_array model.now array) (slice_get model.now.extents array) None }
{
    if !is_input(model, array) {
        return None;
    }
    match model.extents.get(array) {
        Some(extents) => {
            if extents.is_empty() {
                return None;
            }
            Some(extents.as_slice())
        }
        None => None,
    }
}

/// The size of an output, if it is there.
fn output_size(alloc: Global, model: &Model, array: usize) -> Result<Option<Size>, AllocError>
    ensures { IfOk result (λ size. size ≡ option_map size_of (output_domain model.now array)) }
{
    let Some(extents) = output_extents(model, array) else {
        return Ok(None);
    };
    match bounded_rows(alloc, model.params, extents)? {
        Some(_) => Ok(Some(Size {
            width: extents.len(),
            pieces: 1,
        })),
        None => Ok(None),
    }
}

/// The assignment that has a node with a number, if there is one.
fn stmt_at(model: &Model, stmt: usize, node: usize) -> Option<&StmtModel>
    ensures { option_copied result ≡ stmt_at model.now stmt node }
{
    match model.stmts.get(stmt) {
        Some(found) => {
            if node < found.nodes.len() {
                Some(found)
            } else {
                None
            }
        }
        None => None,
    }
}

/// The size of a node, if it is there.
fn node_size(model: &Model, stmt: usize, node: usize) -> Option<Size>
    ensures { result ≡ option_map size_of (node_domain model.now stmt node) }
{
    match stmt_at(model, stmt, node) {
        Some(found) => Some(Size {
            width: width(found),
            pieces: found.pieces.len(),
        }),
        None => None,
    }
}

/// The size of a position, if the model has it. An initial position is that of a read or an output.
pub fn size_at(
    alloc: Global,
    model: &Model,
    position: &Position,
) -> Result<Option<Size>, AllocError>
    ensures { IfOk result (λ size. size ≡ option_map size_of (domain model.now position.now)) }
{
    match position {
        Position::Output(array) | Position::InitialOutput(array) => {
            output_size(alloc, model, *array)
        }
        Position::Node { stmt, node } => Ok(node_size(model, *stmt, *node)),
        Position::InitialNode { stmt, node } => match initial_cell(alloc, model, position)? {
            Some(_) => Ok(node_size(model, *stmt, *node)),
            None => Ok(None),
        },
    }
}

/// A copy of rows.
pub(crate) fn copy_rows(alloc: Global, rows: &[Row]) -> Result<Items<Row>, AllocError>
    ensures { IfOk result (λ made. made ≡ rows.now) }
{
    let mut made = Items::new(alloc);
    for row in rows {
        made.push(row.copy(alloc)?)?;
    }
    Ok(made)
}

/// The piece of an output with a number, if it is there.
fn output_piece(
    alloc: Global,
    model: &Model,
    array: usize,
    number: usize,
) -> Result<Option<Piece>, AllocError>
    ensures { IfOk result (λ piece. piece ≡ piece_by number (output_domain model.now array)) }
{
    if number > 0 {
        return Ok(None);
    }
    let Some(extents) = output_extents(model, array) else {
        return Ok(None);
    };
    match bounded_rows(alloc, model.params, extents)? {
        Some(rows) => Ok(Some(Piece {
            width: extents.len(),
            rows,
        })),
        None => Ok(None),
    }
}

/// The piece of a node with a number, if it is there.
fn node_piece(
    alloc: Global,
    model: &Model,
    stmt: usize,
    node: usize,
    number: usize,
) -> Result<Option<Piece>, AllocError>
    ensures { IfOk result (λ piece. piece ≡ piece_by number (node_domain model.now stmt node)) }
{
    let Some(found) = stmt_at(model, stmt, node) else {
        return Ok(None);
    };
    match found.pieces.get(number) {
        Some(rows) => Ok(Some(Piece {
            width: width(found),
            rows: copy_rows(alloc, rows.as_slice())?,
        })),
        None => Ok(None),
    }
}

/// The piece of a position with a number, if it is there.
pub fn piece_at(
    alloc: Global,
    model: &Model,
    position: &Position,
    number: usize,
) -> Result<Option<Piece>, AllocError>
    ensures { IfOk result (λ piece. piece ≡ piece_by number (domain model.now position.now)) }
{
    match position {
        Position::Output(array) | Position::InitialOutput(array) => {
            output_piece(alloc, model, *array, number)
        }
        Position::Node { stmt, node } => node_piece(alloc, model, *stmt, *node, number),
        Position::InitialNode { stmt, node } => match initial_cell(alloc, model, position)? {
            Some(_) => node_piece(alloc, model, *stmt, *node, number),
            None => Ok(None),
        },
    }
}
