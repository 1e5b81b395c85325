//! Where the plan of a claim starts, and what the claim of an output asks.
ghost use Rattle.std.specs.Prelude.{◌≡◌, ◌+◌, ◌++◌, IfOk, option_map, List};
ghost use Rattle.ac_forms.specs.declared.row.Row.{Row};
ghost use Rattle.ac_claims_paths.specs.ModelCalls.{pairing};
ghost use Rattle.ac_claims_paths.specs.PathColumns.{columns_of, equal_forms};
ghost use Rattle.ac_claims_paths.specs.ModelPositions.{element_forms};
ghost use Rattle.ac_claims.specs.Domains.{of_width, piece_by};
ghost use Rattle.ac_claims.specs.ProofFaults.{domain, left_seat, right_seat, start_columns, piece_rows, start, output_rows};
ghost use Rattle.ac_claims.specs.RemainingPlans.{start_beside, start_at};

use crate::domains::{Piece, copy_rows, piece_at};
use crate::types::Claim;
use ac_base::Items;
use ac_claims_paths::columns::{columns_at, equal_forms};
use ac_claims_paths::going::{appended, join, moved_at};
use ac_claims_paths::path::{Path, Programs, Seat};
use ac_forms::{Conj, Row, column_after};
use ac_poly::coordinate_forms;
use std::alloc::{AllocError, Global};

/// The left position of a claim, with its columns.
fn left_seat(programs: &Programs, claim: &Claim, width: usize) -> Seat
    ensures { result ≡ left_seat (pairing programs.now) claim.now (of_width width) }
{
    Seat {
        position: claim.left,
        first: programs.left.params,
        width,
    }
}

/// The right position of a claim, with its columns behind those of the left one.
fn right_seat(
    programs: &Programs,
    claim: &Claim,
    left: usize,
    width: usize,
) -> Result<Seat, AllocError>
    ensures { IfOk result (λ seat. seat ≡ right_seat (pairing programs.now) claim.now (of_width left) (of_width width)) }
{
    Ok(Seat {
        position: claim.right,
        first: column_after(programs.left.params, left)?,
        width,
    })
}

/// How many columns a claim's rows have: the parameters and the coordinates of both positions.
pub fn start_columns(programs: &Programs, left: usize, right: usize) -> Result<usize, AllocError>
    ensures { IfOk result (λ columns. columns ≡ start_columns (pairing programs.now) (of_width left) (of_width right)) }
{
    column_after(programs.left.params, column_after(left, right)?)
}

/// The rows of a piece of each position, over the columns of both.
fn piece_rows(
    alloc: Global,
    programs: &Programs,
    claim: &Claim,
    left: &Piece,
    right: &Piece,
) -> Result<Option<Items<Row>>, AllocError>
    ensures { IfOk result (λ made. made ≡ piece_rows (pairing programs.now) claim.now (of_width left.now.width) (of_width right.now.width) left.now.rows right.now.rows) }
{
    let params = programs.left.params;
    let first = left_seat(programs, claim, left.width);
    let second = right_seat(programs, claim, left.width, right.width)?;
    let rows = moved_at(alloc, params, &first, left.rows.as_slice())?;
    let others = moved_at(alloc, params, &second, right.rows.as_slice())?;
    appended(rows, others)
}

/// The rows of the context in front of others, where these were made.
fn with_context(
    alloc: Global,
    programs: &Programs,
    made: Option<Items<Row>>,
) -> Result<Option<Items<Row>>, AllocError>
    ensures { IfOk result (λ rows. rows ≡ option_map (λ rows. programs.now.left.now.context ++ rows) made) }
{
    match made {
        Some(rows) => {
            let context = copy_rows(alloc, programs.left.context.as_slice())?;
            Ok(Some(join(context, rows)?))
        }
        None => Ok(None),
    }
}

/// Where the plan of a claim starts, for a piece of each of its positions: the rows of the claim, those of the context and of both pieces, over the parameters and the coordinates of the left and then of the right
/// position. None where a number leaves `i128`.
fn start(
    alloc: Global,
    programs: &Programs,
    claim: &Claim,
    left: &Piece,
    right: &Piece,
) -> Result<Option<Path>, AllocError>
    ensures { IfOk result (λ path. path ≡ start (pairing programs.now) claim.now (of_width left.now.width) (of_width right.now.width) left.now.rows right.now.rows) }
{
    let pieces = piece_rows(alloc, programs, claim, left, right)?;
    match with_context(alloc, programs, pieces)? {
        Some(rows) => {
            let own = copy_rows(alloc, claim.rows.as_slice())?;
            let conj = Conj {
                columns: start_columns(programs, left.width, right.width)?,
                rows: join(own, rows)?,
            };
            Ok(Some(Path {
                conj,
                left: left_seat(programs, claim, left.width),
                right: right_seat(programs, claim, left.width, right.width)?,
                gone: false,
                last: None,
            }))
        }
        None => Ok(None),
    }
}

/// The same, for the piece of the right position with a number, if it is there.
fn start_beside(
    alloc: Global,
    programs: &Programs,
    claim: &Claim,
    left: &Piece,
    right_piece: usize,
) -> Result<Option<Path>, AllocError>
    ensures { IfOk result (λ path. path ≡ start_beside (pairing programs.now) claim.now left.now (piece_by right_piece (domain programs.now.right.now claim.now.right))) }
{
    match piece_at(alloc, programs.right, &claim.right, right_piece)? {
        Some(right) => start(alloc, programs, claim, left, &right),
        None => Ok(None),
    }
}

/// Where the plan of a claim starts, for the pieces of its positions with these numbers: the rows of the claim, the context
/// and the rows of both pieces, over the parameters, the coordinates of the left position and those of the right one. None
/// where there is no such piece, or a number leaves `i128`.
pub fn start_at(
    alloc: Global,
    programs: &Programs,
    claim: &Claim,
    left_piece: usize,
    right_piece: usize,
) -> Result<Option<Path>, AllocError>
    ensures { IfOk result (λ path. path ≡ start_at (pairing programs.now) claim.now left_piece right_piece) }
{
    match piece_at(alloc, programs.left, &claim.left, left_piece)? {
        Some(left) => start_beside(alloc, programs, claim, &left, right_piece),
        None => Ok(None),
    }
}

/// The equalities of the coordinates of two outputs.
fn equal_elements(
    alloc: Global,
    programs: &Programs,
    claim: &Claim,
    left: usize,
    right: usize,
) -> Result<Option<Items<Row>>, AllocError>
    ensures { IfOk result (λ rows. rows ≡ equal_forms (columns_of (left_seat (pairing programs.now) claim.now (of_width left))) (element_forms 0 left) (columns_of (right_seat (pairing programs.now) claim.now (of_width left) (of_width right))) (element_forms 0 right)) }
{
    let first = left_seat(programs, claim, left);
    let second = right_seat(programs, claim, left, right)?;
    let columns = columns_at(alloc, 0, &first)?;
    let others = columns_at(alloc, 0, &second)?;
    let forms = coordinate_forms(alloc, 0, left)?;
    let other_forms = coordinate_forms(alloc, 0, right)?;
    equal_forms(
        alloc,
        columns.as_slice(),
        forms.as_slice(),
        others.as_slice(),
        other_forms.as_slice(),
    )
}

/// What the claim of an output may ask: equal elements, the context and the rows of both pieces. None where a number leaves
/// `i128`.
pub(crate) fn output_rows(
    alloc: Global,
    programs: &Programs,
    claim: &Claim,
    left: &Piece,
    right: &Piece,
) -> Result<Option<Items<Row>>, AllocError>
    ensures { IfOk result (λ rows. rows ≡ output_rows (pairing programs.now) claim.now (of_width left.now.width) (of_width right.now.width) left.now.rows right.now.rows) }
{
    let equal = equal_elements(alloc, programs, claim, left.width, right.width)?;
    let pieces = piece_rows(alloc, programs, claim, left, right)?;
    let others = with_context(alloc, programs, pieces)?;
    appended(equal, others)
}
