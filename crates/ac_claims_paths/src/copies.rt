//! The rows of a copy: an assignment that writes a cell again between the source that is assumed for a read and the read.
ghost use Rattle.std.specs.Prelude.{◌≡◌, ℕ, ◌+◌, ◌++◌, IfOk, Option, Some, None, List, slice_get, option_and_then, cond, nat_eq};
ghost use Rattle.ac_forms.specs.Renaming.{rows_renaming};
ghost use Rattle.ac_forms.specs.Rows.{IsWellMade};
ghost use Rattle.ac_poly.specs.declared.types.StmtModel.{StmtModel};
ghost use Rattle.ac_claims_paths.specs.ModelCalls.{pairing};
ghost use Rattle.ac_claims_paths.specs.PathColumns.{appended, base, columns_of};
ghost use Rattle.ac_claims_paths.specs.InstanceCoordinates.{levels_before};
ghost use Rattle.ac_claims_paths.specs.WellFormedPaths.{HasModuli};
ghost use Rattle.ac_claims_paths.specs.PathSteps.{model_of, case_rows, root};
ghost use Rattle.ac_claims_paths.specs.CopyKills.{assignment_at, after_rows, copy_rows, seat_from, source_from, with_own_columns, normal_of, copy_by, copy_of};
ghost use Rattle.ac_claims_paths.specs.OptionalRows.{IsMadeIf};
ghost use Rattle.ac_claims_paths.specs.ModelPositions.{levels_to};

use crate::going::{Case, appended, case_rows, moved_at_both, root};
use crate::killing::case_width;
use crate::path::{Assumed, CopyNumbers, Programs, Seat, Side};
use crate::places::{CellForms, cell_read, levels_to};
use ac_base::Items;
use ac_forms::{Conj, FormStop, Row, column_after};
use ac_poly::types::{Model, StmtModel};
use ac_syntax::tree::Position;
use std::alloc::{AllocError, Global};

/// The assignment of a root.
fn assignment_at(seat: &Seat) -> usize
    ensures { result ≡ assignment_at seat.now }
{
    match seat.position {
        Position::Node { stmt, node: _ } => stmt,
        Position::InitialNode { stmt, node: _ } => stmt,
        Position::Output(_) => 0,
        Position::InitialOutput(_) => 0,
    }
}

/// The model of a side.
fn model_of<'a>(programs: &Programs<'a>, side: Side) -> &'a Model
    ensures { result.now ≡ model_of (pairing programs.now) side }
{
    match side {
        Side::Left => programs.left,
        Side::Right => programs.right,
    }
}

/// The levels by which an instance of an assignment stands before one of another, behind so many parameters.
#[tactic(auto, using(std::proofs::lemmas::Option::slice_get_within))]
fn levels_between(
    alloc: Global,
    params: usize,
    m: &Model,
    s: usize,
    first: &StmtModel,
    u: usize,
    second: &StmtModel,
) -> Result<Items<Items<Row>>, AllocError>
    requires first { slice_get m.now.stmts s ≡ Some first.now }
    requires second { slice_get m.now.stmts u ≡ Some second.now }
    ensures { IfOk result (λ levels. levels ≡ levels_before params s first.now u second.now) }
{
    let behind = column_after(params, ac_poly::width(first))?;
    ac_poly::before_at(alloc, m, s, params, u, behind)
}

/// The rows of a level, over the columns of an assumed source and of a copy.
fn level_rows(
    alloc: Global,
    params: usize,
    source: &Seat,
    copy: &Seat,
    levels: &[Items<Row>],
    level: usize,
) -> Result<Option<Items<Row>>, AllocError>
    ensures { IfOk result (λ made. made ≡ option_and_then (λ rows. rows_renaming (base params ++ (columns_of source.now ++ columns_of copy.now)) rows) (slice_get levels.now level)) }
{
    match levels.get(level) {
        Some(rows) => moved_at_both(alloc, params, source, copy, rows.as_slice()),
        None => Ok(None),
    }
}

/// A copy of an assignment that writes the cell of an assumed reader again, with all that its rows are made of.
#[derive(Clone, Copy)]
struct CopyCase<'a> {
    programs: Programs<'a>,
    /// The model of the side of the reader.
    model: &'a Model,
    assumed: Assumed,
    /// The cell that is read.
    cell: &'a CellForms,
    numbers: CopyNumbers,
    /// The root of the copy.
    seat: Seat,
    stmt: &'a StmtModel,
}

/// The rows by which a copy stands after an assumed source by a level.
fn level_after(
    alloc: Global,
    copy: &CopyCase,
    source: &Seat,
    level: usize,
) -> Result<Option<Items<Row>>, AllocError>
    requires { slice_get copy.now.model.now.stmts copy.now.numbers.stmt ≡ Some copy.now.stmt.now }
    ensures { IfOk result (λ made. made ≡ option_and_then (λ (from : StmtModel). option_and_then (λ rows. rows_renaming (base copy.now.programs.left.now.params ++ (columns_of source.now ++ columns_of copy.now.seat)) rows) (slice_get (levels_before copy.now.programs.left.now.params (assignment_at source.now) from copy.now.numbers.stmt copy.now.stmt.now) level)) (slice_get copy.now.model.now.stmts (assignment_at source.now))) }
{
    let params = copy.programs.left.params;
    let s = assignment_at(source);
    match copy.model.stmts.as_slice().get(s) {
        Some(from) => {
            let u = copy.numbers.stmt;
            let levels = levels_between(alloc, params, copy.model, s, from, u, copy.stmt)?;
            level_rows(alloc, params, source, &copy.seat, levels.as_slice(), level)
        }
        None => Ok(None),
    }
}

/// The rows by which a copy stands after the assumed source: by the level with its number; no rows, and no level, where the
/// initial contents are assumed. None where there is no such level, or a number leaves `i128`.
fn after_rows(alloc: Global, copy: &CopyCase) -> Result<Option<Items<Row>>, AllocError>
    requires { slice_get copy.now.model.now.stmts copy.now.numbers.stmt ≡ Some copy.now.stmt.now }
    ensures { IfOk result (λ made. made ≡ after_rows (pairing copy.now.programs) copy.now.model.now copy.now.assumed.source copy.now.numbers.after copy.now.numbers.stmt copy.now.seat copy.now.stmt.now) }
{
    match &copy.assumed.source {
        None => match copy.numbers.after {
            None => Ok(Some(Items::new(alloc))),
            Some(_) => Ok(None),
        },
        Some(source) => match copy.numbers.after {
            None => Ok(None),
            Some(level) => level_after(alloc, copy, source, level),
        },
    }
}

/// The rows of a copy in a piece of its assignment, before its reader by a level and after the assumed source.
fn rows_at_level(
    alloc: Global,
    copy: &CopyCase,
    piece: &[Row],
    level: &[Row],
) -> Result<Option<Items<Row>>, AllocError>
    requires { slice_get copy.now.model.now.stmts copy.now.numbers.stmt ≡ Some copy.now.stmt.now }
    ensures { IfOk result (λ made. made ≡ appended (case_rows copy.now.programs.left.now.params copy.now.assumed.reader copy.now.cell.now copy.now.seat copy.now.stmt.now piece.now level.now) (after_rows (pairing copy.now.programs) copy.now.model.now copy.now.assumed.source copy.now.numbers.after copy.now.numbers.stmt copy.now.seat copy.now.stmt.now)) }
{
    let case = Case {
        params: copy.programs.left.params,
        reader: copy.assumed.reader,
        cell: copy.cell,
        writer: copy.seat,
        stmt: copy.stmt,
    };
    let before = case_rows(alloc, &case, piece, level)?;
    let later = after_rows(alloc, copy)?;
    appended(before, later)
}

/// The rows of a copy in a piece of its assignment.
#[tactic(auto, using(std::proofs::lemmas::Option::slice_get_within))]
fn rows_in_piece(
    alloc: Global,
    copy: &CopyCase,
    piece: &[Row],
) -> Result<Option<Items<Row>>, AllocError>
    requires { slice_get copy.now.model.now.stmts copy.now.numbers.stmt ≡ Some copy.now.stmt.now }
    ensures { IfOk result (λ made. made ≡ option_and_then (λ level. appended (case_rows copy.now.programs.left.now.params copy.now.assumed.reader copy.now.cell.now copy.now.seat copy.now.stmt.now piece.now level) (after_rows (pairing copy.now.programs) copy.now.model.now copy.now.assumed.source copy.now.numbers.after copy.now.numbers.stmt copy.now.seat copy.now.stmt.now)) (slice_get (levels_to copy.now.model.now copy.now.numbers.stmt copy.now.stmt.now copy.now.assumed.reader.position) copy.now.numbers.before)) }
{
    let reader = &copy.assumed.reader.position;
    let levels = levels_to(alloc, copy.model, copy.numbers.stmt, reader)?;
    match levels.get(copy.numbers.before) {
        Some(level) => rows_at_level(alloc, copy, piece, level.as_slice()),
        None => Ok(None),
    }
}

/// The rows of a copy whose assignment writes the cell.
fn rows_of_writer(alloc: Global, copy: &CopyCase) -> Result<Option<Items<Row>>, AllocError>
    requires { slice_get copy.now.model.now.stmts copy.now.numbers.stmt ≡ Some copy.now.stmt.now }
    ensures { IfOk result (λ made. made ≡ cond (nat_eq copy.now.stmt.now.array copy.now.cell.now.array) (option_and_then (λ piece. option_and_then (λ level. appended (case_rows copy.now.programs.left.now.params copy.now.assumed.reader copy.now.cell.now copy.now.seat copy.now.stmt.now piece level) (after_rows (pairing copy.now.programs) copy.now.model.now copy.now.assumed.source copy.now.numbers.after copy.now.numbers.stmt copy.now.seat copy.now.stmt.now)) (slice_get (levels_to copy.now.model.now copy.now.numbers.stmt copy.now.stmt.now copy.now.assumed.reader.position) copy.now.numbers.before)) (slice_get copy.now.stmt.now.pieces copy.now.numbers.piece)) None) }
{
    if copy.stmt.array != copy.cell.array {
        return Ok(None);
    }
    match copy.stmt.pieces.get(copy.numbers.piece) {
        Some(piece) => rows_in_piece(alloc, copy, piece.as_slice()),
        None => Ok(None),
    }
}

/// The rows of a copy whose coordinates stand in the columns from `columns` on: it lies in its piece, writes the cell that is
/// read, stands before the reader by its level and after the assumed source by its level. None where one of these is not
/// there, or a number leaves `i128`.
pub fn copy_rows(
    alloc: Global,
    programs: &Programs,
    assumed: &Assumed,
    columns: usize,
    numbers: &CopyNumbers,
    stmt: &StmtModel,
) -> Result<Option<Items<Row>>, AllocError>
    requires { slice_get (model_of (pairing programs.now) assumed.now.side).stmts numbers.now.stmt ≡ Some stmt.now }
    ensures { IfOk result (λ made. made ≡ copy_rows (pairing programs.now) assumed.now columns numbers.now.stmt numbers.now.piece numbers.now.after numbers.now.before stmt.now) }
{
    let model = model_of(programs, assumed.side);
    let seat = root(columns, numbers.stmt, stmt);
    match cell_read(alloc, model, &assumed.reader.position)? {
        Some(cell) => {
            let copy = CopyCase {
                programs: *programs,
                model,
                assumed: *assumed,
                cell: &cell,
                numbers: *numbers,
                seat,
                stmt,
            };
            rows_of_writer(alloc, &copy)
        }
        None => Ok(None),
    }
}

/// A seat with its coordinates in the columns from one on.
fn seat_from(first: usize, seat: &Seat) -> Seat
    ensures { result ≡ seat_from first seat.now }
{
    Seat {
        position: seat.position,
        first,
        width: seat.width,
    }
}

/// The same of an assumed source.
fn source_from(first: usize, source: &Option<Seat>) -> Option<Seat>
    ensures { result ≡ source_from first source.now }
{
    match source {
        Some(seat) => Some(seat_from(first, seat)),
        None => None,
    }
}

/// What was assumed, over a case's own columns: the parameters, the coordinates of the reader and those of the source.
fn with_own_columns(params: usize, assumed: &Assumed) -> Result<Assumed, AllocError>
    ensures { IfOk result (λ own. own ≡ with_own_columns params assumed.now) }
{
    let behind = column_after(params, assumed.reader.width)?;
    Ok(Assumed {
        side: assumed.side,
        reader: seat_from(params, &assumed.reader),
        source: source_from(behind, &assumed.source),
    })
}

/// Rows in normal form, where it is made in `i128`.
#[tactic(auto, using(crate::proofs::CopySteps::normal_steps))]
fn normal_of(alloc: Global, conj: &Conj) -> Result<Option<Conj>, AllocError>
    requires { IsWellMade conj.now }
    ensures { IfOk result (λ normal. normal ≡ normal_of conj.now.columns conj.now.rows) }
{
    match conj.normalise(alloc) {
        Ok(normal) => Ok(Some(normal)),
        Err(FormStop::Wide) => Ok(None),
        Err(FormStop::Memory(want)) => Err(want),
    }
}

/// The copy of an assignment.
fn copy_by(
    alloc: Global,
    programs: &Programs,
    assumed: &Assumed,
    numbers: &CopyNumbers,
    stmt: &StmtModel,
) -> Result<Option<Conj>, AllocError>
    requires stmt { slice_get (model_of (pairing programs.now) assumed.now.side).stmts numbers.now.stmt ≡ Some stmt.now }
    requires moduli { HasModuli (model_of (pairing programs.now) assumed.now.side) }
    ensures { IfOk result (λ copy. copy ≡ copy_by (pairing programs.now) assumed.now numbers.now.stmt numbers.now.piece numbers.now.after numbers.now.before stmt.now) }
{
    let params = programs.left.params;
    let own = with_own_columns(params, assumed)?;
    let first = case_width(params, assumed)?;
    let columns = column_after(first, ac_poly::width(stmt))?;
    match copy_rows(alloc, programs, &own, first, numbers, stmt)? {
        Some(rows) => normal_of(alloc, &Conj { columns, rows }),
        None => Ok(None),
    }
}

/// The rows of a copy in normal form, over the columns of the case that was assumed (the parameters, then the coordinates of
/// the reader and those of the source) and then those of the copy's coordinates. None where there is no such copy, or a
/// number leaves `i128`.
pub fn copy_of(
    alloc: Global,
    programs: &Programs,
    assumed: &Assumed,
    numbers: &CopyNumbers,
) -> Result<Option<Conj>, AllocError>
    requires { HasModuli (model_of (pairing programs.now) assumed.now.side) }
    ensures value { IfOk result (λ copy. copy ≡ copy_of (pairing programs.now) assumed.now numbers.now.stmt numbers.now.piece numbers.now.after numbers.now.before) }
    ensures made { IfOk result (λ copy. IsMadeIf copy) }
{
    copy_at(alloc, programs, assumed, numbers)
}

/// The same copy.
fn copy_at(
    alloc: Global,
    programs: &Programs,
    assumed: &Assumed,
    numbers: &CopyNumbers,
) -> Result<Option<Conj>, AllocError>
    requires { HasModuli (model_of (pairing programs.now) assumed.now.side) }
    ensures { IfOk result (λ copy. copy ≡ copy_of (pairing programs.now) assumed.now numbers.now.stmt numbers.now.piece numbers.now.after numbers.now.before) }
{
    let m = model_of(programs, assumed.side);
    match m.stmts.as_slice().get(numbers.stmt) {
        Some(stmt) => copy_by(alloc, programs, assumed, numbers, stmt),
        None => Ok(None),
    }
}
