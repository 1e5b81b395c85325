//! The steps of a pair of positions.
ghost use Rattle.std.specs.Prelude.{◌≡◌, ℕ, ◌+◌, ◌<◌, ◌++◌, [], ◌∷◌, map, IfOk, Option, Some, None, List, slice_get, length, option_map};
ghost use Rattle.std.specs.List.{flat_map};
ghost use Rattle.ac_poly.specs.declared.types.StmtModel.{StmtModel};
ghost use Rattle.ac_claims_paths.specs.InstanceCoordinates.{width};
ghost use Rattle.ac_forms.specs.Renaming.{rows_renaming};
ghost use Rattle.ac_claims_paths.specs.PathColumns.{base, columns_of, equal_forms, appended};
ghost use Rattle.ac_claims_paths.specs.PathSteps.{seat_of, gone_to, root, case_rows, case_path, cases_of, cases_from, initial_path, read_branches, extended, cases_at, by_keep, branches};
ghost use Rattle.ac_claims_paths.specs.BranchPaths.{onto, all_onto};
ghost use Rattle.ac_claims_paths.specs.ModelCalls.{pairing};
ghost use Rattle.ac_claims_paths.specs.ModelPositions.{initial_of};
ghost use Rattle.ac_claims_paths.specs.ListExtension.{Adds};
ghost use Rattle.ac_claims_paths.specs.WellFormedPaths.{HasModuli, IsFormed, AreFormedIf};

use crate::calls::steps_of_calls;
use crate::columns::{columns_at, columns_of_both, forms_equal, rows_moved};
use crate::path::{Assumed, Branch, Path, Programs, Seat, Side};
use crate::places::{CellForms, cell_read, levels_to};
use ac_base::Items;
use ac_forms::{Conj, Row, column_after};
use ac_poly::types::{Model, StmtModel};
use ac_poly::width;
use ac_syntax::tree::{Order, Position};
use std::alloc::{AllocError, Global};

/// The seat of a side.
fn seat_of(path: &Path, side: Side) -> Seat
    ensures { result ≡ seat_of path.now side }
{
    match side {
        Side::Left => path.left,
        Side::Right => path.right,
    }
}

/// One list of rows behind the other.
pub fn join(first: Items<Row>, second: Items<Row>) -> Result<Items<Row>, AllocError>
    ensures { IfOk result (λ made. made ≡ first ++ second) }
{
    let mut rows = first.into_vec();
    let mut more = second.into_vec();
    rows.append(&mut more)?;
    Ok(Items::from(rows))
}

/// Both lists, one behind the other, where both were made.
pub fn appended(
    first: Option<Items<Row>>,
    second: Option<Items<Row>>,
) -> Result<Option<Items<Row>>, AllocError>
    ensures { IfOk result (λ made. made ≡ appended first second) }
{
    match first {
        None => Ok(None),
        Some(first) => match second {
            None => Ok(None),
            Some(second) => Ok(Some(join(first, second)?)),
        },
    }
}

/// Rows over the parameters and the coordinates of a position.
pub fn moved_at(
    alloc: Global,
    params: usize,
    seat: &Seat,
    rows: &[Row],
) -> Result<Option<Items<Row>>, AllocError>
    ensures { IfOk result (λ made. made ≡ rows_renaming (base params ++ columns_of seat.now) rows.now) }
{
    let columns = columns_at(alloc, params, seat)?;
    rows_moved(alloc, columns.as_slice(), rows)
}

/// Rows over the parameters and the coordinates of two positions.
pub(crate) fn moved_at_both(
    alloc: Global,
    params: usize,
    first: &Seat,
    second: &Seat,
    rows: &[Row],
) -> Result<Option<Items<Row>>, AllocError>
    ensures { IfOk result (λ made. made ≡ rows_renaming (base params ++ (columns_of first.now ++ columns_of second.now)) rows.now) }
{
    let columns = columns_of_both(alloc, params, first, second)?;
    rows_moved(alloc, columns.as_slice(), rows)
}

/// A reader of a cell beside an assignment that writes it, each with the columns of its coordinates: a case of a step, or a copy.
#[derive(Clone, Copy)]
pub(crate) struct Case<'a> {
    pub params: usize,
    pub reader: Seat,
    pub cell: &'a CellForms,
    /// The root of the assignment.
    pub writer: Seat,
    pub stmt: &'a StmtModel,
}

/// The rows of a case: the writer lies in a piece of its assignment, writes the cell, and stands before the reader by a
/// level.
pub(crate) fn case_rows(
    alloc: Global,
    case: &Case,
    piece: &[Row],
    level: &[Row],
) -> Result<Option<Items<Row>>, AllocError>
    ensures { IfOk result (λ rows. rows ≡ case_rows case.now.params case.now.reader case.now.cell.now case.now.writer case.now.stmt.now piece.now level.now) }
{
    let pieces = moved_at(alloc, case.params, &case.writer, piece)?;
    let cells = forms_equal(
        alloc,
        case.params,
        &case.reader,
        case.cell.subs.as_slice(),
        &case.writer,
        case.stmt.subs.as_slice(),
    )?;
    let levels = moved_at_both(alloc, case.params, &case.writer, &case.reader, level)?;
    appended(pieces, appended(cells, levels)?)
}

/// The root of an assignment, with its coordinates in the columns from one on.
pub(crate) fn root(first: usize, u: usize, stmt: &StmtModel) -> Seat
    ensures { result ≡ root first u stmt.now }
{
    Seat {
        position: Position::Node { stmt: u, node: 0 },
        first,
        width: width(stmt),
    }
}

/// What is added by a step of one position.
fn gone_to(
    path: &Path,
    side: Side,
    columns: usize,
    rows: Items<Row>,
    seat: Seat,
    last: Option<Assumed>,
) -> Branch
    ensures { onto path.now result ≡ gone_to path.now side (extended path.now.conj columns rows) seat last }
{
    match side {
        Side::Left => Branch {
            columns,
            rows,
            left: seat,
            right: path.right,
            last,
        },
        Side::Right => Branch {
            columns,
            rows,
            left: path.left,
            right: seat,
            last,
        },
    }
}

/// The step of a read or an output of a path, which is the same for all of its cases.
#[derive(Clone, Copy)]
struct ReadStep<'a> {
    params: usize,
    /// The model of the side.
    model: &'a Model,
    path: &'a Path,
    side: Side,
    /// The cell that is read.
    cell: &'a CellForms,
}

/// What is added by a case whose source is an instance of the assignment `u`.
fn case_branch(
    alloc: Global,
    step: &ReadStep,
    u: usize,
    stmt: &StmtModel,
    piece: &[Row],
    level: &[Row],
) -> Result<Option<Branch>, AllocError>
    ensures { IfOk result (λ made. option_map (onto step.now.path.now) made ≡ case_path step.now.params step.now.path.now step.now.side step.now.cell.now u stmt.now piece.now level.now) }
{
    let source = root(step.path.conj.columns, u, stmt);
    let reader = seat_of(step.path, step.side);
    let case = Case {
        params: step.params,
        reader,
        cell: step.cell,
        writer: source,
        stmt,
    };
    let Some(rows) = case_rows(alloc, &case, piece, level)? else {
        return Ok(None);
    };
    let last = Assumed {
        side: step.side,
        reader,
        source: Some(source),
    };
    Ok(Some(gone_to(step.path, step.side, source.width, rows, source, Some(last))))
}

/// Adds the cases of a piece, one for each level.
#[tactic(auto, using(crate::proofs::AddSteps::level_steps))]
fn add_levels(
    alloc: Global,
    step: &ReadStep,
    u: usize,
    stmt: &StmtModel,
    piece: &[Row],
    levels: &[Items<Row>],
    out: &mut Items<Branch>,
) -> Result<bool, AllocError>
    ensures { Adds (map (case_path step.now.params step.now.path.now step.now.side step.now.cell.now u stmt.now piece.now) levels.now) (map (onto step.now.path.now) out.old) (map (onto step.now.path.now) out.new) result }
{
    for level in levels {
        match case_branch(alloc, step, u, stmt, piece, level.as_slice())? {
            Some(branch) => out.push(branch)?,
            None => return Ok(false),
        }
    }
    Ok(true)
}

/// Adds the cases of an assignment, one for each piece and level.
#[tactic(auto, using(crate::proofs::AddSteps::piece_steps))]
fn add_pieces(
    alloc: Global,
    step: &ReadStep,
    u: usize,
    stmt: &StmtModel,
    levels: &[Items<Row>],
    out: &mut Items<Branch>,
) -> Result<bool, AllocError>
    ensures { Adds (flat_map (λ piece. map (case_path step.now.params step.now.path.now step.now.side step.now.cell.now u stmt.now piece) levels.now) stmt.now.pieces) (map (onto step.now.path.now) out.old) (map (onto step.now.path.now) out.new) result }
{
    for piece in stmt.pieces.as_slice() {
        if !add_levels(alloc, step, u, stmt, piece.as_slice(), levels, out)? {
            return Ok(false);
        }
    }
    Ok(true)
}

/// The cases of an assignment, if it writes the array.
#[tactic(auto, using(crate::proofs::StmtSteps::one_steps))]
fn add_stmt(
    alloc: Global,
    step: &ReadStep,
    u: usize,
    stmt: &StmtModel,
    out: &mut Items<Branch>,
) -> Result<bool, AllocError>
    requires place { u < length step.now.model.now.stmts }
    requires stmt { slice_get step.now.model.now.stmts u ≡ Some stmt.now }
    ensures { Adds (cases_at step.now.params step.now.model.now step.now.path.now step.now.side step.now.cell.now u stmt.now) (map (onto step.now.path.now) out.old) (map (onto step.now.path.now) out.new) result }
{
    if stmt.array != step.cell.array {
        return Ok(true);
    }
    let reader = seat_of(step.path, step.side);
    let levels = levels_to(alloc, step.model, u, &reader.position)?;
    add_pieces(alloc, step, u, stmt, levels.as_slice(), out)
}

/// The cases of all assignments.
fn add_cases(alloc: Global, step: &ReadStep, out: &mut Items<Branch>) -> Result<bool, AllocError>
    ensures { Adds (cases_from step.now.params step.now.model.now step.now.path.now step.now.side step.now.cell.now 0 step.now.model.now.stmts) (map (onto step.now.path.now) out.old) (map (onto step.now.path.now) out.new) result }
{
    let stmts = step.model.stmts.as_slice();
    for u in 0..stmts.len() {
        if !add_stmt(alloc, step, u, &stmts[u], out)? {
            return Ok(false);
        }
    }
    Ok(true)
}

/// What is added by the initial contents.
fn initial_branch(alloc: Global, path: &Path, side: Side) -> Branch
    ensures { onto path.now result ≡ initial_path path.now side }
{
    let reader = seat_of(path, side);
    let position = initial_of(&reader.position);
    let seat = Seat {
        position,
        first: reader.first,
        width: reader.width,
    };
    let last = Assumed {
        side,
        reader,
        source: None,
    };
    gone_to(path, side, 0, Items::new(alloc), seat, Some(last))
}

/// The position of the initial contents of what is read.
fn initial_of(position: &Position) -> Position
    ensures { result ≡ initial_of position.now }
{
    match position {
        Position::Output(o) => Position::InitialOutput(*o),
        Position::Node { stmt, node } => Position::InitialNode {
            stmt: *stmt,
            node: *node,
        },
        Position::InitialOutput(o) => Position::InitialOutput(*o),
        Position::InitialNode { stmt, node } => Position::InitialNode {
            stmt: *stmt,
            node: *node,
        },
    }
}

/// The cases of a read or an output: one for each source, then the initial contents.
#[tactic(auto, using(crate::proofs::StmtSteps::branch_steps))]
fn read_steps(alloc: Global, step: &ReadStep) -> Result<Option<Items<Branch>>, AllocError>
    ensures { IfOk result (λ made. all_onto step.now.path.now made ≡ read_branches step.now.params step.now.model.now step.now.path.now step.now.side step.now.cell.now) }
{
    let mut out = Items::new(alloc);
    if !add_cases(alloc, step, &mut out)? {
        return Ok(None);
    }
    out.push(initial_branch(alloc, step.path, step.side))?;
    Ok(Some(out))
}

/// The cases of a read or an output, which go by `Keep` alone.
fn reads(alloc: Global, order: Order, step: &ReadStep) -> Result<Option<Items<Branch>>, AllocError>
    ensures { IfOk result (λ made. all_onto step.now.path.now made ≡ by_keep order (read_branches step.now.params step.now.model.now step.now.path.now step.now.side step.now.cell.now)) }
{
    match order {
        Order::Keep => read_steps(alloc, step),
        Order::Swap => Ok(None),
    }
}

/// The branches of a step.
fn branches_by(
    alloc: Global,
    programs: &Programs,
    order: Order,
    path: &Path,
) -> Result<Option<Items<Branch>>, AllocError>
    ensures { IfOk result (λ made. all_onto path.now made ≡ branches (pairing programs.now) order path.now) }
{
    let params = programs.left.params;
    match cell_read(alloc, programs.left, &path.left.position)? {
        Some(cell) => {
            let step = ReadStep {
                params,
                model: programs.left,
                path,
                side: Side::Left,
                cell: &cell,
            };
            reads(alloc, order, &step)
        }
        None => match cell_read(alloc, programs.right, &path.right.position)? {
            Some(cell) => {
                let step = ReadStep {
                    params,
                    model: programs.right,
                    path,
                    side: Side::Right,
                    cell: &cell,
                };
                reads(alloc, order, &step)
            }
            None => steps_of_calls(alloc, programs, order, path),
        },
    }
}

/// What each branch of a step of the pair of positions adds to the path, in order; none where there is no such step. A read or
/// an output on the left goes first, else one on the right: one branch for each assignment of its array, piece and level,
/// then one for the initial contents. Two calls of one symbol go to their arguments: to those of one number each by `Keep`, and crossed
/// by `Swap`, which asks for a declared symbol of two arguments. There is none either where a number of the rows leaves
/// `i128`. No row of the path is copied or read.
pub fn branches(
    alloc: Global,
    programs: &Programs,
    order: Order,
    path: &Path,
) -> Result<Option<Items<Branch>>, AllocError>
    ensures value { IfOk result (λ made. all_onto path.now made ≡ branches (pairing programs.now) order path.now) }
    ensures formed { HasModuli programs.now.left.now → HasModuli programs.now.right.now → IsFormed programs.now.left.now.params path.now → IfOk result (λ made. AreFormedIf programs.now.left.now.params (all_onto path.now made)) }
{
    branches_by(alloc, programs, order, path)
}

/// The path behind a branch. No row is copied.
pub fn onto(path: Path, branch: Branch) -> Result<Path, AllocError>
    ensures { IfOk result (λ made. made ≡ onto path branch) }
{
    let Branch {
        columns,
        rows,
        left,
        right,
        last,
    } = branch;
    let columns = column_after(path.conj.columns, columns)?;
    let conj = Conj {
        columns,
        rows: join(path.conj.rows, rows)?,
    };
    Ok(Path {
        conj,
        left,
        right,
        gone: true,
        last,
    })
}
