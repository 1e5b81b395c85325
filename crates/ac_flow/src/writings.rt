//! The assignments that write the cell of a read or an output before it.
ghost use Rattle.std.specs.Prelude.{◌≡◌, ◌++◌, ◌<◌, map, length, OnOk, IfOk, Some, slice_get};
ghost use Rattle.std.specs.List.{flat_map};
ghost use Rattle.ac_claims_paths.specs.CopyKills.{assignment_at};
ghost use Rattle.ac_flow.specs.Writings.{afters, levels_after, numbers_to, writing, writings_at, writings};

use crate::cases::Assignment;
use ac_base::Items;
use ac_claims_paths::path::{CopyNumbers, Seat};
use ac_claims_paths::places::levels_to;
use ac_forms::Row;
use ac_poly::types::{Model, StmtModel};
use ac_syntax::tree::Position;
use std::alloc::{AllocError, Global};

/// The assignment of an assumed source.
fn assignment_at(seat: &Seat) -> usize
    ensures { result ≡ assignment_at seat.now }
{
    match seat.position {
        Position::Node { stmt, node: _ } | Position::InitialNode { stmt, node: _ } => stmt,
        Position::Output(_) | Position::InitialOutput(_) => 0,
    }
}

/// The levels by which an instance of the assignment `u` stands after one of the assumed source's.
#[tactic(auto, using(std::proofs::lemmas::Option::slice_get_within))]
fn levels_after(
    alloc: Global,
    m: &Model,
    source: &Seat,
    u: usize,
    stmt: &StmtModel,
) -> Result<Items<Items<Row>>, AllocError>
    requires { slice_get m.now.stmts u ≡ Some stmt.now }
    ensures { IfOk result (λ levels. levels ≡ levels_after m.now source.now u stmt.now) }
{
    let s = assignment_at(source);
    match m.stmts.as_slice().get(s) {
        Some(_) => ac_poly::before(alloc, m, s, u),
        None => Ok(Items::new(alloc)),
    }
}

/// The numbers of so many levels.
#[tactic(auto, using(crate::proofs::WritingSteps::number_steps))]
fn numbered(alloc: Global, count: usize) -> Result<Items<Option<usize>>, AllocError>
    ensures { IfOk result (λ all. all ≡ map Some (numbers_to count)) }
{
    let mut all = Items::new(alloc);
    for k in 0..count {
        all.push(Some(k))?;
    }
    Ok(all)
}

/// The levels after an assumed source; without one, none is asked.
fn afters(
    alloc: Global,
    m: &Model,
    source: &Option<Seat>,
    u: usize,
    stmt: &StmtModel,
) -> Result<Items<Option<usize>>, AllocError>
    requires { slice_get m.now.stmts u ≡ Some stmt.now }
    ensures { IfOk result (λ all. all ≡ afters m.now source.now u stmt.now) }
{
    match source {
        None => {
            let mut all = Items::new(alloc);
            all.push(None)?;
            Ok(all)
        }
        Some(seat) => {
            let levels = levels_after(alloc, m, seat, u, stmt)?;
            numbered(alloc, levels.len())
        }
    }
}

/// Adds the writings in a piece and before the reader by a level, one for each level after the source.
#[tactic(auto, using(crate::proofs::WritingSteps::after_steps))]
fn push_afters(
    out: &mut Items<CopyNumbers>,
    u: usize,
    piece: usize,
    before: usize,
    afters: &[Option<usize>],
) -> Result<(), AllocError>
    ensures { OnOk result (out.new ≡ out.old ++ map (writing u piece before) afters.now) }
{
    for after in afters {
        out.push(CopyNumbers {
            stmt: u,
            piece,
            after: *after,
            before,
        })?;
    }
    Ok(())
}

/// Adds the writings in a piece, for each of so many levels before the reader.
#[tactic(auto, using(crate::proofs::WritingSteps::flat_steps))]
fn push_levels(
    out: &mut Items<CopyNumbers>,
    u: usize,
    piece: usize,
    levels: usize,
    afters: &[Option<usize>],
) -> Result<(), AllocError>
    ensures { OnOk result (out.new ≡ out.old ++ flat_map (λ before. map (writing u piece before) afters.now) (numbers_to levels)) }
{
    for before in 0..levels {
        push_afters(out, u, piece, before, afters)?;
    }
    Ok(())
}

/// Adds the writings in each of so many pieces.
#[tactic(auto, using(crate::proofs::WritingSteps::flat_steps))]
fn push_pieces(
    out: &mut Items<CopyNumbers>,
    u: usize,
    pieces: usize,
    levels: usize,
    afters: &[Option<usize>],
) -> Result<(), AllocError>
    ensures { OnOk result (out.new ≡ out.old ++ flat_map (λ piece. flat_map (λ before. map (writing u piece before) afters.now) (numbers_to levels)) (numbers_to pieces)) }
{
    for piece in 0..pieces {
        push_levels(out, u, piece, levels, afters)?;
    }
    Ok(())
}

/// Adds the writings of an assignment, if it writes the array.
#[tactic(auto, using(crate::proofs::WritingSteps::stmt_steps))]
fn push_stmt(
    alloc: Global,
    m: &Model,
    reader: &Position,
    array: usize,
    source: &Option<Seat>,
    assignment: &Assignment,
    out: &mut Items<CopyNumbers>,
) -> Result<(), AllocError>
    requires place { assignment.now.number < length m.now.stmts }
    requires stmt { slice_get m.now.stmts assignment.now.number ≡ Some assignment.now.stmt.now }
    ensures { OnOk result (out.new ≡ out.old ++ writings_at m.now reader.now array source.now assignment.now.number assignment.now.stmt.now) }
{
    let u = assignment.number;
    let stmt = assignment.stmt;
    if stmt.array != array {
        return Ok(());
    }
    let levels = levels_to(alloc, m, u, reader)?;
    let afters = afters(alloc, m, source, u, stmt)?;
    push_pieces(out, u, stmt.pieces.len(), levels.len(), afters.as_slice())
}

/// The assignments that write an array before a read or an output: one for each assignment of the array, piece of it, level
/// before the reader and, where a source is assumed, level after that, in this order.
#[tactic(auto, using(crate::proofs::WritingSteps::all_steps))]
pub fn writings(
    alloc: Global,
    m: &Model,
    reader: &Position,
    array: usize,
    source: &Option<Seat>,
) -> Result<Items<CopyNumbers>, AllocError>
    ensures { IfOk result (λ all. all ≡ writings m.now reader.now array source.now) }
{
    let stmts = m.stmts.as_slice();
    let mut out = Items::new(alloc);
    for u in 0..stmts.len() {
        let assignment = Assignment {
            number: u,
            stmt: &stmts[u],
        };
        push_stmt(alloc, m, reader, array, source, &assignment, &mut out)?;
    }
    Ok(out)
}
