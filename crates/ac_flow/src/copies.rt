//! Copies: what writes the cell of a read or an output again behind the source that is assumed for it.
ghost use Rattle.std.specs.Prelude.{◌≡◌, ◌++◌, ◌⊎◌, [], IfOk, IfErr, None, unwrap_or};
ghost use Rattle.ac_forms.specs.Renaming.{rows_renaming};
ghost use Rattle.ac_forms.specs.Rows.{HaveModuli};
ghost use Rattle.ac_claims_paths.specs.ModelCalls.{pairing};
ghost use Rattle.ac_claims_paths.specs.PathColumns.{base, columns_of};
ghost use Rattle.ac_claims_paths.specs.WellFormedPaths.{HasModuli};
ghost use Rattle.ac_claims_paths.specs.PathSteps.{root};
ghost use Rattle.ac_claims_paths.specs.CopyKills.{with_own_columns};
ghost use Rattle.ac_flow.specs.FlowCases.{IsFoundFor};
ghost use Rattle.ac_flow.specs.FlowStops.{front, UnformedStops, CopyOfStops};
ghost use Rattle.ac_flow.specs.Writings.{alone, conj_of};

use crate::copy_pieces::kill_pieces;
use crate::cut::CutStop;
use ac_base::Items;
use ac_claims_paths::columns::{columns_at, moved_rows};
use ac_claims_paths::copies::copy_rows;
use ac_claims_paths::killing::case_width;
use ac_claims_paths::path::{Assumed, CopyNumbers, Programs, Seat};
use ac_forms::{Conj, Row, column_after};
use ac_omega::Piece;
use ac_poly::types::{Model, StmtModel};
use ac_syntax::tree::Position;
use std::alloc::{AllocError, Global};

/// A program against itself.
fn alone<'a>(m: &'a Model) -> Programs<'a>
    ensures { pairing result ≡ alone m.now }
{
    Programs {
        left: m,
        right: m,
        commutative: &[],
    }
}

/// The rows of a writing over the columns of what is assumed, and then those of its own coordinates. None where there is no
/// such writing, or a number leaves `i128`.
#[tactic(auto, using(crate::proofs::CopySteps::conj_steps))]
pub(crate) fn conj_of(
    alloc: Global,
    m: &Model,
    assumed: &Assumed,
    numbers: &CopyNumbers,
) -> Result<Option<Conj>, AllocError>
    ensures { IfOk result (λ made. made ≡ conj_of m.now assumed.now numbers.now) }
{
    let Some(stmt) = m.stmts.as_slice().get(numbers.stmt) else {
        return Ok(None);
    };
    let first = case_width(m.params, assumed)?;
    let columns = column_after(first, ac_poly::width(stmt))?;
    match copy_rows(alloc, &alone(m), assumed, first, numbers, stmt)? {
        Some(rows) => Ok(Some(Conj { columns, rows })),
        None => Ok(None),
    }
}

/// The rows of a writing's piece, over the columns of what is assumed and its own.
fn piece_rows(
    alloc: Global,
    m: &Model,
    first: usize,
    numbers: &CopyNumbers,
    stmt: &StmtModel,
    piece: &[Row],
) -> Result<Items<Row>, AllocError>
    requires { HaveModuli piece.now }
    ensures { IfOk result (λ rows. rows ≡ unwrap_or (rows_renaming (base m.now.params ++ columns_of (root first numbers.now.stmt stmt.now)) piece.now) []) }
{
    let seat = Seat {
        position: Position::Node {
            stmt: numbers.stmt,
            node: 0,
        },
        first,
        width: ac_poly::width(stmt),
    };
    let columns = columns_at(alloc, m.params, &seat)?;
    match moved_rows(alloc, columns.as_slice(), piece)? {
        Some(rows) => Ok(rows),
        None => Ok(Items::new(alloc)),
    }
}

/// What is shown of a writing whose rows cannot be formed.
#[tactic(auto, using(crate::proofs::CopySteps::front_steps))]
fn front(
    alloc: Global,
    m: &Model,
    assumed: &Assumed,
    numbers: &CopyNumbers,
) -> Result<Conj, AllocError>
    requires { HasModuli m.now }
    ensures { IfOk result (λ conj. conj ≡ front m.now assumed.now numbers.now) }
{
    let first = case_width(m.params, assumed)?;
    let Some(stmt) = m.stmts.as_slice().get(numbers.stmt) else {
        return Ok(Conj {
            columns: first,
            rows: Items::new(alloc),
        });
    };
    let columns = column_after(first, ac_poly::width(stmt))?;
    match stmt.pieces.as_slice().get(numbers.piece) {
        Some(piece) => Ok(Conj {
            columns,
            rows: piece_rows(alloc, m, first, numbers, stmt, piece.as_slice())?,
        }),
        None => Ok(Conj {
            columns,
            rows: Items::new(alloc),
        }),
    }
}

/// The stop of a writing whose rows cannot be formed.
pub(crate) fn unformed(
    alloc: Global,
    m: &Model,
    assumed: &Assumed,
    numbers: &CopyNumbers,
) -> CutStop
    requires moduli { HasModuli m.now }
    requires none { conj_of m.now assumed.now numbers.now ≡ None }
    ensures { UnformedStops m.now assumed.now numbers.now result }
{
    match front(alloc, m, assumed, numbers) {
        Ok(question) => CutStop::Overflow(question),
        Err(want) => CutStop::Memory(want),
    }
}

/// What is left of one copy where its columns are eliminated.
#[tactic(auto, using(crate::proofs::CopySteps::found_steps))]
pub(crate) fn found_for(
    alloc: Global,
    m: &Model,
    assumed: &Assumed,
    numbers: &CopyNumbers,
    budget: u64,
) -> Result<Items<Piece>, CutStop>
    requires moduli { HasModuli m.now }
    requires own { assumed.now ≡ with_own_columns m.now.params assumed.now }
    ensures found { IfOk result (λ found. IsFoundFor budget m.now assumed.now numbers.now found) }
    ensures stops { IfErr result (λ e. UnformedStops m.now assumed.now numbers.now e ⊎ CopyOfStops budget m.now assumed.now numbers.now e) }
{
    let first = case_width(m.params, assumed)?;
    match conj_of(alloc, m, assumed, numbers)? {
        Some(copy) => kill_pieces(alloc, &copy, first, budget),
        None => Err(unformed(alloc, m, assumed, numbers)),
    }
}
