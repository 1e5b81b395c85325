//! The pieces where a condition fails.
ghost use Rattle.std.specs.Prelude.{◌≡◌, ◌++◌, IfOk, OnOk};
ghost use Rattle.std.specs.List.{flat_map};
ghost use Rattle.ac_poly_quotients.specs.ComparisonWays.{with_each, failing_by};

use crate::copy::{copy_rows, with_row};
use crate::types::Way;
use ac_base::Items;
use ac_forms::Row;
use std::alloc::{AllocError, Global};

/// Adds the piece with each of the rows.
#[tactic(auto, using(crate::proofs::Failing::each_steps))]
fn add_each(
    alloc: Global,
    piece: &[Row],
    rows: &[Row],
    made: &mut Items<Items<Row>>,
) -> Result<(), AllocError>
    ensures { OnOk result (made.new ≡ made.old ++ with_each piece.now rows.now) }
{
    for row in rows {
        made.push(with_row(alloc, piece, row.copy(alloc)?)?)?;
    }
    Ok(())
}

/// Adds the parts of a piece in which a condition fails: for each comparison those in which it is the first that does.
#[tactic(auto, using(crate::proofs::Failing::failing_steps))]
fn add_failing(
    alloc: Global,
    ways: &[Way],
    piece: &[Row],
    made: &mut Items<Items<Row>>,
) -> Result<(), AllocError>
    ensures { OnOk result (made.new ≡ made.old ++ failing_by ways.now piece.now) }
{
    let mut done = copy_rows(alloc, piece)?;
    for way in ways {
        add_each(alloc, done.as_slice(), way.negations.as_slice(), made)?;
        done.push(way.row.copy(alloc)?)?;
    }
    Ok(())
}

/// The parts of all pieces in which a condition fails.
#[tactic(auto, using(crate::proofs::Failing::flat_steps))]
pub(crate) fn all_failing(
    alloc: Global,
    ways: &[Way],
    pieces: &[Items<Row>],
) -> Result<Items<Items<Row>>, AllocError>
    ensures { IfOk result (λ made. made ≡ flat_map (failing_by ways.now) pieces.now) }
{
    let mut made = Items::new(alloc);
    for piece in pieces {
        add_failing(alloc, ways, piece.as_slice(), &mut made)?;
    }
    Ok(made)
}
