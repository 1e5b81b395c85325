//! The claims that outputs start from: both elements are one.
ghost use Rattle.std.specs.Prelude.{◌≡◌, ◌≤◌, ◌++◌, IfOk, OnOk, pos, replicate, slice_get};
ghost use Rattle.ac_forms.specs.ListMembers.{IsAmong};
ghost use Rattle.ac_forms.specs.declared.row.Row.TheVariants.{Eq};
ghost use Rattle.ac_syntax.specs.declared.tree.Pair.{Pair};
ghost use Rattle.ac_widen_programs.specs.PairSetting.{extent_count};
ghost use Rattle.ac_walk_state.specs.Elements.{AreProgramsOf, IsElementClaim, column_less, equal_columns};

use ac_base::Items;
use ac_claims::types::Claim;
use ac_claims_paths::path::Programs;
use ac_forms::{Form, Row};
use ac_syntax::tree::Position;
use std::alloc::{AllocError, Global};

/// Adds so many zeros to coefficients.
fn push_zeros(coefs: &mut Vec<i128>, count: usize) -> Result<(), AllocError>
    ensures { OnOk result (coefs.new.items ≡ coefs.old.items ++ replicate count (pos 0)) }
{
    for _ in 0..count {
        coefs.push(0)?;
    }
    Ok(())
}

/// The row that a column is equal to the one so many columns behind it, which is at least one.
fn equal_row(alloc: Global, column: usize, distance: usize) -> Result<Row, AllocError>
    requires { 1 ≤ distance }
    ensures { IfOk result (λ row. row ≡ Eq (column_less column distance)) }
{
    let mut coefs = Vec::new(alloc);
    push_zeros(&mut coefs, column)?;
    coefs.push(1)?;
    push_zeros(&mut coefs, distance - 1)?;
    coefs.push(-1)?;
    Ok(Row::Eq(Form::from_parts(alloc, 0, coefs.as_slice())?))
}

/// The rows that each of so many columns is equal to the one as many columns behind it.
fn equal_columns(alloc: Global, first: usize, count: usize) -> Result<Items<Row>, AllocError>
    ensures { IfOk result (λ rows. rows ≡ equal_columns first count) }
{
    let mut rows = Items::new(alloc);
    for dimension in 0..count {
        match first.checked_add(dimension) {
            Some(column) => rows.push(equal_row(alloc, column, count)?)?,
            None => return Err(AllocError),
        }
    }
    Ok(rows)
}

/// How many dimensions an array of the left program has.
fn dimensions(programs: &Programs<'_>, array: usize) -> usize
    ensures { result ≡ extent_count (slice_get programs.now.left.now.extents array) }
{
    match programs.left.extents.get(array) {
        Some(extents) => extents.len(),
        None => 0,
    }
}

/// The claim of an output: both elements are one. A judge of proofs sees that it asks no more, wherever its first plan starts; and at
/// each pair of the output in both programs its rows hold exactly where the elements are one.
///
/// The rows are over the parameters, the element's subscripts in the left program and those in the right one. The only refusal is want
/// of memory.
pub fn output_claim(
    alloc: Global,
    programs: &Programs<'_>,
    array: usize,
) -> Result<Claim, AllocError>
    ensures { IfOk result (λ claim. (pair : Pair) → AreProgramsOf pair programs.now → IsAmong array pair.outputs → IsElementClaim pair array claim) }
{
    let position = Position::Output(array);
    let rows = equal_columns(alloc, programs.left.params, dimensions(programs, array))?;
    Ok(Claim {
        left: position,
        right: position,
        rows,
    })
}
