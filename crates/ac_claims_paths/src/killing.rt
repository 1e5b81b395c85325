//! Copies: assignments that write a cell again between the source that is assumed for a read and the read.
ghost use Rattle.std.specs.Prelude.{◌≡◌, ◌+◌, ◌++◌, IfOk, OnOk};
ghost use Rattle.ac_omega_steps.specs.Choices.{column_of};
ghost use Rattle.ac_forms.specs.Rows.{HaveModuli, IsWellMade};
ghost use Rattle.ac_claims_paths.specs.OptionalRows.{IsMadeIf};
ghost use Rattle.ac_claims_paths.specs.CopyKills.{source_columns, case_columns, source_width, case_width, by_column, taken_legally, chosen, ends_before, is_killed};

use crate::columns::moved_rows;
use crate::forms::NormalForms;
use crate::path::{Assumed, Seat};
use crate::standing::made_and_stand;
use ac_base::Items;
use ac_forms::{Conj, Row, column_after, push_range};
use ac_omega_steps::{Choice, StepStop};
use std::alloc::{AllocError, Global};

/// The number of the columns of an assumed source.
fn source_width(source: &Option<Seat>) -> usize
    ensures { result ≡ source_width source.now }
{
    match source {
        Some(seat) => seat.width,
        None => 0,
    }
}

/// How many columns a case has of its own: the parameters, the coordinates of the reader and those of the assumed source.
pub fn case_width(params: usize, assumed: &Assumed) -> Result<usize, AllocError>
    ensures { IfOk result (λ count. count ≡ case_width params assumed.now) }
{
    let coordinates = column_after(assumed.reader.width, source_width(&assumed.source))?;
    column_after(params, coordinates)
}

/// Adds the columns of an assumed source.
fn push_source(list: &mut Items<usize>, source: &Option<Seat>) -> Result<(), AllocError>
    ensures { OnOk result (list.new ≡ list.old ++ source_columns source.now) }
{
    match source {
        Some(seat) => push_range(list, seat.first, seat.width),
        None => Ok(()),
    }
}

/// These columns among those of the path.
pub fn case_columns(
    alloc: Global,
    params: usize,
    assumed: &Assumed,
) -> Result<Items<usize>, AllocError>
    ensures { IfOk result (λ list. list ≡ case_columns params assumed.now) }
{
    let mut list = Items::new(alloc);
    push_range(&mut list, 0, params)?;
    push_range(&mut list, assumed.reader.first, assumed.reader.width)?;
    push_source(&mut list, &assumed.source)?;
    Ok(list)
}

/// A choice by another column.
fn by_column(column: usize, choice: &Choice) -> Choice
    ensures { result ≡ by_column column choice.now }
{
    match choice {
        Choice::Drop(_) => Choice::Drop(column),
        Choice::Equal(_, row) => Choice::Equal(column, *row),
        Choice::Residue(_, modulus, residue) => Choice::Residue(column, *modulus, *residue),
        Choice::Shadow(_) => Choice::Shadow(column),
        Choice::Splinter(_, row, value) => Choice::Splinter(column, *row, *value),
    }
}

/// The column of a choice.
fn column_of(choice: &Choice) -> usize
    ensures { result ≡ column_of choice.now }
{
    match choice {
        Choice::Drop(column)
        | Choice::Equal(column, _)
        | Choice::Residue(column, _, _)
        | Choice::Shadow(column)
        | Choice::Splinter(column, _, _) => *column,
    }
}

/// What a legal choice leaves in normal form, where its numbers stay in `i128`.
#[tactic(auto, using(crate::proofs::KillSteps::choice_steps))]
fn taken_legally(alloc: Global, choice: &Choice, conj: &Conj) -> Result<Option<Conj>, AllocError>
    requires { IsWellMade conj.now }
    ensures { IfOk result (λ left. left ≡ taken_legally choice.now conj.now) }
{
    match ac_omega_steps::step(alloc, conj, choice) {
        Ok(left) => Ok(Some(left)),
        Err(StepStop::Illegal) | Err(StepStop::Wide) => Ok(None),
        Err(StepStop::Memory(want)) => Err(want),
    }
}

/// What a choice of a copy leaves; none where it is illegal, names none of the copy's columns, or a number leaves `i128`.
/// The copy's columns are named as if they stood behind those of the path, `columns`; they stand behind the case's own.
pub fn chosen(
    alloc: Global,
    columns: usize,
    own: usize,
    choice: &Choice,
    conj: &Conj,
) -> Result<Option<Conj>, AllocError>
    requires { IsWellMade conj.now }
    ensures value { IfOk result (λ left. left ≡ chosen columns own choice.now conj.now) }
    ensures made { IfOk result (λ left. IsMadeIf left) }
{
    left_by(alloc, columns, own, choice, conj)
}

/// The same.
fn left_by(
    alloc: Global,
    columns: usize,
    own: usize,
    choice: &Choice,
    conj: &Conj,
) -> Result<Option<Conj>, AllocError>
    requires { IsWellMade conj.now }
    ensures { IfOk result (λ left. left ≡ chosen columns own choice.now conj.now) }
{
    let column = column_of(choice);
    if columns > column {
        return Ok(None);
    }
    let named = by_column(column_after(own, column - columns)?, choice);
    taken_legally(alloc, &named, conj)
}

/// Whether no row has a coefficient in a column from one on.
fn ends_before(columns: usize, rows: &[Row]) -> bool
    ensures { result ≡ ends_before columns rows.now }
{
    for row in rows {
        if row.form().columns() > columns {
            return false;
        }
    }
    true
}

/// Whether what is left of a copy has none of its columns and stands among the rows of the path. Then no point of the path
/// has the source that was assumed. The normal forms of the rows are kept in `forms` from one question to the next.
#[tactic(auto, using(crate::proofs::Moduli::moduli_steps))]
pub fn is_killed(
    alloc: Global,
    params: usize,
    rows: &[Row],
    assumed: &Assumed,
    left: &Conj,
    forms: &mut NormalForms,
) -> Result<bool, AllocError>
    requires rows { HaveModuli rows.now }
    requires left { IsWellMade left.now }
    ensures { IfOk result (λ answer. answer ≡ is_killed params rows.now assumed.now left.now) }
{
    let own = case_width(params, assumed)?;
    if !ends_before(own, left.rows.as_slice()) {
        return Ok(false);
    }
    let columns = case_columns(alloc, params, assumed)?;
    let moved = moved_rows(alloc, columns.as_slice(), left.rows.as_slice())?;
    made_and_stand(alloc, rows, &moved, forms)
}
