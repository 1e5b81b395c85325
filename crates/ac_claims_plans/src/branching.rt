//! Branches on a row: what a question has where the row holds, and in each part of its negation.
ghost use Rattle.std.specs.Prelude.{◌≡◌, ◌≤ℤ◌, pos, unsigned_abs, ◌-◌, map, IfOk, true, false, ◌-ℤ◌};
ghost use Rattle.std.specs.List.{range_with_len};
ghost use Rattle.ac_forms.specs.Fits.{Fits};
ghost use Rattle.ac_forms.specs.Negation.{NegationFits};
ghost use Rattle.ac_forms.specs.Rows.{IsRowOver};
ghost use Rattle.ac_forms.specs.FormStops.{MadeIff};
ghost use Rattle.ac_forms.specs.declared.row.Row.TheVariants.{Eq, Div, Ge};
ghost use Rattle.ac_cert.specs.Rules.{class_row};
ghost use Rattle.ac_claims_plans.specs.BranchSides.{has_few, inside_of, one_row, outside_of, rest_side, sides_of, AreSides, CanBranch, ClassesFit};

use ac_base::Items;
use ac_forms::{Form, FormStop, Row};
use std::alloc::{AllocError, Global};

/// The greatest modulus that is negated by its other residue classes.
pub(crate) const MOST_CLASSES: i128 = 64;

/// One side of a branch: the rows that the question has there, over its columns and so many further ones; where they stand on
/// the path, counted from its next row; and how many columns and rows the path has more.
#[derive(Drop)]
pub struct Part {
    pub rows: Items<Row>,
    pub places: Items<usize>,
    pub question_columns: usize,
    pub path_columns: usize,
    pub path_rows: usize,
}

/// The side on which a row holds, and those of the parts of its negation.
#[derive(Drop)]
pub struct Parts {
    pub inside: Part,
    pub outside: Items<Part>,
}

/// A side with one row.
fn one_row(
    alloc: Global,
    row: Row,
    place: usize,
    path_columns: usize,
    path_rows: usize,
) -> Result<Part, AllocError>
    ensures { IfOk result (λ part. part ≡ one_row row place path_columns path_rows) }
{
    let mut rows = Items::new(alloc);
    rows.push(row)?;
    let mut places = Items::new(alloc);
    places.push(place)?;
    Ok(Part {
        rows,
        places,
        question_columns: 0,
        path_columns,
        path_rows,
    })
}

/// A branch on an inequality.
fn inequality_parts(alloc: Global, form: &Form, columns: usize) -> Result<Parts, FormStop>
    ensures { MadeIff result (NegationFits (Ge form.now)) (sides_of columns (Ge form.now)) }
{
    let mut outside = Items::new(alloc);
    outside.push(one_row(alloc, Row::Ge(form.below(alloc)?), 0, 0, 1)?)?;
    Ok(Parts {
        inside: one_row(alloc, Row::Ge(form.copy(alloc)?), 0, 0, 1)?,
        outside,
    })
}

/// A branch on an equality.
fn equality_parts(alloc: Global, form: &Form, columns: usize) -> Result<Parts, FormStop>
    ensures { MadeIff result (NegationFits (Eq form.now)) (sides_of columns (Eq form.now)) }
{
    let mut outside = Items::new(alloc);
    outside.push(one_row(alloc, Row::Ge(form.above(alloc)?), 1, 0, 2)?)?;
    outside.push(one_row(alloc, Row::Ge(form.below(alloc)?), 0, 0, 1)?)?;
    Ok(Parts {
        inside: one_row(alloc, Row::Eq(form.copy(alloc)?), 2, 0, 3)?,
        outside,
    })
}

/// The side of a residue class.
#[tactic(auto, using(ac_base::proofs::Bits::again_128))]
fn class_part(alloc: Global, modulus: &i128, form: &Form, class: u8) -> Result<Part, FormStop>
    ensures { MadeIff result (Fits (form.now.konst -ℤ pos class)) (one_row (class_row modulus.now form.now (pos class)) 0 0 1) }
{
    let row = Row::Div(*modulus, form.shift(alloc, -i128::from(class))?);
    Ok(one_row(alloc, row, 0, 0, 1)?)
}

/// The sides of the residue classes but that of 0.
#[tactic(auto, using(crate::proofs::Classes::classes_steps, ac_base::proofs::Bits::again_128))]
fn other_classes(alloc: Global, modulus: &i128, form: &Form) -> Result<Items<Part>, FormStop>
    requires { has_few modulus.now ≡ true }
    ensures { pos 1 ≤ℤ modulus.now → MadeIff result (ClassesFit modulus.now form.now) (map (λ r. one_row (class_row modulus.now form.now (pos r)) 0 0 1) (range_with_len 1 (unsigned_abs modulus.now - 1))) }
{
    let mut outside = Items::new(alloc);
    for number in 1..64u8 {
        if i128::from(number) < *modulus {
            outside.push(class_part(alloc, modulus, form, number)?)?;
        }
    }
    Ok(outside)
}

/// A branch on a divisibility by the residue classes.
fn class_parts(
    alloc: Global,
    modulus: &i128,
    form: &Form,
    columns: usize,
) -> Result<Parts, FormStop>
    requires { has_few modulus.now ≡ true }
    ensures { pos 1 ≤ℤ modulus.now → MadeIff result (ClassesFit modulus.now form.now) (sides_of columns (Div modulus.now form.now)) }
{
    let outside = other_classes(alloc, modulus, form)?;
    Ok(Parts {
        inside: one_row(alloc, Row::Div(*modulus, form.copy(alloc)?), 0, 0, 1)?,
        outside,
    })
}

/// The side of a divisibility's negation by the quotient, a further column.
fn rest_part(alloc: Global, modulus: &i128, form: &Form, columns: usize) -> Result<Part, FormStop>
    requires { IsRowOver columns (Div modulus.now form.now) }
    ensures { MadeIff result (NegationFits (Div modulus.now form.now)) (rest_side columns modulus.now form.now) }
{
    let mut rows = Items::new(alloc);
    rows.push(Row::Ge(form.remainder_from_one(alloc, *modulus, columns)?))?;
    rows.push(Row::Ge(form.remainder_to_last(alloc, *modulus, columns)?))?;
    let mut places = Items::new(alloc);
    places.push(2)?;
    places.push(1)?;
    Ok(Part {
        rows,
        places,
        question_columns: 1,
        path_columns: 1,
        path_rows: 3,
    })
}

/// A branch on a divisibility by the quotient.
fn quotient_parts(
    alloc: Global,
    modulus: &i128,
    form: &Form,
    columns: usize,
) -> Result<Parts, FormStop>
    requires over { IsRowOver columns (Div modulus.now form.now) }
    requires many { has_few modulus.now ≡ false }
    ensures { MadeIff result (NegationFits (Div modulus.now form.now)) (sides_of columns (Div modulus.now form.now)) }
{
    let mut outside = Items::new(alloc);
    outside.push(rest_part(alloc, modulus, form, columns)?)?;
    Ok(Parts {
        inside: one_row(alloc, Row::Div(*modulus, form.copy(alloc)?), 5, 1, 6)?,
        outside,
    })
}

/// A branch on a divisibility.
fn divisibility_parts(
    alloc: Global,
    modulus: &i128,
    form: &Form,
    columns: usize,
) -> Result<Parts, FormStop>
    requires { IsRowOver columns (Div modulus.now form.now) }
    ensures { MadeIff result (CanBranch (Div modulus.now form.now)) (sides_of columns (Div modulus.now form.now)) }
{
    if *modulus <= MOST_CLASSES {
        return class_parts(alloc, modulus, form, columns);
    }
    quotient_parts(alloc, modulus, form, columns)
}

/// The sides of a branch on a row over that many columns; `Wide` exactly where a number of them leaves `i128`.
fn parts_by(alloc: Global, row: &Row, columns: usize) -> Result<Parts, FormStop>
    requires { IsRowOver columns row.now }
    ensures { MadeIff result (CanBranch row.now) (sides_of columns row.now) }
{
    match row {
        Row::Ge(form) => inequality_parts(alloc, form, columns),
        Row::Eq(form) => equality_parts(alloc, form, columns),
        Row::Div(modulus, form) => divisibility_parts(alloc, modulus, form, columns),
    }
}

/// The sides of a branch on a row over that many columns; none where a number of them leaves `i128`.
pub fn parts_of(alloc: Global, row: &Row, columns: usize) -> Result<Option<Parts>, AllocError>
    requires { IsRowOver columns row.now }
    ensures { IfOk result (AreSides columns row.now) }
{
    match parts_by(alloc, row, columns) {
        Ok(parts) => Ok(Some(parts)),
        Err(FormStop::Wide) => Ok(None),
        Err(FormStop::Memory(want)) => Err(want),
    }
}
