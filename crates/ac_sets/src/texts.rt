//! The texts of unions.
ghost use Rattle.std.specs.Prelude.{◌≡◌, ◌++◌, ◌∷◌, [], ◌+◌, pos, codes, decimal, length, unsigned_abs, false, IfOk, OnOk, if◌then◌else◌};
ghost use Rattle.std.specs.Fmt.{signed_decimal};
ghost use Rattle.ac_sets.specs.SetTexts.{column_name, multiple_text, term_of, terms_from, form_text, row_text, rows_text, pieces_text};
ghost use Rattle.ac_sets.specs.SumTexts.{continued, has_terms};

use crate::unions::Union;
use ac_forms::{Conj, Form, Row};
use ac_syntax::name::Name;
use itoa::Buffer;
use std::alloc::{AllocError, Global};

fn push_size(bytes: &mut Vec<u8>, size: u128) -> Result<(), AllocError>
    ensures { OnOk result (bytes.new.items ≡ bytes.old.items ++ decimal size) }
{
    let mut buffer = Buffer::new();
    bytes.extend_from_slice(buffer.format(size).as_bytes())
}

fn push_modulus(bytes: &mut Vec<u8>, modulus: &i128) -> Result<(), AllocError>
    ensures { OnOk result (bytes.new.items ≡ bytes.old.items ++ signed_decimal modulus.now) }
{
    let mut buffer = Buffer::new();
    bytes.extend_from_slice(buffer.format(*modulus).as_bytes())
}

/// Adds the name of a column: a given one, or that of a quotient.
fn push_column(bytes: &mut Vec<u8>, names: &[Name], column: usize) -> Result<(), AllocError>
    ensures { OnOk result (bytes.new.items ≡ bytes.old.items ++ column_name names.now column) }
{
    if column < names.len() {
        return bytes.extend_from_slice(names[column].as_bytes());
    }
    bytes.push(b'q')?;
    push_size(bytes, (column - names.len()) as u128)
}

/// The sign of a term, behind other terms or at the front.
fn sign_of(any: bool, negative: bool) -> &'static [u8]
    ensures { result.now ≡ (if any then (if negative then codes " - " else codes " + ") else (if negative then codes "-" else [])) }
{
    match (any, negative) {
        (true, true) => b" - ",
        (true, false) => b" + ",
        (false, true) => b"-",
        (false, false) => b"",
    }
}

/// Adds a column with the absolute value of its coefficient, which is left out where it is 1.
fn push_multiple(
    bytes: &mut Vec<u8>,
    size: u128,
    names: &[Name],
    column: usize,
) -> Result<(), AllocError>
    ensures { OnOk result (bytes.new.items ≡ bytes.old.items ++ multiple_text size (column_name names.now column)) }
{
    if size != 1 {
        push_size(bytes, size)?;
        bytes.push(b'*')?;
    }
    push_column(bytes, names, column)
}

/// Adds a column's term if its coefficient is not 0, and answers whether any term stands now.
fn push_term(
    bytes: &mut Vec<u8>,
    any: bool,
    coef: &i128,
    names: &[Name],
    column: usize,
) -> Result<bool, AllocError>
    ensures text { IfOk result (λ now. bytes.new.items ≡ bytes.old.items ++ continued any (term_of coef.now (multiple_text (unsigned_abs coef.now) (column_name names.now column)))) }
    ensures any { IfOk result (λ now. now ≡ has_terms any (term_of coef.now (multiple_text (unsigned_abs coef.now) (column_name names.now column)))) }
{
    if *coef == 0 {
        return Ok(any);
    }
    bytes.extend_from_slice(sign_of(any, *coef < 0))?;
    push_multiple(bytes, coef.unsigned_abs(), names, column)?;
    Ok(true)
}

/// Adds the terms of the coefficients that are not 0, and answers whether there are any.
#[tactic(auto, using(crate::proofs::Sums::terms_steps))]
fn push_terms(bytes: &mut Vec<u8>, coefs: &[i128], names: &[Name]) -> Result<bool, AllocError>
    ensures text { IfOk result (λ now. bytes.new.items ≡ bytes.old.items ++ continued false (terms_from names.now 0 coefs.now)) }
    ensures any { IfOk result (λ now. now ≡ has_terms false (terms_from names.now 0 coefs.now)) }
{
    let mut any = false;
    for column in 0..coefs.len() {
        any = push_term(bytes, any, &coefs[column], names, column)?;
    }
    Ok(any)
}

/// Adds a constant that is not 0 behind the terms, and answers whether any term stands now.
fn push_constant(bytes: &mut Vec<u8>, any: bool, konst: &i128) -> Result<bool, AllocError>
    ensures text { IfOk result (λ now. bytes.new.items ≡ bytes.old.items ++ continued any (term_of konst.now (decimal (unsigned_abs konst.now)))) }
    ensures any { IfOk result (λ now. now ≡ has_terms any (term_of konst.now (decimal (unsigned_abs konst.now)))) }
{
    if *konst == 0 {
        return Ok(any);
    }
    bytes.extend_from_slice(sign_of(any, *konst < 0))?;
    push_size(bytes, konst.unsigned_abs())?;
    Ok(true)
}

/// Adds a form.
#[tactic(auto, using(crate::proofs::Sums::form_steps))]
fn push_form(bytes: &mut Vec<u8>, names: &[Name], form: &Form) -> Result<(), AllocError>
    ensures { OnOk result (bytes.new.items ≡ bytes.old.items ++ form_text names.now form.now) }
{
    let any = push_terms(bytes, form.coefs(), names)?;
    let any = push_constant(bytes, any, &form.konst())?;
    if !any {
        bytes.push(b'0')?;
    }
    Ok(())
}

/// Adds a row.
fn push_row(bytes: &mut Vec<u8>, names: &[Name], row: &Row) -> Result<(), AllocError>
    ensures { OnOk result (bytes.new.items ≡ bytes.old.items ++ row_text names.now row.now) }
{
    match row {
        Row::Eq(form) => {
            push_form(bytes, names, form)?;
            bytes.extend_from_slice(b" = 0")
        }
        Row::Div(modulus, form) => {
            push_modulus(bytes, modulus)?;
            bytes.extend_from_slice(b" | ")?;
            push_form(bytes, names, form)
        }
        Row::Ge(form) => {
            push_form(bytes, names, form)?;
            bytes.extend_from_slice(b" >= 0")
        }
    }
}

fn push_further_row(bytes: &mut Vec<u8>, names: &[Name], row: &Row) -> Result<(), AllocError>
    ensures { OnOk result (bytes.new.items ≡ bytes.old.items ++ codes " and " ++ row_text names.now row.now) }
{
    bytes.extend_from_slice(b" and ")?;
    push_row(bytes, names, row)
}

/// Adds the rows of a conjunction.
fn push_rows(bytes: &mut Vec<u8>, names: &[Name], rows: &[Row]) -> Result<(), AllocError>
    ensures { OnOk result (bytes.new.items ≡ bytes.old.items ++ rows_text names.now rows.now) }
{
    let [first, rest @ ..] = rows else {
        return bytes.extend_from_slice(b"true");
    };
    push_row(bytes, names, first)?;
    for row in rest {
        push_further_row(bytes, names, row)?;
    }
    Ok(())
}

fn push_further_piece(bytes: &mut Vec<u8>, names: &[Name], piece: &Conj) -> Result<(), AllocError>
    ensures { OnOk result (bytes.new.items ≡ bytes.old.items ++ codes " or " ++ rows_text names.now piece.now.rows) }
{
    bytes.extend_from_slice(b" or ")?;
    push_rows(bytes, names, piece.rows.as_slice())
}

/// Adds the pieces of a union.
fn push_pieces(bytes: &mut Vec<u8>, names: &[Name], pieces: &[Conj]) -> Result<(), AllocError>
    ensures { OnOk result (bytes.new.items ≡ bytes.old.items ++ pieces_text names.now pieces.now) }
{
    let [first, rest @ ..] = pieces else {
        return bytes.extend_from_slice(b"false");
    };
    push_rows(bytes, names, first.rows.as_slice())?;
    for piece in rest {
        push_further_piece(bytes, names, piece)?;
    }
    Ok(())
}

/// The text of a union: its pieces, joined by ` or `, each its rows, joined by ` and `, as in `N - 3*x0 - 1 >= 0 and
/// 2 | x0`. A union without pieces is `false`, a piece without rows `true`. There is a name for each visible column; the
/// columns behind these are `q0`, `q1` and so on.
pub fn set_text(alloc: Global, u: &Union, names: &[Name]) -> Result<Vec<u8>, AllocError>
    requires { length names.now ≡ u.now.visible }
    ensures { IfOk result (λ text. text.items ≡ pieces_text names.now u.now.pieces) }
{
    let mut bytes = Vec::new(alloc);
    push_pieces(&mut bytes, names, u.pieces.as_slice())?;
    Ok(bytes)
}
