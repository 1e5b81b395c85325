//! Points that a search carries along its path: where one goes on to a question, the question need not be asked.
ghost use Rattle.std.specs.Prelude.{◌≡◌, IfOk, IfSome, length};
ghost use Rattle.ac_forms.specs.Rows.{Meets};

use ac_forms::{Conj, Row};
use std::alloc::{AllocError, Global};

/// How far above its least number a column is taken that has no greatest one.
const ABOVE: i128 = 8;

/// What a row says of the last number of a point, the others given.
enum Said {
    /// It is this number.
    Is(i128),
    /// It is at least this one.
    AtLeast(i128),
    /// It is at most this one.
    AtMost(i128),
    /// Nothing that is seen here.
    Nothing,
}

/// What `own z + rest = 0` says of z.
fn said_by_equality(own: i128, rest: i128) -> Said {
    if own == -1 {
        return Said::Is(rest);
    }
    match rest.checked_neg() {
        Some(number) if own == 1 => Said::Is(number),
        _ => Said::Nothing,
    }
}

/// What `own z + rest >= 0` says of z.
fn said_by_inequality(own: i128, rest: i128) -> Said {
    if own > 0 {
        return match rest.div_euclid(own).checked_neg() {
            Some(least) => Said::AtLeast(least),
            None => Said::Nothing,
        };
    }
    match own.checked_neg() {
        Some(size) if size > 0 => Said::AtMost(rest.div_euclid(size)),
        _ => Said::Nothing,
    }
}

/// What a row says of the last number of a point, in whose place a 0 stands.
fn said_by(row: &Row, point: &[i128]) -> Said {
    let form = row.form();
    let columns = form.columns();
    if columns == 0 || columns != point.len() {
        return Said::Nothing;
    }
    let own = form.coef(columns - 1);
    match form.eval(point) {
        Ok(rest) => match row {
            Row::Eq(_) => said_by_equality(own, rest),
            Row::Ge(_) => said_by_inequality(own, rest),
            Row::Div(_, _) => Said::Nothing,
        },
        Err(_) => Said::Nothing,
    }
}

/// The greater of two numbers, where there are two.
fn greater(one: Option<i128>, other: i128) -> i128 {
    match one {
        Some(number) if number > other => number,
        _ => other,
    }
}

/// The lesser of two numbers, where there are two.
fn lesser(one: Option<i128>, other: i128) -> i128 {
    match one {
        Some(number) if number < other => number,
        _ => other,
    }
}

/// A last number for a point, in whose place a 0 stands: what an equality says, else the greatest that the rows allow, else one above
/// the least.
fn last_number(rows: &[Row], point: &[i128]) -> i128 {
    let mut least = None;
    let mut most = None;
    for row in rows {
        match said_by(row, point) {
            Said::Is(number) => return number,
            Said::AtLeast(number) => least = Some(greater(least, number)),
            Said::AtMost(number) => most = Some(lesser(most, number)),
            Said::Nothing => {}
        }
    }
    match (most, least) {
        (Some(number), _) => number,
        (None, Some(number)) => number.saturating_add(ABOVE),
        (None, None) => 0,
    }
}

/// The known numbers with one more for each further column.
fn lengthened(alloc: Global, conj: &Conj, known: &[i128]) -> Result<Vec<i128>, AllocError> {
    let mut point = Vec::from_slice(alloc, known)?;
    for _ in known.len()..conj.columns {
        point.push(0)?;
        let number = last_number(conj.rows.as_slice(), point.as_slice());
        point.pop();
        point.push(number)?;
    }
    Ok(point)
}

/// A point of a question that begins with the known numbers, where one is seen without an elimination. It is tested before it is given;
/// that there is none is never said.
pub(crate) fn continued(
    alloc: Global,
    conj: &Conj,
    known: &[i128],
) -> Result<Option<Vec<i128>>, AllocError>
    ensures { IfOk result (λ seen. IfSome seen (λ point. (length point.items ≡ conj.now.columns) × Meets conj.now.rows point.items)) }
{
    if !conj.is_well_made() {
        return Ok(None);
    }
    let point = lengthened(alloc, conj, known)?;
    if point.len() != conj.columns {
        return Ok(None);
    }
    match conj.holds_at(point.as_slice()) {
        Ok(true) => Ok(Some(point)),
        Ok(false) | Err(_) => Ok(None),
    }
}
