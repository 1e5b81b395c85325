//! Rows that the tests make, and rows that they want.

use ac_base::Items;
use ac_forms::{Form, Row};
use std::alloc::{AllocError, Global};

/// Adds a row `constant + coefs x >= 0`.
pub fn push_at_least(
    alloc: Global,
    rows: &mut Items<Row>,
    constant: i128,
    coefs: &[i128],
) -> Result<(), AllocError> {
    let form = Form::from_parts(alloc, constant, coefs)?;
    rows.push(Row::Ge(form))
}

/// Whether the form has this constant and these coefficients.
fn is_form(form: &Form, constant: i128, coefs: &[i128]) -> bool {
    form.konst() == constant && form.coefs() == coefs
}

/// Whether the row is `constant + coefs x >= 0`.
pub fn is_at_least(row: &Row, constant: i128, coefs: &[i128]) -> bool {
    match row {
        Row::Ge(form) => is_form(form, constant, coefs),
        _ => false,
    }
}

/// Whether the row is `constant + coefs x = 0`.
pub fn is_equality(row: &Row, constant: i128, coefs: &[i128]) -> bool {
    match row {
        Row::Eq(form) => is_form(form, constant, coefs),
        _ => false,
    }
}

/// Whether the row is `2 | constant + coefs x`.
pub fn is_even(row: &Row, constant: i128, coefs: &[i128]) -> bool {
    match row {
        Row::Div(modulus, form) => *modulus == 2 && is_form(form, constant, coefs),
        _ => false,
    }
}
