//! Attempts by simplex and cuts, at questions that were worked out by hand.

use ac_base::Items;
use ac_cert::types::Step;
use ac_cert::{Absurd, Tree};
use ac_forms::{Conj, Form, Row};
use ac_simplex::{Effort, Found, USUAL, attempt};
use std::alloc::{AllocError, Global};
use std::test::Fail;

/// No pivot and no cut.
const NONE: Effort = Effort {
    pivots: 0,
    cuts: 0,
    cells: 20_000,
};

/// The conjunction of bounds, each by its constant and then its coefficients.
fn bounds(alloc: Global, columns: usize, bounds: &[&[i128]]) -> Result<Conj, AllocError> {
    let mut rows = Items::new(alloc);
    for bound in bounds {
        if let [konst, coefs @ ..] = *bound {
            rows.push(Row::Ge(Form::from_parts(alloc, *konst, coefs)?))?;
        }
    }
    Ok(Conj { columns, rows })
}

/// Adds a row.
fn with_row(conj: Conj, row: Row) -> Result<Conj, AllocError> {
    let mut conj = conj;
    conj.rows.push(row)?;
    Ok(conj)
}

/// What an attempt finds; none also without memory.
fn found(alloc: Global, conj: &Conj, effort: Effort) -> Option<Found> {
    if !conj.is_well_made() {
        return None;
    }
    match attempt(alloc, conj, effort) {
        Ok(found) => found,
        Err(_) => None,
    }
}

/// Whether the letters of a tree's steps are these: a for a sum, c for a cut, q for a quotient, d for the divisibility of a form that
/// is 0, m for what it says of another form.
fn has_steps(tree: &Tree<Absurd>, letters: &[u8]) -> bool {
    if tree.steps.len() != letters.len() {
        return false;
    }
    for (step, letter) in tree.steps.as_slice().iter().zip(letters.iter()) {
        let known = match step {
            Step::Add(_) => b'a',
            Step::Cut(_, _) => b'c',
            Step::Quot(_) => b'q',
            Step::DivEq(_, _) => b'd',
            Step::DivMod(_, _, _, _) => b'm',
            _ => b'-',
        };
        if known != *letter {
            return false;
        }
    }
    true
}

/// Whether an attempt finds a certificate with these steps.
fn is_refuted(alloc: Global, conj: &Conj, effort: Effort, letters: &[u8]) -> bool {
    match found(alloc, conj, effort) {
        Some(Found::Empty(tree)) => has_steps(&tree, letters),
        _ => false,
    }
}

/// Whether an attempt finds this point.
fn is_met(alloc: Global, conj: &Conj, point: &[i128]) -> bool {
    match found(alloc, conj, USUAL) {
        Some(Found::Point(met)) => met.as_slice() == point,
        _ => false,
    }
}

/// Whether an attempt leaves a question open.
fn is_open(alloc: Global, conj: &Conj, effort: Effort) -> bool {
    found(alloc, conj, effort).is_none()
}

#[test]
fn a_circle_of_bounds_is_refuted_by_one_sum(rt: HostRuntime) -> Result<(), Fail> {
    let alloc = rt.alloc();
    // x - y >= 1, y - z >= 0 and z - x >= 0: their sum is 0 >= 1
    let rows: [&[i128]; 3] = [&[-1, 1, -1, 0], &[0, 0, 1, -1], &[0, -1, 0, 1]];
    let conj = bounds(alloc, 3, &rows)?;
    assert!(rt; is_refuted(alloc, &conj, USUAL, b"a"));
    assert!(rt; is_open(alloc, &conj, NONE));
    Ok(())
}

#[test]
fn a_triangle_without_a_point_takes_a_cut(rt: HostRuntime) -> Result<(), Fail> {
    let alloc = rt.alloc();
    // y is from 0 to 3 x - 1 and to 2 - 3 x, so that x is from 1/3 to 2/3
    let rows: [&[i128]; 3] = [&[-1, 3, -1], &[2, -3, -1], &[0, 0, 1]];
    let conj = bounds(alloc, 2, &rows)?;
    assert!(rt; is_refuted(alloc, &conj, USUAL, b"aca"));
    Ok(())
}

#[test]
fn a_number_is_no_multiple_of_3(rt: HostRuntime) -> Result<(), Fail> {
    let alloc = rt.alloc();
    // x is 1 or 2, and 3 divides it: 3 q >= 1 and 3 q <= 2 are q >= 1 and q <= 0
    let rows: [&[i128]; 2] = [&[-1, 1], &[2, -1]];
    let conj = bounds(alloc, 1, &rows)?;
    let conj = with_row(conj, Row::Div(3, Form::from_parts(alloc, 0, &[1])?))?;
    assert!(rt; is_refuted(alloc, &conj, NONE, b"qacaca"));
    Ok(())
}

#[test]
fn an_odd_number_is_not_even(rt: HostRuntime) -> Result<(), Fail> {
    let alloc = rt.alloc();
    // 2 divides x and x - 1: 2 q = x and 2 r = x - 1 give 2 r - 2 q + 1 = 0
    let conj = bounds(alloc, 1, &[])?;
    let conj = with_row(conj, Row::Div(2, Form::from_parts(alloc, 0, &[1])?))?;
    let conj = with_row(conj, Row::Div(2, Form::from_parts(alloc, -1, &[1])?))?;
    assert!(rt; is_refuted(alloc, &conj, NONE, b"qqadm"));
    Ok(())
}

#[test]
fn the_only_point_is_found(rt: HostRuntime) -> Result<(), Fail> {
    let alloc = rt.alloc();
    // x >= 1, y - x >= 0, y <= 1: (1, 1)
    let rows: [&[i128]; 3] = [&[-1, 1, 0], &[0, -1, 1], &[1, 0, -1]];
    let conj = bounds(alloc, 2, &rows)?;
    assert!(rt; is_met(alloc, &conj, &[1, 1]));
    Ok(())
}

#[test]
fn an_equality_takes_out_a_column(rt: HostRuntime) -> Result<(), Fail> {
    let alloc = rt.alloc();
    // x - 2 y = 1 and y is from 3 to 3: (7, 3)
    let rows: [&[i128]; 2] = [&[-3, 0, 1], &[3, 0, -1]];
    let conj = bounds(alloc, 2, &rows)?;
    let conj = with_row(conj, Row::Eq(Form::from_parts(alloc, -1, &[1, -2])?))?;
    assert!(rt; is_met(alloc, &conj, &[7, 3]));
    Ok(())
}

#[test]
fn a_number_past_128_bits_leaves_the_question_open(rt: HostRuntime) -> Result<(), Fail> {
    let alloc = rt.alloc();
    // x = (2^127 - 1) y, so that 2 x >= 1 has a coefficient past 128 bits
    let rows: [&[i128]; 1] = [&[-1, 2, 0]];
    let conj = bounds(alloc, 2, &rows)?;
    let conj = with_row(conj, Row::Eq(Form::from_parts(alloc, 0, &[1, -i128::MAX])?))?;
    assert!(rt; is_open(alloc, &conj, USUAL));
    Ok(())
}
