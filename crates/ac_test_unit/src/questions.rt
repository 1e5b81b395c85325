//! Remainders, columns, the choices for a column, cells that are one, steps and splinters.

use crate::rows::{is_at_least, is_equality, push_at_least};
use ac_base::{Items, floor_remainder};
use ac_cert::apply;
use ac_cert::types::Step;
use ac_forms::{Conj, Form, Row};
use ac_omega::{are_columns, choices};
use ac_omega_exact::splinter_count;
use ac_omega_steps::{Choice, are_absurd};
use ac_poly::same_cell;
use std::alloc::{AllocError, Global};

#[test]
fn remainders_are_never_negative(rt: HostRuntime) {
    assert!(rt;
        floor_remainder(7, 3) == 1
            && floor_remainder(6, 3) == 0
            && floor_remainder(-6, 3) == 0
            && floor_remainder(-7, 3) == 2
            && floor_remainder(-1, 3) == 2
    );
}

#[test]
fn columns_are_counted_from_0(rt: HostRuntime) {
    assert!(rt; are_columns(&[], 0) && are_columns(&[2, 0], 3) && !are_columns(&[0, 3], 3));
}

/// Two forms, each of a constant and of coefficients.
fn two_forms(
    alloc: Global,
    constants: [i128; 2],
    first: &[i128],
    second: &[i128],
) -> Result<[Form; 2], AllocError> {
    let form = Form::from_parts(alloc, constants[0], first)?;
    Ok([form, Form::from_parts(alloc, constants[1], second)?])
}

/// Whether the rows are i - j + 1 = 0 and 5 - k = 0.
fn are_equalities(rows: &[Row]) -> bool {
    match rows {
        [first, second] => {
            is_equality(first, 1, &[1, -1, 0]) && is_equality(second, 5, &[0, 0, -1])
        }
        _ => false,
    }
}

/// Whether those subscripts are equated so.
fn are_equated(alloc: Global, first: &[Form], second: &[Form]) -> bool {
    if first.len() != second.len() {
        return false;
    }
    match same_cell(alloc, first, second) {
        Ok(rows) => are_equalities(rows.as_slice()),
        Err(_) => false,
    }
}

#[test]
fn cells_are_one_where_their_subscripts_are(rt: HostRuntime) {
    // A[i + 1][5] and A[j][k]: i - j + 1 = 0 and 5 - k = 0
    let Ok(first) = two_forms(rt.alloc(), [1, 5], &[1, 0, 0], &[0, 0, 0]) else {
        panic!(rt; "no memory");
    };
    let Ok(second) = two_forms(rt.alloc(), [0, 0], &[0, 1, 0], &[0, 0, 1]) else {
        panic!(rt; "no memory");
    };
    assert!(rt; are_equated(rt.alloc(), &first, &second));
}

/// 2 x - y >= 0 and -2 x + y + 1 >= 0
fn bounds(alloc: Global) -> Result<Conj, AllocError> {
    let mut rows = Items::new(alloc);
    push_at_least(alloc, &mut rows, 0, &[2, -1])?;
    push_at_least(alloc, &mut rows, 1, &[-2, 1])?;
    Ok(Conj { columns: 2, rows })
}

/// Whether x has a shadow and one splinter.
fn has_shadow_and_splinter(alloc: Global, conj: &Conj) -> bool {
    if conj.columns != 2 || !conj.is_well_made() || are_absurd(conj.rows.as_slice()) {
        return false;
    }
    match choices(alloc, conj, 0) {
        Ok(found) => {
            found.as_slice() == [Choice::Shadow(0), Choice::Splinter(0, 0, 0)].as_slice()
        }
        Err(_) => false,
    }
}

#[test]
fn a_column_between_two_bounds_has_a_shadow_and_splinters(rt: HostRuntime) {
    match bounds(rt.alloc()) {
        Ok(conj) => assert!(rt; has_shadow_and_splinter(rt.alloc(), &conj)),
        Err(_) => panic!(rt; "no memory"),
    }
}

/// 2 x - 5 >= 0
fn bound(alloc: Global) -> Result<Conj, AllocError> {
    let mut rows = Items::new(alloc);
    push_at_least(alloc, &mut rows, -5, &[2])?;
    Ok(Conj { columns: 1, rows })
}

/// Whether a cut by 2 adds x - 3 >= 0.
fn is_cut(alloc: Global, conj: &Conj) -> bool {
    if !conj.is_well_made() {
        return false;
    }
    match apply(alloc, conj, &Step::Cut(0, 2)) {
        Ok(after) => match after.rows.as_slice() {
            [_, row] => is_at_least(row, -3, &[1]),
            _ => false,
        },
        Err(_) => false,
    }
}

#[test]
fn a_cut_rounds_the_constant_down(rt: HostRuntime) {
    match bound(rt.alloc()) {
        Ok(conj) => assert!(rt; is_cut(rt.alloc(), &conj)),
        Err(_) => panic!(rt; "no memory"),
    }
}

#[test]
fn splinters_are_counted_up_to_what_a_pair_may_lose(rt: HostRuntime) {
    // The numbers from 0 to (3 * 5 - 3 - 5) / 3 = 2; none where a size is 1.
    assert!(rt; splinter_count(3, 5) == 3 && splinter_count(1, 7) == 0);
}
