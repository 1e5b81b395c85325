//! Unions and differences of conjunctions over one column.

use crate::rows::push_at_least;
use ac_base::Items;
use ac_forms::Conj;
use ac_sets::{Union, intersect, subtract};
use std::alloc::{AllocError, Global};

/// From `low` to `high`: `x - low >= 0` and `high - x >= 0`.
fn range(alloc: Global, low: i128, high: i128) -> Result<Conj, AllocError> {
    let mut rows = Items::new(alloc);
    push_at_least(alloc, &mut rows, low.wrapping_neg(), &[1])?;
    push_at_least(alloc, &mut rows, high, &[-1])?;
    Ok(Conj { columns: 1, rows })
}

/// The union of two ranges.
fn ranges(alloc: Global, first: (i128, i128), second: (i128, i128)) -> Result<Union, AllocError> {
    let mut pieces = Items::new(alloc);
    pieces.push(range(alloc, first.0, first.1)?)?;
    pieces.push(range(alloc, second.0, second.1)?)?;
    Ok(Union { visible: 1, pieces })
}

/// Whether the answer of the union, which is over one column, on a number is this one.
fn answers(union: &Union, number: i128, is_in: bool) -> bool {
    if !union.is_well_made() || !union.is_within(1) {
        return false;
    }
    match union.contains(&[number]) {
        Ok(answer) => answer == is_in,
        Err(_) => false,
    }
}

/// Whether the union holds each of the numbers, or none of them.
fn answers_on_each(union: &Union, numbers: &[i128], is_in: bool) -> bool {
    for number in numbers {
        if !answers(union, *number, is_in) {
            return false;
        }
    }
    true
}

/// Whether what is common to the unions is in four pieces, holds 2, 3 and 10, and none of 1, 4, 9, 11 and 20.
fn have_common_points(alloc: Global, first: &Union, second: &Union) -> bool {
    if !first.is_well_made() || !second.is_well_made() || first.visible != second.visible {
        return false;
    }
    match intersect(alloc, first, second) {
        Ok(both) => {
            both.visible == 1
                && both.pieces.len() == 4
                && answers_on_each(&both, &[2, 3, 10], true)
                && answers_on_each(&both, &[1, 4, 9, 11, 20], false)
        }
        Err(_) => false,
    }
}

#[test]
fn common_points_are_in_both_unions(rt: HostRuntime) {
    let Ok(first) = ranges(rt.alloc(), (0, 3), (10, 12)) else {
        panic!(rt; "no memory");
    };
    let Ok(second) = ranges(rt.alloc(), (2, 10), (20, 30)) else {
        panic!(rt; "no memory");
    };
    assert!(rt; have_common_points(rt.alloc(), &first, &second));
}

/// Whether the points of the first that the second lacks are those up to 2 and from 6 on.
fn is_split(alloc: Global, first: &Conj, second: &Conj) -> bool {
    if !first.is_well_made() || !second.is_well_made() || first.columns != second.columns {
        return false;
    }
    match subtract(alloc, first, second) {
        Ok(made) => {
            let left = Union {
                visible: 1,
                pieces: made.pieces,
            };
            answers_on_each(&left, &[0, 2, 6, 9], true)
                && answers_on_each(&left, &[-1, 3, 5, 10], false)
        }
        Err(_) => false,
    }
}

#[test]
fn a_difference_has_what_the_second_lacks(rt: HostRuntime) {
    let Ok(first) = range(rt.alloc(), 0, 9) else {
        panic!(rt; "no memory");
    };
    let Ok(second) = range(rt.alloc(), 3, 5) else {
        panic!(rt; "no memory");
    };
    assert!(rt; is_split(rt.alloc(), &first, &second));
}
