//! Template rows, the rows that a point meets, and the points of a hull.

use crate::rows::{is_at_least, is_even};
use ac_base::Items;
use ac_forms::{Conj, Row};
use ac_hull::{Hull, narrow, template};
use std::alloc::Global;

/// Whether the rows are the template over one column with the thresholds 0 and 1 and the modulus 2, in its order: first
/// column less second column plus threshold, where column 1 is the constant 0.
fn are_wanted(rows: &[Row]) -> bool {
    match rows {
        [first, second, third, fourth, fifth, sixth] => {
            is_at_least(first, 0, &[1])
                && is_at_least(second, 1, &[1])
                && is_even(third, 0, &[1])
                && is_even(fourth, 1, &[1])
                && is_at_least(fifth, 0, &[-1])
                && is_at_least(sixth, 1, &[-1])
        }
        _ => false,
    }
}

/// Whether the rows that are met are the first, the second and the fourth of the template.
fn are_three_of(met: &[Row], rows: &[Row]) -> bool {
    match (met, rows) {
        ([one, other, last], [first, second, _, fourth, ..]) => {
            *one == *first && *other == *second && *last == *fourth
        }
        _ => false,
    }
}

/// Whether 3 meets those of the rows. 3 >= 0, 4 >= 0 and 2 | 4 hold; 2 | 3, -3 >= 0 and -2 >= 0 do not.
fn are_met(alloc: Global, rows: Items<Row>) -> bool {
    let conj = Conj { columns: 1, rows };
    if !conj.is_well_made() {
        return false;
    }
    match narrow(alloc, conj.rows.as_slice(), &[3]) {
        Ok(met) => are_three_of(met.as_slice(), conj.rows.as_slice()),
        Err(_) => false,
    }
}

#[test]
fn a_point_keeps_the_template_rows_that_it_meets(rt: HostRuntime) {
    let Ok(rows) = template(rt.alloc(), 1, &[0, 1], &[2]) else {
        panic!(rt; "no memory");
    };
    assert!(rt; are_wanted(rows.as_slice()));
    assert!(rt; are_met(rt.alloc(), rows));
}

/// Whether the point can be added, and the answer says so of the hull's growth.
fn adds(hull: &mut Hull, point: &[i128], grew: bool) -> bool {
    if hull.columns() != point.len() {
        return false;
    }
    match hull.add(point) {
        Ok(answer) => answer == grew,
        Err(_) => false,
    }
}

/// Whether the answer on a point is this one.
fn answers(hull: &Hull, point: &[i128], is_in: bool) -> bool {
    if hull.columns() != point.len() {
        return false;
    }
    match hull.contains(point) {
        Ok(answer) => answer == is_in,
        Err(_) => false,
    }
}

/// Whether two points make the empty hull grow, and a third on their line does not.
fn grows_twice(hull: &mut Hull) -> bool {
    answers(hull, &[0, 0], false)
        && adds(hull, &[1, 2], true)
        && adds(hull, &[3, 6], true)
        && adds(hull, &[5, 10], false)
}

#[test]
fn a_hull_has_the_line_through_two_points(rt: HostRuntime) {
    let mut hull = Hull::new(rt.alloc(), 2);
    assert!(rt; hull.columns() == 2 && grows_twice(&mut hull) && hull.columns() == 2);
    assert!(rt; answers(&hull, &[-4, -8], true) && answers(&hull, &[2, 5], false));
}
