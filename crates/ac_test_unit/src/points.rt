//! The pieces of assignments with quotients, point by point, beside instances that were listed by hand.
//!
//! A point is the parameter N, and then three coordinates: the counters of the loops, and behind them the quotients.

use crate::programs::{HERE, one};
use ac_base::Items;
use ac_forms::Row;
use ac_poly_quotients::last::{finals, first_quotient, placed_pieces, places, quotient_rows};
use ac_poly_quotients::own::own_quots;
use ac_poly_quotients::scopes::{in_loop, outermost, where_fails, with_quots};
use ac_poly_quotients::{Column, Scope};
use ac_syntax::make::{cond, index_expr, quot};
use ac_syntax::tree::{Comparison, Cond, IndexExpr, Quot, Rel, Value};
use std::alloc::Global;

// ---- points of pieces

/// The numbers that each coordinate is tried at.
const CANDIDATES: &[i128] = &[-5, -4, -3, -2, -1, 0, 1, 2, 3, 4, 5];

/// Whether all rows hold at a point.
fn contains(piece: &[Row], point: &[i128]) -> bool {
    for row in piece {
        if !row.is_over(point.len()) {
            return false;
        }
        match row.holds_at(point) {
            Ok(true) => {}
            _ => return false,
        }
    }
    true
}

/// How many pieces contain a point.
fn pieces_at(pieces: &[Items<Row>], point: &[i128]) -> usize {
    let mut count = 0usize;
    for piece in pieces {
        if contains(piece.as_slice(), point) {
            count = count.saturating_add(1);
        }
    }
    count
}

/// Whether a point is in the list.
fn is_listed(listed: &[[i128; 4]], point: &[i128]) -> bool {
    for one in listed {
        if one.as_slice() == point {
            return true;
        }
    }
    false
}

/// Whether a point is in one piece if it is in the list, and else in none.
fn agrees(pieces: &[Items<Row>], listed: &[[i128; 4]], point: &[i128]) -> bool {
    let expected = if is_listed(listed, point) { 1 } else { 0 };
    pieces_at(pieces, point) == expected
}

/// Whether that is so for all candidates behind three numbers.
fn agree_behind(pieces: &[Items<Row>], listed: &[[i128; 4]], n: i128, i: i128, j: i128) -> bool {
    for k in CANDIDATES {
        if !agrees(pieces, listed, &[n, i, j, *k]) {
            return false;
        }
    }
    true
}

/// Whether that is so for all candidates behind two numbers.
fn agree_in_plane(pieces: &[Items<Row>], listed: &[[i128; 4]], n: i128, i: i128) -> bool {
    for j in CANDIDATES {
        if !agree_behind(pieces, listed, n, i, *j) {
            return false;
        }
    }
    true
}

/// Whether that is so for all candidates at one size.
fn agree_at(pieces: &[Items<Row>], listed: &[[i128; 4]], n: i128) -> bool {
    for i in CANDIDATES {
        if !agree_in_plane(pieces, listed, n, *i) {
            return false;
        }
    }
    true
}

/// Whether the listed points are those of the pieces at these sizes, each in one piece.
fn are_points(pieces: &[Items<Row>], listed: &[[i128; 4]], sizes: &[i128]) -> bool {
    for n in sizes {
        if !agree_at(pieces, listed, *n) {
            return false;
        }
    }
    true
}

/// The pieces of an assignment in its scope, over N, the counters and the quotients.
///
/// There is none if there is no memory, as in all that follows.
fn pieces_of(alloc: Global, scope: &Scope) -> Option<Items<Items<Row>>> {
    let places = places(alloc, scope).ok()?;
    let ks = places.as_slice();
    let quots = finals(alloc, ks, scope.columns.as_slice()).ok()?;
    let first = first_quotient(scope).ok()?;
    let rows = quotient_rows(alloc, first, quots.as_slice()).ok()?;
    placed_pieces(alloc, ks, rows.as_slice(), scope.pieces.as_slice()).ok()
}

/// Whether the listed points are those of an assignment in its scope at these sizes.
fn has_points(alloc: Global, scope: &Scope, listed: &[[i128; 4]], sizes: &[i128]) -> bool {
    match pieces_of(alloc, scope) {
        Some(pieces) => are_points(pieces.as_slice(), listed, sizes),
        None => false,
    }
}

// ---- parts of programs

/// The quotient of `konst + param N + iters` by `div`, rounded down.
fn quotient(alloc: Global, konst: i64, param: i64, iters: &[i64], div: i64) -> Option<Quot> {
    let params = one(alloc, param)?;
    let iters = Vec::from_slice(alloc, iters).ok()?;
    Some(quot(1, konst, params, iters, div, HERE))
}

/// The form `konst + param N + iters` and quotients.
fn sum(
    alloc: Global,
    konst: i64,
    param: i64,
    iters: &[i64],
    quots: Vec<Quot>,
) -> Option<IndexExpr> {
    let params = one(alloc, param)?;
    let iters = Vec::from_slice(alloc, iters).ok()?;
    Some(index_expr(konst, params, iters, quots, HERE))
}

/// The comparison that such a form is at least 0.
fn at_least(
    alloc: Global,
    konst: i64,
    param: i64,
    iters: &[i64],
    quots: Vec<Quot>,
) -> Option<Comparison> {
    let form = sum(alloc, konst, param, iters, quots)?;
    let rel = Rel::NonNegative;
    Some(Comparison { form, rel })
}

/// Inside the loop from a number on, as long as the condition holds.
fn in_loop_from(alloc: Global, scope: &Scope, start: i64, until: &Cond) -> Option<Scope> {
    let start = sum(alloc, start, 0, &[], Vec::new(alloc))?;
    in_loop(alloc, scope, scope.loops.len(), &start, until, 1).ok()
}

/// At the assignment of 0 to the cell of one subscript, which is the quotient.
fn at_assignment(alloc: Global, scope: &Scope, quot: Quot) -> Option<Scope> {
    let sub = sum(alloc, 0, 0, &[], one(alloc, quot)?)?;
    let subs = one(alloc, sub)?;
    let value = Value::Number(sum(alloc, 0, 0, &[], Vec::new(alloc))?);
    let quots = own_quots(alloc, subs.as_slice(), &value).ok()?;
    with_quots(alloc, scope, quots.as_slice()).ok()
}

// ---- quotients of negative numbers

/// for (i = -3; i <= floord(N, 2); i++) A[floord(i, 2)] = 0;
///
/// The bound is -4 at N = -7, and -3 at -6 and -5. It is -2 at -4 and -3, and -1 at -2 and -1. It is 0 at 0 and 1.
/// The subscript is -2 in turn 0, since i is -3 there. It is -1 in turns 1 and 2, and 0 in turn 3.
/// A point is N, the turn, the bound and the subscript.
const HALVES: &[[i128; 4]] = &[
    [-6, 0, -3, -2],
    [-5, 0, -3, -2],
    [-4, 0, -2, -2],
    [-4, 1, -2, -1],
    [-3, 0, -2, -2],
    [-3, 1, -2, -1],
    [-2, 0, -1, -2],
    [-2, 1, -1, -1],
    [-2, 2, -1, -1],
    [-1, 0, -1, -2],
    [-1, 1, -1, -1],
    [-1, 2, -1, -1],
    [0, 0, 0, -2],
    [0, 1, 0, -1],
    [0, 2, 0, -1],
    [0, 3, 0, 0],
    [1, 0, 0, -2],
    [1, 1, 0, -1],
    [1, 2, 0, -1],
    [1, 3, 0, 0],
];

/// Inside that loop.
fn in_halves(alloc: Global) -> Option<Scope> {
    let bound = one(alloc, quotient(alloc, 0, 1, &[], 2)?)?;
    let until = cond(one(alloc, at_least(alloc, 0, 0, &[-1], bound)?)?);
    let around = outermost(alloc, 1).ok()?;
    in_loop_from(alloc, &around, -3, &until)
}

/// At its assignment.
fn halves(alloc: Global) -> Option<Scope> {
    let around = in_halves(alloc)?;
    at_assignment(alloc, &around, quotient(alloc, 0, 0, &[1], 2)?)
}

#[test]
fn quotients_of_negative_numbers_have_their_points(rt: HostRuntime) {
    let Some(scope) = halves(rt.alloc()) else {
        panic!(rt; "no memory");
    };
    let sizes = [-7, -6, -5, -4, -3, -2, -1, 0, 1];
    assert!(rt; has_points(rt.alloc(), &scope, HALVES, &sizes));
}

// ---- tiles

/// for (t = 0; t <= floord(N - 1, 4); t++) for (i = 4*t; i < 4*t + 4 && i < N; i++) A[0] = 0;
///
/// The bound is -1 at N = -3, -1 and 0. It is 0 from 1 to 4, and 1 at 5 and 6.
/// Tile 0 has the turns from 0 to N - 1, but none behind 3. Tile 1 has those from 0 to N - 5.
/// A point is N, the tile, the turn in it and the bound.
const TILES: &[[i128; 4]] = &[
    [1, 0, 0, 0],
    [2, 0, 0, 0],
    [2, 0, 1, 0],
    [4, 0, 0, 0],
    [4, 0, 1, 0],
    [4, 0, 2, 0],
    [4, 0, 3, 0],
    [5, 0, 0, 1],
    [5, 0, 1, 1],
    [5, 0, 2, 1],
    [5, 0, 3, 1],
    [5, 1, 0, 1],
    [6, 0, 0, 1],
    [6, 0, 1, 1],
    [6, 0, 2, 1],
    [6, 0, 3, 1],
    [6, 1, 0, 1],
    [6, 1, 1, 1],
];

/// The same with i <= N in the inner loop, at N = 0 and 4.
///
/// The quotient alone keeps i = 0 out at N = 0, and i = 4 at N = 4.
const CUT_TILES: &[[i128; 4]] = &[[4, 0, 0, 0], [4, 0, 1, 0], [4, 0, 2, 0], [4, 0, 3, 0]];

/// Inside the loop over tiles.
fn in_tiles(alloc: Global) -> Option<Scope> {
    let bound = one(alloc, quotient(alloc, -1, 1, &[], 4)?)?;
    let until = cond(one(alloc, at_least(alloc, 0, 0, &[-1], bound)?)?);
    let around = outermost(alloc, 1).ok()?;
    in_loop_from(alloc, &around, 0, &until)
}

/// i < 4*t + 4 && i <= N + konst
fn within_tile(alloc: Global, konst: i64) -> Option<Cond> {
    let mut parts = one(alloc, at_least(alloc, 3, 0, &[4, -1], Vec::new(alloc))?)?;
    let up_to = at_least(alloc, konst, 1, &[0, -1], Vec::new(alloc))?;
    parts.push(up_to).ok()?;
    Some(cond(parts))
}

/// Inside both loops.
fn tiles(alloc: Global, konst: i64) -> Option<Scope> {
    let around = in_tiles(alloc)?;
    let until = within_tile(alloc, konst)?;
    let start = sum(alloc, 0, 0, &[4], Vec::new(alloc))?;
    in_loop(alloc, &around, 1, &start, &until, 1).ok()
}

#[test]
fn tiles_have_their_points(rt: HostRuntime) {
    let Some(scope) = tiles(rt.alloc(), -1) else {
        panic!(rt; "no memory");
    };
    let sizes = [-3, -1, 0, 1, 2, 4, 5, 6];
    assert!(rt; has_points(rt.alloc(), &scope, TILES, &sizes));
}

#[test]
fn tiles_end_at_a_quotient(rt: HostRuntime) {
    let Some(scope) = tiles(rt.alloc(), 0) else {
        panic!(rt; "no memory");
    };
    assert!(rt; has_points(rt.alloc(), &scope, CUT_TILES, &[0, 4]));
}

// ---- where a number does not divide

/// for (i = 0; i < N; i++) for (j = 0; j < 2; j++) if ((i - j) % 3 == 0) ; else A[0] = 0;
///
/// The difference i - j is -1, 1, 2, 1, 2 and 4 at the i and j listed for N = 5. It is 0 or 3 at the others.
/// A point is N, i, j and floord(i - j, 3).
const APART: &[[i128; 4]] = &[
    [1, 0, 1, -1],
    [3, 0, 1, -1],
    [3, 1, 0, 0],
    [3, 2, 0, 0],
    [3, 2, 1, 0],
    [5, 0, 1, -1],
    [5, 1, 0, 0],
    [5, 2, 0, 0],
    [5, 2, 1, 0],
    [5, 3, 1, 0],
    [5, 4, 0, 1],
];

/// Inside the loop over i.
fn in_rows(alloc: Global) -> Option<Scope> {
    let part = at_least(alloc, -1, 1, &[-1], Vec::new(alloc))?;
    let until = cond(one(alloc, part)?);
    let around = outermost(alloc, 1).ok()?;
    in_loop_from(alloc, &around, 0, &until)
}

/// Inside both loops.
fn in_both(alloc: Global) -> Option<Scope> {
    let around = in_rows(alloc)?;
    let part = at_least(alloc, 1, 0, &[0, -1], Vec::new(alloc))?;
    in_loop_from(alloc, &around, 0, &cond(one(alloc, part)?))
}

/// In the else of the branch.
fn apart(alloc: Global) -> Option<Scope> {
    let around = in_both(alloc)?;
    let form = sum(alloc, 0, 0, &[1, -1], Vec::new(alloc))?;
    let rel = Rel::Divides(3);
    let test = cond(one(alloc, Comparison { form, rel })?);
    where_fails(alloc, &around, &test).ok()
}

#[test]
fn an_else_has_the_points_that_a_number_does_not_divide(rt: HostRuntime) {
    let Some(scope) = apart(rt.alloc()) else {
        panic!(rt; "no memory");
    };
    let sizes = [-1, 0, 1, 3, 5];
    assert!(rt; has_points(rt.alloc(), &scope, APART, &sizes));
}

// ---- equal quotients

/// for (i = 0; i <= floord(N, 3); i++) for (j = 0; i + j <= floord(N, 3); j++) A[floord(N, 3)] = 0;
///
/// The quotient is -1 at N = -1, 0 at 0 and 2, 1 at 3 and 5, and 2 at 6.
/// A point is N, i, j and the quotient, which stands there once.
const THIRDS: &[[i128; 4]] = &[
    [0, 0, 0, 0],
    [2, 0, 0, 0],
    [3, 0, 0, 1],
    [3, 0, 1, 1],
    [3, 1, 0, 1],
    [5, 0, 0, 1],
    [5, 0, 1, 1],
    [5, 1, 0, 1],
    [6, 0, 0, 2],
    [6, 0, 1, 2],
    [6, 0, 2, 2],
    [6, 1, 0, 2],
    [6, 1, 1, 2],
    [6, 2, 0, 2],
];

/// Inside a loop from 0 on, as long as floord(N, 3) + iters is at least 0.
fn to_third(alloc: Global, scope: &Scope, iters: &[i64]) -> Option<Scope> {
    let bound = one(alloc, quotient(alloc, 0, 1, &[], 3)?)?;
    let until = cond(one(alloc, at_least(alloc, 0, 0, iters, bound)?)?);
    in_loop_from(alloc, scope, 0, &until)
}

/// At the assignment.
fn thirds(alloc: Global) -> Option<Scope> {
    let around = outermost(alloc, 1).ok()?;
    let outer = to_third(alloc, &around, &[-1])?;
    let inner = to_third(alloc, &outer, &[-1, -1])?;
    at_assignment(alloc, &inner, quotient(alloc, 0, 1, &[], 3)?)
}

/// Whether the columns are a counter, a quotient and a counter, of which the quotient comes to stand last.
fn is_moved_behind(alloc: Global, scope: &Scope) -> bool {
    let is_between = matches!(
        scope.columns.as_slice(),
        [Column::Counter, Column::Quotient(_), Column::Counter]
    );
    match places(alloc, scope) {
        Ok(ks) => is_between && ks.as_slice() == [0, 1, 3, 2].as_slice(),
        Err(_) => false,
    }
}

#[test]
fn equal_quotients_have_one_coordinate_behind_the_counters(rt: HostRuntime) {
    let Some(scope) = thirds(rt.alloc()) else {
        panic!(rt; "no memory");
    };
    let sizes = [-1, 0, 2, 3, 5, 6];
    assert!(rt; is_moved_behind(rt.alloc(), &scope));
    assert!(rt; has_points(rt.alloc(), &scope, THIRDS, &sizes));
}
