//! The thresholds and the moduli of a program with quotients, made from its parts. The answers were worked out by hand.

use crate::programs::{HERE, at_least, empty, form, name, one};
use ac_base::Items;
use ac_hull::{moduli, thresholds};
use ac_syntax::make::{assign, branch, cond, for_loop, index_expr, quot};
use ac_syntax::tree::{Comparison, Pair, Program, Quot, Rel, Stmt, Value};
use std::alloc::Global;

/// Those at 0, 1 and -1, then at the divisors 9 and 12, then at the constants 100 and 200.
const THRESHOLDS: &[i128] = &[
    0, 1, -1, 2, -2, 8, -8, 9, -9, 10, -10, 11, -11, 12, -12, 13, -13, 99, -99, 100, -100, 101,
    -101, 199, -199, 200, -200, 201, -201,
];

/// Those of the form that the quotient divides, what it is multiplied by, and the two divisors beside the coefficient 11.
const MODULI: &[i128] = &[3, 5, 7, 9, 11, 12];

/// 5*floord(7*N + 3*i + 100, 9)
fn quotient(alloc: Global) -> Option<Quot> {
    let params = one(alloc, 7)?;
    Some(quot(5, 100, params, one(alloc, 3)?, 9, HERE))
}

/// The assignment of 0 to the cell that the quotient names.
fn assignment(alloc: Global) -> Option<Stmt> {
    let params = one(alloc, 0)?;
    let iters = one(alloc, 0)?;
    let quots = one(alloc, quotient(alloc)?)?;
    let subs = one(alloc, index_expr(0, params, iters, quots, HERE))?;
    Some(assign(0, subs, Value::Number(form(alloc, 0, 0, 0)?), HERE))
}

/// The assignment, where 12 divides 11*i + 200.
fn inner(alloc: Global) -> Option<Stmt> {
    let form = form(alloc, 200, 0, 11)?;
    let rel = Rel::Divides(12);
    let test = cond(one(alloc, Comparison { form, rel })?);
    let taken = one(alloc, assignment(alloc)?)?;
    Some(branch(test, taken, Vec::new(alloc), HERE))
}

/// The loop over i from 0 to N - 1.
fn body(alloc: Global) -> Option<Stmt> {
    let inner = one(alloc, inner(alloc)?)?;
    let start = form(alloc, 0, 0, 0)?;
    let until = at_least(alloc, -1, 1, -1)?;
    Some(for_loop(name(alloc, b"i")?, start, until, 1, inner, HERE))
}

/// The program of that loop.
fn program(alloc: Global) -> Option<Program> {
    let mut program = empty(alloc)?;
    program.params.push(name(alloc, b"N")?).ok()?;
    program.body.push(body(alloc)?).ok()?;
    Some(program)
}

/// The program beside one that has no number.
fn pair(alloc: Global) -> Option<Pair> {
    Some(Pair {
        left: program(alloc)?,
        right: empty(alloc)?,
        context: cond(Vec::new(alloc)),
        commutative: Items::new(alloc),
        outputs: Items::new(alloc),
    })
}

/// Whether the pair has these thresholds.
fn has_thresholds(alloc: Global, pair: &Pair) -> bool {
    match thresholds(alloc, pair) {
        Ok(made) => made.as_slice() == THRESHOLDS,
        Err(_) => false,
    }
}

/// Whether the pair has these moduli.
fn has_moduli(alloc: Global, pair: &Pair) -> bool {
    match moduli(alloc, pair) {
        Ok(made) => made.as_slice() == MODULI,
        Err(_) => false,
    }
}

#[test]
fn the_numbers_of_quotients_are_thresholds_and_moduli(rt: HostRuntime) {
    let Some(pair) = pair(rt.alloc()) else {
        panic!(rt; "no memory");
    };
    assert!(rt; has_thresholds(rt.alloc(), &pair));
    assert!(rt; has_moduli(rt.alloc(), &pair));
}
