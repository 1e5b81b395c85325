//! Quotients and divisors in programs that are made from their parts. The answers were worked out by hand.
use ac_base::Items;
use ac_instance::{Halt, Outcome, Ran, instance};
use ac_syntax::evaluate::rel_holds;
use ac_syntax::make::{assign, branch, cond, for_loop, index_expr, quot};
use ac_syntax::name::Name;
use ac_syntax::tree::{
    Array, Comparison, Cond, IndexExpr, Kind, Pair, Place, Program, Quot, Rel, Slot, Stmt, Value,
};
use std::alloc::Global;
use std::test::Fail;

const HERE: Place = Place { at: 0 };

/// A vector of one item.
fn one<T: Drop>(alloc: Global, item: T) -> Result<Vec<T>, Fail> {
    let mut items = Vec::new(alloc);
    if items.push(item).is_err() {
        return Err("no memory")?;
    }
    Ok(items)
}

fn name(alloc: Global, text: &[u8]) -> Result<Name, Fail> {
    match Name::new(Vec::from_slice(alloc, text)?) {
        Some(name) => Ok(name),
        None => Err("a name")?,
    }
}

// ---- values

/// The quotient of `konst + param N + iter i` by `div`, rounded down.
fn quotient(alloc: Global, konst: i64, param: i64, iter: i64, div: i64) -> Result<Quot, Fail> {
    let params = one(alloc, param)?;
    Ok(quot(1, konst, params, one(alloc, iter)?, div, HERE))
}

/// Whether the quotient of i by 4 has this value at i.
fn is_fourth(alloc: Global, i: i64, expected: i128) -> Result<bool, Fail> {
    let quotient = quotient(alloc, 0, 0, 1, 4)?;
    match quotient.value(&[0], &[i]) {
        Some(value) => Ok(value == expected),
        None => Ok(false),
    }
}

#[test]
fn quotients_round_down(rt: HostRuntime) -> Result<(), Fail> {
    let alloc = rt.alloc();
    assert!(rt; is_fourth(alloc, 8, 2)? && is_fourth(alloc, 7, 1)?);
    assert!(rt; is_fourth(alloc, 0, 0)? && is_fourth(alloc, -1, -1)?);
    assert!(rt; is_fourth(alloc, -4, -1)? && is_fourth(alloc, -5, -2)?);
    Ok(())
}

/// The form `konst + param N + iter i` and quotients.
fn form(
    alloc: Global,
    konst: i64,
    param: i64,
    iter: i64,
    quots: Vec<Quot>,
) -> Result<IndexExpr, Fail> {
    let params = one(alloc, param)?;
    Ok(index_expr(konst, params, one(alloc, iter)?, quots, HERE))
}

#[test]
fn a_quotient_is_multiplied(rt: HostRuntime) -> Result<(), Fail> {
    let alloc = rt.alloc();
    // 7 + i - 3*floord(N + 2*i - 5, 3) at N = 1 and i = -2: the quotient of -8 by 3 is -3
    let mut part = quotient(alloc, -5, 1, 2, 3)?;
    part.coef = -3;
    let whole = form(alloc, 7, 0, 1, one(alloc, part)?)?;
    assert!(rt; matches!(whole.value(&[1], &[-2]), Some(14)));
    Ok(())
}

#[test]
fn a_divisor_below_1_gives_no_value(rt: HostRuntime) -> Result<(), Fail> {
    let alloc = rt.alloc();
    assert!(rt; quotient(alloc, 6, 0, 0, 0)?.value(&[0], &[0]).is_none());
    assert!(rt; quotient(alloc, 6, 0, 0, -2)?.value(&[0], &[0]).is_none());
    Ok(())
}

#[test]
fn divisors_divide_their_multiples(rt: HostRuntime) {
    let thirds = Rel::Divides(3);
    assert!(rt; rel_holds(thirds, 0) && rel_holds(thirds, 6));
    assert!(rt; rel_holds(thirds, -3) && rel_holds(thirds, -9));
    assert!(rt; !rel_holds(thirds, 1) && !rel_holds(thirds, 2));
    assert!(rt; !rel_holds(thirds, -1) && !rel_holds(thirds, -2));
    assert!(rt; rel_holds(Rel::Divides(1), -1) && rel_holds(Rel::Divides(1), 0));
}

// ---- runs

/// A condition of one comparison.
fn only(alloc: Global, form: IndexExpr, rel: Rel) -> Result<Cond, Fail> {
    Ok(cond(one(alloc, Comparison { form, rel })?))
}

/// The statement A[iter i] = 0.
fn zero(alloc: Global, iter: i64) -> Result<Stmt, Fail> {
    let subs = one(alloc, form(alloc, 0, 0, iter, Vec::new(alloc))?)?;
    let value = Value::Number(form(alloc, 0, 0, 0, Vec::new(alloc))?);
    Ok(assign(0, subs, value, HERE))
}

/// The loop over i from 0 while the form is at least 0.
fn counted(alloc: Global, until: IndexExpr, inner: Stmt) -> Result<Vec<Stmt>, Fail> {
    let start = index_expr(0, one(alloc, 0)?, Vec::new(alloc), Vec::new(alloc), HERE);
    let until = only(alloc, until, Rel::NonNegative)?;
    let body = one(alloc, inner)?;
    one(
        alloc,
        for_loop(name(alloc, b"i")?, start, until, 1, body, HERE),
    )
}

/// A[iter i] = 0 for all i from 0 to floord(N, 2).
fn to_half(alloc: Global, iter: i64) -> Result<Vec<Stmt>, Fail> {
    let half = one(alloc, quotient(alloc, 0, 1, 0, 2)?)?;
    counted(alloc, form(alloc, 0, 0, -1, half)?, zero(alloc, iter)?)
}

/// A[i] = 0 for all i from 0 on with 2*i <= N + konst.
fn while_double(alloc: Global, konst: i64) -> Result<Vec<Stmt>, Fail> {
    let until = form(alloc, konst, 1, -2, Vec::new(alloc))?;
    counted(alloc, until, zero(alloc, 1)?)
}

/// A[i] = 0 for all even i from 0 to N.
fn at_even(alloc: Global) -> Result<Vec<Stmt>, Fail> {
    let even = only(
        alloc,
        form(alloc, 0, 0, 1, Vec::new(alloc))?,
        Rel::Divides(2),
    )?;
    let taken = one(alloc, zero(alloc, 1)?)?;
    let tested = branch(even, taken, Vec::new(alloc), HERE);
    counted(alloc, form(alloc, 0, 1, -1, Vec::new(alloc))?, tested)
}

/// The array A[N + 1].
fn array(alloc: Global) -> Result<Array, Fail> {
    let extent = index_expr(1, one(alloc, 1)?, Vec::new(alloc), Vec::new(alloc), HERE);
    let extents = Items::from(one(alloc, extent)?);
    let name = name(alloc, b"A")?;
    let kind = Kind::Input;
    Ok(Array {
        name,
        extents,
        kind,
    })
}

/// The function f of N and A.
fn program(alloc: Global, body: Vec<Stmt>) -> Result<Program, Fail> {
    let name_of = name(alloc, b"f")?;
    let params = Items::from(one(alloc, name(alloc, b"N")?)?);
    let arrays = Items::from(one(alloc, array(alloc)?)?);
    let slots = Items::from_slice(alloc, &[Slot::Param(0), Slot::Array(0)])?;
    Ok(Program {
        name: name_of,
        params,
        arrays,
        slots,
        body: Items::from(body),
        context: cond(Vec::new(alloc)),
        commutative: Items::new(alloc),
        outputs: None,
    })
}

/// The pair of two functions, with the output A.
fn pair(alloc: Global, left: Vec<Stmt>, right: Vec<Stmt>) -> Result<Pair, Fail> {
    let left = program(alloc, left)?;
    let right = program(alloc, right)?;
    Ok(Pair {
        left,
        right,
        context: cond(Vec::new(alloc)),
        commutative: Items::new(alloc),
        outputs: Items::from(one(alloc, 0usize)?),
    })
}

/// What both runs at N give.
fn ran(alloc: Global, left: Vec<Stmt>, right: Vec<Stmt>, n: i64) -> Result<Ran, Fail> {
    let pair = pair(alloc, left, right)?;
    let ran = instance(alloc, &pair, &[n], 1000).map_err(|_| "no halt")?;
    Ok(ran)
}

/// Whether A is equal after so many events.
fn is_equal(ran: &Ran, events: u64) -> bool {
    matches!(ran.outcomes.as_slice().first(), Some(Outcome::Equal)) && ran.events == events
}

/// Whether A[element] is the first that differs.
fn differs(ran: &Ran, element: i64) -> bool {
    match ran.outcomes.as_slice().first() {
        Some(Outcome::Different(index)) => index.as_slice() == &[element][..],
        _ => false,
    }
}

#[test]
fn a_loop_ends_at_a_quotient(rt: HostRuntime) -> Result<(), Fail> {
    let alloc = rt.alloc();
    // three turns and three values on each side, and six elements
    let same = ran(alloc, to_half(alloc, 1)?, while_double(alloc, 0)?, 5)?;
    assert!(rt; is_equal(&same, 18));
    // at an odd N the loop to (N - 1)/2 is the same, at an even one it lacks the last turn
    let odd = ran(alloc, to_half(alloc, 1)?, while_double(alloc, -1)?, 5)?;
    assert!(rt; is_equal(&odd, 18));
    let even = ran(alloc, to_half(alloc, 1)?, while_double(alloc, -1)?, 4)?;
    assert!(rt; differs(&even, 2));
    Ok(())
}

#[test]
fn a_branch_tests_a_divisor(rt: HostRuntime) -> Result<(), Fail> {
    let alloc = rt.alloc();
    // six turns and three values, three turns and three values, and six elements
    let same = ran(alloc, at_even(alloc)?, to_half(alloc, 2)?, 5)?;
    assert!(rt; is_equal(&same, 21));
    let first = ran(alloc, at_even(alloc)?, to_half(alloc, 1)?, 5)?;
    assert!(rt; differs(&first, 1));
    Ok(())
}

/// The statement A[floord(4*N, 4)] = 0.
fn at_all_quarters(alloc: Global) -> Result<Stmt, Fail> {
    let quotient = quotient(alloc, 0, 4, 0, 4)?;
    let subs = one(alloc, form(alloc, 0, 0, 0, one(alloc, quotient)?)?)?;
    let value = Value::Number(form(alloc, 0, 0, 0, Vec::new(alloc))?);
    Ok(assign(0, subs, value, HERE))
}

#[test]
fn the_form_of_a_quotient_is_an_index_value(rt: HostRuntime) -> Result<(), Fail> {
    let alloc = rt.alloc();
    // 4*N is 2^64, and its quotient 2^62
    let left = one(alloc, at_all_quarters(alloc)?)?;
    let pair = pair(alloc, left, Vec::new(alloc))?;
    let ended = instance(alloc, &pair, &[4611686018427387904], 1000);
    assert!(rt;
        matches!(
            ended,
            Err(Halt::Range {
                value: 18446744073709551616,
                ..
            })
        )
    );
    Ok(())
}
