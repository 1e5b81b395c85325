//! A program that is made from its parts, and its canonical text.

use ac_base::Items;
use ac_syntax::copy::copy_value;
use ac_syntax::count::assignments_in;
use ac_syntax::make::{access, assign, branch, call, cond, for_loop, index_expr};
use ac_syntax::name::Name;
use ac_syntax::print_program;
use ac_syntax::tree::{
    Array, Comparison, Cond, IndexExpr, Kind, Place, Program, Rel, Slot, Stmt, Symbol, Value,
};
use std::alloc::Global;

pub const HERE: Place = Place { at: 0 };

const TEXT: &[u8] = b"void f(int N, int A[1*N]) {
  for (int i = 0; 1*N + -1*i + -1 >= 0; i += 1) {
    if (-1*i + 2 >= 0) {
      A[1*i] = g(A[1*i + 1], (1));
    } else {
      A[1*i] = (2);
    }
  }
}
";

/// A vector of one item; none where there is no memory.
pub fn one<T: Drop>(alloc: Global, item: T) -> Option<Vec<T>> {
    let mut items = Vec::new(alloc);
    items.push(item).ok()?;
    Some(items)
}

/// A name; none where there is no memory, as in all that follows.
pub fn name(alloc: Global, text: &[u8]) -> Option<Name> {
    Name::new(Vec::from_slice(alloc, text).ok()?)
}

/// The form `konst + param N + iter i`.
pub fn form(alloc: Global, konst: i64, param: i64, iter: i64) -> Option<IndexExpr> {
    let params = one(alloc, param)?;
    let iters = one(alloc, iter)?;
    Some(index_expr(konst, params, iters, Vec::new(alloc), HERE))
}

/// The condition that such a form is at least 0.
pub fn at_least(alloc: Global, konst: i64, param: i64, iter: i64) -> Option<Cond> {
    let form = form(alloc, konst, param, iter)?;
    let rel = Rel::NonNegative;
    Some(cond(one(alloc, Comparison { form, rel })?))
}

/// The subscripts of A[i + konst].
fn subs(alloc: Global, konst: i64) -> Option<Vec<IndexExpr>> {
    one(alloc, form(alloc, konst, 0, 1)?)
}

/// The statements that assign a value to A[i], and no other.
fn assignments(alloc: Global, value: Value) -> Option<Vec<Stmt>> {
    one(alloc, assign(0, subs(alloc, 0)?, value, HERE))
}

/// A[i + 1] and 1
fn arguments(alloc: Global) -> Option<Vec<Value>> {
    let mut values = one(alloc, access(0, subs(alloc, 1)?, HERE))?;
    values.push(Value::Number(form(alloc, 1, 0, 0)?)).ok()?;
    Some(values)
}

/// g(A[i + 1], 1)
fn call_of_two(alloc: Global) -> Option<Value> {
    let args = arguments(alloc)?;
    let name = name(alloc, b"g")?;
    Some(call(Symbol { name, arity: 2 }, args, HERE))
}

/// The body of the loop over i: a branch.
fn inner(alloc: Global) -> Option<Vec<Stmt>> {
    let taken = assignments(alloc, call_of_two(alloc)?)?;
    let other = assignments(alloc, Value::Number(form(alloc, 2, 0, 0)?))?;
    one(
        alloc,
        branch(at_least(alloc, 2, 0, -1)?, taken, other, HERE),
    )
}

/// The loop over i.
fn body(alloc: Global) -> Option<Stmt> {
    let inner = inner(alloc)?;
    let start = form(alloc, 0, 0, 0)?;
    let until = at_least(alloc, -1, 1, -1)?;
    Some(for_loop(name(alloc, b"i")?, start, until, 1, inner, HERE))
}

/// The array A[N].
fn array(alloc: Global) -> Option<Array> {
    let params = one(alloc, 1)?;
    let extent = index_expr(0, params, Vec::new(alloc), Vec::new(alloc), HERE);
    let extents = Items::from(one(alloc, extent)?);
    let name = name(alloc, b"A")?;
    let kind = Kind::Input;
    Some(Array {
        name,
        extents,
        kind,
    })
}

/// The function f of N and A, without both and without a body.
pub fn empty(alloc: Global) -> Option<Program> {
    let name = name(alloc, b"f")?;
    let slots = Items::from_slice(alloc, &[Slot::Param(0), Slot::Array(0)]).ok()?;
    Some(Program {
        name,
        params: Items::new(alloc),
        arrays: Items::new(alloc),
        slots,
        body: Items::new(alloc),
        context: cond(Vec::new(alloc)),
        commutative: Items::new(alloc),
        outputs: None,
    })
}

/// Gives the program N, A and the loop.
fn fill(alloc: Global, program: &mut Program) -> Option<()> {
    program.params.push(name(alloc, b"N")?).ok()?;
    program.arrays.push(array(alloc)?).ok()?;
    program.body.push(body(alloc)?).ok()
}

/// Whether the canonical text of the program is this one, with two assignments.
fn is_printed(alloc: Global, program: &Program) -> bool {
    match print_program(alloc, program) {
        Ok(printed) => {
            printed.as_slice() == TEXT && matches!(assignments_in(program.body.as_slice()), Some(2))
        }
        Err(_) => false,
    }
}

#[test]
fn a_program_has_its_canonical_text(rt: HostRuntime) {
    let Some(mut program) = empty(rt.alloc()) else {
        panic!(rt; "no memory");
    };
    assert!(rt; fill(rt.alloc(), &mut program).is_some() && is_printed(rt.alloc(), &program));
}

/// Whether a copy of the value is equal to it.
fn is_copied(alloc: Global, value: &Value) -> bool {
    match copy_value(alloc, value) {
        Ok(copy) => copy == *value,
        Err(_) => false,
    }
}

#[test]
fn a_copy_of_a_value_is_equal(rt: HostRuntime) {
    match call_of_two(rt.alloc()) {
        Some(value) => assert!(rt; is_copied(rt.alloc(), &value)),
        None => panic!(rt; "no memory"),
    }
}
