//! Trees from their parts, without taking memory.
ghost use Rattle.std.specs.Prelude.{◌≡◌};
ghost use Rattle.ac_syntax.specs.declared.tree.Value.TheVariants as value;
ghost use Rattle.ac_syntax.specs.declared.tree.Stmt.TheVariants as stmt;

use crate::name::Name;
use crate::tree::{Comparison, Cond, IndexExpr, Place, Quot, Stmt, Symbol, Value};
use ac_base::Items;

/// A quotient: what it is multiplied by, the constant and the coefficients of its form, and its divisor.
pub fn quot(
    coef: i64,
    konst: i64,
    params: Vec<i64>,
    iters: Vec<i64>,
    div: i64,
    place: Place,
) -> Quot
    ensures { result ≡ record { coef = coef; konst = konst; params = params.items; iters = iters.items; div = div; place = place } }
{
    Quot {
        coef,
        konst,
        params: Items::from(params),
        iters: Items::from(iters),
        div,
        place,
    }
}

/// An index expression: a constant, the coefficients of the parameters and those of the iterators, the outermost first,
/// and the quotients.
pub fn index_expr(
    konst: i64,
    params: Vec<i64>,
    iters: Vec<i64>,
    quots: Vec<Quot>,
    place: Place,
) -> IndexExpr
    ensures { result ≡ record { konst = konst; params = params.items; iters = iters.items; quots = quots.items; place = place } }
{
    IndexExpr {
        konst,
        params: Items::from(params),
        iters: Items::from(iters),
        quots: Items::from(quots),
        place,
    }
}

/// The conjunction of comparisons, in order.
pub fn cond(parts: Vec<Comparison>) -> Cond
    ensures { result ≡ record { parts = parts.items } }
{
    Cond {
        parts: Items::from(parts),
    }
}

/// A read of a cell of an array.
pub fn access(array: usize, subs: Vec<IndexExpr>, place: Place) -> Value
    ensures { result ≡ value.Access array subs.items place }
{
    Value::Access {
        array,
        subs: Items::from(subs),
        place,
    }
}

/// A symbol applied to arguments, in order.
pub fn call(symbol: Symbol, args: Vec<Value>, place: Place) -> Value
    ensures { result ≡ value.Call symbol args.items place }
{
    Value::Call {
        symbol,
        args: Items::from(args),
        place,
    }
}

/// An assignment of a value to a cell of an array.
pub fn assign(array: usize, subs: Vec<IndexExpr>, value: Value, place: Place) -> Stmt
    ensures { result ≡ stmt.Assign array subs.items value place }
{
    Stmt::Assign {
        array,
        subs: Items::from(subs),
        value,
        place,
    }
}

/// A branch: the statements where the condition holds, and those where it does not.
pub fn branch(cond: Cond, taken: Vec<Stmt>, other: Vec<Stmt>, place: Place) -> Stmt
    ensures { result ≡ stmt.If cond taken.items other.items place }
{
    Stmt::If {
        cond,
        taken: Items::from(taken),
        other: Items::from(other),
        place,
    }
}

/// A loop of `iter` from `start` on, as long as the condition holds, by `step` a turn.
pub fn for_loop(
    iter: Name,
    start: IndexExpr,
    cond: Cond,
    step: i64,
    body: Vec<Stmt>,
    place: Place,
) -> Stmt
    ensures { result ≡ stmt.For iter start cond step body.items place }
{
    Stmt::For {
        iter,
        start,
        cond,
        step,
        body: Items::from(body),
        place,
    }
}
