//! Copies of parts of a tree.
ghost use Rattle.std.specs.Prelude.{◌≡◌, IfOk};

use crate::name::Name;
use crate::tree::{IndexExpr, Quot, Symbol, Value};
use ac_base::Items;
use std::alloc::{AllocError, Global};

/// The same symbol.
pub fn copy_symbol(alloc: Global, symbol: &Symbol) -> Result<Symbol, AllocError>
    ensures { IfOk result (λ copy. copy ≡ symbol.now) }
{
    Ok(Symbol {
        name: symbol.name.copy(alloc)?,
        arity: symbol.arity,
    })
}

/// The same quotient.
pub fn copy_quot(alloc: Global, quot: &Quot) -> Result<Quot, AllocError>
    ensures { IfOk result (λ copy. copy ≡ quot.now) }
{
    Ok(Quot {
        coef: quot.coef,
        konst: quot.konst,
        params: Items::from_slice(alloc, quot.params.as_slice())?,
        iters: Items::from_slice(alloc, quot.iters.as_slice())?,
        div: quot.div,
        place: quot.place,
    })
}

/// The same quotients, in order.
pub fn copy_quots(alloc: Global, quots: &[Quot]) -> Result<Items<Quot>, AllocError>
    ensures { IfOk result (λ copies. copies ≡ quots.now) }
{
    let mut copies = Items::new(alloc);
    for quot in quots {
        copies.push(copy_quot(alloc, quot)?)?;
    }
    Ok(copies)
}

/// The same index expression.
pub fn copy_index_expr(alloc: Global, form: &IndexExpr) -> Result<IndexExpr, AllocError>
    ensures { IfOk result (λ copy. copy ≡ form.now) }
{
    Ok(IndexExpr {
        konst: form.konst,
        params: Items::from_slice(alloc, form.params.as_slice())?,
        iters: Items::from_slice(alloc, form.iters.as_slice())?,
        quots: copy_quots(alloc, form.quots.as_slice())?,
        place: form.place,
    })
}

/// The same index expressions, in order.
pub fn copy_index_exprs(alloc: Global, forms: &[IndexExpr]) -> Result<Items<IndexExpr>, AllocError>
    ensures { IfOk result (λ copies. copies ≡ forms.now) }
{
    let mut copies = Items::new(alloc);
    for form in forms {
        copies.push(copy_index_expr(alloc, form)?)?;
    }
    Ok(copies)
}

/// The same value.
#[cycle(copy)]
pub fn copy_value(alloc: Global, value: &Value) -> Result<Value, AllocError>
    ensures { IfOk result (λ copy. copy ≡ value.now) }
{
    match value {
        Value::Number(form) => Ok(Value::Number(copy_index_expr(alloc, form)?)),
        Value::Access { array, subs, place } => Ok(Value::Access {
            array: *array,
            subs: copy_index_exprs(alloc, subs.as_slice())?,
            place: *place,
        }),
        Value::Call {
            symbol,
            args,
            place,
        } => Ok(Value::Call {
            symbol: copy_symbol(alloc, symbol)?,
            args: copy_values(alloc, args.as_slice())?,
            place: *place,
        }),
    }
}

/// The same values, in order.
#[cycle(copy)]
pub fn copy_values(alloc: Global, values: &[Value]) -> Result<Items<Value>, AllocError>
    ensures { IfOk result (λ copies. copies ≡ values.now) }
{
    let mut copies = Items::new(alloc);
    for value in values {
        copies.push(copy_value(alloc, value)?)?;
    }
    Ok(copies)
}
