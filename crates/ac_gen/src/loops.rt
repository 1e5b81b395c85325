//! The loops of a pipeline.
ghost use Rattle.std.specs.Prelude.{◌≡◌, ◌-ℤ◌, [], ◌∷◌, pos, negsuc, codes, IfOk};
ghost use Rattle.ac_syntax.specs.declared.tree.Rel.TheVariants.{NonNegative};
ghost use Rattle.ac_syntax.specs.declared.tree.Stmt.TheVariants as stmt;
ghost use Rattle.ac_syntax.specs.declared.tree.Value.TheVariants as value;
ghost use Rattle.ac_gen.specs.PipelineLoops as spec;

use crate::draws::Stage;
use crate::forms::{NOWHERE, constant, iterator, rest};
use crate::names::{name, numbered};
use ac_base::Items;
use ac_syntax::tree::{Comparison, Cond, IndexExpr, Rel, Stmt, Symbol, Value};
use std::alloc::{AllocError, Global};

/// The list of one item.
pub fn only<T: Drop>(alloc: Global, item: T) -> Result<Items<T>, AllocError>
    ensures { IfOk result (λ list. list ≡ item ∷ []) }
{
    let mut list = Items::new(alloc);
    list.push(item)?;
    Ok(list)
}

/// A read of an array, so many elements ahead of the iterator.
fn read(alloc: Global, source: usize, ahead: i64) -> Result<Value, AllocError>
    ensures { IfOk result (λ read. read ≡ value.Access source (spec.form ahead (pos 0) (pos 1 ∷ []) ∷ []) spec.nowhere) }
{
    let subscript = iterator(alloc, ahead)?;
    Ok(Value::Access {
        array: source,
        subs: only(alloc, subscript)?,
        place: NOWHERE,
    })
}

/// The function with a number, applied to a value.
fn applied(alloc: Global, function: u8, argument: Value) -> Result<Value, AllocError>
    ensures { IfOk result (λ call. call ≡ value.Call (spec.function_symbol function) (argument ∷ []) spec.nowhere) }
{
    let name = numbered(alloc, b'f', function as usize)?;
    Ok(Value::Call {
        symbol: Symbol { name, arity: 1 },
        args: only(alloc, argument)?,
        place: NOWHERE,
    })
}

/// An assignment to an array, so many elements ahead of the iterator.
fn assignment(alloc: Global, target: usize, ahead: i64, written: Value) -> Result<Stmt, AllocError>
    ensures { IfOk result (λ s. s ≡ stmt.Assign target (spec.form ahead (pos 0) (pos 1 ∷ []) ∷ []) written spec.nowhere) }
{
    let subscript = iterator(alloc, ahead)?;
    Ok(Stmt::Assign {
        array: target,
        subs: only(alloc, subscript)?,
        value: written,
        place: NOWHERE,
    })
}

/// The condition that a form is at least 0.
fn at_least_zero(alloc: Global, form: IndexExpr) -> Result<Cond, AllocError>
    ensures { IfOk result (λ cond. cond ≡ record { parts = record { form = form; rel = NonNegative } ∷ [] }) }
{
    let part = Comparison {
        form,
        rel: Rel::NonNegative,
    };
    Ok(Cond {
        parts: only(alloc, part)?,
    })
}

/// A loop over one statement, from a constant on, as long as N and a constant are at least the iterator.
fn counting(alloc: Global, start: i64, last: i64, body: Stmt) -> Result<Stmt, AllocError>
    ensures { IfOk result (λ s. s ≡ stmt.For (codes "i") (spec.form start (pos 0) []) (record { parts = record { form = spec.form last (pos 1) (negsuc 0 ∷ []); rel = NonNegative } ∷ [] }) (pos 1) (body ∷ []) spec.nowhere) }
{
    let body = only(alloc, body)?;
    let bound = rest(alloc, last)?;
    let cond = at_least_zero(alloc, bound)?;
    Ok(Stmt::For {
        iter: name(alloc, b"i")?,
        start: constant(alloc, start)?,
        cond,
        step: 1,
        body,
        place: NOWHERE,
    })
}

/// The difference of two small numbers.
fn difference(a: u32, b: u32) -> i64
    ensures { result ≡ pos a -ℤ pos b }
{
    i64::from(a) - i64::from(b)
}

/// The loop of a stage, shifted as the stage says: which array it reads and which it writes, and how far beyond N it goes.
pub fn stage_loop(
    alloc: Global,
    stage: Stage,
    source: usize,
    target: usize,
    margin: u16,
) -> Result<Stmt, AllocError>
    ensures { IfOk result (λ s. s ≡ spec.statement (spec.shifted stage.shift (spec.copying target stage.function source stage.reach margin))) }
{
    let shift = u32::from(stage.shift);
    let ahead = difference(u32::from(stage.reach), shift);
    let argument = read(alloc, source, ahead)?;
    let call = applied(alloc, stage.function, argument)?;
    let behind = difference(0, shift);
    let body = assignment(alloc, target, behind, call)?;
    counting(
        alloc,
        difference(shift, 0),
        difference(u32::from(margin) + shift, 1),
        body,
    )
}
