//! Copies of parts of a program.
ghost use Rattle.std.specs.Prelude.{◌≡◌, ◌++◌, IfOk};

use ac_base::Items;
use ac_syntax::copy::{copy_index_expr, copy_index_exprs};
use ac_syntax::name::Name;
use ac_syntax::tree::{Array, Comparison, Cond};
use std::alloc::{AllocError, Global};

/// The same condition.
pub(crate) fn copy_cond(alloc: Global, cond: &Cond) -> Result<Cond, AllocError>
    ensures { IfOk result (λ copy. copy ≡ cond.now) }
{
    Ok(Cond {
        parts: copy_comparisons(alloc, cond.parts.as_slice())?,
    })
}

/// The same comparisons, in order.
fn copy_comparisons(
    alloc: Global,
    comparisons: &[Comparison],
) -> Result<Items<Comparison>, AllocError>
    ensures { IfOk result (λ copies. copies ≡ comparisons.now) }
{
    let mut copies = Items::new(alloc);
    for comparison in comparisons {
        copies.push(Comparison {
            form: copy_index_expr(alloc, &comparison.form)?,
            rel: comparison.rel,
        })?;
    }
    Ok(copies)
}

/// The names of both, in order.
pub(crate) fn joined_names(
    alloc: Global,
    first: &[Name],
    second: &[Name],
) -> Result<Items<Name>, AllocError>
    ensures { IfOk result (λ copies. copies ≡ first.now ++ second.now) }
{
    let mut copies = Items::new(alloc);
    for name in first {
        copies.push(name.copy(alloc)?)?;
    }
    for name in second {
        copies.push(name.copy(alloc)?)?;
    }
    Ok(copies)
}

/// The same names, in order.
pub(crate) fn copy_names(alloc: Global, names: &[Name]) -> Result<Items<Name>, AllocError>
    ensures { IfOk result (λ copies. copies ≡ names.now) }
{
    let mut copies = Items::new(alloc);
    for name in names {
        copies.push(name.copy(alloc)?)?;
    }
    Ok(copies)
}

/// The same arrays, in order.
pub(crate) fn copy_arrays(alloc: Global, arrays: &[Array]) -> Result<Items<Array>, AllocError>
    ensures { IfOk result (λ copies. copies ≡ arrays.now) }
{
    let mut copies = Items::new(alloc);
    for array in arrays {
        copies.push(Array {
            name: array.name.copy(alloc)?,
            extents: copy_index_exprs(alloc, array.extents.as_slice())?,
            kind: array.kind,
        })?;
    }
    Ok(copies)
}

/// The same outputs, if any are named.
pub(crate) fn copy_outputs(
    alloc: Global,
    outputs: &Option<Items<usize>>,
) -> Result<Option<Items<usize>>, AllocError>
    ensures { IfOk result (λ copy. copy ≡ outputs.now) }
{
    match outputs {
        None => Ok(None),
        Some(numbers) => Ok(Some(Items::from_slice(alloc, numbers.as_slice())?)),
    }
}
