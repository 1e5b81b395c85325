// What a pair takes from both of its programs.
ghost use Rattle.std.specs.Prelude.{◌≡◌, ◌++◌, IfOk, OnOk};

use ac_base::Items;
use ac_syntax::copy::copy_quots;
use ac_syntax::name::Name;
use ac_syntax::tree::{Comparison, IndexExpr};
use std::alloc::{AllocError, Global};

fn copy_index(alloc: Global, index: &IndexExpr) -> Result<IndexExpr, AllocError>
    ensures { IfOk result (λ copy. copy ≡ index.now) }
{
    Ok(IndexExpr {
        konst: index.konst,
        params: Items::from_slice(alloc, index.params.as_slice())?,
        iters: Items::from_slice(alloc, index.iters.as_slice())?,
        quots: copy_quots(alloc, index.quots.as_slice())?,
        place: index.place,
    })
}

fn copy_comparison(alloc: Global, comparison: &Comparison) -> Result<Comparison, AllocError>
    ensures { IfOk result (λ copy. copy ≡ comparison.now) }
{
    Ok(Comparison {
        form: copy_index(alloc, &comparison.form)?,
        rel: comparison.rel,
    })
}

fn add_comparisons(
    alloc: Global,
    parts: &mut Items<Comparison>,
    more: &[Comparison],
) -> Result<(), AllocError>
    ensures { OnOk result (parts.new ≡ parts.old ++ more.now) }
{
    for part in more {
        parts.push(copy_comparison(alloc, part)?)?;
    }
    Ok(())
}

/// The comparisons of both, in order.
pub fn join_comparisons(
    alloc: Global,
    left: &[Comparison],
    right: &[Comparison],
) -> Result<Items<Comparison>, AllocError>
    ensures { IfOk result (λ parts. parts ≡ left.now ++ right.now) }
{
    let mut parts = Items::new(alloc);
    add_comparisons(alloc, &mut parts, left)?;
    add_comparisons(alloc, &mut parts, right)?;
    Ok(parts)
}

fn copy_name(alloc: Global, name: &Name) -> Result<Name, AllocError>
    ensures { IfOk result (λ copy. copy ≡ name.now) }
{
    let bytes = name.as_bytes().to_vec(alloc)?;
    Ok(Name::new(bytes).unwrap())
}

fn add_names(alloc: Global, names: &mut Items<Name>, more: &[Name]) -> Result<(), AllocError>
    ensures { OnOk result (names.new ≡ names.old ++ more.now) }
{
    for name in more {
        names.push(copy_name(alloc, name)?)?;
    }
    Ok(())
}

/// The names of both, in order.
pub fn join_names(alloc: Global, left: &[Name], right: &[Name]) -> Result<Items<Name>, AllocError>
    ensures { IfOk result (λ names. names ≡ left.now ++ right.now) }
{
    let mut names = Items::new(alloc);
    add_names(alloc, &mut names, left)?;
    add_names(alloc, &mut names, right)?;
    Ok(names)
}
