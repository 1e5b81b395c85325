//! The items of a proof's parts.
ghost use Rattle.std.specs.Prelude.{◌≡◌, IfOk};
ghost use Rattle.ac_claims.specs.declared.item.Item.TheVariants as item;

use crate::item::Item;
use ac_base::Items;
use ac_cert::types::Step;
use ac_forms::{Form, Row};
use std::alloc::{AllocError, Global};

/// The same step again.
fn copy_step(alloc: Global, step: &Step) -> Result<Step, AllocError>
    ensures { IfOk result (λ made. made ≡ step.now) }
{
    match step {
        Step::Add(sum) => Ok(Step::Add(Items::from_slice(alloc, sum.as_slice())?)),
        Step::Cut(row, by) => Ok(Step::Cut(*row, *by)),
        Step::DivScale(row, by) => Ok(Step::DivScale(*row, *by)),
        Step::DivAdd(row, by, other, by_other) => { Ok(Step::DivAdd(*row, *by, *other, *by_other)) }
        Step::DivMod(row, by, modulus, form) => {
            Ok(Step::DivMod(*row, *by, *modulus, form.copy(alloc)?))
        }
        Step::DivEq(row, by) => Ok(Step::DivEq(*row, *by)),
        Step::Quot(row) => Ok(Step::Quot(*row)),
        Step::Floor(modulus, form) => Ok(Step::Floor(*modulus, form.copy(alloc)?)),
        Step::EqCut(row, other) => Ok(Step::EqCut(*row, *other)),
    }
}

/// A step as an item.
pub(crate) fn step_item(alloc: Global, step: &Step) -> Result<Item, AllocError>
    ensures { IfOk result (λ made. made ≡ item.Step step.now) }
{
    Ok(Item::Step(copy_step(alloc, step)?))
}

/// A row as an item.
pub(crate) fn row_item(alloc: Global, row: &Row) -> Result<Item, AllocError>
    ensures { IfOk result (λ made. made ≡ item.Row row.now) }
{
    Ok(Item::Row(row.copy(alloc)?))
}

/// A branch by the sign of a form as an item.
pub(crate) fn split_item(alloc: Global, form: &Form) -> Result<Item, AllocError>
    ensures { IfOk result (λ made. made ≡ item.Split form.now) }
{
    Ok(Item::Split(form.copy(alloc)?))
}

/// A branch by the residue of a form as an item.
pub(crate) fn residue_item(alloc: Global, modulus: &i128, form: &Form) -> Result<Item, AllocError>
    ensures { IfOk result (λ made. made ≡ item.Residue modulus.now form.now) }
{
    Ok(Item::Residue(*modulus, form.copy(alloc)?))
}

/// A point as an item.
pub(crate) fn point_item(alloc: Global, point: &[i128]) -> Result<Item, AllocError>
    ensures { IfOk result (λ made. made ≡ item.Point point.now) }
{
    Ok(Item::Point(Items::from_slice(alloc, point)?))
}

/// The shapes of the left program as an item.
pub(crate) fn left_item(alloc: Global, shapes: &[(u64, u64)]) -> Result<Item, AllocError>
    ensures { IfOk result (λ made. made ≡ item.Left shapes.now) }
{
    Ok(Item::Left(Items::from_slice(alloc, shapes)?))
}

/// The shapes of the right program as an item.
pub(crate) fn right_item(alloc: Global, shapes: &[(u64, u64)]) -> Result<Item, AllocError>
    ensures { IfOk result (λ made. made ≡ item.Right shapes.now) }
{
    Ok(Item::Right(Items::from_slice(alloc, shapes)?))
}
