//! Values in which each chain is one call.
ghost use Rattle.std.specs.Prelude.{◌≡◌, ◌++◌, IfOk};
ghost use Rattle.ac_assoc_law.specs.ArrangedPairs.{one_call, arranged, arranged_operands};
ghost use Rattle.ac_assoc.specs.ChosenOrders.{number_at};
ghost use Rattle.ac_assoc.specs.ValueSequences.{arranged_values, brought};

use crate::nodes::size;
use crate::orders::{number_at, permute};
use crate::symbols::{is_binary, joins};
use crate::types::Chosen;
use ac_base::Items;
use ac_syntax::copy::{copy_symbol, copy_value};
use ac_syntax::name::Name;
use ac_syntax::tree::{Place, Symbol, Value};
use std::alloc::{AllocError, Global};

/// One call of as many arguments as there are operands, in the order with this number.
fn one_call(
    alloc: Global,
    symbol: &Symbol,
    number: u64,
    operands: Items<Value>,
    place: Place,
) -> Result<Value, AllocError>
    ensures { IfOk result (λ made. made ≡ one_call symbol.now number operands place) }
{
    let arity = u8::try_from(operands.len()).map_err(|_wide| AllocError)?;
    let args = permute(alloc, number, operands.into_vec())?;
    Ok(Value::Call {
        symbol: Symbol {
            name: symbol.name.copy(alloc)?,
            arity,
        },
        args: Items::from(args),
        place,
    })
}

/// The orders that are chosen for the chains of these names in an assignment.
#[derive(Clone, Copy)]
pub(crate) struct Arrangement<'a> {
    pub names: &'a [Name],
    pub orders: &'a [Chosen],
    pub stmt: usize,
}

impl<'a> Arrangement<'a> {
    /// The same in another assignment.
    pub(crate) fn from(self, stmt: usize) -> Arrangement<'a>
        ensures names { result.names ≡ self.entry.names }
        ensures orders { result.orders ≡ self.entry.orders }
        ensures stmt { result.stmt ≡ stmt }
    {
        Arrangement {
            names: self.names,
            orders: self.orders,
            stmt,
        }
    }
}

/// The value, whose first node has this number, with each chain as one call.
#[cycle(arrange)]
#[tactic(auto, using(crate::proofs::Arranging::value_steps))]
pub(crate) fn arrange_value(
    alloc: Global,
    by: Arrangement<'_>,
    node: usize,
    value: &Value,
) -> Result<Value, AllocError>
    ensures { IfOk result (λ made. made ≡ arranged by.entry.names.now (number_at by.entry.orders.now by.entry.stmt) node value.now) }
{
    match value {
        Value::Number(_) => copy_value(alloc, value),
        Value::Access { .. } => copy_value(alloc, value),
        Value::Call {
            symbol,
            args,
            place,
        } => {
            let first = node.checked_add(1).ok_or(AllocError)?;
            if joins(by.names, symbol) {
                let mut operands = Items::new(alloc);
                bring_all(
                    alloc,
                    by,
                    &symbol.name,
                    first,
                    args.as_slice(),
                    &mut operands,
                )?;
                let number = number_at(by.orders, by.stmt, node);
                one_call(alloc, symbol, number, operands, *place)
            } else {
                Ok(Value::Call {
                    symbol: copy_symbol(alloc, symbol)?,
                    args: arrange_values(alloc, by, first, args.as_slice())?,
                    place: *place,
                })
            }
        }
    }
}

/// The same of values one after another.
#[cycle(arrange)]
fn arrange_values(
    alloc: Global,
    by: Arrangement<'_>,
    first: usize,
    values: &[Value],
) -> Result<Items<Value>, AllocError>
    ensures { IfOk result (λ made. made ≡ arranged_values by.entry.names.now (number_at by.entry.orders.now by.entry.stmt) first values.now) }
{
    let mut made = Items::new(alloc);
    let mut at = first;
    for value in values {
        made.push(arrange_value(alloc, by, at, value)?)?;
        at = at.checked_add(size(value)?).ok_or(AllocError)?;
    }
    Ok(made)
}

/// Adds what a value brings to a chain of a name.
#[cycle(arrange)]
#[tactic(auto, using(crate::proofs::Arranging::operand_steps))]
fn bring(
    alloc: Global,
    by: Arrangement<'_>,
    name: &Name,
    node: usize,
    value: &Value,
    operands: &mut Items<Value>,
) -> Result<(), AllocError>
    ensures { IfOk result (λ _. operands.new ≡ operands.old ++ arranged_operands by.entry.names.now (number_at by.entry.orders.now by.entry.stmt) name.now node value.now) }
{
    match value {
        Value::Number(_) => { operands.push(arrange_value(alloc, by, node, value)?) }
        Value::Access { .. } => { operands.push(arrange_value(alloc, by, node, value)?) }
        Value::Call { symbol, args, .. } => {
            if is_binary(name, symbol) {
                let first = node.checked_add(1).ok_or(AllocError)?;
                bring_all(alloc, by, name, first, args.as_slice(), operands)
            } else {
                operands.push(arrange_value(alloc, by, node, value)?)
            }
        }
    }
}

/// Adds what values one after another bring to it.
#[cycle(arrange)]
fn bring_all(
    alloc: Global,
    by: Arrangement<'_>,
    name: &Name,
    first: usize,
    values: &[Value],
    operands: &mut Items<Value>,
) -> Result<(), AllocError>
    ensures { IfOk result (λ _. operands.new ≡ operands.old ++ brought by.entry.names.now (number_at by.entry.orders.now by.entry.stmt) name.now first values.now) }
{
    let mut at = first;
    for value in values {
        bring(alloc, by, name, at, value, operands)?;
        at = at.checked_add(size(value)?).ok_or(AllocError)?;
    }
    Ok(())
}
