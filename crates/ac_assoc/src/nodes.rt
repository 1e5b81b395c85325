//! The nodes of the operands of chains.
ghost use Rattle.std.specs.Prelude.{◌≡◌, ◌++◌, IfOk};
ghost use Rattle.ac_syntax.specs.ValueNodes.{size};
ghost use Rattle.ac_assoc.specs.ProgramChains.{operand_nodes};
ghost use Rattle.ac_assoc.specs.ValueSequences.{nodes_brought};

use crate::symbols::is_binary;
use ac_base::Items;
use ac_syntax::count;
use ac_syntax::name::Name;
use ac_syntax::tree::Value;
use std::alloc::{AllocError, Global};

/// How many nodes a value has.
pub(crate) fn size(value: &Value) -> Result<usize, AllocError>
    ensures { IfOk result (λ count. count ≡ size value.now) }
{
    match count::nodes(value) {
        None => Err(AllocError),
        Some(count) => usize::try_from(count).map_err(|_wide| AllocError),
    }
}

/// Adds the nodes of the operands that a value brings to a chain of a name.
#[cycle(operands)]
#[tactic(auto, using(crate::proofs::Gathering::node_steps))]
fn add_operands(
    alloc: Global,
    name: &Name,
    node: usize,
    value: &Value,
    operands: &mut Items<usize>,
) -> Result<(), AllocError>
    ensures { IfOk result (λ _. operands.new ≡ operands.old ++ operand_nodes name.now node value.now) }
{
    match value {
        Value::Number(_) => operands.push(node)?,
        Value::Access { .. } => operands.push(node)?,
        Value::Call { symbol, args, .. } => {
            if is_binary(name, symbol) {
                let first = node.checked_add(1).ok_or(AllocError)?;
                return add_all_operands(alloc, name, first, args.as_slice(), operands);
            }
            operands.push(node)?;
        }
    }
    Ok(())
}

/// Adds those of values one after another.
#[cycle(operands)]
pub(crate) fn add_all_operands(
    alloc: Global,
    name: &Name,
    first: usize,
    values: &[Value],
    operands: &mut Items<usize>,
) -> Result<(), AllocError>
    ensures { IfOk result (λ _. operands.new ≡ operands.old ++ nodes_brought name.now first values.now) }
{
    let mut at = first;
    for value in values {
        add_operands(alloc, name, at, value, operands)?;
        at = at.checked_add(size(value)?).ok_or(AllocError)?;
    }
    Ok(())
}
