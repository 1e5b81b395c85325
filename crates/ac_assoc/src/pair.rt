//! The pair of an arrangement.
ghost use Rattle.std.specs.Prelude.{◌≡◌, IfOk};
ghost use Rattle.ac_assoc_law.specs.ArrangedPairs.{arranged_all, arranged_pair};
ghost use Rattle.ac_assoc.specs.ChosenOrders.{number_at, chosen};

use crate::copies::{copy_arrays, copy_cond, copy_names, copy_outputs, joined_names};
use crate::mixed::chosen;
use crate::statements::arrange_stmts;
use crate::types::Chain;
use crate::values::Arrangement;
use ac_base::Items;
use ac_syntax::name::Name;
use ac_syntax::tree::{Pair, Program};
use std::alloc::{AllocError, Global};

/// The program with each chain as one call.
fn arrange_program(
    alloc: Global,
    by: Arrangement<'_>,
    program: &Program,
) -> Result<Program, AllocError>
    ensures { IfOk result (λ made. made ≡ record program.now { body = arranged_all by.entry.names.now (number_at by.entry.orders.now) by.entry.stmt program.now.body }) }
{
    Ok(Program {
        name: program.name.copy(alloc)?,
        params: copy_names(alloc, program.params.as_slice())?,
        arrays: copy_arrays(alloc, program.arrays.as_slice())?,
        slots: Items::from_slice(alloc, program.slots.as_slice())?,
        body: arrange_stmts(alloc, by, program.body.as_slice())?,
        context: copy_cond(alloc, &program.context)?,
        commutative: copy_names(alloc, program.commutative.as_slice())?,
        outputs: copy_outputs(alloc, &program.outputs)?,
    })
}

/// The pair with each chain as one call of its operands: on the left in their order, on the right in the order that the
/// arrangement with this number chooses. The listed symbols join the commutative names; all else stays.
pub fn arrange(
    alloc: Global,
    pair: &Pair,
    symbols: &[Name],
    chains: &[Chain],
    number: u64,
) -> Result<Pair, AllocError>
    ensures { IfOk result (λ made. made ≡ arranged_pair symbols.now (number_at (chosen chains.now number)) pair.now) }
{
    let orders = chosen(alloc, chains, number)?;
    let first = Arrangement {
        names: symbols,
        orders: &[],
        stmt: 0,
    };
    let by = Arrangement {
        names: symbols,
        orders: orders.as_slice(),
        stmt: 0,
    };
    Ok(Pair {
        left: arrange_program(alloc, first, &pair.left)?,
        right: arrange_program(alloc, by, &pair.right)?,
        context: copy_cond(alloc, &pair.context)?,
        commutative: joined_names(alloc, pair.commutative.as_slice(), symbols)?,
        outputs: Items::from_slice(alloc, pair.outputs.as_slice())?,
    })
}
