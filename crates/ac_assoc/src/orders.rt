//! Orders of operands, by their numbers.
ghost use Rattle.std.specs.Prelude.{◌≡◌, ◌<◌, ◌==◌, ◌&&◌, length, IfOk};
ghost use Rattle.ac_assoc_law.specs.ArrangedPairs.{factorial, permuted};
ghost use Rattle.ac_assoc.specs.ChosenOrders.{number_at};

use crate::types::Chosen;
use ac_syntax::tree::Value;
use std::alloc::{AllocError, Global};

/// Whether an order is chosen for this node.
fn is_at(chosen: &Chosen, stmt: usize, node: usize) -> bool
    ensures { result ≡ ((chosen.now.stmt == stmt) && (chosen.now.node == node)) }
{
    chosen.stmt == stmt && chosen.node == node
}

/// The number that is chosen for a node; 0 where none is.
pub(crate) fn number_at(orders: &[Chosen], stmt: usize, node: usize) -> u64
    ensures { result ≡ number_at orders.now stmt node }
{
    for chosen in orders {
        if is_at(chosen, stmt, node) {
            return chosen.number;
        }
    }
    0
}

/// How many orders n elements have.
#[tactic(auto, using(crate::proofs::Numbering::factorial_steps))]
pub(crate) fn factorial(n: usize) -> Result<u64, AllocError>
    ensures value { IfOk result (λ count. count ≡ factorial n) }
    ensures positive { IfOk result (λ count. 0 < count) }
{
    let mut count = 1u64;
    for k in 0..n {
        count = count.checked_mul(k as u64 + 1).ok_or(AllocError)?;
    }
    Ok(count)
}

/// The values in the order with this number.
pub(crate) fn permute(
    alloc: Global,
    number: u64,
    values: Vec<Value>,
) -> Result<Vec<Value>, AllocError>
    ensures { IfOk result (λ made. made.items ≡ permuted (length values.items) number values.items) }
{
    let mut made = Vec::new(alloc);
    let mut rest = values;
    let mut left = number;
    while !rest.is_empty() {
        let after = factorial(rest.len() - 1)?;
        let at = left / after;
        if at >= rest.len() as u64 {
            made.append(&mut rest)?;
            return Ok(made);
        }
        left %= after;
        made.push(rest.remove(at as usize))?;
    }
    Ok(made)
}
