//! How many arrangements there are, and the orders that each chooses.
ghost use Rattle.std.specs.Prelude.{◌≡◌, ◌<◌, ◌≤◌, IfOk};
ghost use Rattle.ac_assoc.specs.ChosenOrders.{is_right, ways, arrangement_count, chosen};

use crate::types::{Chain, Chosen};
use ac_base::Items;
use ac_instance::Side;
use std::alloc::{AllocError, Global};

/// Whether it is the right program.
fn is_right(side: Side) -> bool
    ensures { result ≡ is_right side }
{
    match side {
        Side::Left => false,
        Side::Right => true,
    }
}

/// In how many orders the operands of a chain are tried.
#[tactic(auto, using(crate::proofs::Mixing::ways_known))]
fn ways(chain: &Chain) -> u64
    ensures value { result ≡ ways chain.now }
    ensures some { 0 < result }
    ensures few { result ≤ 720 }
{
    match (chain.side, chain.operands.len()) {
        (Side::Right, 3) => 6,
        (Side::Right, 4) => 24,
        (Side::Right, 5) => 120,
        (Side::Right, 6) => 720,
        _ => 1,
    }
}

/// The number of all arrangements of the chains, or 1,025 where that is greater.
pub fn arrangements(chains: &[Chain]) -> u64
    ensures { result ≡ arrangement_count chains.now }
{
    let mut count = 1u64;
    for chain in chains {
        count = (count * ways(chain)).min(1025);
    }
    count
}

/// The orders that the arrangement with this number chooses: the number in mixed radix, the last chain fastest.
pub(crate) fn chosen(
    alloc: Global,
    chains: &[Chain],
    number: u64,
) -> Result<Items<Chosen>, AllocError>
    ensures { IfOk result (λ made. made ≡ chosen chains.now number) }
{
    let mut made = Items::new(alloc);
    let mut rest = number;
    let mut at = chains.len();
    while at > 0 {
        at -= 1;
        let chain = &chains[at];
        if is_right(chain.side) {
            let radix = ways(chain);
            made.push(Chosen {
                stmt: chain.stmt,
                node: chain.node,
                number: rest % radix,
            })?;
            rest /= radix;
        }
    }
    Ok(made)
}
