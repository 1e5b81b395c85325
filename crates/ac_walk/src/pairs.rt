//! Lists of pairs of positions.
ghost use Rattle.std.specs.Prelude.{◌≡◌, ◌↔◌, ◌++◌, IfOk, IsTrue};
ghost use Rattle.ac_forms.specs.ListMembers.{IsAmong};
ghost use Rattle.ac_syntax.specs.declared.tree.Position.{Position};

use ac_base::Items;
use ac_syntax::tree::Position;
use std::alloc::{AllocError, Global};

/// Whether two pairs of positions are one.
fn is_pair(first: &(Position, Position), second: &(Position, Position)) -> bool
    ensures { IsTrue result ↔ (first.now ≡ second.now) }
{
    first.0 == second.0 && first.1 == second.1
}

/// Whether a pair of positions is among others.
pub(crate) fn is_among(pairs: &[(Position, Position)], pair: &(Position, Position)) -> bool
    ensures { IsTrue result ↔ IsAmong pair.now pairs.now }
{
    for other in pairs {
        if is_pair(pair, other) {
            return true;
        }
    }
    false
}

/// Those of the pairs that are among others too.
pub(crate) fn common(
    alloc: Global,
    pairs: &[(Position, Position)],
    others: &[(Position, Position)],
) -> Result<Items<(Position, Position)>, AllocError>
    ensures { IfOk result (λ made. (positions : Position × Position) → IsAmong positions made ↔ (IsAmong positions pairs.now × IsAmong positions others.now)) }
{
    let mut made = Items::new(alloc);
    for pair in pairs {
        if is_among(others, pair) {
            made.push(*pair)?;
        }
    }
    Ok(made)
}

/// Pairs with further ones behind them.
pub(crate) fn joined(
    alloc: Global,
    pairs: &[(Position, Position)],
    more: &[(Position, Position)],
) -> Result<Items<(Position, Position)>, AllocError>
    ensures { IfOk result (λ made. made ≡ pairs.now ++ more.now) }
{
    let mut made = Items::from_slice(alloc, pairs)?;
    for pair in more {
        made.push(*pair)?;
    }
    Ok(made)
}
