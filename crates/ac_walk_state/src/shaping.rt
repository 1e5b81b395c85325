//! For which shapes of programs a proof is made.
ghost use Rattle.std.specs.Prelude.{◌≡◌, true, IfOk};
ghost use Rattle.ac_claims.specs.ProofFaults.{have_shapes};

use ac_base::Items;
use ac_claims::types::Heads;
use ac_poly::types::Model;
use std::alloc::{AllocError, Global};

/// For each assignment how many loops stand around it, and how many quotients it has.
fn shapes(alloc: Global, model: &Model) -> Result<Items<(u64, u64)>, AllocError>
    ensures { IfOk result (λ made. have_shapes made model.now.stmts ≡ true) }
{
    let mut made = Items::new(alloc);
    for stmt in model.stmts.as_slice() {
        made.push((stmt.loops.len() as u64, stmt.quots.len() as u64))?;
    }
    Ok(made)
}

/// The shapes of both programs, as a judge of proofs wants them.
pub fn heads(alloc: Global, left: &Model, right: &Model) -> Result<Heads, AllocError>
    ensures { IfOk result (λ heads. (have_shapes heads.left left.now.stmts ≡ true) × (have_shapes heads.right right.now.stmts ≡ true)) }
{
    Ok(Heads {
        left: shapes(alloc, left)?,
        right: shapes(alloc, right)?,
    })
}
