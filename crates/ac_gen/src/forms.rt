//! Index expressions over the parameter N and at most one iterator.
ghost use Rattle.std.specs.Prelude.{◌≡◌, [], ◌∷◌, pos, negsuc, IfOk};
ghost use Rattle.ac_gen.specs.PipelineLoops as spec;

use ac_base::Items;
use ac_syntax::tree::{IndexExpr, Place};
use std::alloc::{AllocError, Global};

/// What has no place in a text.
pub const NOWHERE: Place = Place { at: 0 };

/// A constant plus so many times N and so many times each iterator.
fn form(alloc: Global, konst: i64, times: i64, iters: &[i64]) -> Result<IndexExpr, AllocError>
    ensures { IfOk result (λ form. form ≡ spec.form konst times iters.now) }
{
    Ok(IndexExpr {
        konst,
        params: Items::from_slice(alloc, &[times])?,
        iters: Items::from_slice(alloc, iters)?,
        quots: Items::new(alloc),
        place: NOWHERE,
    })
}

/// A constant.
pub fn constant(alloc: Global, konst: i64) -> Result<IndexExpr, AllocError>
    ensures { IfOk result (λ e. e ≡ spec.form konst (pos 0) []) }
{
    form(alloc, konst, 0, &[])
}

/// N plus a constant.
pub fn size(alloc: Global, konst: i64) -> Result<IndexExpr, AllocError>
    ensures { IfOk result (λ e. e ≡ spec.form konst (pos 1) []) }
{
    form(alloc, konst, 1, &[])
}

/// The iterator plus a constant.
pub fn iterator(alloc: Global, konst: i64) -> Result<IndexExpr, AllocError>
    ensures { IfOk result (λ e. e ≡ spec.form konst (pos 0) (pos 1 ∷ [])) }
{
    form(alloc, konst, 0, &[1])
}

/// N plus a constant, less the iterator.
pub fn rest(alloc: Global, konst: i64) -> Result<IndexExpr, AllocError>
    ensures { IfOk result (λ e. e ≡ spec.form konst (pos 1) (negsuc 0 ∷ [])) }
{
    form(alloc, konst, 1, &[-1])
}
