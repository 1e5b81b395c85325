ghost use Rattle.std.specs.Prelude.{◌≡◌, ◌+◌, ◌++◌, IfOk, OnOk};
ghost use Rattle.std.specs.List.{range_with_len};

use ac_base::Items;
use std::alloc::AllocError;

/// The column so many behind another.
pub fn column_after(first: usize, k: usize) -> Result<usize, AllocError>
    ensures { IfOk result (λ column. column ≡ first + k) }
{
    first.checked_add(k).ok_or(AllocError)
}

/// Adds so many columns from one on.
#[tactic(auto, using(crate::proofs::Ranges::range_steps))]
pub fn push_range(list: &mut Items<usize>, first: usize, count: usize) -> Result<(), AllocError>
    ensures { OnOk result (list.new ≡ list.old ++ range_with_len first count) }
{
    for k in 0..count {
        list.push(column_after(first, k)?)?;
    }
    Ok(())
}
