use ac_base::Items;
use std::alloc::AllocError;

/// Why a call on a hull stopped.
#[derive(Drop)]
pub enum HullStop {
    /// A number of the elimination left the range of `i128`: the hull's members, followed by the point that was handed
    /// in.
    Overflow(Items<Items<i128>>),
    /// There was no memory.
    Memory(AllocError),
}
