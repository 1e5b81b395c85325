use std::alloc::{AllocError, AllocFailed};

/// Why an attempt ends without an answer.
#[derive(Drop)]
pub enum Halt {
    /// A number left `i128`, or the effort is spent.
    Open,
    /// There was no memory.
    Memory(AllocError),
}

impl From<AllocError> for Halt {
    fn from(want: AllocError) -> Halt {
        Halt::Memory(want)
    }
}

impl<T: Drop> From<AllocFailed<T>> for Halt {
    fn from(_failed: AllocFailed<T>) -> Halt {
        Halt::Memory(AllocError)
    }
}
