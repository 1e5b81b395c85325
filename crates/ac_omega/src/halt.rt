use std::alloc::AllocError;

/// Why a walk stops.
#[derive(Drop)]
pub(crate) enum Halt {
    /// A number leaves `i128`.
    Wide,
    /// The running cost exceeds the budget.
    Spent(u64),
    /// There was no memory.
    Memory(AllocError),
}

impl From<AllocError> for Halt {
    ghost use Rattle.std.specs.Prelude.{◌≡◌};
    ghost use Rattle.ac_omega.specs.declared.halt.Halt.TheVariants.{Memory};

    ghost from_gives = { λ want e. e ≡ Memory want };

    fn from(want: AllocError) -> Halt {
        Halt::Memory(want)
    }
}
