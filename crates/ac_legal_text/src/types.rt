//! Why a text gives no schedule.
use std::alloc::AllocError;

/// Why a text gives no schedule.
#[derive(Drop)]
pub enum OrderFault {
    /// The line with this number, from 1, is the first that is missing, malformed or further.
    Line(u64),
    /// There was no memory.
    Memory(AllocError),
}

impl From<AllocError> for OrderFault {
    ghost use Rattle.std.specs.Prelude.{◌≡◌};
    ghost use Rattle.ac_legal_text.specs.declared.types.OrderFault.TheVariants.{Memory};

    ghost from_gives = { λ want e. e ≡ Memory want };

    fn from(want: AllocError) -> OrderFault {
        OrderFault::Memory(want)
    }
}
