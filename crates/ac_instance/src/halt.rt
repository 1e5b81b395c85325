ghost use Rattle.std.specs.Prelude.{◌≡◌};
ghost use Rattle.ac_instance.specs.declared.halt.Halt.TheVariants.{Memory};

use ac_base::Items;
use ac_syntax::tree::Place;
use std::alloc::{AllocError, AllocFailed};

/// One of the two programs that are compared.
#[derive(Clone, Copy, PartialEq, Eq)]
pub enum Side {
    Left,
    Right,
}

/// What a comparison of an output found.
#[derive(Drop, PartialEq, Eq)]
pub enum Outcome {
    /// The terms of all elements agree.
    Equal,
    /// The lexicographically least element whose terms do not agree.
    Different(Items<i64>),
}

/// An outcome for each output, in order, and the number of events.
#[derive(Drop, PartialEq, Eq)]
pub struct Ran {
    pub outcomes: Items<Outcome>,
    pub events: u64,
}

/// Why there is no answer.
#[derive(Drop)]
pub enum Halt {
    /// The valuation does not meet the context.
    OutsideContext,
    /// More events than this limit.
    TooLarge(u64),
    /// An index value leaves 64 bits: the program, where the expression stands, and the value. The value that an iterator
    /// takes after a turn stands at its `for`.
    Range {
        side: Side,
        place: Place,
        value: i128,
    },
    /// A partial sum or the product of a quotient leaves 128 bits, or a divisor is below 1. No program of small numbers
    /// comes to it.
    Wide,
    Memory(AllocError),
}

impl From<AllocError> for Halt {
    ghost from_gives = { λ e h. h ≡ Memory e };

    fn from(e: AllocError) -> Halt {
        Halt::Memory(e)
    }
}

impl<T: Drop> From<AllocFailed<T>> for Halt {
    ghost from_gives = { λ _ h. (e : _) × (h ≡ Memory e) };

    fn from(e: AllocFailed<T>) -> Halt {
        Halt::Memory(AllocError::from(e))
    }
}
