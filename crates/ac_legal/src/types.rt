//! Schedules, and what is answered of them.
use ac_base::Items;
use ac_forms::{Conj, Form};
use std::alloc::AllocError;

/// For each assignment forms over the parameters and then its counters. Their values are the time of an instance.
#[derive(Drop)]
pub struct Schedule {
    /// The forms of each assignment, in the order of the text.
    pub times: Items<Items<Form>>,
}

/// Whether a schedule keeps the order.
#[derive(Drop)]
pub enum Legal {
    /// It does.
    Kept,
    /// At a valuation two instances conflict, each given by its assignment and its counters. The first one is earlier, and its
    /// time is not smaller.
    Broken {
        /// The valuation.
        at: Vec<i128>,
        /// The first.
        first: (usize, Vec<i128>),
        /// The second.
        second: (usize, Vec<i128>),
    },
}

/// Why that is not known.
#[derive(Drop)]
pub enum LegalStop {
    /// A number of a question leaves `i128`.
    Overflow(Conj),
    /// The running cost of a question exceeds the budget.
    Spent {
        /// The question.
        question: Conj,
        /// The first running cost above the budget.
        cost: u64,
    },
    /// There was no memory.
    Memory(AllocError),
}

impl From<AllocError> for LegalStop {
    ghost use Rattle.std.specs.Prelude.{◌≡◌};
    ghost use Rattle.ac_legal.specs.declared.types.LegalStop.TheVariants.{Memory};

    ghost from_gives = { λ want e. e ≡ Memory want };

    fn from(want: AllocError) -> LegalStop {
        LegalStop::Memory(want)
    }
}
