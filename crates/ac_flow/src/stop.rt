use ac_base::Items;
use ac_forms::Conj;
use std::alloc::AllocError;

/// Why the cases of a read or an output stop.
#[derive(Drop)]
pub(crate) enum CaseStop {
    /// A number of a question leaves `i128`.
    Overflow(Conj),
    /// The running cost of a question exceeds the budget.
    Spent {
        /// The question.
        question: Conj,
        /// The first running cost above the budget.
        cost: u64,
    },
    /// More pieces are kept than there is room for: these.
    Full(Items<Conj>),
    /// There was no memory.
    Memory(AllocError),
}

impl From<AllocError> for CaseStop {
    ghost use Rattle.std.specs.Prelude.{◌≡◌};
    ghost use Rattle.ac_flow.specs.declared.stop.CaseStop.TheVariants.{Memory};

    ghost from_gives = { λ want e. e ≡ Memory want };

    fn from(want: AllocError) -> CaseStop {
        CaseStop::Memory(want)
    }
}
