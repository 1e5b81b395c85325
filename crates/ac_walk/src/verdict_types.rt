use ac_base::Items;
use ac_claims::types::Proof;
use ac_report::Verdict;
use std::alloc::AllocError;

/// What is said of a pair.
#[derive(Drop)]
pub struct Proved {
    /// A verdict for each output of the pair, in order.
    pub verdicts: Items<Verdict>,
    /// A proof of the outputs whose verdict is `Equal`.
    pub proof: Proof,
}

/// Why there are no verdicts.
#[derive(Drop)]
pub enum ProveStop {
    /// No valuation meets the context.
    EmptyContext,
    /// There was no memory.
    Memory(AllocError),
}

impl From<AllocError> for ProveStop {
    ghost use Rattle.std.specs.Prelude.{◌≡◌};
    ghost use Rattle.ac_walk.specs.declared.verdict_types.ProveStop.TheVariants.{Memory};

    ghost from_gives = { λ want e. e ≡ Memory want };

    fn from(want: AllocError) -> ProveStop {
        ProveStop::Memory(want)
    }
}
