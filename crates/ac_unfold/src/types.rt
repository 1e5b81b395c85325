//! What an unfolding is given, and what comes of it.
ghost use Rattle.std.specs.Prelude.{◌≡◌, Err, IfErr, IfOk, IfSome, None, Ok};
ghost use Rattle.ac_unfold.specs.RecoverableStops.{IsStop};
ghost use Rattle.ac_unfold.specs.declared.types.UnfoldStop.{UnfoldStop as Stop};
ghost use Rattle.ac_unfold.specs.declared.types.UnfoldStop.TheVariants.{Memory};

use ac_base::Items;
use ac_claims::types::{Claim, ClaimTree};
use ac_claims_paths::path::Programs;
use ac_flow::types::Flow;
use ac_forms::Conj;
use ac_widen::Entry;
use std::alloc::{AllocError, AllocFailed};

/// What the search knows of a pair: the models of both programs with the names that the pair declares commutative, and the
/// exact dataflow of each.
#[derive(Clone, Copy)]
pub struct ProgramFlows<'a> {
    pub programs: Programs<'a>,
    pub left_flow: &'a Flow,
    pub right_flow: &'a Flow,
    /// The greatest running cost of a question.
    pub budget: u64,
}

/// Claims at which plans may end. In a proof those of the list have the numbers from the base on, and the tabled ones those behind them.
#[derive(Clone, Copy)]
pub struct NumberedClaims<'a> {
    pub base: usize,
    pub claims: &'a [Claim],
    pub tabled: &'a [Claim],
}

/// What comes of the plans of a start.
#[derive(Drop)]
pub enum Planned {
    /// The plans, one for each pair of pieces.
    Plans(Vec<ClaimTree>),
    /// The start does not stand: a broken path.
    Broken(Items<Entry>),
}

/// Why an unfolding has no answer.
#[derive(Drop)]
pub enum UnfoldStop {
    /// The economical walk does not decide a question that is asked, and on the full one a number leaves `i128`, or its greatest numbers
    /// are too large for a certificate; or a row that comes next at the question is not formed in `i128`.
    Overflow(Conj),
    /// The running cost of a question that is asked exceeds the budget: the economical walk does not decide it, and the full one is given up.
    Spent {
        /// The question.
        question: Conj,
        /// The full walk's first running cost above the budget.
        cost: u64,
    },
    /// 20,001 paths lead from one start to ends, each through later positions than the one before it, in the order of the dictionary:
    /// these paths, each at a point of its own.
    Paths(Items<Items<Entry>>),
    /// There was no memory.
    Memory(AllocError),
}

impl From<AllocError> for UnfoldStop {
    ghost use Rattle.std.specs.Prelude.{◌≡◌};
    ghost use Rattle.ac_unfold.specs.declared.types.UnfoldStop.TheVariants.{Memory};

    ghost from_gives = { λ want e. e ≡ Memory want };

    fn from(want: AllocError) -> UnfoldStop {
        UnfoldStop::Memory(want)
    }
}

impl<T: Drop> From<AllocFailed<T>> for UnfoldStop {
    ghost use Rattle.std.specs.Prelude.{◌≡◌, alloc_error};
    ghost use Rattle.ac_unfold.specs.declared.types.UnfoldStop.TheVariants.{Memory};

    ghost from_gives = { λ _ e. e ≡ Memory alloc_error };

    fn from(_failed: AllocFailed<T>) -> UnfoldStop {
        UnfoldStop::Memory(AllocError)
    }
}

/// What was answered, for a caller that goes on without an answer: none where a question is too wide or too costly, or the paths are too many.
/// Want of memory is handed on.
pub fn freely<A: Drop>(answer: Result<A, UnfoldStop>) -> Result<Option<A>, AllocError>
    ensures answered { IfOk result (λ free. IfSome free (λ seen. answer ≡ Ok seen)) }
    ensures given_up { IfOk result (λ free. free ≡ None → (stop : Stop) × IsStop stop × (answer ≡ Err stop)) }
    ensures memory { IfErr result (λ want. answer ≡ Err (Memory want)) }
{
    match answer {
        Ok(answer) => Ok(Some(answer)),
        Err(UnfoldStop::Memory(want)) => Err(want),
        Err(_) => Ok(None),
    }
}
