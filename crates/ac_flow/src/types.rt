use ac_base::Items;
use ac_claims::types::Kill;
use ac_forms::Conj;
use ac_syntax::tree::Position;
use std::alloc::AllocError;

/// What is left of a case within a piece of its reader.
#[derive(Drop)]
pub struct Remainder {
    /// The piece of the reader's assignment; 0 for an output.
    pub reader: usize,
    /// The rows, over the parameters, the coordinates of the reader, those of the source, and then quotients, each of which the
    /// rows fix.
    pub conj: Conj,
}

/// A source of a read or an output: an assignment, one of its pieces and a level by which it stands before the reader; or the
/// initial contents of the cell.
#[derive(Drop)]
pub struct Case {
    /// The assignment; none for the initial contents.
    pub source: Option<usize>,
    /// Its piece; 0 for the initial contents.
    pub piece: usize,
    /// The level; 0 for the initial contents.
    pub level: usize,
    /// Where it is the source. Each has a point, and no two within one piece of the reader have one in common.
    pub pieces: Items<Remainder>,
    /// What kills it elsewhere: a copy that writes the cell later, wherever the conjunction holds. The conjunctions are over
    /// the parameters and the coordinates of the reader and of the source; the choices name the copy's columns as those
    /// behind these.
    pub kills: Items<(Conj, Kill)>,
}

/// A read or an output with its cases: one for each assignment of the array, piece and level, in this order, and then the one
/// of the initial contents.
#[derive(Drop)]
pub struct ReadFlow {
    /// The read or the output.
    pub position: Position,
    /// Its cases.
    pub cases: Items<Case>,
}

/// The sources of all reads of a program, in the order of the text, and then those of its outputs.
#[derive(Drop)]
pub struct Flow {
    /// The reads and outputs.
    pub reads: Items<ReadFlow>,
}

/// How far the search may go.
#[derive(Clone, Copy, PartialEq, Eq)]
pub struct Limits {
    /// The greatest running cost of a question.
    pub budget: u64,
}

/// Why there is no flow.
#[derive(Drop)]
pub enum FlowStop {
    /// A number of a question leaves `i128`.
    Overflow(Conj),
    /// The running cost of a question exceeds the budget.
    Spent {
        /// The question.
        question: Conj,
        /// The first running cost above the budget.
        cost: u64,
    },
    /// One piece more than the 4,096 that a read or an output may have.
    Pieces {
        /// The read or output.
        position: Position,
        /// The pieces: those of the cases before, and those of the case under way as far as it was cut. Each has a point, and
        /// no two of one case within one piece of the reader have one in common.
        kept: Items<Conj>,
    },
    /// There was no memory.
    Memory(AllocError),
}

impl From<AllocError> for FlowStop {
    ghost use Rattle.std.specs.Prelude.{◌≡◌};
    ghost use Rattle.ac_flow.specs.declared.types.FlowStop.TheVariants.{Memory};

    ghost from_gives = { λ want e. e ≡ Memory want };

    fn from(want: AllocError) -> FlowStop {
        FlowStop::Memory(want)
    }
}

/// Why there is no valuation of a context.
#[derive(Drop)]
pub enum ContextStop {
    /// There is none.
    EmptyContext,
    /// A number of the question leaves `i128`.
    Overflow(Conj),
    /// The running cost of the question exceeds the budget.
    Spent {
        /// The question.
        question: Conj,
        /// The first running cost above the budget.
        cost: u64,
    },
    /// There was no memory.
    Memory(AllocError),
}

impl From<AllocError> for ContextStop {
    ghost use Rattle.std.specs.Prelude.{◌≡◌};
    ghost use Rattle.ac_flow.specs.declared.types.ContextStop.TheVariants.{Memory};

    ghost from_gives = { λ want e. e ≡ Memory want };

    fn from(want: AllocError) -> ContextStop {
        ContextStop::Memory(want)
    }
}
