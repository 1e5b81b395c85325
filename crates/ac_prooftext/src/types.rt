use ac_cert::types::Rule;
use std::alloc::AllocError;

/// What is told of a text.
#[derive(Clone, Copy, PartialEq, Eq, Drop)]
pub struct Nesting {
    /// The greatest number of branches that are open on one path, over the lines before the fault. It stands still at the last `u64`.
    pub deepest: u64,
    /// The first line that is missing, malformed or may not stand where it does, from 1; none exactly for a spelling. It
    /// stands still at the last `u64`.
    pub fault: Option<u64>,
}

/// Why bytes give no proof.
#[derive(Drop)]
pub enum TextFault {
    /// The first line that is missing, malformed or may not stand where it does, from 1.
    Line(u64),
    /// There was no memory.
    Memory(AllocError),
}

impl From<AllocError> for TextFault {
    ghost use Rattle.std.specs.Prelude.{◌≡◌};
    ghost use Rattle.ac_prooftext.specs.declared.types.TextFault.TheVariants.{Memory};

    ghost from_gives = { λ want e. e ≡ Memory want };

    fn from(want: AllocError) -> TextFault {
        TextFault::Memory(want)
    }
}

/// Why a stream of bytes is not accepted as a proof.
#[derive(Drop)]
pub enum CheckFault {
    /// It has more than 67,108,864 bytes.
    TooLong,
    /// More than 10,000 branches are open on one path.
    TooDeep,
    /// The first line that fails, from 1, and the rule by which it does.
    Refused { line: u64, rule: Rule },
    /// There was no memory.
    Memory(AllocError),
}
