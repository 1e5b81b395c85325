use ac_lex::LexFault;
use ac_parse_grammar::GrammarFault;
use ac_parse_rules::fault::{RuleFault, Which};
use ac_syntax::tree::Place;
use std::alloc::AllocError;
use thiserror::Error;

/// Why a source text is no program, and where.
#[derive(Clone, Copy, Debug, PartialEq, Eq, Drop, Error)]
pub enum SourceFault {
    #[error(transparent)]
    Lex(LexFault),
    #[error("syntax at {}", .0.at)]
    Syntax(Place),
    #[error("not affine at {}", .0.at)]
    NotAffine(Place),
    #[error("undeclared at {}", .0.at)]
    Undeclared(Place),
    #[error("misused at {}", .0.at)]
    Misused(Place),
    #[error("duplicate at {}", .0.at)]
    Duplicate(Place),
    #[error("endless loop at {}", .0.at)]
    Endless(Place),
    #[error("limit {} at {}", .0, .1.at)]
    Limit(Which, Place),
    #[error(transparent)]
    Memory(AllocError),
}

/// Why two programs are no pair.
#[derive(Clone, Copy, Debug, PartialEq, Eq, Drop, Error)]
pub enum PairFault {
    /// The first parameter, counted from 1, in which the programs differ.
    #[error("signature {0}")]
    Signature(u32),
    #[error("no output")]
    NoOutput,
    #[error(transparent)]
    Memory(AllocError),
}

impl From<LexFault> for SourceFault {
    ghost use Rattle.std.specs.Prelude.{◌≡◌};
    ghost use Rattle.ac_parse.specs.TextFaults.{of_lexer};

    ghost from_gives = { λ e fault. fault ≡ of_lexer e };

    fn from(error: LexFault) -> Self {
        match error {
            LexFault::Memory(error) => SourceFault::Memory(error),
            fault => SourceFault::Lex(fault),
        }
    }
}

impl From<GrammarFault> for SourceFault {
    ghost use Rattle.std.specs.Prelude.{◌≡◌};
    ghost use Rattle.ac_parse.specs.TextFaults.{of_grammar};

    ghost from_gives = { λ e fault. fault ≡ of_grammar e };

    fn from(error: GrammarFault) -> Self {
        match error {
            GrammarFault::Syntax(place) => SourceFault::Syntax(place),
            GrammarFault::Nesting(place) => SourceFault::Limit(Which::Nesting, place),
            GrammarFault::Memory(error) => SourceFault::Memory(error),
        }
    }
}

impl From<RuleFault> for SourceFault {
    ghost use Rattle.std.specs.Prelude.{◌≡◌};
    ghost use Rattle.ac_parse.specs.TextFaults.{of_rules};

    ghost from_gives = { λ e fault. fault ≡ of_rules e };

    fn from(error: RuleFault) -> Self {
        match error {
            RuleFault::NotAffine(place) => SourceFault::NotAffine(place),
            RuleFault::Undeclared(place) => SourceFault::Undeclared(place),
            RuleFault::Misused(place) => SourceFault::Misused(place),
            RuleFault::Duplicate(place) => SourceFault::Duplicate(place),
            RuleFault::Endless(place) => SourceFault::Endless(place),
            RuleFault::Limit(which, place) => SourceFault::Limit(which, place),
            RuleFault::Memory(error) => SourceFault::Memory(error),
        }
    }
}

impl From<AllocError> for PairFault {
    ghost use Rattle.std.specs.Prelude.{◌≡◌};
    ghost use Rattle.ac_parse.specs.declared.faults.PairFault.TheVariants.{Memory};

    ghost from_gives = { λ e fault. fault ≡ Memory e };

    fn from(error: AllocError) -> Self {
        PairFault::Memory(error)
    }
}
