ghost use Rattle.std.specs.Prelude.{◌≡◌, Some};
ghost use Rattle.ac_parse_rules.specs.Files.{broken_of};

pub use ac_parse_exprs::fault::Which;
use ac_parse_exprs::fault::{Broken, Rule};
use ac_syntax::tree::Place;
use std::alloc::AllocError;
use thiserror::Error;

/// Why a source tree is no program, and where: the first rule that it breaks.
#[derive(Clone, Copy, Debug, PartialEq, Eq, Drop, Error)]
pub enum RuleFault {
    #[error("not affine at {}", .0.at)]
    NotAffine(Place),
    #[error("undeclared at {}", .0.at)]
    Undeclared(Place),
    #[error("misused at {}", .0.at)]
    Misused(Place),
    #[error("duplicate at {}", .0.at)]
    Duplicate(Place),
    #[error("endless loop at {}", .0.at)]
    Endless(Place),
    #[error("limit {} at {}", .0, .1.at)]
    Limit(Which, Place),
    #[error(transparent)]
    Memory(AllocError),
}

impl From<AllocError> for RuleFault {
    ghost use Rattle.std.specs.Prelude.{◌≡◌};
    ghost use Rattle.ac_parse_rules.specs.declared.fault.RuleFault.TheVariants.{Memory};

    ghost from_gives = { λ e fault. fault ≡ Memory e };

    fn from(error: AllocError) -> Self {
        RuleFault::Memory(error)
    }
}

/// The fault that says so of a broken rule.
pub(crate) fn fault_of(broken: Broken) -> RuleFault
    ensures { broken_of result ≡ Some broken }
{
    let place = broken.place;
    match broken.rule {
        Rule::NotAffine => RuleFault::NotAffine(place),
        Rule::Undeclared => RuleFault::Undeclared(place),
        Rule::Misused => RuleFault::Misused(place),
        Rule::Duplicate => RuleFault::Duplicate(place),
        Rule::Endless => RuleFault::Endless(place),
        Rule::Limit(which) => RuleFault::Limit(which, place),
    }
}
