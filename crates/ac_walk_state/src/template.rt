ghost use Rattle.std.specs.Prelude.{IfOk};
ghost use Rattle.ac_walk_state.specs.GraphWidenings.{AreNumbersOf};
ghost use Rattle.ac_walk_state.specs.RecurrencePairInvariant.{HasModuli};

use ac_base::Items;
use ac_hull::{moduli, thresholds};
use ac_syntax::tree::Pair;
use std::alloc::{AllocError, Global};

/// The numbers at which the template rows of claims may stop, and the moduli of their residue classes.
#[derive(Drop)]
pub struct Template {
    pub thresholds: Items<i128>,
    pub moduli: Items<i128>,
}

/// The template of a pair of programs.
pub fn template_of(alloc: Global, pair: &Pair) -> Result<Template, AllocError>
    ensures numbers { IfOk result (λ made. AreNumbersOf pair.now made.thresholds made.moduli) }
    ensures moduli { IfOk result HasModuli }
{
    Ok(Template {
        thresholds: thresholds(alloc, pair)?,
        moduli: moduli(alloc, pair)?,
    })
}
