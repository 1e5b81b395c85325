//! A further member: what it adds, and the rows that are left.
ghost use Rattle.std.specs.Prelude.{◌≡◌, ◌<◌, ◌++◌, ℤ, List, [], ◌∷◌, length, zip, IfOk, if◌then◌else◌};
ghost use Rattle.ac_forms.specs.Rows.{AreRowsOver};
ghost use Rattle.ac_forms.specs.ListMembers.{IsAmong};
ghost use Rattle.ac_forms.specs.FormStops.{MadeWhere};
ghost use Rattle.ac_hull.specs.ColumnDifferences.{GapsFit};
ghost use Rattle.ac_hull.specs.Hulls.{HullOf, equalities_of};
ghost use Rattle.ac_hull.specs.Templates.{template_rows};
ghost use Rattle.ac_widen.specs.Combinations.{Each};
ghost use Rattle.ac_widen.specs.WideningLaws.{AreEnough, AreOfHull};
ghost use Rattle.ac_widen.specs.Walks.{narrowed_by};
ghost use Rattle.ac_widen.specs.declared.derivation.Reason.TheVariants.{Hull as ByHull};
ghost use Rattle.ac_walk_state.specs.RecurrencePairInvariant.{HasModuli};

use crate::following::without_following;
use crate::template::Template;
use ac_base::Items;
use ac_forms::{FormStop, Row};
use ac_hull::{Combination, Hull, claim_rows};
use ac_widen::Reason;
use std::alloc::{AllocError, Global};

/// The template rows of the claim of members: rows that all of them meet, from which on the hull all others follow that all of them
/// meet. `Wide` exactly where a difference of two columns at a member leaves `i128`.
pub(crate) fn claimed_rows(
    alloc: Global,
    template: &Template,
    hull: &Hull,
    members: &[Items<i128>],
) -> Result<Items<Row>, FormStop>
    requires columns { hull.now.columns < usize.MAX }
    requires some { ¬ (hull.now.members ≡ []) }
    requires among { Each (λ p. IsAmong p members.now) hull.now.members }
    requires widths { Each (λ p. length p ≡ hull.now.columns) members.now }
    requires moduli { HasModuli template.now }
    ensures over { IfOk result (AreRowsOver hull.now.columns) }
    ensures enough { MadeWhere result (Each GapsFit members.now) (AreEnough hull.now.members (narrowed_by (template_rows hull.now.columns template.now.thresholds template.now.moduli) members.now)) }
    ensures hull { IfOk result (λ _. AreOfHull hull.now.columns (equalities_of hull.now.columns hull.now.members) hull.now.members) }
{
    let equalities = hull.equalities();
    let thresholds = template.thresholds.as_slice();
    let moduli = template.moduli.as_slice();
    let rows = match claim_rows(alloc, hull.columns(), thresholds, moduli, members) {
        Ok(rows) => rows,
        Err(stop) => return Err(stop),
    };
    Ok(without_following(alloc, rows.as_slice(), equalities)?)
}

/// Both lists of numbers with one more, the second one only where it is kept.
pub(crate) fn with_numbers(
    all: Items<usize>,
    kept: Items<usize>,
    number: usize,
    is_kept: bool,
) -> Result<(Items<usize>, Items<usize>), AllocError>
    ensures { IfOk result (λ made. (made.0 ≡ all ++ number ∷ []) × (made.1 ≡ (if is_kept then kept ++ number ∷ [] else kept))) }
{
    let mut all = all;
    all.push(number)?;
    if !is_kept {
        return Ok((all, kept));
    }
    let mut kept = kept;
    kept.push(number)?;
    Ok((all, kept))
}

/// The reason by the weights of a combination of members whose entries have these numbers.
#[tactic(auto, using(crate::proofs::Weighing::weigh_steps))]
pub(crate) fn weighed(
    alloc: Global,
    kept: &[usize],
    combination: &Combination,
) -> Result<Reason, AllocError>
    requires { length kept.now ≡ length combination.now.weights }
    ensures { IfOk result (λ reason. reason ≡ ByHull combination.now.m (zip kept.now combination.now.weights)) }
{
    let numbers = combination.weights.as_slice();
    let mut weights = Items::new(alloc);
    for at in 0..kept.len() {
        weights.push((kept[at], numbers[at]))?;
    }
    Ok(Reason::Hull {
        m: combination.m,
        weights,
    })
}
