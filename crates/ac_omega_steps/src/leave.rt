ghost use Rattle.std.specs.Prelude.{◌≡◌, ◌↔◌, ℤ, List, true, cond, Some, None, IfOk, IfSome};
ghost use Rattle.ac_forms.specs.Rows.{IsWellMade, AreRowsOver, Meets};
ghost use Rattle.ac_omega_steps.specs.Choices.{is_legal, left_by};
ghost use Rattle.ac_omega_steps.specs.ChoiceFits.{choice_fits, after_choice};
ghost use Rattle.ac_omega_steps.specs.LeftRows.{normal_of};

use crate::choose::Choice;
use crate::column::rows_without;
use crate::normal::normal;
use crate::replace::{by_equality, substitute_residue_rows};
use crate::shadow::{shadowed, splinter};
use ac_base::Items;
use ac_forms::{Conj, Row};
use std::alloc::{AllocError, Global};

/// Rows that stand for those that a choice leaves.
#[tactic(auto, using(ac_base::proofs::Bits::again_128))]
fn rows_left(alloc: Global, conj: &Conj, choice: &Choice) -> Result<Option<Items<Row>>, AllocError>
    requires made { IsWellMade conj.now }
    requires legal { is_legal choice.now conj.now ≡ true }
    ensures normal { IfOk result (λ made. normal_of made ≡ normal_of (cond (choice_fits choice.now conj.now.rows) (Some (left_by choice.now conj.now.rows)) None)) }
    ensures over { IfOk result (λ made. IfSome made (λ rows. AreRowsOver conj.now.columns rows)) }
{
    let rows = conj.rows.as_slice();
    match choice {
        Choice::Drop(z) => {
            let made = rows_without(alloc, *z, rows)?;
            Ok(Some(made))
        }
        Choice::Equal(z, at) => {
            let made = by_equality(alloc, *z, *at, conj)?;
            Ok(made)
        }
        Choice::Residue(z, m, r) => {
            let made = substitute_residue_rows(alloc, *z, m, r, rows)?;
            Ok(made)
        }
        Choice::Shadow(z) => {
            let made = shadowed(alloc, *z, conj)?;
            Ok(made)
        }
        Choice::Splinter(_, at, k) => {
            let made = splinter(alloc, *at, k, conj)?;
            Ok(made)
        }
    }
}

/// The normal form of what a legal choice leaves, if it is made in `i128`.
#[tactic(auto, unfolding(crate::specs::ChoiceFits::after_choice), using(crate::proofs::LeftMade::raw_made))]
pub(crate) fn left(alloc: Global, conj: &Conj, choice: &Choice) -> Result<Option<Conj>, AllocError>
    requires made { IsWellMade conj.now }
    requires legal { is_legal choice.now conj.now ≡ true }
    ensures exact { IfOk result (λ made. made ≡ after_choice choice.now conj.now) }
    ensures made { IfOk result (λ made. IfSome made (λ d. IsWellMade d)) }
    ensures points { IfOk result (λ made. IfSome made (λ d. (p : List ℤ) → Meets d.rows p ↔ Meets (left_by choice.now conj.now.rows) p)) }
{
    let Some(rows) = rows_left(alloc, conj, choice)? else {
        return Ok(None);
    };
    let raw = Conj {
        columns: conj.columns,
        rows,
    };
    let made = normal(alloc, &raw)?;
    Ok(made)
}
