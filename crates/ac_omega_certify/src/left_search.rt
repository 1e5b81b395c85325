//! Searches among what is left of rows in normal form.
ghost use Rattle.std.specs.Prelude.{◌≡◌, IfOk, IfSome, IfNone};
ghost use Rattle.ac_forms.specs.Affine.{Affine};
ghost use Rattle.ac_forms.specs.NormalForm.{is_absurd};
ghost use Rattle.ac_forms.specs.declared.normal.NormalRow.TheVariants.{Kept, Absurd};
ghost use Rattle.ac_forms.specs.declared.row.Row.TheVariants.{Eq};
ghost use Rattle.ac_omega_certify.specs.RowRemainders.{HasLeft, IsLeftAt, HaveLeft, AreLeftAt, ClashesAt, ClashesWithNone, HaveClashAt, HaveNoClash, ClashOf, clashes};

use crate::left::{Left, is_normal};
use ac_forms::{Form, NormalRow, Row};
use std::alloc::{AllocError, Global};

/// Whether no number meets a row.
fn is_absurd(row: &NormalRow) -> bool
    ensures { result ≡ is_absurd row.now }
{
    match row {
        NormalRow::Absurd => true,
        NormalRow::Kept(_) | NormalRow::Dropped => false,
    }
}

/// The place of a row that no number meets.
#[tactic(auto, using(crate::proofs::LeftSearches::search_steps))]
pub(crate) fn absurd_place(lefts: &[Left]) -> Option<usize>
    ensures some { IfSome result (λ i. IsLeftAt i Absurd lefts.now) }
    ensures none { IfNone result (¬ HasLeft Absurd lefts.now) }
{
    for left in lefts {
        if is_absurd(&left.row) {
            return Some(left.place);
        }
    }
    None
}

/// The place of a row, which is one of those that are left.
#[tactic(auto, using(crate::proofs::LeftSearches::search_steps))]
fn place_of(lefts: &[Left], row: &Row) -> usize
    requires { HasLeft (Kept row.now) lefts.now }
    ensures { IsLeftAt result (Kept row.now) lefts.now }
{
    for left in lefts {
        if is_normal(row, &left.row) {
            return left.place;
        }
    }
    unreachable!();
}

/// The places of rows, each of which is one of those that are left, in order.
#[tactic(auto, using(crate::proofs::LeftSearches::search_steps))]
pub(crate) fn places_of(
    alloc: Global,
    lefts: &[Left],
    rows: &[Row],
) -> Result<Vec<usize>, AllocError>
    requires { HaveLeft rows.now lefts.now }
    ensures { IfOk result (λ places. AreLeftAt places.items rows.now lefts.now) }
{
    let mut places = Vec::new(alloc);
    for row in rows {
        places.push(place_of(lefts, row))?;
    }
    Ok(places)
}

/// Whether a row is an equality with the coefficients of a form and another constant.
fn is_clash(form: &Form, row: &NormalRow) -> bool
    ensures { result ≡ clashes form.now row.now }
{
    match row {
        NormalRow::Kept(kept) => match kept {
            Row::Eq(other) => form.coefs() == other.coefs() && form.konst() != other.konst(),
            _ => false,
        },
        _ => false,
    }
}

/// The place of an equality with the coefficients of a form and another constant.
#[tactic(auto, using(crate::proofs::LeftSearches::search_steps))]
fn clash_with(lefts: &[Left], form: &Form) -> Option<usize>
    ensures some { IfSome result (λ y. ClashesAt form.now y lefts.now) }
    ensures none { IfNone result (ClashesWithNone form.now lefts.now) }
{
    for left in lefts {
        if is_clash(form, &left.row) {
            return Some(left.place);
        }
    }
    None
}

/// The places of an equality and of one that clashes with it.
fn clash_of(lefts: &[Left], left: &Left) -> Option<(usize, usize)>
    ensures some { IfSome result (λ p. ClashOf left.now p.0 p.1 lefts.now) }
    ensures none { IfNone result ((f : Affine) → left.now.row ≡ Kept (Eq f) → ClashesWithNone f lefts.now) }
{
    let NormalRow::Kept(row) = &left.row else {
        return None;
    };
    let Row::Eq(form) = row else {
        return None;
    };
    let other = clash_with(lefts, form)?;
    Some((left.place, other))
}

/// The places of two equalities that clash.
#[tactic(auto, using(crate::proofs::LeftSearches::search_steps))]
pub(crate) fn clash_places(lefts: &[Left]) -> Option<(usize, usize)>
    ensures some { IfSome result (λ p. HaveClashAt p.0 p.1 lefts.now) }
    ensures none { IfNone result (HaveNoClash lefts.now) }
{
    for left in lefts {
        if let Some(places) = clash_of(lefts, left) {
            return Some(places);
        }
    }
    None
}
