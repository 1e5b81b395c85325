ghost use Rattle.std.specs.Prelude.{◌≡◌, ℤ, List, true, length, IfOk, ◌↔◌};
ghost use Rattle.ac_forms.specs.Rows.{IsWellMade, Meets};
ghost use Rattle.ac_forms.specs.FormStops.{MadeWhere};
ghost use Rattle.ac_omega_steps.specs.IntegerPoints.{IsPoint};
ghost use Rattle.ac_omega_steps.specs.Choices.{is_legal, left_by, lifted};
ghost use Rattle.ac_omega_steps.specs.ChoiceFits.{after_choice, lift_fits, StepsTo};

use crate::back::lifted;
use crate::leave::left;
use crate::legal::is_legal;
use ac_forms::{Conj, FormStop};
use std::alloc::{AllocError, Global};

/// A choice of elimination (W. Pugh, The Omega test, 1991). The first number is the column that goes; rows are named by
/// their places.
#[derive(Clone, Copy, PartialEq, Eq, Drop)]
pub enum Choice {
    /// Rows `>= 0` bound the column from one side only, or not at all: they go.
    Drop(usize),
    /// `Equal(z, i)`: row i is an equality that has the column, and replaces it in the other rows.
    Equal(usize, usize),
    /// `Residue(z, m, r)`: the column is `m z + r`, where m is a multiple of the moduli of all divisibilities that have it.
    Residue(usize, i128, i128),
    /// Each lower and each upper row give one of the dark shadow.
    Shadow(usize),
    /// `Splinter(z, i, k)`: the form of the lower row i is k.
    Splinter(usize, usize, i128),
}

/// Why a choice was not taken.
#[derive(Drop)]
pub enum StepStop {
    /// The conjunction is absurd, or the choice's condition fails.
    Illegal,
    /// A number leaves `i128`.
    Wide,
    /// There was no memory.
    Memory(AllocError),
}

impl From<AllocError> for StepStop {
    ghost use Rattle.std.specs.Prelude.{◌≡◌};
    ghost use Rattle.ac_omega_steps.specs.declared.choose.StepStop.TheVariants.{Memory};

    ghost from_gives = { λ want e. e ≡ Memory want };

    fn from(want: AllocError) -> StepStop {
        StepStop::Memory(want)
    }
}

/// The normal form of the rows that a choice leaves, over the same columns.
///
/// The conjunction is meant to be in normal form; no clause needs that. `Illegal` exactly where the conjunction is the absurd
/// one or the choice's condition fails; then `Wide` exactly where a number of what it leaves, or of its normal form, leaves
/// `i128`. Each integer point of the result goes back to one of the conjunction.
pub fn step(alloc: Global, conj: &Conj, choice: &Choice) -> Result<Conj, StepStop>
    requires { IsWellMade conj.now }
    ensures exact { StepsTo (is_legal choice.now conj.now) (after_choice choice.now conj.now) result }
    ensures made { IfOk result (λ d. IsWellMade d) }
    ensures points { IfOk result (λ d. (p : List ℤ) → Meets d.rows p ↔ Meets (left_by choice.now conj.now.rows) p) }
    ensures lifts { IfOk result (λ d. (q : List ℤ) → IsPoint d q → IsPoint conj.now (lifted choice.now conj.now.rows q)) }
{
    taken(alloc, conj, choice)
}

/// The same, exact.
fn taken(alloc: Global, conj: &Conj, choice: &Choice) -> Result<Conj, StepStop>
    requires { IsWellMade conj.now }
    ensures exact { StepsTo (is_legal choice.now conj.now) (after_choice choice.now conj.now) result }
    ensures made { IfOk result (λ d. IsWellMade d) }
    ensures points { IfOk result (λ d. (p : List ℤ) → Meets d.rows p ↔ Meets (left_by choice.now conj.now.rows) p) }
{
    if !is_legal(conj, choice) {
        return Err(StepStop::Illegal);
    }
    match left(alloc, conj, choice)? {
        Some(next) => Ok(next),
        None => Err(StepStop::Wide),
    }
}

/// The point of a conjunction that a point of what a choice leaves goes back to: one number changes, that of the choice's
/// column. `-e / c` for an equality `c z + e = 0`; `m z + r` for a residue; for `Drop` and `Shadow` the least number that
/// meets all rows, or the greatest where there is no lower row, or 0 where no row has the column; for a splinter none.
/// `Wide` exactly where a number that is formed on the way leaves `i128`.
pub fn lift(
    alloc: Global,
    conj: &Conj,
    choice: &Choice,
    point: &[i128],
) -> Result<Vec<i128>, FormStop>
    requires made { IsWellMade conj.now }
    requires legal { is_legal choice.now conj.now ≡ true }
    requires columns { length point.now ≡ conj.now.columns }
    requires meets { Meets (left_by choice.now conj.now.rows) point.now }
    ensures exact { MadeWhere result (lift_fits choice.now conj.now.rows point.now ≡ true) (λ p. p.items ≡ lifted choice.now conj.now.rows point.now) }
    ensures point { IfOk result (λ p. IsPoint conj.now p.items) }
{
    went_back(alloc, conj, choice, point)
}

/// The same, exact.
fn went_back(
    alloc: Global,
    conj: &Conj,
    choice: &Choice,
    point: &[i128],
) -> Result<Vec<i128>, FormStop>
    requires made { IsWellMade conj.now }
    requires legal { is_legal choice.now conj.now ≡ true }
    requires columns { length point.now ≡ conj.now.columns }
    ensures { MadeWhere result (lift_fits choice.now conj.now.rows point.now ≡ true) (λ p. p.items ≡ lifted choice.now conj.now.rows point.now) }
{
    lifted(alloc, conj, choice, point)
}
