ghost use Rattle.std.specs.Prelude.{◌≡◌, ◌<◌, ℤ, List, length, set, IfOk, ◌↔◌, true, false};
ghost use Rattle.ac_forms.specs.Rows.{IsWellMade, HaveModuli, Meets};
ghost use Rattle.ac_omega_steps.specs.declared.choose.Choice.{Choice};
ghost use Rattle.ac_omega_steps.specs.Choices.{are_absurd, is_legal, left_by};
ghost use Rattle.ac_forms.specs.FormStops.{GivenOf, IfWide};
ghost use Rattle.ac_forms.specs.ListMembers.{IsAmong};
ghost use Rattle.ac_omega_certify.specs.Alternatives.{alternatives_for, all_of};
ghost use Rattle.ac_omega_certify.specs.declared.strategy.Strategy.TheVariants.{Full};

use crate::cursor::{Next, advance, first};
use ac_base::Items;
use ac_forms::{Conj, FormStop, Row};
use ac_omega_certify::Strategy;
use ac_omega_steps::Choice;
use std::alloc::Global;

/// The choices for a column, in order, all at once.
///
/// The conjunction is meant to be in normal form; no clause needs that. An integer for the column exists exactly where one
/// of the choices leaves rows that have a point with the other numbers. `Wide` exactly where a number that makes the list
/// leaves `i128`: the least common multiple of the moduli, or one of the range of a row's splinters.
pub fn choices(alloc: Global, conj: &Conj, z: usize) -> Result<Items<Choice>, FormStop>
    requires made { IsWellMade conj.now }
    requires column { z < conj.now.columns }
    requires not_absurd { are_absurd conj.now.rows ≡ false }
    ensures exact { GivenOf result IfWide (all_of (alternatives_for Full z conj.now.rows)) }
    ensures legal { IfOk result (λ hs. (h : Choice) → IsAmong h hs → is_legal h conj.now ≡ true) }
    ensures complete { IfOk result (λ hs. (p : List ℤ) → length p ≡ conj.now.columns → ((v : ℤ) × Meets conj.now.rows (set p z v)) ↔ ((h : Choice) × IsAmong h hs × (w : ℤ) × Meets (left_by h conj.now.rows) (set p z w))) }
{
    choices_by(alloc, Strategy::Full, conj, z)
}

/// The choices of a strategy for a column, in order, all at once.
///
/// As of `choices`. Economical splinters stand only for pairs of a lower and an upper row whose dark shadow may lose a point;
/// there `Wide` exactly also where a number of a pair's shadow or of its normal form leaves `i128`.
pub fn choices_by(
    alloc: Global,
    strategy: Strategy,
    conj: &Conj,
    z: usize,
) -> Result<Items<Choice>, FormStop>
    requires made { IsWellMade conj.now }
    requires column { z < conj.now.columns }
    requires not_absurd { are_absurd conj.now.rows ≡ false }
    ensures exact { GivenOf result IfWide (all_of (alternatives_for strategy z conj.now.rows)) }
    ensures legal { IfOk result (λ hs. (h : Choice) → IsAmong h hs → is_legal h conj.now ≡ true) }
    ensures complete { IfOk result (λ hs. (p : List ℤ) → length p ≡ conj.now.columns → ((v : ℤ) × Meets conj.now.rows (set p z v)) ↔ ((h : Choice) × IsAmong h hs × (w : ℤ) × Meets (left_by h conj.now.rows) (set p z w))) }
{
    listed(alloc, strategy, z, conj.rows.as_slice())
}

/// The choices for a column in rows.
fn listed(
    alloc: Global,
    strategy: Strategy,
    z: usize,
    rows: &[Row],
) -> Result<Items<Choice>, FormStop>
    requires { HaveModuli rows.now }
    ensures { GivenOf result IfWide (all_of (alternatives_for strategy z rows.now)) }
{
    let mut made = Items::new(alloc);
    let mut cursor = first(strategy, z, rows);
    'choices: loop {
        match advance(alloc, strategy, z, rows, &cursor) {
            Err(want) => return Err(FormStop::Memory(want)),
            Ok(Next::Wide) => return Err(FormStop::Wide),
            Ok(Next::End) => return Ok(made),
            Ok(Next::Try(choice, behind)) => {
                made.push(choice)?;
                cursor = behind;
            }
        }
    }
}
