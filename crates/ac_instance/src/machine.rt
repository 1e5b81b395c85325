ghost use Rattle.std.specs.Prelude.{◌≡◌, ◌≤◌, ◌+ℤ◌, [], ◌∷◌, ℤ, Some, IfOk, map};
ghost use Rattle.std.specs.List.{flat_map};
ghost use Rattle.ac_syntax.specs.Index.{point, index_value};
ghost use Rattle.ac_instance.specs.Events.{event, evaluated, quotient, index, divided};
ghost use Rattle.ac_instance.specs.MachineSteps.{Steps};

use crate::halt::{Halt, Side};
use crate::state::{Machine, Scope};
use ac_syntax::evaluate::round;
use ac_syntax::tree::{IndexExpr, Place, Quot, Rel};
use std::alloc::Global;

impl Machine {
    /// Counts one event.
    pub fn count(&mut self) -> Result<(), Halt>
        ensures { Steps self.old (event ∷ []) result self.new }
    {
        if self.events >= self.limit {
            return Err(Halt::TooLarge(self.limit));
        }
        self.events += 1;
        Ok(())
    }
}

/// An index value as a number of 64 bits.
fn narrow(side: Side, place: Place, value: i128) -> Result<i64, Halt>
    ensures value { IfOk result (λ v. v ≡ value) }
    ensures steps { (m : _) → Steps m (evaluated side place (Some value) ∷ []) result m }
{
    match i64::try_from(value) {
        Ok(v) => Ok(v),
        Err(_) => Err(Halt::Range { side, place, value }),
    }
}

/// An index value that is taken; none where it has no value in 128 bits.
fn taken(side: Side, place: Place, value: Option<i128>) -> Result<i64, Halt>
    ensures value { IfOk result (λ v. value ≡ Some v) }
    ensures steps { (m : _) → Steps m (evaluated side place value ∷ []) result m }
{
    match value {
        None => Err(Halt::Wide),
        Some(value) => narrow(side, place, value),
    }
}

/// The form of a quotient, and then the quotient.
fn quotient(scope: &Scope, quot: &Quot, iters: &[i64]) -> Result<(), Halt>
    ensures { (m : _) → Steps m (quotient scope.now.side (point scope.now.params.now iters.now) quot.now) result m }
{
    let _argument = taken(scope.side, quot.place, quot.argument(scope.params, iters))?;
    let _value = taken(scope.side, quot.place, quot.value(scope.params, iters))?;
    Ok(())
}

/// The quotients of an index expression, in order.
fn quotients(scope: &Scope, quots: &[Quot], iters: &[i64]) -> Result<(), Halt>
    ensures { (m : _) → Steps m (flat_map (quotient scope.now.side (point scope.now.params.now iters.now)) quots.now) result m }
{
    for quot in quots {
        quotient(scope, quot, iters)?;
    }
    Ok(())
}

/// The quotient of a value by the divisor that a comparison tests.
pub fn divided(side: Side, place: Place, rel: Rel, value: i64) -> Result<(), Halt>
    ensures { (m : _) → Steps m (divided side place rel value) result m }
{
    match rel {
        Rel::NonNegative => Ok(()),
        Rel::Zero => Ok(()),
        Rel::Divides(divisor) => {
            let _quotient = taken(side, place, round(divisor, value as i128))?;
            Ok(())
        }
    }
}

/// The value of an index expression.
pub fn index_of(scope: &Scope, form: &IndexExpr, iters: &[i64]) -> Result<i64, Halt>
    ensures value { IfOk result (λ v. v ≡ index_value (point scope.now.params.now iters.now) form.now) }
    ensures steps { (m : _) → Steps m (index scope.now.side (point scope.now.params.now iters.now) form.now) result m }
{
    quotients(scope, form.quots.as_slice(), iters)?;
    let value = taken(scope.side, form.place, form.value(scope.params, iters))?;
    Ok(value)
}

/// The value of an iterator after one more step.
pub fn stepped(scope: &Scope, place: Place, x: i64, step: i64) -> Result<i64, Halt>
    ensures value { IfOk result (λ v. v ≡ x +ℤ step) }
    ensures steps { (m : _) → Steps m (evaluated scope.now.side place (Some (x +ℤ step)) ∷ []) result m }
{
    narrow(scope.side, place, x as i128 + step as i128)
}

/// The values of subscripts, from left to right.
pub fn indices(
    alloc: Global,
    scope: &Scope,
    subs: &[IndexExpr],
    iters: &[i64],
) -> Result<Vec<i64>, Halt>
    ensures value { IfOk result (λ at. at.items ≡ map (index_value (point scope.now.params.now iters.now)) subs.now) }
    ensures steps { (m : _) → Steps m (flat_map (index scope.now.side (point scope.now.params.now iters.now)) subs.now) result m }
{
    let mut at = Vec::new(alloc);
    for sub in subs {
        let value = index_of(scope, sub, iters)?;
        at.push(value)?;
    }
    Ok(at)
}
