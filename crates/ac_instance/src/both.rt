ghost use Rattle.std.specs.Prelude.{◌≡◌, ◌≤◌, [], length, IfOk, IsErrOf, Some, None, true, false};
ghost use Rattle.std.specs.List.{AllByRecursion};
ghost use Rattle.ac_syntax.specs.Algebra.{Cell};
ghost use Rattle.ac_syntax.specs.Index.{point};
ghost use Rattle.ac_syntax.specs.Outputs.{extents_at};
ghost use Rattle.ac_syntax.specs.CheckedArithmetic.{checked_holds};
ghost use Rattle.ac_syntax.specs.ReadyPrograms.{ReadyAll};
ghost use Rattle.ac_syntax.specs.Small.{IsSmallPair};
ghost use Rattle.ac_syntax.specs.Sameness.{term};
ghost use Rattle.ac_syntax.specs.Term.{Term};
ghost use Rattle.ac_instance.specs.ComparisonAnswers.{in_outputs, AreOutcomes, IsReadyAt, IsRan, IsAnswer, outcome_of};
ghost use Rattle.ac_instance.specs.Events.{in_all, fits_64};
ghost use Rattle.ac_instance.specs.KeptIds.{leaf_in, Holds};
ghost use Rattle.ac_instance.specs.Least.{AgreeAt, throughout};
ghost use Rattle.ac_instance.specs.MachineSteps.{Steps};
ghost use Rattle.ac_instance.specs.declared.halt.Halt.TheVariants.{OutsideContext, Wide};
ghost use Rattle.ac_instance.specs.declared.halt.Side.TheVariants.{Left, Right};

use crate::cells::Cells;
use crate::compare::Runs;
use crate::evaluate::declared_at;
use crate::halt::{Halt, Outcome, Ran, Side};
use crate::state::{Machine, Scope};
use ac_base::Items;
use ac_syntax::name::Name;
use ac_syntax::tree::{Array, IndexExpr, Pair, Stmt};
use ac_terms::Terms;
use std::alloc::{AllocError, Global};

/// The extents of the array with this number.
fn extents(arrays: &[Array], array: usize) -> &[IndexExpr]
    ensures { result.now ≡ extents_at arrays.now array }
{
    match declared_at(arrays, array) {
        Some(declared) => declared.extents.as_slice(),
        None => &[],
    }
}

/// The same names, in order.
fn copy_names(alloc: Global, names: &[Name]) -> Result<Vec<Name>, AllocError>
    ensures { IfOk result (λ copies. copies.items ≡ names.now) }
{
    let mut copies = Vec::new(alloc);
    for name in names {
        copies.push(name.copy(alloc)?)?;
    }
    Ok(copies)
}

/// What a comparison found.
fn outcome(found: Option<Items<i64>>) -> Outcome
    ensures { result ≡ outcome_of found }
{
    match found {
        None => Outcome::Equal,
        Some(element) => Outcome::Different(element),
    }
}

impl Machine {
    /// Runs a program from its initial contents.
    fn leave(&mut self, alloc: Global, scope: &Scope, body: &[Stmt]) -> Result<Cells, Halt>
        ensures steps { ReadyAll (length scope.now.params.now) 0 body.now → Steps self.old (in_all scope.now.side (point scope.now.params.now []) body.now) result self.new }
        ensures ran { ReadyAll (length scope.now.params.now) 0 body.now → IfOk result (λ cells. Holds self.new.table cells (leaf_in scope.now.side scope.now.arrays.now) (term body.now scope.now.params.now (leaf_in scope.now.side scope.now.arrays.now))) }
    {
        let mut cells = Cells::new(alloc);
        self.run_all(alloc, scope, &mut cells, &[], body)?;
        Ok(cells)
    }

    /// Compares outputs one after another.
    fn compare_all(
        &mut self,
        alloc: Global,
        scope: &Scope,
        left: &Cells,
        right: &Cells,
        outputs: &[usize],
    ) -> Result<Items<Outcome>, Halt>
        ensures outcomes { (l r : Cell → Term) → Holds self.old.table left.now (leaf_in Left scope.now.arrays.now) l → Holds self.old.table right.now (leaf_in Right scope.now.arrays.now) r → IfOk result (AreOutcomes (λ o. throughout (AgreeAt self.old.table.commutative o l r) (point scope.now.params.now []) (extents_at scope.now.arrays.now o)) outputs.now) }
        ensures steps { Steps self.old (in_outputs scope.now.side (point scope.now.params.now []) scope.now.arrays.now outputs.now) result self.new }
    {
        let mut outcomes = Items::new(alloc);
        for output in outputs {
            let runs = Runs {
                left,
                right,
                arrays: scope.arrays,
                output: *output,
            };
            let found = self.compare(alloc, scope, &runs, extents(scope.arrays, *output))?;
            outcomes.push(outcome(found))?;
        }
        Ok(outcomes)
    }
}

/// A machine before the first event.
fn start(alloc: Global, commutative: &[Name], limit: u64) -> Result<Machine, AllocError>
    requires { limit ≤ 1000000 }
    ensures names { IfOk result (λ m. m.table.commutative ≡ commutative.now) }
    ensures events { IfOk result (λ m. m.events ≡ 0) }
    ensures limit { IfOk result (λ m. m.limit ≡ limit) }
{
    let names = copy_names(alloc, commutative)?;
    let table = Terms::new(alloc, names);
    Ok(Machine {
        table,
        events: 0,
        limit,
    })
}

/// Runs both programs and compares their outputs, in the context.
fn within_context(alloc: Global, pair: &Pair, valuation: &[i64], limit: u64) -> Result<Ran, Halt>
    requires { limit ≤ 1000000 }
    ensures { IsReadyAt pair.now valuation.now → IsRan pair.now valuation.now limit result }
{
    let mut machine = start(alloc, pair.commutative.as_slice(), limit)?;
    let arrays = pair.left.arrays.as_slice();
    let scope = Scope {
        side: Side::Left,
        arrays,
        params: valuation,
    };
    let left = machine.leave(alloc, &scope, pair.left.body.as_slice())?;
    let right_scope = Scope {
        side: Side::Right,
        arrays,
        params: valuation,
    };
    let right = machine.leave(alloc, &right_scope, pair.right.body.as_slice())?;
    let outcomes = machine.compare_all(alloc, &scope, &left, &right, pair.outputs.as_slice())?;
    Ok(Ran {
        outcomes,
        events: machine.events,
    })
}

/// Says of numbers of 64 bits that they are such.
fn fit_64_bits(values: &[i64])
    ensures { AllByRecursion (λ v. fits_64 v ≡ true) values.now }
{
    for value in values {
        let _value = *value;
    }
}

/// Runs both programs of a pair over shared terms at the parameters' values, and compares each output element by element.
///
/// The valuation has one number for each parameter, and the limit is at most 1,000,000. Both bodies are as the language
/// has them: one coefficient for each parameter and iterator, and loops that end; the context has no quotient. A quotient's
/// form is an index value, and so is the quotient, before the index expression that holds it. `OutsideContext` comes exactly
/// where the valuation breaks a comparison of the context, which is tested first, in 128 bits and without taking memory.
/// Then the left program runs, the right program runs, and the outputs' extents and elements are taken in order.
/// `TooLarge` comes exactly where the events exceed the limit before an index value leaves 64 bits, and `Range` exactly
/// where one does before the limit is exceeded. `Wide` comes exactly where a partial sum or the product of a quotient leaves
/// 128 bits or a divisor is below 1 before all that: never where numbers have an absolute value of at most 2^31 and divisors
/// are at least 1, with at most 4 parameters, 6 loops around a statement and 2^16 quotients in a form. Want of memory may
/// come at any time from the start of the left run on.
pub fn instance(alloc: Global, pair: &Pair, valuation: &[i64], limit: u64) -> Result<Ran, Halt>
    requires { limit ≤ 1000000 }
    ensures answer { IsReadyAt pair.now valuation.now → IsAnswer pair.now valuation.now limit result }

    // The context is tested before memory is wanted.
    ensures outside { checked_holds (point valuation.now []) pair.now.context.parts ≡ Some false → IsErrOf result OutsideContext }
    ensures wide { checked_holds (point valuation.now []) pair.now.context.parts ≡ None → IsErrOf result Wide }

    // Small numbers have small sums.
    ensures narrow { IsReadyAt pair.now valuation.now → IsSmallPair pair.now → ¬ (IsErrOf result Wide) }
{
    fit_64_bits(valuation);
    match pair.context.holds(valuation, &[]) {
        None => Err(Halt::Wide),
        Some(false) => Err(Halt::OutsideContext),
        Some(true) => within_context(alloc, pair, valuation, limit),
    }
}
