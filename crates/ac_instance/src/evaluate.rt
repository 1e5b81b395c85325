ghost use Rattle.std.specs.Prelude.{◌≡◌, [], ◌∷◌, List, ℤ, map, slice_get, IfOk};
ghost use Rattle.std.specs.List.{flat_map};
ghost use Rattle.std.specs.Option.{option_copied};
ghost use Rattle.ac_syntax.specs.Algebra.{Cell, value_of};
ghost use Rattle.ac_syntax.specs.Index.{point};
ghost use Rattle.ac_syntax.specs.Outputs.{input_at};
ghost use Rattle.ac_syntax.specs.Term.{Term, Terms as TermList, Num, Apply, terms, free};
ghost use Rattle.ac_terms.specs.TableNodes.{leaf_at};
ghost use Rattle.ac_terms.specs.Table.{StandsFor, StandForAll, Keeps};
ghost use Rattle.ac_instance.specs.Events.{in_value};
ghost use Rattle.ac_instance.specs.KeptIds.{cell, cell_of, leaf_in, Holds};
ghost use Rattle.ac_instance.specs.MachineSteps.{Steps};

use crate::cells::{Cells, Target};
use crate::halt::{Halt, Side};
use crate::machine::{index_of, indices};
use crate::state::{Machine, Scope};
use ac_syntax::tree::{Array, Kind, Symbol, Value};
use ac_terms::{Leaf, TermId, Terms};
use std::alloc::{AllocError, Global};

/// The array with this number.
pub fn declared_at(arrays: &[Array], array: usize) -> Option<&Array>
    ensures { option_copied result ≡ slice_get arrays.now array }
{
    arrays.get(array)
}

/// Whether an array is an input; a number beyond the arrays is not.
fn is_input(arrays: &[Array], array: usize) -> bool
    ensures { result ≡ input_at arrays.now array }
{
    match declared_at(arrays, array) {
        Some(declared) => match declared.kind {
            Kind::Input => true,
            Kind::Local => false,
        },
        None => false,
    }
}

/// Whose initial contents the cells of an array have.
fn leaf(side: Side, arrays: &[Array], array: usize) -> Leaf
    ensures { (at : List ℤ) → leaf_at result at ≡ leaf_in side arrays.now (cell array at) }
{
    if is_input(arrays, array) {
        Leaf::Input(array)
    } else {
        match side {
            Side::Left => Leaf::LeftLocal(array),
            Side::Right => Leaf::RightLocal(array),
        }
    }
}

/// The id that is kept for a cell, or that of its leaf.
pub fn read(
    table: &mut Terms,
    cells: &Cells,
    side: Side,
    arrays: &[Array],
    target: &Target,
) -> Result<TermId, AllocError>
    ensures term { (state : Cell → Term) → Holds table.old cells.now (leaf_in side arrays.now) state → IfOk result (λ id. StandsFor table.new (state (cell_of target.now)) id) }
    ensures kept { Keeps table.old table.new }
    ensures names { table.new.commutative ≡ table.old.commutative }
{
    match cells.get(target) {
        Some(id) => Ok(id),
        None => table.initial(leaf(side, arrays, target.array), &target.index),
    }
}

impl Machine {
    /// The id of a number.
    fn number(&mut self, v: i64) -> Result<TermId, Halt>
        ensures term { IfOk result (λ id. StandsFor self.new.table (Num v) id) }
        ensures steps { Steps self.old [] result self.new }
    {
        Ok(self.table.number(v as i128)?)
    }

    /// The id of the term in a cell.
    pub fn load(
        &mut self,
        side: Side,
        arrays: &[Array],
        cells: &Cells,
        target: &Target,
    ) -> Result<TermId, Halt>
        ensures term { (state : Cell → Term) → Holds self.old.table cells.now (leaf_in side arrays.now) state → IfOk result (λ id. StandsFor self.new.table (state (cell_of target.now)) id) }
        ensures steps { Steps self.old [] result self.new }
    {
        Ok(read(&mut self.table, cells, side, arrays, target)?)
    }

    /// The id of a symbol's call.
    fn apply(&mut self, symbol: &Symbol, ids: &[TermId]) -> Result<TermId, Halt>
        ensures term { (ts : TermList) → StandForAll self.old.table ts ids.now → IfOk result (λ id. StandsFor self.new.table (Apply symbol.now ts) id) }
        ensures steps { Steps self.old [] result self.new }
    {
        Ok(self.table.call(symbol, ids)?)
    }

    /// The id of the term of a value, where cells have the terms that are kept for them.
    #[cycle(values)]
    pub fn evaluate(
        &mut self,
        alloc: Global,
        scope: &Scope,
        cells: &Cells,
        iters: &[i64],
        value: &Value,
    ) -> Result<TermId, Halt>
        ensures term { (state : Cell → Term) → Holds self.old.table cells.now (leaf_in scope.now.side scope.now.arrays.now) state → IfOk result (λ id. StandsFor self.new.table (value_of free (point scope.now.params.now iters.now) state value.now) id) }
        ensures steps { Steps self.old (in_value scope.now.side (point scope.now.params.now iters.now) value.now) result self.new }
    {
        self.count()?;
        match value {
            Value::Number(form) => {
                let number = index_of(scope, form, iters)?;
                self.number(number)
            }
            Value::Access { array, subs, .. } => {
                let index = indices(alloc, scope, subs.as_slice(), iters)?;
                let array = *array;
                self.load(scope.side, scope.arrays, cells, &Target { array, index })
            }
            Value::Call { symbol, args, .. } => {
                let ids = self.evaluate_all(alloc, scope, cells, iters, args.as_slice())?;
                self.apply(symbol, &ids)
            }
        }
    }

    /// The ids of the terms of several values, in order.
    #[cycle(values)]
    fn evaluate_all(
        &mut self,
        alloc: Global,
        scope: &Scope,
        cells: &Cells,
        iters: &[i64],
        values: &[Value],
    ) -> Result<Vec<TermId>, Halt>
        ensures term { (state : Cell → Term) → Holds self.old.table cells.now (leaf_in scope.now.side scope.now.arrays.now) state → IfOk result (λ ids. StandForAll self.new.table (terms (map (value_of free (point scope.now.params.now iters.now) state) values.now)) ids.items) }
        ensures steps { Steps self.old (flat_map (in_value scope.now.side (point scope.now.params.now iters.now)) values.now) result self.new }
    {
        let mut ids = Vec::new(alloc);
        for value in values {
            let id = self.evaluate(alloc, scope, cells, iters, value)?;
            ids.push(id)?;
        }
        Ok(ids)
    }
}
