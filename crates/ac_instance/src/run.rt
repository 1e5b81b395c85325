ghost use Rattle.std.specs.Prelude.{◌≡◌, ◌+◌, ◌++◌, ◌∷◌, [], List, ℕ, ℤ, Some, length, IfOk, OnOk, if◌then◌else◌};
ghost use Rattle.ac_syntax.specs.Algebra.{Cell, run, same_cell};
ghost use Rattle.ac_syntax.specs.Index.{point, index_value, holds, comparison_holds};
ghost use Rattle.std.specs.List.{list_all};
ghost use Rattle.ac_syntax.specs.ReadyPrograms.{Ready, ReadyAll};
ghost use Rattle.ac_syntax.specs.Term.{Term, free};
ghost use Rattle.ac_syntax.specs.Trace.{each_turn, trace, trace_all};
ghost use Rattle.ac_syntax.specs.Turns.{Bounded};
ghost use Rattle.ac_instance.specs.Events.{in_part, in_test, in_stmt, in_all, in_loop};
ghost use Rattle.ac_instance.specs.KeptIds.{cell, id_at, leaf_in, Holds};
ghost use Rattle.ac_instance.specs.MachineSteps.{Steps};
ghost use Rattle.ac_instance.specs.declared.state.Machine.{Machine};

use crate::cells::{Cells, Target};
use crate::halt::Halt;
use crate::machine::{divided, index_of, indices, stepped};
use crate::state::{Machine, Scope};
use ac_syntax::evaluate::rel_holds;
use ac_syntax::tree::{Comparison, Cond, IndexExpr, Place, Stmt};
use ac_terms::TermId;
use std::alloc::{AllocError, Global};

/// The iterators with one more, the innermost.
pub fn inner(alloc: Global, iters: &[i64], x: i64) -> Result<Vec<i64>, AllocError>
    ensures { IfOk result (λ longer. longer.items ≡ iters.now ++ x ∷ []) }
{
    let mut longer = Vec::from_slice(alloc, iters)?;
    longer.push(x)?;
    Ok(longer)
}

/// Whether a comparison holds.
fn compared(scope: &Scope, part: &Comparison, iters: &[i64]) -> Result<bool, Halt>
    ensures value { IfOk result (λ b. b ≡ comparison_holds (point scope.now.params.now iters.now) part.now) }
    ensures steps { (m : _) → Steps m (in_part scope.now.side (point scope.now.params.now iters.now) part.now) result m }
{
    let value = index_of(scope, &part.form, iters)?;
    divided(scope.side, part.form.place, part.rel, value)?;
    Ok(rel_holds(part.rel, value as i128))
}

/// Whether all comparisons hold, evaluated up to the first that does not.
fn test(scope: &Scope, parts: &[Comparison], iters: &[i64]) -> Result<bool, Halt>
    ensures value { IfOk result (λ b. b ≡ list_all (comparison_holds (point scope.now.params.now iters.now)) parts.now) }
    ensures steps { (m : _) → Steps m (in_test scope.now.side (point scope.now.params.now iters.now) parts.now) result m }
{
    for part in parts {
        if !compared(scope, part, iters)? {
            return Ok(false);
        }
    }
    Ok(true)
}

/// Keeps an id for the cell that an assignment writes.
fn store(cells: &mut Cells, array: usize, index: Vec<i64>, id: TermId) -> Result<(), Halt>
    ensures set { OnOk result ((c : Cell) → id_at cells.new c ≡ (if same_cell (cell array index.items) c then Some id else id_at cells.old c)) }
    ensures steps { (m : Machine) → Steps m [] result m }
{
    cells.set(Target { array, index }, id)?;
    Ok(())
}

/// A loop but for its name and its body.
#[derive(Drop)]
struct Head<'a> {
    start: &'a IndexExpr,
    cond: &'a Cond,
    step: i64,
    place: Place,
}

impl Machine {
    /// Runs a loop: its start, then for each turn the condition, the turn's event, the body and the next value of the
    /// iterator, until the condition fails.
    #[cycle(runs)]
    fn repeat(
        &mut self,
        alloc: Global,
        scope: &Scope,
        cells: &mut Cells,
        iters: &[i64],
        head: &Head,
        body: &[Stmt],
    ) -> Result<(), Halt>
        ensures steps { Bounded (length iters.now) head.now.step head.now.cond.now → ReadyAll (length scope.now.params.now) (length iters.now + 1) body.now → Steps self.old (in_loop scope.now.side (λ q. in_all scope.now.side q body.now) (point scope.now.params.now iters.now) head.now.start.now head.now.cond.now head.now.step head.now.place) result self.new }
        ensures ran { Bounded (length iters.now) head.now.step head.now.cond.now → ReadyAll (length scope.now.params.now) (length iters.now + 1) body.now → (first : ℕ) (counters : List ℤ) (state : Cell → Term) → Holds self.old.table cells.old (leaf_in scope.now.side scope.now.arrays.now) state → OnOk result (Holds self.new.table cells.new (leaf_in scope.now.side scope.now.arrays.now) (run free (each_turn (trace_all body.now first) (point scope.now.params.now iters.now) head.now.start.now head.now.cond.now head.now.step counters) state)) }
    {
        let mut x = index_of(scope, head.start, iters)?;
        for _turn in 0..u64::MAX {
            let at = inner(alloc, iters, x)?;
            if !test(scope, head.cond.parts.as_slice(), &at)? {
                return Ok(());
            }
            self.count()?;
            self.run_all(alloc, scope, cells, &at, body)?;
            x = stepped(scope, head.place, x, head.step)?;
        }
        Err(Halt::TooLarge(self.limit))
    }

    /// Runs a statement.
    #[cycle(runs)]
    fn run_one(
        &mut self,
        alloc: Global,
        scope: &Scope,
        cells: &mut Cells,
        iters: &[i64],
        stmt: &Stmt,
    ) -> Result<(), Halt>
        ensures steps { Ready (length scope.now.params.now) (length iters.now) stmt.now → Steps self.old (in_stmt scope.now.side (point scope.now.params.now iters.now) stmt.now) result self.new }
        ensures ran { Ready (length scope.now.params.now) (length iters.now) stmt.now → (first : ℕ) (counters : List ℤ) (state : Cell → Term) → Holds self.old.table cells.old (leaf_in scope.now.side scope.now.arrays.now) state → OnOk result (Holds self.new.table cells.new (leaf_in scope.now.side scope.now.arrays.now) (run free (trace stmt.now first (point scope.now.params.now iters.now) counters) state)) }
    {
        match stmt {
            Stmt::For {
                start,
                cond,
                step,
                body,
                place,
                ..
            } => {
                let head = Head {
                    start,
                    cond,
                    step: *step,
                    place: *place,
                };
                self.repeat(alloc, scope, cells, iters, &head, body.as_slice())
            }
            Stmt::If {
                cond,
                taken,
                other,
                ..
            } => {
                if test(scope, cond.parts.as_slice(), iters)? {
                    self.run_all(alloc, scope, cells, iters, taken.as_slice())
                } else {
                    self.run_all(alloc, scope, cells, iters, other.as_slice())
                }
            }
            Stmt::Assign {
                array,
                subs,
                value,
                ..
            } => {
                let id = self.evaluate(alloc, scope, cells, iters, value)?;
                let index = indices(alloc, scope, subs.as_slice(), iters)?;
                store(cells, *array, index, id)
            }
        }
    }

    /// Runs statements one after another.
    #[cycle(runs)]
    pub fn run_all(
        &mut self,
        alloc: Global,
        scope: &Scope,
        cells: &mut Cells,
        iters: &[i64],
        stmts: &[Stmt],
    ) -> Result<(), Halt>
        ensures steps { ReadyAll (length scope.now.params.now) (length iters.now) stmts.now → Steps self.old (in_all scope.now.side (point scope.now.params.now iters.now) stmts.now) result self.new }
        ensures ran { ReadyAll (length scope.now.params.now) (length iters.now) stmts.now → (first : ℕ) (counters : List ℤ) (state : Cell → Term) → Holds self.old.table cells.old (leaf_in scope.now.side scope.now.arrays.now) state → OnOk result (Holds self.new.table cells.new (leaf_in scope.now.side scope.now.arrays.now) (run free (trace_all stmts.now first (point scope.now.params.now iters.now) counters) state)) }
    {
        for stmt in stmts {
            self.run_one(alloc, scope, cells, iters, stmt)?;
        }
        Ok(())
    }
}
