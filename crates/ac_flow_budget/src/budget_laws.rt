//! Programs of differences: their questions are answered within the default budget, in words.
ghost use Rattle.std.specs.Prelude.{◌≡◌, ℕ, ◌≤◌, ◌^◌, length};
ghost use Rattle.ac_forms.specs.declared.conj.Conj.{Conj};
ghost use Rattle.ac_omega.specs.Decisions.{walk_of, IsWide, IsSpent, IsLarge};
ghost use Rattle.ac_omega.specs.Walk.{Empty};
ghost use Rattle.ac_omega.specs.declared.extent.Maxima.{Maxima};
ghost use Rattle.ac_syntax.specs.Dimensions.{HasDimensions};
ghost use Rattle.ac_syntax.specs.ReadyPrograms.{ReadyProgram, FitParts};
ghost use Rattle.ac_parse.specs.Program.{IsProgramOf};
ghost use Rattle.ac_poly.specs.Model.{CellsHaveDimensions, model_of};
ghost use Rattle.ac_flow.specs.Contexts.{ContextStops};
ghost use Rattle.ac_flow.specs.Readers.{IsLowered, StopsAmong, readers};
ghost use Rattle.ac_flow.specs.declared.types.ContextStop.{ContextStop};
ghost use Rattle.ac_flow.specs.declared.types.FlowStop.{FlowStop};
ghost use Rattle.ac_flow_budget.specs.Models.{HasDifferences, IsAnswered, StopsByNoQuestion};
ghost use Rattle.ac_flow_budget.specs.DifferencePrograms.{IsOfDifferences};
ghost use Rattle.ac_flow_budget.specs.FlowQuestions.{IsQuestion, IsSmallQuestion};

use ac_omega_certify::Strategy;
use ac_poly::types::Model;
use ac_syntax::tree::{Cond, Program};

/// The flow of a model of differences, with numbers of at most 2^33 by their absolute value, is stopped by no question
/// where the budget is at least 24,334, as the default one of 50,000 is: each question has at most 22 columns, so that it
/// costs at most 2 * 23^3, and no number of it leaves `i128`. What stops it are too many pieces or want of memory.
pub fn flows_of_differences_stop_by_no_question(m: &Model, budget: u64)
    requires lowered { IsLowered m.now }
    requires dimensions { CellsHaveDimensions m.now }
    requires differences { HasDifferences (2 ^ 33) m.now }
    requires budget { 24334 ≤ budget }
    ensures { (e : FlowStop) → StopsAmong budget m.now (readers m.now) e → StopsByNoQuestion e }
{}

/// Each question of that flow has rows of differences alone, in the first 22 columns, with numbers of at most 2^48. So the walk
/// of each strategy comes to an answer: it costs at most 24,334, no number is too wide, and the greatest numbers that it meets
/// are not large.
pub fn questions_of_differences_are_small(m: &Model, budget: u64, strategy: Strategy)
    requires lowered { IsLowered m.now }
    requires dimensions { CellsHaveDimensions m.now }
    requires differences { HasDifferences (2 ^ 33) m.now }
    ensures rows { (q : Conj) → IsQuestion budget m.now q → IsSmallQuestion q }
    ensures cost { (q : Conj) (k : ℕ) (s : Maxima) → IsQuestion budget m.now q → walk_of strategy budget q ≡ Empty k s → k ≤ 24334 }
    ensures never_wide { (q : Conj) → IsQuestion budget m.now q → IsWide q (walk_of strategy budget q) → ⊥ }
    ensures never_spent { (q : Conj) (k : ℕ) → 24334 ≤ budget → IsQuestion budget m.now q → IsSpent k (walk_of strategy budget q) → ⊥ }
    ensures never_large { (q : Conj) → IsQuestion budget m.now q → IsLarge (walk_of strategy budget q) → ⊥ }
{}

/// So is the question of its context answered: with a valuation, or that there is none, unless memory wants.
pub fn contexts_of_differences_are_answered(m: &Model, budget: u64)
    requires lowered { IsLowered m.now }
    requires differences { HasDifferences (2 ^ 33) m.now }
    requires budget { 24334 ≤ budget }
    ensures { (e : ContextStop) → ContextStops budget m.now e → IsAnswered e }
{}

/// A program whose loops go from a constant on in steps of 1, whose conditions and context compare two names, or a name and
/// 0, up to a number, and whose subscripts and extents of array parameters are a constant or one name plus a constant, and which
/// has no quotients and tests no divisor, has a model of differences, with numbers of at most 2^33 where its own are at most 2^31.
pub fn programs_of_differences(program: &Program, context: &Cond)
    requires { IsOfDifferences program.now context.now }
    ensures { HasDifferences (2 ^ 33) (model_of program.now context.now) }
{}

/// So no question stops the flow of such a program, or its context, where the budget is at least 24,334.
pub fn programs_of_differences_stop_by_no_question(program: &Program, context: &Cond, budget: u64)
    requires ready { ReadyProgram program.now }
    requires fit { FitParts (length program.now.params) 0 context.now.parts }
    requires dimensions { HasDimensions program.now }
    requires differences { IsOfDifferences program.now context.now }
    requires budget { 24334 ≤ budget }
    ensures flow { (e : FlowStop) → StopsAmong budget (model_of program.now context.now) (readers (model_of program.now context.now)) e → StopsByNoQuestion e }
    ensures context { (e : ContextStop) → ContextStops budget (model_of program.now context.now) e → IsAnswered e }
{}

/// Nor does one stop the flow of a text whose program, under its own context, is one of differences.
pub fn texts_of_differences_stop_by_no_question(bytes: &[u8], program: &Program, budget: u64)
    requires text { IsProgramOf bytes.now program.now }
    requires differences { IsOfDifferences program.now program.now.context }
    requires budget { 24334 ≤ budget }
    ensures flow { (e : FlowStop) → StopsAmong budget (model_of program.now program.now.context) (readers (model_of program.now program.now.context)) e → StopsByNoQuestion e }
    ensures context { (e : ContextStop) → ContextStops budget (model_of program.now program.now.context) e → IsAnswered e }
{}
