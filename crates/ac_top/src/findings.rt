//! What the search finds of the one output of a pair.
ghost use Rattle.std.specs.Prelude.{◌≡◌, ◌∷◌, [], ℕ, length, IfOk, MatchOption};
ghost use Rattle.ac_claims.specs.Soundness as judge;
ghost use Rattle.ac_poly.specs.Model.{model_of};
ghost use Rattle.ac_report.specs.ReportTexts as text;
ghost use Rattle.ac_syntax.specs.ExecutedCalls.{HaveArities};
ghost use Rattle.ac_syntax.specs.ReadyPrograms.{ReadyProgram, FitParts};
ghost use Rattle.ac_syntax.specs.declared.tree.Pair.{Pair as Pairing};
ghost use Rattle.ac_walk.specs.TriedValuations.{IsTriedIf};
ghost use Rattle.ac_walk.specs.UnknownCauses.{IsAnswered};
ghost use Rattle.ac_walk.specs.Verdicts.{IsMatchedIf, IsVerdict};
ghost use Rattle.ac_top.specs.ArrangementReports as spec;
ghost use Rattle.ac_top.specs.ArrangementReports.{IsWithoutValuation};
ghost use Rattle.ac_top.specs.ArrangementStages.{IsFinding};
ghost use Rattle.ac_top.specs.FlowReports.{default_budget};
ghost use Rattle.ac_top.specs.ProgramAnswers.{AreLowered, IsLowered};

use crate::lowering::{OneLowered, lowered_program};
use crate::valuations::keep;
use ac_base::Items;
use ac_flow::types::Limits;
use ac_poly::types::Model;
use ac_report::{Cause, Verdict};
use ac_syntax::tree::{Cond, Pair, Program};
use ac_walk::{ProveStop, prove};
use std::alloc::{AllocError, Global};

/// The budget of each question.
const LIMITS: Limits = Limits { budget: 50_000 };

/// What the search finds of an output.
#[derive(Clone, Copy)]
pub enum Finding {
    /// It is equal.
    Equal,
    /// No order of the arguments is without a mismatch.
    Apart,
    /// The search ends early, for a cause with these words.
    Early(&'static [u8]),
}

/// Whether the search ends early for this cause.
fn is_early(cause: &Cause) -> bool
    ensures { result ≡ spec.is_early cause.now }
{
    match cause {
        Cause::Unmatched(_) => false,
        Cause::OverflowQuestion(_) | Cause::OverflowHull(_) => true,
        Cause::SpentQuestion { .. } | Cause::SpentPieces { .. } => true,
        Cause::SpentPaths(_) | Cause::SpentOrders(_) => true,
    }
}

/// The words of a cause.
fn words_of(cause: &Cause) -> &'static [u8]
    ensures { result.now ≡ text.cause_words cause.now }
{
    match cause {
        Cause::Unmatched(_) => b"unmatched",
        Cause::OverflowQuestion(_) | Cause::OverflowHull(_) => b"overflow",
        Cause::SpentQuestion { .. } => b"spent question",
        Cause::SpentPieces { .. } => b"spent pieces",
        Cause::SpentPaths(_) => b"spent paths",
        Cause::SpentOrders(_) => b"spent orders",
    }
}

/// What the verdict on the one output of a pair says of it.
fn finding_of(verdict: &Verdict) -> Finding
    ensures { (pair : Pairing) (output : ℕ) → judge.ArePaired pair → IsVerdict pair output verdict.now → IsMatchedIf pair output verdict.now → IsAnswered default_budget pair (verdict.now ∷ []) → IsTriedIf default_budget pair output verdict.now → IsFinding pair output result }
{
    match verdict {
        Verdict::Equal => Finding::Equal,
        Verdict::Different { .. } => Finding::Apart,
        Verdict::Unknown(cause) => {
            if is_early(cause) {
                Finding::Early(words_of(cause))
            } else {
                Finding::Apart
            }
        }
    }
}

/// The one verdict of a list.
fn only_verdict(verdicts: &[Verdict]) -> &Verdict
    requires { length verdicts.now ≡ 1 }
    ensures { verdicts.now ≡ result.now ∷ [] }
{
    &verdicts[0]
}

/// The model of a program that is lowered.
pub fn model_of(alloc: Global, program: &Program, context: &Cond) -> Result<Model, AllocError>
    requires program { ReadyProgram program.now }
    requires context { FitParts (length program.now.params) 0 context.now.parts }
    requires lowered { IsLowered program.now }
    ensures { IfOk result (λ model. model ≡ model_of program.now context.now) }
{
    match lowered_program(alloc, program, context)? {
        OneLowered::Model(model) => Ok(model),
        OneLowered::Refused(_complaint) => unreachable!(),
    }
}

/// What the search finds of the one output of a pair whose programs are lowered; none where no valuation meets the context. The valuation at which an
/// element differs is kept.
pub fn find(
    alloc: Global,
    pair: &Pair,
    output: usize,
    last: &mut Items<i64>,
) -> Result<Option<Finding>, AllocError>
    requires paired { judge.ArePaired pair.now }
    requires arities { HaveArities pair.now.left.body × HaveArities pair.now.right.body }
    requires lowered { AreLowered pair.now }
    requires output { pair.now.outputs ≡ output ∷ [] }
    ensures { IfOk result (λ found. MatchOption found (IsWithoutValuation pair.now) (IsFinding pair.now output)) }
{
    let left = model_of(alloc, &pair.left, &pair.context)?;
    let right = model_of(alloc, &pair.right, &pair.context)?;
    match prove(alloc, pair, &[left, right], &LIMITS) {
        Ok(proved) => {
            let verdict = only_verdict(proved.verdicts.as_slice());
            keep(alloc, last, verdict)?;
            Ok(Some(finding_of(verdict)))
        }
        Err(ProveStop::EmptyContext) => Ok(None),
        Err(ProveStop::Memory(error)) => Err(error),
    }
}
