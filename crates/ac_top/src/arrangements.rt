//! The search over the arrangements of a pair, output by output.
ghost use Rattle.std.specs.Prelude.{◌≡◌, ◌+◌, ℕ, List, min, nat_eq, true, None, Some, IfOk, MatchOption};
ghost use Rattle.std.specs.List.{list_any};
ghost use Rattle.ac_assoc.specs.ProgramChains.{chains_of_pair};
ghost use Rattle.ac_syntax.specs.declared.tree.Pair.{Pair as Pairing};
ghost use Rattle.ac_top.specs.ArrangementReports as spec;
ghost use Rattle.ac_top.specs.ArrangementReports.{AreAnswers, EndsAfterRuns, IsAnswer, IsWithoutValuation, arrangements_of, tried_of};
ghost use Rattle.ac_top.specs.ArrangementStages.{IfStopsFirst, IsFinding, IsRegrouped, IsSoFar};

use crate::findings::{Finding, find};
use crate::stopping::stops;
use crate::valuations::is_refuted;
use ac_assoc::types::Chain;
use ac_assoc::{arrange, arrangements};
use ac_base::Items;
use ac_syntax::name::Name;
use ac_syntax::tree::Pair;
use std::alloc::{AllocError, Global};

/// The most arrangements that are tried.
const MOST_TRIED: u64 = 1024;

/// A pair, the symbols that are taken as associative and commutative, and their chains.
#[derive(Clone, Copy)]
pub struct Regrouped<'a> {
    pub pair: &'a Pair,
    pub symbols: &'a [Name],
    pub chains: &'a [Chain],
}

/// The first arrangement in which the search on an output ends early, with the words of the cause.
#[derive(Clone, Copy)]
pub struct Early {
    pub number: u64,
    pub words: &'static [u8],
}

/// What is said of an output.
#[derive(Clone, Copy)]
pub enum Answer {
    /// It is equal in some arrangement.
    Equal,
    /// It is apart in each arrangement.
    Unmatched,
    /// It is apart in each arrangement that is tried, and there are more.
    Spent,
    /// The search on it ends early in some arrangement, and it is equal in none.
    Early(Early),
}

/// The pair of the arrangement with a number, with one output.
fn arrangement(
    alloc: Global,
    asked: &Regrouped<'_>,
    output: usize,
    number: u64,
) -> Result<Pair, AllocError>
    requires { asked.now.chains.now ≡ chains_of_pair asked.now.symbols.now asked.now.pair.now }
    ensures { IfOk result (λ made. made ≡ spec.arrangement asked.now.symbols.now asked.now.pair.now output number) }
{
    let mut made = arrange(alloc, asked.pair, asked.symbols, asked.chains, number)?;
    made.outputs = Items::from_slice(alloc, &[output])?;
    Ok(made)
}

/// What is found of an output in the arrangement with a number; none where no valuation meets the context. It is not searched if an element differs
/// where one differed last.
fn try_arrangement(
    alloc: Global,
    asked: &Regrouped<'_>,
    output: usize,
    number: u64,
    last: &mut Items<i64>,
) -> Result<Option<Finding>, AllocError>
    requires asked { IsRegrouped asked.now }
    requires output { list_any (nat_eq output) asked.now.pair.now.outputs ≡ true }
    ensures { IfOk result (λ found. MatchOption found (IsWithoutValuation asked.now.pair.now) (IsFinding (spec.arrangement asked.now.symbols.now asked.now.pair.now output number) output)) }
{
    let pair = arrangement(alloc, asked, output, number)?;
    let refuted = is_refuted(alloc, &pair, number, last.as_slice())?;
    if refuted {
        return Ok(Some(Finding::Apart));
    }
    find(alloc, &pair, output, last)
}

/// Whether what stands before the search stops in the arrangement with a number, if it is the first in which the search ends early. Then it
/// stops in each, and none behind it is tried.
fn stops_first(
    alloc: Global,
    asked: &Regrouped<'_>,
    output: usize,
    early: Option<Early>,
    number: u64,
) -> Result<bool, AllocError>
    requires asked { IsRegrouped asked.now }
    requires output { list_any (nat_eq output) asked.now.pair.now.outputs ≡ true }
    ensures { IfOk result (IfStopsFirst (spec.arrangement asked.now.symbols.now asked.now.pair.now output number) early) }
{
    match early {
        Some(_first) => Ok(false),
        None => {
            let pair = arrangement(alloc, asked, output, number)?;
            stops(alloc, &pair)
        }
    }
}

/// The first early end, where the search ends early in the arrangement with this number.
fn first_end(early: Option<Early>, number: u64, words: &'static [u8]) -> Early
    ensures number { early ≡ None → result.number ≡ number }
    ensures so_far { (names : List (List ℕ)) (pair : Pairing) (output : ℕ) → IsSoFar names pair output number early → EndsAfterRuns (spec.arrangement names pair output number) output words.now → IsSoFar names pair output (number + 1) (Some result) }
{
    match early {
        Some(first) => first,
        None => Early { number, words },
    }
}

/// What is said of an output after all arrangements that are tried; `count` is their number, or 1,025 if there are more than 1,024.
fn last_answer(early: Option<Early>, count: u64) -> Answer
    ensures { (names : List (List ℕ)) (pair : Pairing) (output : ℕ) → count ≡ min (arrangements_of names pair) 1025 → IsSoFar names pair output (tried_of names pair) early → IsAnswer names pair output result }
{
    match early {
        Some(first) => Answer::Early(first),
        None => {
            if count > MOST_TRIED {
                Answer::Spent
            } else {
                Answer::Unmatched
            }
        }
    }
}

/// What is said of an output; none where no valuation meets the context.
fn answer_on(
    alloc: Global,
    asked: &Regrouped<'_>,
    output: usize,
) -> Result<Option<Answer>, AllocError>
    requires asked { IsRegrouped asked.now }
    requires output { list_any (nat_eq output) asked.now.pair.now.outputs ≡ true }
    ensures { IfOk result (λ found. MatchOption found (IsWithoutValuation asked.now.pair.now) (IsAnswer asked.now.symbols.now asked.now.pair.now output)) }
{
    let count = arrangements(asked.chains);
    let tried = count.min(MOST_TRIED);
    let mut early = None;
    let mut last = Items::new(alloc);
    for number in 0..tried {
        let Some(finding) = try_arrangement(alloc, asked, output, number, &mut last)? else {
            return Ok(None);
        };
        match finding {
            Finding::Equal => return Ok(Some(Answer::Equal)),
            Finding::Apart => continue,
            Finding::Early(words) => {
                let first = first_end(early, number, words);
                let over = stops_first(alloc, asked, output, early, number)?;
                if over {
                    return Ok(Some(Answer::Early(first)));
                }
                early = Some(first);
                continue;
            }
        }
    }
    Ok(Some(last_answer(early, count)))
}

/// What is said of each output, in order; none where no valuation meets the context.
pub fn answers(alloc: Global, asked: &Regrouped<'_>) -> Result<Option<Vec<Answer>>, AllocError>
    requires asked { IsRegrouped asked.now }
    ensures { IfOk result (λ found. MatchOption found (IsWithoutValuation asked.now.pair.now) (λ answers. AreAnswers asked.now.symbols.now asked.now.pair.now asked.now.pair.now.outputs answers.items)) }
{
    let outputs = asked.pair.outputs.as_slice();
    let mut answers = Vec::new(alloc);
    for at in 0..outputs.len() {
        let Some(found) = answer_on(alloc, asked, outputs[at])? else {
            return Ok(None);
        };
        answers.push(found)?;
    }
    Ok(Some(answers))
}
