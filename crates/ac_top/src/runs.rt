// The work of `instance`: both programs of a pair run at one valuation, and what is reported of it.
ghost use Rattle.std.specs.Prelude.{◌≡◌, ◌≤◌, ℤ, List, length, map, option_map, IfOk, MatchOption};
ghost use Rattle.ac_syntax.specs.Small.{IsSmallPair};
ghost use Rattle.ac_instance.specs.ComparisonAnswers.{IsReadyAt};
ghost use Rattle.ac_instance.specs.declared.halt.Halt.TheVariants.{Wide};
ghost use Rattle.ac_cli_args.specs.Valuations.{IsValuationWord};
ghost use Rattle.ac_top.specs.Reports.{report as a_report};
ghost use Rattle.ac_top.specs.InstanceReports.{valuation_word, IsGiven, status_of, IsReadyPair, RunReports, InstanceReports, HaltReports};
ghost use Rattle.ac_top.specs.RunStages.{written};
ghost use Rattle.ac_top.specs.ConsoleLines.{outcome_lines};

use crate::halts::{
    outcome_lines, outside_context_line, range_line, status_of_outcomes, too_large_line,
    valuation_line,
};
use crate::report::{Report, refused};
use crate::status::Status;
use ac_cli_args::valuation;
use ac_instance::{Halt, Outcome, Side, instance};
use ac_syntax::tree::Pair;
use std::alloc::{AllocError, Global};

/// A source file: its name and its bytes.
#[derive(Clone, Copy)]
pub struct Named<'a> {
    pub name: &'a [u8],
    pub bytes: &'a [u8],
}

/// What is to be done with a pair.
#[derive(Clone, Copy)]
pub enum Task<'a> {
    /// Compare its outputs at each valuation of the context, with questions of at most this cost, and write what proves them equal to
    /// a file.
    Prove {
        budget: u64,
        proof: Option<&'a [u8]>,
    },
    /// Test a proof file against it.
    Check {
        proof: &'a [u8],
    },
    /// Run both programs at the valuation that a word gives, with at most this many events.
    Instance {
        at: Option<&'a [u8]>,
        limit: u64,
    },
}

/// The report of a run that was halted.
fn halted(text: Vec<u8>) -> Report
    ensures { written result ≡ a_report Status.Halted text.items }
{
    Report {
        status: Status::Halted,
        text,
        proof: None,
    }
}

/// What is reported of a halt of the runs of two files.
pub fn report_halt(
    alloc: Global,
    left: &Named<'_>,
    right: &Named<'_>,
    halt: Halt,
) -> Result<Report, AllocError>
    requires { ¬ (halt ≡ Wide) }
    ensures { IfOk result (λ r. HaltReports left.now.name.now right.now.name.now left.now.bytes.now right.now.bytes.now halt (written r)) }
{
    match halt {
        Halt::OutsideContext => Ok(refused(outside_context_line(alloc)?)),
        Halt::TooLarge(limit) => Ok(halted(too_large_line(alloc, limit)?)),
        Halt::Range {
            side: Side::Left,
            place,
            value,
        } => Ok(halted(range_line(alloc, left.name, left.bytes, place, value)?)),
        Halt::Range {
            side: Side::Right,
            place,
            value,
        } => Ok(halted(range_line(alloc, right.name, right.bytes, place, value)?)),
        Halt::Wide => unreachable!(),
        Halt::Memory(error) => Err(error),
    }
}

/// The lines of the outcomes of a pair's outputs, with their status.
fn report_outcomes(alloc: Global, pair: &Pair, outcomes: &[Outcome]) -> Result<Report, AllocError>
    requires { length pair.now.outputs ≡ length outcomes.now }
    ensures { IfOk result (λ r. written r ≡ a_report (status_of outcomes.now) (outcome_lines pair.now.left.arrays pair.now.outputs outcomes.now)) }
{
    let arrays = pair.left.arrays.as_slice();
    let text = outcome_lines(alloc, arrays, pair.outputs.as_slice(), outcomes)?;
    Ok(Report {
        status: status_of_outcomes(outcomes),
        text,
        proof: None,
    })
}

/// What is reported of the runs of a pair of two files at a valuation.
fn report_runs(
    alloc: Global,
    left: &Named<'_>,
    right: &Named<'_>,
    pair: &Pair,
    valuation: &[i64],
    limit: u64,
) -> Result<Report, AllocError>
    requires ready { IsReadyAt pair.now valuation.now }
    requires small { IsSmallPair pair.now }
    requires limit { limit ≤ 1000000 }
    ensures { IfOk result (λ r. RunReports left.now.name.now right.now.name.now left.now.bytes.now right.now.bytes.now pair.now valuation.now limit (written r)) }
{
    match instance(alloc, pair, valuation, limit) {
        Ok(ran) => report_outcomes(alloc, pair, ran.outcomes.as_slice()),
        Err(halt) => report_halt(alloc, left, right, halt),
    }
}

/// The values that the word after `--at` gives the parameters of the left program.
fn given(alloc: Global, pair: &Pair, at: Option<&[u8]>) -> Result<Option<Vec<i64>>, AllocError>
    ensures { IfOk result (λ found. MatchOption found ((params : List ℤ) → ¬ (IsGiven pair.now (option_map (λ w. w.now) at.entry) params)) (λ values. IsGiven pair.now (option_map (λ w. w.now) at.entry) values.items)) }
{
    let params = pair.left.params.as_slice();
    match at {
        Some(word) => valuation(alloc, params, word),
        None => valuation(alloc, params, b""),
    }
}

/// What `instance` reports of a pair of two files, with the word after `--at` and the limit.
pub fn report_instance(
    alloc: Global,
    left: &Named<'_>,
    right: &Named<'_>,
    pair: &Pair,
    at: Option<&[u8]>,
    limit: u64,
) -> Result<Report, AllocError>
    requires ready { IsReadyPair pair.now }
    requires small { IsSmallPair pair.now }
    requires limit { limit ≤ 1000000 }
    ensures { IfOk result (λ r. InstanceReports left.now.name.now right.now.name.now left.now.bytes.now right.now.bytes.now pair.now (option_map (λ w. w.now) at.entry) limit (written r)) }
{
    match given(alloc, pair, at)? {
        Some(values) => report_runs(alloc, left, right, pair, &values, limit),
        None => Ok(refused(valuation_line(alloc)?)),
    }
}
