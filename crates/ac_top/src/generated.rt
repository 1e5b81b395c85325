//! The work of `gen`: a pair of programs made from a seed is proved and run.
ghost use Rattle.std.specs.Prelude.{◌≡◌, ◌≢◌, ◌≤◌, ◌++◌, decimal, Err, OnOk, IfOk};
ghost use Rattle.ac_syntax.specs.Small.{IsSmallPair};
ghost use Rattle.ac_instance.specs.ComparisonAnswers.{IsReadyAt, due};
ghost use Rattle.ac_instance.specs.declared.halt.Halt.TheVariants.{OutsideContext};
ghost use Rattle.ac_claims.specs.Soundness as judge;
ghost use Rattle.ac_gen.specs.GeneratedPair.{IsGeneratedPair};
ghost use Rattle.ac_top.specs.GenReports as spec;
ghost use Rattle.ac_top.specs.Reports.{report as a_report};
ghost use Rattle.ac_top.specs.RunStages.{models_of, written};

use crate::halts::status_of_outcomes;
use crate::prove::report_prove;
use crate::report::Report;
use crate::runs::{Named, report_halt};
use crate::status::Status;
use crate::texts::{name_of, push_element};
use ac_gen::{LoweredPair, generated};
use ac_instance::{Outcome, Ran, instance};
use ac_syntax::tree::Pair;
use itoa::Buffer;
use std::alloc::{AllocError, Global};

/// The budget of each question.
const BUDGET: u64 = 50_000;

/// The most events of the run.
const MAX_EVENTS: u64 = 1_000_000;

/// The array C of both programs.
const OUTPUT: usize = 1;

/// Adds a number.
fn push_count(bytes: &mut Vec<u8>, number: u64) -> Result<(), AllocError>
    ensures { OnOk result (bytes.new.items ≡ bytes.old.items ++ decimal number) }
{
    let mut buffer = Buffer::new();
    bytes.extend_from_slice(buffer.format(number).as_bytes())
}

/// Adds an output and its outcome.
fn push_found(bytes: &mut Vec<u8>, name: &[u8], outcome: &Outcome) -> Result<(), AllocError>
    ensures { OnOk result (bytes.new.items ≡ bytes.old.items ++ spec.found_text name.now outcome.now) }
{
    bytes.extend_from_slice(name)?;
    match outcome {
        Outcome::Equal => bytes.extend_from_slice(b" equal"),
        Outcome::Different(element) => {
            bytes.extend_from_slice(b" different, element ")?;
            push_element(bytes, element.as_slice())
        }
    }
}

/// Adds an output and all its outcomes, of which there is one.
fn push_all_found(bytes: &mut Vec<u8>, name: &[u8], outcomes: &[Outcome]) -> Result<(), AllocError>
    ensures { OnOk result (bytes.new.items ≡ bytes.old.items ++ spec.all_found_text name.now outcomes.now) }
{
    for outcome in outcomes {
        push_found(bytes, name, outcome)?;
    }
    Ok(())
}

/// The line of a run at N=1000 that was not halted.
fn ran_line(alloc: Global, pair: &Pair, ran: &Ran) -> Result<Vec<u8>, AllocError>
    ensures { IfOk result (λ bytes. bytes.items ≡ spec.ran_line pair.now ran.now.outcomes ran.now.events) }
{
    let name = name_of(pair.left.arrays.as_slice(), OUTPUT);
    let mut bytes = Vec::from_slice(alloc, b"instance at N=1000: ")?;
    push_all_found(&mut bytes, name, ran.outcomes.as_slice())?;
    bytes.extend_from_slice(b", ")?;
    push_count(&mut bytes, ran.events)?;
    bytes.extend_from_slice(b" events\n")?;
    Ok(bytes)
}

/// The status and the line of a run at N=1000 that was not halted.
fn report_ran(alloc: Global, pair: &Pair, ran: &Ran) -> Result<Report, AllocError>
    ensures { IfOk result (λ r. written r ≡ spec.ran_report pair.now ran.now.outcomes ran.now.events) }
{
    Ok(Report {
        status: status_of_outcomes(ran.outcomes.as_slice()),
        text: ran_line(alloc, pair, ran)?,
        proof: None,
    })
}

/// The status and the line of the run of a generated pair at N=1000.
fn report_run(alloc: Global, pair: &Pair) -> Result<Report, AllocError>
    requires ready { IsReadyAt pair.now spec.at_1000 }
    requires small { IsSmallPair pair.now }
    requires within { due pair.now spec.at_1000 1000000 ≢ Err OutsideContext }
    ensures { IfOk result (λ r. spec.RunEnds pair.now (written r)) }
{
    let left = Named {
        name: b"left",
        bytes: b"",
    };
    let right = Named {
        name: b"right",
        bytes: b"",
    };
    match instance(alloc, pair, &[1000], MAX_EVENTS) {
        Ok(ran) => report_ran(alloc, pair, &ran),
        Err(halt) => report_halt(alloc, &left, &right, halt),
    }
}

/// The line that says which pair it is.
fn seed_line(alloc: Global, seed: u64, stages: u32) -> Result<Vec<u8>, AllocError>
    ensures { IfOk result (λ bytes. bytes.items ≡ spec.seed_line seed stages) }
{
    let mut bytes = Vec::from_slice(alloc, b"seed ")?;
    push_count(&mut bytes, seed)?;
    bytes.extend_from_slice(b" stages ")?;
    push_count(&mut bytes, stages as u64)?;
    bytes.push(b'\n')?;
    Ok(bytes)
}

/// The status of `gen`: that of the verdicts, or where these are done, that of the run.
fn status_of_both(verdicts: Status, run: Status) -> Status
    ensures { result ≡ spec.status_of_both verdicts run }
{
    match verdicts {
        Status::Done => run,
        other => other,
    }
}

/// What is reported of both: which pair it is, then what `prove` reports of it, and how its run ends.
fn report_both(
    alloc: Global,
    seed: u64,
    stages: u32,
    proved: &Report,
    ended: &Report,
) -> Result<Report, AllocError>
    ensures { IfOk result (λ r. written r ≡ a_report (spec.status_of_both proved.now.status ended.now.status) (spec.seed_line seed stages ++ proved.now.text.items ++ ended.now.text.items)) }
{
    let mut text = seed_line(alloc, seed, stages)?;
    text.extend_from_slice(proved.text.as_slice())?;
    text.extend_from_slice(ended.text.as_slice())?;
    Ok(Report {
        status: status_of_both(proved.status, ended.status),
        text,
        proof: None,
    })
}

/// What is reported of the pair of a seed and its models.
fn report_pair(
    alloc: Global,
    seed: u64,
    stages: u32,
    made: &LoweredPair,
) -> Result<Report, AllocError>
    requires pair { IsGeneratedPair seed stages made.now.pair }
    requires models { made.now.models ≡ models_of made.now.pair }
    requires paired { judge.ArePaired made.now.pair }
    requires small { IsSmallPair made.now.pair }
    requires ready { IsReadyAt made.now.pair spec.at_1000 }
    requires within { due made.now.pair spec.at_1000 1000000 ≢ Err OutsideContext }
    ensures { IfOk result (λ r. spec.GenReports seed stages (written r)) }
{
    let proved = report_prove(alloc, &made.pair, &made.models, BUDGET, None)?;
    let ended = report_run(alloc, &made.pair)?;
    report_both(alloc, seed, stages, &proved, &ended)
}

/// What `gen` reports: which pair it is, the verdict on its output, and what its run at N=1000 finds.
pub fn report_generated(alloc: Global, seed: u64, stages: u32) -> Result<Report, AllocError>
    requires some { 1 ≤ stages }
    requires few { stages ≤ 12 }
    ensures { IfOk result (λ r. spec.GenReports seed stages (written r)) }
{
    let made = generated(alloc, seed, stages)?;
    report_pair(alloc, seed, stages, &made)
}
