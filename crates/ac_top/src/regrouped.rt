//! The work of `aprove` on a pair: the answers on its outputs, and their lines.
ghost use Rattle.std.specs.Prelude.{◌≡◌, ◌++◌, None, codes, decimal, length, IfOk, OnOk};
ghost use Rattle.ac_assoc.specs.ArrangementFaults.{fault_of};
ghost use Rattle.ac_assoc.specs.ProgramChains.{chains_of_pair};
ghost use Rattle.ac_syntax.specs.ExecutedCalls.{HaveArities};
ghost use Rattle.ac_top.specs.ArrangementLines as lines;
ghost use Rattle.ac_top.specs.ArrangementReports.{ArrangedReports};
ghost use Rattle.ac_top.specs.ArrangementStages.{IsRegrouped};
ghost use Rattle.ac_top.specs.ProgramAnswers.{AreLowered};
ghost use Rattle.ac_top.specs.Reports.{report as a_report};
ghost use Rattle.ac_top.specs.RunStages.{IsReadPair, written};

use crate::arrangements::{Answer, Early, Regrouped, answers};
use crate::report::{Report, refused};
use crate::status::Status;
use crate::texts::{empty_context_line, name_of};
use ac_assoc::types::Chain;
use ac_syntax::name::Name;
use ac_syntax::tree::{Array, Pair};
use itoa::Buffer;
use std::alloc::{AllocError, Global};

/// Adds the digits of a number.
fn push_digits(bytes: &mut Vec<u8>, number: u64) -> Result<(), AllocError>
    ensures { OnOk result (bytes.new.items ≡ bytes.old.items ++ decimal number) }
{
    let mut buffer = Buffer::new();
    bytes.extend_from_slice(buffer.format(number).as_bytes())
}

/// Adds what stands behind the name of an output on which the search ends early.
fn push_early(bytes: &mut Vec<u8>, first: Early) -> Result<(), AllocError>
    ensures { OnOk result (bytes.new.items ≡ bytes.old.items ++ codes " unknown early in arrangement " ++ decimal first.number ++ codes ": " ++ first.words.now) }
{
    bytes.extend_from_slice(b" unknown early in arrangement ")?;
    push_digits(bytes, first.number)?;
    bytes.extend_from_slice(b": ")?;
    bytes.extend_from_slice(first.words)?;
    Ok(())
}

/// Adds what stands behind the name of an output.
fn push_words(bytes: &mut Vec<u8>, answer: Answer) -> Result<(), AllocError>
    ensures { OnOk result (bytes.new.items ≡ bytes.old.items ++ lines.answer_words answer) }
{
    match answer {
        Answer::Equal => bytes.extend_from_slice(b" equal"),
        Answer::Unmatched => bytes.extend_from_slice(b" unknown unmatched"),
        Answer::Spent => bytes.extend_from_slice(b" unknown spent arrangements"),
        Answer::Early(first) => push_early(bytes, first),
    }
}

/// Adds the line of an output.
fn push_answer(bytes: &mut Vec<u8>, name: &[u8], answer: Answer) -> Result<(), AllocError>
    ensures { OnOk result (bytes.new.items ≡ bytes.old.items ++ lines.answer_line name.now answer) }
{
    bytes.extend_from_slice(name)?;
    push_words(bytes, answer)?;
    bytes.push(b'\n')?;
    Ok(())
}

/// The lines of all outputs.
fn answer_lines(
    alloc: Global,
    arrays: &[Array],
    outputs: &[usize],
    answers: &[Answer],
) -> Result<Vec<u8>, AllocError>
    requires { length outputs.now ≡ length answers.now }
    ensures { IfOk result (λ bytes. bytes.items ≡ lines.answer_lines arrays.now outputs.now answers.now) }
{
    let mut bytes = Vec::new(alloc);
    for at in 0..outputs.len() {
        push_answer(&mut bytes, name_of(arrays, outputs[at]), answers[at])?;
    }
    Ok(bytes)
}

fn is_equal(answer: &Answer) -> bool
    ensures { result ≡ lines.is_equal answer.now }
{
    match answer {
        Answer::Equal => true,
        Answer::Unmatched | Answer::Spent | Answer::Early(_) => false,
    }
}

/// The status of several answers: done where each is equal, else unknown.
fn status_of(answers: &[Answer]) -> Status
    ensures { result ≡ lines.status_of answers.now }
{
    for answer in answers {
        if !is_equal(answer) {
            return Status::Unknown;
        }
    }
    Status::Done
}

/// The report of answers, one for each output.
fn report_answers(alloc: Global, pair: &Pair, answers: &[Answer]) -> Result<Report, AllocError>
    requires { length pair.now.outputs ≡ length answers.now }
    ensures { IfOk result (λ r. written r ≡ a_report (lines.status_of answers.now) (lines.answer_lines pair.now.left.arrays pair.now.outputs answers.now)) }
{
    let arrays = pair.left.arrays.as_slice();
    let text = answer_lines(alloc, arrays, pair.outputs.as_slice(), answers)?;
    Ok(Report {
        status: status_of(answers),
        text,
        proof: None,
    })
}

/// What is reported of a pair whose chains have no fault.
fn report_answered(alloc: Global, asked: &Regrouped<'_>) -> Result<Report, AllocError>
    requires asked { IsRegrouped asked.now }
    ensures { IfOk result (λ r. ArrangedReports asked.now.symbols.now asked.now.pair.now (written r)) }
{
    match answers(alloc, asked)? {
        Some(answers) => report_answers(alloc, asked.pair, answers.as_slice()),
        None => Ok(refused(empty_context_line(alloc)?)),
    }
}

/// What is reported of a pair and its chains, which have no fault.
pub fn report_regrouped(
    alloc: Global,
    pair: &Pair,
    symbols: &[Name],
    chains: &[Chain],
) -> Result<Report, AllocError>
    requires chains { chains.now ≡ chains_of_pair symbols.now pair.now }
    requires fault { fault_of symbols.now pair.now ≡ None }
    requires read { IsReadPair pair.now }
    requires arities { HaveArities pair.now.left.body × HaveArities pair.now.right.body }
    requires lowered { AreLowered pair.now }
    ensures { IfOk result (λ r. ArrangedReports symbols.now pair.now (written r)) }
{
    let asked = Regrouped {
        pair,
        symbols,
        chains,
    };
    report_answered(alloc, &asked)
}
