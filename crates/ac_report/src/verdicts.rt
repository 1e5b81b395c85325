//! The lines of verdicts.
ghost use Rattle.std.specs.Prelude.{◌≡◌, ◌++◌, codes, slice_get, OnOk, IfOk};
ghost use Rattle.std.specs.List.{flat_map};
ghost use Rattle.ac_syntax.specs.Text.{array_name};
ghost use Rattle.ac_report.specs.Layouts.{layout_of};
ghost use Rattle.ac_report.specs.ReportTexts as text;

use crate::causes::{cause_words, push_cause_lines};
use crate::layout::{Layout, array_name, assignments_of};
use crate::numbers::push_short;
use crate::quotients::quotient_counts;
use crate::types::Verdict;
use ac_syntax::name::Name;
use ac_syntax::tree::Pair;
use std::alloc::{AllocError, Global};

/// Adds a parameter with its value.
#[tactic(auto, using(crate::proofs::Layouts::joins))]
fn push_value(bytes: &mut Vec<u8>, name: &[u8], value: i64) -> Result<(), AllocError>
    ensures { OnOk result (bytes.new.items ≡ bytes.old.items ++ text.value_text name.now value) }
{
    bytes.extend_from_slice(name)?;
    bytes.push(b'=')?;
    push_short(bytes, value)
}

/// Adds a further parameter with its value.
#[tactic(auto, using(crate::proofs::Layouts::joins))]
fn push_further_value(bytes: &mut Vec<u8>, name: &Name, value: &i64) -> Result<(), AllocError>
    ensures { OnOk result (bytes.new.items ≡ bytes.old.items ++ (codes ", " ++ text.value_text name.now value.now)) }
{
    bytes.extend_from_slice(b", ")?;
    push_value(bytes, name.as_bytes(), *value)
}

/// Adds further parameters with their values.
#[tactic(auto, using(crate::proofs::Lists::values_steps))]
fn push_further_values(
    bytes: &mut Vec<u8>,
    names: &[Name],
    values: &[i64],
) -> Result<(), AllocError>
    ensures { OnOk result (bytes.new.items ≡ bytes.old.items ++ text.further_values names.now values.now) }
{
    for at in 0..names.len().min(values.len()) {
        push_further_value(bytes, &names[at], &values[at])?;
    }
    Ok(())
}

/// Adds a valuation.
#[tactic(auto, using(crate::proofs::Layouts::joins))]
fn push_valuation(bytes: &mut Vec<u8>, names: &[Name], values: &[i64]) -> Result<(), AllocError>
    ensures { OnOk result (bytes.new.items ≡ bytes.old.items ++ text.valuation_text names.now values.now) }
{
    let [name, names @ ..] = names else {
        return Ok(());
    };
    let [value, values @ ..] = values else {
        return Ok(());
    };
    bytes.extend_from_slice(b" at ")?;
    push_value(bytes, name.as_bytes(), *value)?;
    push_further_values(bytes, names, values)
}

fn push_coordinate(bytes: &mut Vec<u8>, x: i64) -> Result<(), AllocError>
    ensures { OnOk result (bytes.new.items ≡ bytes.old.items ++ text.coordinate_text x) }
{
    bytes.push(b'[')?;
    push_short(bytes, x)?;
    bytes.push(b']')?;
    Ok(())
}

/// Adds the coordinates of an element.
fn push_element(bytes: &mut Vec<u8>, element: &[i64]) -> Result<(), AllocError>
    ensures { OnOk result (bytes.new.items ≡ bytes.old.items ++ flat_map text.coordinate_text element.now) }
{
    for x in element {
        push_coordinate(bytes, *x)?;
    }
    Ok(())
}

/// Adds the lines of a verdict.
#[tactic(auto, using(crate::proofs::Layouts::joins))]
fn push_verdict(
    alloc: Global,
    bytes: &mut Vec<u8>,
    layout: &Layout<'_>,
    name: &[u8],
    verdict: &Verdict,
) -> Result<(), AllocError>
    ensures { OnOk result (bytes.new.items ≡ bytes.old.items ++ text.verdict_lines layout.now name.now verdict.now) }
{
    bytes.extend_from_slice(name)?;
    match verdict {
        Verdict::Equal => bytes.extend_from_slice(b" equal\n"),
        Verdict::Different { at, element } => {
            bytes.extend_from_slice(b" different")?;
            push_valuation(bytes, layout.params, at.as_slice())?;
            bytes.extend_from_slice(b", element ")?;
            push_element(bytes, element.as_slice())?;
            bytes.push(b'\n')?;
            Ok(())
        }
        Verdict::Unknown(cause) => {
            bytes.extend_from_slice(b" unknown ")?;
            bytes.extend_from_slice(cause_words(cause))?;
            bytes.push(b'\n')?;
            push_cause_lines(alloc, bytes, layout, cause)
        }
    }
}

/// Adds the lines of a verdict on the array with a number.
fn push_output(
    alloc: Global,
    bytes: &mut Vec<u8>,
    layout: &Layout<'_>,
    output: usize,
    verdict: &Verdict,
) -> Result<(), AllocError>
    ensures { OnOk result (bytes.new.items ≡ bytes.old.items ++ text.verdict_lines layout.now (array_name (slice_get layout.now.arrays output)) verdict.now) }
{
    push_verdict(
        alloc,
        bytes,
        layout,
        array_name(layout.arrays, output),
        verdict,
    )
}

/// Adds the lines of verdicts.
#[tactic(auto, using(crate::proofs::Lists::report_steps))]
fn push_verdicts(
    alloc: Global,
    bytes: &mut Vec<u8>,
    layout: &Layout<'_>,
    outputs: &[usize],
    verdicts: &[Verdict],
) -> Result<(), AllocError>
    ensures { OnOk result (bytes.new.items ≡ bytes.old.items ++ text.report_lines layout.now outputs.now verdicts.now) }
{
    for at in 0..outputs.len().min(verdicts.len()) {
        push_output(alloc, bytes, layout, outputs[at], &verdicts[at])?;
    }
    Ok(())
}

/// The lines of the verdicts of a pair, one verdict for each output in order: a first line for each, and behind it what shows an
/// unknown output's cause. The coordinates of an entry's left position are as many as its loops and quotients, or its dimensions.
/// What is behind them are those of the right one.
pub fn verdict_text(alloc: Global, pair: &Pair, verdicts: &[Verdict]) -> Result<Vec<u8>, AllocError>
    ensures { IfOk result (λ bytes. bytes.items ≡ text.report_lines (layout_of pair.now.left) pair.now.outputs verdicts.now) }
{
    let assignments = assignments_of(alloc, pair.left.body.as_slice())?;
    let quotients = quotient_counts(alloc, pair.left.body.as_slice())?;
    let layout = Layout {
        params: pair.left.params.as_slice(),
        arrays: pair.left.arrays.as_slice(),
        assignments: assignments.as_slice(),
        quotients: quotients.as_slice(),
    };
    let mut bytes = Vec::new(alloc);
    push_verdicts(
        alloc,
        &mut bytes,
        &layout,
        pair.outputs.as_slice(),
        verdicts,
    )?;
    Ok(bytes)
}
