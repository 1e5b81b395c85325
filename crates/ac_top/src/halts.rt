// The lines of `instance`.
ghost use Rattle.std.specs.Prelude.{◌≡◌, ◌++◌, codes, length, OnOk, IfOk};
ghost use Rattle.std.specs.Fmt.{signed_decimal};
ghost use Rattle.ac_top.specs.InstanceReports as run;
ghost use Rattle.ac_top.specs.ConsoleLines as text;

use crate::places::push_place;
use crate::status::Status;
use crate::texts::{name_of, push_element};
use ac_instance::Outcome;
use ac_syntax::tree::{Array, Place};
use itoa::Buffer;
use std::alloc::{AllocError, Global};

/// The line for a word that is no valuation of the parameters.
pub fn valuation_line(alloc: Global) -> Result<Vec<u8>, AllocError>
    ensures { IfOk result (λ bytes. bytes.items ≡ text.valuation_line) }
{
    Vec::from_slice(alloc, b"valuation\n")
}

/// The line for a valuation that the context does not admit.
pub fn outside_context_line(alloc: Global) -> Result<Vec<u8>, AllocError>
    ensures { IfOk result (λ bytes. bytes.items ≡ text.outside_context_line) }
{
    Vec::from_slice(alloc, b"outside context\n")
}

/// The line for runs of more events than this limit.
pub fn too_large_line(alloc: Global, limit: u64) -> Result<Vec<u8>, AllocError>
    ensures { IfOk result (λ bytes. bytes.items ≡ text.too_large_line limit) }
{
    let mut buffer = Buffer::new();
    let mut bytes = Vec::from_slice(alloc, b"halted: more than ")?;
    bytes.extend_from_slice(buffer.format(limit).as_bytes())?;
    bytes.extend_from_slice(b" events\n")?;
    Ok(bytes)
}

/// Adds what stands behind a place where an index value leaves its range.
fn push_range(bytes: &mut Vec<u8>, value: i128) -> Result<(), AllocError>
    ensures { OnOk result (bytes.new.items ≡ bytes.old.items ++ codes ": range " ++ signed_decimal value) }
{
    let mut buffer = Buffer::new();
    bytes.extend_from_slice(b": range ")?;
    bytes.extend_from_slice(buffer.format(value).as_bytes())
}

/// The line for an index value that leaves its range at a place of the named text.
pub fn range_line(
    alloc: Global,
    name: &[u8],
    source: &[u8],
    place: Place,
    value: i128,
) -> Result<Vec<u8>, AllocError>
    ensures { IfOk result (λ bytes. bytes.items ≡ text.range_line name.now source.now place.at value) }
{
    let mut bytes = Vec::from_slice(alloc, b"halted: ")?;
    push_place(&mut bytes, name, source, place.at)?;
    push_range(&mut bytes, value)?;
    bytes.push(b'\n')?;
    Ok(bytes)
}

/// Adds the line of an outcome.
fn push_outcome(bytes: &mut Vec<u8>, name: &[u8], outcome: &Outcome) -> Result<(), AllocError>
    ensures { OnOk result (bytes.new.items ≡ bytes.old.items ++ text.outcome_line name.now outcome.now) }
{
    bytes.extend_from_slice(name)?;
    match outcome {
        Outcome::Equal => bytes.extend_from_slice(b" equal\n"),
        Outcome::Different(element) => {
            bytes.extend_from_slice(b" different, element ")?;
            push_element(bytes, element.as_slice())?;
            bytes.push(b'\n')?;
            Ok(())
        }
    }
}

/// The lines of all outcomes.
pub fn outcome_lines(
    alloc: Global,
    arrays: &[Array],
    outputs: &[usize],
    outcomes: &[Outcome],
) -> Result<Vec<u8>, AllocError>
    requires { length outputs.now ≡ length outcomes.now }
    ensures { IfOk result (λ bytes. bytes.items ≡ text.outcome_lines arrays.now outputs.now outcomes.now) }
{
    let mut bytes = Vec::new(alloc);
    for at in 0..outputs.len() {
        push_outcome(&mut bytes, name_of(arrays, outputs[at]), &outcomes[at])?;
    }
    Ok(bytes)
}

fn is_different(outcome: &Outcome) -> bool
    ensures { result ≡ run.is_different outcome.now }
{
    match outcome {
        Outcome::Equal => false,
        Outcome::Different(_) => true,
    }
}

/// The status of several outcomes: different where one is, else done.
pub fn status_of_outcomes(outcomes: &[Outcome]) -> Status
    ensures { result ≡ run.status_of outcomes.now }
{
    for outcome in outcomes {
        if is_different(outcome) {
            return Status::Different;
        }
    }
    Status::Done
}
