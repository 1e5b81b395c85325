// The lines of `check`.
ghost use Rattle.std.specs.Prelude.{◌≡◌, ◌++◌, take, OnOk, IfOk};
ghost use Rattle.ac_top.specs.ConsoleLines as text;

use crate::texts::name_of;
use ac_cert::types::Rule;
use ac_syntax::tree::Array;
use itoa::Buffer;
use std::alloc::{AllocError, Global};

/// Adds the line of an output that an accepted proof names.
fn push_accepted(bytes: &mut Vec<u8>, name: &[u8]) -> Result<(), AllocError>
    ensures { OnOk result (bytes.new.items ≡ bytes.old.items ++ text.accepted_line name.now) }
{
    bytes.extend_from_slice(name)?;
    bytes.extend_from_slice(b" accepted\n")
}

/// The lines of the outputs that an accepted proof names.
pub fn accepted_lines(
    alloc: Global,
    arrays: &[Array],
    outputs: &[usize],
) -> Result<Vec<u8>, AllocError>
    ensures { IfOk result (λ bytes. bytes.items ≡ text.accepted_lines arrays.now outputs.now) }
{
    let mut bytes = Vec::new(alloc);
    for output in outputs {
        push_accepted(&mut bytes, name_of(arrays, *output))?;
    }
    Ok(bytes)
}

/// The line for a proof of which a rule refuses this line.
pub fn rejected_line(alloc: Global, line: u64, rule: Rule) -> Result<Vec<u8>, AllocError>
    ensures { IfOk result (λ bytes. bytes.items ≡ text.rejected_line line rule) }
{
    let mut buffer = Buffer::new();
    let mut bytes = Vec::from_slice(alloc, b"rejected at line ")?;
    bytes.extend_from_slice(buffer.format(line).as_bytes())?;
    bytes.extend_from_slice(b": ")?;
    bytes.extend_from_slice(rule.name().as_bytes())?;
    bytes.push(b'\n')?;
    Ok(bytes)
}

/// The line for a proof of too many bytes, or one that is nested too deep.
pub fn rejected_too_long_line(alloc: Global) -> Result<Vec<u8>, AllocError>
    ensures { IfOk result (λ bytes. bytes.items ≡ text.rejected_too_long_line) }
{
    Vec::from_slice(alloc, b"rejected: too long\n")
}
