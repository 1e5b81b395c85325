//! The canonical text of a program.
ghost use Rattle.std.specs.Prelude.{IfOk, ◌≡◌};
ghost use Rattle.ac_syntax.specs.Text as text;

mod forms;
mod lines;
mod statements;
mod values;

use crate::print::forms::Scope;
use crate::print::lines::{push_commutative, push_context, push_head, push_locals, push_output};
use crate::print::statements::{push_body, push_line};
use crate::tree::Program;
use std::alloc::{AllocError, Global};

/// The canonical text of a program: one item per line, two spaces for each level, pragma lines first, bodies in braces,
/// comparisons as forms that are compared with 0, every call of an operator and every number inside a value in
/// parentheses.
///
/// Names of parameters, iterators and arrays are looked up by their numbers; a number that the program does not have leaves
/// no text, and a coefficient beyond the names in scope leaves none.
pub fn print_program(alloc: Global, p: &Program) -> Result<Vec<u8>, AllocError>
    ensures { IfOk result (λ bytes. bytes.items ≡ text.program_text p.now) }
{
    let scope = Scope {
        params: p.params.as_slice(),
        iters: &[],
        arrays: p.arrays.as_slice(),
    };
    let mut bytes = Vec::new(alloc);
    push_context(&mut bytes, &scope, &p.context)?;
    push_commutative(&mut bytes, p.commutative.as_slice())?;
    push_output(&mut bytes, &scope, &p.outputs)?;
    push_head(&mut bytes, &scope, p.name.as_bytes(), p.slots.as_slice())?;
    push_locals(&mut bytes, &scope, p.arrays.as_slice())?;
    push_body(alloc, &mut bytes, &scope, b"  ", p.body.as_slice())?;
    push_line(&mut bytes, b"", b"}")?;
    Ok(bytes)
}
