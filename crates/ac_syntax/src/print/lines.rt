//! Pragma lines, the head of the function and the declarations of its locals.
ghost use Rattle.std.specs.Prelude.{◌≡◌, ◌++◌, ◌∷◌, [], codes, map, slice_get, OnOk, IfOk};
ghost use Rattle.std.specs.List.{flat_map, join_by};
ghost use Rattle.std.specs.Option.{option_copied};
ghost use Rattle.ac_syntax.specs.Text as text;

use crate::name::Name;
use crate::print::forms::{Scope, push_cond, push_subscripts};
use crate::print::values::array_name;
use crate::tree::{Array, Cond, IndexExpr, Kind, Slot};
use ac_base::Items;
use std::alloc::AllocError;

/// Adds the context line, unless the context has no comparison.
#[tactic(auto, using(crate::proofs::Sums::joins))]
pub fn push_context(
    bytes: &mut Vec<u8>,
    scope: &Scope<'_>,
    context: &Cond,
) -> Result<(), AllocError>
    ensures { OnOk result (bytes.new.items ≡ bytes.old.items ++ text.context_line scope.now context.now.parts) }
{
    if context.parts.is_empty() {
        return Ok(());
    }
    bytes.extend_from_slice(b"#pragma affine context ")?;
    push_cond(bytes, scope, context)?;
    bytes.push(b'\n')?;
    Ok(())
}

fn push_word(bytes: &mut Vec<u8>, word: &[u8]) -> Result<(), AllocError>
    ensures { OnOk result (bytes.new.items ≡ bytes.old.items ++ codes " " ++ word.now) }
{
    bytes.push(b' ')?;
    bytes.extend_from_slice(word)
}

fn push_words(bytes: &mut Vec<u8>, words: &[Name]) -> Result<(), AllocError>
    ensures { OnOk result (bytes.new.items ≡ bytes.old.items ++ text.words_text words.now) }
{
    for word in words {
        push_word(bytes, word.as_bytes())?;
    }
    Ok(())
}

/// Adds the line of commutative names, unless there are none.
#[tactic(auto, using(crate::proofs::Sums::joins))]
pub fn push_commutative(bytes: &mut Vec<u8>, names: &[Name]) -> Result<(), AllocError>
    ensures { OnOk result (bytes.new.items ≡ bytes.old.items ++ text.commutative_line names.now) }
{
    if names.is_empty() {
        return Ok(());
    }
    bytes.extend_from_slice(b"#pragma affine commutative")?;
    push_words(bytes, names)?;
    bytes.push(b'\n')?;
    Ok(())
}

fn push_outputs(bytes: &mut Vec<u8>, scope: &Scope<'_>, outputs: &[usize]) -> Result<(), AllocError>
    ensures { OnOk result (bytes.new.items ≡ bytes.old.items ++ flat_map (λ k. codes " " ++ text.array_name (slice_get scope.now.arrays k)) outputs.now) }
{
    for output in outputs {
        push_word(bytes, array_name(scope.arrays, *output))?;
    }
    Ok(())
}

/// Adds the output line where the program has one.
#[tactic(auto, using(crate::proofs::Sums::joins))]
pub fn push_output(
    bytes: &mut Vec<u8>,
    scope: &Scope<'_>,
    outputs: &Option<Items<usize>>,
) -> Result<(), AllocError>
    ensures { OnOk result (bytes.new.items ≡ bytes.old.items ++ text.output_line scope.now outputs.now) }
{
    let Some(outputs) = outputs else {
        return Ok(());
    };
    bytes.extend_from_slice(b"#pragma affine output")?;
    push_outputs(bytes, scope, outputs.as_slice())?;
    bytes.push(b'\n')?;
    Ok(())
}

fn push_declared(bytes: &mut Vec<u8>, scope: &Scope<'_>, array: &Array) -> Result<(), AllocError>
    ensures { OnOk result (bytes.new.items ≡ bytes.old.items ++ text.declared_text scope.now array.now) }
{
    bytes.extend_from_slice(array.name.as_bytes())?;
    push_subscripts(bytes, scope, array.extents.as_slice())
}

fn input_type(extents: &[IndexExpr]) -> &'static [u8]
    ensures { result.now ≡ text.input_type extents.now }
{
    match extents {
        [] => b"double ",
        _ => b"int ",
    }
}

fn push_param(bytes: &mut Vec<u8>, params: &[Name], k: usize) -> Result<(), AllocError>
    ensures { OnOk result (bytes.new.items ≡ bytes.old.items ++ codes "int " ++ text.name_or_none (slice_get params.now k)) }
{
    bytes.extend_from_slice(b"int ")?;
    match params.get(k) {
        Some(name) => bytes.extend_from_slice(name.as_bytes()),
        None => Ok(()),
    }
}

fn array_at(arrays: &[Array], k: usize) -> Option<&Array>
    ensures { option_copied result ≡ slice_get arrays.now k }
{
    arrays.get(k)
}

fn push_declaration(bytes: &mut Vec<u8>, scope: &Scope<'_>, array: &Array) -> Result<(), AllocError>
    ensures { OnOk result (bytes.new.items ≡ bytes.old.items ++ (text.input_type array.now.extents ++ text.declared_text scope.now array.now)) }
{
    bytes.extend_from_slice(input_type(array.extents.as_slice()))?;
    push_declared(bytes, scope, array)
}

#[tactic(auto, using(crate::proofs::Sums::joins))]
fn push_input(
    bytes: &mut Vec<u8>,
    scope: &Scope<'_>,
    array: Option<&Array>,
) -> Result<(), AllocError>
    ensures { OnOk result (bytes.new.items ≡ bytes.old.items ++ text.input_text scope.now (option_copied array.entry)) }
{
    match array {
        Some(array) => push_declaration(bytes, scope, array),
        None => Ok(()),
    }
}

fn push_slot(bytes: &mut Vec<u8>, scope: &Scope<'_>, slot: &Slot) -> Result<(), AllocError>
    ensures { OnOk result (bytes.new.items ≡ bytes.old.items ++ text.slot_text scope.now slot.now) }
{
    match slot {
        Slot::Param(k) => push_param(bytes, scope.params, *k),
        Slot::Array(k) => push_input(bytes, scope, array_at(scope.arrays, *k)),
    }
}

fn push_further(bytes: &mut Vec<u8>, scope: &Scope<'_>, slot: &Slot) -> Result<(), AllocError>
    ensures { OnOk result (bytes.new.items ≡ bytes.old.items ++ codes ", " ++ text.slot_text scope.now slot.now) }
{
    bytes.extend_from_slice(b", ")?;
    push_slot(bytes, scope, slot)
}

fn push_slots(bytes: &mut Vec<u8>, scope: &Scope<'_>, slots: &[Slot]) -> Result<(), AllocError>
    ensures { OnOk result (bytes.new.items ≡ bytes.old.items ++ join_by (text.slot_text scope.now) (codes ", ") slots.now) }
{
    let [first, rest @ ..] = slots else {
        return Ok(());
    };
    push_slot(bytes, scope, first)?;
    for slot in rest {
        push_further(bytes, scope, slot)?;
    }
    Ok(())
}

/// Adds the first line of the function.
#[tactic(auto, using(crate::proofs::Sums::joins))]
pub fn push_head(
    bytes: &mut Vec<u8>,
    scope: &Scope<'_>,
    name: &[u8],
    slots: &[Slot],
) -> Result<(), AllocError>
    ensures { OnOk result (bytes.new.items ≡ bytes.old.items ++ text.line [] (text.head_text scope.now name.now slots.now)) }
{
    bytes.extend_from_slice(b"void ")?;
    bytes.extend_from_slice(name)?;
    bytes.push(b'(')?;
    push_slots(bytes, scope, slots)?;
    bytes.extend_from_slice(b") {\n")
}

#[tactic(auto, using(crate::proofs::Sums::joins))]
fn push_local(bytes: &mut Vec<u8>, scope: &Scope<'_>, array: &Array) -> Result<(), AllocError>
    ensures { OnOk result (bytes.new.items ≡ bytes.old.items ++ text.local_line scope.now array.now.kind array.now) }
{
    match array.kind {
        Kind::Input => Ok(()),
        Kind::Local => {
            bytes.extend_from_slice(b"  int ")?;
            push_declared(bytes, scope, array)?;
            bytes.extend_from_slice(b";\n")
        }
    }
}

/// Adds a line for each local.
pub fn push_locals(
    bytes: &mut Vec<u8>,
    scope: &Scope<'_>,
    arrays: &[Array],
) -> Result<(), AllocError>
    ensures { OnOk result (bytes.new.items ≡ bytes.old.items ++ flat_map (λ (a : Array). text.local_line scope.now a.kind a) arrays.now) }
{
    for array in arrays {
        push_local(bytes, scope, array)?;
    }
    Ok(())
}
