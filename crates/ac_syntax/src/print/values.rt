//! The texts of values.
ghost use Rattle.std.specs.Prelude.{◌≡◌, ◌++◌, ◌∷◌, [], codes, map, slice_get, OnOk, IfOk};
ghost use Rattle.std.specs.List.{flat_map, join_by};
ghost use Rattle.ac_syntax.specs.Text as text;

use crate::print::forms::{Scope, push_form, push_subscripts};
use crate::tree::{Array, IndexExpr, Value};
use std::alloc::AllocError;

/// The name of an array, or none.
pub fn array_name<'a>(arrays: &'a [Array], array: usize) -> &'a [u8]
    ensures { result.now ≡ text.array_name (slice_get arrays.now array) }
{
    match arrays.get(array) {
        Some(array) => array.name.as_bytes(),
        None => &[],
    }
}

/// Adds a cell of an array.
#[tactic(auto, using(crate::proofs::Sums::joins))]
pub fn push_cell(
    bytes: &mut Vec<u8>,
    scope: &Scope<'_>,
    array: usize,
    subs: &[IndexExpr],
) -> Result<(), AllocError>
    ensures { OnOk result (bytes.new.items ≡ bytes.old.items ++ text.array_name (slice_get scope.now.arrays array) ++ text.subscripts_text scope.now subs.now) }
{
    bytes.extend_from_slice(array_name(scope.arrays, array))?;
    push_subscripts(bytes, scope, subs)
}

#[tactic(auto, using(crate::proofs::Sums::joins))]
fn push_number(bytes: &mut Vec<u8>, scope: &Scope<'_>, e: &IndexExpr) -> Result<(), AllocError>
    ensures { OnOk result (bytes.new.items ≡ bytes.old.items ++ text.in_parentheses (text.form_text scope.now e.now)) }
{
    bytes.push(b'(')?;
    push_form(bytes, scope, e)?;
    bytes.push(b')')?;
    Ok(())
}

fn is_operator(name: &[u8]) -> bool
    ensures { result ≡ text.is_operator name.now }
{
    match name {
        [first, ..] => matches!(*first, b'+' | b'-' | b'*' | b'/' | b'%'),
        [] => false,
    }
}

fn is_decimal(name: &[u8]) -> bool
    ensures { result ≡ text.is_decimal name.now }
{
    match name {
        [first, ..] => *first == b'.' || (b'0' <= *first && *first <= b'9'),
        [] => false,
    }
}

/// Adds a value.
#[cycle(value)]
#[tactic(auto, using(crate::proofs::Sums::joins, crate::proofs::PrintedValues::value_texts_are))]
pub fn push_value(bytes: &mut Vec<u8>, scope: &Scope<'_>, value: &Value) -> Result<(), AllocError>
    ensures { OnOk result (bytes.new.items ≡ bytes.old.items ++ text.value_text scope.now value.now) }
{
    match value {
        Value::Number(e) => push_number(bytes, scope, e),
        Value::Access { array, subs, .. } => push_cell(bytes, scope, *array, subs.as_slice()),
        Value::Call { symbol, args, .. } => {
            push_call(bytes, scope, symbol.name.as_bytes(), args.as_slice())
        }
    }
}

#[cycle(value)]
fn push_call(
    bytes: &mut Vec<u8>,
    scope: &Scope<'_>,
    name: &[u8],
    args: &[Value],
) -> Result<(), AllocError>
    ensures { OnOk result (bytes.new.items ≡ bytes.old.items ++ text.call_text name.now (map (text.value_text scope.now) args.now)) }
{
    if is_operator(name) {
        push_operation(bytes, scope, name, args)
    } else {
        push_function(bytes, scope, name, args)
    }
}

#[cycle(value)]
#[tactic(auto, using(crate::proofs::Sums::joins, crate::proofs::Shapes::binary_shape, crate::proofs::Shapes::sign_shape))]
fn push_operation(
    bytes: &mut Vec<u8>,
    scope: &Scope<'_>,
    name: &[u8],
    args: &[Value],
) -> Result<(), AllocError>
    ensures { OnOk result (bytes.new.items ≡ bytes.old.items ++ text.operation_text name.now (map (text.value_text scope.now) args.now)) }
{
    match args {
        [] => push_function(bytes, scope, name, args),
        [a] => {
            bytes.push(b'(')?;
            bytes.extend_from_slice(name)?;
            push_value(bytes, scope, a)?;
            bytes.push(b')')?;
            Ok(())
        }
        [a, b] => {
            bytes.push(b'(')?;
            push_value(bytes, scope, a)?;
            bytes.push(b' ')?;
            bytes.extend_from_slice(name)?;
            bytes.push(b' ')?;
            push_value(bytes, scope, b)?;
            bytes.push(b')')?;
            Ok(())
        }
        [_, _, _, ..] => push_function(bytes, scope, name, args),
    }
}

#[cycle(value)]
#[tactic(auto, using(crate::proofs::Sums::joins, crate::proofs::Shapes::joined_map))]
fn push_function(
    bytes: &mut Vec<u8>,
    scope: &Scope<'_>,
    name: &[u8],
    args: &[Value],
) -> Result<(), AllocError>
    ensures { OnOk result (bytes.new.items ≡ bytes.old.items ++ text.function_text name.now (map (text.value_text scope.now) args.now)) }
{
    bytes.extend_from_slice(name)?;
    if is_decimal(name) {
        return Ok(());
    }
    bytes.push(b'(')?;
    push_arguments(bytes, scope, args)?;
    bytes.push(b')')?;
    Ok(())
}

#[cycle(value)]
fn push_arguments(bytes: &mut Vec<u8>, scope: &Scope<'_>, args: &[Value]) -> Result<(), AllocError>
    ensures { OnOk result (bytes.new.items ≡ bytes.old.items ++ join_by (text.value_text scope.now) (codes ", ") args.now) }
{
    let [first, rest @ ..] = args else {
        return Ok(());
    };
    push_value(bytes, scope, first)?;
    for value in rest {
        push_further(bytes, scope, value)?;
    }
    Ok(())
}

#[cycle(value)]
fn push_further(bytes: &mut Vec<u8>, scope: &Scope<'_>, value: &Value) -> Result<(), AllocError>
    ensures { OnOk result (bytes.new.items ≡ bytes.old.items ++ codes ", " ++ text.value_text scope.now value.now) }
{
    bytes.extend_from_slice(b", ")?;
    push_value(bytes, scope, value)
}
