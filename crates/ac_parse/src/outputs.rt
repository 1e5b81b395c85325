// The arrays that a pair compares.
ghost use Rattle.std.specs.Prelude.{◌≡◌, ◌==◌, IfOk, slice_get};
ghost use Rattle.std.specs.List.{list_any};
ghost use Rattle.ac_parse.specs.AssignedArrays as spec;
ghost use Rattle.ac_parse.specs.ProgramPairs as pairing;

use ac_base::Items;
use ac_syntax::tree::{Program, Slot, Stmt};
use std::alloc::{AllocError, Global};

#[cycle(assigns)]
#[tactic(auto, using(crate::proofs::Assigning::assigned))]
fn assigns(statement: &Stmt, array: usize) -> bool
    ensures { result ≡ spec.assigns array statement.now }
{
    match statement {
        Stmt::For { body, .. } => assigns_in(body.as_slice(), array),
        Stmt::If { taken, other, .. } => {
            assigns_in(taken.as_slice(), array) || assigns_in(other.as_slice(), array)
        }
        Stmt::Assign { array: target, .. } => *target == array,
    }
}

#[cycle(assigns)]
fn assigns_in(body: &[Stmt], array: usize) -> bool
    ensures { result ≡ list_any (spec.assigns array) body.now }
{
    for statement in body {
        if assigns(statement, array) {
            return true;
        }
    }
    false
}

fn names_output(outputs: &Option<Items<usize>>, number: usize) -> bool
    ensures { result ≡ pairing.names_output outputs.now number }
{
    match outputs {
        None => false,
        Some(numbers) => numbers.as_slice().contains(&number),
    }
}

fn has_extents(program: &Program, number: usize) -> bool
    ensures { result ≡ pairing.has_extents (slice_get program.now.arrays number) }
{
    match program.arrays.get(number) {
        None => false,
        Some(array) => array.extents.len() > 0,
    }
}

fn is_assigned_array(left: &Program, right: &Program, number: usize) -> bool
    ensures { result ≡ pairing.is_assigned_array left.now right.now number }
{
    has_extents(left, number)
        && (assigns_in(left.body.as_slice(), number) || assigns_in(right.body.as_slice(), number))
}

fn is_output(left: &Program, right: &Program, number: usize) -> bool
    ensures { result ≡ pairing.is_output left.now right.now number }
{
    if left.outputs.is_none() && right.outputs.is_none() {
        is_assigned_array(left, right, number)
    } else {
        names_output(&left.outputs, number) || names_output(&right.outputs, number)
    }
}

/// The numbers of the outputs, in the order of the parameter list.
pub fn outputs(alloc: Global, left: &Program, right: &Program) -> Result<Items<usize>, AllocError>
    ensures { IfOk result (λ outputs. outputs ≡ pairing.outputs_of left.now right.now) }
{
    let mut outputs = Items::new(alloc);
    for slot in left.slots.as_slice() {
        if let Slot::Array(number) = *slot
            && is_output(left, right, number)
        {
            outputs.push(number)?;
        }
    }
    Ok(outputs)
}
