//! Why a pair is not arranged.
ghost use Rattle.std.specs.Prelude.{◌≡◌, length, IfOk};
ghost use Rattle.ac_assoc_law.specs.ArrangedPairs.{is_misused};
ghost use Rattle.ac_assoc.specs.ArrangementFaults.{misused, is_long, long, fault_by, first_of, first_all, side_fault, fault_of};
ghost use Rattle.ac_assoc.specs.ValueSequences.{nodes_brought, misused_among, long_among};

use crate::finding::is_part;
use crate::nodes::add_all_operands;
use crate::symbols::{has_name, joins};
use crate::types::AssocFault;
use ac_base::Items;
use ac_instance::Side;
use ac_syntax::name::Name;
use ac_syntax::tree::{Pair, Place, Stmt, Symbol, Value};
use std::alloc::{AllocError, Global};

/// Whether it is a listed symbol with three to six arguments.
fn is_misused(names: &[Name], symbol: &Symbol) -> bool
    ensures { result ≡ is_misused names.now symbol.now }
{
    has_name(names, symbol.name.as_bytes()) && (3 <= symbol.arity && symbol.arity <= 6)
}

/// The first call of such a symbol.
#[cycle(misused)]
#[tactic(auto, using(crate::proofs::Faulting::misused_steps))]
fn misused(names: &[Name], value: &Value) -> Option<Place>
    ensures { result ≡ misused names.now value.now }
{
    match value {
        Value::Number(_) => None,
        Value::Access { .. } => None,
        Value::Call {
            symbol,
            args,
            place,
        } => {
            if is_misused(names, symbol) {
                Some(*place)
            } else {
                misused_among(names, args.as_slice())
            }
        }
    }
}

/// The first among values one after another.
#[cycle(misused)]
fn misused_among(names: &[Name], values: &[Value]) -> Option<Place>
    ensures { result ≡ misused_among names.now values.now }
{
    for value in values {
        let found = misused(names, value);
        if found.is_some() {
            return found;
        }
    }
    None
}

/// Whether a call begins a chain of more than six operands.
#[tactic(auto, using(crate::proofs::Faulting::long_test))]
fn is_long(
    alloc: Global,
    names: &[Name],
    part: bool,
    symbol: &Symbol,
    args: &[Value],
) -> Result<bool, AllocError>
    ensures { IfOk result (λ found. found ≡ is_long names.now part symbol.now (length (nodes_brought symbol.now.name 0 args.now))) }
{
    if part || !joins(names, symbol) {
        return Ok(false);
    }
    let mut operands = Items::new(alloc);
    add_all_operands(alloc, &symbol.name, 0, args, &mut operands)?;
    Ok(operands.len() > 6)
}

/// The first chain of more than six operands.
#[cycle(long)]
#[tactic(auto, using(crate::proofs::Faulting::long_steps))]
fn long(
    alloc: Global,
    names: &[Name],
    part: bool,
    value: &Value,
) -> Result<Option<Place>, AllocError>
    ensures { IfOk result (λ found. found ≡ long names.now part value.now) }
{
    match value {
        Value::Number(_) => Ok(None),
        Value::Access { .. } => Ok(None),
        Value::Call {
            symbol,
            args,
            place,
        } => {
            if is_long(alloc, names, part, symbol, args.as_slice())? {
                Ok(Some(*place))
            } else {
                long_among(alloc, names, symbol, args.as_slice())
            }
        }
    }
}

/// The first among the arguments of a call.
#[cycle(long)]
fn long_among(
    alloc: Global,
    names: &[Name],
    parent: &Symbol,
    values: &[Value],
) -> Result<Option<Place>, AllocError>
    ensures { IfOk result (λ found. found ≡ long_among names.now parent.now values.now) }
{
    for value in values {
        let part = is_part(parent, value);
        let found = long(alloc, names, part, value)?;
        if found.is_some() {
            return Ok(found);
        }
    }
    Ok(None)
}

/// The first fault of a value: a call with the wrong number of arguments, or a long chain.
fn fault_by(
    alloc: Global,
    names: &[Name],
    arity: bool,
    value: &Value,
) -> Result<Option<Place>, AllocError>
    ensures { IfOk result (λ found. found ≡ fault_by names.now arity value.now) }
{
    if arity {
        return Ok(misused(names, value));
    }
    long(alloc, names, false, value)
}

/// The first of a statement.
#[cycle(first)]
#[tactic(auto, using(crate::proofs::Faulting::first_steps))]
fn first_of(
    alloc: Global,
    names: &[Name],
    arity: bool,
    stmt: &Stmt,
) -> Result<Option<Place>, AllocError>
    ensures { IfOk result (λ found. found ≡ first_of (fault_by names.now arity) stmt.now) }
{
    match stmt {
        Stmt::For { body, .. } => first_all(alloc, names, arity, body.as_slice()),
        Stmt::If { taken, other, .. } => {
            let found = first_all(alloc, names, arity, taken.as_slice())?;
            if found.is_some() {
                return Ok(found);
            }
            first_all(alloc, names, arity, other.as_slice())
        }
        Stmt::Assign { value, .. } => fault_by(alloc, names, arity, value),
    }
}

/// The first of statements one after another.
#[cycle(first)]
fn first_all(
    alloc: Global,
    names: &[Name],
    arity: bool,
    stmts: &[Stmt],
) -> Result<Option<Place>, AllocError>
    ensures { IfOk result (λ found. found ≡ first_all (fault_by names.now arity) stmts.now) }
{
    for stmt in stmts {
        let found = first_of(alloc, names, arity, stmt)?;
        if found.is_some() {
            return Ok(found);
        }
    }
    Ok(None)
}

/// The first of a side.
fn side_fault(
    alloc: Global,
    names: &[Name],
    arity: bool,
    side: Side,
    stmts: &[Stmt],
) -> Result<Option<AssocFault>, AllocError>
    ensures { IfOk result (λ found. found ≡ side_fault names.now arity side stmts.now) }
{
    match first_all(alloc, names, arity, stmts)? {
        None => Ok(None),
        Some(place) => {
            if arity {
                Ok(Some(AssocFault::Arity(side, place)))
            } else {
                Ok(Some(AssocFault::Long(side, place)))
            }
        }
    }
}

/// The fault of a pair, if it has one.
pub(crate) fn fault_of(
    alloc: Global,
    names: &[Name],
    pair: &Pair,
) -> Result<Option<AssocFault>, AllocError>
    ensures { IfOk result (λ found. found ≡ fault_of names.now pair.now) }
{
    let found = side_fault(alloc, names, true, Side::Left, pair.left.body.as_slice())?;
    if found.is_some() {
        return Ok(found);
    }
    let found = side_fault(alloc, names, true, Side::Right, pair.right.body.as_slice())?;
    if found.is_some() {
        return Ok(found);
    }
    let found = side_fault(alloc, names, false, Side::Left, pair.left.body.as_slice())?;
    if found.is_some() {
        return Ok(found);
    }
    side_fault(alloc, names, false, Side::Right, pair.right.body.as_slice())
}
