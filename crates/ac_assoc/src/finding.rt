//! The chains of values and statements.
ghost use Rattle.std.specs.Prelude.{◌≡◌, ◌+◌, ◌++◌, None, IfOk, MatchResult};
ghost use Rattle.ac_assoc.specs.ProgramChains.{is_part, own_chain, chains_of, chains_of_stmt, chains_of_all, chains_of_pair};
ghost use Rattle.ac_assoc.specs.ArrangementFaults.{fault_of, IsFault};
ghost use Rattle.ac_assoc.specs.ValueSequences.{nodes_brought, chains_among};

use crate::faults::fault_of;
use crate::nodes::{add_all_operands, size};
use crate::statements::{assignments, assignments_in};
use crate::symbols::{is_binary, joins};
use crate::types::{AssocFault, Chain};
use ac_base::Items;
use ac_instance::Side;
use ac_syntax::name::Name;
use ac_syntax::tree::{Pair, Stmt, Symbol, Value};
use std::alloc::{AllocError, Global};

/// Whether an argument of a call of the parent goes on the parent's chain.
pub(crate) fn is_part(parent: &Symbol, value: &Value) -> bool
    ensures { result ≡ is_part parent.now value.now }
{
    match value {
        Value::Number(_) => false,
        Value::Access { .. } => false,
        Value::Call { symbol, .. } => parent.arity == 2 && is_binary(&parent.name, symbol),
    }
}

/// An assignment of a program in which the chains of these names are looked for.
#[derive(Clone, Copy)]
struct Assignment<'a> {
    names: &'a [Name],
    side: Side,
    stmt: usize,
}

/// Adds the chain of a call, if it is no part of another one.
fn add_own_chain(
    alloc: Global,
    within: Assignment<'_>,
    part: bool,
    node: usize,
    symbol: &Symbol,
    args: &[Value],
    chains: &mut Items<Chain>,
) -> Result<(), AllocError>
    ensures { IfOk result (λ _. chains.new ≡ chains.old ++ own_chain within.entry.names.now within.entry.side within.entry.stmt part node symbol.now (nodes_brought symbol.now.name (node + 1) args.now)) }
{
    if !part && joins(within.names, symbol) {
        let first = node.checked_add(1).ok_or(AllocError)?;
        let mut operands = Items::new(alloc);
        add_all_operands(alloc, &symbol.name, first, args, &mut operands)?;
        chains.push(Chain {
            side: within.side,
            stmt: within.stmt,
            node,
            operands,
        })?;
    }
    Ok(())
}

/// Adds the chains of a value.
#[cycle(chains)]
#[tactic(auto, using(crate::proofs::Gathering::chain_steps))]
fn add_chains(
    alloc: Global,
    within: Assignment<'_>,
    part: bool,
    node: usize,
    value: &Value,
    chains: &mut Items<Chain>,
) -> Result<(), AllocError>
    ensures { IfOk result (λ _. chains.new ≡ chains.old ++ chains_of within.entry.names.now within.entry.side within.entry.stmt part node value.now) }
{
    match value {
        Value::Number(_) => Ok(()),
        Value::Access { .. } => Ok(()),
        Value::Call { symbol, args, .. } => {
            let args = args.as_slice();
            add_own_chain(alloc, within, part, node, symbol, args, chains)?;
            let first = node.checked_add(1).ok_or(AllocError)?;
            add_all_chains(alloc, within, symbol, first, args, chains)
        }
    }
}

/// Adds those of the arguments of a call.
#[cycle(chains)]
fn add_all_chains(
    alloc: Global,
    within: Assignment<'_>,
    parent: &Symbol,
    first: usize,
    values: &[Value],
    chains: &mut Items<Chain>,
) -> Result<(), AllocError>
    ensures { IfOk result (λ _. chains.new ≡ chains.old ++ chains_among within.entry.names.now within.entry.side within.entry.stmt parent.now first values.now) }
{
    let mut at = first;
    for value in values {
        let part = is_part(parent, value);
        add_chains(alloc, within, part, at, value, chains)?;
        at = at.checked_add(size(value)?).ok_or(AllocError)?;
    }
    Ok(())
}

/// Adds the chains of a statement, whose first assignment has this number.
#[cycle(chains_of_stmts)]
#[tactic(auto, using(crate::proofs::Gathering::stmt_chain_steps))]
fn add_chains_of(
    alloc: Global,
    names: &[Name],
    side: Side,
    first: usize,
    stmt: &Stmt,
    chains: &mut Items<Chain>,
) -> Result<(), AllocError>
    ensures { IfOk result (λ _. chains.new ≡ chains.old ++ chains_of_stmt names.now side first stmt.now) }
{
    match stmt {
        Stmt::For { body, .. } => {
            add_chains_of_all(alloc, names, side, first, body.as_slice(), chains)
        }
        Stmt::If { taken, other, .. } => {
            add_chains_of_all(alloc, names, side, first, taken.as_slice(), chains)?;
            let count = assignments_in(taken.as_slice())?;
            let next = first.checked_add(count).ok_or(AllocError)?;
            add_chains_of_all(alloc, names, side, next, other.as_slice(), chains)
        }
        Stmt::Assign { value, .. } => {
            let within = Assignment {
                names,
                side,
                stmt: first,
            };
            add_chains(alloc, within, false, 0, value, chains)
        }
    }
}

/// Adds those of statements one after another.
#[cycle(chains_of_stmts)]
pub(crate) fn add_chains_of_all(
    alloc: Global,
    names: &[Name],
    side: Side,
    first: usize,
    stmts: &[Stmt],
    chains: &mut Items<Chain>,
) -> Result<(), AllocError>
    ensures { IfOk result (λ _. chains.new ≡ chains.old ++ chains_of_all names.now side first stmts.now) }
{
    let mut at = first;
    for stmt in stmts {
        add_chains_of(alloc, names, side, at, stmt, chains)?;
        at = at.checked_add(assignments(stmt)?).ok_or(AllocError)?;
    }
    Ok(())
}

/// The chains of both programs.
fn chains_of_pair(alloc: Global, names: &[Name], pair: &Pair) -> Result<Items<Chain>, AllocError>
    ensures { IfOk result (λ chains. chains ≡ chains_of_pair names.now pair.now) }
{
    let mut chains = Items::new(alloc);
    let left = pair.left.body.as_slice();
    add_chains_of_all(alloc, names, Side::Left, 0, left, &mut chains)?;
    let right = pair.right.body.as_slice();
    add_chains_of_all(alloc, names, Side::Right, 0, right, &mut chains)?;
    Ok(chains)
}

/// The chains of the listed symbols, left then right, assignments and nodes in order. A listed symbol that is called with
/// three to six arguments anywhere is refused before each chain of more than six operands, and each names the first.
pub fn chains(alloc: Global, pair: &Pair, symbols: &[Name]) -> Result<Items<Chain>, AssocFault>
    ensures { MatchResult result (λ chains. (fault_of symbols.now pair.now ≡ None) × (chains ≡ chains_of_pair symbols.now pair.now)) (IsFault symbols.now pair.now) }
{
    match fault_of(alloc, symbols, pair) {
        Err(error) => Err(AssocFault::Memory(error)),
        Ok(Some(fault)) => Err(fault),
        Ok(None) => match chains_of_pair(alloc, symbols, pair) {
            Err(error) => Err(AssocFault::Memory(error)),
            Ok(chains) => Ok(chains),
        },
    }
}
