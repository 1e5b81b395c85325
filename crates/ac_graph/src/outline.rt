//! The nodes of the values that a program assigns, as far as pairs move by them.
ghost use Rattle.std.specs.Prelude.{◌≡◌, ◌++◌, length, IfOk, OnOk};
ghost use Rattle.std.specs.List.{flat_map};
ghost use Rattle.ac_graph.specs.ProgramOutlines.{outlined, outlined_all, outlines};

use ac_base::Items;
use ac_poly::roots_of;
use ac_syntax::copy::copy_symbol;
use ac_syntax::tree::{Stmt, Symbol, Value};
use std::alloc::{AllocError, Global};

/// A node of a value. The nodes of a value stand in preorder, the root first.
#[derive(Drop)]
pub(crate) enum Outline {
    /// The value of an index expression.
    Number,
    /// A read of an array's cell.
    Read,
    /// A symbol applied to the nodes with these numbers.
    Call { symbol: Symbol, args: Items<usize> },
}

/// Adds the nodes of a value, which are numbered by their places in the list.
#[cycle(nodes)]
#[tactic(auto, using(crate::proofs::OutlineSteps::value_steps))]
fn add_nodes(alloc: Global, value: &Value, out: &mut Items<Outline>) -> Result<(), AllocError>
    ensures { OnOk result (out.new ≡ out.old ++ outlined value.now (length out.old)) }
{
    match value {
        Value::Number(_) => out.push(Outline::Number)?,
        Value::Access { .. } => out.push(Outline::Read)?,
        Value::Call { symbol, args, .. } => {
            let first = out.len().checked_add(1).ok_or(AllocError)?;
            let roots = roots_of(alloc, args.as_slice(), first)?;
            let symbol = copy_symbol(alloc, symbol)?;
            out.push(Outline::Call {
                symbol,
                args: roots,
            })?;
            add_all_nodes(alloc, args.as_slice(), out)?;
        }
    }
    Ok(())
}

/// Adds the nodes of values, one after another.
#[cycle(nodes)]
#[tactic(auto, using(crate::proofs::OutlineSteps::node_steps))]
fn add_all_nodes(
    alloc: Global,
    values: &[Value],
    out: &mut Items<Outline>,
) -> Result<(), AllocError>
    ensures { OnOk result (out.new ≡ out.old ++ outlined_all values.now (length out.old)) }
{
    for value in values {
        add_nodes(alloc, value, out)?;
    }
    Ok(())
}

/// The nodes of a value.
fn nodes(alloc: Global, value: &Value) -> Result<Items<Outline>, AllocError>
    ensures { IfOk result (λ made. made ≡ outlined value.now 0) }
{
    let mut made = Items::new(alloc);
    add_nodes(alloc, value, &mut made)?;
    Ok(made)
}

/// The list with the values of the assignments of a statement behind it, in the order of the text.
#[cycle(statements)]
#[tactic(auto, using(crate::proofs::OutlineSteps::statement_steps))]
fn with_statement(
    alloc: Global,
    made: Items<Items<Outline>>,
    stmt: &Stmt,
) -> Result<Items<Items<Outline>>, AllocError>
    ensures { IfOk result (λ new. new ≡ made ++ outlines stmt.now) }
{
    match stmt {
        Stmt::For { body, .. } => with_statements(alloc, made, body.as_slice()),
        Stmt::If { taken, other, .. } => {
            let made = with_statements(alloc, made, taken.as_slice())?;
            with_statements(alloc, made, other.as_slice())
        }
        Stmt::Assign { value, .. } => {
            let mut made = made;
            made.push(nodes(alloc, value)?)?;
            Ok(made)
        }
    }
}

/// The list with the values of the assignments of statements behind it.
#[cycle(statements)]
#[tactic(auto, using(crate::proofs::OutlineSteps::list_steps))]
pub(crate) fn with_statements(
    alloc: Global,
    made: Items<Items<Outline>>,
    stmts: &[Stmt],
) -> Result<Items<Items<Outline>>, AllocError>
    ensures { IfOk result (λ new. new ≡ made ++ flat_map outlines stmts.now) }
{
    let mut made = made;
    for stmt in stmts {
        made = with_statement(alloc, made, stmt)?;
    }
    Ok(made)
}
