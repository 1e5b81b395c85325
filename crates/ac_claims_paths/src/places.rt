//! What a model has at a position.
ghost use Rattle.std.specs.Prelude.{◌≡◌, ℕ, ◌+◌, ◌<◌, IfOk, IfSome, Option, Some, None, option_copied, option_map, option_and_then, slice_get, length, List};
ghost use Rattle.ac_forms.specs.Affine.{column_form};
ghost use Rattle.ac_poly.specs.declared.types.StmtModel.{StmtModel};
ghost use Rattle.ac_claims_paths.specs.ModelPositions.{element_forms, node_at, read_of, output_cell, cell_read, levels_to, number_of, number_at, initial_cell, call_of, call_at};
ghost use Rattle.ac_claims_paths.specs.ModelCalls.{called};

use ac_base::Items;
use ac_forms::{Form, Row, column_after};
use ac_poly::types::{Model, NodeModel};
use ac_syntax::tree::{Position, Symbol};
use std::alloc::{AllocError, Global};

/// A cell: an array and the forms of its subscripts, over the parameters and the coordinates.
#[derive(Drop)]
pub struct CellForms {
    pub array: usize,
    pub subs: Items<Form>,
}

/// The coordinate with a number, behind the parameters.
fn element_form(alloc: Global, params: usize, k: usize) -> Result<Form, AllocError>
    ensures { IfOk result (λ form. form ≡ column_form (params + k + 1) (params + k)) }
{
    let column = column_after(params, k)?;
    let columns = column_after(column, 1)?;
    Form::column(alloc, columns, column)
}

/// The subscripts of an element of an output: its coordinates.
#[tactic(auto, using(crate::proofs::PlaceSteps::element_steps))]
fn element_forms(alloc: Global, params: usize, count: usize) -> Result<Items<Form>, AllocError>
    ensures { IfOk result (λ forms. forms ≡ element_forms params count) }
{
    let mut forms = Items::new(alloc);
    for k in 0..count {
        forms.push(element_form(alloc, params, k)?)?;
    }
    Ok(forms)
}

/// The same forms again.
fn copy_forms(alloc: Global, forms: &[Form]) -> Result<Items<Form>, AllocError>
    ensures { IfOk result (λ made. made ≡ forms.now) }
{
    let mut made = Items::new(alloc);
    for form in forms {
        made.push(form.copy(alloc)?)?;
    }
    Ok(made)
}

/// The node of an assignment with a number, if there is one.
fn node_at<'a>(m: &'a Model, s: usize, k: usize) -> Option<&'a NodeModel>
    ensures { option_copied result ≡ node_at m.now s k }
{
    match m.stmts.as_slice().get(s) {
        Some(stmt) => stmt.nodes.as_slice().get(k),
        None => None,
    }
}

/// The cell that a node reads.
fn read_of(alloc: Global, node: &NodeModel) -> Result<Option<CellForms>, AllocError>
    ensures { IfOk result (λ cell. cell ≡ read_of node.now) }
{
    match node {
        NodeModel::Read { array, subs } => Ok(Some(CellForms {
            array: *array,
            subs: copy_forms(alloc, subs.as_slice())?,
        })),
        NodeModel::Number(_) | NodeModel::Call { .. } => Ok(None),
    }
}

/// The element of an output, if there is one.
fn output_cell(alloc: Global, m: &Model, o: usize) -> Result<Option<CellForms>, AllocError>
    ensures { IfOk result (λ cell. cell ≡ output_cell m.now o) }
{
    match m.extents.as_slice().get(o) {
        Some(extents) => Ok(Some(CellForms {
            array: o,
            subs: element_forms(alloc, m.params, extents.len())?,
        })),
        None => Ok(None),
    }
}

/// The cell that a node with a number reads.
fn node_cell(alloc: Global, m: &Model, s: usize, k: usize) -> Result<Option<CellForms>, AllocError>
    ensures { IfOk result (λ cell. cell ≡ option_and_then read_of (node_at m.now s k)) }
{
    match node_at(m, s, k) {
        Some(node) => read_of(alloc, node),
        None => Ok(None),
    }
}

/// The cell that a read or an output reads.
pub fn cell_read(
    alloc: Global,
    m: &Model,
    position: &Position,
) -> Result<Option<CellForms>, AllocError>
    ensures { IfOk result (λ cell. cell ≡ cell_read m.now position.now) }
{
    match position {
        Position::Output(o) => output_cell(alloc, m, *o),
        Position::Node { stmt, node } => node_cell(alloc, m, *stmt, *node),
        Position::InitialOutput(_) | Position::InitialNode { .. } => Ok(None),
    }
}

/// The levels by which an instance of an assignment stands before a read or an output.
#[tactic(auto, using(crate::proofs::PlaceSteps::level_steps))]
pub fn levels_to(
    alloc: Global,
    m: &Model,
    u: usize,
    position: &Position,
) -> Result<Items<Items<Row>>, AllocError>
    requires { u < length m.now.stmts }
    ensures { (stmt : StmtModel) → slice_get m.now.stmts u ≡ Some stmt → IfOk result (λ levels. levels ≡ levels_to m.now u stmt position.now) }
{
    match position {
        Position::Output(_) => {
            let mut levels = Items::new(alloc);
            levels.push(Items::new(alloc))?;
            Ok(levels)
        }
        Position::Node { stmt: s, node: _ } => {
            if *s >= m.stmts.len() {
                return Ok(Items::new(alloc));
            }
            ac_poly::before(alloc, m, u, *s)
        }
        Position::InitialOutput(_) | Position::InitialNode { .. } => Ok(Items::new(alloc)),
    }
}

/// The form of a node that is a number.
fn number_of<'a>(node: &'a NodeModel) -> Option<&'a Form>
    ensures { option_copied result ≡ number_of node.now }
{
    match node {
        NodeModel::Number(form) => Some(form),
        NodeModel::Read { .. } | NodeModel::Call { .. } => None,
    }
}

/// The form of a number, over the parameters and the coordinates of its position.
pub fn number_at<'a>(m: &'a Model, position: &Position) -> Option<&'a Form>
    ensures { option_copied result ≡ number_at m.now position.now }
{
    match position {
        Position::Node { stmt, node } => match node_at(m, *stmt, *node) {
            Some(node) => number_of(node),
            None => None,
        },
        Position::Output(_) | Position::InitialOutput(_) | Position::InitialNode { .. } => None,
    }
}

/// The cell whose initial contents an initial position stands for.
pub fn initial_cell(
    alloc: Global,
    m: &Model,
    position: &Position,
) -> Result<Option<CellForms>, AllocError>
    ensures { IfOk result (λ cell. cell ≡ initial_cell m.now position.now) }
{
    match position {
        Position::InitialOutput(o) => output_cell(alloc, m, *o),
        Position::InitialNode { stmt, node } => node_cell(alloc, m, *stmt, *node),
        Position::Output(_) | Position::Node { .. } => Ok(None),
    }
}

/// A call: its symbol, its assignment, and the nodes of its arguments.
#[derive(Clone, Copy)]
pub struct CallNode<'a> {
    pub symbol: &'a Symbol,
    pub stmt: usize,
    pub args: &'a [usize],
}

/// The call that a node is.
fn call_of<'a>(stmt: usize, node: &'a NodeModel) -> Option<CallNode<'a>>
    ensures { option_map called result ≡ call_of stmt node.now }
{
    match node {
        NodeModel::Call { symbol, args } => Some(CallNode {
            symbol,
            stmt,
            args: args.as_slice(),
        }),
        NodeModel::Number(_) | NodeModel::Read { .. } => None,
    }
}

/// The call at a position, if one stands there.
pub fn call_at<'a>(m: &'a Model, position: &Position) -> Option<CallNode<'a>>
    ensures { option_map called result ≡ call_at m.now position.now }
{
    match position {
        Position::Node { stmt, node } => match node_at(m, *stmt, *node) {
            Some(found) => call_of(*stmt, found),
            None => None,
        },
        Position::Output(_) | Position::InitialOutput(_) | Position::InitialNode { .. } => None,
    }
}
