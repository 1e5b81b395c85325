//! The cells of two assignments of which one is a target, and the equalities by which two are one.
ghost use Rattle.std.specs.Prelude.{◌≡◌, ◌++◌, ◌∷◌, [], map, length, IfOk, IfErr, OnOk};
ghost use Rattle.std.specs.List.{flat_map};
ghost use Rattle.ac_forms.specs.FormStops.{IfWide, MadeWhere};
ghost use Rattle.ac_forms.specs.Renaming.{renamed, AreDistinct};
ghost use Rattle.ac_poly.specs.LevelRows.{CanEquate, equalities};
ghost use Rattle.ac_poly.specs.declared.types.NodeModel.{NodeModel};
ghost use Rattle.ac_legal_law.specs.OrderQuestions.{CellForms, written, reads, same_cells, clashes};
ghost use Rattle.ac_legal.specs.WideQuestions.{AreWideCells, IsWideWith, AreWideWith, HaveWideCells};

use crate::renaming::forms_among;
use ac_base::Items;
use ac_forms::{Form, FormStop, Row};
use ac_poly::same_cell;
use ac_poly::types::{NodeModel, StmtModel};
use std::alloc::Global;

/// A cell by the forms of its subscripts, and the columns of its assignment among those of the question.
#[derive(Clone, Copy)]
pub(crate) struct Cell<'a> {
    pub columns: &'a [usize],
    pub array: usize,
    pub subs: &'a [Form],
}

/// The equalities by which two cells are one, if their arrays are.
fn equated(alloc: Global, cell: &Cell<'_>, other: &Cell<'_>) -> Result<Items<Row>, FormStop>
    requires distinct { AreDistinct cell.now.columns.now }
    requires others { AreDistinct other.now.columns.now }
    requires dimensions { length cell.now.subs.now ≡ length other.now.subs.now }
    ensures { MadeWhere result (CanEquate (map (renamed cell.now.columns.now) cell.now.subs.now) (map (renamed other.now.columns.now) other.now.subs.now)) (λ rows. rows ≡ equalities (map (renamed cell.now.columns.now) cell.now.subs.now) (map (renamed other.now.columns.now) other.now.subs.now)) }
{
    let mine = forms_among(alloc, cell.columns, cell.subs)?;
    let theirs = forms_among(alloc, other.columns, other.subs)?;
    same_cell(alloc, mine.as_slice(), theirs.as_slice())
}

/// Adds the equalities by which two cells are one, if they are of one array.
fn push_same(
    alloc: Global,
    cell: &Cell<'_>,
    other: &Cell<'_>,
    out: &mut Items<Items<Row>>,
) -> Result<(), FormStop>
    requires distinct { AreDistinct cell.now.columns.now }
    requires others { AreDistinct other.now.columns.now }
    ensures same { OnOk result (out.new ≡ out.old ++ same_cells cell.now.columns.now other.now.columns.now (record { array = cell.now.array; subs = cell.now.subs.now }) (record { array = other.now.array; subs = other.now.subs.now })) }
    ensures wide { IfErr result (λ stop. IfWide stop (AreWideCells cell.now.columns.now other.now.columns.now (record { array = cell.now.array; subs = cell.now.subs.now }) (record { array = other.now.array; subs = other.now.subs.now }))) }
{
    if cell.array == other.array && cell.subs.len() == other.subs.len() {
        match equated(alloc, cell, other) {
            Ok(rows) => out.push(rows)?,
            Err(stop) => return Err(stop),
        }
    }
    Ok(())
}

/// Adds those of a cell and the cell that a node reads, if it reads one.
fn push_read_at(
    alloc: Global,
    cell: &Cell<'_>,
    others: &[usize],
    node: &NodeModel,
    out: &mut Items<Items<Row>>,
) -> Result<(), FormStop>
    requires distinct { AreDistinct cell.now.columns.now }
    requires others { AreDistinct others.now }
    ensures same { OnOk result (out.new ≡ out.old ++ flat_map (same_cells cell.now.columns.now others.now (record { array = cell.now.array; subs = cell.now.subs.now })) (reads (node.now ∷ []))) }
    ensures wide { IfErr result (λ stop. IfWide stop (IsWideWith cell.now.columns.now others.now (record { array = cell.now.array; subs = cell.now.subs.now }) (reads (node.now ∷ [])))) }
{
    match node {
        NodeModel::Read { array, subs } => {
            let other = Cell {
                columns: others,
                array: *array,
                subs: subs.as_slice(),
            };
            push_same(alloc, cell, &other, out)
        }
        NodeModel::Number(_) | NodeModel::Call { .. } => Ok(()),
    }
}

/// Adds those of the cell that a node reads, if it reads one, and a cell.
fn push_reading_at(
    alloc: Global,
    columns: &[usize],
    node: &NodeModel,
    cell: &Cell<'_>,
    out: &mut Items<Items<Row>>,
) -> Result<(), FormStop>
    requires distinct { AreDistinct columns.now }
    requires others { AreDistinct cell.now.columns.now }
    ensures same { OnOk result (out.new ≡ out.old ++ flat_map (λ a. same_cells columns.now cell.now.columns.now a (record { array = cell.now.array; subs = cell.now.subs.now })) (reads (node.now ∷ []))) }
    ensures wide { IfErr result (λ stop. IfWide stop (AreWideWith columns.now cell.now.columns.now (reads (node.now ∷ [])) (record { array = cell.now.array; subs = cell.now.subs.now }))) }
{
    match node {
        NodeModel::Read { array, subs } => {
            let mine = Cell {
                columns,
                array: *array,
                subs: subs.as_slice(),
            };
            push_same(alloc, &mine, cell, out)
        }
        NodeModel::Number(_) | NodeModel::Call { .. } => Ok(()),
    }
}

/// Adds those of a cell and each cell that the nodes read.
#[tactic(auto, using(crate::proofs::Reading::reading_steps))]
fn push_read_by(
    alloc: Global,
    cell: &Cell<'_>,
    others: &[usize],
    nodes: &[NodeModel],
    out: &mut Items<Items<Row>>,
) -> Result<(), FormStop>
    requires distinct { AreDistinct cell.now.columns.now }
    requires others { AreDistinct others.now }
    ensures same { OnOk result (out.new ≡ out.old ++ flat_map (same_cells cell.now.columns.now others.now (record { array = cell.now.array; subs = cell.now.subs.now })) (reads nodes.now)) }
    ensures wide { IfErr result (λ stop. IfWide stop (IsWideWith cell.now.columns.now others.now (record { array = cell.now.array; subs = cell.now.subs.now }) (reads nodes.now))) }
{
    for node in nodes {
        match push_read_at(alloc, cell, others, node, out) {
            Ok(()) => {}
            Err(stop) => return Err(stop),
        }
    }
    Ok(())
}

/// Adds those of each cell that the nodes read and a cell.
#[tactic(auto, using(crate::proofs::Reading::reading_steps))]
fn push_reading(
    alloc: Global,
    columns: &[usize],
    nodes: &[NodeModel],
    cell: &Cell<'_>,
    out: &mut Items<Items<Row>>,
) -> Result<(), FormStop>
    requires distinct { AreDistinct columns.now }
    requires others { AreDistinct cell.now.columns.now }
    ensures same { OnOk result (out.new ≡ out.old ++ flat_map (λ a. same_cells columns.now cell.now.columns.now a (record { array = cell.now.array; subs = cell.now.subs.now })) (reads nodes.now)) }
    ensures wide { IfErr result (λ stop. IfWide stop (AreWideWith columns.now cell.now.columns.now (reads nodes.now) (record { array = cell.now.array; subs = cell.now.subs.now }))) }
{
    for node in nodes {
        match push_reading_at(alloc, columns, node, cell, out) {
            Ok(()) => {}
            Err(stop) => return Err(stop),
        }
    }
    Ok(())
}

/// Adds those of a target and each cell that the other assignment uses.
fn push_used(
    alloc: Global,
    target: &Cell<'_>,
    others: &[usize],
    second: &StmtModel,
    out: &mut Items<Items<Row>>,
) -> Result<(), FormStop>
    requires distinct { AreDistinct target.now.columns.now }
    requires others { AreDistinct others.now }
    ensures same { OnOk result (out.new ≡ out.old ++ flat_map (same_cells target.now.columns.now others.now (record { array = target.now.array; subs = target.now.subs.now })) (written second.now ∷ reads second.now.nodes)) }
    ensures wide { IfErr result (λ stop. IfWide stop (IsWideWith target.now.columns.now others.now (record { array = target.now.array; subs = target.now.subs.now }) (written second.now ∷ reads second.now.nodes))) }
{
    let theirs = Cell {
        columns: others,
        array: second.array,
        subs: second.subs.as_slice(),
    };
    match push_same(alloc, target, &theirs, out) {
        Ok(()) => push_read_by(alloc, target, others, second.nodes.as_slice(), out),
        Err(stop) => Err(stop),
    }
}

/// The equalities of each two cells of which one is a target.
pub(crate) fn clashes(
    alloc: Global,
    columns: &[usize],
    first: &StmtModel,
    others: &[usize],
    second: &StmtModel,
) -> Result<Items<Items<Row>>, FormStop>
    requires distinct { AreDistinct columns.now }
    requires others { AreDistinct others.now }
    ensures value { IfOk result (λ made. made ≡ clashes columns.now others.now first.now second.now) }
    ensures wide { IfErr result (λ stop. IfWide stop (HaveWideCells columns.now others.now first.now second.now)) }
{
    let mine = Cell {
        columns,
        array: first.array,
        subs: first.subs.as_slice(),
    };
    let theirs = Cell {
        columns: others,
        array: second.array,
        subs: second.subs.as_slice(),
    };
    let mut made = Items::new(alloc);
    match push_used(alloc, &mine, others, second, &mut made) {
        Ok(()) => {}
        Err(stop) => return Err(stop),
    }
    match push_reading(alloc, columns, first.nodes.as_slice(), &theirs, &mut made) {
        Ok(()) => Ok(made),
        Err(stop) => Err(stop),
    }
}
