//! The flow of a program: its reads in the order of the text, and then its outputs.
ghost use Rattle.std.specs.Prelude.{◌≡◌, ◌++◌, IfErr, OnOk, IfOk, Some, slice_get, [], ◌∷◌};
ghost use Rattle.ac_claims.specs.ProofFaults.{is_output_array};
ghost use Rattle.ac_claims_paths.specs.ModelPositions.{extent_rows};
ghost use Rattle.ac_flow.specs.FlowCases.{seen, CanRead};
ghost use Rattle.ac_flow.specs.Writings.{over};
ghost use Rattle.ac_flow.specs.Flows.{CasesAreSources};
ghost use Rattle.ac_flow.specs.Readers.{IsLowered, read_at, reads_from, reads_of_all, elements_of, output_at, outputs_from, Grows, StopsAt, StopsAmong, IsContextOverflow, IsUnbounded, IsOver, AreFlows, readers};

use crate::cases::{Assignment, Reader};
use crate::cutting::push_rows;
use crate::reading::read_flow;
use crate::types::{Flow, FlowStop, Limits, ReadFlow};
use ac_base::Items;
use ac_forms::{Conj, Form, FormStop, Row};
use ac_poly::element_rows;
use ac_poly::types::{Model, NodeModel};
use ac_syntax::tree::{Kind, Position};
use std::alloc::{AllocError, Global};

/// Adds the flow of one reader.
fn push_flow(
    alloc: Global,
    m: &Model,
    budget: u64,
    reader: &Reader,
    out: &mut Items<ReadFlow>,
) -> Result<(), FlowStop>
    requires { CanRead m.now (seen reader.now) }
    ensures grows { OnOk result (Grows m.now (seen reader.now ∷ []) out.old out.new) }
    ensures stops { IfErr result (StopsAt budget m.now (seen reader.now)) }
{
    match read_flow(alloc, m, budget, reader) {
        Ok(flow) => match out.push(flow) {
            Ok(()) => Ok(()),
            Err(want) => Err(FlowStop::Memory(want)),
        },
        Err(stop) => Err(stop),
    }
}

/// Adds the flow of a node, if it is a read.
fn push_node(
    alloc: Global,
    m: &Model,
    budget: u64,
    assignment: &Assignment,
    k: usize,
    node: &NodeModel,
    out: &mut Items<ReadFlow>,
) -> Result<(), FlowStop>
    requires over { IsOver m.now }
    requires stmt { slice_get m.now.stmts assignment.now.number ≡ Some assignment.now.stmt.now }
    ensures grows { OnOk result (Grows m.now (read_at assignment.now.number k assignment.now.stmt.now node.now) out.old out.new) }
    ensures stops { IfErr result (StopsAmong budget m.now (read_at assignment.now.number k assignment.now.stmt.now node.now)) }
{
    let stmt = assignment.stmt;
    match node {
        NodeModel::Read { array, subs: _ } => {
            let reader = Reader {
                position: Position::Node {
                    stmt: assignment.number,
                    node: k,
                },
                array: *array,
                count: ac_poly::width(stmt),
                pieces: stmt.pieces.as_slice(),
            };
            push_flow(alloc, m, budget, &reader, out)
        }
        NodeModel::Number(_) | NodeModel::Call { .. } => Ok(()),
    }
}

/// Adds the flows of the reads of an assignment.
fn push_reads(
    alloc: Global,
    m: &Model,
    budget: u64,
    assignment: &Assignment,
    out: &mut Items<ReadFlow>,
) -> Result<(), FlowStop>
    requires over { IsOver m.now }
    requires stmt { slice_get m.now.stmts assignment.now.number ≡ Some assignment.now.stmt.now }
    ensures grows { OnOk result (Grows m.now (reads_from assignment.now.number 0 assignment.now.stmt.now assignment.now.stmt.now.nodes) out.old out.new) }
    ensures stops { IfErr result (StopsAmong budget m.now (reads_from assignment.now.number 0 assignment.now.stmt.now assignment.now.stmt.now.nodes)) }
{
    let nodes = assignment.stmt.nodes.as_slice();
    for k in 0..nodes.len() {
        match push_node(alloc, m, budget, assignment, k, &nodes[k], out) {
            Ok(()) => {}
            Err(stop) => return Err(stop),
        }
    }
    Ok(())
}

/// Adds the flows of all reads.
fn push_all_reads(
    alloc: Global,
    m: &Model,
    budget: u64,
    out: &mut Items<ReadFlow>,
) -> Result<(), FlowStop>
    requires { IsOver m.now }
    ensures grows { OnOk result (Grows m.now (reads_of_all 0 m.now.stmts) out.old out.new) }
    ensures stops { IfErr result (StopsAmong budget m.now (reads_of_all 0 m.now.stmts)) }
{
    let stmts = m.stmts.as_slice();
    for s in 0..stmts.len() {
        let assignment = Assignment {
            number: s,
            stmt: &stmts[s],
        };
        match push_reads(alloc, m, budget, &assignment, out) {
            Ok(()) => {}
            Err(stop) => return Err(stop),
        }
    }
    Ok(())
}

/// Whether an array with these extents is an output.
fn is_output(m: &Model, o: usize, extents: &[Form]) -> bool
    requires { slice_get m.now.extents o ≡ Some extents.now }
    ensures { result ≡ is_output_array m.now o }
{
    match m.kinds.as_slice().get(o) {
        Some(Kind::Input) => !extents.is_empty(),
        Some(Kind::Local) | None => false,
    }
}

/// The stop where the rows of an output's elements cannot be formed: the rows of the context are shown.
fn unbounded(alloc: Global, m: &Model) -> FlowStop
    ensures { IsContextOverflow m.now result }
{
    match with_context(alloc, m) {
        Ok(question) => FlowStop::Overflow(question),
        Err(want) => FlowStop::Memory(want),
    }
}

/// The rows of the context, over the parameters.
pub(crate) fn with_context(alloc: Global, m: &Model) -> Result<Conj, AllocError>
    ensures { IfOk result (λ conj. conj ≡ over m.now.params m.now.context) }
{
    let mut rows = Items::new(alloc);
    push_rows(&mut rows, alloc, m.context.as_slice())?;
    Ok(Conj {
        columns: m.params,
        rows,
    })
}

/// One list of rows as the pieces of an output.
fn single(alloc: Global, rows: Items<Row>) -> Result<Items<Items<Row>>, AllocError>
    ensures { IfOk result (λ pieces. pieces ≡ rows ∷ []) }
{
    let mut pieces = Items::new(alloc);
    pieces.push(rows)?;
    Ok(pieces)
}

/// The pieces of an output: its elements.
fn pieces_of(alloc: Global, m: &Model, extents: &[Form]) -> Result<Items<Items<Row>>, FlowStop>
    ensures made { IfOk result (λ pieces. pieces ≡ extent_rows m.now.params extents.now ∷ []) }
    ensures stops { IfErr result (λ e. IsUnbounded m.now extents.now e) }
{
    match element_rows(alloc, m.params, extents) {
        Ok(rows) => match single(alloc, rows) {
            Ok(pieces) => Ok(pieces),
            Err(want) => Err(FlowStop::Memory(want)),
        },
        Err(FormStop::Wide) => Err(unbounded(alloc, m)),
        Err(FormStop::Memory(want)) => Err(FlowStop::Memory(want)),
    }
}

/// Adds the flow of the elements of an output.
fn push_elements(
    alloc: Global,
    m: &Model,
    budget: u64,
    o: usize,
    extents: &[Form],
    out: &mut Items<ReadFlow>,
) -> Result<(), FlowStop>
    requires over { IsOver m.now }
    requires extents { slice_get m.now.extents o ≡ Some extents.now }
    ensures grows { OnOk result (Grows m.now (elements_of m.now o extents.now ∷ []) out.old out.new) }
    ensures stops { IfErr result (StopsAmong budget m.now (elements_of m.now o extents.now ∷ [])) }
{
    let pieces = match pieces_of(alloc, m, extents) {
        Ok(pieces) => pieces,
        Err(stop) => return Err(stop),
    };
    let reader = Reader {
        position: Position::Output(o),
        array: o,
        count: extents.len(),
        pieces: pieces.as_slice(),
    };
    push_flow(alloc, m, budget, &reader, out)
}

/// Adds the flow of an array, if it is an output.
fn push_output(
    alloc: Global,
    m: &Model,
    budget: u64,
    o: usize,
    extents: &[Form],
    out: &mut Items<ReadFlow>,
) -> Result<(), FlowStop>
    requires over { IsOver m.now }
    requires extents { slice_get m.now.extents o ≡ Some extents.now }
    ensures grows { OnOk result (Grows m.now (output_at m.now o extents.now) out.old out.new) }
    ensures stops { IfErr result (StopsAmong budget m.now (output_at m.now o extents.now)) }
{
    if is_output(m, o, extents) {
        push_elements(alloc, m, budget, o, extents, out)
    } else {
        Ok(())
    }
}

/// Adds the flows of all outputs.
fn push_outputs(
    alloc: Global,
    m: &Model,
    budget: u64,
    out: &mut Items<ReadFlow>,
) -> Result<(), FlowStop>
    requires { IsOver m.now }
    ensures grows { OnOk result (Grows m.now (outputs_from m.now 0 m.now.extents) out.old out.new) }
    ensures stops { IfErr result (StopsAmong budget m.now (outputs_from m.now 0 m.now.extents)) }
{
    let all = m.extents.as_slice();
    for o in 0..all.len() {
        match push_output(alloc, m, budget, o, all[o].as_slice(), out) {
            Ok(()) => {}
            Err(stop) => return Err(stop),
        }
    }
    Ok(())
}

/// The flows of all reads and outputs.
fn flows(alloc: Global, m: &Model, budget: u64) -> Result<Items<ReadFlow>, FlowStop>
    requires { IsOver m.now }
    ensures flows { IfOk result (AreFlows m.now (readers m.now)) }
    ensures stops { IfErr result (StopsAmong budget m.now (readers m.now)) }
{
    let mut out = Items::new(alloc);
    match push_all_reads(alloc, m, budget, &mut out) {
        Ok(()) => {}
        Err(stop) => return Err(stop),
    }
    match push_outputs(alloc, m, budget, &mut out) {
        Ok(()) => Ok(out),
        Err(stop) => Err(stop),
    }
}

/// Exact dataflow (P. Feautrier, Dataflow analysis of array and scalar references, 1991): for each read of an assignment, in the
/// order of the text, and for each output, one case for each assignment of its array, piece of it and level before the reader,
/// and then one for the initial contents. At each valuation of the context a case is left exactly at the instances of the
/// reader whose source it is, and each instance has one case. Each piece that is left has a point, and no two within one
/// piece of the reader have one in common. Elsewhere a kill holds: an assignment that writes the cell again between the
/// source and the reader, with the choices that eliminate its coordinates.
///
/// `Overflow` only where a number of a question leaves `i128`: a case's rows with further rows from its kills, a copy whose
/// coordinates are eliminated, or rows that cannot be formed, of which those before are shown. `Spent` only where the running
/// cost of such a question exceeds the budget. Whether a case's rows have a point is attempted by the simplex method first. What
/// that leaves open, and each copy, goes to the economical elimination, and to the full one where that stops; a stop is the full
/// one's. `Pieces` only with 4,097 pieces of one read or output: each of them is the rows of a case in
/// a piece of the reader with further rows from the case's kills, has a point, and has none in common with the others of that
/// case in that piece.
pub fn flow(alloc: Global, m: &Model, limits: &Limits) -> Result<Flow, FlowStop>
    requires { IsLowered m.now }
    ensures cases { IfOk result (λ f. AreFlows m.now (readers m.now) f.reads) }
    ensures sources { IfOk result (CasesAreSources m.now) }
    ensures stops { IfErr result (StopsAmong limits.now.budget m.now (readers m.now)) }
{
    match flows(alloc, m, limits.budget) {
        Ok(reads) => Ok(Flow { reads }),
        Err(stop) => Err(stop),
    }
}
