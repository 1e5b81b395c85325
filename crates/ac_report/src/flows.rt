//! The lines of a flow.
ghost use Rattle.std.specs.Prelude.{◌≡◌, ◌++◌, [], codes, map, length, Some, None, OnOk, IfOk};
ghost use Rattle.std.specs.Fmt.{decimal};
ghost use Rattle.std.specs.List.{flat_map, range_with_len};
ghost use Rattle.ac_flow.specs.declared.types.Remainder.{Remainder};
ghost use Rattle.ac_report.specs.Layouts.{layout_of};
ghost use Rattle.ac_report.specs.FlowTexts as text;

use crate::layout::{Layout, assignments_of, columns_of, read_name};
use crate::names::{with_names, with_numbered};
use crate::numbers::{push_natural, push_position};
use crate::quotients::quotient_counts;
use crate::unions::push_union;
use ac_base::Items;
use ac_flow::types::{Case, Flow, ReadFlow, Remainder};
use ac_forms::Conj;
use ac_syntax::name::Name;
use ac_syntax::tree::{Position, Program};
use std::alloc::{AllocError, Global};

fn is_same_source(source: &Option<usize>, other: &Option<usize>) -> bool
    ensures { result ≡ text.is_same_source source.now other.now }
{
    match (source, other) {
        (None, None) => true,
        (Some(u), Some(v)) => *u == *v,
        (None, Some(_)) | (Some(_), None) => false,
    }
}

/// The list with what is left of a case behind it.
fn with_remainders(
    alloc: Global,
    made: Items<Conj>,
    pieces: &[Remainder],
) -> Result<Items<Conj>, AllocError>
    ensures { IfOk result (λ new. new ≡ made ++ map (λ (r : Remainder). r.conj) pieces.now) }
{
    let mut made = made;
    for piece in pieces {
        made.push(piece.conj.copy(alloc)?)?;
    }
    Ok(made)
}

/// The list with what is left of a case behind it, if it is one of the source.
fn with_case(
    alloc: Global,
    made: Items<Conj>,
    source: &Option<usize>,
    case: &Case,
) -> Result<Items<Conj>, AllocError>
    ensures { IfOk result (λ new. new ≡ made ++ text.pieces_in source.now case.now) }
{
    if is_same_source(source, &case.source) {
        with_remainders(alloc, made, case.pieces.as_slice())
    } else {
        Ok(made)
    }
}

/// Where a source gives the value.
fn pieces_of(
    alloc: Global,
    source: &Option<usize>,
    cases: &[Case],
) -> Result<Items<Conj>, AllocError>
    ensures { IfOk result (λ pieces. pieces ≡ text.pieces_of source.now cases.now) }
{
    let mut made = Items::new(alloc);
    for case in cases {
        made = with_case(alloc, made, source, case)?;
    }
    Ok(made)
}

/// The names of the columns of a read.
fn reader_names(alloc: Global, layout: &Layout<'_>, s: usize) -> Result<Items<Name>, AllocError>
    ensures { IfOk result (λ names. names ≡ text.reader_names layout.now s) }
{
    let names = with_names(alloc, Items::new(alloc), layout.params)?;
    with_numbered(alloc, names, b'x', columns_of(layout, s))
}

/// The names of the columns of a read and a source.
fn source_names(
    alloc: Global,
    layout: &Layout<'_>,
    s: usize,
    u: usize,
) -> Result<Items<Name>, AllocError>
    ensures { IfOk result (λ names. names ≡ text.source_names layout.now s u) }
{
    let names = reader_names(alloc, layout, s)?;
    with_numbered(alloc, names, b'w', columns_of(layout, u))
}

/// Adds the line of a source that has pieces.
#[tactic(auto, using(crate::proofs::Lists::union_steps))]
fn push_union_line(
    alloc: Global,
    bytes: &mut Vec<u8>,
    head: &[u8],
    names: &[Name],
    pieces: Items<Conj>,
) -> Result<(), AllocError>
    requires some { ¬ (pieces ≡ []) }
    ensures { OnOk result (bytes.new.items ≡ bytes.old.items ++ text.union_line head.now names.now pieces) }
{
    bytes.extend_from_slice(b"  ")?;
    bytes.extend_from_slice(head)?;
    bytes.extend_from_slice(b": ")?;
    push_union(alloc, bytes, names, pieces)?;
    bytes.push(b'\n')?;
    Ok(())
}

/// The word of a source.
fn source_word(alloc: Global, u: usize) -> Result<Vec<u8>, AllocError>
    ensures { IfOk result (λ word. word.items ≡ codes "from S" ++ decimal u) }
{
    let mut word = Vec::from_slice(alloc, b"from S")?;
    push_natural(&mut word, u as u128)?;
    Ok(word)
}

/// Adds the line of an assignment with the pieces where it is the source.
#[tactic(auto, using(crate::proofs::Lists::union_steps))]
fn push_source_line(
    alloc: Global,
    bytes: &mut Vec<u8>,
    layout: &Layout<'_>,
    s: usize,
    u: usize,
    pieces: Items<Conj>,
) -> Result<(), AllocError>
    ensures { OnOk result (bytes.new.items ≡ bytes.old.items ++ text.union_line (codes "from S" ++ decimal u) (text.source_names layout.now s u) pieces) }
{
    if pieces.is_empty() {
        return Ok(());
    }
    let word = source_word(alloc, u)?;
    let names = source_names(alloc, layout, s, u)?;
    push_union_line(alloc, bytes, word.as_slice(), names.as_slice(), pieces)
}

/// Adds the line of an assignment, if it is a source somewhere.
fn push_source(
    alloc: Global,
    bytes: &mut Vec<u8>,
    layout: &Layout<'_>,
    s: usize,
    cases: &[Case],
    u: usize,
) -> Result<(), AllocError>
    ensures { OnOk result (bytes.new.items ≡ bytes.old.items ++ text.source_line layout.now s cases.now u) }
{
    let pieces = pieces_of(alloc, &Some(u), cases)?;
    push_source_line(alloc, bytes, layout, s, u, pieces)
}

/// Adds the lines of the assignments that are a source somewhere.
#[tactic(auto, using(crate::proofs::Lists::source_steps))]
fn push_sources(
    alloc: Global,
    bytes: &mut Vec<u8>,
    layout: &Layout<'_>,
    s: usize,
    cases: &[Case],
) -> Result<(), AllocError>
    ensures { OnOk result (bytes.new.items ≡ bytes.old.items ++ flat_map (text.source_line layout.now s cases.now) (range_with_len 0 (length layout.now.assignments))) }
{
    for u in 0..layout.assignments.len() {
        push_source(alloc, bytes, layout, s, cases, u)?;
    }
    Ok(())
}

/// Adds the line of the initial contents with the pieces where they are the source.
#[tactic(auto, using(crate::proofs::Lists::union_steps))]
fn push_initial_line(
    alloc: Global,
    bytes: &mut Vec<u8>,
    layout: &Layout<'_>,
    s: usize,
    pieces: Items<Conj>,
) -> Result<(), AllocError>
    ensures { OnOk result (bytes.new.items ≡ bytes.old.items ++ text.union_line (codes "initial") (text.reader_names layout.now s) pieces) }
{
    if pieces.is_empty() {
        return Ok(());
    }
    let names = reader_names(alloc, layout, s)?;
    push_union_line(alloc, bytes, b"initial", names.as_slice(), pieces)
}

/// Adds the line of the initial contents, if they are a source somewhere.
fn push_initial(
    alloc: Global,
    bytes: &mut Vec<u8>,
    layout: &Layout<'_>,
    s: usize,
    cases: &[Case],
) -> Result<(), AllocError>
    ensures { OnOk result (bytes.new.items ≡ bytes.old.items ++ text.initial_line layout.now s cases.now) }
{
    let pieces = pieces_of(alloc, &None, cases)?;
    push_initial_line(alloc, bytes, layout, s, pieces)
}

/// Adds the lines of a read.
#[tactic(auto, using(crate::proofs::Layouts::joins))]
fn push_read(
    alloc: Global,
    bytes: &mut Vec<u8>,
    layout: &Layout<'_>,
    s: usize,
    k: usize,
    cases: &[Case],
) -> Result<(), AllocError>
    ensures { OnOk result (bytes.new.items ≡ bytes.old.items ++ text.read_lines layout.now s k cases.now) }
{
    push_position(bytes, &Position::Node { stmt: s, node: k })?;
    bytes.extend_from_slice(b" reads ")?;
    bytes.extend_from_slice(read_name(layout, s, k))?;
    bytes.push(b'\n')?;
    push_sources(alloc, bytes, layout, s, cases)?;
    push_initial(alloc, bytes, layout, s, cases)
}

/// Adds the lines of a reader, if it is a read.
fn push_reader(
    alloc: Global,
    bytes: &mut Vec<u8>,
    layout: &Layout<'_>,
    read: &ReadFlow,
) -> Result<(), AllocError>
    ensures { OnOk result (bytes.new.items ≡ bytes.old.items ++ text.reader_lines layout.now read.now.position read.now.cases) }
{
    match read.position {
        Position::Node { stmt, node } => {
            push_read(alloc, bytes, layout, stmt, node, read.cases.as_slice())
        }
        Position::Output(_) | Position::InitialOutput(_) | Position::InitialNode { .. } => Ok(()),
    }
}

/// Adds the lines of all reads.
fn push_readers(
    alloc: Global,
    bytes: &mut Vec<u8>,
    layout: &Layout<'_>,
    reads: &[ReadFlow],
) -> Result<(), AllocError>
    ensures { OnOk result (bytes.new.items ≡ bytes.old.items ++ text.flow_lines layout.now reads.now) }
{
    for read in reads {
        push_reader(alloc, bytes, layout, read)?;
    }
    Ok(())
}

/// The lines of a flow: for each read of an assignment, in the order of the flow, `S0.1 reads B`, then where each assignment is its
/// source, `  from S0: UNION`, and where the initial contents are, `  initial: UNION`. A source that is nowhere the source has no
/// line. The columns have the names of the parameters, then `x0`, `x1` and so on for the loops around the read and for the quotients
/// of its assignment, then `w0`, `w1` and so on for those of the source. What is behind these are the quotients of a piece, `q0`, `q1` and so on.
pub fn flow_text(alloc: Global, p: &Program, f: &Flow) -> Result<Vec<u8>, AllocError>
    ensures { IfOk result (λ bytes. bytes.items ≡ text.flow_lines (layout_of p.now) f.now.reads) }
{
    let assignments = assignments_of(alloc, p.body.as_slice())?;
    let quotients = quotient_counts(alloc, p.body.as_slice())?;
    let layout = Layout {
        params: p.params.as_slice(),
        arrays: p.arrays.as_slice(),
        assignments: assignments.as_slice(),
        quotients: quotients.as_slice(),
    };
    let mut bytes = Vec::new(alloc);
    push_readers(alloc, &mut bytes, &layout, f.reads.as_slice())?;
    Ok(bytes)
}
