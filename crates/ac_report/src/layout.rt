//! What the texts say of a program.
ghost use Rattle.std.specs.Prelude.{◌≡◌, ◌++◌, OnOk, IfOk, slice_get};
ghost use Rattle.std.specs.List.{flat_map};
ghost use Rattle.ac_syntax.specs.Text.{array_name};
ghost use Rattle.ac_report.specs.Layouts.{reads_of, assignments_of, loops_around, count_of, columns_of, dimensions_of, width, name_read, reads_in, read_name};

use ac_base::Items;
use ac_syntax::name::Name;
use ac_syntax::tree::{Array, Position, Stmt, Value};
use std::alloc::{AllocError, Global};
use std::marker::Model;

/// How many loops are around an assignment, and for each node of its value the array that it reads, if it is a read.
#[derive(Drop)]
pub struct Assignment {
    pub loops: usize,
    pub reads: Items<Option<usize>>,
}

/// The names of the parameters, the arrays and the assignments of a program, and how many quotients each assignment has.
#[derive(Drop)]
pub struct Layout<'a> {
    pub params: &'a [Name],
    pub arrays: &'a [Array],
    pub assignments: &'a [Assignment],
    pub quotients: &'a [usize],
}

impl<'a> Model for Layout<'a> {
    ghost use Rattle.ac_report.specs.Layouts.{Layout};

    ghost Value = { Layout };

    ghost view = { λ layout. record { params = layout.params.now; arrays = layout.arrays.now; assignments = layout.assignments.now; quotients = layout.quotients.now } };
}

/// The list with the nodes of a value behind it.
#[cycle(values)]
#[tactic(auto, using(crate::proofs::Layouts::value_steps))]
fn with_reads(made: Items<Option<usize>>, value: &Value) -> Result<Items<Option<usize>>, AllocError>
    ensures { IfOk result (λ new. new ≡ made ++ reads_of value.now) }
{
    let mut made = made;
    match value {
        Value::Number(_) => {
            made.push(None)?;
            Ok(made)
        }
        Value::Access { array, .. } => {
            made.push(Some(*array))?;
            Ok(made)
        }
        Value::Call { args, .. } => {
            made.push(None)?;
            with_arguments(made, args.as_slice())
        }
    }
}

/// The list with the nodes of values behind it.
#[cycle(values)]
#[tactic(auto, using(crate::proofs::Layouts::joins))]
fn with_arguments(
    made: Items<Option<usize>>,
    values: &[Value],
) -> Result<Items<Option<usize>>, AllocError>
    ensures { IfOk result (λ new. new ≡ made ++ flat_map reads_of values.now) }
{
    let mut made = made;
    for value in values {
        made = with_reads(made, value)?;
    }
    Ok(made)
}

/// The list with the assignments of a statement behind it.
#[cycle(statements)]
#[tactic(auto, using(crate::proofs::Layouts::statement_steps))]
fn with_statement(
    alloc: Global,
    made: Items<Assignment>,
    loops: usize,
    stmt: &Stmt,
) -> Result<Items<Assignment>, AllocError>
    ensures { IfOk result (λ new. new ≡ made ++ assignments_of loops stmt.now) }
{
    match stmt {
        Stmt::For { body, .. } => {
            with_statements(alloc, made, loops.saturating_add(1), body.as_slice())
        }
        Stmt::If { taken, other, .. } => {
            let made = with_statements(alloc, made, loops, taken.as_slice())?;
            with_statements(alloc, made, loops, other.as_slice())
        }
        Stmt::Assign { value, .. } => {
            let reads = with_reads(Items::new(alloc), value)?;
            let mut made = made;
            made.push(Assignment { loops, reads })?;
            Ok(made)
        }
    }
}

/// The list with the assignments of statements behind it.
#[cycle(statements)]
#[tactic(auto, using(crate::proofs::Layouts::joins))]
fn with_statements(
    alloc: Global,
    made: Items<Assignment>,
    loops: usize,
    stmts: &[Stmt],
) -> Result<Items<Assignment>, AllocError>
    ensures { IfOk result (λ new. new ≡ made ++ flat_map (assignments_of loops) stmts.now) }
{
    let mut made = made;
    for stmt in stmts {
        made = with_statement(alloc, made, loops, stmt)?;
    }
    Ok(made)
}

/// The assignments of a program's body, in the order of the text.
pub fn assignments_of(alloc: Global, body: &[Stmt]) -> Result<Items<Assignment>, AllocError>
    ensures { IfOk result (λ made. made ≡ flat_map (assignments_of 0) body.now) }
{
    with_statements(alloc, Items::new(alloc), 0, body)
}

/// How many loops are around the assignment with a number.
fn loops_around(layout: &Layout<'_>, s: usize) -> usize
    ensures { result ≡ loops_around layout.now s }
{
    match layout.assignments.get(s) {
        Some(assignment) => assignment.loops,
        None => 0,
    }
}

/// How many quotients the assignment with a number has.
fn quotients_in(quotients: &[usize], s: usize) -> usize
    ensures { result ≡ count_of (slice_get quotients.now s) }
{
    match quotients.get(s) {
        Some(count) => *count,
        None => 0,
    }
}

/// How many columns the assignment with a number has.
pub fn columns_of(layout: &Layout<'_>, s: usize) -> usize
    ensures { result ≡ columns_of layout.now s }
{
    loops_around(layout, s).saturating_add(quotients_in(layout.quotients, s))
}

/// How many dimensions the array with a number has.
fn dimensions(arrays: &[Array], o: usize) -> usize
    ensures { result ≡ dimensions_of (slice_get arrays.now o) }
{
    match arrays.get(o) {
        Some(array) => array.extents.len(),
        None => 0,
    }
}

/// How many coordinates a position has.
pub fn width(layout: &Layout<'_>, position: &Position) -> usize
    ensures { result ≡ width layout.now position.now }
{
    match position {
        Position::Output(o) | Position::InitialOutput(o) => dimensions(layout.arrays, *o),
        Position::Node { stmt, .. } | Position::InitialNode { stmt, .. } => {
            columns_of(layout, *stmt)
        }
    }
}

/// The name of the array with a number.
pub fn array_name<'a>(arrays: &'a [Array], array: usize) -> &'a [u8]
    ensures { result.now ≡ array_name (slice_get arrays.now array) }
{
    match arrays.get(array) {
        Some(array) => array.name.as_bytes(),
        None => &[],
    }
}

/// The nodes of the assignment with a number.
fn reads_in<'a>(assignments: &'a [Assignment], s: usize) -> &'a [Option<usize>]
    ensures { result.now ≡ reads_in (slice_get assignments.now s) }
{
    match assignments.get(s) {
        Some(assignment) => assignment.reads.as_slice(),
        None => &[],
    }
}

/// The name of the array that one of the nodes reads.
fn name_read<'a>(arrays: &'a [Array], nodes: &[Option<usize>], k: usize) -> &'a [u8]
    ensures { result.now ≡ name_read arrays.now (slice_get nodes.now k) }
{
    match nodes.get(k) {
        Some(Some(array)) => array_name(arrays, *array),
        Some(None) | None => &[],
    }
}

/// The name of the array that a node reads.
pub fn read_name<'a>(layout: &Layout<'a>, s: usize, k: usize) -> &'a [u8]
    ensures { result.now ≡ read_name layout.now s k }
{
    name_read(layout.arrays, reads_in(layout.assignments, s), k)
}
