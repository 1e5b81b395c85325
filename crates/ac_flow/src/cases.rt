//! The cases of a read or an output.
use ac_base::Items;
use ac_forms::{Conj, Row};
use ac_omega::Piece;
use ac_poly::types::StmtModel;
use ac_syntax::tree::Position;

/// A read or an output: its position, the array that it reads, the number of its coordinates, and its pieces, over the
/// parameters and these coordinates.
#[derive(Clone, Copy)]
pub(crate) struct Reader<'a> {
    pub position: Position,
    pub array: usize,
    pub count: usize,
    pub pieces: &'a [Items<Row>],
}

/// An assignment of a program, with its number.
#[derive(Clone, Copy)]
pub(crate) struct Assignment<'a> {
    pub number: usize,
    pub stmt: &'a StmtModel,
}

/// What a case has behind its reader's rows: the rows of the source, over the columns of the case, and for each copy the pieces
/// that kill the case.
#[derive(Clone, Copy)]
pub(crate) struct CaseRows<'a> {
    pub own: &'a Conj,
    pub kills: &'a [Items<Piece>],
}
