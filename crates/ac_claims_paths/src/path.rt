ghost use Rattle.std.specs.Prelude.{◌≡◌, IfOk};
ghost use Rattle.ac_claims_paths.specs.PathSteps.{at_rows};

use ac_base::Items;
use ac_forms::{Conj, Row};
use ac_poly::types::Model;
use ac_syntax::name::Name;
use ac_syntax::tree::Position;
use std::alloc::{AllocError, Global};

/// The models of both programs of a pair, under its context, and the names that it declares commutative.
#[derive(Clone, Copy)]
pub struct Programs<'a> {
    pub left: &'a Model,
    pub right: &'a Model,
    pub commutative: &'a [Name],
}

/// One of the two programs of a pair.
#[derive(Clone, Copy, PartialEq, Eq)]
pub enum Side {
    Left,
    Right,
}

/// A position with the columns of its coordinates: `width` columns from `first` on.
#[derive(Clone, Copy, PartialEq, Eq)]
pub struct Seat {
    pub position: Position,
    pub first: usize,
    pub width: usize,
}

/// What the last step of a read or an output assumed: that its source is an instance of an assignment, or that there is
/// none.
#[derive(Clone, Copy)]
pub struct Assumed {
    pub side: Side,
    /// The read or output.
    pub reader: Seat,
    /// The root of the source; none where the initial contents are assumed.
    pub source: Option<Seat>,
}

/// Where a plan has come to: the rows so far, the pair of positions with their columns, whether a step of the pair was
/// taken, and what the last one assumed, if it was that of a read or an output.
#[derive(Drop)]
pub struct Path {
    pub conj: Conj,
    pub left: Seat,
    pub right: Seat,
    pub gone: bool,
    pub last: Option<Assumed>,
}

/// What a branch of a step of the pair adds to a path: columns and rows behind those of the path; and what the positions are
/// then, and what was assumed.
#[derive(Drop)]
pub struct Branch {
    pub columns: usize,
    pub rows: Items<Row>,
    pub left: Seat,
    pub right: Seat,
    pub last: Option<Assumed>,
}

/// The numbers that name a copy.
#[derive(Clone, Copy, PartialEq, Eq)]
pub struct CopyNumbers {
    /// Its assignment.
    pub stmt: usize,
    /// The piece of the assignment.
    pub piece: usize,
    /// The level by which it stands after the assumed source; none where the initial contents are assumed.
    pub after: Option<usize>,
    /// The level by which it stands before the reader.
    pub before: usize,
}

impl Path {
    /// The same path again.
    pub fn copy(&self, alloc: Global) -> Result<Path, AllocError>
        ensures { IfOk result (λ path. path ≡ self.now) }
    {
        let conj = self.conj.copy(alloc)?;
        Ok(at_rows(self, conj))
    }
}

/// The path at other rows.
pub fn at_rows(path: &Path, conj: Conj) -> Path
    ensures { result ≡ at_rows path.now conj }
{
    Path {
        conj,
        left: path.left,
        right: path.right,
        gone: path.gone,
        last: path.last,
    }
}
