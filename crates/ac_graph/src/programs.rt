//! What stands at a position of a program.
ghost use Rattle.std.specs.Prelude.{◌≡◌, List, map, length, IfOk, option_copied, option_map};
ghost use Rattle.std.specs.List.{flat_map};
ghost use Rattle.ac_graph.specs.PairMoves.{pairing_of};
ghost use Rattle.ac_graph.specs.ProgramOutlines.{outlines, outline_at, reads_at, called_by, called_at, called, is_read, AreOutlinesOf};

use crate::outline::{Outline, with_statements};
use ac_base::Items;
use ac_syntax::name::Name;
use ac_syntax::tree::{Pair, Position, Program, Symbol};
use std::alloc::{AllocError, Global};

/// A program as far as pairs move by it.
#[derive(Drop)]
pub(crate) struct Outlines {
    /// The nodes of each assignment's value, in the order of the text.
    pub stmts: Items<Items<Outline>>,
    /// The number of its arrays.
    pub arrays: usize,
}

/// The outlines of a program.
pub(crate) fn outline_of(alloc: Global, program: &Program) -> Result<Outlines, AllocError>
    ensures { IfOk result (λ made. made ≡ record { stmts = flat_map outlines program.now.body; arrays = length program.now.arrays }) }
{
    let stmts = with_statements(alloc, Items::new(alloc), program.body.as_slice())?;
    Ok(Outlines {
        stmts,
        arrays: program.arrays.len(),
    })
}

/// A call: its symbol, its assignment, and the nodes of its arguments.
#[derive(Clone, Copy)]
pub(crate) struct CallNode<'a> {
    pub symbol: &'a Symbol,
    pub stmt: usize,
    pub args: &'a [usize],
}

/// Whether a node is a read.
fn is_read(node: &Outline) -> bool
    ensures { result ≡ is_read node.now }
{
    match node {
        Outline::Read => true,
        Outline::Number | Outline::Call { .. } => false,
    }
}

/// The call that a node is.
fn called_by<'a>(stmt: usize, node: &'a Outline) -> Option<CallNode<'a>>
    ensures { option_map called result ≡ called_by stmt node.now }
{
    match node {
        Outline::Call { symbol, args } => Some(CallNode {
            symbol,
            stmt,
            args: args.as_slice(),
        }),
        Outline::Number | Outline::Read => None,
    }
}

impl Outlines {
    /// The node of an assignment with a number, if there is one.
    fn node_at<'a>(&'a self, stmt: usize, node: usize) -> Option<&'a Outline>
        ensures { option_copied result ≡ outline_at self.now stmt node }
    {
        match self.stmts.as_slice().get(stmt) {
            Some(nodes) => nodes.as_slice().get(node),
            None => None,
        }
    }

    /// Whether a read or an output stands at a position.
    pub(crate) fn is_reader(&self, position: &Position) -> bool
        ensures { result ≡ reads_at self.now position.now }
    {
        match position {
            Position::Output(array) => *array < self.arrays,
            Position::Node { stmt, node } => match self.node_at(*stmt, *node) {
                Some(found) => is_read(found),
                None => false,
            },
            Position::InitialOutput(_) | Position::InitialNode { .. } => false,
        }
    }

    /// The call at a position, if one stands there.
    pub(crate) fn call_at<'a>(&'a self, position: &Position) -> Option<CallNode<'a>>
        ensures { option_map called result ≡ called_at self.now position.now }
    {
        match position {
            Position::Node { stmt, node } => match self.node_at(*stmt, *node) {
                Some(found) => called_by(*stmt, found),
                None => None,
            },
            Position::Output(_) | Position::InitialOutput(_) | Position::InitialNode { .. } => None,
        }
    }
}

/// Both programs, and the symbols whose arguments may be swapped.
#[derive(Drop)]
pub(crate) struct Both<'a> {
    pub left: Outlines,
    pub right: Outlines,
    pub commutative: &'a [Name],
}

/// Both programs of a pair.
#[tactic(auto, using(crate::proofs::Linking::linked_pair))]
pub(crate) fn both_of<'a>(alloc: Global, pair: &'a Pair) -> Result<Both<'a>, AllocError>
    ensures { IfOk result (AreOutlinesOf (pairing_of pair.now)) }
{
    let left = outline_of(alloc, &pair.left)?;
    let right = outline_of(alloc, &pair.right)?;
    Ok(Both {
        left,
        right,
        commutative: pair.commutative.as_slice(),
    })
}
