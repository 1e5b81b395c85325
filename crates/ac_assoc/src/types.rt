//! Chains, and the chosen orders of their operands.
use ac_base::Items;
use ac_instance::Side;
use ac_syntax::tree::Place;
use std::alloc::AllocError;

/// A chain at a node of an assignment's value, with the nodes of its operands, from left to right.
#[derive(Drop, PartialEq, Eq)]
pub struct Chain {
    pub side: Side,
    pub stmt: usize,
    pub node: usize,
    pub operands: Items<usize>,
}

/// The number of the order that is chosen for the chain at a node of an assignment's value.
#[derive(Clone, Copy, PartialEq, Eq)]
pub struct Chosen {
    pub stmt: usize,
    pub node: usize,
    pub number: u64,
}

/// Why a pair is not arranged.
#[derive(Drop)]
pub enum AssocFault {
    /// A listed symbol is called there with three to six arguments.
    Arity(Side, Place),
    /// The chain there has more than six operands.
    Long(Side, Place),
    /// There was no memory.
    Memory(AllocError),
}
