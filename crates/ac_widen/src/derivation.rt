use ac_base::Items;
use ac_syntax::tree::Position;

/// Why an entry of a derivation stands.
#[derive(Drop, PartialEq, Eq)]
pub enum Reason {
    /// It is an output against itself, at one element.
    Output,
    /// It is a step of the entry with this number.
    Step {
        from: usize,
    },
    /// `m` times its point is the sum of the points of earlier entries of its two positions, each times its weight.
    Hull {
        m: i128,
        weights: Items<(usize, i128)>,
    },
}

/// A pair of a derivation: a position in each program, and a point. The point has the valuation of the parameters, then the
/// coordinates of the left position, then those of the right one.
#[derive(Drop, PartialEq, Eq)]
pub struct Entry {
    pub left: Position,
    pub right: Position,
    pub point: Items<i128>,
    pub reason: Reason,
}

/// A derivation of a mismatch: each entry stands by those before it, and the last one is a mismatch. Entries are numbered
/// from 0.
#[derive(Drop, PartialEq, Eq)]
pub struct Derivation {
    pub entries: Items<Entry>,
}
