use ac_base::Items;
use ac_syntax::tree::Position;

/// Where pairs of positions of two programs move.
#[derive(Drop)]
pub struct Graph {
    /// The edges of the left program: from a read or an output to the root of each of its sources, and to its initial
    /// position.
    pub left_edges: Items<(Position, Position)>,
    /// Those of the right program.
    pub right_edges: Items<(Position, Position)>,
    /// The pairs that moves reach from an output of both programs against itself.
    pub reachable: Items<(Position, Position)>,
    /// For each reachable pair, in their order, the places among them of those to which it moves.
    pub targets: Items<Items<usize>>,
    /// The recurrence pairs among them.
    pub recurrent: Items<(Position, Position)>,
    /// A number for each reachable pair, in their order: each move leads to a recurrence pair or to one of a smaller number.
    pub ranks: Items<u64>,
}
