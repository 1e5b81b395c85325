use ac_syntax::tree::{Pair, Position};
use ac_unfold::types::ProgramFlows;
use ac_walk_state::Template;
use ac_walk_state::types::Part;
use ac_widen::Derivation;

/// A search on an output of two programs: what it knows of both, and how far it goes.
#[derive(Clone, Copy)]
pub struct Search<'a> {
    pub pair: &'a Pair,
    pub program_flows: &'a ProgramFlows<'a>,
    pub template: &'a Template,
    /// The array of the output.
    pub array: usize,
    /// The pairs of positions up to which it goes: at least the recurrence pairs.
    pub stops: &'a [(Position, Position)],
    /// The number that the claim of the output gets in the proof.
    pub first: usize,
    /// Whether pairs of calls are tabled: each is proved once for each relation in which paths come to it.
    pub tabling: bool,
}

/// How the search under one order ends.
#[derive(Drop)]
pub enum Ended {
    /// The output and all claims stand: the output's part of a proof.
    Stands(Part),
    /// A pair is a mismatch, where each of the pairs up to which the search goes is a recurrence pair.
    Mismatch(Derivation),
}
