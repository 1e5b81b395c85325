//! Which reorderings of a run leave what the run leaves, as laws over definitions alone.
//!
//! Two entries of a trace conflict if some cell is written by one of them and read or written by the other (A. J. Bernstein,
//! Analysis of programs for parallel processing, 1966). A schedule gives each assignment forms whose values are the times of
//! its instances (P. Feautrier, Some efficient solutions to the affine scheduling problem, 1992). It keeps the order if the
//! earlier of each two entries that conflict has the smaller time. Then each list of the same entries along which times never
//! fall leaves the same state (R. Allen, K. Kennedy, Optimizing compilers for modern architectures, 2001).
//!
//! An order question is a conjunction of rows. Its points are the pairs of instances between which the order is broken
//! (W. Pugh, D. Wonnacott, Constraint-based array dependence analysis, 1998). So a schedule keeps the order if and only if
//! none of its questions has a point.
#![tactic(auto)]

mod laws;

pub use laws::{questions_of_a_schedule, reorderings_of_a_trace};
