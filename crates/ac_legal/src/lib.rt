//! Whether a schedule keeps the order of what conflicts in a program.
//!
//! Two instances conflict if one of them writes a cell that the other reads or writes (A. J. Bernstein, Analysis of programs for
//! parallel processing, 1966). A schedule gives each assignment forms, whose values are the times of its instances (P. Feautrier,
//! Some efficient solutions to the affine scheduling problem, 1992). It is legal if the earlier of each two instances that
//! conflict has the smaller time.
//!
//! Each two assignments have order questions: conjunctions whose points are pairs of instances between which the order is broken
//! (W. Pugh, D. Wonnacott, Constraint-based array dependence analysis, 1998). A search asks them one after the other, by one
//! choice for each of their parts. A point is the answer `Broken`, and if there is none, the order is kept.
#![tactic(auto)]

mod asking;
mod between;
mod cells;
mod deciding;
mod lateness;
mod renaming;
mod searching;
pub mod types;

pub use deciding::legal;
