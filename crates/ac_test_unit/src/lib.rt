//! Tests of what no text of cases can say: real files, values that only a program makes, and public functions that the
//! program does not call.
//!
//! Cases that text can say stand in the data of `ac_test_runs`.
#![tactic(auto)]

#[cfg(test)]
mod assoc;
#[cfg(test)]
mod disk;
#[cfg(test)]
mod grammar;
#[cfg(test)]
mod hulls;
#[cfg(test)]
mod items;
#[cfg(test)]
mod legal;
#[cfg(test)]
mod numbers;
#[cfg(test)]
mod points;
#[cfg(test)]
mod programs;
#[cfg(test)]
mod proofs;
#[cfg(test)]
mod questions;
#[cfg(test)]
mod quotients;
#[cfg(test)]
mod rows;
#[cfg(test)]
mod sets;
#[cfg(test)]
mod simplex;
