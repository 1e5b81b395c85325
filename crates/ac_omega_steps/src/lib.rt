//! Choices of an elimination over integer rows: which are legal, what each leaves in normal form, and how a point of that
//! goes back.
#![tactic(auto)]

mod back;
mod choose;
mod column;
mod combine;
pub mod laws;
mod leave;
mod legal;
mod normal;
mod replace;
mod shadow;

pub use choose::{Choice, StepStop, lift, step};
pub use combine::combination;
pub use legal::are_absurd;
