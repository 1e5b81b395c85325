use ac_base::Items;
use ac_forms::Conj;
use ac_omega_steps::Choice;

/// A conjunction from which nothing is left to eliminate, with the choices that led to it.
#[derive(Drop)]
pub struct Piece {
    /// The choices, the first one first.
    pub choices: Items<Choice>,
    /// What they leave.
    pub rest: Conj,
}
