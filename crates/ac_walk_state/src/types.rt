use ac_claims::types::{Claim, ClaimTree};

/// The claims of an output and of the recurrence pairs that it reaches, the output's first, and their plans: claim by claim, one for
/// each pair of pieces.
#[derive(Drop)]
pub struct Part {
    /// The claims.
    pub claims: Vec<Claim>,
    /// Their plans.
    pub trees: Vec<ClaimTree>,
}
