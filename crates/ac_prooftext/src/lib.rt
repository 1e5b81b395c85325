//! The text of a proof.
#![tactic(auto)]

mod checker;
mod depths;
mod forks;
mod laws;
mod lines;
mod outline;
mod plan_reader;
mod plan_text;
mod proof_reader;
mod read;
pub mod stages;
pub mod types;
mod write;

pub use checker::Checker;
pub use depths::nesting;
pub use laws::{
    answers_are_verdicts, lines_of_proofs_may_follow, named_outputs_are_the_same,
    spellings_have_no_fault, texts_are_of_one_proof, written_proofs_are_judged,
};
pub use outline::Outline;
pub use read::read_proof;
pub use write::write_proof;
