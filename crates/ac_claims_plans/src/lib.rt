//! Plans for a question of the search, which is itself a path of the judge. Each plan is accepted on every path that follows the
//! question.
//!
//! An embedding says at which columns and rows of the longer path of a plan those of a question stand. By an embedding a
//! certificate that the question has no point becomes a plan on that path.
//!
//! A question may branch on a row (`branching`). Its plan has one part behind the row, and one for each part of the negation
//! (`plans`). A step of the pair of positions has a plan for each of its branches (`steps`).
//!
//! Each function in the modules `embedding_laws` and `question_laws` does nothing, and its contract is a law about every
//! question.
#![tactic(auto)]

mod branching;
mod embedded_plans;
mod embedding;
pub mod embedding_laws;
mod plans;
pub mod question_laws;
mod steps;

pub use branching::{Part, Parts, parts_of};
pub use embedded_plans::{moved_plan, moved_step, plan_of};
pub use embedding::Embedding;
pub use plans::branch_plan;
pub use steps::step_plan;
