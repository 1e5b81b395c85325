//! Laws about the budget of `flow` on programs of differences, and about the dimensions of cells.
//!
//! Budgets (`budget_laws`): no question of `flow` on a program of differences is too wide. None costs more than the default
//! budget.
//!
//! Dimensions (`dimension_laws`): each cell of the program of a text has a subscript for each dimension of its array.
//!
//! Each function here does nothing, and its contract is a law about every such program.
#![tactic(auto)]

mod budget_laws;
mod dimension_laws;

pub use budget_laws::{
    contexts_of_differences_are_answered, flows_of_differences_stop_by_no_question,
    programs_of_differences, programs_of_differences_stop_by_no_question,
    questions_of_differences_are_small, texts_of_differences_stop_by_no_question,
};
pub use dimension_laws::{cells_have_dimensions, texts_have_dimensions};
