//! Schedules as texts: which schedule a text spells, and the line of a broken order.
//!
//! A text has a first line with the number of forms of each time, for each assignment a line with its number and a line for each
//! form, and a last line. Numbers and forms are spelled as in a proof's text (ac_prooftext_lines). Each schedule of a model has one
//! spelling (`specs/OrderTexts.antt`). A text that is none has a first line that is missing, malformed or further
//! (`specs/LineKinds.antt`).
//!
//! A text is read from its front: what a line has to begin with is taken off, byte by byte, and the columns of a form are met in
//! rising order. So a form takes room for its own columns alone, whatever a line names.
#![tactic(auto)]

mod breaks;
mod fronts;
mod heads;
mod laws;
mod numbers;
mod orders;
mod times;
pub mod types;

pub use breaks::broken_line;
pub use laws::faults_spell_nothing;
pub use orders::read_order;
