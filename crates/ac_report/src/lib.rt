//! What is said of the outputs of two programs and of the flow of one, and the exact texts of both.
//!
//! Each text is a definition in `specs/`: `ReportTexts` has the lines of verdicts and stops, `FlowTexts` those of a flow. Nothing
//! is asked of what is printed: a number that a program does not have names nothing and has no coordinates, and where there are
//! fewer numbers than the text has place for, it shows those.
#![tactic(auto)]

mod causes;
mod entries;
mod flows;
mod layout;
mod names;
mod numbers;
mod quotients;
mod stops;
pub mod types;
mod unions;
mod verdicts;

pub use flows::flow_text;
pub use stops::{context_stop_text, flow_stop_text};
pub use types::{Cause, Verdict};
pub use verdicts::verdict_text;
