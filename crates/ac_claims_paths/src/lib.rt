//! Paths of a pair of programs, the steps of the pair as their branches, and the rows that stand among the rows of a path.
//!
//! A path (`path`) has rows over the parameters and coordinates, and two positions with the columns of their coordinates. The
//! steps of the pair are the branches of the path (`going`).
//!
//! A test tells if rows stand among the rows of a path. Paths that begin alike are asked about one after another. So each row of
//! a path is brought into normal form once, and after that only the rows asked about. Rows beside their normal forms, and lists
//! of these, are in `noted`. The memory of normal forms is in `forms`, and contracts see nothing of it.
//!
//! Each function in the module `laws` does nothing, and its contract is a law about every program. The definitions of paths rest
//! on these laws.
#![tactic(auto)]

mod calls;
pub mod columns;
pub mod copies;
mod forms;
pub mod going;
pub mod killing;
pub mod laws;
mod noted;
pub mod path;
pub mod places;
pub mod standing;
pub mod symbols;

pub use forms::NormalForms;
