//! The expressions of a source text: index expressions and conditions as affine forms, right sides as values, or the first rule
//! that one breaks.
//!
//! A name means at its place what `scope` finds there. An index expression (`index`) or a condition (`comparison`) has an affine
//! form over the parameters and the iterators (`form`). An expression without a form breaks a rule, and the first such rule is
//! answered (`fault`). `specs/` says what names mean, how forms are collected, in which order faults come, and what the program
//! has.
//!
//! A right side is a value in the program (`value`), with a number of nodes (`measure`). `specs/` reads an expression as a number
//! by the rules of index expressions, or as a value with the first rule that is broken. A check keeps of a right side what it
//! needs, without building the value. Building gives the value.
//!
//! Each function in the modules `form_laws` and `value_laws` does nothing, and its contract is a law. By these laws forms,
//! conditions and values mean in the program what they mean as they are written.
#![tactic(auto)]

mod comparison;
mod division;
pub mod fault;
mod form;
pub mod form_laws;
mod index;
pub mod measure;
mod quotients;
mod scope;
pub mod value;
pub mod value_laws;

pub use comparison::{
    add_condition, build_condition, build_index, build_indices, check_condition, check_index,
    check_indices, compare, part_rel,
};
pub use form::{Affine, Collected, coefficient};
pub use index::{Judged, is_long, judge};
pub use scope::{Entry, Meaning, Scope, declared_meaning, iterator_number};
