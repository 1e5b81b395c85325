//! Affine forms, rows and conjunctions over integer columns, with exact arithmetic: each call answers the exact
//! value, or `Wide` exactly where a number leaves `i128` on the way.
#![tactic(auto)]

mod conj;
mod form;
mod join;
pub mod laws;
mod negate;
mod normal;
mod order;
mod parts;
mod present;
mod range;
mod rename;
mod row;
mod standing;
mod stop;
mod trim;

pub use conj::Conj;
pub use form::{Form, coefficient, set_number};
pub use normal::NormalRow;
pub use present::{has_column, is_present};
pub use range::{column_after, push_range};
pub use rename::renamed_rows;
pub use row::Row;
pub use standing::{all_stand, is_among, kept_rows, stands};
pub use stop::{FormStop, Wide};
