//! Sets of integer points: unions of conjunctions, their common points, the difference of two conjunctions with a tree
//! that shows it complete, and the texts of all these.
//!
//! What each call says:
//! - A union holds a point of its visible columns if, with some numbers for the further columns of one of its pieces, the
//!   point meets that piece. The further columns of a piece are quotients, which its rows fix.
//! - `intersect` joins the rows of each two pieces, the second one's quotients behind the first one's, and forms no new
//!   number. Its points are exactly those of both unions; where the rows of both fix the quotients, so do those it makes.
//! - `Union::contains` tests the pieces and their rows in order, up to the first that decides. It is `Wide` exactly where
//!   a test on the way is, and takes no memory.
//! - `subtract` takes the rows of `b` one after the other: its pieces are the points of `a` that meet all rows before one
//!   and not this one. No point is in two pieces, and a point of `a` is in one exactly where it is not in `b`. It is
//!   `Wide` exactly where the negation of a row of `b` is. Its tree is accepted by the check of trees, and covers `a` by
//!   the pieces and by `b`.
//! - `set_text` is exactly the text of a union by the definition of texts.
#![tactic(auto)]

mod differences;
mod moves;
mod parts;
mod texts;
mod trees;
mod unions;

pub use differences::{Difference, subtract};
pub use parts::{Part, Parts};
pub use texts::set_text;
pub use unions::{Union, intersect};
