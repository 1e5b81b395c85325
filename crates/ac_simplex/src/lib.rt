//! Questions decided by a simplex method in integers, with Chvatal-Gomory cuts: a certificate that there is no point, or a point.
//!
//! The rows are made ready first (`system`). A divisibility gets a column for its quotient (W. Pugh, The Omega test, 1991). An equality
//! with a coefficient 1 or -1 takes out that column; any other becomes two bounds. Each bound is divided by the greatest common divisor of
//! its coefficients, and its constant is rounded down. A false number refutes the rows, and so do two opposite bounds with a negative sum.
//! A column that is bounded from one side only is dropped with its bounds, since any point of the others extends to it (`one_sided`).
//!
//! The tableau has a row for each bound, whose variable is basic, and a column for each column of the question, whose variable may have
//! any value (G. Dantzig, 1951, in the form of B. Dutertre and L. de Moura, 2006). All its numbers are integers, with a denominator for
//! each row. A row whose bound is negative at the vertex is pivoted (`choice`). If no column can raise it, the row is a sum of bounds
//! that is negative (Farkas' lemma, in A. Schrijver, Theory of linear and integer programming, 1986): that sum is the certificate.
//!
//! If no bound is negative, the vertex is tried, and so are the points to which it is rounded (`vertex`). A row that gives a column a
//! fraction gives a cut (`cuts`; R. Gomory, 1958; V. Chvatal, 1973): a sum of bounds, divided and rounded down. If a free column hinders
//! that, a pivot takes it into the basis first. There is no branching: the effort says how many pivots and cuts are made.
//!
//! Each line keeps how it follows from those before it (ac_simplex_lines), so that its steps are written only if a certificate uses it.
//! What is found is checked before it is handed out.
#![tactic(auto)]

mod attempts;
mod bounds;
mod choice;
mod cuts;
mod equalities;
mod one_sided;
mod search;
mod system;
mod tableau;
mod vertex;

pub use attempts::{Effort, Found, USUAL, attempt};
