//! What the trees of the choices for a column rest on.
use crate::descent::Base;
use ac_forms::Row;

/// Rows that stand on paths, how many splinters each of them has, and how many rows there are before the last one of a
/// splinter's path.
#[derive(Clone, Copy)]
pub(crate) struct Stage<'a> {
    /// What the paths have.
    pub(crate) base: Base,
    /// The name of each column of the rows: its column on the paths.
    pub(crate) names: &'a [usize],
    /// The place of each row.
    pub(crate) places: &'a [usize],
    /// The rows.
    pub(crate) rows: &'a [Row],
    /// How many splinters each row has.
    pub(crate) counts: &'a [usize],
    /// The depth of the binary tree on which the splinters of a row hang.
    pub(crate) depth: u32,
}
