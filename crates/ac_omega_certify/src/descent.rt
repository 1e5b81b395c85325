//! What stands on a path, and under which names.
ghost use Rattle.std.specs.Prelude.{◌≡◌, ℕ, []};
ghost use Rattle.ac_omega_certify.specs.Descents.{base_of};

use crate::path::TreePath;
use ac_base::Items;
use ac_forms::Row;
use std::alloc::Global;

/// How many columns and rows a path has, and where its row `1 >= 0` stands.
#[derive(Clone, Copy, PartialEq, Eq, Drop)]
pub(crate) struct Base {
    pub(crate) columns: usize,
    pub(crate) rows: usize,
    pub(crate) one: usize,
}

/// Rows, and the place of each on a path.
#[derive(Drop)]
pub(crate) struct Standing {
    pub(crate) rows: Vec<Row>,
    pub(crate) places: Vec<usize>,
}

/// Where the rows of a normal form stand.
#[derive(Drop)]
pub(crate) enum Below {
    /// Nowhere: an absurd row stands at this place.
    Absurd(usize),
    /// At these places, in order.
    Rows(Vec<usize>),
}

impl TreePath {
    /// The tree path without steps, at a path.
    pub(crate) fn behind(alloc: Global, base: Base) -> TreePath
        ensures steps { result.steps ≡ [] }
        ensures base { base_of result ≡ base }
    {
        TreePath {
            steps: Items::new(alloc),
            columns: base.columns,
            rows: base.rows,
            one: base.one,
        }
    }

    /// How many columns and rows there are behind the steps.
    pub(crate) fn base(&self) -> Base
        ensures { result ≡ base_of self.now }
    {
        Base {
            columns: self.columns,
            rows: self.rows,
            one: self.one,
        }
    }
}
