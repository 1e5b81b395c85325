ghost use Rattle.std.specs.Prelude.{◌≡◌, [], Some, OnOk, if◌then◌else◌};
ghost use Rattle.ac_syntax.specs.Algebra.{Cell, same_cell};
ghost use Rattle.ac_instance.specs.KeptIds.{cell_of, id_at};

use ac_terms::TermId;
use indexmap::IndexMap;
use std::alloc::{AllocError, Global};
use std::marker::Model;

/// A cell that is read or assigned: an array's number and an index for each of its dimensions.
#[derive(PartialEq, Eq, Hash, Drop)]
pub struct Target {
    pub array: usize,
    pub index: Vec<i64>,
}

/// The ids of the terms of the cells that a run has assigned, in the order of their first assignment.
#[derive(Drop)]
pub struct Cells {
    ids: IndexMap<Target, TermId>,
}

impl Model for Cells {
    ghost use Rattle.std.specs.Prelude.{List, map};
    ghost use Rattle.ac_syntax.specs.Algebra.{Cell};
    ghost use Rattle.ac_terms.specs.declared.node.TermId.{TermId};
    ghost use Rattle.ac_instance.specs.KeptIds.{cell_of};

    ghost Value = { List (Cell × TermId) };

    ghost view = { λ cells. map (λ e. (cell_of e.0, e.1)) cells.ids.entries };
}

impl Cells {
    /// No cell is assigned.
    pub fn new(alloc: Global) -> Cells
        ensures { result ≡ [] }
    {
        Cells {
            ids: IndexMap::new(alloc),
        }
    }

    /// The id that is kept for a cell.
    pub fn get(&self, target: &Target) -> Option<TermId>
        ensures { result ≡ id_at self.now (cell_of target.now) }
    {
        self.ids.get(target).copied()
    }

    /// Keeps an id for a cell, in the place of an earlier one.
    pub fn set(&mut self, target: Target, id: TermId) -> Result<(), AllocError>
        ensures { OnOk result ((c : Cell) → id_at self.new c ≡ (if same_cell (cell_of target) c then Some id else id_at self.old c)) }
    {
        self.ids.insert(target, id)?;
        Ok(())
    }
}
