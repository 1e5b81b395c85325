//! A tree without the steps that nothing uses, with gaps in their places.
ghost use Rattle.std.specs.Prelude.{◌≡◌, ◌<◌, ℕ, ◌+◌, ◌-◌, ◌++◌, [], ◌∷◌, length, IfOk, OnOk, OnErr};
ghost use Rattle.ac_cert_short.specs.CertificateNodes.{nodes_of, nodes_behind, uses, step_uses, once};
ghost use Rattle.ac_cert_short.specs.Drafts.{draft_nodes};
ghost use Rattle.ac_cert_short.specs.DraftRelations.{AreCounted, Drafted, at};

use ac_base::Items;
use ac_cert::types::Step;
use ac_cert::{Absurd, Next, Tree};
use ac_forms::Form;
use std::alloc::{AllocError, Global};

/// A step that is kept, or the gap of a row that nothing behind it uses.
#[derive(Drop)]
pub(crate) enum Mark {
    /// The step.
    Kept(Step),
    /// A place on the path without a row.
    Gap,
}

/// A tree with gaps, whose rows are named by the places that they had.
#[derive(Drop)]
#[cycle(draft)]
pub(crate) struct Draft {
    /// The steps, from the last to the first.
    pub(crate) marks: Vec<Mark>,
    /// What comes behind them.
    pub(crate) behind: Behind,
}

/// A branch or an end.
#[derive(Drop)]
#[cycle(draft)]
pub(crate) enum Behind {
    /// A split by the sign of a form.
    Split(Form, Box<Draft>, Box<Draft>),
    /// A branch by the residue of a form.
    Residue(i128, Form, Vec<Draft>),
    /// An end.
    End(Absurd),
}
