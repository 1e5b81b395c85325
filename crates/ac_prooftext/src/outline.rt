//! Which lines of a proof may come next.
ghost use Rattle.std.specs.Prelude.{◌≡◌, ◌≤◌, ◌<◌, ◌^◌, ◌-◌, ℕ, List, [], reverse, length, Bool, Option, Some, None, true, false, IsTrue, ◌↔◌, IfOk, OnErr, OnOk, if◌then◌else◌};
ghost use Rattle.ac_prooftext.specs.LineOrder as spec;
ghost use Rattle.ac_prooftext.specs.LineOrder.{Place, Takes, next, head_next, plan_next, choice_next, closed, opened, choices_left, start, done};

use crate::stages::Stage;
use ac_claims::item::Item;
use std::alloc::{AllocError, Global};
use std::marker::Model;

/// Where a proof stands between two of its lines. It holds a number for each branch that is open on one path.
#[derive(Drop)]
pub struct Outline {
    stage: Stage,
    left: Vec<u128>,
}

impl Model for Outline {
    ghost use Rattle.std.specs.Prelude.{reverse};
    ghost use Rattle.ac_prooftext.specs.LineOrder.{Place};

    ghost Value = { Place };

    ghost view = { λ o. record { stage = o.stage; open_counts = reverse o.left.items } };
}

/// The stage with so many claims to come.
fn claims_left(claims: usize) -> Stage
    ensures { result ≡ spec.claims_left claims }
{
    if claims == 0 {
        Stage::Output(None)
    } else {
        Stage::Claim(claims)
    }
}

/// The stage with so many rows of a claim to come, and claims behind it.
fn rows_left(claims: usize, rows: usize) -> Stage
    ensures { result ≡ spec.rows_left claims rows }
{
    if rows == 0 {
        claims_left(claims)
    } else {
        Stage::Row(claims, rows)
    }
}

/// Whether an output's array is above the one before.
fn is_above(last: &Option<usize>, array: usize) -> bool
    ensures { result ≡ spec.is_above last.now array }
{
    match last {
        None => true,
        Some(before) => *before < array,
    }
}

/// The stage behind a line outside of plans.
fn head_stage(stage: &Stage, item: &Item) -> Option<Stage>
    ensures { result ≡ head_next stage.now item.now }
{
    match (stage, item) {
        (Stage::Point(true), Item::Point(_)) => Some(Stage::Left),
        (Stage::Point(false), Item::Point(_)) => Some(Stage::Claims),
        (Stage::Left, Item::Left(_)) => Some(Stage::Right),
        (Stage::Right, Item::Right(_)) => Some(Stage::Claims),
        (Stage::Claims, Item::Claims(claims)) => Some(claims_left(*claims)),
        (Stage::Claim(claims), Item::Claim { rows, .. }) => {
            Some(rows_left(claims.saturating_sub(1), *rows))
        }
        (Stage::Row(claims, rows), Item::Row(_)) => {
            Some(rows_left(*claims, rows.saturating_sub(1)))
        }
        (Stage::Output(last), Item::Output { array, .. }) if is_above(last, *array) => {
            Some(Stage::Output(Some(*array)))
        }
        (Stage::Output(_) | Stage::Tree, Item::Tree { .. }) => Some(Stage::Plan),
        (Stage::Output(_) | Stage::Tree, Item::End) => Some(Stage::Done),
        _ => None,
    }
}

/// Counts one child of the innermost open branch as complete, and each branch that is complete with it. Whether a branch
/// is left that has a further child.
fn close_last(left: &mut Vec<u128>) -> bool
    ensures { closed (reverse left.old.items) ≡ record { stage = if result then Stage.Plan else Stage.Tree; open_counts = reverse left.new.items } }
{
    while left.len() > 0 {
        let at = left.len() - 1;
        let count = left[at];
        if count > 1 {
            left[at] = count - 1;
            return true;
        }
        left.truncate(at);
    }
    false
}

impl Outline {
    ghost use Rattle.std.specs.Prelude.{option_map};

    /// The place before the first line of a proof, with the shapes of the programs at its head or without.
    pub fn new(alloc: Global, shapes: bool) -> Outline
        ensures { result ≡ start shapes }
    {
        Outline {
            stage: Stage::Point(shapes),
            left: Vec::new(alloc),
        }
    }

    /// Whether the proof is complete.
    pub fn is_done(&self) -> bool
        ensures { IsTrue result ↔ (self.now.stage ≡ Stage.Done) }
    {
        match self.stage {
            Stage::Done => true,
            _ => false,
        }
    }

    /// How many branches are open on the path.
    pub fn depth(&self) -> usize
        ensures { result ≡ length self.now.open_counts }
    {
        self.left.len()
    }

    /// Goes on behind a plan, or behind an end in it.
    fn close(&mut self)
        ensures { self.new ≡ closed self.old.open_counts }
    {
        if close_last(&mut self.left) {
            self.stage = Stage::Plan;
        } else {
            self.stage = Stage::Tree;
        }
    }

    /// Opens a branch with so many children.
    fn open(&mut self, children: u128) -> Result<(), AllocError>
        ensures ok { OnOk result (self.new ≡ opened children self.old.open_counts) }
        ensures err { OnErr result (self.new ≡ self.old) }
    {
        if children == 0 {
            self.close();
            return Ok(());
        }
        self.left.push(children)?;
        self.stage = Stage::Plan;
        Ok(())
    }

    /// Goes on with so many choices of a copy.
    fn expect_choices(&mut self, choices: usize)
        ensures { self.new ≡ choices_left choices self.old.open_counts }
    {
        if choices == 0 {
            self.close();
        } else {
            self.stage = Stage::Choice(choices);
        }
    }

    /// Takes a line outside of plans.
    fn take_outside(&mut self, item: &Item) -> bool
        ensures { Takes (option_map (λ s. record { stage = s; open_counts = self.old.open_counts }) (head_next self.old.stage item.now)) self.old self.new result }
    {
        let Some(stage) = head_stage(&self.stage, item) else {
            return false;
        };
        self.stage = stage;
        true
    }

    /// Takes a line of the plan under way.
    fn take_in_plan(&mut self, item: &Item) -> Result<bool, AllocError>
        requires { self.old.stage ≡ Stage.Plan }
        ensures ok { IfOk result (Takes (plan_next self.old.open_counts item.now) self.old self.new) }
        ensures err { OnErr result (self.new ≡ self.old) }
    {
        match item {
            Item::Step(_) => Ok(true),
            Item::Split(_) => {
                self.open(2)?;
                Ok(true)
            }
            Item::Residue(modulus, _) => {
                self.open(modulus.unsigned_abs())?;
                Ok(true)
            }
            Item::Go { cases, .. } => {
                self.open(*cases as u128)?;
                Ok(true)
            }
            Item::Absurd(_) | Item::Hit(_) | Item::Number | Item::Initial => {
                self.close();
                Ok(true)
            }
            Item::Killed { choices, .. } => {
                self.expect_choices(*choices);
                Ok(true)
            }
            _ => Ok(false),
        }
    }

    /// Takes a choice of a copy, of which so many are to come.
    fn take_choice(&mut self, choices: usize, item: &Item) -> bool
        ensures { Takes (choice_next choices self.old.open_counts item.now) self.old self.new result }
    {
        match item {
            Item::Choice(_) => {
                self.expect_choices(choices.saturating_sub(1));
                true
            }
            _ => false,
        }
    }

    /// Takes the next line. Whether it may come next: if not, the outline stays as it is, as after want of memory.
    pub fn take(&mut self, item: &Item) -> Result<bool, AllocError>
        ensures ok { IfOk result (Takes (next self.old item.now) self.old self.new) }
        ensures err { OnErr result (self.new ≡ self.old) }
    {
        match self.stage {
            Stage::Plan => self.take_in_plan(item),
            Stage::Choice(choices) => Ok(self.take_choice(choices, item)),
            _ => Ok(self.take_outside(item)),
        }
    }
}
