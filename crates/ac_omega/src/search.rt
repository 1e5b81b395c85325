ghost use Rattle.std.specs.Prelude.{◌≡◌, ◌<◌, ◌≤◌, ◌+◌, ◌++◌, ℕ, ℤ, pos, List, [], ◌∷◌, Some, None, Option, IfOk, OnOk, IfSome, IsSome, true, false, length, replicate};
ghost use Rattle.ac_forms.specs.Rows.{IsWellMade, Meets};
ghost use Rattle.ac_forms.specs.declared.conj.Conj.{Conj};
ghost use Rattle.ac_omega_steps.specs.Choices.{are_absurd, is_legal, left_by};
ghost use Rattle.ac_omega_steps.specs.ChoiceFits.{after_choice};
ghost use Rattle.ac_omega_steps.specs.IntegerPoints.{IsPoint};
ghost use Rattle.ac_forms.specs.FormStops.{GivenOf};
ghost use Rattle.ac_omega.specs.WalkStops.{OnlyWide};
ghost use Rattle.ac_omega.specs.WalkAnswers.{lifted_to, IfFound, IfWalkedEmpty, IsRefuted, IsRefutedBehind, HasGrown, AreLegal, IsNormal, SettleFor, WantsPoint, WantsRefutation, wanted, with_choice_behind, with_refutation};
ghost use Rattle.ac_omega.specs.declared.piece.Piece.{Piece};
ghost use Rattle.ac_omega.specs.Visits.{Visits, Tried, visiting, seen, at_leaf};
ghost use Rattle.ac_omega_certify.specs.Alternatives.{alternatives_for};
ghost use Rattle.ac_omega.specs.Walk.{walk, lifted};
ghost use Rattle.ac_omega.specs.Within.{Bounds, HaveRisen, IsWithin};
ghost use Rattle.ac_omega_certify.specs.Refutations.{AreModuliWithin};
ghost use Rattle.ac_omega_certify.specs.declared.refutation.Refutation.TheVariants.{Open};

use crate::cost::charged;
use crate::cursor::{Next, advance, first};
use crate::extent::{Maxima, with_choice, with_rows};
use crate::halt::Halt;
use crate::piece::Piece;
use crate::ranking::next_column;
use ac_base::Items;
use ac_forms::{Conj, FormStop, Row};
use ac_omega_certify::{Refutation, Strategy};
use ac_omega_steps::{Choice, StepStop, are_absurd};
use std::alloc::{AllocError, Global};

/// What a walk is for.
#[derive(Clone, Copy)]
pub(crate) enum Aim {
    /// A point: it ends at the first conjunction from which nothing is left to eliminate.
    ForPoint,
    /// The same, with a refutation where there is no point.
    ForRefutation,
    /// All conjunctions from which nothing is left to eliminate.
    ForPieces,
}

/// What a walk goes by: a strategy, what it is for, the columns that it eliminates, and its budget.
#[derive(Clone, Copy)]
pub(crate) struct Walk<'a> {
    pub(crate) strategy: Strategy,
    pub(crate) aim: Aim,
    pub(crate) vars: &'a [usize],
    pub(crate) budget: u64,
}

/// How far a walk has come: the choices on its path, and the pieces that it keeps.
#[derive(Drop)]
pub(crate) struct Progress {
    pub(crate) path: Items<Choice>,
    pub(crate) pieces: Items<Piece>,
}

/// What a walk comes to.
#[derive(Drop)]
pub(crate) enum Walked {
    /// It has gone through all choices.
    Empty {
        /// The running cost.
        cost: u64,
        /// The greatest numbers that were met.
        maxima: Maxima,
        /// Why there is no point, where the walk is for that.
        refutation: Option<Refutation>,
    },
    /// A point.
    Found(Vec<i128>),
}

/// The refutation, where the walk is for one.
fn wanted(aim: Aim, refutation: Refutation) -> Option<Refutation>
    ensures { result ≡ wanted aim refutation }
{
    match aim {
        Aim::ForRefutation => Some(refutation),
        Aim::ForPoint | Aim::ForPieces => None,
    }
}

/// The refutation behind all choices for a column, where the walk is for one.
fn open_refutation(
    aim: Aim,
    conj: Conj,
    choices: Items<Choice>,
    below: Items<Refutation>,
) -> Option<Refutation>
    ensures { result ≡ wanted aim (Open conj choices below) }
{
    let refutation = Refutation::Open {
        conj,
        choices,
        below,
    };
    wanted(aim, refutation)
}

/// Adds a choice and the refutation of what it leaves, where there is one.
fn keep(
    choices: &mut Items<Choice>,
    below: &mut Items<Refutation>,
    choice: Choice,
    refutation: Option<Refutation>,
) -> Result<(), AllocError>
    ensures choices { OnOk result (choices.new ≡ with_choice_behind choices.old choice refutation) }
    ensures below { OnOk result (below.new ≡ with_refutation below.old refutation) }
{
    match refutation {
        Some(refutation) => {
            choices.push(choice)?;
            below.push(refutation)
        }
        None => Ok(()),
    }
}

/// That many zeros.
fn zeros(alloc: Global, columns: usize) -> Result<Vec<i128>, AllocError>
    ensures { IfOk result (λ point. point.items ≡ replicate columns (pos 0)) }
{
    let mut point = Vec::new(alloc);
    point.resize(columns, 0)?;
    Ok(point)
}

/// What a legal choice leaves.
pub(crate) fn left_by(alloc: Global, conj: &Conj, choice: &Choice) -> Result<Conj, Halt>
    requires made { IsWellMade conj.now }
    requires legal { is_legal choice.now conj.now ≡ true }
    ensures exact { GivenOf result OnlyWide (after_choice choice.now conj.now) }
    ensures made { IfOk result (λ rest. IsWellMade rest) }
    ensures columns { IfOk result (λ rest. rest.columns ≡ conj.now.columns) }
    ensures normal { IfOk result (λ rest. IsNormal rest) }
    ensures points { IfOk result (λ rest. (p : List ℤ) → Meets rest.rows p → Meets (left_by choice.now conj.now.rows) p) }
{
    match ac_omega_steps::step(alloc, conj, choice) {
        Ok(rest) => Ok(rest),
        Err(StepStop::Memory(want)) => Err(Halt::Memory(want)),
        Err(StepStop::Wide) => Err(Halt::Wide),
        Err(StepStop::Illegal) => unreachable!(),
    }
}

/// The point of a conjunction that a point of what a choice leaves goes back to.
fn lifted(alloc: Global, conj: &Conj, choice: &Choice, point: &[i128]) -> Result<Walked, Halt>
    requires made { IsWellMade conj.now }
    requires legal { is_legal choice.now conj.now ≡ true }
    requires columns { length point.now ≡ conj.now.columns }
    requires meets { Meets (left_by choice.now conj.now.rows) point.now }
    ensures exact { (ps : List Piece) → Visits result ps (lifted (lifted_to choice.now conj.now point.now)) }
    ensures point { IfOk result (λ w. IfFound w (λ p. IsPoint conj.now p)) }
    ensures found { IfOk result (λ w. IfWalkedEmpty w (λ s r. ⊥)) }
{
    match ac_omega_steps::lift(alloc, conj, choice, point) {
        Ok(back) => Ok(Walked::Found(back)),
        Err(FormStop::Wide) => Err(Halt::Wide),
        Err(FormStop::Memory(want)) => Err(Halt::Memory(want)),
    }
}

/// What is done at a conjunction from which nothing is left to eliminate, to which a path of choices led.
fn at_leaf(
    alloc: Global,
    aim: Aim,
    conj: Conj,
    cost: u64,
    met: Maxima,
    progress: &mut Progress,
) -> Result<Walked, Halt>
    ensures exact { Visits result progress.new.pieces (at_leaf aim progress.old.path conj cost met progress.old.pieces) }
    ensures point { IfOk result (λ w. IfFound w (λ p. WantsPoint aim × (p ≡ replicate conj.columns (pos 0)))) }
    ensures gone { IfOk result (λ w. IfWalkedEmpty w (λ s r. (aim ≡ Aim.ForPieces) × (s ≡ met))) }
    ensures grown { IfOk result (λ w. HasGrown cost cost w) }
    ensures none { IfOk result (λ w. IfWalkedEmpty w (λ s r. r ≡ None)) }
    ensures same_path { IfOk result (λ w. IfWalkedEmpty w (λ s r. progress.new.path ≡ progress.old.path)) }
{
    match aim {
        Aim::ForPoint | Aim::ForRefutation => Ok(Walked::Found(zeros(alloc, conj.columns)?)),
        Aim::ForPieces => {
            let choices = Items::from_slice(alloc, progress.path.as_slice())?;
            progress.pieces.push(Piece {
                choices,
                rest: conj,
            })?;
            Ok(Walked::Empty {
                cost,
                maxima: met,
                refutation: None,
            })
        }
    }
}

/// The walk from a conjunction in normal form on, to which a path of choices led: depth first, over the choices for the next
/// of the columns. Pieces are added at the end.
#[cycle(searches)]
pub(crate) fn search(
    alloc: Global,
    task: &Walk,
    conj: Conj,
    cost: u64,
    met: Maxima,
    progress: &mut Progress,
) -> Result<Walked, Halt>
    requires cost { cost ≤ task.now.budget }
    requires made { IsWellMade conj }
    requires normal { IsNormal conj }
    requires settle { SettleFor task.now.strategy task.now.aim conj.columns task.now.vars.now }
    ensures exact { (n : ℕ) → task.now.budget < n + cost → Visits result progress.new.pieces (walk (visiting task.now.strategy task.now.aim task.now.vars.now) n task.now.budget (progress.old.path, conj) cost (seen met progress.old.pieces)) }
    ensures point { IfOk result (λ w. IfFound w (λ p. IsPoint conj p)) }
    ensures grown { IfOk result (λ w. HasGrown cost task.now.budget w) }
    ensures same_path { IfOk result (λ w. IfWalkedEmpty w (λ s r. progress.new.path ≡ progress.old.path)) }
    ensures told { IfOk result (λ w. IfWalkedEmpty w (λ s r. WantsRefutation task.now.aim → IsSome r)) }
    ensures refuted { IfOk result (λ w. IfWalkedEmpty w (λ s r. IfSome r (λ x. IsRefuted conj x))) }
    ensures within { IfOk result (λ w. IfWalkedEmpty w (λ s r. IfSome r (λ x. IsWithin s x))) }
    ensures risen { IfOk result (λ w. IfWalkedEmpty w (λ s r. HaveRisen met s)) }
{
    let rows = conj.rows.as_slice();
    let spent = match charged(task.strategy, task.vars, rows, cost, task.budget) {
        Ok(spent) => spent,
        Err(over) => return Err(Halt::Spent(over)),
    };
    let all = with_rows(conj.rows.as_slice(), met);
    if are_absurd(conj.rows.as_slice()) {
        return Ok(Walked::Empty {
            cost: spent,
            maxima: all,
            refutation: wanted(task.aim, Refutation::Absurd(conj)),
        });
    }
    match next_column(alloc, task.strategy, task.vars, conj.rows.as_slice()) {
        Ok(Some(z)) => by_column(alloc, task, conj, z, spent, all, progress),
        Ok(None) => at_leaf(alloc, task.aim, conj, spent, all, progress),
        Err(want) => Err(Halt::Memory(want)),
    }
}

/// The walk behind the choices for a column, one after the other.
#[cycle(searches)]
fn by_column(
    alloc: Global,
    task: &Walk,
    conj: Conj,
    z: usize,
    cost: u64,
    met: Maxima,
    progress: &mut Progress,
) -> Result<Walked, Halt>
    requires cost { cost ≤ task.now.budget }
    requires made { IsWellMade conj }
    requires settle { SettleFor task.now.strategy task.now.aim conj.columns task.now.vars.now }
    requires possible { are_absurd conj.rows ≡ false }
    requires column { z < conj.columns }
    requires within { Bounds met conj.rows }
    requires legal { AreLegal (alternatives_for task.now.strategy z conj.rows) conj }
    ensures exact { Tried result progress.new.pieces task.now.strategy task.now.aim task.now.vars.now task.now.budget progress.old.path conj (alternatives_for task.now.strategy z conj.rows) cost (seen met progress.old.pieces) }
    ensures point { IfOk result (λ w. IfFound w (λ p. IsPoint conj p)) }
    ensures grown { IfOk result (λ w. HasGrown cost task.now.budget w) }
    ensures same_path { IfOk result (λ w. IfWalkedEmpty w (λ s r. progress.new.path ≡ progress.old.path)) }
    ensures told { IfOk result (λ w. IfWalkedEmpty w (λ s r. WantsRefutation task.now.aim → IsSome r)) }
    ensures refuted { IfOk result (λ w. IfWalkedEmpty w (λ s r. IfSome r (λ x. IsRefuted conj x))) }
    ensures within { IfOk result (λ w. IfWalkedEmpty w (λ s r. IfSome r (λ x. IsWithin s x))) }
    ensures risen { IfOk result (λ w. IfWalkedEmpty w (λ s r. HaveRisen met s)) }
{
    let rows = conj.rows.as_slice();
    let mut choices = Items::new(alloc);
    let mut below = Items::new(alloc);
    let mut cursor = first(task.strategy, z, rows);
    let mut spent = cost;
    let mut all = met;
    'choices: loop {
        match advance(alloc, task.strategy, z, rows, &cursor) {
            Err(want) => return Err(Halt::Memory(want)),
            Ok(Next::End) => break,
            Ok(Next::Wide) => return Err(Halt::Wide),
            Ok(Next::Try(choice, next)) => {
                match by_choice(alloc, task, &conj, &choice, spent, all, progress) {
                    Ok(
                        Walked::Empty {
                            cost,
                            maxima,
                            refutation,
                        },
                    ) => {
                        keep(&mut choices, &mut below, choice, refutation)?;
                        spent = cost;
                        all = maxima;
                        cursor = next;
                    }
                    Ok(Walked::Found(point)) => return Ok(Walked::Found(point)),
                    Err(stop) => return Err(stop),
                }
            }
        }
    }
    Ok(Walked::Empty {
        cost: spent,
        maxima: all,
        refutation: open_refutation(task.aim, conj, choices, below),
    })
}

/// The walk behind one choice.
#[cycle(searches)]
fn by_choice(
    alloc: Global,
    task: &Walk,
    conj: &Conj,
    choice: &Choice,
    cost: u64,
    met: Maxima,
    progress: &mut Progress,
) -> Result<Walked, Halt>
    requires cost { cost ≤ task.now.budget }
    requires made { IsWellMade conj.now }
    requires settle { SettleFor task.now.strategy task.now.aim conj.now.columns task.now.vars.now }
    requires legal { is_legal choice.now conj.now ≡ true }
    ensures exact { Tried result progress.new.pieces task.now.strategy task.now.aim task.now.vars.now task.now.budget progress.old.path conj.now (Some choice.now ∷ []) cost (seen met progress.old.pieces) }
    ensures point { IfOk result (λ w. IfFound w (λ p. IsPoint conj.now p)) }
    ensures grown { IfOk result (λ w. HasGrown cost task.now.budget w) }
    ensures same_path { IfOk result (λ w. IfWalkedEmpty w (λ s r. progress.new.path ≡ progress.old.path)) }
    ensures told { IfOk result (λ w. IfWalkedEmpty w (λ s r. WantsRefutation task.now.aim → IsSome r)) }
    ensures refuted { IfOk result (λ w. IfWalkedEmpty w (λ s r. IfSome r (λ x. IsRefutedBehind choice.now conj.now x))) }
    ensures within { IfOk result (λ w. IfWalkedEmpty w (λ s r. IfSome r (λ x. IsWithin s x))) }
    ensures moduli { IfOk result (λ w. IfWalkedEmpty w (λ s r. AreModuliWithin s.factor (choice.now ∷ []))) }
    ensures risen { IfOk result (λ w. IfWalkedEmpty w (λ s r. HaveRisen met s)) }
{
    let rest = match left_by(alloc, conj, choice) {
        Ok(rest) => rest,
        Err(stop) => return Err(stop),
    };
    progress.path.push(*choice)?;
    match search(alloc, task, rest, cost, with_choice(choice, met), progress) {
        Ok(
            Walked::Empty {
                cost,
                maxima,
                refutation,
            },
        ) => {
            let _last = progress.path.pop();
            Ok(Walked::Empty {
                cost,
                maxima,
                refutation,
            })
        }
        Ok(Walked::Found(point)) => lifted(alloc, conj, choice, &point),
        Err(stop) => Err(stop),
    }
}
