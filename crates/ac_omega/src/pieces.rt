ghost use Rattle.std.specs.Prelude.{◌≡◌, ◌≤◌, ◌*◌, ◌^◌, ℕ, ℤ, List, length, IfOk, IfErr, ◌↔◌};
ghost use Rattle.ac_forms.specs.Rows.{IsWellMade};
ghost use Rattle.ac_omega.specs.EliminationAnswers.{Eliminates, HandsBack};
ghost use Rattle.ac_omega.specs.DifferenceRows.{AreDifferences, AreAllDifferences, StopsBelow};
ghost use Rattle.ac_omega.specs.ColumnElimination.{pieces_of};
ghost use Rattle.ac_omega.specs.Projection.{HoldsFor, AllEmpty, MeetsRest};
ghost use Rattle.ac_forms.specs.PieceMembership.{IsInSome};
ghost use Rattle.ac_omega.specs.Replays.{AreReached, HaveAllFrom, AreOver};
ghost use Rattle.ac_omega_certify.specs.declared.strategy.Strategy.TheVariants.{Full};

use crate::extent::Maxima;
use crate::halt::Halt;
use crate::piece::Piece;
use crate::search::{Aim, Progress, Walk, search};
use ac_base::Items;
use ac_forms::{Conj, FormStop};
use ac_omega_certify::Strategy;
use std::alloc::{AllocError, Global};

/// Why a question has no answer. The question is handed back as a copy.
#[derive(Drop)]
pub enum Stop {
    /// A number leaves `i128`.
    Overflow(Conj),
    /// The running cost exceeds the budget.
    Spent {
        /// The question.
        question: Conj,
        /// The first running cost above the budget.
        cost: u64,
    },
    /// There was no memory.
    Memory(AllocError),
}

impl From<AllocError> for Stop {
    ghost use Rattle.std.specs.Prelude.{◌≡◌};
    ghost use Rattle.ac_omega.specs.declared.pieces.Stop.TheVariants.{Memory};

    ghost from_gives = { λ want e. e ≡ Memory want };

    fn from(want: AllocError) -> Stop {
        Stop::Memory(want)
    }
}

/// Eliminates columns (W. Pugh, The Omega test, 1991): the conjunctions in normal form that are left, in the order of a depth
/// first walk over the choices, each with the choices that led to it. Integers for the columns exist at which the question
/// holds exactly where one of the pieces holds.
///
/// The walk begins at the question's normal form, and each conjunction that it reaches is a normal form. It costs the
/// number of rows of each conjunction that it reaches. `Overflow` exactly where a number leaves `i128` first, also with a
/// budget of 0 for the question's own normal form; `Spent` exactly where the running cost exceeds the budget first, with
/// that cost.
///
/// A piece's choices are legal and name only the columns; taken one after the other from the question's normal form on, they
/// leave the piece's rows, which have none of the columns. Where the columns are all those from some column on, the pieces
/// are over the columns before it.
///
/// A question of differences over n columns, at most 60, with numbers of at most 2^48 by absolute value, is always answered
/// within a budget of 2 (n + 1)^3; with numbers of at most b, the pieces are rows of differences with numbers of at most
/// 2^c b, where c is the number of the columns.
pub fn eliminate(
    alloc: Global,
    conj: &Conj,
    vars: &[usize],
    budget: u64,
) -> Result<Items<Piece>, Stop>
    requires { IsWellMade conj.now }
    ensures exact { Eliminates result conj.now (pieces_of Full vars.now budget conj.now) }
    ensures gone { IfOk result (λ pieces. AllEmpty vars.now pieces) }
    ensures projection { IfOk result (λ pieces. (p : List ℤ) → length p ≡ conj.now.columns → HoldsFor vars.now conj.now.rows p ↔ IsInSome MeetsRest pieces p) }
    ensures reached { IfOk result (λ pieces. AreReached vars.now conj.now pieces) }
    ensures over { (n : ℕ) → HaveAllFrom n conj.now.columns vars.now → IfOk result (λ pieces. AreOver n pieces) }
    ensures differences { conj.now.columns ≤ 60 → AreDifferences (2 ^ 48) conj.now.rows → IfErr result (StopsBelow conj.now.columns budget) }
    ensures difference_pieces { (b : ℕ) → conj.now.columns ≤ 60 → 1 ≤ b → b ≤ 2 ^ 48 → AreDifferences b conj.now.rows → IfOk result (λ pieces. AreAllDifferences (2 ^ length vars.now * b) pieces) }
{
    eliminate_by(alloc, Strategy::Full, conj, vars, budget)
}

/// The same as `eliminate`, by the walk of a strategy.
///
/// The economical walk tries splinters only for pairs of a lower and an upper row whose dark shadow may lose a point, and where no
/// column has a coefficient 1 or -1 in each of its pairs it takes one with the fewest splinters. There `Overflow` exactly also
/// where a number of a pair's shadow or of its normal form leaves `i128`. Its cost counts also each pair of a lower and an upper
/// row that it forms for the next column, once and before it is formed.
pub fn eliminate_by(
    alloc: Global,
    strategy: Strategy,
    conj: &Conj,
    vars: &[usize],
    budget: u64,
) -> Result<Items<Piece>, Stop>
    requires { IsWellMade conj.now }
    ensures exact { Eliminates result conj.now (pieces_of strategy vars.now budget conj.now) }
    ensures gone { IfOk result (λ pieces. AllEmpty vars.now pieces) }
    ensures projection { IfOk result (λ pieces. (p : List ℤ) → length p ≡ conj.now.columns → HoldsFor vars.now conj.now.rows p ↔ IsInSome MeetsRest pieces p) }
    ensures reached { IfOk result (λ pieces. AreReached vars.now conj.now pieces) }
    ensures over { (n : ℕ) → HaveAllFrom n conj.now.columns vars.now → IfOk result (λ pieces. AreOver n pieces) }
    ensures differences { conj.now.columns ≤ 60 → AreDifferences (2 ^ 48) conj.now.rows → IfErr result (StopsBelow conj.now.columns budget) }
    ensures difference_pieces { (b : ℕ) → conj.now.columns ≤ 60 → 1 ≤ b → b ≤ 2 ^ 48 → AreDifferences b conj.now.rows → IfOk result (λ pieces. AreAllDifferences (2 ^ length vars.now * b) pieces) }
{
    eliminated(alloc, strategy, conj, vars, budget)
}

/// The pieces of a question.
fn eliminated(
    alloc: Global,
    strategy: Strategy,
    conj: &Conj,
    vars: &[usize],
    budget: u64,
) -> Result<Items<Piece>, Stop>
    requires { IsWellMade conj.now }
    ensures exact { Eliminates result conj.now (pieces_of strategy vars.now budget conj.now) }
    ensures gone { IfOk result (λ pieces. AllEmpty vars.now pieces) }
    ensures projection { IfOk result (λ pieces. (p : List ℤ) → length p ≡ conj.now.columns → HoldsFor vars.now conj.now.rows p ↔ IsInSome MeetsRest pieces p) }
{
    let rest = match conj.normalise(alloc) {
        Ok(rest) => rest,
        Err(FormStop::Wide) => return Err(handed_back(alloc, Halt::Wide, conj)),
        Err(FormStop::Memory(want)) => return Err(Stop::Memory(want)),
    };
    let none = Maxima {
        factor: 0,
        number: 0,
    };
    let task = Walk {
        strategy,
        aim: Aim::ForPieces,
        vars,
        budget,
    };
    let path = Items::new(alloc);
    let pieces = Items::new(alloc);
    let mut progress = Progress { path, pieces };
    match search(alloc, &task, rest, 0, none, &mut progress) {
        Ok(_) => {
            let Progress { pieces, .. } = progress;
            Ok(pieces)
        }
        Err(halt) => Err(handed_back(alloc, halt, conj)),
    }
}

/// Why a question has no answer, with a copy of the question.
pub(crate) fn handed_back(alloc: Global, halt: Halt, conj: &Conj) -> Stop
    ensures { HandsBack result halt conj.now }
{
    let question = match conj.copy(alloc) {
        Ok(question) => question,
        Err(want) => return Stop::Memory(want),
    };
    match halt {
        Halt::Wide => Stop::Overflow(question),
        Halt::Spent(cost) => Stop::Spent { question, cost },
        Halt::Memory(want) => Stop::Memory(want),
    }
}
