ghost use Rattle.std.specs.Prelude.{◌≡◌, ◌+◌, ◌*◌, ◌^◌, ◌<◌, ◌≤◌, ℤ, List, [], IfOk, IfErr, IfSome, IsSome, MatchResult};
ghost use Rattle.ac_omega.specs.DifferenceRows.{AreDifferences, StopsBelow};
ghost use Rattle.ac_forms.specs.Rows.{IsWellMade, CanTest};
ghost use Rattle.ac_cert.specs.AcceptedTrees.{Accepts, absurd_refusals};
ghost use Rattle.ac_omega_steps.specs.IntegerPoints.{IsPoint};
ghost use Rattle.ac_omega.specs.ColumnElimination.{eliminating};
ghost use Rattle.ac_omega.specs.WalkAnswers.{Searches, IfFound, IfWalkedEmpty, IsRefuted, IsNormal, WantsPoint, WantsRefutation, columns_to};
ghost use Rattle.ac_omega.specs.WalkStops.{OnlyWide};
ghost use Rattle.ac_omega.specs.Decisions.{Decides, Finds, Settles, IfEmpty, IfPoint, IfCertified, IfMet, walk_of};
ghost use Rattle.ac_omega.specs.Walk.{walk};
ghost use Rattle.ac_omega.specs.Within.{Bounds, HaveRisen, IsWithin};
ghost use Rattle.ac_omega_certify.specs.Refutations.{IsRefutationOf};
ghost use Rattle.ac_omega_certify.specs.declared.strategy.Strategy.TheVariants.{Full};

use crate::extent::{Maxima, are_large, with_rows};
use crate::halt::Halt;
use crate::pieces::{Stop, handed_back};
use crate::search::{Aim, Progress, Walk, Walked, search};
use ac_base::Items;
use ac_cert::{Absurd, Tree};
use ac_forms::{Conj, FormStop};
use ac_omega_certify::{Refutation, Strategy, certify};
use std::alloc::{AllocError, Global};

/// What a question comes to.
#[derive(Drop)]
pub enum Decided {
    /// It has no point; the greatest numbers that its walk meets.
    Empty(Maxima),
    /// A point.
    Point(Vec<i128>),
}

/// What a question comes to, with a certificate where it has no point.
#[derive(Drop)]
pub enum Decision {
    /// It has no point: `check_tree` accepts the tree.
    Empty(Tree<Absurd>),
    /// A point.
    Point(Vec<i128>),
}

/// All columns below that many, in order.
fn all_columns(alloc: Global, columns: usize) -> Result<Vec<usize>, AllocError>
    ensures { IfOk result (λ vars. vars.items ≡ columns_to columns) }
{
    let mut vars = Vec::new(alloc);
    for z in 0..columns {
        vars.push(z)?;
    }
    Ok(vars)
}

/// The search from a conjunction in normal form on, over all its columns.
fn search_all(
    alloc: Global,
    strategy: Strategy,
    aim: Aim,
    conj: Conj,
    budget: u64,
    met: Maxima,
) -> Result<Walked, Halt>
    requires aim { WantsPoint aim }
    requires made { IsWellMade conj }
    requires normal { IsNormal conj }
    ensures exact { Searches result (walk (eliminating strategy (columns_to conj.columns)) (budget + 1) budget conj 0 met) }
    ensures point { IfOk result (λ w. IfFound w (λ p. IsPoint conj p)) }
    ensures told { IfOk result (λ w. IfWalkedEmpty w (λ s r. WantsRefutation aim → IsSome r)) }
    ensures refuted { IfOk result (λ w. IfWalkedEmpty w (λ s r. IfSome r (λ x. IsRefuted conj x))) }
    ensures within { IfOk result (λ w. IfWalkedEmpty w (λ s r. IfSome r (λ x. IsWithin s x))) }
    ensures risen { IfOk result (λ w. IfWalkedEmpty w (λ s r. HaveRisen met s)) }
{
    let columns = all_columns(alloc, conj.columns)?;
    let vars = columns.as_slice();
    let task = Walk {
        strategy,
        aim,
        vars,
        budget,
    };
    let path = Items::new(alloc);
    let pieces = Items::new(alloc);
    let mut progress = Progress { path, pieces };
    search(alloc, &task, conj, 0, met, &mut progress)
}

/// Whether the rows of a question, in order, can be evaluated in `i128` at one of its points; `Wide` exactly where not.
fn test(conj: &Conj, point: &[i128]) -> Result<(), Halt>
    requires made { IsWellMade conj.now }
    requires point { IsPoint conj.now point.now }
    ensures { MatchResult result (λ _. CanTest conj.now.rows point.now) (λ halt. (halt ≡ Halt.Wide) × ¬ CanTest conj.now.rows point.now) }
{
    match conj.holds_at(point) {
        Ok(true) => Ok(()),
        Ok(false) => unreachable!(),
        Err(_) => Err(Halt::Wide),
    }
}

/// The walk of a question, where its rows can be evaluated in `i128` at the point that it finds.
///
/// `Wide` exactly where a number leaves `i128` first, also with a budget of 0 for the question's own normal form; `Spent`
/// exactly where the running cost exceeds the budget first, with that cost.
fn walked(
    alloc: Global,
    strategy: Strategy,
    aim: Aim,
    conj: &Conj,
    budget: u64,
) -> Result<Walked, Halt>
    requires aim { WantsPoint aim }
    requires made { IsWellMade conj.now }
    ensures exact { Decides result conj.now (walk_of strategy budget conj.now) }
    ensures point { IfOk result (λ w. IfFound w (λ p. IsPoint conj.now p)) }
    ensures told { IfOk result (λ w. IfWalkedEmpty w (λ s r. WantsRefutation aim → IsSome r)) }
    ensures refuted { IfOk result (λ w. IfWalkedEmpty w (λ s r. IfSome r (λ x. IsRefutationOf conj.now x))) }
    ensures within { IfOk result (λ w. IfWalkedEmpty w (λ s r. IfSome r (λ x. IsWithin s x))) }
    ensures bound { IfOk result (λ w. IfWalkedEmpty w (λ s r. Bounds s conj.now.rows)) }
{
    let normal = match conj.normalise(alloc) {
        Ok(normal) => normal,
        Err(FormStop::Wide) => return Err(Halt::Wide),
        Err(FormStop::Memory(want)) => return Err(Halt::Memory(want)),
    };
    let none = Maxima {
        factor: 0,
        number: 0,
    };
    let met = with_rows(conj.rows.as_slice(), none);
    match search_all(alloc, strategy, aim, normal, budget, met) {
        Ok(
            Walked::Empty {
                cost,
                maxima,
                refutation,
            },
        ) => Ok(Walked::Empty {
            cost,
            maxima,
            refutation,
        }),
        Ok(Walked::Found(point)) => match test(conj, &point) {
            Ok(()) => Ok(Walked::Found(point)),
            Err(stop) => Err(stop),
        },
        Err(stop) => Err(stop),
    }
}

/// Whether a question has an integer point (W. Pugh, The Omega test, 1991): a number for each column at which all its rows
/// hold, or that there is none, with the greatest numbers that the walk meets.
///
/// The walk is depth first over the choices for all columns, from the question's normal form on, and ends at the first
/// conjunction without rows; its point is 0 everywhere, and goes back along the choices. It costs the number of rows of each
/// conjunction that it reaches. `Overflow` exactly where a number leaves `i128` first, also with a budget of 0 for the
/// question's own normal form, or where the question's rows, in order, cannot be evaluated in `i128` at the point; `Spent`
/// exactly where the running cost exceeds the budget first, with that cost.
///
/// A question of differences over n columns, at most 60, with numbers of at most 2^48 by absolute value, is always answered
/// within a budget of 2 (n + 1)^3.
pub fn find_point(alloc: Global, conj: &Conj, budget: u64) -> Result<Decided, Stop>
    requires { IsWellMade conj.now }
    ensures exact { Finds result conj.now (walk_of Full budget conj.now) }
    ensures point { IfOk result (λ d. IfPoint d (λ p. IsPoint conj.now p)) }
    ensures empty { IfOk result (λ d. IfEmpty d ((p : List ℤ) → IsPoint conj.now p → ⊥)) }
    ensures differences { conj.now.columns ≤ 60 → AreDifferences (2 ^ 48) conj.now.rows → IfErr result (StopsBelow conj.now.columns budget) }
{
    find_point_by(alloc, Strategy::Full, conj, budget)
}

/// The same as `find_point`, by the walk of a strategy.
///
/// The economical walk tries splinters only for pairs of a lower and an upper row whose dark shadow may lose a point, and where no
/// column has a coefficient 1 or -1 in each of its pairs it takes one with the fewest splinters. There `Overflow` exactly also
/// where a number of a pair's shadow or of its normal form leaves `i128`. Its cost counts also each pair of a lower and an upper
/// row that it forms for the next column, once and before it is formed.
pub fn find_point_by(
    alloc: Global,
    strategy: Strategy,
    conj: &Conj,
    budget: u64,
) -> Result<Decided, Stop>
    requires { IsWellMade conj.now }
    ensures exact { Finds result conj.now (walk_of strategy budget conj.now) }
    ensures point { IfOk result (λ d. IfPoint d (λ p. IsPoint conj.now p)) }
    ensures empty { IfOk result (λ d. IfEmpty d ((p : List ℤ) → IsPoint conj.now p → ⊥)) }
    ensures differences { conj.now.columns ≤ 60 → AreDifferences (2 ^ 48) conj.now.rows → IfErr result (StopsBelow conj.now.columns budget) }
{
    match walked(alloc, strategy, Aim::ForPoint, conj, budget) {
        Ok(Walked::Empty { maxima, .. }) => Ok(Decided::Empty(maxima)),
        Ok(Walked::Found(point)) => Ok(Decided::Point(point)),
        Err(halt) => Err(handed_back(alloc, halt, conj)),
    }
}

/// Whether a question has an integer point (W. Pugh, The Omega test, 1991): a number for each column at which all its rows
/// hold, or a certificate that there is none, which `check_tree` accepts.
///
/// The walk, its point, its cost and its stops are those of `find_point`. `Overflow` also exactly where the walk finds no
/// point and its greatest numbers are too large for a certificate: where the greatest coefficient, modulus of a row or
/// modulus of a residue times the greatest coefficient, modulus of a row or constant exceeds 2^120, by absolute values, over
/// the question and all that the walk meets.
///
/// A question of differences over n columns, at most 60, with numbers of at most 2^48 by absolute value, is always decided
/// within a budget of 2 (n + 1)^3.
pub fn decide(alloc: Global, conj: &Conj, budget: u64) -> Result<Decision, Stop>
    requires { IsWellMade conj.now }
    ensures exact { Settles result conj.now (walk_of Full budget conj.now) }
    ensures point { IfOk result (λ d. IfMet d (λ p. IsPoint conj.now p)) }
    ensures accepted { IfOk result (λ d. IfCertified d (λ tree. Accepts tree absurd_refusals conj.now)) }
    ensures empty { IfOk result (λ d. IfCertified d (λ tree. (p : List ℤ) → IsPoint conj.now p → ⊥)) }
    ensures differences { conj.now.columns ≤ 60 → AreDifferences (2 ^ 48) conj.now.rows → IfErr result (StopsBelow conj.now.columns budget) }
{
    decide_by(alloc, Strategy::Full, conj, budget)
}

/// The same as `decide`, by the walk of a strategy, which is that of `find_point_by`.
pub fn decide_by(
    alloc: Global,
    strategy: Strategy,
    conj: &Conj,
    budget: u64,
) -> Result<Decision, Stop>
    requires { IsWellMade conj.now }
    ensures exact { Settles result conj.now (walk_of strategy budget conj.now) }
    ensures point { IfOk result (λ d. IfMet d (λ p. IsPoint conj.now p)) }
    ensures accepted { IfOk result (λ d. IfCertified d (λ tree. Accepts tree absurd_refusals conj.now)) }
    ensures empty { IfOk result (λ d. IfCertified d (λ tree. (p : List ℤ) → IsPoint conj.now p → ⊥)) }
    ensures differences { conj.now.columns ≤ 60 → AreDifferences (2 ^ 48) conj.now.rows → IfErr result (StopsBelow conj.now.columns budget) }
{
    settled(alloc, strategy, conj, budget)
}

/// The same as `decide_by`, of any question.
fn settled(alloc: Global, strategy: Strategy, conj: &Conj, budget: u64) -> Result<Decision, Stop>
    requires { IsWellMade conj.now }
    ensures exact { Settles result conj.now (walk_of strategy budget conj.now) }
    ensures point { IfOk result (λ d. IfMet d (λ p. IsPoint conj.now p)) }
    ensures accepted { IfOk result (λ d. IfCertified d (λ tree. Accepts tree absurd_refusals conj.now)) }
    ensures empty { IfOk result (λ d. IfCertified d (λ tree. (p : List ℤ) → IsPoint conj.now p → ⊥)) }
{
    match walked(alloc, strategy, Aim::ForRefutation, conj, budget) {
        Ok(
            Walked::Empty {
                maxima,
                refutation,
                ..
            },
        ) => match refutation {
            None => unreachable!(),
            Some(refutation) => match certificate(alloc, conj, &maxima, &refutation) {
                Ok(tree) => Ok(Decision::Empty(tree)),
                Err(halt) => Err(handed_back(alloc, halt, conj)),
            },
        },
        Ok(Walked::Found(point)) => Ok(Decision::Point(point)),
        Err(halt) => Err(handed_back(alloc, halt, conj)),
    }
}

/// The certificate from a question's refutation and maxima that bound its numbers; `Wide` exactly where they are too large.
fn certificate(
    alloc: Global,
    conj: &Conj,
    all: &Maxima,
    refutation: &Refutation,
) -> Result<Tree<Absurd>, Halt>
    requires made { IsWellMade conj.now }
    requires refuted { IsRefutationOf conj.now refutation.now }
    requires within { IsWithin all.now refutation.now }
    requires bound { Bounds all.now conj.now.rows }
    ensures exact { MatchResult result (λ _. all.now.factor * all.now.number ≤ 2 ^ 120) (λ stop. OnlyWide stop (2 ^ 120 < all.now.factor * all.now.number)) }
    ensures accepted { IfOk result (λ tree. Accepts tree absurd_refusals conj.now) }
{
    if are_large(all) {
        return Err(Halt::Wide);
    }
    match certify(alloc, conj, refutation) {
        Ok(tree) => Ok(tree),
        Err(want) => Err(Halt::Memory(want)),
    }
}
