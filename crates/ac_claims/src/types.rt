ghost use Rattle.std.specs.Prelude.{◌<◌, ◌+◌, ◌*◌, IfSome};
ghost use Rattle.ac_claims.specs.PlanNodes.{left_over, node_count, waiting, waiting_of};

use ac_base::Items;
use ac_cert::Rule;
use ac_cert::types::Step;
use ac_forms::{Form, Row};
use ac_omega_steps::Choice;
use ac_syntax::tree::{Order, Position};
use std::alloc::AllocError;
use std::mem;

/// A statement that two positions have equal values wherever some rows hold, over the parameters, the coordinates of the
/// left position and those of the right one.
#[derive(Drop)]
pub struct Claim {
    /// A position of the left program.
    pub left: Position,
    /// A position of the right program.
    pub right: Position,
    /// The rows.
    pub rows: Items<Row>,
}

/// A copy that stands between a read and the source that is assumed for it, so that there is no such place.
#[derive(Drop)]
pub struct Kill {
    /// The assignment of the copy.
    pub stmt: usize,
    /// Its piece.
    pub piece: usize,
    /// The level by which it stands after the assumed source; none where the initial contents are assumed.
    pub after: Option<usize>,
    /// The level by which it stands before the read.
    pub before: usize,
    /// The choices that remove the columns of the copy.
    pub choices: Items<Choice>,
}

/// Steps, and what comes behind them.
#[derive(Drop)]
#[cycle(plan)]
pub struct Plan {
    /// The steps, one after the other.
    pub steps: Items<Step>,
    /// What comes behind them.
    pub next: PlanNext,
}

/// A branch or an end of a plan.
#[cycle(plan)]
pub enum PlanNext {
    /// The form is at least 0 in the first child, and at most -1 in the second.
    Split(Form, Box<Plan>, Box<Plan>),
    /// Child r, from 0 on: the number divides the form less r.
    Residue(i128, Form, Vec<Plan>),
    /// A step of the pair, with a plan for each case.
    Go { order: Order, cases: Vec<Plan> },
    /// A row that no point meets.
    Absurd(usize),
    /// A place that a copy kills.
    Killed(Kill),
    /// A claim.
    Hit(usize),
    /// Two equal numbers.
    SameNumber,
    /// One initial cell of an input.
    SameInitial,
}

/// Goes behind the first of these plans: gives what comes behind it, and the others in front of the rest. Without a plan, takes
/// the next one from the rest.
fn enter(plans: Vec<Plan>, rest: PlanNext) -> Option<(PlanNext, PlanNext)>
    ensures { IfSome result (λ next. left_over next.0 next.1 < 2 * (1 + node_count plans.items) + waiting rest) }
{
    let mut cases = plans;
    if cases.is_empty() {
        cases.destroy_empty();
        return rest.take_next();
    }
    let next = mem::replace(&mut cases[0].next, rest);
    let order = Order::Keep;
    Some((next, PlanNext::Go { order, cases }))
}

/// Takes the last of the plans that wait in front of a rest, which stands in the place of the first.
fn take_last(plans: Vec<Plan>) -> Option<(PlanNext, PlanNext)>
    ensures { IfSome result (λ next. left_over next.0 next.1 < 2 + waiting_of plans.items) }
{
    let mut cases = plans;
    let Some(plan) = cases.pop() else {
        cases.destroy_empty();
        return None;
    };
    let Plan { steps, next } = plan;
    drop(steps);
    if cases.is_empty() {
        cases.destroy_empty();
        return Some((PlanNext::SameNumber, next));
    }
    let order = Order::Keep;
    Some((next, PlanNext::Go { order, cases }))
}

impl PlanNext {
    /// Takes the next plan from a rest: gives what comes behind it, and the rest without it.
    fn take_next(self) -> Option<(PlanNext, PlanNext)>
        ensures { IfSome result (λ next. left_over next.0 next.1 < 2 + waiting self) }
    {
        match self {
            PlanNext::Split(_, first, second) => {
                let Plan { steps, next } = Box::into_inner(first);
                drop(steps);
                let Plan { steps, next: rest } = Box::into_inner(second);
                drop(steps);
                Some((next, rest))
            }
            PlanNext::Residue(_, _, children) => take_last(children),
            PlanNext::Go { order: _, cases } => take_last(cases),
            PlanNext::Absurd(_)
            | PlanNext::Killed(_)
            | PlanNext::Hit(_)
            | PlanNext::SameNumber
            | PlanNext::SameInitial => None,
        }
    }

    /// Leaves a branch for one of its plans: gives what comes behind that, and the others in front of the rest, which stands in its
    /// place. Lets go of an end, and takes the next plan from the rest.
    fn leave(self, rest: PlanNext) -> Option<(PlanNext, PlanNext)>
        ensures { IfSome result (λ next. left_over next.0 next.1 < left_over self rest) }
    {
        match self {
            PlanNext::Split(form, first, second) => {
                let mut second = second;
                let next = mem::replace(&mut second.next, rest);
                Some((next, PlanNext::Split(form, first, second)))
            }
            PlanNext::Residue(_, _, children) => enter(children, rest),
            PlanNext::Go { order: _, cases } => enter(cases, rest),
            PlanNext::Absurd(_)
            | PlanNext::Killed(_)
            | PlanNext::Hit(_)
            | PlanNext::SameNumber
            | PlanNext::SameInitial => rest.take_next(),
        }
    }
}

/// A plan may be too deep for a recursion, and there may be no memory for a list of what is left. So the plans that wait stay in
/// their branches, where the rest stands in the place of the plan that is gone into.
impl Drop for PlanNext {
    fn drop(self) {
        let mut at = self;
        let mut rest = PlanNext::SameNumber;
        while let Some((next, left)) = at.leave(rest) {
            at = next;
            rest = left;
        }
    }
}

/// A plan for a claim and a piece of each of its positions.
#[derive(Drop)]
pub struct ClaimTree {
    /// The claim.
    pub claim: usize,
    /// The piece of its left position.
    pub left_piece: usize,
    /// The piece of its right position.
    pub right_piece: usize,
    /// The plan.
    pub tree: Plan,
}

/// For which shapes of programs a proof was made: for each assignment of the left and of the right program its number of
/// counters and of quotients.
#[derive(Drop)]
pub struct Heads {
    /// Those of the left program.
    pub left: Items<(u64, u64)>,
    /// Those of the right program.
    pub right: Items<(u64, u64)>,
}

/// A proof that outputs are the same.
#[derive(Drop)]
pub struct Proof {
    /// A valuation of the context.
    pub point: Items<i128>,
    /// The shapes of the programs, where the proof states them.
    pub heads: Option<Heads>,
    /// The claims.
    pub claims: Items<Claim>,
    /// The outputs that are the same, each with the claim that says so.
    pub outputs: Items<(usize, usize)>,
    /// A plan for each claim and each pair of pieces.
    pub trees: Vec<ClaimTree>,
}

/// Why a proof was not accepted.
#[derive(Drop)]
pub enum ProofFault {
    /// The first line that fails, and its rule.
    Refused { line: u64, rule: Rule },
    /// There was no memory.
    Memory(AllocError),
}

impl From<AllocError> for ProofFault {
    ghost use Rattle.std.specs.Prelude.{◌≡◌};
    ghost use Rattle.ac_claims.specs.declared.types.ProofFault.TheVariants.{Memory};

    ghost from_gives = { λ want e. e ≡ Memory want };

    fn from(want: AllocError) -> ProofFault {
        ProofFault::Memory(want)
    }
}
