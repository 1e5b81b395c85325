use ac_base::Items;
use ac_cert::types::Step;
use ac_forms::{Form, Row};
use ac_omega_steps::Choice;
use ac_syntax::tree::{Order, Position};

/// An item of a proof: a line of its text after the first one.
#[derive(Drop)]
pub enum Item {
    /// A valuation of the parameters.
    Point(Items<i128>),
    /// For each assignment of the left program its number of counters and of quotients.
    Left(Items<(u64, u64)>),
    /// The same for the right program.
    Right(Items<(u64, u64)>),
    /// So many claims follow.
    Claims(usize),
    /// A claim, of which so many rows follow.
    Claim {
        left: Position,
        right: Position,
        rows: usize,
    },
    /// A row of the claim before it.
    Row(Row),
    /// An output with the claim that says that it is the same.
    Output {
        array: usize,
        claim: usize,
    },
    /// The plan for a claim and a piece of each of its positions follows.
    Tree {
        claim: usize,
        left_piece: usize,
        right_piece: usize,
    },
    /// A step.
    Step(Step),
    /// A branch: the form is at least 0, or at most -1.
    Split(Form),
    /// A branch: the form less r is a multiple of the number, for each r below it.
    Residue(i128, Form),
    /// A step of the pair of positions, with so many cases.
    Go {
        order: Order,
        cases: usize,
    },
    /// An end at a row that no point meets.
    Absurd(usize),
    /// An end at a claim.
    Hit(usize),
    /// An end at two equal numbers.
    Number,
    /// An end at one initial cell of an input.
    Initial,
    /// An end at a place that a copy kills, of which so many choices follow.
    Killed {
        stmt: usize,
        piece: usize,
        after: Option<usize>,
        before: usize,
        choices: usize,
    },
    /// A choice of the copy before it.
    Choice(Choice),
    /// The end of the proof.
    End,
}
