use ac_base::Items;
use ac_forms::Conj;
use ac_match::Refuted;
use ac_syntax::tree::Position;
use ac_widen::Entry;

/// Why an output is neither shown equal nor different.
#[derive(Drop)]
pub enum Cause {
    /// Each order of commutative arguments extends a refuted one: the refuted partial orders, each with what derives a mismatch.
    Unmatched(Items<Refuted>),
    /// A number of this question's elimination leaves `i128` or is too large for a certificate, or a row that comes next at it is not formed.
    OverflowQuestion(Conj),
    /// A number leaves `i128` as the last of these members is taken beside the others.
    OverflowHull(Items<Items<i128>>),
    /// The running cost of a question exceeds the budget.
    SpentQuestion {
        /// The question.
        question: Conj,
        /// The first running cost above the budget.
        cost: u64,
    },
    /// More than 4,096 pieces of one read or output.
    SpentPieces {
        /// The read or output.
        position: Position,
        /// The pieces, each of which has a point.
        kept: Items<Conj>,
    },
    /// 20,001 paths from one start to ends: each as entries from that start on.
    SpentPaths(Items<Items<Entry>>),
    /// So many partial orders are refuted that no further one is tried, though some order extends none of them.
    SpentOrders(Items<Refuted>),
}

/// What is said of an output.
#[derive(Drop)]
pub enum Verdict {
    /// It is the same.
    Equal,
    /// At this valuation the terms of this element do not agree, and no element before it differs.
    Different {
        /// The valuation of the parameters.
        at: Items<i64>,
        /// The element.
        element: Items<i64>,
    },
    /// Neither is shown.
    Unknown(Cause),
}
