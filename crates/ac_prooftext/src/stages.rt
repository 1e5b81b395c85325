/// What comes next in the text of a proof.
#[derive(Clone, Copy, PartialEq, Eq, Drop)]
pub enum Stage {
    /// The point, and the shapes of the programs behind it where the text has them.
    Point(bool),
    /// The shapes of the left program.
    Left,
    /// Those of the right program.
    Right,
    /// The number of claims.
    Claims,
    /// So many claims.
    Claim(usize),
    /// So many claims behind this one, and so many of its rows.
    Row(usize, usize),
    /// An output of a later array than this one, a plan or the end.
    Output(Option<usize>),
    /// A plan or the end.
    Tree,
    /// A line of the plan under way.
    Plan,
    /// So many choices of a copy.
    Choice(usize),
    /// Nothing.
    Done,
}
