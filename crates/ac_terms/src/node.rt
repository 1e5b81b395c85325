/// Whose initial contents a leaf is: those of an input array, which both programs share, or those of a local array of
/// the left or of the right program, which are its own. The number is the array's.
#[derive(Clone, Copy, PartialEq, Eq, Hash)]
pub enum Leaf {
    Input(usize),
    LeftLocal(usize),
    RightLocal(usize),
}

/// The place of a term in the table that gave it. Terms of one table agree exactly where their ids are equal.
#[derive(Clone, Copy, PartialEq, Eq, Hash)]
pub struct TermId {
    pub(crate) index: u32,
}

/// What a place of a table holds.
#[derive(PartialEq, Eq, Hash, Drop)]
pub enum Node {
    Number(i128),
    Initial {
        leaf: Leaf,
        at: Vec<i64>,
    },
    Call {
        name: Vec<u8>,
        arity: u8,
        args: Vec<TermId>,
    },
}
