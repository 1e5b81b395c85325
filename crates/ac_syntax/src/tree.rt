use crate::name::Name;
use ac_base::Items;

/// A place in a source text: the number of the byte, from 0.
#[derive(Clone, Copy, Debug, PartialEq, Eq)]
pub struct Place {
    pub at: u32,
}

/// A quotient in an index expression: an affine form over `div`, rounded down, times `coef`. The form has a constant, a
/// coefficient for each parameter, and one for each loop around it, the outermost first. `place` is the quotient's first byte.
#[derive(Drop, PartialEq, Eq)]
pub struct Quot {
    pub coef: i64,
    pub konst: i64,
    pub params: Items<i64>,
    pub iters: Items<i64>,
    pub div: i64,
    pub place: Place,
}

/// An affine expression of index values: a constant, a coefficient for each parameter in the order of the parameter
/// list, one for each loop around it, the outermost first, and quotients. `place` is its first byte.
#[derive(Drop, PartialEq, Eq)]
pub struct IndexExpr {
    pub konst: i64,
    pub params: Items<i64>,
    pub iters: Items<i64>,
    pub quots: Items<Quot>,
    pub place: Place,
}

/// What a comparison says of the value of its form: at least 0, equal to 0, or a multiple of a divisor.
#[derive(Clone, Copy, PartialEq, Eq)]
pub enum Rel {
    NonNegative,
    Zero,
    Divides(i64),
}

/// One comparison, collected as a form that is compared with 0.
#[derive(Drop, PartialEq, Eq)]
pub struct Comparison {
    pub form: IndexExpr,
    pub rel: Rel,
}

/// A condition: the conjunction of its comparisons, in the order of the text.
#[derive(Drop, PartialEq, Eq)]
pub struct Cond {
    pub parts: Items<Comparison>,
}

/// What a call applies: a name and how many arguments it takes. Operators are symbols, and so are decimal constants,
/// without arguments and named by their spelling.
#[derive(Drop, PartialEq, Eq, Hash)]
pub struct Symbol {
    pub name: Name,
    pub arity: u8,
}

/// The right side of an assignment. Its nodes are numbered in preorder, the root 0; subscripts are no nodes.
#[derive(Drop, PartialEq, Eq)]
pub enum Value {
    /// The value of an index expression.
    Number(IndexExpr),
    /// A read of an array's cell. A scalar is an array without dimensions.
    Access {
        array: usize,
        subs: Items<IndexExpr>,
        place: Place,
    },
    /// A symbol applied to its arguments.
    Call {
        symbol: Symbol,
        args: Items<Value>,
        place: Place,
    },
}

/// A statement. Blocks and empty statements leave none. Assignments are numbered in the order of the text, from 0.
#[derive(Drop, PartialEq, Eq)]
pub enum Stmt {
    /// A loop: `iter` starts at `start`, the body runs as long as `cond` holds, and `step` is added after each turn. The
    /// innermost iterator of `cond` and of `body` is this loop's own; `start` does not see it.
    For {
        iter: Name,
        start: IndexExpr,
        cond: Cond,
        step: i64,
        body: Items<Stmt>,
        place: Place,
    },
    /// A branch: `taken` where `cond` holds, `other` where it does not.
    If {
        cond: Cond,
        taken: Items<Stmt>,
        other: Items<Stmt>,
        place: Place,
    },
    /// An assignment of `value` to the cell `subs` of an array.
    Assign {
        array: usize,
        subs: Items<IndexExpr>,
        value: Value,
        place: Place,
    },
}

/// Whether an array's initial contents are an input, one for both programs of a pair, or a program's own.
#[derive(Clone, Copy, PartialEq, Eq)]
pub enum Kind {
    Input,
    Local,
}

/// An array or scalar with an extent for each dimension; the extents are over the parameters alone.
#[derive(Drop, PartialEq, Eq)]
pub struct Array {
    pub name: Name,
    pub extents: Items<IndexExpr>,
    pub kind: Kind,
}

/// What stands at a place of the parameter list: the integer parameter or the array with that number.
#[derive(Clone, Copy, PartialEq, Eq)]
pub enum Slot {
    Param(usize),
    Array(usize),
}

/// One function. Arrays are numbered from 0, those of the parameter list in its order and then the locals in theirs.
/// `slots` is the parameter list; `outputs` is none where no output line stands in the text.
#[derive(Drop, PartialEq, Eq)]
pub struct Program {
    pub name: Name,
    pub params: Items<Name>,
    pub arrays: Items<Array>,
    pub slots: Items<Slot>,
    pub body: Items<Stmt>,
    pub context: Cond,
    pub commutative: Items<Name>,
    pub outputs: Option<Items<usize>>,
}

/// Two functions that are compared, over one parameter list: the context of both, the commutative names of both, and
/// the arrays that are compared, in the order of the parameter list.
#[derive(Drop, PartialEq, Eq)]
pub struct Pair {
    pub left: Program,
    pub right: Program,
    pub context: Cond,
    pub commutative: Items<Name>,
    pub outputs: Items<usize>,
}

/// Where a value stands in a program: an output array, a node of an assignment's value, or one of these after its read
/// was resolved to the initial contents of the cell.
#[derive(Clone, Copy, PartialEq, Eq)]
pub enum Position {
    Output(usize),
    Node { stmt: usize, node: usize },
    InitialOutput(usize),
    InitialNode { stmt: usize, node: usize },
}

/// The order in which the arguments of two calls are paired.
#[derive(Clone, Copy, PartialEq, Eq)]
pub enum Order {
    Keep,
    Swap,
}

/// A pair of calls of one commutative symbol of two arguments.
#[derive(Clone, Copy, PartialEq, Eq)]
pub struct Site {
    pub left: Position,
    pub right: Position,
}
