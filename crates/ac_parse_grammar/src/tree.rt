//! Source trees: what stands in a file, before any name is looked up and any form is collected.

use crate::boxed::Boxed;
use ac_base::Items;
use ac_syntax::name::Name;
use ac_syntax::tree::Place;

/// A name, a symbol or the spelling of a decimal, and the place of its first byte.
#[derive(Drop)]
pub struct Word {
    pub name: Name,
    pub place: Place,
}

/// A whole number and the place of its first digit. A number above 2147483648 is kept as 2147483649.
#[derive(Clone, Copy, PartialEq, Eq)]
pub struct Numeral {
    pub number: u32,
    pub place: Place,
}

/// An operator of two operands.
#[derive(Clone, Copy, PartialEq, Eq)]
pub enum Operator {
    Add,
    Subtract,
    Multiply,
    Divide,
    Remainder,
}

/// An expression.
///
/// The operands of a chain are one more than its operators, and group to the left; a chain has operators of one level,
/// either `+` and `-`, or `*`, `/` and `%`. So the depth of an expression is bounded by how deep its text nests.
#[derive(Drop)]
pub enum Expr {
    Number(Numeral),
    /// A decimal constant, by its spelling.
    Decimal(Word),
    /// A name with its subscripts; a name alone has none.
    Access {
        name: Word,
        subs: Items<Expr>,
    },
    /// A name that is called.
    Call {
        name: Word,
        args: Items<Expr>,
    },
    /// A quotient, rounded down or `up`; `place` is that of its word.
    Quotient {
        up: bool,
        argument: Boxed<Expr>,
        divisor: Numeral,
        place: Place,
    },
    /// Unary minus; `place` is the sign's.
    Negative {
        operand: Boxed<Expr>,
        place: Place,
    },
    /// An expression in parentheses; `place` is the opening one's.
    Group {
        inner: Boxed<Expr>,
        place: Place,
    },
    Chain {
        operands: Items<Expr>,
        operators: Items<Operator>,
    },
}

/// How two expressions are compared.
#[derive(Clone, Copy, PartialEq, Eq)]
pub enum Relation {
    Less,
    AtMost,
    Greater,
    AtLeast,
    Equal,
}

/// One comparison of a condition. A condition is a list of these, in the order of the text: parentheses round parts of it
/// leave nothing.
#[derive(Drop)]
pub struct Part {
    pub left: Expr,
    pub relation: Relation,
    pub right: Expr,
}

/// The step of a loop: `target` is what is changed, `source` the name to which `by` is added or from which it is taken where
/// one is written (`i = j + 2`), and `down` whether it is taken. `i++` has the number 1, at the operator's place.
#[derive(Drop)]
pub struct Step {
    pub target: Word,
    pub source: Option<Word>,
    pub down: bool,
    pub by: Numeral,
}

/// A statement. Blocks and empty statements leave nothing: a body is the list of what stands in it.
#[derive(Drop)]
pub enum Statement {
    /// A loop; `typed` where its name has a type. `place` is that of `for`.
    Loop {
        typed: bool,
        name: Word,
        start: Expr,
        cond: Items<Part>,
        step: Step,
        body: Items<Statement>,
        place: Place,
    },
    /// A branch; `other` is empty where there is no else. `place` is that of `if`.
    Branch {
        cond: Items<Part>,
        taken: Items<Statement>,
        other: Items<Statement>,
        place: Place,
    },
    /// An assignment; `operator` where it is written before the `=`.
    Assign {
        target: Word,
        subs: Items<Expr>,
        operator: Option<Operator>,
        value: Expr,
    },
}

/// The extent of a dimension, and the place of its opening bracket.
#[derive(Drop)]
pub struct Extent {
    pub size: Expr,
    pub place: Place,
}

/// A declared name: a parameter or a local. `whole` where its type is `int` or `long`.
#[derive(Drop)]
pub struct Declared {
    pub whole: bool,
    pub name: Word,
    pub extents: Items<Extent>,
}

/// A line that begins with `#pragma affine`.
#[derive(Drop)]
pub enum Pragma {
    Context(Items<Part>),
    Commutative(Items<Word>),
    Output(Items<Word>),
}

/// A file: one function, and the pragma lines before and behind it, in the order of the text.
#[derive(Drop)]
pub struct File {
    pub name: Word,
    pub params: Items<Declared>,
    pub locals: Items<Declared>,
    pub body: Items<Statement>,
    pub pragmas: Items<Pragma>,
}
