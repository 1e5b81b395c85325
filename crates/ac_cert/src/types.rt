use ac_base::Items;
use ac_forms::Form;
use std::alloc::{AllocError, Global};

/// The rules of proofs, by which a proof is refused. Each is printed as its variant's name in lower case.
#[derive(Clone, Copy, PartialEq, Eq, Drop)]
pub enum Rule {
    /// The text of a proof.
    Text,
    /// The point at which the context holds.
    Point,
    /// The shapes of the programs at the head of a proof.
    Coords,
    /// A claim.
    Claim,
    /// The claim of an output.
    Output,
    /// The shape of a tree.
    Tree,
    /// A sum of multiples of rows.
    Add,
    /// A row divided and rounded down.
    Cut,
    /// A multiple of a divisibility.
    DivScale,
    /// A combination of two divisibilities.
    DivAdd,
    /// What a divisibility says of another form.
    DivMod,
    /// The divisibility of a form that is 0.
    DivEq,
    /// The quotient of a divisibility.
    Quot,
    /// The quotient of a form, rounded down.
    Floor,
    /// The equality of two opposite rows.
    EqCut,
    /// A branch by the sign of a form.
    Split,
    /// A branch by the residue of a form.
    Residue,
    /// A plan that goes on.
    Go,
    /// An end at a row that no point meets.
    Absurd,
    /// An end at a claim.
    Hit,
    /// An end at two equal numbers.
    Number,
    /// An end at one initial cell.
    Initial,
    /// A place that is written again.
    Killed,
    /// The end of a text.
    End,
}

/// A step along a path: it adds rows to those so far, which are named by their places from 0. What a variant says is
/// what its rule asks; a step that is no instance of its rule can be made, and is refused.
#[derive(Drop)]
pub enum Step {
    /// The sum of multiples of `Eq` and `Ge` rows, those of `Ge` rows not negative.
    Add(Items<(usize, i128)>),
    /// A `Ge` row divided by a positive number that divides all its coefficients, the constant rounded down.
    Cut(usize, i128),
    /// A `Div` row, whose form is multiplied by a number other than 0, and its modulus by the number's absolute value.
    DivScale(usize, i128),
    /// A combination of two `Div` rows with one modulus.
    DivAdd(usize, i128, usize, i128),
    /// `DivMod(r, g, n, f)`: where `g n` divides the modulus of row r and each number of its form less `g f`, n divides f;
    /// g and n are at least 1.
    DivMod(usize, i128, i128, Form),
    /// A positive number divides the form of an `Eq` row.
    DivEq(usize, i128),
    /// A further column: the quotient of a `Div` row.
    Quot(usize),
    /// A further column: the quotient of the form by a positive number, rounded down.
    Floor(i128, Form),
    /// Two `Ge` rows with opposite forms are equalities.
    EqCut(usize, usize),
}

/// A tree: steps, and what comes behind them. `check_tree` says whether it is accepted.
///
/// It is checked, and dropped, by recursion over its branches, not over its steps: whoever makes one bounds the depth.
#[derive(Drop)]
#[cycle(tree)]
pub struct Tree<E> {
    /// The steps, one after the other.
    pub steps: Items<Step>,
    /// What comes behind them.
    pub next: Next<E>,
}

/// A branch or an end.
#[derive(Drop)]
#[cycle(tree)]
pub enum Next<E> {
    /// The form is at least 0 in the first child, and at most -1 in the second.
    Split(Form, Box<Tree<E>>, Box<Tree<E>>),
    /// Child r, from 0 on: the number divides the form less r. The rule asks for as many children as the number says.
    Residue(i128, Form, Vec<Tree<E>>),
    /// An end.
    End(E),
}

/// Why a step, a branch or an end was stopped.
#[derive(Drop)]
pub enum EndStop {
    /// It is refused, by this rule.
    Refused(Rule),
    /// There was no memory.
    Memory(AllocError),
}

/// Why the check of a tree was stopped.
#[derive(Drop)]
pub enum TreeFault {
    /// The first node in preorder that fails, numbered from 0, and its rule. Steps, branches and ends are nodes.
    Refused { node: u64, rule: Rule },
    /// There was no memory.
    Memory(AllocError),
}

impl From<AllocError> for EndStop {
    ghost use Rattle.std.specs.Prelude.{◌≡◌};
    ghost use Rattle.ac_cert.specs.declared.types.EndStop.TheVariants.{Memory};

    ghost from_gives = { λ want e. e ≡ Memory want };

    fn from(want: AllocError) -> EndStop {
        EndStop::Memory(want)
    }
}

impl From<AllocError> for TreeFault {
    ghost use Rattle.std.specs.Prelude.{◌≡◌};
    ghost use Rattle.ac_cert.specs.declared.types.TreeFault.TheVariants.{Memory};

    ghost from_gives = { λ want e. e ≡ Memory want };

    fn from(want: AllocError) -> TreeFault {
        TreeFault::Memory(want)
    }
}
