use crate::item::Item;
use crate::types::Claim;
use ac_base::Items;
use ac_cert::{EndStop, Rule};
use ac_claims_paths::path::{Assumed, Branch, Programs, Seat};
use ac_forms::{Conj, Form, Row};
use std::alloc::{AllocError, Global};

/// The first line that fails, and its rule.
#[derive(Clone, Copy, PartialEq, Eq, Drop)]
pub struct Refusal {
    /// The line.
    pub line: u64,
    /// Its rule.
    pub rule: Rule,
}

/// Why an item was not taken.
#[derive(Drop)]
pub(crate) enum TakeStop {
    /// It is refused.
    Refused(Refusal),
    /// There was no memory.
    Memory(AllocError),
}

impl From<AllocError> for TakeStop {
    ghost use Rattle.std.specs.Prelude.{◌≡◌};
    ghost use Rattle.ac_claims.specs.declared.entry.TakeStop.TheVariants.{Memory};

    ghost from_gives = { λ want e. e ≡ Memory want };

    fn from(want: AllocError) -> TakeStop {
        TakeStop::Memory(want)
    }
}

/// A line of a plan, with what it is judged by: the models of the pair and the claims of the proof.
#[derive(Clone, Copy)]
pub(crate) struct Line<'a> {
    pub alloc: Global,
    pub programs: &'a Programs<'a>,
    pub claims: &'a [Claim],
    /// What the line says.
    pub item: &'a Item,
    pub number: u64,
}

/// A path without its rows: how many columns and rows it has, and what else belongs to it. The rows are the first of the
/// path under way.
#[derive(Clone, Copy, Drop)]
pub(crate) struct Prefix {
    pub columns: usize,
    /// How many rows.
    pub count: usize,
    pub left: Seat,
    pub right: Seat,
    pub gone: bool,
    pub last: Option<Assumed>,
}

/// The classes of a residue branch that are still to come: those from `next` to the modulus less 1.
#[derive(Drop)]
pub(crate) struct Classes {
    pub modulus: i128,
    pub form: Form,
    pub next: i128,
}

/// A copy whose choices are still to come.
#[derive(Drop)]
pub(crate) struct Choosing {
    /// The line that names the copy.
    pub line: u64,
    /// How many choices are still to come.
    pub left: usize,
    /// What the copy is to kill.
    pub assumed: Assumed,
    /// The rows of the copy that the choices so far have left.
    pub copy: Conj,
}

/// What is due at a path.
#[derive(Drop)]
pub(crate) enum Awaited {
    /// A plan.
    Plan,
    /// A plan where the path has one row more.
    Side(Row),
    /// Plans at several classes.
    Classes(Classes),
    /// Plans at several branches of a step of the pair, the next one last.
    Branches(Items<Branch>),
    /// The choices of a copy.
    Choosing(Choosing),
}

/// What is due, and at which path.
#[derive(Drop)]
pub(crate) struct Entry {
    pub prefix: Prefix,
    pub awaited: Awaited,
}

/// A plan under way: the rows of its one path, and what is due, the next one last. The path of each entry is the front of
/// this one, and no longer than that of a later entry: so rows are added behind the next entry's, and no row is copied.
#[derive(Drop)]
pub(crate) struct Ongoing {
    pub rows: Items<Row>,
    pub entries: Items<Entry>,
}
