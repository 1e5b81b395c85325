use ac_base::Items;
use ac_forms::{Form, Row};
use ac_poly_quotients::Rounded;
use ac_syntax::tree::{Kind, Place, Symbol};
use std::alloc::{AllocError, AllocFailed};

/// A node of a value. The nodes of a value stand in preorder, the root first; subscripts are no nodes.
#[derive(Drop)]
pub enum NodeModel {
    /// The value of a form.
    Number(Form),
    /// A read of an array's cell: the forms of its subscripts.
    Read { array: usize, subs: Items<Form> },
    /// A symbol applied to the nodes with these numbers.
    Call { symbol: Symbol, args: Items<usize> },
}

/// An assignment as integer points. Its forms and rows are over the parameters, then the counters of its loops, the outermost
/// first, and then its quotients.
#[derive(Drop)]
pub struct StmtModel {
    /// The numbers of the loops around it, from the outside in. Loops are numbered from 0 in the order of the text.
    pub loops: Items<usize>,
    /// Its quotients, in the order of evaluation, equal ones once: each is over the parameters, the counters and the quotients
    /// before it.
    pub quots: Items<Rounded>,
    /// Its pieces: the assignment is made where all rows of some piece hold, and nowhere else.
    pub pieces: Items<Items<Row>>,
    /// The array that it writes.
    pub array: usize,
    /// The subscripts of the cell that it writes.
    pub subs: Items<Form>,
    /// The nodes of its value.
    pub nodes: Items<NodeModel>,
}

/// A program as integer points.
#[derive(Drop)]
pub struct Model {
    /// The number of parameters.
    pub params: usize,
    /// The rows of the context, over the parameters.
    pub context: Items<Row>,
    /// The assignments, in the order of the text.
    pub stmts: Items<StmtModel>,
    /// The extents of each array, over the parameters.
    pub extents: Items<Items<Form>>,
    /// The kind of each array.
    pub kinds: Items<Kind>,
}

/// Why a program was not lowered. Of the assignments with too many pieces or too large a number the first in the text is
/// named.
#[derive(Drop)]
pub enum LowerFault {
    /// The assignment there has more than 16 pieces.
    Pieces(Place),
    /// A number for the assignment there leaves `i128`.
    Wide(Place),
    /// There was no memory.
    Memory(AllocError),
}

impl From<AllocError> for LowerFault {
    ghost use Rattle.ac_poly.specs.declared.types.LowerFault.TheVariants.{Memory};
    ghost use Rattle.std.specs.Prelude.{◌≡◌};

    ghost from_gives = { λ want e. e ≡ Memory want };

    fn from(want: AllocError) -> LowerFault {
        LowerFault::Memory(want)
    }
}

impl<T: Drop> From<AllocFailed<T>> for LowerFault {
    ghost use Rattle.ac_poly.specs.declared.types.LowerFault.TheVariants.{Memory};
    ghost use Rattle.std.specs.Prelude.{◌≡◌, alloc_error};

    ghost from_gives = { λ _ e. e ≡ Memory alloc_error };

    fn from(_failed: AllocFailed<T>) -> LowerFault {
        LowerFault::Memory(AllocError)
    }
}
