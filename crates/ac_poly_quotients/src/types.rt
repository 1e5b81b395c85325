use ac_base::Items;
use ac_forms::{Form, Row};
use ac_syntax::tree::Quot;

/// A quotient: a form over the columns before it, divided by a number that is at least 1, and rounded down.
#[derive(Drop)]
pub struct Rounded {
    /// The form that is divided.
    pub form: Form,
    /// The divisor.
    pub div: i64,
}

/// What a column behind the parameters stands for, in the order in which columns come.
#[derive(Drop)]
pub enum Column {
    /// The counter of a loop.
    Counter,
    /// A quotient.
    Quotient(Rounded),
}

/// A quotient of the text, and the number of its column.
#[derive(Drop)]
pub struct QuotColumn {
    pub quot: Quot,
    pub column: usize,
}

/// A comparison: the row by which it holds, and those of which one holds where it fails.
#[derive(Drop)]
pub struct Way {
    pub row: Row,
    pub negations: Items<Row>,
}

/// What is around a statement, over the parameters and the columns that came on the way to it.
#[derive(Drop)]
pub struct Scope {
    /// The number of parameters.
    pub params: usize,
    /// The form of each iterator, the outermost first.
    pub iters: Items<Form>,
    /// The numbers of the loops.
    pub loops: Items<usize>,
    /// The columns behind the parameters.
    pub columns: Items<Column>,
    /// The quotients that have a column, in the order of their columns.
    pub quots: Items<QuotColumn>,
    /// The pieces so far.
    pub pieces: Items<Items<Row>>,
}
