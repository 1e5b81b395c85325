//! Where a question stands on the path of its plan.
ghost use Rattle.std.specs.Prelude.{◌≡◌, ◌++◌, ℕ, length, IfOk, OnOk};
ghost use Rattle.std.specs.List.{range_with_len};
ghost use Rattle.ac_forms.specs.Rows.{IsWellMade};
ghost use Rattle.ac_forms.specs.declared.conj.Conj.{Conj};
ghost use Rattle.ac_claims_plans.specs.Embeddings.{place_in, column_on, row_on, columns_on, moved_form, itself, grown, advanced};
ghost use Rattle.ac_claims_plans.specs.QuestionEmbedding.{StandsOn};

use ac_base::Items;
use ac_forms::{Form, FormStop, column_after, push_range};
use std::alloc::{AllocError, Global};

/// Where the columns and rows of a question stand on the path of its plan, and how many columns and rows the path has. What a
/// plan adds stands behind these, one for one.
#[derive(Drop)]
pub struct Embedding {
    /// The path's column for each column.
    pub columns: Items<usize>,
    /// The path's row for each row.
    pub rows: Items<usize>,
    /// How many columns the path has.
    pub next_column: usize,
    /// How many rows it has.
    pub next_row: usize,
}

/// The place of what has this number, where those before have the places of a list and the others follow from `next` on.
fn place(places: &[usize], next: usize, number: usize) -> Result<usize, AllocError>
    ensures { IfOk result (λ place. place ≡ place_in places.now next number) }
{
    if number < places.len() {
        return Ok(places[number]);
    }
    column_after(next, number - places.len())
}

/// The embedding of a question that is its own path.
fn own_places(alloc: Global, columns: usize, rows: usize) -> Result<Embedding, AllocError>
    ensures { IfOk result (λ embedding. embedding ≡ itself columns rows) }
{
    let mut names = Items::new(alloc);
    push_range(&mut names, 0, columns)?;
    let mut places = Items::new(alloc);
    push_range(&mut places, 0, rows)?;
    Ok(Embedding {
        columns: names,
        rows: places,
        next_column: columns,
        next_row: rows,
    })
}

impl Embedding {
    /// A question that is its own path.
    pub fn itself(alloc: Global, columns: usize, rows: usize) -> Result<Embedding, AllocError>
        ensures value { IfOk result (λ embedding. embedding ≡ itself columns rows) }
        ensures stands { IfOk result (λ embedding. (c : Conj) → IsWellMade c → c.columns ≡ columns → length c.rows ≡ rows → StandsOn embedding c c) }
    {
        own_places(alloc, columns, rows)
    }
    /// The same again.
    pub fn copy(&self, alloc: Global) -> Result<Embedding, AllocError>
        ensures { IfOk result (λ embedding. embedding ≡ self.now) }
    {
        Ok(Embedding {
            columns: Items::from_slice(alloc, self.columns.as_slice())?,
            rows: Items::from_slice(alloc, self.rows.as_slice())?,
            next_column: self.next_column,
            next_row: self.next_row,
        })
    }

    /// The column of the path for a column of the question or of what a plan adds. One that is no `usize` is want of memory.
    pub fn column(&self, number: usize) -> Result<usize, AllocError>
        ensures { IfOk result (λ column. column ≡ column_on self.now number) }
    {
        place(self.columns.as_slice(), self.next_column, number)
    }

    /// The row of the path for a row of the question or of what a plan adds. One that is no `usize` is want of memory.
    pub fn row(&self, number: usize) -> Result<usize, AllocError>
        ensures { IfOk result (λ row. row ≡ row_on self.now number) }
    {
        place(self.rows.as_slice(), self.next_row, number)
    }

    /// The columns of the path for the first columns.
    fn names(&self, alloc: Global, count: usize) -> Result<Items<usize>, AllocError>
        ensures { IfOk result (λ names. names ≡ columns_on self.now count) }
    {
        let mut names = Items::new(alloc);
        for number in 0..count {
            names.push(self.column(number)?)?;
        }
        Ok(names)
    }

    /// A form over the path's columns, without zeros at its end. A sum of coefficients that leaves `i128`, as it may where two
    /// columns have one place, is taken for want of memory.
    pub fn form(&self, alloc: Global, form: &Form) -> Result<Form, AllocError>
        ensures { IfOk result (λ moved. moved ≡ moved_form self.now form.now) }
    {
        let names = self.names(alloc, form.columns())?;
        match form.renamed(alloc, names.as_slice()) {
            Ok(renamed) => Ok(renamed.trimmed()),
            Err(FormStop::Wide) => Err(AllocError),
            Err(FormStop::Memory(want)) => Err(want),
        }
    }

    /// The question has so many further columns and rows, which the path has at its end. After want of memory the embedding is
    /// of no use.
    pub fn grow(&mut self, columns: usize, rows: usize) -> Result<(), AllocError>
        ensures { OnOk result (self.new ≡ grown self.old columns rows) }
    {
        push_range(&mut self.columns, self.next_column, columns)?;
        push_range(&mut self.rows, self.next_row, rows)?;
        self.advance(columns, rows)
    }

    /// The path has so many further columns and rows. After want of memory the embedding is of no use.
    pub fn advance(&mut self, columns: usize, rows: usize) -> Result<(), AllocError>
        ensures { OnOk result (self.new ≡ advanced self.old columns rows) }
    {
        self.next_column = column_after(self.next_column, columns)?;
        self.next_row = column_after(self.next_row, rows)?;
        Ok(())
    }
}
