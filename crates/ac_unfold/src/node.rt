//! The state of an unfolding: a question, where it stands on the path of its plan, and the pairs of positions so far.
ghost use Rattle.std.specs.Prelude.{◌≡◌, ◌+◌, ◌++◌, ◌∷◌, [], length, map, IfOk, OnOk};
ghost use Rattle.std.specs.List.{range_with_len};
ghost use Rattle.ac_claims_paths.specs.BranchPaths.{onto};
ghost use Rattle.ac_claims_paths.specs.PathSteps.{at_rows, extended};
ghost use Rattle.ac_claims_plans.specs.Embeddings.{advanced, grown, itself};
ghost use Rattle.ac_claims_plans.specs.BranchSides.{on_side, side_of};

use ac_base::Items;
use ac_claims_paths::going::onto;
use ac_claims_paths::path::{Branch, Path, Seat, at_rows};
use ac_claims_plans::{Embedding, Part};
use ac_forms::{Conj, Row, column_after, push_range};
use std::alloc::{AllocError, Global};

/// A question with its pair of positions, where it stands on the path of its plan, the pairs from the start on, the last one
/// its own, and a point of a question before it, over its first columns: without numbers where none is known.
#[derive(Drop)]
pub(crate) struct Node {
    pub question: Path,
    pub embedding: Embedding,
    pub pair_path: Items<(Seat, Seat)>,
    pub known: Items<i128>,
}

/// Rows behind others.
pub(crate) fn push_rows(
    alloc: Global,
    rows: &mut Items<Row>,
    more: &[Row],
) -> Result<(), AllocError>
    ensures { OnOk result (rows.new ≡ rows.old ++ more.now) }
{
    for row in more {
        rows.push(row.copy(alloc)?)?;
    }
    Ok(())
}

/// A question with further rows.
pub(crate) fn with_rows(alloc: Global, conj: &Conj, more: &[Row]) -> Result<Conj, AllocError>
    ensures { IfOk result (λ longer. longer ≡ extended conj.now 0 more.now) }
{
    let mut longer = conj.copy(alloc)?;
    push_rows(alloc, &mut longer.rows, more)?;
    Ok(longer)
}

/// Places counted from a row on.
fn push_places(list: &mut Items<usize>, first: usize, offsets: &[usize]) -> Result<(), AllocError>
    ensures { OnOk result (list.new ≡ list.old ++ map (λ k. first + k) offsets.now) }
{
    for offset in offsets {
        list.push(column_after(first, *offset)?)?;
    }
    Ok(())
}

/// The embedding on a side of a branch, where the question has the side's rows.
fn on_side(embedding: Embedding, part: &Part) -> Result<Embedding, AllocError>
    ensures { IfOk result (λ made. made ≡ on_side embedding part.now) }
{
    let mut embedding = embedding;
    let (column, row) = (embedding.next_column, embedding.next_row);
    push_range(&mut embedding.columns, column, part.question_columns)?;
    push_places(&mut embedding.rows, row, part.places.as_slice())?;
    embedding.advance(part.path_columns, part.path_rows)?;
    Ok(embedding)
}

impl Node {
    /// A start, on its own path.
    pub(crate) fn start(alloc: Global, path: Path) -> Result<Node, AllocError>
        ensures question { IfOk result (λ node. node.question ≡ path) }
        ensures embedding { IfOk result (λ node. node.embedding ≡ itself path.conj.columns (length path.conj.rows)) }
        ensures pair_path { IfOk result (λ node. node.pair_path ≡ (path.left, path.right) ∷ []) }
    {
        let embedding = Embedding::itself(alloc, path.conj.columns, path.conj.rows.len())?;
        let mut pair_path = Items::new(alloc);
        pair_path.push((path.left, path.right))?;
        Ok(Node {
            question: path,
            embedding,
            pair_path,
            known: Items::new(alloc),
        })
    }

    /// The same again.
    pub(crate) fn copy(&self, alloc: Global) -> Result<Node, AllocError>
        ensures { IfOk result (λ node. node ≡ self.now) }
    {
        Ok(Node {
            question: self.question.copy(alloc)?,
            embedding: self.embedding.copy(alloc)?,
            pair_path: Items::from_slice(alloc, self.pair_path.as_slice())?,
            known: Items::from_slice(alloc, self.known.as_slice())?,
        })
    }

    /// The same with a point of its question.
    pub(crate) fn knowing(self, point: Vec<i128>) -> Node
        ensures question { result.question ≡ self.question }
        ensures embedding { result.embedding ≡ self.embedding }
        ensures known { result.known ≡ point.items }
        ensures pair_path { result.pair_path ≡ self.pair_path }
    {
        let Node {
            question,
            embedding,
            pair_path,
            known: _,
        } = self;
        Node {
            question,
            embedding,
            pair_path,
            known: Items::from(point),
        }
    }

    /// Behind a branch of a step of the pair.
    pub(crate) fn behind(&self, alloc: Global, branch: Branch) -> Result<Node, AllocError>
        ensures question { IfOk result (λ node. node.question ≡ onto self.now.question branch) }
        ensures embedding { IfOk result (λ node. node.embedding ≡ grown self.now.embedding branch.columns (length branch.rows)) }
        ensures pair_path { IfOk result (λ node. node.pair_path ≡ self.now.pair_path ++ (branch.left, branch.right) ∷ []) }
    {
        let Node {
            question,
            mut embedding,
            mut pair_path,
            known,
        } = self.copy(alloc)?;
        embedding.grow(branch.columns, branch.rows.len())?;
        pair_path.push((branch.left, branch.right))?;
        Ok(Node {
            question: onto(question, branch)?,
            embedding,
            pair_path,
            known,
        })
    }

    /// On one side of a branch on a row.
    pub(crate) fn within(&self, alloc: Global, part: &Part) -> Result<Node, AllocError>
        ensures question { IfOk result (λ node. node.question ≡ at_rows self.now.question (side_of self.now.question.conj part.now)) }
        ensures embedding { IfOk result (λ node. node.embedding ≡ on_side self.now.embedding part.now) }
        ensures pair_path { IfOk result (λ node. node.pair_path ≡ self.now.pair_path) }
    {
        let Node {
            question,
            embedding,
            pair_path,
            known,
        } = self.copy(alloc)?;
        let rows = with_rows(alloc, &question.conj, part.rows.as_slice())?.rows;
        let columns = column_after(question.conj.columns, part.question_columns)?;
        Ok(Node {
            question: at_rows(&question, Conj { columns, rows }),
            embedding: on_side(embedding, part)?,
            pair_path,
            known,
        })
    }

    /// With further columns and rows of the question alone, of which no plan is made.
    pub(crate) fn beside(
        &self,
        alloc: Global,
        columns: usize,
        rows: &[Row],
    ) -> Result<Node, AllocError>
        ensures question { IfOk result (λ node. node.question ≡ at_rows self.now.question (extended self.now.question.conj columns rows.now)) }
        ensures pair_path { IfOk result (λ node. node.pair_path ≡ self.now.pair_path) }
    {
        let Node {
            question,
            embedding,
            pair_path,
            known,
        } = self.copy(alloc)?;
        let rows = with_rows(alloc, &question.conj, rows)?.rows;
        let columns = column_after(question.conj.columns, columns)?;
        Ok(Node {
            question: at_rows(&question, Conj { columns, rows }),
            embedding,
            pair_path,
            known,
        })
    }

    /// Where a row stands on the path behind a branch on it; the question stays.
    pub(crate) fn beyond(&self, alloc: Global, inside: &Part) -> Result<Node, AllocError>
        ensures question { IfOk result (λ node. node.question ≡ self.now.question) }
        ensures embedding { IfOk result (λ node. node.embedding ≡ advanced self.now.embedding inside.now.path_columns inside.now.path_rows) }
        ensures pair_path { IfOk result (λ node. node.pair_path ≡ self.now.pair_path) }
    {
        let mut node = self.copy(alloc)?;
        node.embedding
            .advance(inside.path_columns, inside.path_rows)?;
        Ok(node)
    }
}
