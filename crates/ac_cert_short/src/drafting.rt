//! The draft of a tree: bottom up, with the uses of the rows of its path counted.
ghost use Rattle.std.specs.Prelude.{◌≡◌, ◌≤◌, ◌<◌, ◌+◌, ℕ, List, [], ◌∷◌, true, false, length, IfOk, OnOk};
ghost use Rattle.ac_cert_short.specs.CertificateNodes.{Nodes, along, list_kids, nodes_behind, nodes_of, rows_along, rows_of};
ghost use Rattle.ac_cert_short.specs.CertificateNodes.Nodes.{gap, none, residue, split, step};
ghost use Rattle.ac_cert_short.specs.Drafts.{back_kids, draft_behind, draft_nodes, kids_uses, marked};
ghost use Rattle.ac_cert_short.specs.DraftRelations.{AreForgotten, ChildDrafted, Drafted};

use crate::counts::{close_row, close_step, count, count_step, open_steps};
use crate::draft::{Behind, Draft, Mark};
use crate::forgetting::{forget_draft, forget_kids};
use ac_base::Items;
use ac_cert::types::Step;
use ac_cert::{Absurd, Next, Tree};
use ac_forms::Form;
use std::alloc::{AllocError, Global};

/// A draft without marks.
fn bare(alloc: Global, behind: Behind) -> Draft
    ensures { draft_nodes result ≡ draft_behind behind }
{
    Draft {
        marks: Vec::new(alloc),
        behind,
    }
}

/// A draft behind a mark.
#[tactic(auto, using(crate::proofs::Shapes::marks_pushed))]
fn with_mark(mark: Mark, draft: Draft) -> Result<Draft, AllocError>
    ensures { IfOk result (λ d. draft_nodes d ≡ marked mark (draft_nodes draft)) }
{
    let Draft { marks, behind } = draft;
    let mut marks = marks;
    marks.push(mark).map_err(AllocError::from)?;
    Ok(Draft { marks, behind })
}

/// A draft behind a step, or behind its gap if nothing uses it.
fn with_step(first: Step, draft: Draft, uses: &mut Vec<usize>) -> Result<Draft, AllocError>
    requires { rows_of first ≤ length uses.old.items }
    ensures long { OnOk result (length uses.old.items ≡ length uses.new.items + rows_of first) }
    ensures drafted { IfOk result (λ d. (old : List ℕ) (p : Nodes) → length old + rows_of first ≤ length uses.old.items → Drafted old uses.old.items p (draft_nodes draft) → Drafted old uses.new.items (step first p) (draft_nodes d)) }
{
    if close_step(uses, &first) {
        count_step(uses, &first)?;
        let kept = with_mark(Mark::Kept(first), draft)?;
        return Ok(kept);
    }
    let made = with_mark(Mark::Gap, draft)?;
    Ok(made)
}

/// A draft behind steps, of which those stay that are used.
fn with_steps(steps: Items<Step>, draft: Draft, uses: &mut Vec<usize>) -> Result<Draft, AllocError>
    requires { rows_along steps ≤ length uses.old.items }
    ensures long { OnOk result (length uses.old.items ≡ length uses.new.items + rows_along steps) }
    ensures drafted { IfOk result (λ d. (old : List ℕ) (p : Nodes) → length old + rows_along steps ≤ length uses.old.items → Drafted old uses.old.items p (draft_nodes draft) → Drafted old uses.new.items (along steps p) (draft_nodes d)) }
{
    let mut left = steps.into_vec();
    let mut made = draft;
    while let Some(last) = left.pop() {
        made = with_step(last, made, uses)?;
    }
    Ok(made)
}

/// The draft of a split.
fn split_of(alloc: Global, form: Form, first: Draft, second: Draft) -> Result<Draft, AllocError>
    ensures { IfOk result (λ d. draft_nodes d ≡ split form (draft_nodes first) (draft_nodes second)) }
{
    let first = Box::new(alloc, first)?;
    let second = Box::new(alloc, second)?;
    Ok(bare(alloc, Behind::Split(form, first, second)))
}

/// The draft of a residue branch, whose children stand from the last to the first.
fn residue_of(alloc: Global, m: &i128, form: Form, kids: Vec<Draft>) -> Draft
    ensures { draft_nodes result ≡ residue m.now form (back_kids kids.items none) }
{
    bare(alloc, Behind::Residue(*m, form, kids))
}

/// The draft of a split whose first side uses its row: that of the second side alone, if it does without its row.
fn beside(
    alloc: Global,
    form: Form,
    first: Draft,
    second: Draft,
    used: bool,
    uses: &mut Vec<usize>,
) -> Result<Draft, AllocError>
    ensures long { OnOk result (length uses.new.items ≡ length uses.old.items) }
    ensures drafted { IfOk result (λ d. (old mid : List ℕ) (p q : Nodes) → ChildDrafted old mid p (draft_nodes first) true → ChildDrafted mid uses.old.items q (draft_nodes second) used → Drafted old uses.new.items (split form p q) (draft_nodes d)) }
{
    if used {
        let both = split_of(alloc, form, first, second)?;
        return Ok(both);
    }
    forget_draft(uses, &first);
    let alone = with_mark(Mark::Gap, second)?;
    Ok(alone)
}

/// The draft of a child in place of its branch. The uses of the children beside it are taken from the counts.
fn instead(draft: Draft, others: &[Draft], uses: &mut Vec<usize>) -> Result<Draft, AllocError>
    ensures alone { IfOk result (λ d. draft_nodes d ≡ gap (draft_nodes draft)) }
    ensures long { length uses.new.items ≡ length uses.old.items }
    ensures forgotten { AreForgotten uses.old.items uses.new.items (λ i. kids_uses i others.now) }
{
    forget_kids(uses, others);
    let alone = with_mark(Mark::Gap, draft)?;
    Ok(alone)
}

/// The draft of a tree on a path with so many rows as there are counts, to which its uses are added.
#[cycle(drafting)]
pub(crate) fn drafted(
    alloc: Global,
    tree: Tree<Absurd>,
    uses: &mut Vec<usize>,
) -> Result<Draft, AllocError>
    ensures long { OnOk result (length uses.new.items ≡ length uses.old.items) }
    ensures drafted { IfOk result (λ d. Drafted uses.old.items uses.new.items (nodes_of tree) (draft_nodes d)) }
{
    let Tree { steps, next } = tree;
    open_steps(uses, steps.as_slice())?;
    let made = drafted_next(alloc, next, uses)?;
    let whole = with_steps(steps, made, uses)?;
    Ok(whole)
}

/// The same behind the steps: for a branch that of one child alone, if it does without its row.
#[cycle(drafting)]
fn drafted_next(
    alloc: Global,
    next: Next<Absurd>,
    uses: &mut Vec<usize>,
) -> Result<Draft, AllocError>
    ensures long { OnOk result (length uses.new.items ≡ length uses.old.items) }
    ensures drafted { IfOk result (λ d. Drafted uses.old.items uses.new.items (nodes_behind next) (draft_nodes d)) }
{
    match next {
        Next::End(end) => {
            count(uses, end.row)?;
            Ok(bare(alloc, Behind::End(end)))
        }
        Next::Split(form, left, right) => {
            let (first, first_used) = drafted_child(alloc, Box::into_inner(left), uses)?;
            if !first_used {
                let alone = with_mark(Mark::Gap, first)?;
                return Ok(alone);
            }
            let (second, used) = drafted_child(alloc, Box::into_inner(right), uses)?;
            let made = beside(alloc, form, first, second, used, uses)?;
            Ok(made)
        }
        Next::Residue(m, form, kids) => {
            let made = drafted_residue(alloc, &m, form, kids, uses)?;
            Ok(made)
        }
    }
}

/// The draft of a branch's child, and whether it uses the row that the branch adds.
#[cycle(drafting)]
fn drafted_child(
    alloc: Global,
    tree: Tree<Absurd>,
    uses: &mut Vec<usize>,
) -> Result<(Draft, bool), AllocError>
    ensures { IfOk result (λ r. ChildDrafted uses.old.items uses.new.items (nodes_of tree) (draft_nodes r.0) r.1) }
{
    uses.push(0).map_err(AllocError::from)?;
    let made = drafted(alloc, tree, uses)?;
    let used = close_row(uses);
    Ok((made, used))
}

/// The draft of a residue branch: that of one child alone, if it does without its row.
#[cycle(drafting)]
fn drafted_residue(
    alloc: Global,
    m: &i128,
    form: Form,
    kids: Vec<Tree<Absurd>>,
    uses: &mut Vec<usize>,
) -> Result<Draft, AllocError>
    ensures long { OnOk result (length uses.new.items ≡ length uses.old.items) }
    ensures drafted { IfOk result (λ d. Drafted uses.old.items uses.new.items (residue m.now form (list_kids kids.items)) (draft_nodes d)) }
{
    let mut left = kids;
    let mut made = Vec::new(alloc);
    while let Some(kid) = left.pop() {
        let (draft, used) = drafted_child(alloc, kid, uses)?;
        if !used {
            let alone = instead(draft, made.as_slice(), uses)?;
            return Ok(alone);
        }
        made.push(draft).map_err(AllocError::from)?;
    }
    Ok(residue_of(alloc, m, form, made))
}
