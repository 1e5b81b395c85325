//! From drafts to trees: the steps that are kept, with the rows at the places that they have without the gaps.
ghost use Rattle.std.specs.Prelude.{◌≡◌, ◌≤◌, ◌+◌, ◌++◌, [], ◌∷◌, length, IfOk, OnOk};
ghost use Rattle.ac_cert_short.specs.CertificateNodes.{list_kids, nodes_behind, nodes_of, rows_of};
ghost use Rattle.ac_cert_short.specs.CertificateNodes.Nodes.{none};
ghost use Rattle.ac_cert_short.specs.Drafts.{back_kids, draft_behind, draft_nodes};
ghost use Rattle.ac_cert_short.specs.declared.draft.Mark.TheVariants.{Kept};
ghost use Rattle.ac_cert_short.specs.DraftRelations.{IsPlaced, KidsPlaced, MarkPlaced, MarksPlaced, further};

use crate::draft::{Behind, Draft, Mark};
use crate::places::{moved, place};
use ac_base::Items;
use ac_cert::types::Step;
use ac_cert::{Absurd, Next, Tree};
use std::alloc::{AllocError, Global};

/// Gives the rows of a step the next places, from a count on. The count behind them.
fn place_rows(step: &Step, places: &mut Vec<usize>, count: usize) -> Result<usize, AllocError>
    requires { count ≤ length places.old.items }
    ensures count { IfOk result (λ n. n ≡ count + rows_of step.now) }
    ensures places { OnOk result (places.new.items ≡ places.old.items ++ further count (rows_of step.now)) }
{
    places.push(count).map_err(AllocError::from)?;
    if let Step::Floor(_, _) = step {
        places.push(count + 1).map_err(AllocError::from)?;
        return Ok(count + 2);
    }
    Ok(count + 1)
}

/// Adds a step that is kept, and the places of its rows. The count of rows behind it.
#[tactic(auto, using(crate::proofs::PlacedMarks::mark_step))]
fn place_step(
    alloc: Global,
    step: Step,
    steps: &mut Items<Step>,
    places: &mut Vec<usize>,
    count: usize,
) -> Result<usize, AllocError>
    requires { count ≤ length places.old.items }
    ensures { IfOk result (λ n. MarkPlaced places.old.items count steps.old (Kept step) places.new.items n steps.new) }
{
    let made = moved(alloc, places.as_slice(), step)?;
    let reached = place_rows(&made, places, count)?;
    steps.push(made)?;
    Ok(reached)
}

/// Adds the step of a mark, and the places of its rows. The count of rows behind it.
#[tactic(auto, using(crate::proofs::PlacedMarks::mark_gap))]
fn place_mark(
    alloc: Global,
    mark: Mark,
    steps: &mut Items<Step>,
    places: &mut Vec<usize>,
    count: usize,
) -> Result<usize, AllocError>
    requires { count ≤ length places.old.items }
    ensures { IfOk result (λ n. MarkPlaced places.old.items count steps.old mark places.new.items n steps.new) }
{
    match mark {
        Mark::Kept(step) => {
            let reached = place_step(alloc, step, steps, places, count)?;
            Ok(reached)
        }
        Mark::Gap => {
            places.push(count).map_err(AllocError::from)?;
            Ok(count)
        }
    }
}

/// The steps of marks, and the count of rows behind them.
#[tactic(auto, using(crate::proofs::PlacedMarks::marks_start))]
fn place_marks(
    alloc: Global,
    marks: Vec<Mark>,
    places: &mut Vec<usize>,
    count: usize,
) -> Result<(Items<Step>, usize), AllocError>
    requires { count ≤ length places.old.items }
    ensures { IfOk result (λ r. MarksPlaced marks.items [] places.old.items count places.new.items r.1 r.0) }
{
    let mut left = marks;
    let mut steps = Items::new(alloc);
    let mut reached = count;
    while let Some(mark) = left.pop() {
        reached = place_mark(alloc, mark, &mut steps, places, reached)?;
    }
    Ok((steps, reached))
}

/// The tree of a draft on a path with so many rows, on which the rows of the draft's path have these places.
#[cycle(placing)]
pub(crate) fn placed(
    alloc: Global,
    draft: Draft,
    places: &mut Vec<usize>,
    count: usize,
) -> Result<Tree<Absurd>, AllocError>
    requires { count ≤ length places.old.items }
    ensures same { OnOk result (places.new.items ≡ places.old.items) }
    ensures placed { IfOk result (λ t. IsPlaced places.old.items count (draft_nodes draft) (nodes_of t)) }
{
    let rows = places.len();
    let Draft { marks, behind } = draft;
    let (steps, reached) = place_marks(alloc, marks, places, count)?;
    let next = placed_behind(alloc, behind, places, reached)?;
    places.truncate(rows);
    Ok(Tree { steps, next })
}

/// The same behind the marks.
#[tactic(auto, using(crate::proofs::PlacedMarks::end_placed))]
#[cycle(placing)]
fn placed_behind(
    alloc: Global,
    behind: Behind,
    places: &mut Vec<usize>,
    count: usize,
) -> Result<Next<Absurd>, AllocError>
    requires { count ≤ length places.old.items }
    ensures same { OnOk result (places.new.items ≡ places.old.items) }
    ensures placed { IfOk result (λ x. IsPlaced places.old.items count (draft_behind behind) (nodes_behind x)) }
{
    match behind {
        Behind::End(end) => Ok(Next::End(Absurd {
            row: place(places.as_slice(), end.row),
        })),
        Behind::Split(form, left, right) => {
            let first = placed_child(alloc, Box::into_inner(left), places, count)?;
            let second = placed_child(alloc, Box::into_inner(right), places, count)?;
            let left_box = Box::new(alloc, first)?;
            let right_box = Box::new(alloc, second)?;
            Ok(Next::Split(form, left_box, right_box))
        }
        Behind::Residue(m, form, kids) => {
            let made = placed_kids(alloc, kids, places, count)?;
            Ok(Next::Residue(m, form, made))
        }
    }
}

/// The same of a branch's child, whose row has the next place.
#[cycle(placing)]
fn placed_child(
    alloc: Global,
    draft: Draft,
    places: &mut Vec<usize>,
    count: usize,
) -> Result<Tree<Absurd>, AllocError>
    requires { count ≤ length places.old.items }
    ensures same { OnOk result (places.new.items ≡ places.old.items) }
    ensures placed { IfOk result (λ t. IsPlaced (places.old.items ++ count ∷ []) (count + 1) (draft_nodes draft) (nodes_of t)) }
{
    places.push(count).map_err(AllocError::from)?;
    let made = placed(alloc, draft, places, count + 1)?;
    let _row = places.pop();
    Ok(made)
}

/// The same of the children of a residue branch, which the draft has from the last to the first.
#[tactic(auto, using(crate::proofs::PlacedMarks::going_start, crate::proofs::PlacedMarks::going_all))]
#[cycle(placing)]
fn placed_kids(
    alloc: Global,
    kids: Vec<Draft>,
    places: &mut Vec<usize>,
    count: usize,
) -> Result<Vec<Tree<Absurd>>, AllocError>
    requires { count ≤ length places.old.items }
    ensures same { OnOk result (places.new.items ≡ places.old.items) }
    ensures placed { IfOk result (λ made. KidsPlaced places.old.items count (back_kids kids.items none) (list_kids made.items)) }
{
    let mut left = kids;
    let mut made = Vec::new(alloc);
    while let Some(kid) = left.pop() {
        let tree = placed_child(alloc, kid, places, count)?;
        made.push(tree).map_err(AllocError::from)?;
    }
    Ok(made)
}
