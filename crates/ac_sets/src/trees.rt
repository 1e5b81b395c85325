//! The tree of a difference, row by row of what is taken away.
ghost use Rattle.std.specs.Prelude.{◌≡◌, ℕ, ◌+◌, ◌≤◌, length, None, IfOk};
ghost use Rattle.ac_forms.specs.Negation.{NegationFits};
ghost use Rattle.ac_forms.specs.Rows.{IsRowOver, AreRowsOver};
ghost use Rattle.ac_forms.specs.FormStops.{MadeWhere};
ghost use Rattle.ac_forms.specs.declared.conj.Conj.{Conj};
ghost use Rattle.ac_forms.specs.declared.row.Row.TheVariants.{Eq, Div, Ge};
ghost use Rattle.ac_cert.specs.AcceptedTrees.{Accepts};
ghost use Rattle.ac_cert.specs.CertificateFaults.{Refusal};
ghost use Rattle.ac_sets.specs.SetDifferences.{NegationsFit};
ghost use Rattle.ac_sets.specs.DifferencePaths.{LeadsOn, Leads};
ghost use Rattle.ac_sets.specs.declared.parts.Part.{Part};
ghost use Rattle.ac_sets.specs.declared.parts.Part.TheVariants.{Piece};

use crate::parts::Part;
use ac_cert::{Tree, at_divisibility, at_equality, at_inequality, end_tree};
use ac_forms::{Form, FormStop, Row};
use std::alloc::{AllocError, Global};

/// The tree of the rows that are taken away, from a path with so many columns and rows on, whose pieces have numbers
/// from `piece` on. More rows or columns than a `usize` counts are want of memory.
pub(crate) fn tree_from(
    alloc: Global,
    rows: &[Row],
    columns: usize,
    count: usize,
    piece: usize,
) -> Result<Tree<Part>, FormStop>
    requires over { AreRowsOver columns rows.now }
    requires fits { NegationsFit rows.now }
    ensures { MadeWhere result (NegationsFit rows.now) (Leads rows.now columns count piece) }
{
    let [row, rest @ ..] = rows else {
        return Ok(end_tree(alloc, Part::Inside));
    };
    match row {
        Row::Eq(form) => {
            let onward = tree_from(alloc, rest, columns, sum(count, 3)?, sum(piece, 2)?)?;
            equality_tree(alloc, form, columns, count, piece, onward)
        }
        Row::Div(modulus, form) => {
            let wider = sum(columns, 1)?;
            let onward = tree_from(alloc, rest, wider, sum(count, 6)?, sum(piece, 1)?)?;
            divisibility_tree(alloc, modulus, form, columns, count, piece, onward)
        }
        Row::Ge(form) => {
            let onward = tree_from(alloc, rest, columns, sum(count, 1)?, sum(piece, 1)?)?;
            Ok(inequality_tree(alloc, form, piece, onward)?)
        }
    }
}

/// The sum of two counts; one that is too great is want of memory.
fn sum(count: usize, more: usize) -> Result<usize, AllocError>
    ensures { IfOk result (λ sum. sum ≡ count + more) }
{
    match count.checked_add(more) {
        Some(sum) => Ok(sum),
        None => Err(AllocError),
    }
}

/// The tree of the end at a piece.
fn at_piece(alloc: Global, piece: usize) -> Tree<Part>
    ensures { (refusal : Refusal Part) (c : Conj) → refusal (Piece piece) c ≡ None → Accepts result refusal c }
{
    end_tree(alloc, Part::Piece(piece))
}

/// Where the form is at least 0 the tree goes on.
fn inequality_tree(
    alloc: Global,
    form: &Form,
    piece: usize,
    onward: Tree<Part>,
) -> Result<Tree<Part>, AllocError>
    requires { NegationFits (Ge form.now) }
    ensures { IfOk result (λ t. (columns : ℕ) (count : ℕ) → length form.now.coefs ≤ columns → LeadsOn (Ge form.now) columns count piece onward t) }
{
    let below = at_piece(alloc, piece);
    let tree = at_inequality(alloc, form, onward, below)?;
    Ok(tree)
}

/// Where the form is 0 the tree goes on, behind both inequalities and the equality.
fn equality_tree(
    alloc: Global,
    form: &Form,
    columns: usize,
    count: usize,
    piece: usize,
    onward: Tree<Part>,
) -> Result<Tree<Part>, FormStop>
    requires over { IsRowOver columns (Eq form.now) }
    requires fits { NegationFits (Eq form.now) }
    ensures { MadeWhere result (NegationFits (Eq form.now)) (LeadsOn (Eq form.now) columns count piece onward) }
{
    let above = at_piece(alloc, piece);
    let below = at_piece(alloc, sum(piece, 1)?);
    let tree = at_equality(alloc, form, count, onward, above, below)?;
    Ok(tree)
}

/// Where the modulus divides the form the tree goes on: the form less the modulus times its quotient is 0.
fn divisibility_tree(
    alloc: Global,
    modulus: &i128,
    form: &Form,
    columns: usize,
    count: usize,
    piece: usize,
    onward: Tree<Part>,
) -> Result<Tree<Part>, FormStop>
    requires over { IsRowOver columns (Div modulus.now form.now) }
    requires fits { NegationFits (Div modulus.now form.now) }
    ensures { MadeWhere result (NegationFits (Div modulus.now form.now)) (LeadsOn (Div modulus.now form.now) columns count piece onward) }
{
    let between = at_piece(alloc, piece);
    let tree = at_divisibility(alloc, modulus, form, columns, count, onward, between)?;
    Ok(tree)
}
