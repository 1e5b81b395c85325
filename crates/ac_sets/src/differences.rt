//! The difference of two conjunctions.
ghost use Rattle.std.specs.Prelude.{◌≡◌, ◌↔◌, ◌++◌, map, ℕ, ℤ, List, length, OnOk, IfOk};
ghost use Rattle.ac_forms.specs.Negation.{negation, NegationFits, HasExtension};
ghost use Rattle.ac_forms.specs.PieceMembership.{IsInSome, IsInOneAtMost};
ghost use Rattle.ac_forms.specs.Rows.{IsWellMade, AreRowsOver, IsRowOver, Meets};
ghost use Rattle.ac_forms.specs.FormStops.{MadeWhere};
ghost use Rattle.ac_cert.specs.AcceptedTrees.{Accepts};
ghost use Rattle.ac_cert.specs.Cover.{IsCovered};
ghost use Rattle.ac_omega_steps.specs.IntegerPoints.{IsPoint};
ghost use Rattle.ac_sets.specs.SetDifferences.{further, outside, NegationsFit};
ghost use Rattle.ac_sets.specs.DifferenceEnds.{part_refusal, IsInPart};
ghost use Rattle.ac_sets.specs.Unions.{ArePieces, AreFixed};

use crate::parts::Part;
use crate::trees::tree_from;
use ac_base::Items;
use ac_cert::Tree;
use ac_forms::{Conj, FormStop, Row};
use std::alloc::{AllocError, Global};

/// The points of one conjunction outside another.
#[derive(Drop)]
pub struct Difference {
    /// The pieces. What columns a piece has behind those of the conjunctions are quotients, which its rows fix.
    pub pieces: Items<Conj>,
    /// The tree that covers the first conjunction by the pieces and by the second one.
    pub tree: Tree<Part>,
}

/// The points of `a` outside `b`, which has as many columns: for each row of `b`, in order, those that meet all rows
/// before it and not the row. `Wide` exactly where the negation of a row of `b` is.
pub fn subtract(alloc: Global, a: &Conj, b: &Conj) -> Result<Difference, FormStop>
    requires columns { a.now.columns ≡ b.now.columns }
    requires first { IsWellMade a.now }
    requires second { IsWellMade b.now }
    ensures exact { MadeWhere result (NegationsFit b.now.rows) (λ d. d.pieces ≡ outside a.now b.now.rows) }
    ensures points { IfOk result (λ d. (p : List ℤ) → length p ≡ a.now.columns → (Meets a.now.rows p × (¬ Meets b.now.rows p)) ↔ IsInSome HasExtension d.pieces p) }
    ensures apart { IfOk result (λ d. (p : List ℤ) → length p ≡ a.now.columns → IsInOneAtMost HasExtension d.pieces p) }
    ensures made { IfOk result (λ d. ArePieces a.now.columns d.pieces) }
    ensures fixed { IfOk result (λ d. AreFixed a.now.columns d.pieces) }
    ensures accepted { IfOk result (λ d. Accepts d.tree (λ e c. part_refusal (record { pieces = d.pieces; inside = b.now }) e c) a.now) }
    ensures cover { IfOk result (λ d. (p : List ℤ) → IsPoint a.now p → IsCovered d.tree (λ e q. IsInPart (record { pieces = d.pieces; inside = b.now }) e q) a.now p) }
{
    let pieces = pieces_outside(alloc, a, b.rows.as_slice())?;
    let tree = tree_from(alloc, b.rows.as_slice(), a.columns, a.rows.len(), 0)?;
    Ok(Difference { pieces, tree })
}

/// The pieces of the conjunction outside the rows.
#[tactic(auto, using(crate::proofs::Outsides::outside_steps))]
fn pieces_outside(alloc: Global, conj: &Conj, rows: &[Row]) -> Result<Items<Conj>, FormStop>
    requires { AreRowsOver conj.now.columns rows.now }
    ensures { MadeWhere result (NegationsFit rows.now) (λ pieces. pieces ≡ outside conj.now rows.now) }
{
    let mut here = conj.copy(alloc)?;
    let mut pieces = Items::new(alloc);
    for row in rows {
        push_outside(&mut pieces, alloc, &here, row)?;
        here.rows.push(row.copy(alloc)?)?;
    }
    Ok(pieces)
}

/// Adds the pieces of the conjunction outside a row.
fn push_outside(
    pieces: &mut Items<Conj>,
    alloc: Global,
    here: &Conj,
    row: &Row,
) -> Result<(), FormStop>
    requires { IsRowOver here.now.columns row.now }
    ensures { MadeWhere result (NegationFits row.now) (λ _. pieces.new ≡ pieces.old ++ map (further here.now) (negation here.now.columns row.now)) }
{
    for part in row.negate(alloc, here.columns)? {
        pieces.push(further(alloc, here, part)?)?;
    }
    Ok(())
}

/// The rows of both conjunctions, over the columns of the second.
fn further(alloc: Global, here: &Conj, part: Conj) -> Result<Conj, AllocError>
    ensures { IfOk result (λ made. made ≡ further here.now part) }
{
    let Conj { rows, .. } = here.copy(alloc)?;
    let mut rows = rows.into_vec();
    let Conj {
        columns,
        rows: others,
    } = part;
    let mut others = others.into_vec();
    rows.append(&mut others)?;
    Ok(Conj {
        columns,
        rows: Items::from(rows),
    })
}
