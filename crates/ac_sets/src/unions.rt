//! Unions of conjunctions.
ghost use Rattle.std.specs.Prelude.{◌≡◌, ◌↔◌, ◌≤◌, ℤ, List, ◌++◌, take, map, length, IfOk, OnOk, IsTrue, MatchResult};
ghost use Rattle.ac_forms.specs.Rows.{IsWellMade};
ghost use Rattle.ac_sets.specs.SetIntersections.{common, common_pieces};
ghost use Rattle.ac_sets.specs.Unions.{IsUnion, ArePieces, AreFixed, AreWithin, Holds, CanSearch, IsMet};
ghost use Rattle.ac_forms.specs.PieceMembership.{IsInSome};

use crate::moves::common;
use ac_base::Items;
use ac_forms::{Conj, Wide};
use std::alloc::{AllocError, Global};

/// A union of conjunctions over visible columns. The columns of a piece from `visible` on are its quotients, which its
/// rows fix.
#[derive(Drop, PartialEq, Eq)]
pub struct Union {
    /// The number of visible columns.
    pub visible: usize,
    /// The pieces.
    pub pieces: Items<Conj>,
}

impl Union {
    /// Whether the union is well made: each piece is, and has the visible columns.
    #[tactic(auto, using(crate::proofs::Searches::pieces_steps))]
    pub fn is_well_made(&self) -> bool
        ensures { IsTrue result ↔ IsUnion self.now }
    {
        for piece in self.pieces.as_slice() {
            if piece.columns < self.visible || !piece.is_well_made() {
                return false;
            }
        }
        true
    }

    /// Whether no piece has more than that many columns.
    #[tactic(auto, using(crate::proofs::Searches::within_steps))]
    pub fn is_within(&self, columns: usize) -> bool
        ensures { IsTrue result ↔ AreWithin columns self.now.pieces }
    {
        for piece in self.pieces.as_slice() {
            if piece.columns > columns {
                return false;
            }
        }
        true
    }

    /// Whether a point, which has a number for each column of the widest piece, meets one of the pieces, each at its
    /// first numbers. The pieces and their rows are tested in order, up to the first that decides; `Wide` exactly where
    /// one up to there can't be evaluated in `i128`. It takes no memory.
    #[tactic(auto, using(crate::proofs::Searches::search_steps))]
    pub fn contains(&self, point: &[i128]) -> Result<bool, Wide>
        requires made { IsUnion self.now }
        requires columns { AreWithin (length point.now) self.now.pieces }
        ensures exact { MatchResult result (λ held. CanSearch self.now.pieces point.now × (IsTrue held ↔ IsInSome IsMet self.now.pieces point.now)) (λ _. ¬ CanSearch self.now.pieces point.now) }
        ensures holds { IfOk result (λ held. IsTrue held → Holds self.now (take self.now.visible point.now)) }
    {
        for piece in self.pieces.as_slice() {
            if piece.holds_at(&point[..piece.columns])? {
                return Ok(true);
            }
        }
        Ok(false)
    }
}

/// The points that both unions hold, which have the same visible columns: the rows of each two pieces, over the quotients
/// of the first and then those of the second. No number is formed. More columns than a `usize` counts are want of memory.
pub fn intersect(alloc: Global, a: &Union, b: &Union) -> Result<Union, AllocError>
    requires visible { a.now.visible ≡ b.now.visible }
    requires first { IsUnion a.now }
    requires second { IsUnion b.now }
    ensures visible { IfOk result (λ u. u.visible ≡ a.now.visible) }
    ensures pieces { IfOk result (λ u. u.pieces ≡ common_pieces a.now.visible a.now.pieces b.now.pieces) }
    ensures points { IfOk result (λ u. (p : List ℤ) → Holds u p ↔ (Holds a.now p × Holds b.now p)) }
    ensures made { IfOk result (λ u. IsUnion u) }
    ensures fixed { IfOk result (λ u. AreFixed a.now.visible a.now.pieces → AreFixed b.now.visible b.now.pieces → AreFixed u.visible u.pieces) }
{
    let pieces = common_to_both(alloc, a.visible, a.pieces.as_slice(), b.pieces.as_slice())?;
    Ok(Union {
        visible: a.visible,
        pieces,
    })
}

/// Each piece of the first list with each of the second.
fn common_to_both(
    alloc: Global,
    visible: usize,
    first: &[Conj],
    second: &[Conj],
) -> Result<Items<Conj>, AllocError>
    requires first { ArePieces visible first.now }
    requires second { ArePieces visible second.now }
    ensures { IfOk result (λ pieces. pieces ≡ common_pieces visible first.now second.now) }
{
    let mut pieces = Items::new(alloc);
    for piece in first {
        push_common(&mut pieces, alloc, visible, piece, second)?;
    }
    Ok(pieces)
}

/// Adds a piece with each of a list.
fn push_common(
    pieces: &mut Items<Conj>,
    alloc: Global,
    visible: usize,
    piece: &Conj,
    others: &[Conj],
) -> Result<(), AllocError>
    requires columns { visible ≤ piece.now.columns }
    requires others { ArePieces visible others.now }
    ensures { OnOk result (pieces.new ≡ pieces.old ++ map (common visible piece.now) others.now) }
{
    for other in others {
        pieces.push(common(alloc, visible, piece, other)?)?;
    }
    Ok(())
}
