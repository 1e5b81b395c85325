//! The items outside of plans and claims.
ghost use Rattle.std.specs.Prelude.{◌≡◌, ◌∷◌, [], codes, decimal, ℕ, List, IfOk, MatchOption};
ghost use Rattle.ac_syntax.specs.declared.tree.Position.{Position};
ghost use Rattle.ac_prooftext_lines.specs.ItemReaders.{Reads, IsSpellableHead};
ghost use Rattle.ac_prooftext_lines.specs.Spellable.{IsIndex, IsSpellablePosition};
ghost use Rattle.ac_prooftext_lines.specs.Spelling.{item_words, position_word};

use crate::fields::{one_natural, three_naturals, two_naturals};
use crate::lists::{integers, shapes};
use crate::positions::read_position;
use crate::words::{Words, is};
use ac_claims::item::Item;
use ac_syntax::tree::Position;
use std::alloc::{AllocError, Global};

fn point_item(alloc: Global, words: &Words<'_>) -> Result<Option<Item>, AllocError>
    ensures { IfOk result (λ found. Reads IsSpellableHead item_words (codes "point" ∷ words.now) found) }
{
    let Some(values) = integers(alloc, words)? else {
        return Ok(None);
    };
    Ok(Some(Item::Point(values)))
}

fn left_item(alloc: Global, words: &Words<'_>) -> Result<Option<Item>, AllocError>
    ensures { IfOk result (λ found. Reads IsSpellableHead item_words (codes "left" ∷ words.now) found) }
{
    let Some(pairs) = shapes(alloc, words)? else {
        return Ok(None);
    };
    Ok(Some(Item::Left(pairs)))
}

fn right_item(alloc: Global, words: &Words<'_>) -> Result<Option<Item>, AllocError>
    ensures { IfOk result (λ found. Reads IsSpellableHead item_words (codes "right" ∷ words.now) found) }
{
    let Some(pairs) = shapes(alloc, words)? else {
        return Ok(None);
    };
    Ok(Some(Item::Right(pairs)))
}

fn claims_item(words: &Words<'_>) -> Option<Item>
    ensures { Reads IsSpellableHead item_words (codes "claims" ∷ words.now) result }
{
    let Some(claims) = one_natural(words) else {
        return None;
    };
    Some(Item::Claims(claims))
}

/// The position that the next word spells, which is passed.
fn next_position(words: &mut Words<'_>) -> Option<Position>
    ensures { MatchOption result ((P : Position) (rest : List (List ℕ)) → IsSpellablePosition P → ¬ (words.old ≡ position_word P ∷ rest)) (λ P. IsSpellablePosition P × (words.old ≡ position_word P ∷ words.new)) }
{
    let Some(word) = words.next() else {
        return None;
    };
    read_position(word)
}

/// Two positions and a number.
fn positions_natural(words: &Words<'_>) -> Option<(Position, Position, usize)>
    ensures { Reads (λ (p : Position × Position × ℕ). IsSpellablePosition p.0 × IsSpellablePosition p.1 × IsIndex p.2) (λ p. position_word p.0 ∷ position_word p.1 ∷ decimal p.2 ∷ []) words.now result }
{
    let mut words = words.again();
    let Some(left) = next_position(&mut words) else {
        return None;
    };
    let Some(right) = next_position(&mut words) else {
        return None;
    };
    let Some(rows) = words.last_natural() else {
        return None;
    };
    Some((left, right, rows))
}

fn claim_item(words: &Words<'_>) -> Option<Item>
    ensures { Reads IsSpellableHead item_words (codes "claim" ∷ words.now) result }
{
    let Some((left, right, rows)) = positions_natural(words) else {
        return None;
    };
    Some(Item::Claim { left, right, rows })
}

fn output_item(words: &Words<'_>) -> Option<Item>
    ensures { Reads IsSpellableHead item_words (codes "output" ∷ words.now) result }
{
    let Some((array, claim)) = two_naturals(words) else {
        return None;
    };
    Some(Item::Output { array, claim })
}

fn tree_item(words: &Words<'_>) -> Option<Item>
    ensures { Reads IsSpellableHead item_words (codes "tree" ∷ words.now) result }
{
    let Some((claim, left_piece, right_piece)) = three_naturals(words) else {
        return None;
    };
    Some(Item::Tree {
        claim,
        left_piece,
        right_piece,
    })
}

fn end_item(words: &Words<'_>) -> Option<Item>
    ensures { Reads IsSpellableHead item_words (codes "end" ∷ words.now) result }
{
    if words.is_done() {
        Some(Item::End)
    } else {
        None
    }
}

/// The item outside of plans and claims that words spell.
pub fn read_head(alloc: Global, words: &Words<'_>) -> Result<Option<Item>, AllocError>
    ensures { IfOk result (λ found. Reads IsSpellableHead item_words words.now found) }
{
    let mut words = words.again();
    let Some(name) = words.next() else {
        return Ok(None);
    };
    if is(name, b"point") {
        return point_item(alloc, &words);
    }
    if is(name, b"left") {
        return left_item(alloc, &words);
    }
    if is(name, b"right") {
        return right_item(alloc, &words);
    }
    if is(name, b"claims") {
        return Ok(claims_item(&words));
    }
    if is(name, b"claim") {
        return Ok(claim_item(&words));
    }
    if is(name, b"output") {
        return Ok(output_item(&words));
    }
    if is(name, b"tree") {
        return Ok(tree_item(&words));
    }
    if is(name, b"end") {
        return Ok(end_item(&words));
    }
    Ok(None)
}
