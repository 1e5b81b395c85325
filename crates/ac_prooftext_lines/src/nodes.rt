//! The branches and the ends of plans.
ghost use Rattle.std.specs.Prelude.{◌≡◌, ◌∷◌, [], codes, decimal, ℕ, List, Option, IfOk, MatchOption};
ghost use Rattle.ac_syntax.specs.declared.tree.Order.{Order};
ghost use Rattle.ac_prooftext_lines.specs.ItemReaders.{Reads, IsSpellableNode};
ghost use Rattle.ac_prooftext_lines.specs.Spellable.{IsIndex, IsSpellableLevel};
ghost use Rattle.ac_prooftext_lines.specs.Spelling.{item_words, order_word, level_word};

use crate::fields::one_natural;
use crate::forms::read_form;
use crate::numbers::natural;
use crate::rows::modulus_form;
use crate::words::{Words, is};
use ac_claims::item::Item;
use ac_syntax::tree::Order;
use std::alloc::{AllocError, Global};

fn split_item(alloc: Global, words: &Words<'_>) -> Result<Option<Item>, AllocError>
    ensures { IfOk result (λ found. Reads IsSpellableNode item_words (codes "split" ∷ words.now) found) }
{
    let Some(form) = read_form(alloc, words)? else {
        return Ok(None);
    };
    Ok(Some(Item::Split(form)))
}

fn residue_item(alloc: Global, words: &Words<'_>) -> Result<Option<Item>, AllocError>
    ensures { IfOk result (λ found. Reads IsSpellableNode item_words (codes "residue" ∷ words.now) found) }
{
    let Some((modulus, form)) = modulus_form(alloc, words)? else {
        return Ok(None);
    };
    Ok(Some(Item::Residue(modulus, form)))
}

/// The order of arguments that the next word names, which is passed.
fn next_order(words: &mut Words<'_>) -> Option<Order>
    ensures { MatchOption result ((o : Order) (rest : List (List ℕ)) → ¬ (words.old ≡ order_word o ∷ rest)) (λ o. words.old ≡ order_word o ∷ words.new) }
{
    let Some(word) = words.next() else {
        return None;
    };
    if is(word, b"keep") {
        return Some(Order::Keep);
    }
    if is(word, b"swap") {
        return Some(Order::Swap);
    }
    None
}

/// An order of arguments and a number.
fn order_natural(words: &Words<'_>) -> Option<(Order, usize)>
    ensures { Reads (λ (p : Order × ℕ). IsIndex p.1) (λ p. order_word p.0 ∷ decimal p.1 ∷ []) words.now result }
{
    let mut words = words.again();
    let Some(order) = next_order(&mut words) else {
        return None;
    };
    let Some(cases) = words.last_natural() else {
        return None;
    };
    Some((order, cases))
}

fn go_item(words: &Words<'_>) -> Option<Item>
    ensures { Reads IsSpellableNode item_words (codes "go" ∷ words.now) result }
{
    let Some((order, cases)) = order_natural(words) else {
        return None;
    };
    Some(Item::Go { order, cases })
}

fn absurd_item(words: &Words<'_>) -> Option<Item>
    ensures { Reads IsSpellableNode item_words (codes "absurd" ∷ words.now) result }
{
    let Some(row) = one_natural(words) else {
        return None;
    };
    Some(Item::Absurd(row))
}

fn hit_item(words: &Words<'_>) -> Option<Item>
    ensures { Reads IsSpellableNode item_words (codes "hit" ∷ words.now) result }
{
    let Some(claim) = one_natural(words) else {
        return None;
    };
    Some(Item::Hit(claim))
}

fn number_item(words: &Words<'_>) -> Option<Item>
    ensures { Reads IsSpellableNode item_words (codes "number" ∷ words.now) result }
{
    if words.is_done() {
        Some(Item::Number)
    } else {
        None
    }
}

fn initial_item(words: &Words<'_>) -> Option<Item>
    ensures { Reads IsSpellableNode item_words (codes "initial" ∷ words.now) result }
{
    if words.is_done() {
        Some(Item::Initial)
    } else {
        None
    }
}

/// The level that a word spells, `-` for none.
fn read_level(word: &[u8]) -> Option<Option<usize>>
    ensures { Reads IsSpellableLevel level_word word.now result }
{
    if is(word, b"-") {
        return Some(None);
    }
    let Some(level) = natural(word) else {
        return None;
    };
    Some(Some(level))
}

/// The level that the next word spells, which is passed.
fn next_level(words: &mut Words<'_>) -> Option<Option<usize>>
    ensures { MatchOption result ((l : Option ℕ) (rest : List (List ℕ)) → IsSpellableLevel l → ¬ (words.old ≡ level_word l ∷ rest)) (λ l. IsSpellableLevel l × (words.old ≡ level_word l ∷ words.new)) }
{
    let Some(word) = words.next() else {
        return None;
    };
    read_level(word)
}

/// A copy: its assignment, its piece, the two levels and the number of its choices.
fn copy_fields(words: &Words<'_>) -> Option<(usize, usize, Option<usize>, usize, usize)>
    ensures { Reads (λ (p : ℕ × ℕ × Option ℕ × ℕ × ℕ). IsIndex p.0 × IsIndex p.1 × IsSpellableLevel p.2 × IsIndex p.3 × IsIndex p.4) (λ p. decimal p.0 ∷ decimal p.1 ∷ level_word p.2 ∷ decimal p.3 ∷ decimal p.4 ∷ []) words.now result }
{
    let mut words = words.again();
    let Some(stmt) = words.natural() else {
        return None;
    };
    let Some(piece) = words.natural() else {
        return None;
    };
    let Some(after) = next_level(&mut words) else {
        return None;
    };
    let Some(before) = words.natural() else {
        return None;
    };
    let Some(choices) = words.last_natural() else {
        return None;
    };
    Some((stmt, piece, after, before, choices))
}

fn killed_item(words: &Words<'_>) -> Option<Item>
    ensures { Reads IsSpellableNode item_words (codes "killed" ∷ words.now) result }
{
    let Some((stmt, piece, after, before, choices)) = copy_fields(words) else {
        return None;
    };
    Some(Item::Killed {
        stmt,
        piece,
        after,
        before,
        choices,
    })
}

/// The branch or the end of a plan that words spell.
pub fn read_node(alloc: Global, words: &Words<'_>) -> Result<Option<Item>, AllocError>
    ensures { IfOk result (λ found. Reads IsSpellableNode item_words words.now found) }
{
    let mut words = words.again();
    let Some(name) = words.next() else {
        return Ok(None);
    };
    if is(name, b"split") {
        return split_item(alloc, &words);
    }
    if is(name, b"residue") {
        return residue_item(alloc, &words);
    }
    if is(name, b"go") {
        return Ok(go_item(&words));
    }
    if is(name, b"absurd") {
        return Ok(absurd_item(&words));
    }
    if is(name, b"hit") {
        return Ok(hit_item(&words));
    }
    if is(name, b"number") {
        return Ok(number_item(&words));
    }
    if is(name, b"initial") {
        return Ok(initial_item(&words));
    }
    if is(name, b"killed") {
        return Ok(killed_item(&words));
    }
    Ok(None)
}
