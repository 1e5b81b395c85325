//! Reading conditions. The tokens do not tell before its end whether a parenthesis holds a condition or an expression.

ghost use Rattle.std.specs.Prelude.{◌≡◌, ◌++◌, ◌∷◌, [], IfOk};
ghost use Rattle.ac_parse_grammar.specs.TokenWords.{place_of};
ghost use Rattle.ac_parse_grammar.specs.ReaderCombinators.{Reads, found, operator};
ghost use Rattle.ac_parse_grammar.specs.Expressions.{goes_on, unary, within};
ghost use Rattle.ac_parse_grammar.specs.Chains.{part_of};
ghost use Rattle.ac_parse_grammar.specs.Conditions as spec;
ghost use Rattle.ac_parse_grammar.specs.Operators.{relation_of};
ghost use Rattle.ac_parse_grammar.specs.Grammar.{IsCond};
ghost use Rattle.ac_parse_grammar.specs.GrammarAnswers.{IsAnswer, FindsAll};

use crate::boxed::Boxed;
use crate::cursor::{Cursor, Stop};
use crate::expressions::{expr, open, opens, product, sum};
use crate::terminal::Terminal;
use crate::tree::{Expr, Part, Relation};
use ac_base::Items;
use ac_syntax::tree::Place;
use std::alloc::{AllocError, Global};

/// A condition, or an expression.
#[derive(Drop)]
pub enum Mixed {
    Condition(Items<Part>),
    Expression(Expr),
}

/// A relation, if one comes next, which is passed.
#[tactic(auto, unfolding(crate::specs::ReaderCombinators::operator))]
fn relation(tokens: &mut Cursor<'_>) -> Option<Relation>
    ensures { operator relation_of tokens.old ≡ found result tokens.new }
{
    let relation = match tokens.peek() {
        Terminal::Less => Relation::Less,
        Terminal::AtMost => Relation::AtMost,
        Terminal::Greater => Relation::Greater,
        Terminal::AtLeast => Relation::AtLeast,
        Terminal::Equal => Relation::Equal,
        _ => return None,
    };
    tokens.take();
    Some(relation)
}

/// An `&&`, if one comes next, which is passed.
#[tactic(auto, unfolding(crate::specs::ReaderCombinators::operator))]
fn and(tokens: &mut Cursor<'_>) -> Option<()>
    ensures { operator spec.and_of tokens.old ≡ found result tokens.new }
{
    match tokens.peek() {
        Terminal::And => {}
        _ => return None,
    }
    tokens.take();
    Some(())
}

fn goes_on(terminal: Terminal) -> bool
    ensures { result ≡ goes_on terminal }
{
    matches!(
        terminal,
        Terminal::Plus
            | Terminal::Minus
            | Terminal::Star
            | Terminal::Slash
            | Terminal::Percent
            | Terminal::Open
            | Terminal::OpenBracket
    )
}

fn one_part(
    alloc: Global,
    left: Expr,
    relation: Relation,
    right: Expr,
) -> Result<Items<Part>, AllocError>
    ensures { IfOk result (λ parts. parts ≡ part_of left relation right ∷ []) }
{
    let mut parts = Items::new(alloc);
    parts.push(Part {
        left,
        relation,
        right,
    })?;
    Ok(parts)
}

fn joined(first: Items<Part>, second: Items<Part>) -> Result<Items<Part>, AllocError>
    ensures { IfOk result (λ parts. parts ≡ first ++ second) }
{
    let mut all = first.into_vec();
    let mut more = second.into_vec();
    all.append(&mut more)?;
    Ok(Items::from(all))
}

/// The condition at the front of the tokens, as `expression` reads an expression.
#[tactic(auto, using(crate::proofs::Public::cond_answer, crate::proofs::Public::cond_finds))]
pub fn condition(alloc: Global, tokens: &mut Cursor<'_>, room: usize) -> Result<Items<Part>, Stop>
    // What is found is the grammar's, and a fault is the first one.
    ensures answer { IsAnswer IsCond (λ _. spec.condition_goes_on) room tokens.old result tokens.new }
    // What is the grammar's is found, unless memory fails.
    ensures all { FindsAll (IsCond room) (λ _. spec.condition_goes_on) tokens.old result tokens.new }
{
    cond(alloc, tokens, room)
}

/// A condition, in which at most `room` constructs nest.
#[tactic(auto, unfolding(crate::specs::Conditions::cond))]
pub fn cond(alloc: Global, tokens: &mut Cursor<'_>, room: usize) -> Result<Items<Part>, Stop>
    ensures { Reads (λ parts. parts) (spec.cond room tokens.old) result tokens.new }
{
    match either(alloc, tokens, room)? {
        Mixed::Condition(parts) => Ok(parts),
        Mixed::Expression(_) => Err(Stop::Syntax),
    }
}

/// A condition or an expression.
#[cycle(conditions)]
#[tactic(auto, unfolding(crate::specs::Conditions::mixed_in))]
fn either(alloc: Global, tokens: &mut Cursor<'_>, room: usize) -> Result<Mixed, Stop>
    ensures { Reads (λ mixed. mixed) (spec.mixed room tokens.old) result tokens.new }
{
    match mixed_part(alloc, tokens, room)? {
        Mixed::Condition(first) => {
            let parts = parts(alloc, tokens, room, first)?;
            Ok(Mixed::Condition(parts))
        }
        Mixed::Expression(expression) => Ok(Mixed::Expression(expression)),
    }
}

/// The rest of a condition, behind its first part.
#[cycle(conditions)]
#[tactic(auto, unfolding(crate::specs::Conditions::parts, crate::specs::ReaderCombinators::repeat, crate::specs::ReaderCombinators::repeat_from), using(crate::proofs::Rooms::turns))]
fn parts(
    alloc: Global,
    tokens: &mut Cursor<'_>,
    room: usize,
    first: Items<Part>,
) -> Result<Items<Part>, Stop>
    ensures { Reads (λ parts. parts) (spec.parts (spec.mixed_below room) (unary room) first tokens.old) result tokens.new }
{
    let mut all = first;
    for _turn in 0..tokens.count() {
        let Some(()) = and(tokens) else {
            return Ok(all);
        };
        let more = part(alloc, tokens, room)?;
        all = joined(all, more)?;
    }
    Ok(all)
}

/// A part of a condition.
#[cycle(conditions)]
#[tactic(auto, unfolding(crate::specs::Conditions::part))]
fn part(alloc: Global, tokens: &mut Cursor<'_>, room: usize) -> Result<Items<Part>, Stop>
    ensures { Reads (λ parts. parts) (spec.part (spec.mixed_below room) (unary room) tokens.old) result tokens.new }
{
    match mixed_part(alloc, tokens, room)? {
        Mixed::Condition(parts) => Ok(parts),
        Mixed::Expression(_) => Err(Stop::Syntax),
    }
}

/// A part of a condition, or an expression.
#[cycle(conditions)]
#[tactic(auto, unfolding(crate::specs::Conditions::mixed_part))]
fn mixed_part(alloc: Global, tokens: &mut Cursor<'_>, room: usize) -> Result<Mixed, Stop>
    ensures { Reads (λ mixed. mixed) (spec.mixed_part (spec.mixed_below room) (unary room) tokens.old) result tokens.new }
{
    if tokens.sees(Terminal::Open) {
        let place = tokens.place();
        let inner = parenthesised(alloc, tokens, room)?;
        return behind(alloc, tokens, room, place, inner);
    }
    let left = expr(alloc, tokens, room)?;
    compared(alloc, tokens, room, left)
}

/// What a pair of parentheses holds.
#[cycle(conditions)]
#[tactic(auto, unfolding(crate::specs::Expressions::within), using(crate::proofs::Rooms::within_none, crate::proofs::Rooms::within_some, crate::proofs::MixedRooms::no_mixed, crate::proofs::MixedRooms::some_mixed))]
fn parenthesised(alloc: Global, tokens: &mut Cursor<'_>, room: usize) -> Result<Mixed, Stop>
    ensures { Reads (λ mixed. mixed) (within (spec.mixed_below room) (λ mixed. mixed) Terminal.Close tokens.old) result tokens.new }
{
    let room = open(tokens, room)?;
    let inner = either(alloc, tokens, room)?;
    tokens.expect(Terminal::Close)?;
    Ok(inner)
}

/// What a parenthesis at this place begins, behind what it holds.
#[tactic(auto, unfolding(crate::specs::Conditions::behind, crate::specs::ReaderCombinators::ending))]
fn behind(
    alloc: Global,
    tokens: &mut Cursor<'_>,
    room: usize,
    place: Place,
    inner: Mixed,
) -> Result<Mixed, Stop>
    ensures { Reads (λ mixed. mixed) (spec.behind (unary room) place inner tokens.old) result tokens.new }
{
    match inner {
        Mixed::Condition(parts) => {
            if goes_on(tokens.peek()) {
                return Err(Stop::Syntax);
            }
            Ok(Mixed::Condition(parts))
        }
        Mixed::Expression(inner) => {
            if opens(tokens.peek()) {
                return Err(Stop::Syntax);
            }
            let inner = Boxed::new(alloc, inner)?;
            let term = product(alloc, tokens, room, Expr::Group { inner, place })?;
            let left = sum(alloc, tokens, room, term)?;
            compared(alloc, tokens, room, left)
        }
    }
}

/// An expression, or its comparison with the one behind a relation.
#[tactic(auto, unfolding(crate::specs::Conditions::compared))]
fn compared(alloc: Global, tokens: &mut Cursor<'_>, room: usize, left: Expr) -> Result<Mixed, Stop>
    ensures { Reads (λ mixed. mixed) (spec.compared (unary room) left tokens.old) result tokens.new }
{
    let Some(relation) = relation(tokens) else {
        return Ok(Mixed::Expression(left));
    };
    let right = expr(alloc, tokens, room)?;
    Ok(Mixed::Condition(one_part(alloc, left, relation, right)?))
}
