//! Reading expressions: recursive descent, one token of look-ahead.

ghost use Rattle.std.specs.Prelude.{◌≡◌, ◌+◌, Some, None, IfOk, IfErr, OnOk, OnErr};
ghost use Rattle.ac_lex.specs.Lexemes.{lexeme_of};
ghost use Rattle.ac_parse_grammar.specs.Terminals.{rounds_up};
ghost use Rattle.ac_parse_grammar.specs.ReaderCombinators.{Reads, found, operator, rest, front};
ghost use Rattle.ac_parse_grammar.specs.Expressions as spec;
ghost use Rattle.ac_parse_grammar.specs.Grammar.{IsExpr};
ghost use Rattle.ac_parse_grammar.specs.GrammarAnswers.{IsAnswer, FindsAll};
ghost use Rattle.ac_parse_grammar.specs.Operators.{sign_of, star_of};

use crate::boxed::Boxed;
use crate::cursor::{Cursor, Stop};
use crate::links::Links;
use crate::terminal::{Terminal, terminal_of};
use crate::tree::{Expr, Operator, Word};
use crate::words::{name, numeral, place, word};
use ac_base::Items;
use ac_lex::tokens::Token;
use std::alloc::Global;

/// The operator of a sum that a terminal stands for.
fn sign_of(terminal: Terminal) -> Option<Operator>
    ensures { result ≡ sign_of terminal }
{
    match terminal {
        Terminal::Plus => Some(Operator::Add),
        Terminal::Minus => Some(Operator::Subtract),
        _ => None,
    }
}

/// The operator of a product that a terminal stands for.
fn star_of(terminal: Terminal) -> Option<Operator>
    ensures { result ≡ star_of terminal }
{
    match terminal {
        Terminal::Star => Some(Operator::Multiply),
        Terminal::Slash => Some(Operator::Divide),
        Terminal::Percent => Some(Operator::Remainder),
        _ => None,
    }
}

/// A sign, if one comes next, which is passed.
#[tactic(auto, unfolding(crate::specs::ReaderCombinators::operator))]
fn sign(tokens: &mut Cursor<'_>) -> Option<Operator>
    ensures { operator sign_of tokens.old ≡ found result tokens.new }
{
    let sign = sign_of(tokens.peek())?;
    tokens.take();
    Some(sign)
}

/// An operator of a product, if one comes next, which is passed.
#[tactic(auto, unfolding(crate::specs::ReaderCombinators::operator))]
fn star(tokens: &mut Cursor<'_>) -> Option<Operator>
    ensures { operator star_of tokens.old ≡ found result tokens.new }
{
    let star = star_of(tokens.peek())?;
    tokens.take();
    Some(star)
}

/// A comma, if one comes next, which is passed.
#[tactic(auto, unfolding(crate::specs::ReaderCombinators::operator))]
pub fn comma(tokens: &mut Cursor<'_>) -> Option<()>
    ensures { operator spec.comma_of tokens.old ≡ found result tokens.new }
{
    match tokens.peek() {
        Terminal::Comma => {}
        _ => return None,
    }
    tokens.take();
    Some(())
}

/// Passes the token that opens a construct, and answers how many may open inside.
#[tactic(auto, unfolding(crate::specs::Expressions::below), using(crate::proofs::Rooms::below_some))]
pub fn open(tokens: &mut Cursor<'_>, room: usize) -> Result<usize, Stop>
    ensures inner { IfOk result (λ inner. (spec.below room ≡ Some (spec.unary inner)) × (inner + 1 ≡ room)) }
    ensures rest { OnOk result (tokens.new ≡ rest tokens.old) }
    ensures err { IfErr result (λ stop. (stop ≡ Stop.Nesting) × (spec.below room ≡ None) × (room ≡ 0)) }
    ensures same { OnErr result (tokens.new ≡ tokens.old) }
{
    if room == 0 {
        return Err(Stop::Nesting);
    }
    tokens.take();
    Ok(room - 1)
}

/// The expression at the front of the tokens, in which at most `room` constructs nest. It is passed; what follows does not go
/// on with it. The tokens that are left after a fault begin at its token.
#[tactic(auto, using(crate::proofs::Public::expr_answer, crate::proofs::Public::expr_finds))]
pub fn expression(alloc: Global, tokens: &mut Cursor<'_>, room: usize) -> Result<Expr, Stop>
    // What is found is the grammar's, and a fault is the first one.
    ensures answer { IsAnswer IsExpr (λ _. spec.goes_on) room tokens.old result tokens.new }
    // What is the grammar's is found, unless memory fails.
    ensures all { FindsAll (IsExpr room) (λ _. spec.goes_on) tokens.old result tokens.new }
{
    expr(alloc, tokens, room)
}

/// An expression, in which at most `room` constructs nest.
#[cycle(expressions)]
#[tactic(auto, unfolding(crate::specs::Expressions::expr_of))]
pub fn expr(alloc: Global, tokens: &mut Cursor<'_>, room: usize) -> Result<Expr, Stop>
    ensures { Reads (λ e. e) (spec.expr room tokens.old) result tokens.new }
{
    let first = term(alloc, tokens, room)?;
    let sum = sum(alloc, tokens, room, first)?;
    Ok(sum)
}

/// A sum, behind its first term.
#[cycle(expressions)]
#[tactic(auto, unfolding(crate::specs::Expressions::sum), using(crate::proofs::Rooms::no_sign))]
pub fn sum(alloc: Global, tokens: &mut Cursor<'_>, room: usize, first: Expr) -> Result<Expr, Stop>
    ensures { Reads (λ e. e) (spec.sum (spec.unary room) first tokens.old) result tokens.new }
{
    if sign_of(tokens.peek()).is_none() {
        return Ok(first);
    }
    let links = terms(alloc, tokens, room, first)?;
    Ok(links.into_expr())
}

#[cycle(expressions)]
#[tactic(auto, unfolding(crate::specs::Expressions::terms, crate::specs::ReaderCombinators::repeat, crate::specs::ReaderCombinators::repeat_from), using(crate::proofs::Rooms::turns))]
fn terms(alloc: Global, tokens: &mut Cursor<'_>, room: usize, first: Expr) -> Result<Links, Stop>
    ensures { Reads (λ links. links) (spec.terms (spec.unary room) first tokens.old) result tokens.new }
{
    let mut links = Links::new(alloc, first)?;
    for _turn in 0..tokens.count() {
        let Some(operator) = sign(tokens) else {
            return Ok(links);
        };
        let operand = term(alloc, tokens, room)?;
        links.add(operator, operand)?;
    }
    Ok(links)
}

#[cycle(expressions)]
#[tactic(auto, unfolding(crate::specs::Expressions::term_of))]
fn term(alloc: Global, tokens: &mut Cursor<'_>, room: usize) -> Result<Expr, Stop>
    ensures { Reads (λ e. e) (spec.term room tokens.old) result tokens.new }
{
    let first = unary(alloc, tokens, room)?;
    let product = product(alloc, tokens, room, first)?;
    Ok(product)
}

/// A product, behind its first operand.
#[cycle(expressions)]
#[tactic(auto, unfolding(crate::specs::Expressions::product), using(crate::proofs::Rooms::no_star))]
pub fn product(
    alloc: Global,
    tokens: &mut Cursor<'_>,
    room: usize,
    first: Expr,
) -> Result<Expr, Stop>
    ensures { Reads (λ e. e) (spec.product (spec.unary room) first tokens.old) result tokens.new }
{
    if star_of(tokens.peek()).is_none() {
        return Ok(first);
    }
    let links = factors(alloc, tokens, room, first)?;
    Ok(links.into_expr())
}

#[cycle(expressions)]
#[tactic(auto, unfolding(crate::specs::Expressions::factors, crate::specs::ReaderCombinators::repeat, crate::specs::ReaderCombinators::repeat_from), using(crate::proofs::Rooms::turns))]
fn factors(alloc: Global, tokens: &mut Cursor<'_>, room: usize, first: Expr) -> Result<Links, Stop>
    ensures { Reads (λ links. links) (spec.factors (spec.unary room) first tokens.old) result tokens.new }
{
    let mut links = Links::new(alloc, first)?;
    for _turn in 0..tokens.count() {
        let Some(operator) = star(tokens) else {
            return Ok(links);
        };
        let operand = unary(alloc, tokens, room)?;
        links.add(operator, operand)?;
    }
    Ok(links)
}

#[cycle(expressions)]
#[tactic(auto, unfolding(crate::specs::Expressions::unary, crate::specs::Expressions::unary_in))]
fn unary(alloc: Global, tokens: &mut Cursor<'_>, room: usize) -> Result<Expr, Stop>
    ensures { Reads (λ e. e) (spec.unary room tokens.old) result tokens.new }
{
    if tokens.sees(Terminal::Minus) {
        negated(alloc, tokens, room)
    } else {
        primary(alloc, tokens, room)
    }
}

#[cycle(expressions)]
#[tactic(auto, unfolding(crate::specs::Expressions::negated), using(crate::proofs::Rooms::negated_none, crate::proofs::Rooms::negated_some))]
fn negated(alloc: Global, tokens: &mut Cursor<'_>, room: usize) -> Result<Expr, Stop>
    ensures { Reads (λ e. e) (spec.negated (spec.below room) tokens.old) result tokens.new }
{
    let place = tokens.place();
    let room = open(tokens, room)?;
    let inner = unary(alloc, tokens, room)?;
    Ok(Expr::Negative {
        operand: Boxed::new(alloc, inner)?,
        place,
    })
}

/// A primary, behind which no other construct may open.
#[cycle(expressions)]
#[tactic(auto, unfolding(crate::specs::Expressions::primary, crate::specs::ReaderCombinators::ending))]
fn primary(alloc: Global, tokens: &mut Cursor<'_>, room: usize) -> Result<Expr, Stop>
    ensures { Reads (λ e. e) (spec.primary (spec.below room) tokens.old) result tokens.new }
{
    let primary = any_primary(alloc, tokens, room)?;
    if opens(tokens.peek()) {
        return Err(Stop::Syntax);
    }
    Ok(primary)
}

/// Whether this terminal opens an argument list or a subscript.
pub fn opens(terminal: Terminal) -> bool
    ensures { result ≡ spec.opens terminal }
{
    matches!(terminal, Terminal::Open | Terminal::OpenBracket)
}

#[cycle(expressions)]
#[tactic(auto, unfolding(crate::specs::Expressions::any_primary), using(crate::proofs::Spellings::decimal_fits))]
fn any_primary(alloc: Global, tokens: &mut Cursor<'_>, room: usize) -> Result<Expr, Stop>
    ensures { Reads (λ e. e) (spec.any_primary (spec.below room) tokens.old) result tokens.new }
{
    match tokens.peek() {
        Terminal::Number => Ok(Expr::Number(numeral(&tokens.take()))),
        Terminal::Decimal => {
            let token = tokens.take();
            Ok(Expr::Decimal(word(alloc, &token)?))
        }
        Terminal::Floord | Terminal::Ceild => quotient(alloc, tokens, room),
        Terminal::Open => group(alloc, tokens, room),
        _ => {
            let name = name(alloc, tokens)?;
            named(alloc, tokens, room, name)
        }
    }
}

#[cycle(expressions)]
#[tactic(auto, unfolding(crate::specs::Expressions::quotient))]
fn quotient(alloc: Global, tokens: &mut Cursor<'_>, room: usize) -> Result<Expr, Stop>
    ensures { Reads (λ e. e) (spec.quotient (spec.below room) tokens.old) result tokens.new }
{
    let word = tokens.take();
    division(alloc, tokens, room, &word)
}

/// A quotient, behind its word.
#[cycle(expressions)]
#[tactic(auto, unfolding(crate::specs::Expressions::division, crate::specs::Expressions::within), using(crate::proofs::Rooms::within_none, crate::proofs::Rooms::within_some))]
fn division(
    alloc: Global,
    tokens: &mut Cursor<'_>,
    room: usize,
    word: &Token<'_>,
) -> Result<Expr, Stop>
    ensures { Reads (λ e. e) (spec.division (spec.below room) (lexeme_of word.now) tokens.old) result tokens.new }
{
    if !tokens.sees(Terminal::Open) {
        return Err(Stop::Syntax);
    }
    let room = open(tokens, room)?;
    let quotient = divided(alloc, tokens, room, word)?;
    tokens.expect(Terminal::Close)?;
    Ok(quotient)
}

/// What a quotient divides, and its divisor.
#[cycle(expressions)]
#[tactic(auto, unfolding(crate::specs::Expressions::divided))]
fn divided(
    alloc: Global,
    tokens: &mut Cursor<'_>,
    room: usize,
    word: &Token<'_>,
) -> Result<Expr, Stop>
    ensures { Reads (λ e. e) (spec.divided (lexeme_of word.now) (spec.unary room) tokens.old) result tokens.new }
{
    let argument = expr(alloc, tokens, room)?;
    tokens.expect(Terminal::Comma)?;
    let divisor = tokens.expect(Terminal::Number)?;
    Ok(Expr::Quotient {
        up: rounds_up(terminal_of(word)),
        argument: Boxed::new(alloc, argument)?,
        divisor: numeral(&divisor),
        place: place(word),
    })
}

/// Whether the quotient that this word begins is rounded up.
fn rounds_up(word: Terminal) -> bool
    ensures { result ≡ rounds_up word }
{
    matches!(word, Terminal::Ceild)
}

#[cycle(expressions)]
#[tactic(auto, unfolding(crate::specs::Expressions::group))]
fn group(alloc: Global, tokens: &mut Cursor<'_>, room: usize) -> Result<Expr, Stop>
    ensures { Reads (λ e. e) (spec.group (spec.below room) tokens.old) result tokens.new }
{
    let place = tokens.place();
    let inner = held(alloc, tokens, room, Terminal::Close)?;
    Ok(Expr::Group {
        inner: Boxed::new(alloc, inner)?,
        place,
    })
}

/// A call or an access, behind its name.
#[cycle(expressions)]
#[tactic(auto, unfolding(crate::specs::Expressions::named))]
fn named(alloc: Global, tokens: &mut Cursor<'_>, room: usize, name: Word) -> Result<Expr, Stop>
    ensures { Reads (λ e. e) (spec.named (spec.below room) name tokens.old) result tokens.new }
{
    if tokens.sees(Terminal::Open) {
        let args = arguments(alloc, tokens, room)?;
        return Ok(Expr::Call { name, args });
    }
    let subs = subscripts(alloc, tokens, room)?;
    Ok(Expr::Access { name, subs })
}

/// Subscripts, or extents, in brackets.
#[cycle(expressions)]
#[tactic(auto, unfolding(crate::specs::Expressions::subscripts, crate::specs::ReaderCombinators::many, crate::specs::ReaderCombinators::many_from), using(crate::proofs::Rooms::turns))]
pub fn subscripts(alloc: Global, tokens: &mut Cursor<'_>, room: usize) -> Result<Items<Expr>, Stop>
    ensures { Reads (λ subs. subs) (spec.subscripts (spec.below room) tokens.old) result tokens.new }
{
    let mut subs = Items::new(alloc);
    for _turn in 0..tokens.count() {
        if !tokens.sees(Terminal::OpenBracket) {
            return Ok(subs);
        }
        let sub = held(alloc, tokens, room, Terminal::CloseBracket)?;
        subs.push(sub)?;
    }
    Ok(subs)
}

/// The expression that an opening and a closing token hold.
#[cycle(expressions)]
#[tactic(auto, unfolding(crate::specs::Expressions::within), using(crate::proofs::Rooms::within_none, crate::proofs::Rooms::within_some))]
fn held(alloc: Global, tokens: &mut Cursor<'_>, room: usize, close: Terminal) -> Result<Expr, Stop>
    ensures { Reads (λ e. e) (spec.within (spec.below room) spec.expr_of close tokens.old) result tokens.new }
{
    let room = open(tokens, room)?;
    let inner = expr(alloc, tokens, room)?;
    tokens.expect(close)?;
    Ok(inner)
}

#[cycle(expressions)]
#[tactic(auto, unfolding(crate::specs::Expressions::within), using(crate::proofs::Rooms::within_none, crate::proofs::Rooms::within_some))]
fn arguments(alloc: Global, tokens: &mut Cursor<'_>, room: usize) -> Result<Items<Expr>, Stop>
    ensures { Reads (λ args. args) (spec.within (spec.below room) spec.arguments Terminal.Close tokens.old) result tokens.new }
{
    let room = open(tokens, room)?;
    let args = list_or_none(alloc, tokens, room)?;
    tokens.expect(Terminal::Close)?;
    Ok(args)
}

#[cycle(expressions)]
#[tactic(auto, unfolding(crate::specs::Expressions::arguments))]
fn list_or_none(alloc: Global, tokens: &mut Cursor<'_>, room: usize) -> Result<Items<Expr>, Stop>
    ensures { Reads (λ args. args) (spec.arguments (spec.unary room) tokens.old) result tokens.new }
{
    if tokens.sees(Terminal::Close) {
        return Ok(Items::new(alloc));
    }
    list(alloc, tokens, room)
}

#[cycle(expressions)]
#[tactic(auto, unfolding(crate::specs::Expressions::list, crate::specs::ReaderCombinators::repeat, crate::specs::ReaderCombinators::repeat_from), using(crate::proofs::Rooms::turns))]
fn list(alloc: Global, tokens: &mut Cursor<'_>, room: usize) -> Result<Items<Expr>, Stop>
    ensures { Reads (λ items. items) (spec.list (spec.expr room) tokens.old) result tokens.new }
{
    let mut items = Items::new(alloc);
    let item = expr(alloc, tokens, room)?;
    items.push(item)?;
    for _turn in 0..tokens.count() {
        let Some(()) = comma(tokens) else {
            return Ok(items);
        };
        let item = expr(alloc, tokens, room)?;
        items.push(item)?;
    }
    Ok(items)
}
