//! Statements, by recursive descent with one token of look-ahead.

ghost use Rattle.std.specs.Prelude.{◌≡◌, [], ◌∷◌, IfOk};
ghost use Rattle.ac_lex.specs.Lexemes.{lexeme_of};
ghost use Rattle.ac_parse_grammar.specs.ReaderCombinators.{Reads, found};
ghost use Rattle.ac_parse_grammar.specs.StatementsReading as spec;

use crate::conditions::cond;
use crate::constructs::{joined, open};
use crate::cursor::{Cursor, Stop};
use crate::expressions::{expr, subscripts};
use crate::terminal::Terminal;
use crate::tree::{Expr, Numeral, Operator, Part, Statement, Step, Word};
use crate::words::{is_name, name, numeral, place};
use ac_base::Items;
use ac_lex::tokens::Token;
use std::alloc::{AllocError, Global};

/// What stands in the parentheses of a loop.
#[derive(Drop)]
pub struct LoopHeader {
    pub typed: bool,
    pub name: Word,
    pub start: Expr,
    pub cond: Items<Part>,
    pub step: Step,
}

fn one(alloc: Global, statement: Statement) -> Result<Items<Statement>, AllocError>
    ensures { IfOk result (λ all. all ≡ statement ∷ []) }
{
    let mut all = Items::new(alloc);
    all.push(statement)?;
    Ok(all)
}

/// A step of one, at the place of its sign.
fn unit_step(target: Word, down: bool, sign: &Token<'_>) -> Step
    ensures { result ≡ spec.unit_step target down (lexeme_of sign.now) }
{
    let place = place(sign);
    Step {
        target,
        source: None,
        down,
        by: Numeral { number: 1, place },
    }
}

fn signed_step(
    tokens: &mut Cursor<'_>,
    target: Word,
    source: Option<Word>,
    down: bool,
) -> Result<Step, Stop>
    ensures { Reads (λ x. x) (spec.signed_step target source down tokens.old) result tokens.new }
{
    let by = tokens.expect(Terminal::Number)?;
    Ok(Step {
        target,
        source,
        down,
        by: numeral(&by),
    })
}

/// What stands behind the source of a step.
#[tactic(auto, unfolding(crate::specs::StatementsReading::moved))]
fn moved(tokens: &mut Cursor<'_>, target: Word, source: Word) -> Result<Step, Stop>
    ensures { Reads (λ x. x) (spec.moved target source tokens.old) result tokens.new }
{
    let down = match tokens.peek() {
        Terminal::Plus => false,
        Terminal::Minus => true,
        _ => return Err(Stop::Syntax),
    };
    tokens.take();
    signed_step(tokens, target, Some(source), down)
}

/// What stands behind the name of a step.
#[tactic(auto, unfolding(crate::specs::StatementsReading::step_behind))]
fn step_behind(alloc: Global, tokens: &mut Cursor<'_>, target: Word) -> Result<Step, Stop>
    ensures { Reads (λ x. x) (spec.step_behind target tokens.old) result tokens.new }
{
    match tokens.peek() {
        Terminal::PlusPlus => Ok(unit_step(target, false, &tokens.take())),
        Terminal::MinusMinus => Ok(unit_step(target, true, &tokens.take())),
        Terminal::PlusBecomes => {
            tokens.take();
            signed_step(tokens, target, None, false)
        }
        Terminal::MinusBecomes => {
            tokens.take();
            signed_step(tokens, target, None, true)
        }
        Terminal::Becomes => {
            tokens.take();
            let source = name(alloc, tokens)?;
            moved(tokens, target, source)
        }
        _ => Err(Stop::Syntax),
    }
}

#[tactic(auto, unfolding(crate::specs::StatementsReading::step))]
fn step(alloc: Global, tokens: &mut Cursor<'_>) -> Result<Step, Stop>
    ensures { Reads (λ x. x) (spec.step tokens.old) result tokens.new }
{
    match tokens.peek() {
        Terminal::PlusPlus => {
            let sign = tokens.take();
            let target = name(alloc, tokens)?;
            Ok(unit_step(target, false, &sign))
        }
        Terminal::MinusMinus => {
            let sign = tokens.take();
            let target = name(alloc, tokens)?;
            Ok(unit_step(target, true, &sign))
        }
        _ => {
            let target = name(alloc, tokens)?;
            step_behind(alloc, tokens, target)
        }
    }
}

/// Passes `=`, or an operator with `=` behind it.
#[tactic(auto, unfolding(crate::specs::StatementsReading::becomes))]
fn becomes(tokens: &mut Cursor<'_>) -> Result<Option<Operator>, Stop>
    ensures { Reads (λ x. x) (spec.becomes tokens.old) result tokens.new }
{
    let operator = match tokens.peek() {
        Terminal::Becomes => None,
        Terminal::PlusBecomes => Some(Operator::Add),
        Terminal::MinusBecomes => Some(Operator::Subtract),
        Terminal::StarBecomes => Some(Operator::Multiply),
        Terminal::SlashBecomes => Some(Operator::Divide),
        Terminal::PercentBecomes => Some(Operator::Remainder),
        _ => return Err(Stop::Syntax),
    };
    tokens.take();
    Ok(operator)
}

#[tactic(auto, unfolding(crate::specs::StatementsReading::assignment))]
fn assignment(alloc: Global, tokens: &mut Cursor<'_>, room: usize) -> Result<Items<Statement>, Stop>
    ensures { Reads (λ x. x) (spec.assignment room tokens.old) result tokens.new }
{
    let target = name(alloc, tokens)?;
    let subs = subscripts(alloc, tokens, room)?;
    let operator = becomes(tokens)?;
    let value = expr(alloc, tokens, room)?;
    tokens.expect(Terminal::Semicolon)?;
    let assign = Statement::Assign {
        target,
        subs,
        operator,
        value,
    };
    Ok(one(alloc, assign)?)
}

/// Passes the type of a loop's name, if it has one.
#[tactic(auto, unfolding(crate::specs::StatementsReading::typed))]
fn typed(tokens: &mut Cursor<'_>) -> bool
    ensures { spec.typed tokens.old ≡ found result tokens.new }
{
    match tokens.peek() {
        Terminal::Int | Terminal::Long => {
            tokens.take();
            true
        }
        _ => false,
    }
}

#[tactic(auto, unfolding(crate::specs::StatementsReading::header))]
fn header(alloc: Global, tokens: &mut Cursor<'_>, room: usize) -> Result<LoopHeader, Stop>
    ensures { Reads (λ x. x) (spec.header room tokens.old) result tokens.new }
{
    let typed = typed(tokens);
    let name = name(alloc, tokens)?;
    tokens.expect(Terminal::Becomes)?;
    let start = expr(alloc, tokens, room)?;
    tokens.expect(Terminal::Semicolon)?;
    let cond = cond(alloc, tokens, room)?;
    tokens.expect(Terminal::Semicolon)?;
    let step = step(alloc, tokens)?;
    Ok(LoopHeader {
        typed,
        name,
        start,
        cond,
        step,
    })
}

fn make_loop(
    alloc: Global,
    header: LoopHeader,
    body: Items<Statement>,
    keyword: &Token<'_>,
) -> Result<Items<Statement>, AllocError>
    ensures { IfOk result (λ all. all ≡ spec.loop_of (lexeme_of keyword.now) header body ∷ []) }
{
    let LoopHeader {
        typed,
        name,
        start,
        cond,
        step,
    } = header;
    one(
        alloc,
        Statement::Loop {
            typed,
            name,
            start,
            cond,
            step,
            body,
            place: place(keyword),
        },
    )
}

fn make_branch(
    alloc: Global,
    cond: Items<Part>,
    taken: Items<Statement>,
    other: Items<Statement>,
    keyword: &Token<'_>,
) -> Result<Items<Statement>, AllocError>
    ensures { IfOk result (λ all. all ≡ spec.branch_of (lexeme_of keyword.now) cond taken other ∷ []) }
{
    one(
        alloc,
        Statement::Branch {
            cond,
            taken,
            other,
            place: place(keyword),
        },
    )
}

fn begins_statement(terminal: Terminal) -> bool
    ensures { result ≡ spec.begins_statement terminal }
{
    match terminal {
        Terminal::Semicolon | Terminal::OpenBrace | Terminal::For | Terminal::If => true,
        _ => is_name(terminal),
    }
}

/// All statements up to the first token that begins none, in which `room` more constructs may open.
#[cycle(statements)]
#[tactic(auto, unfolding(crate::specs::StatementsReading::statements, crate::specs::StatementsReading::statements_of, crate::specs::ReaderCombinators::many, crate::specs::ReaderCombinators::many_from), using(crate::proofs::StatementTurns::turns))]
pub fn statements(
    alloc: Global,
    tokens: &mut Cursor<'_>,
    room: usize,
) -> Result<Items<Statement>, Stop>
    ensures { Reads (λ x. x) (spec.statements room tokens.old) result tokens.new }
{
    let mut all = Items::new(alloc);
    for _turn in 0..tokens.count() {
        if !begins_statement(tokens.peek()) {
            return Ok(all);
        }
        let more = statement(alloc, tokens, room)?;
        all = joined(all, more)?;
    }
    Ok(all)
}

#[cycle(statements)]
#[tactic(auto, unfolding(crate::specs::StatementsReading::statement, crate::specs::StatementsReading::statement_in))]
fn statement(alloc: Global, tokens: &mut Cursor<'_>, room: usize) -> Result<Items<Statement>, Stop>
    ensures { Reads (λ x. x) (spec.statement room tokens.old) result tokens.new }
{
    match tokens.peek() {
        Terminal::Semicolon => {
            tokens.take();
            Ok(Items::new(alloc))
        }
        Terminal::OpenBrace => block(alloc, tokens, room),
        Terminal::For => repetition(alloc, tokens, room),
        Terminal::If => branch(alloc, tokens, room),
        _ => assignment(alloc, tokens, room),
    }
}

#[cycle(statements)]
#[tactic(auto, unfolding(crate::specs::StatementsReading::block, crate::specs::StatementsReading::statements), using(crate::proofs::StatementTurns::inside))]
fn block(alloc: Global, tokens: &mut Cursor<'_>, room: usize) -> Result<Items<Statement>, Stop>
    ensures { Reads (λ x. x) (spec.block room (spec.statement_inside room) tokens.old) result tokens.new }
{
    let inner = open(tokens, Terminal::OpenBrace, room)?;
    let all = statements(alloc, tokens, inner)?;
    tokens.expect(Terminal::CloseBrace)?;
    Ok(all)
}

#[cycle(statements)]
#[tactic(auto, unfolding(crate::specs::StatementsReading::repetition), using(crate::proofs::StatementTurns::inside))]
fn repetition(alloc: Global, tokens: &mut Cursor<'_>, room: usize) -> Result<Items<Statement>, Stop>
    ensures { Reads (λ x. x) (spec.repetition room (spec.statement_inside room) tokens.old) result tokens.new }
{
    let keyword = tokens.take();
    let inner = open(tokens, Terminal::Open, room)?;
    let header = header(alloc, tokens, inner)?;
    tokens.expect(Terminal::Close)?;
    let body = statement(alloc, tokens, inner)?;
    Ok(make_loop(alloc, header, body, &keyword)?)
}

#[cycle(statements)]
#[tactic(auto, unfolding(crate::specs::StatementsReading::otherwise), using(crate::proofs::StatementTurns::inside))]
fn otherwise(alloc: Global, tokens: &mut Cursor<'_>, room: usize) -> Result<Items<Statement>, Stop>
    ensures { Reads (λ x. x) (spec.otherwise (spec.statement room) tokens.old) result tokens.new }
{
    match tokens.peek() {
        Terminal::Else => {
            tokens.take();
            statement(alloc, tokens, room)
        }
        _ => Ok(Items::new(alloc)),
    }
}

#[cycle(statements)]
#[tactic(auto, unfolding(crate::specs::StatementsReading::branch), using(crate::proofs::StatementTurns::inside))]
fn branch(alloc: Global, tokens: &mut Cursor<'_>, room: usize) -> Result<Items<Statement>, Stop>
    ensures { Reads (λ x. x) (spec.branch room (spec.statement_inside room) tokens.old) result tokens.new }
{
    let keyword = tokens.take();
    let inner = open(tokens, Terminal::Open, room)?;
    let cond = cond(alloc, tokens, inner)?;
    tokens.expect(Terminal::Close)?;
    let taken = statement(alloc, tokens, inner)?;
    let other = otherwise(alloc, tokens, inner)?;
    Ok(make_branch(alloc, cond, taken, other, &keyword)?)
}
