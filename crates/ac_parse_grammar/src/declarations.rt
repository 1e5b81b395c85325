//! Types, parameters and locals.

ghost use Rattle.std.specs.Prelude.{◌≡◌};
ghost use Rattle.ac_parse_grammar.specs.ReaderCombinators.{Reads};
ghost use Rattle.ac_parse_grammar.specs.DeclarationsReading as spec;

use crate::constructs::{inside, joined};
use crate::cursor::{Cursor, Stop};
use crate::expressions::{comma, expr};
use crate::terminal::Terminal;
use crate::tree::{Declared, Extent};
use crate::words::{name, place};
use ac_base::Items;
use std::alloc::Global;

/// Whether the numbers of a type are whole.
#[tactic(auto, unfolding(crate::specs::DeclarationsReading::numbers))]
fn numbers(tokens: &mut Cursor<'_>) -> Result<bool, Stop>
    ensures { Reads (λ whole. whole) (spec.numbers tokens.old) result tokens.new }
{
    let whole = match tokens.peek() {
        Terminal::Int | Terminal::Long => true,
        Terminal::Float | Terminal::Double => false,
        _ => return Err(Stop::Syntax),
    };
    tokens.take();
    Ok(whole)
}

/// Passes a type, and says whether its numbers are whole.
#[tactic(auto, unfolding(crate::specs::DeclarationsReading::scalar))]
fn scalar(tokens: &mut Cursor<'_>) -> Result<bool, Stop>
    ensures { Reads (λ whole. whole) (spec.scalar tokens.old) result tokens.new }
{
    match tokens.peek() {
        Terminal::Const => {
            tokens.take();
            numbers(tokens)
        }
        _ => numbers(tokens),
    }
}

fn begins_type(terminal: Terminal) -> bool
    ensures { result ≡ spec.begins_type terminal }
{
    matches!(
        terminal,
        Terminal::Const | Terminal::Int | Terminal::Long | Terminal::Float | Terminal::Double
    )
}

/// An extent, whose opening bracket comes next.
#[tactic(auto, unfolding(crate::specs::DeclarationsReading::extent))]
fn extent(alloc: Global, tokens: &mut Cursor<'_>, room: usize) -> Result<Extent, Stop>
    ensures { Reads (λ extent. extent) (spec.extent room tokens.old) result tokens.new }
{
    let Some(inner) = inside(room) else {
        return Err(Stop::Nesting);
    };
    let bracket = tokens.take();
    let size = expr(alloc, tokens, inner)?;
    tokens.expect(Terminal::CloseBracket)?;
    Ok(Extent {
        size,
        place: place(&bracket),
    })
}

#[tactic(auto, unfolding(crate::specs::DeclarationsReading::extents, crate::specs::ReaderCombinators::many, crate::specs::ReaderCombinators::many_from), using(crate::proofs::StatementTurns::turns))]
fn extents(alloc: Global, tokens: &mut Cursor<'_>, room: usize) -> Result<Items<Extent>, Stop>
    ensures { Reads (λ all. all) (spec.extents room tokens.old) result tokens.new }
{
    let mut all = Items::new(alloc);
    for _turn in 0..tokens.count() {
        if !tokens.sees(Terminal::OpenBracket) {
            return Ok(all);
        }
        let extent = extent(alloc, tokens, room)?;
        all.push(extent)?;
    }
    Ok(all)
}

/// A name and its extents, behind a type.
#[tactic(auto, unfolding(crate::specs::DeclarationsReading::declared))]
fn declared(
    alloc: Global,
    tokens: &mut Cursor<'_>,
    room: usize,
    whole: bool,
) -> Result<Declared, Stop>
    ensures { Reads (λ declared. declared) (spec.declared room whole tokens.old) result tokens.new }
{
    let name = name(alloc, tokens)?;
    let extents = extents(alloc, tokens, room)?;
    Ok(Declared {
        whole,
        name,
        extents,
    })
}

#[tactic(auto, unfolding(crate::specs::DeclarationsReading::parameter))]
fn parameter(alloc: Global, tokens: &mut Cursor<'_>, room: usize) -> Result<Declared, Stop>
    ensures { Reads (λ declared. declared) (spec.parameter room tokens.old) result tokens.new }
{
    let whole = scalar(tokens)?;
    declared(alloc, tokens, room, whole)
}

#[tactic(auto, unfolding(crate::specs::DeclarationsReading::list, crate::specs::ReaderCombinators::repeat, crate::specs::ReaderCombinators::repeat_from), using(crate::proofs::StatementTurns::turns))]
fn parameter_list(
    alloc: Global,
    tokens: &mut Cursor<'_>,
    room: usize,
) -> Result<Items<Declared>, Stop>
    ensures { Reads (λ all. all) (spec.list (spec.parameter room) tokens.old) result tokens.new }
{
    let mut all = Items::new(alloc);
    let first = parameter(alloc, tokens, room)?;
    all.push(first)?;
    for _turn in 0..tokens.count() {
        let Some(()) = comma(tokens) else {
            return Ok(all);
        };
        let next = parameter(alloc, tokens, room)?;
        all.push(next)?;
    }
    Ok(all)
}

/// What stands in the parentheses behind the name of the function.
#[tactic(auto, unfolding(crate::specs::DeclarationsReading::parameters))]
pub fn parameters(
    alloc: Global,
    tokens: &mut Cursor<'_>,
    room: usize,
) -> Result<Items<Declared>, Stop>
    ensures { Reads (λ all. all) (spec.parameters room tokens.old) result tokens.new }
{
    match tokens.peek() {
        Terminal::Close => Ok(Items::new(alloc)),
        Terminal::Void => {
            tokens.take();
            Ok(Items::new(alloc))
        }
        _ => parameter_list(alloc, tokens, room),
    }
}

#[tactic(auto, unfolding(crate::specs::DeclarationsReading::list, crate::specs::ReaderCombinators::repeat, crate::specs::ReaderCombinators::repeat_from), using(crate::proofs::StatementTurns::turns))]
fn declared_list(
    alloc: Global,
    tokens: &mut Cursor<'_>,
    room: usize,
    whole: bool,
) -> Result<Items<Declared>, Stop>
    ensures { Reads (λ all. all) (spec.list (spec.declared room whole) tokens.old) result tokens.new }
{
    let mut all = Items::new(alloc);
    let first = declared(alloc, tokens, room, whole)?;
    all.push(first)?;
    for _turn in 0..tokens.count() {
        let Some(()) = comma(tokens) else {
            return Ok(all);
        };
        let next = declared(alloc, tokens, room, whole)?;
        all.push(next)?;
    }
    Ok(all)
}

/// The locals of one line.
#[tactic(auto, unfolding(crate::specs::DeclarationsReading::declaration))]
fn declaration(alloc: Global, tokens: &mut Cursor<'_>, room: usize) -> Result<Items<Declared>, Stop>
    ensures { Reads (λ all. all) (spec.declaration room tokens.old) result tokens.new }
{
    let whole = scalar(tokens)?;
    let all = declared_list(alloc, tokens, room, whole)?;
    tokens.expect(Terminal::Semicolon)?;
    Ok(all)
}

/// All locals, up to the first token that begins no type.
#[tactic(auto, unfolding(crate::specs::DeclarationsReading::declarations, crate::specs::ReaderCombinators::many, crate::specs::ReaderCombinators::many_from), using(crate::proofs::StatementTurns::turns))]
pub fn declarations(
    alloc: Global,
    tokens: &mut Cursor<'_>,
    room: usize,
) -> Result<Items<Declared>, Stop>
    ensures { Reads (λ all. all) (spec.declarations room tokens.old) result tokens.new }
{
    let mut all = Items::new(alloc);
    for _turn in 0..tokens.count() {
        if !begins_type(tokens.peek()) {
            return Ok(all);
        }
        let more = declaration(alloc, tokens, room)?;
        all = joined(all, more)?;
    }
    Ok(all)
}
